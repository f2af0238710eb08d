// Every call keeps good form: theorems about the definitions of stream_record, stream_conn, stream_table, streams and
// stream_places (01, Answers: "every call keeps them"). There is no function here; proofs/ has the theorems.

#![tactic(auto)]
