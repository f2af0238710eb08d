// What the books come to after any sequence of calls from a fresh start: theorems made of the calls' own contracts
// (01, Streams and bytes). There is no function here; proofs/History.antt has the theorem.

#![tactic(auto)]
