// The number and name of an answer, as the programs print them (docs/EVENTS.md).
#![tactic(auto)]

use out::Out;

// Each answer as it prints, at its number: one text, as most of what a line costs is the texts that it is put together from. A table and no use of a
// refusal's Display, as OK is an answer too, and what is no answer has a name.
static NAMES: [&str; 13] = [
    "0 OK",
    "1 SHORT",
    "2 RANGE",
    "3 MALFORMED",
    "4 KIND",
    "5 FULL",
    "6 ORDER",
    "7 FLOW",
    "8 FINAL",
    "9 LIMIT",
    "10 STATE",
    "11 ROOM",
    "12 RETIRED",
];

// An answer's number and name.
pub fn name(out: &mut Out, answer: u8) {
    match NAMES.get(answer as usize) {
        Some(name) => out.text(name.as_bytes()),
        None => out.text(b"??"),
    }
}
