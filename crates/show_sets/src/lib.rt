// The line of an event of the duplicate window, the range set or the recorder: its answer, and the state after it (docs/EVENTS.md).
#![tactic(auto)]

use drive_sets::{Did, Noted};
use out::Out;

// The window's line.
pub fn window(n: Noted, out: &mut Out) {
    say::all(out, n.said);
    out.text(b" | next=");
    out.number(n.dedup.next());
}

// The answer and its values: a popped range and the parts of a replace print as ranges.
fn show_values(d: Did, code: u8, parts: &[u64], out: &mut Out) {
    let said = d.said;
    let done = said.answer == answers::OK;
    match code {
        codes::RS_POP if done => {
            say_answer::name(out, said.answer);
            say::range(out, said.a, said.b);
        }
        codes::RS_REPLACE if done => {
            say::all(out, said);
            say::ranges(out, parts, d.parts);
        }
        _ => say::all(out, said),
    }
}

// A set's line.
pub fn set(d: Did, code: u8, list: &[u64], parts: &[u64], out: &mut Out) {
    show_values(d, code, parts, out);
    out.text(b" |");
    say::ranges(out, list, d.count);
}
