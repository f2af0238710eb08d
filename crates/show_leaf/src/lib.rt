// The line of an event of a module without a state: its answer, and the bytes or ranges that it gave (docs/EVENTS.md).
#![tactic(auto)]

use drive_leaf::Gave;
use out::Out;

// The answer, then the bytes or the ranges that the event has.
pub fn show(g: Gave, code: u8, scratch: &[u8], list: &[u64], out: &mut Out) {
    say::all(out, g.said);
    if g.said.answer != answers::OK {
        return;
    }
    match code {
        codes::VI_ENC | codes::PN_NEW | codes::AF_WRITE => {
            out.text(b" ");
            if let Some(bytes) = scratch.get(..g.size) {
                say::bytes(out, bytes);
            }
        }
        codes::AF_READ => say::ranges(out, list, g.ranges),
        _ => {}
    }
}
