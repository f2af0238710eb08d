// The line of the last event of a connection's state (docs/EVENTS.md).
#![tactic(auto)]

use ledger::State;
use ledger_lists::Lists;
use ledger_peers::Peers;
use out::Out;

// The window's line (module 4), the range set's (5) or the recorder's.
fn show_lists(
    s: Lists,
    module: u8,
    code: u8,
    memory: &[u64; 2432],
    list: &[u64; 32768],
    out: &mut Out,
) {
    match module {
        4 => show_sets::window(s.window, out),
        5 => show_sets::set(s.ranges.did, code, memory, list, out),
        _ => {
            let acks = &memory[ledger_lists::ACKS..ledger_lists::TABLE];
            show_sets::set(s.acks, code, acks, list, out);
        }
    }
}

// The connection ids' line (module 8), the MTU search's (9) or the streams'.
fn show_peers(s: Peers, module: u8, memory: &[u64; 2432], out: &mut Out) {
    match module {
        8 => show_cq::show(s.cids, out),
        9 => show_mt::show(s.mtud, out),
        _ => {
            let table = &memory[ledger_lists::TABLE..ledger_peers::MEMORY];
            show_st::show(s.streams, table, out);
        }
    }
}

// The line of the last event. A module is a number, and no enum: `codes` numbers the events, 16 to a module.
pub fn show(
    s: State,
    scratch: &[u8; 65536],
    memory: &[u64; 2432],
    list: &[u64; 32768],
    out: &mut Out,
) {
    let code = s.code;
    let module = code / 16;
    match module {
        4..=6 => show_lists(s.lists, module, code, memory, list, out),
        8..=10 => show_peers(s.peers, module, memory, out),
        _ => show_leaf::show(s.leaf, code, scratch, list, out),
    }
    say::end(out);
}
