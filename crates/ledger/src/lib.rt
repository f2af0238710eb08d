// The state of one connection, and what an event does to it: `step` is its module's step on its part of the state, and what is no event leaves all as
// it was (docs/EVENTS.md). What is small is one record by value, whose parts are those of ledger_lists and ledger_peers and what the last event of a
// module without a state gave; lists and tables lie in lent arrays.
#![tactic(auto)]

ghost use Rattle.std.specs.Prelude.{◌≡◌};
ghost use Rattle.ledger.specs.Ledger.{begun, leafed, leaf_of, stepped, step_of};

use drive_leaf::Gave as Leaf;
use events::Event;
use ledger_lists::Lists;
use ledger_peers::Peers;

// What is kept from event to event. `code` is the last event's.
#[derive(Clone, Copy)]
pub struct State {
    pub code: u8,
    pub leaf: Leaf,
    pub lists: Lists,
    pub peers: Peers,
}

// Nothing happened yet.
pub fn begin() -> State
    ensures { result ≡ begun }
{
    let leaf = drive_leaf::begin();
    let lists = ledger_lists::begin();
    let peers = ledger_peers::begin();
    State {
        code: 0,
        leaf,
        lists,
        peers,
    }
}

// The modules without a state.
fn leaf(
    e: Event,
    numbers: &[u64; 32768],
    bytes: &[u8; 65536],
    scratch: &mut [u8; 65536],
    mut s: State,
    list: &mut [u64; 32768],
) -> State
    ensures { leafed result scratch.new list.new ≡ leaf_of e numbers.now bytes.now scratch.old s list.old }
{
    let g = drive_leaf::step(
        e.code, numbers, e.count, bytes, e.first, e.size, scratch, list,
    );
    s.leaf = g;
    s
}

// One event: what is no event (a code below CT_EQ) leaves all as it was.
#[tactic(auto, unfolding(crate::specs::Ledger::step_of, crate::specs::Ledger::event_of))]
pub fn step(
    e: Event,
    numbers: &[u64; 32768],
    bytes: &[u8; 65536],
    scratch: &mut [u8; 65536],
    mut s: State,
    memory: &mut [u64; 2432],
    list: &mut [u64; 32768],
) -> State
    ensures { stepped result scratch.new memory.new list.new ≡ step_of e numbers.now bytes.now scratch.old s memory.old list.old }
{
    let code = e.code;
    if code < codes::CT_EQ {
        return s;
    }
    s.code = code;
    let kind = code / 16;
    // The modules 0 to 3 and 7 have no state, 4 to 6 are of the lists, the others of the peer.
    match kind {
        0..=3 | 7 => return leaf(e, numbers, bytes, scratch, s, list),
        4..=6 => {
            let l = ledger_lists::step(kind, code, e.count, numbers, s.lists, memory, list);
            s.lists = l;
        }
        _ => {
            let p = ledger_peers::step(
                kind, code, e.first, e.size, numbers, bytes, s.peers, memory,
            );
            s.peers = p;
        }
    }
    s
}
