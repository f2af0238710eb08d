// The part of a connection's state that follows the peer: the connection ids, the MTU search and the books of the streams. Each keeps what its last event
// gave; the table of streams lies in the lent memory (docs/EVENTS.md).
#![tactic(auto)]

ghost use Rattle.std.specs.Prelude.{◌≡◌, ◌≤◌, length};
ghost use Rattle.drive_st.specs.Step as st;
ghost use Rattle.ledger_peers.specs.Step.{begun, books_of, peered, step_of};

// Where the lent memory ends, and with it the table of streams.
pub const MEMORY: usize = 2432;

// What is kept from event to event.
#[derive(Clone, Copy)]
pub struct Peers {
    pub cids: drive_cq::Gave,
    pub mtud: drive_mt::Gave,
    pub streams: drive_st::Gave,
}

// Nothing happened yet.
pub fn begin() -> Peers
    ensures { result ≡ begun }
{
    let cids = drive_cq::begin();
    let mtud = drive_mt::begin();
    let streams = drive_st::begin();
    Peers {
        cids,
        mtud,
        streams,
    }
}

// The books of the streams, in their part of the memory.
fn books(
    code: u8,
    numbers: &[u64; 32768],
    k: Option<drive_st::Books>,
    memory: &mut [u64],
) -> drive_st::Gave
    requires { 2432 ≤ length memory.old }
    ensures { st.done result memory.new ≡ books_of code numbers.now k memory.old }
{
    let from = ledger_lists::TABLE;
    let to = MEMORY;
    drive_st::step(code, numbers, &mut memory[from..to], k)
}

// The modules: of the connection ids and of the MTU search. Any other is that of the streams.
const CIDS: u8 = 8;

const MTUD: u8 = 9;

// One event of the module `kind`.
#[tactic(auto, unfolding(crate::specs::Step::step_of))]
pub fn step(
    kind: u8,
    code: u8,
    first: usize,
    size: usize,
    numbers: &[u64; 32768],
    bytes: &[u8; 65536],
    mut s: Peers,
    memory: &mut [u64; 2432],
) -> Peers
    ensures { peered result memory.new ≡ step_of kind code first size numbers.now bytes.now s memory.old }
{
    match kind {
        CIDS => {
            let old = s.cids;
            let g = drive_cq::step(code, numbers, bytes, first, size, old.kept);
            s.cids = g;
        }
        MTUD => {
            let old = s.mtud;
            let g = drive_mt::step(code, numbers, old.kept);
            s.mtud = g;
        }
        _ => {
            let old = s.streams;
            let g = books(code, numbers, old.kept, memory);
            s.streams = g;
        }
    }
    s
}
