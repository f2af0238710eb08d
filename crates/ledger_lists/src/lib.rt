// The part of a connection's state that keeps numbers: the duplicate window, the range set and the recorder of acknowledgements. Each keeps what its last
// event gave; the lists lie in the lent memory (docs/EVENTS.md).
#![tactic(auto)]

ghost use Rattle.std.specs.Prelude.{◌≡◌, ◌≤◌, length};
ghost use Rattle.drive_sets.specs.Sets as sets;
ghost use Rattle.ledger_lists.specs.Step.{begun, acks_of, listed, step_of};

use drive_rs::Ranges;
use drive_sets::{Did, Noted};

// Where the recorder's list starts in the lent memory, behind the range set's, and where the table of streams starts behind it.
pub const ACKS: usize = 512;

pub const TABLE: usize = 640;

// What is kept from event to event.
#[derive(Clone, Copy)]
pub struct Lists {
    pub window: Noted,
    pub ranges: Ranges,
    pub acks: Did,
}

// Nothing happened yet.
pub fn begin() -> Lists
    ensures { result ≡ begun }
{
    let window = drive_sets::begin();
    let ranges = drive_rs::begin();
    let acks = drive_sets::empty();
    Lists {
        window,
        ranges,
        acks,
    }
}

// The recorder of acknowledgements, in its part of the memory.
fn acks(code: u8, n: u64, count: usize, memory: &mut [u64]) -> Did
    requires { 2432 ≤ length memory.old }
    ensures { sets.done result memory.new ≡ acks_of code n count memory.old }
{
    let from = ACKS;
    let to = TABLE;
    drive_sets::record(code, n, &mut memory[from..to], count)
}

// The modules: of the duplicate window and of the range set. Any other is the recorder's.
const WINDOW: u8 = 4;

const RANGES: u8 = 5;

// One event of the module `kind`.
#[tactic(auto, unfolding(crate::specs::Step::step_of))]
pub fn step(
    kind: u8,
    code: u8,
    count: usize,
    numbers: &[u64; 32768],
    mut s: Lists,
    memory: &mut [u64; 2432],
    list: &mut [u64; 32768],
) -> Lists
    ensures { listed result memory.new list.new ≡ step_of kind code count numbers.now s memory.old list.old }
{
    match kind {
        WINDOW => {
            let old = s.window;
            let w = drive_sets::note(code, numbers[0], old.dedup);
            s.window = w;
            s
        }
        RANGES => {
            let r = drive_rs::step(code, count, numbers, s.ranges, memory, list);
            s.ranges = r;
            s
        }
        _ => {
            let old = s.acks;
            let d = acks(code, numbers[0], old.count, memory);
            s.acks = d;
            s
        }
    }
}
