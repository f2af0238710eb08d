// The range set of one connection: its list lies at the start of the lent memory, with as many places as the last rs.cap gave it (docs/EVENTS.md). An
// event is its step of drive_sets on that part; rs.cap is the only one that has no call in the library.
#![tactic(auto)]

ghost use Rattle.std.specs.Prelude.{◌≡◌, ◌≤◌, length};
ghost use Rattle.drive_rs.specs.Step.{begun, words_of, cap_of, renew_of, change_of, step_of, both};

use drive_sets::Did;

// Places of the set and of its reported parts at the start, and the most that rs.cap sets.
const PLACES: usize = 256;

// What the last event gave, and how many places the set and its reported parts have.
#[derive(Clone, Copy)]
pub struct Ranges {
    pub did: Did,
    pub places: usize,
    pub parts: usize,
}

// The empty set, with all places.
pub fn begin() -> Ranges
    ensures { result ≡ begun }
{
    Ranges {
        did: drive_sets::empty(),
        places: PLACES,
        parts: PLACES,
    }
}

// How many words a list of so many places has; a record that says more places than there are has none.
fn words(places: usize) -> usize
    ensures value { result ≡ words_of places }
    ensures upper_bound { result ≤ 512 }
{
    if places <= PLACES { 2 * places } else { 0 }
}

// The same places, and what an event gave.
fn with(did: Did, r: Ranges) -> Ranges
    ensures { result ≡ record { did = did; places = r.places; parts = r.parts } }
{
    Ranges { did, ..r }
}

// rs.cap: other places from now on, and the set empty. More than the memory has is RANGE.
fn cap(a: u64, b: u64, r: Ranges) -> Ranges
    ensures { result ≡ cap_of a b r }
{
    if 256 < a {
        return with(drive_sets::refused(r.did), r);
    }
    if 256 < b {
        return with(drive_sets::refused(r.did), r);
    }
    Ranges {
        did: drive_sets::empty(),
        places: a as usize,
        parts: b as usize,
    }
}

// rs.new: the set is made in the list, and then put into its part of the memory.
fn renew(n: usize, numbers: &[u64], r: Ranges, memory: &mut [u64], list: &mut [u64]) -> Ranges
    requires { 512 ≤ length memory.old }
    ensures { both result memory.new list.new ≡ renew_of n numbers.now r memory.old list.old }
{
    let end = words(r.places);
    let old = r.did;
    let d = drive_sets::renew(numbers, n, &mut memory[..end], old.count, list);
    with(d, r)
}

// The other events, in the parts of the memory and of the list that they have now.
fn change(
    code: u8,
    n: usize,
    numbers: &[u64; 32768],
    r: Ranges,
    memory: &mut [u64],
    list: &mut [u64],
) -> Ranges
    requires { (512 ≤ length memory.old) × (512 ≤ length list.old) }
    ensures { both result memory.new list.new ≡ change_of code n numbers.now r memory.old list.old }
{
    let end = words(r.places);
    let upto = words(r.parts);
    let old = r.did;
    let d = drive_sets::set(
        code,
        numbers,
        n,
        &mut memory[..end],
        old.count,
        &mut list[..upto],
    );
    with(d, r)
}

// An event of the range set; n words are given.
#[tactic(auto, unfolding(crate::specs::Step::step_of))]
pub fn step(
    code: u8,
    n: usize,
    numbers: &[u64; 32768],
    r: Ranges,
    memory: &mut [u64; 2432],
    list: &mut [u64; 32768],
) -> Ranges
    ensures { both result memory.new list.new ≡ step_of code n numbers.now r memory.old list.old }
{
    match code {
        codes::RS_CAP => cap(numbers[0], numbers[1], r),
        codes::RS_NEW => renew(n, numbers, r, memory, list),
        _ => change(code, n, numbers, r, memory, list),
    }
}
