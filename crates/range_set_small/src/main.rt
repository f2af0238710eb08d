// Tries the range set on all small sets, at capacity, one under it and above, against sets of bits: insert, remove, add, subtract and replace.
// A case is a set of six numbers, a range or a second set, and a number of places. Prints how many cases there were, and how many went wrong.
#![tactic(auto)]

ghost use Rattle.std.specs.Prelude.{◌≤◌};

use answers::Refusal;
use range_edit::{Changed, Replaced};

// The descriptor of standard output.
const STDOUT: i32 = 1;

// 5 calls, 64 sets, 64 second sets or ranges, 5 capacities. In 35,840 of them the set has more ranges than places, and there is nothing to try.
const CASES: u64 = 102400;

// The numbers that a list of this crate holds: eight ranges.
const NUMBERS: usize = 16;

// Two to the power x, for small x.
fn two(x: u64) -> u64 {
    if x < 32 { 1 << x } else { 0 }
}

// The numbers s..e as bits: 2^e - 2^s.
fn span(s: u64, e: u64) -> u64 {
    two(e).saturating_sub(two(s))
}

// Whether number x is in the set of bits.
fn has(bits: u64, x: u64) -> bool {
    x < 32 && (bits >> x) % 2 == 1
}

// Where a walk over the bits stands: the next place of the flat list, and whether the last number was in the set.
#[derive(Clone, Copy)]
struct Walk {
    k: usize,
    inside: bool,
}

// At number x a range begins or ends where the set changes.
fn step(list: &mut [u64], w: Walk, bits: u64, x: u64) -> Walk {
    let now = has(bits, x);
    if now == w.inside {
        return w;
    }
    let k = w.k;
    if list.len() <= k {
        return w;
    }
    list[k] = x;
    Walk {
        k: k + 1,
        inside: now,
    }
}

// Writes the ranges of the set over the front of list; how many they are.
fn ranges_of(list: &mut [u64], bits: u64) -> usize {
    let mut w = Walk {
        k: 0,
        inside: false,
    };
    for x in 0..32 {
        w = step(list, w, bits, x);
    }
    w.k / 2
}

// The calls that are tried.
#[derive(Clone, Copy, PartialEq, Eq)]
enum Call {
    Insert,
    Remove,
    Add,
    Subtract,
    Replace,
}

fn call_at(n: u64) -> Call {
    match n {
        0 => Call::Insert,
        1 => Call::Remove,
        2 => Call::Add,
        3 => Call::Subtract,
        _ => Call::Replace,
    }
}

// What a call is tried on.
#[derive(Clone, Copy)]
struct Case {
    call: Call,
    set: u64,
    second: u64,
    places: usize,
}

// Case number c.
fn case_of(c: u64) -> Case {
    let p = c / 20480 % 5;
    Case {
        call: call_at(c % 5),
        set: c / 5 % 64,
        second: c / 320 % 64,
        places: p as usize,
    }
}

// The second set as a range of 0..8: its start and its end.
fn start_of(second: u64) -> u64 {
    second % 8
}

fn end_of(second: u64) -> u64 {
    second / 8 % 8
}

// The numbers that the call brings or takes: a range, or the second set as it is.
fn moved(k: Case) -> u64 {
    let second = k.second;
    match k.call {
        Call::Add | Call::Subtract => second,
        _ => span(start_of(second), end_of(second)),
    }
}

// The set after the call.
fn after(k: Case) -> u64 {
    let set = k.set;
    let with = moved(k);
    match k.call {
        Call::Remove | Call::Subtract => set ^ (set & with),
        _ => set | with,
    }
}

// How many ranges a set has.
fn size(bits: u64) -> usize {
    let mut list = [0u64; NUMBERS];
    ranges_of(&mut list, bits)
}

// How many numbers the places of a case hold.
fn numbers(k: Case) -> usize
    ensures { result ≤ 16 }
{
    k.places.min(8) * 2
}

// What a call that changes a set gives.
type Change = Result<Changed, Refusal>;

// Makes one of the calls that change a set.
fn call_of(k: Case, list: &mut [u64], count: usize, other: &[u64], n: usize) -> Change {
    let s = start_of(k.second);
    let e = end_of(k.second);
    match k.call {
        Call::Insert => range_set::insert(list, count, s, e),
        Call::Remove => range_set::remove(list, count, s, e),
        Call::Add => range_set::add(list, count, other, n),
        _ => range_set::subtract(list, count, other, n),
    }
}

// What the call gives, and leaves in the list, of which it is lent the first places.
fn changed(k: Case, list: &mut [u64; NUMBERS]) -> Change {
    let count = ranges_of(list, k.set);
    let mut other = [99u64; NUMBERS];
    let n = ranges_of(&mut other, k.second);
    call_of(k, &mut list[..numbers(k)], count, &other, n)
}

// What it is to give and to leave by the bits: Full and nothing written; or the new ranges, and past them what was there.
fn change_wanted(k: Case, list: &mut [u64; NUMBERS]) -> Change {
    ranges_of(list, k.set);
    let set = after(k);
    if k.places < size(set) {
        return Err(Refusal::Full);
    }
    let count = ranges_of(list, set);
    Ok(Changed {
        count,
        changed: set != k.set,
    })
}

fn change_right(k: Case) -> bool {
    let mut list = [99u64; NUMBERS];
    let mut want = [99u64; NUMBERS];
    changed(k, &mut list) == change_wanted(k, &mut want) && list == want
}

// The same of replace, on the first places of both lists.
fn replaced(
    k: Case,
    list: &mut [u64; NUMBERS],
    parts: &mut [u64; NUMBERS],
) -> Result<Replaced, Refusal> {
    let count = ranges_of(list, k.set);
    let end = numbers(k);
    range_set::replace(
        &mut list[..end],
        count,
        start_of(k.second),
        end_of(k.second),
        &mut parts[..end],
    )
}

fn replace_wanted(
    k: Case,
    list: &mut [u64; NUMBERS],
    parts: &mut [u64; NUMBERS],
) -> Result<Replaced, Refusal> {
    ranges_of(list, k.set);
    let set = k.set | moved(k);
    let common = k.set & moved(k);
    if k.places < size(set).max(size(common)) {
        return Err(Refusal::Full);
    }
    let count = ranges_of(list, set);
    let parts = ranges_of(parts, common);
    Ok(Replaced { count, parts })
}

fn replace_right(k: Case) -> bool {
    let mut list = [99u64; NUMBERS];
    let mut want = [99u64; NUMBERS];
    let mut parts = [98u64; NUMBERS];
    let mut reported = [98u64; NUMBERS];
    replaced(k, &mut list, &mut parts) == replace_wanted(k, &mut want, &mut reported)
        && list == want
        && parts == reported
}

// Whether case number c goes wrong; a set with no room in these places never does.
fn is_wrong(c: u64) -> bool {
    let k = case_of(c);
    if k.places < size(k.set) {
        return false;
    }
    if k.call == Call::Replace {
        !replace_right(k)
    } else {
        !change_right(k)
    }
}

// Writes text and a number.
fn say(text: &[u8], n: u64, tail: &[u8]) {
    io::write_all(STDOUT, text);
    let mut digits = [0u8; 20];
    let k = io::decimal(n, &mut digits);
    io::write_all(STDOUT, &digits[..k]);
    io::write_all(STDOUT, tail);
}

fn main() {
    let mut wrong: u64 = 0;
    for c in 0..CASES {
        wrong += u64::from(is_wrong(c));
    }
    say(b"cases ", CASES, b"\n");
    say(b"wrong ", wrong, b"\n");
}
