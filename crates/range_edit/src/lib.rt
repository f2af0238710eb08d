// One range put into a set, taken out of it, or put in with a report of what was there (01, Range set).
// Inner functions: the list is in good form, and the range not empty. `range_set` tests that once a call, and is what others call.
#![tactic(auto)]

ghost use Rattle.std.specs.Prelude.{◌≡◌, true, ℕ, ◌+◌, ◌-◌, ◌*◌, ◌/◌, ◌^◌, ◌<◌, ◌≤◌, min, max, length};
ghost use Rattle.range_list.specs.Ranges.{Range, read, flat, over, well_formed};
ghost use Rattle.range_edit.specs.Edits.{below, grown, head_covers, cut, clipped, done, insert_into, remove_from, both, replace_in};

use answers::Refusal;
use range_list::{splice_none, splice_one, splice_two};

// What a change of a set gives: how many ranges it has now, and whether it is another set.
#[derive(Clone, Copy, Debug, PartialEq, Eq)]
pub struct Changed {
    pub count: usize,
    pub changed: bool,
}

// What a replace gives: how many ranges the set has now, and how many parts are reported.
#[derive(Clone, Copy, Debug, PartialEq, Eq)]
pub struct Replaced {
    pub count: usize,
    pub parts: usize,
}

// How many ranges end below s: the place of s. The walk from the front is what it means; the callers know only the number.
pub fn passed(list: &[u64], count: usize, s: u64) -> usize
    requires { well_formed list.now count ≡ true }
    ensures { result ≡ below s (read list.now 0 count) }
{
    for i in 0..count {
        if s <= list[i * 2 + 1] {
            return i;
        }
    }
    count
}

// A range that took up the ranges before number upto.
#[derive(Clone, Copy)]
pub struct Grown {
    pub upto: usize,
    pub lo: u64,
    pub hi: u64,
}

// Takes into s..e the ranges from number `from` on that touch it, up to the first that does not.
pub fn grow(list: &[u64], from: usize, count: usize, s: u64, e: u64) -> Grown
    requires { (from ≤ count) × (count ≤ length list.now / 2) }
    ensures { result ≡ grown from s e (read list.now from (count - from)) }
{
    let mut a = s;
    let mut b = e;
    for i in from..count {
        let x = list[i * 2];
        let y = list[i * 2 + 1];
        if b < x {
            return Grown {
                upto: i,
                lo: a,
                hi: b,
            };
        }
        a = a.min(x);
        b = b.max(y);
    }
    Grown {
        upto: count,
        lo: a,
        hi: b,
    }
}

// Whether range number i has all of s..e.
pub fn covered(list: &[u64], i: usize, count: usize, s: u64, e: u64) -> bool
    requires { (i ≤ count) × (count ≤ length list.now / 2) }
    ensures { result ≡ head_covers s e (read list.now i (count - i)) }
{
    if count <= i {
        return false;
    }
    list[i * 2] <= s && e <= list[i * 2 + 1]
}

// A change that leaves count ranges.
fn settled(count: usize) -> Changed
    ensures { result ≡ record { count = count; changed = true } }
{
    Changed {
        count,
        changed: true,
    }
}

// Puts the numbers s..e into the set: what touches them is one range with them.
pub fn put(list: &mut [u64], count: usize, s: u64, e: u64) -> Result<Changed, Refusal>
    requires { (s < e) × (e ≤ 2 ^ 62) × (well_formed list.old count ≡ true) }
    ensures { done result list.new ≡ insert_into list.old count s e }
{
    let lo = passed(list, count, s);
    if covered(list, lo, count, s, e) {
        return Ok(Changed {
            count,
            changed: false, // all was there
        });
    }
    let Grown {
        upto: hi,
        lo: a,
        hi: b,
    } = grow(list, lo, count, s, e);
    let n = lo + 1 + (count - hi);
    if list.len() / 2 < n {
        return Err(Refusal::Full);
    }
    splice_one(list, count, lo, hi, a, b);
    Ok(settled(n))
}

// The number of a range, and the end of the one before it.
#[derive(Clone, Copy)]
pub struct Cut {
    pub upto: usize,
    pub last: u64,
}

// The first range from number `from` on that does not start before e.
pub fn cut_at(list: &[u64], from: usize, count: usize, e: u64) -> Cut
    requires { (from ≤ count) × (count ≤ length list.now / 2) }
    ensures { result ≡ cut from e 0 (read list.now from (count - from)) }
{
    let mut b: u64 = 0;
    for i in from..count {
        if e <= list[i * 2] {
            return Cut { upto: i, last: b };
        }
        b = list[i * 2 + 1];
    }
    Cut {
        upto: count,
        last: b,
    }
}

// Takes the numbers s..e out of the set: a range that has numbers on both sides is split, and needs one place more.
pub fn take_out(list: &mut [u64], count: usize, s: u64, e: u64) -> Result<Changed, Refusal>
    requires { (s < e) × (e ≤ 2 ^ 62) × (well_formed list.old count ≡ true) }
    ensures { done result list.new ≡ remove_from list.old count s e }
{
    let lo = passed(list, count, s + 1);
    let Cut { upto: hi, last } = cut_at(list, lo, count, e);
    if hi <= lo {
        return Ok(Changed {
            count,
            changed: false,
        });
    }
    let first = list[lo * 2];
    let kept = lo + (count - hi);
    if first < s {
        if e < last {
            if list.len() / 2 < kept + 2 {
                return Err(Refusal::Full);
            }
            splice_two(list, count, lo, hi, first, s, e, last);
            return Ok(settled(kept + 2));
        }
        splice_one(list, count, lo, hi, first, s);
        return Ok(settled(kept + 1));
    }
    if e < last {
        splice_one(list, count, lo, hi, e, last);
        return Ok(settled(kept + 1));
    }
    splice_none(list, count, lo, hi);
    Ok(settled(kept))
}

// Writes to out the parts in s..e of n ranges from number `from` on.
fn clip(list: &[u64], from: usize, n: usize, s: u64, e: u64, out: &mut [u64])
    requires { (from + n ≤ length list.now / 2) × (n ≤ length out.old / 2) }
    ensures { out.new ≡ over (flat (clipped s e (read list.now from n))) out.old }
{
    for k in 0..n {
        let i = from + k;
        out[k * 2] = s.max(list[i * 2]);
        out[k * 2 + 1] = e.min(list[i * 2 + 1]);
    }
}

// Puts the numbers s..e into the set, and writes to out, ascending, the parts of s..e that were in it.
pub fn put_reporting(
    list: &mut [u64],
    count: usize,
    s: u64,
    e: u64,
    out: &mut [u64],
) -> Result<Replaced, Refusal>
    requires { (s < e) × (e ≤ 2 ^ 62) × (well_formed list.old count ≡ true) }
    ensures { both result list.new out.new ≡ replace_in list.old count s e out.old }
{
    let first = passed(list, count, s + 1);
    let parts = cut_at(list, first, count, e).upto - first;
    let lo = passed(list, count, s);
    let Grown {
        upto: hi,
        lo: a,
        hi: b,
    } = grow(list, lo, count, s, e);
    let n = lo + 1 + (count - hi);
    if list.len() / 2 < n {
        return Err(Refusal::Full);
    }
    if out.len() / 2 < parts {
        return Err(Refusal::Full);
    }
    clip(list, first, parts, s, e, out);
    splice_one(list, count, lo, hi, a, b);
    Ok(Replaced { count: n, parts })
}
