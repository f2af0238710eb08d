// A set of numbers as ranges on lent memory: quinn-proto's range_set (btree_range_set.rs, array_range_set.rs), 01, Range set.
// The set is the flat list s0, e0, s1, e1, .. with a count of ranges, half-open, ascending, none empty, a number missing between neighbours.
// Each call checks the list once (Range unless it is in good form), and leaves what lies past the resulting list as it was.
#![tactic(auto)]

ghost use Rattle.std.specs.Prelude.{Some, ◌≡◌, true, ℕ, ◌+◌, ◌^◌, ◌<◌, ◌≤◌, length, ltb};
ghost use Rattle.range_list.specs.Ranges.{read, well_formed};
ghost use Rattle.range_edit.specs.Edits.{insert, done, both};
ghost use Rattle.range_set.specs.Set.{valid, insert_range, remove_range, replace_range, add_set, subtract_set, held_of, least, greatest, bound_of, size_of, pop, pop_min, cap, cappable, insert_capped};

use answers::Refusal;
use range_edit::{Changed, Replaced, covered, grow, passed, put, put_reporting, take_out};
use range_list::{LIMIT, splice_none, splice_one, well_formed};
use range_many::{Way, merge};

// The numbers start..end.
#[derive(Clone, Copy, Debug, PartialEq, Eq)]
pub struct Span {
    pub start: u64,
    pub end: u64,
}

// The range start..end that was taken, and how many are left.
#[derive(Clone, Copy, Debug, PartialEq, Eq)]
pub struct Popped {
    pub count: usize,
    pub start: u64,
    pub end: u64,
}

// How many ranges there are now, whether the number was new, and the range that was dropped to keep the limit.
#[derive(Clone, Copy, Debug, PartialEq, Eq)]
pub struct Capped {
    pub count: usize,
    pub changed: bool,
    pub dropped: Option<Span>,
}

// Whether start and end are within bounds, and list holds count ranges in good form.
fn usable(list: &[u64], count: usize, start: u64, end: u64) -> bool
    ensures { result ≡ valid list.now count start end }
{
    if LIMIT < start || LIMIT < end {
        return false;
    }
    well_formed(list, count)
}

// Says whether x is in the set.
pub fn contains(list: &[u64], count: usize, x: u64) -> Result<bool, Refusal>
    ensures { result ≡ held_of list.now count x }
{
    if LIMIT <= x { // no number to ask for
        return Err(Refusal::Range);
    }
    if !well_formed(list, count) {
        return Err(Refusal::Range);
    }
    let at = passed(list, count, x);
    Ok(covered(list, at, count, x, x + 1))
}

// Puts x into the set, and says whether it is new.
pub fn insert_one(list: &mut [u64], count: usize, x: u64) -> Result<Changed, Refusal>
    ensures { done result list.new ≡ insert_range list.old count x (x + 1) }
{
    if LIMIT <= x {
        return Err(Refusal::Range); // x is no number
    }
    insert(list, count, x, x + 1)
}

// Puts the numbers start..end into the set, and says whether any is new.
pub fn insert(list: &mut [u64], count: usize, start: u64, end: u64) -> Result<Changed, Refusal>
    ensures { done result list.new ≡ insert_range list.old count start end }
{
    if !usable(list, count, start, end) {
        return Err(Refusal::Range); // nothing was put in
    }
    if end <= start { // nothing to put in
        return Ok(Changed {
            count,
            changed: false,
        });
    }
    put(list, count, start, end)
}

// Takes the numbers start..end out of the set, and says whether any was there.
pub fn remove(list: &mut [u64], count: usize, start: u64, end: u64) -> Result<Changed, Refusal>
    ensures { done result list.new ≡ remove_range list.old count start end }
{
    if !usable(list, count, start, end) {
        return Err(Refusal::Range); // nothing was taken out
    }
    if end <= start { // nothing to take out
        return Ok(Changed {
            count,
            changed: false,
        });
    }
    take_out(list, count, start, end)
}

// Puts the numbers start..end into the set, and writes to parts, ascending, the ranges of those that were there already.
pub fn replace(
    list: &mut [u64],
    count: usize,
    start: u64,
    end: u64,
    parts: &mut [u64],
) -> Result<Replaced, Refusal>
    ensures { both result list.new parts.new ≡ replace_range list.old count start end parts.old }
{
    if !usable(list, count, start, end) {
        return Err(Refusal::Range);
    }
    if end <= start {
        return Ok(Replaced {
            count, // the set stays
            parts: 0,
        });
    }
    put_reporting(list, count, start, end, parts)
}

// Puts the numbers of the second set, of n ranges, into the set, in place, and says whether any is new.
pub fn add(list: &mut [u64], count: usize, other: &[u64], n: usize) -> Result<Changed, Refusal>
    ensures { done result list.new ≡ add_set list.old count other.now n }
{
    if !well_formed(list, count) {
        return Err(Refusal::Range);
    }
    if !well_formed(other, n) { // what is put in has to be a set too
        return Err(Refusal::Range);
    }
    merge(list, count, other, n, Way::PutIn)
}

// Takes the numbers of the second set, of n ranges, out of the set, in place, and says whether any was there.
pub fn subtract(list: &mut [u64], count: usize, other: &[u64], n: usize) -> Result<Changed, Refusal>
    ensures { done result list.new ≡ subtract_set list.old count other.now n }
{
    if !well_formed(list, count) {
        return Err(Refusal::Range);
    }
    if !well_formed(other, n) { // what is taken out has to be a set too
        return Err(Refusal::Range);
    }
    merge(list, count, other, n, Way::TakeOut)
}

// The least number of the set. It and `max` differ in the one line that reads: a helper for their refusals would be no shorter.
pub fn min(list: &[u64], count: usize) -> Result<u64, Refusal>
    ensures { result ≡ bound_of list.now count (least (read list.now 0 count)) }
{
    if !well_formed(list, count) {
        return Err(Refusal::Range);
    }
    if count == 0 {
        return Err(Refusal::Order); // there is no least number
    }
    Ok(list[0])
}

// The greatest number of the set.
pub fn max(list: &[u64], count: usize) -> Result<u64, Refusal>
    ensures { result ≡ bound_of list.now count (greatest (read list.now 0 count)) }
{
    if !well_formed(list, count) {
        return Err(Refusal::Range);
    }
    if count == 0 {
        return Err(Refusal::Order); // there is no greatest number
    }
    Ok(list[count * 2 - 1] - 1)
}

// How many ranges the set has.
pub fn len(list: &[u64], count: usize) -> Result<usize, Refusal>
    ensures { result ≡ size_of list.now count }
{
    if !well_formed(list, count) {
        return Err(Refusal::Range); // not what the caller took for it
    }
    Ok(count) // ranges, not numbers
}

// Takes the lowest range out of the set.
pub fn pop_min(list: &mut [u64], count: usize) -> Result<Popped, Refusal>
    ensures { pop result list.new ≡ pop_min list.old count }
{
    if !well_formed(list, count) {
        return Err(Refusal::Range);
    }
    if count == 0 {
        return Err(Refusal::Order); // there is no range to take
    }
    let start = list[0];
    let end = list[1];
    splice_none(list, count, 0, 1);
    Ok(Popped {
        count: count - 1,
        start,
        end,
    })
}

// Whether x is a number, limit not 0 and not below count, and list holds count ranges in good form.
fn takes(list: &[u64], count: usize, x: u64, limit: usize) -> bool
    ensures { result ≡ cappable list.now count x limit }
{
    if LIMIT <= x || limit == 0 || limit < count {
        return false;
    }
    well_formed(list, count)
}

// Whether the set with x would have more than limit ranges.
fn crowded(list: &[u64], count: usize, x: u64, limit: usize) -> bool
    requires { (x < 2 ^ 62) × (count ≤ limit) × (well_formed list.now count ≡ true) }
    ensures { result ≡ ltb limit (length (insert x (x + 1) (read list.now 0 count))) }
{
    if count < limit {
        return false;
    }
    let at = passed(list, count, x);
    limit < at + 1 + (count - grow(list, at, count, x, x + 1).upto)
}

// A new number that made the range start..end drop, and leaves count ranges.
fn dropping(count: usize, start: u64, end: u64) -> Capped
    ensures { result ≡ record { count = count; changed = true; dropped = Some (record { start = start; end = end }) } }
{
    Capped {
        count,
        changed: true,
        dropped: Some(Span { start, end }),
    }
}

// Puts x into the set; where that makes more than limit ranges the lowest is dropped, the new one too if it is that. No more than limit places are used.
pub fn insert_one_capped(
    list: &mut [u64],
    count: usize,
    x: u64,
    limit: usize,
) -> Result<Capped, Refusal>
    ensures { cap result list.new ≡ insert_capped list.old count x limit }
{
    if !takes(list, count, x, limit) {
        return Err(Refusal::Range);
    }
    if !crowded(list, count, x, limit) {
        let r = put(list, count, x, x + 1)?;
        return Ok(Capped {
            count: r.count,
            changed: r.changed,
            dropped: None,
        });
    }
    let at = passed(list, count, x);
    if at == 0 {
        return Ok(dropping(count, x, x + 1));
    }
    let start = list[0];
    let end = list[1];
    splice_none(list, count, 0, 1);
    splice_one(list, count - 1, at - 1, at - 1, x, x + 1);
    Ok(dropping(count, start, end))
}
