// A second set put into a set, or taken out of it, in place (01, Range set: add, subtract).
// Inner functions: both lists are in good form. `Way` says which. `range_set` tests its arguments, and is what others call.
//
// A set on the way may need more places than the result, so the ranges are not put in or taken out one after another from the start. First the size of
// the result is found, without writing. Then what makes the list shorter is done, each place written once from the front: ranges that lie in one of the
// second set go, or gaps that one of it fills. From then on each range of the second set leaves no fewer ranges than before, so nothing past the result
// is ever written.
#![tactic(auto)]

ghost use Rattle.std.specs.Prelude.{◌≡◌, true, cond, ℕ, ◌+◌, ◌-◌, ◌*◌, ◌/◌, ◌^◌, ◌<◌, ◌≤◌, length, get_or, set, ltb};
ghost use Rattle.range_list.specs.Ranges.{read, flat, over, well_formed};
ghost use Rattle.range_edit.specs.Edits.{done, covers};
ghost use Rattle.range_many.specs.declared.Way.TheVariants.{PutIn, TakeOut};
ghost use Rattle.range_many.specs.Many.{idle, idle_all, fewer, ties, edit_into, edit_all, FineAll, squeezed, spared, joined, lies, stored, joint, join_one, Ready, merge_into};

use answers::Refusal;
use range_edit::{Changed, Cut, covered, cut_at, grow, passed, put, take_out};

// What is done with the numbers of the second set.
#[derive(Clone, Copy, Debug, PartialEq, Eq)]
pub enum Way {
    PutIn,
    TakeOut,
}

// Whether one range has all of s..e.
fn inside(list: &[u64], count: usize, s: u64, e: u64) -> bool
    requires { (s < e) × (well_formed list.now count ≡ true) }
    ensures { result ≡ covers s e (read list.now 0 count) }
{
    let at = passed(list, count, s);
    covered(list, at, count, s, e)
}

// Whether no range has a number of s..e.
fn outside(list: &[u64], count: usize, s: u64, e: u64) -> bool
    requires { (s < e) × (e ≤ 2 ^ 62) × (well_formed list.now count ≡ true) }
    ensures { result ≡ idle TakeOut s e (read list.now 0 count) }
{
    let at = passed(list, count, s + 1);
    cut_at(list, at, count, e).upto <= at
}

// Whether s..e changes nothing.
fn idle_one(list: &[u64], count: usize, s: u64, e: u64, way: Way) -> bool
    requires { (s < e) × (e ≤ 2 ^ 62) × (well_formed list.now count ≡ true) }
    ensures { result ≡ idle way s e (read list.now 0 count) }
{
    match way {
        Way::PutIn => inside(list, count, s, e),
        Way::TakeOut => outside(list, count, s, e),
    }
}

// Whether no range of other changes anything.
fn idle_all(list: &[u64], count: usize, other: &[u64], n: usize, way: Way) -> bool
    requires { (well_formed list.now count ≡ true) × (well_formed other.now n ≡ true) }
    ensures { result ≡ idle_all way (read list.now 0 count) (read other.now 0 n) }
{
    for j in 0..n {
        if !idle_one(list, count, other[j * 2], other[j * 2 + 1], way) {
            return false;
        }
    }
    true
}

// How many ranges fewer than one more s..e put in leaves.
fn fewer_with(list: &[u64], count: usize, s: u64, e: u64) -> usize
    requires { (s < e) × (e ≤ 2 ^ 62) × (well_formed list.now count ≡ true) }
    ensures { result ≡ fewer PutIn s e (read list.now 0 count) }
{
    let at = passed(list, count, s);
    grow(list, at, count, s, e).upto - at
}

// How many ranges fewer than one more s..e taken out leaves.
fn fewer_without(list: &[u64], count: usize, s: u64, e: u64) -> usize
    requires { (s < e) × (e ≤ 2 ^ 62) × (well_formed list.now count ≡ true) }
    ensures { result ≡ fewer TakeOut s e (read list.now 0 count) }
{
    let at = passed(list, count, s + 1);
    let Cut { upto, last } = cut_at(list, at, count, e);
    if upto <= at {
        return 1;
    }
    let left = usize::from(list[at * 2] < s);
    let right = usize::from(e < last);
    upto - at + 1 - (left + right)
}

// How many ranges fewer than one more s..e leaves.
fn fewer_one(list: &[u64], count: usize, s: u64, e: u64, way: Way) -> usize
    requires { (s < e) × (e ≤ 2 ^ 62) × (well_formed list.now count ≡ true) }
    ensures { result ≡ fewer way s e (read list.now 0 count) }
{
    match way {
        Way::PutIn => fewer_with(list, count, s, e),
        Way::TakeOut => fewer_without(list, count, s, e),
    }
}

// The sum of that over the ranges of other: so many fewer than both together the result has.
fn fewer_all(list: &[u64], count: usize, other: &[u64], n: usize, way: Way) -> usize
    requires { (well_formed list.now count ≡ true) × (well_formed other.now n ≡ true) }
    ensures { result ≡ ties way (read list.now 0 count) (read other.now 0 n) }
{
    let mut sum = 0;
    for j in 0..n {
        sum += fewer_one(list, count, other[j * 2], other[j * 2 + 1], way);
    }
    sum
}

// Writes range number i to place k unless a range of other has all of it; the next place.
fn spare_one(list: &mut [u64], k: usize, i: usize, other: &[u64], n: usize) -> usize
    requires { (k ≤ i) × (i < length list.old / 2) × (get_or list.old (i * 2) 0 < get_or list.old (i * 2 + 1) 0) × (well_formed other.now n ≡ true) }
    ensures { (result ≡ cond (lies (read other.now 0 n) list.old i) k (k + 1)) × (list.new ≡ cond (lies (read other.now 0 n) list.old i) list.old (stored list.old k (get_or list.old (i * 2) 0) (get_or list.old (i * 2 + 1) 0))) }
{
    let s = list[i * 2];
    let e = list[i * 2 + 1];
    if inside(other, n, s, e) {
        return k;
    }
    list[k * 2] = s;
    list[k * 2 + 1] = e;
    k + 1
}

// Keeps the ranges that no range of other has all of; how many they are.
fn spare(list: &mut [u64], count: usize, other: &[u64], n: usize) -> usize
    requires { (well_formed list.old count ≡ true) × (well_formed other.now n ≡ true) }
    ensures { (result ≡ length (spared (read other.now 0 n) (read list.old 0 count))) × (list.new ≡ over (flat (spared (read other.now 0 n) (read list.old 0 count))) list.old) }
{
    let mut k = 0;
    for i in 0..count {
        k = spare_one(list, k, i, other, n);
    }
    k
}

// Where the next range goes, and the start of the one that is growing.
#[derive(Clone, Copy)]
struct Joint {
    k: usize,
    lo: u64,
}

// The growing range starts at lo and ends where range number i - 1 does. Unless a range of other fills the gap up to range i, it goes to place k.
fn join_one(list: &mut [u64], k: usize, lo: u64, i: usize, other: &[u64], n: usize) -> Joint
    requires { (k < i) × (i < length list.old / 2) × (get_or list.old (i * 2 - 1) 0 < get_or list.old (i * 2) 0) × (well_formed other.now n ≡ true) }
    ensures { joint result list.new ≡ join_one (read other.now 0 n) list.old k lo i }
{
    let hi = list[i * 2 - 1];
    let s = list[i * 2];
    if inside(other, n, hi, s) {
        return Joint { k, lo };
    }
    list[k * 2] = lo;
    list[k * 2 + 1] = hi;
    Joint { k: k + 1, lo: s }
}

// Joins the ranges between which a range of other fills the gap; how many they are then.
fn join(list: &mut [u64], count: usize, other: &[u64], n: usize) -> usize
    requires { (well_formed list.old count ≡ true) × (well_formed other.now n ≡ true) }
    ensures { (result ≡ length (joined (read other.now 0 n) (read list.old 0 count))) × (list.new ≡ over (flat (joined (read other.now 0 n) (read list.old 0 count))) list.old) }
{
    if count == 0 {
        return 0;
    }
    let mut k = 0;
    let mut lo = list[0];
    for i in 1..count {
        let g = join_one(list, k, lo, i, other, n);
        k = g.k;
        lo = g.lo;
    }
    let hi = list[count * 2 - 1];
    list[k * 2] = lo;
    list[k * 2 + 1] = hi;
    k + 1
}

// Does what makes the list shorter; how many ranges are left.
fn squeeze(list: &mut [u64], count: usize, other: &[u64], n: usize, way: Way) -> usize
    requires { (well_formed list.old count ≡ true) × (well_formed other.now n ≡ true) }
    ensures { (result ≡ length (squeezed way (read other.now 0 n) (read list.old 0 count))) × (list.new ≡ over (flat (squeezed way (read other.now 0 n) (read list.old 0 count))) list.old) }
{
    match way {
        Way::PutIn => join(list, count, other, n),
        Way::TakeOut => spare(list, count, other, n),
    }
}

// Puts s..e in, or takes it out.
fn edit(list: &mut [u64], count: usize, s: u64, e: u64, way: Way) -> Result<Changed, Refusal>
    requires { (s < e) × (e ≤ 2 ^ 62) × (well_formed list.old count ≡ true) }
    ensures { done result list.new ≡ edit_into way list.old count s e }
{
    match way {
        Way::PutIn => put(list, count, s, e),
        Way::TakeOut => take_out(list, count, s, e),
    }
}

// Puts each range of other in, or takes it out, where none leaves fewer ranges.
fn edit_all(list: &mut [u64], count: usize, other: &[u64], n: usize, way: Way)
    requires { Ready way list.old count other.now n }
    ensures { list.new ≡ over (flat (edit_all way (read list.old 0 count) (read other.now 0 n))) list.old }
{
    let mut k = count;
    for j in 0..n {
        k = edit(list, k, other[j * 2], other[j * 2 + 1], way)
            .unwrap()
            .count;
    }
}

// Puts the set of other into the set, or takes it out; Full, with nothing written, exactly where the result has more ranges than the list has places.
pub fn merge(
    list: &mut [u64],
    count: usize,
    other: &[u64],
    n: usize,
    way: Way,
) -> Result<Changed, Refusal>
    requires { (well_formed list.old count ≡ true) × (well_formed other.now n ≡ true) }
    ensures { done result list.new ≡ merge_into way list.old count (read other.now 0 n) }
{
    if idle_all(list, count, other, n, way) {
        return Ok(Changed {
            count,
            changed: false,
        });
    }
    let size = count + n - fewer_all(list, count, other, n, way);
    if list.len() / 2 < size {
        return Err(Refusal::Full);
    }
    let k = squeeze(list, count, other, n, way);
    edit_all(list, k, other, n, way);
    Ok(Changed {
        count: size,
        changed: true,
    })
}
