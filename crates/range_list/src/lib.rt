// Ranges of numbers on lent memory: the flat list s0, e0, s1, e1, .. with a count of ranges (01, Range set).
// The check of good form, and the moves that put ranges in the place of others. The set's operations are in `range_set`.
#![tactic(auto)]

ghost use Rattle.std.specs.Prelude.{◌≡◌, true, false, [], ◌++◌, ◌∷◌, ℕ, ◌+◌, ◌-◌, ◌*◌, ◌/◌, ◌<◌, ◌≤◌, length, get_or, take, drop, set};
ghost use Rattle.std.proofs.Math.Seq.{paste};
ghost use Rattle.range_list.specs.Ranges.{Range, read, flat, over, well_formed, splice};

// The highest end of a range, 2^62: ends are exclusive, numbers go up to 2^62 - 1 (01, Limits).
pub const LIMIT: u64 = 4611686018427387904;

// Whether list holds count ranges in good form: its first 2 * count numbers are strictly ascending, the last at most 2^62.
pub fn well_formed(list: &[u64], count: usize) -> bool
    ensures { result ≡ well_formed list.now count }
{
    if list.len() / 2 < count {
        return false;
    }
    if count == 0 {
        return true;
    }
    let numbers = &list[..count * 2];
    numbers.is_sorted_by(|a, b| *a < *b) && numbers[count * 2 - 1] <= LIMIT
}

// Moves n numbers from index `from` to index `to`; where they stand there already, however many they are, nothing is moved.
fn shift(list: &mut [u64], from: usize, to: usize, n: usize)
    requires { (from + n ≤ length list.old) × (to + n ≤ length list.old) }
    ensures { list.new ≡ paste list.old to (drop from list.old) n }
{
    if from != to {
        list.copy_within(from..from + n, to);
    }
}

// Takes the ranges lo..hi out.
pub fn splice_none(list: &mut [u64], count: usize, lo: usize, hi: usize)
    requires { (lo ≤ hi) × (hi ≤ count) × (count ≤ length list.old / 2) }
    ensures { list.new ≡ over (flat (splice (read list.old 0 count) lo hi [])) list.old }
{
    shift(list, hi * 2, lo * 2, (count - hi) * 2);
}

// Puts the range a..b in the place of the ranges lo..hi.
pub fn splice_one(list: &mut [u64], count: usize, lo: usize, hi: usize, a: u64, b: u64)
    requires { (lo ≤ hi) × (hi ≤ count) × (count ≤ length list.old / 2) × (lo + 1 + (count - hi) ≤ length list.old / 2) }
    ensures { list.new ≡ over (flat (splice (read list.old 0 count) lo hi (record { lo = a; hi = b } ∷ []))) list.old }
{
    shift(list, hi * 2, lo * 2 + 2, (count - hi) * 2);
    list[lo * 2] = a;
    list[lo * 2 + 1] = b;
}

// Puts the ranges a..b and c..d in the place of the ranges lo..hi.
pub fn splice_two(
    list: &mut [u64],
    count: usize,
    lo: usize,
    hi: usize,
    a: u64,
    b: u64,
    c: u64,
    d: u64,
)
    requires { (lo ≤ hi) × (hi ≤ count) × (count ≤ length list.old / 2) × (lo + 2 + (count - hi) ≤ length list.old / 2) }
    ensures { list.new ≡ over (flat (splice (read list.old 0 count) lo hi (record { lo = a; hi = b } ∷ record { lo = c; hi = d } ∷ []))) list.old }
{
    shift(list, hi * 2, lo * 2 + 4, (count - hi) * 2);
    list[lo * 2] = a;
    list[lo * 2 + 1] = b;
    list[lo * 2 + 2] = c;
    list[lo * 2 + 3] = d;
}
