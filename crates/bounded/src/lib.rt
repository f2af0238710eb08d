// Sums and differences of u64 that stop at a bound instead of wrapping, and the smaller and the greater of two.
// std has each of them or its parts, and the crates here use those; they stand by name as docs/PROMISES.md lists each as a public function, with
// its promise and its edits.
#![tactic(auto)]

ghost use Rattle.std.specs.Prelude.{◌≡◌, ◌+◌, ◌-◌, min, max};

// The difference, or 0 where the second is the greater.
pub fn less(a: u64, b: u64) -> u64
    ensures { result ≡ a - b }
{
    a.saturating_sub(b)
}

// The smaller of the two.
pub fn least(a: u64, b: u64) -> u64
    ensures { result ≡ min a b }
{
    a.min(b)
}

// The greater of the two.
pub fn most(a: u64, b: u64) -> u64
    ensures { result ≡ max a b }
{
    a.max(b)
}

// The sum, or `top` where the sum would pass it.
pub fn within(a: u64, b: u64, top: u64) -> u64
    ensures { result ≡ min (a + b) top }
{
    a.saturating_add(b).min(top)
}
