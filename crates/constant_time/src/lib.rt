// Whether two byte strings agree, in time that their lengths alone decide: for reset tokens (01, Token comparison; constant_time.rs).
// Every byte is visited whatever was found before it, and no test is made on a byte before the last is visited.
#![tactic(auto)]

ghost use Rattle.std.specs.Prelude.{◌≡◌, length};
ghost use Rattle.constant_time.specs.Agree.{agree, differs};

// What one pass over two strings of one length finds.
#[derive(Clone, Copy, Debug, PartialEq, Eq)]
pub struct Difference {
    // every bit in which two bytes at one place differ
    pub bits: u8,
    // how many turns the pass took
    pub turns: usize,
}

// Gathers the differences of all bytes, with no branch on any of them.
fn differ(a: &[u8], b: &[u8]) -> Difference
    requires { length a.now ≡ length b.now }
    ensures { result ≡ differs a.now b.now }
{
    let mut bits: u8 = 0;
    let mut turns = 0;
    // counted, and not read off the length: `turns_all` says that the pass itself takes one turn a byte
    for (x, y) in a.iter().zip(b) {
        bits |= *x ^ *y;
        turns += 1;
    }
    Difference { bits, turns }
}

// Yes exactly when the lengths are the same and all bytes agree.
pub fn eq(a: &[u8], b: &[u8]) -> bool
    ensures { result ≡ agree a.now b.now }
{
    if a.len() != b.len() {
        return false;
    }
    let d = differ(a, b);
    d.bits == 0
}

// The same of two fixed byte strings, as a reset token is: yes exactly when all 16 bytes agree.
pub fn eq16(a: &[u8; 16], b: &[u8; 16]) -> bool
    ensures { result ≡ agree a.now b.now }
{
    eq(a, b)
}
