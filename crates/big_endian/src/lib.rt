// The bytes of a number, the most significant first, at the start of a buffer: so a varint (RFC 9000, section 16) and a packet number (17.1) are
// written and read.
#![tactic(auto)]

ghost use Rattle.std.specs.Prelude.{◌≡◌};
ghost use Rattle.big_endian.specs.Bytes.{put_bytes, get_bytes};

// Writes the n bytes of x at the start of out, where it has room for them; else nothing.
pub fn put(out: &mut [u8], n: usize, x: u64)
    ensures { out.new ≡ put_bytes n x out.old }
{
    if out.len() < n {
        return;
    }
    let mut rest = x;
    for i in (0..n).rev() {
        out[i] = (rest % 256) as u8;
        rest /= 256;
    }
}

// The number that the first n bytes of s are; None where s has fewer, or where n is more than the eight bytes of a u64.
pub fn get(s: &[u8], n: usize) -> Option<u64>
    ensures { result ≡ get_bytes n s.now }
{
    if s.len() < n || 8 < n {
        return None;
    }
    let mut number = 0;
    for byte in &s[..n] {
        number = number * 256 + u64::from(*byte);
    }
    Some(number)
}
