// The variable-length integers of RFC 9000, section 16 (01, Varint): one at the start or at a position of a buffer is read in
// whatever length it has, and is written in its shortest.
#![tactic(auto)]

ghost use Rattle.std.specs.Prelude.{◌≡◌, ◌<◌, ◌^◌};
ghost use Rattle.varint.specs.Varint.{width, read_varint, read_at, sound, sound_at, size_of, marked, done, write_varint};

use answers::Refusal;

// A varint that was read, with the number of bytes that it took.
#[derive(Clone, Copy, Debug, PartialEq, Eq)]
pub struct Decoded {
    pub value: u64,
    pub len: usize,
}

// No varint is as large as this (section 16: 62 bits are usable).
const LIMIT: u64 = 1 << 62;

// How many bytes an integer has whose first byte is b: the top two bits are the logarithm.
fn width_of(b: u8) -> usize
    ensures { result ≡ width b }
{
    1 << (b / 64)
}

// The integer at the start of s, in whatever length it has; SHORT where s ends inside it.
pub fn read(s: &[u8]) -> Result<Decoded, Refusal>
    ensures value { result ≡ read_varint s.now }
    ensures sound { sound s.now result }
{
    if s.is_empty() {
        return Err(Refusal::Short);
    }
    let len = width_of(s[0]);
    let Some(number) = big_endian::get(s, len) else {
        return Err(Refusal::Short);
    };
    // without the top two bits of the first byte
    Ok(Decoded {
        value: number & ((1 << (8 * len - 2)) - 1),
        len,
    })
}

// The integer at a position of s; SHORT where s ends inside it or before it.
pub fn read_at(s: &[u8], at: usize) -> Result<Decoded, Refusal>
    ensures value { result ≡ read_at s.now at }
    ensures sound { sound_at s.now at result }
{
    if s.len() < at {
        return Err(Refusal::Short);
    }
    read(&s[at..])
}

// How many bytes the shortest form of v has; 0 where v is too large to be a varint.
// A number, not an Option: `size_of` says 0 there, and `size` cannot fail.
pub fn size(v: u64) -> usize
    ensures { result ≡ size_of v }
{
    if v < 64 {
        1
    } else if v < 16384 {
        2
    } else if v < 1073741824 {
        4
    } else if v < LIMIT {
        8
    } else {
        0
    }
}

// The number whose bytes the shortest form of v is: v, with the logarithm of the length in the top two bits.
fn mark(v: u64) -> u64
    requires { v < 2 ^ 62 }
    ensures { result ≡ marked v }
{
    if 1073741824 <= v {
        (3 << 62) + v
    } else if 16384 <= v {
        (2 << 30) + v
    } else if 64 <= v {
        (1 << 14) + v
    } else {
        v
    }
}

// Writes v in its shortest form at the start of out: RANGE where v is no varint, then ROOM where out is too small, and then nothing is written.
pub fn write(out: &mut [u8], v: u64) -> Result<usize, Refusal>
    ensures { done result out.new ≡ write_varint out.old v }
{
    if LIMIT <= v {
        return Err(Refusal::Range);
    }
    let n = size(v);
    if out.len() < n {
        return Err(Refusal::Room);
    }
    big_endian::put(out, n, mark(v));
    Ok(n)
}
