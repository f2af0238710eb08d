// Packet numbers in a packet's header: 01, "Packet numbers"; RFC 9000, section 17.1 and appendix A.3; quinn-proto's PacketNumber.
// A sender writes the low bytes alone, as few as the text of 17.1 allows; a receiver finds the number again from the largest one it has.
#![tactic(auto)]

ghost use Rattle.std.specs.Prelude.{◌≡◌, ◌≤◌, ◌<◌, ◌^◌};
ghost use Rattle.packet_number.specs.PacketNumber.{writable, fewest, window, choice, new_of, done, encode_of, expand_of};

use answers::Refusal;

// Packet numbers are below this (RFC 9000, section 12.3).
const LIMIT: u64 = 1 << 62;

// Distances that four bytes can represent twice over are below this.
const FAR: u64 = 1 << 31;

// What goes into the header.
#[derive(Clone, Copy, Debug, PartialEq, Eq)]
pub struct Encoded {
    // how many bytes, 1 to 4
    pub len: usize,
    // the number that they are
    pub value: u64,
}

// Can the number be written: both are packet numbers, in this order, and not too far apart.
fn writable(number: u64, acked: u64) -> bool
    ensures { result ≡ writable number acked }
{
    if number < acked || LIMIT <= number {
        return false;
    }
    number - acked < FAR
}

// The fewest bytes that represent more than twice the distance d: the three edges of 17.1 as they stand, no plainer as a search over lengths.
fn fewest(d: u64) -> usize
    requires { d < 2 ^ 31 }
    ensures { result ≡ fewest d }
{
    let twice = 2 * d;
    if twice < 256 {
        1
    } else if twice < 65536 {
        2
    } else if twice < 16777216 {
        3
    } else {
        4
    }
}

// How many numbers len bytes represent.
fn window(len: usize) -> u64
    requires { len ≤ 4 }
    ensures { result ≡ window len }
{
    1 << (8 * len)
}

// The length and the value of the shortest header field that tells `number` to a peer who acknowledged `acked`; RANGE where there is none.
pub fn new(number: u64, acked: u64) -> Result<Encoded, Refusal>
    ensures { result ≡ new_of number acked }
{
    if writable(number, acked) {
        let len = fewest(number - acked);
        return Ok(Encoded {
            len,
            value: number % window(len),
        });
    }
    Err(Refusal::Range)
}

// Writes the field that `new` describes at the start of out; RANGE as there, then ROOM, and then nothing is written.
pub fn encode(out: &mut [u8], number: u64, acked: u64) -> Result<Encoded, Refusal>
    ensures { done result out.new ≡ encode_of out.old number acked }
{
    let encoded = new(number, acked)?;
    if out.len() < encoded.len {
        return Err(Refusal::Room);
    }
    big_endian::put(out, encoded.len, number);
    Ok(encoded)
}

// Of the numbers that end in `truncated`, the one that A.3 takes where `expected` is the next.
fn choose(expected: u64, win: u64, truncated: u64) -> u64
    requires { (expected ≤ 2 ^ 62) × ((1 ≤ win) × ((win ≤ 2 ^ 32) × (truncated < win))) }
    ensures { result ≡ choice expected win truncated }
{
    let half = win / 2;
    let candidate = expected - expected % win + truncated;
    if candidate + half <= expected && candidate + win < LIMIT {
        return candidate + win;
    }
    if expected + half < candidate && win <= candidate {
        return candidate - win;
    }
    candidate
}

// The full packet number of a header's len bytes, for a receiver whose largest number is `largest`: RANGE where an argument is outside its
// limit, SHORT where bytes are missing, and RANGE where the number is past the last packet number.
pub fn expand(bytes: &[u8], len: usize, largest: u64) -> Result<u64, Refusal>
    ensures { result ≡ expand_of bytes.now len largest }
{
    if len == 0 || 4 < len || LIMIT <= largest {
        return Err(Refusal::Range);
    }
    let Some(truncated) = big_endian::get(bytes, len) else {
        return Err(Refusal::Short);
    };
    let number = choose(largest + 1, window(len), truncated);
    if LIMIT <= number {
        return Err(Refusal::Range);
    }
    Ok(number)
}
