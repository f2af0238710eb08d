// Writes the ACK frame of RFC 9000, section 19.3 (01, ACK frame) of a range set and a delay, every integer in its shortest form.
// The whole frame is measured first, so that too little space is known before a byte is written. Its reader is `ack_frame`.
#![tactic(auto)]

ghost use Rattle.std.specs.Prelude.{◌≡◌, true, reverse, ◌+◌, ◌*◌, ◌≤◌, ◌<◌, ◌^◌, length};
ghost use Rattle.varint.specs.Varint.{encode, len_of};
ghost use Rattle.range_list.specs.Ranges.{read, well_formed};
ghost use Rattle.ack_frame.specs.Grammar.{frame_of};
ghost use Rattle.ack_write.specs.Write.{put, pairs_of, Ordered, head_bytes, done, write_ack};

use answers::Refusal;

// No delay is as large as this: it would be no varint.
const LIMIT: u64 = 1 << 62;

// The type of an ACK frame without ECN counts.
const ACK: u8 = 2;

// How many bytes the shortest form of v has.
fn len_of(v: u64) -> usize
    requires { v < 2 ^ 62 }
    ensures { result ≡ len_of v }
{
    varint::size(v)
}

// Writes v at a position of a buffer that has room for it, and returns the position after it.
fn put_at(out: &mut [u8], at: usize, v: u64) -> usize
    requires { (v < 2 ^ 62) × (at + len_of v ≤ length out.old) }
    ensures { (result ≡ at + len_of v) × (out.new ≡ put out.old at (encode v)) }
{
    let Ok(n) = varint::write(&mut out[at..], v) else {
        unreachable!()
    };
    at + n
}

// How many bytes the pairs of the count lowest ranges take, below a range whose smallest number is least.
// A pass beside `put_pairs`: this one keeps a sum and that one a place in a lent buffer, so one pass with a closure would be no plainer.
fn pairs_size(list: &[u64], count: usize, least: u64) -> usize
    requires { (count * 2 ≤ length list.now) × ((least < 2 ^ 62) × Ordered list.now count least) }
    ensures { result ≡ length (pairs_of list.now count least) }
{
    let mut low = least;
    let mut total = 0;
    for n in (0..count).rev() {
        let lo = list[n * 2];
        let hi = list[n * 2 + 1];
        total += len_of(low - hi - 1) + len_of(hi - 1 - lo);
        low = lo;
    }
    total
}

// Writes those pairs at a position of a buffer that has room for them.
fn put_pairs(out: &mut [u8], start: usize, list: &[u64], count: usize, least: u64) -> usize
    requires { (count * 2 ≤ length list.now) × ((least < 2 ^ 62) × ((start + length (pairs_of list.now count least) ≤ length out.old) × Ordered list.now count least)) }
    ensures { (result ≡ start + length (pairs_of list.now count least)) × (out.new ≡ put out.old start (pairs_of list.now count least)) }
{
    let mut low = least;
    let mut at = start;
    for n in (0..count).rev() {
        let lo = list[n * 2];
        let hi = list[n * 2 + 1];
        at = put_at(out, at, low - hi - 1);
        at = put_at(out, at, hi - 1 - lo);
        low = lo;
    }
    at
}

// How many bytes the type and the four fields behind it take.
fn head_size(largest: u64, delay: u64, count: u64, first: u64) -> usize
    requires { (largest < 2 ^ 62) × ((delay < 2 ^ 62) × ((count < 2 ^ 62) × (first < 2 ^ 62))) }
    ensures { result ≡ length (head_bytes largest delay count first) }
{
    1 + len_of(largest) + len_of(delay) + len_of(count) + len_of(first)
}

// Writes them at the start of a buffer that has room for them.
fn put_head(out: &mut [u8], largest: u64, delay: u64, count: u64, first: u64) -> usize
    requires { (largest < 2 ^ 62) × ((delay < 2 ^ 62) × ((count < 2 ^ 62) × ((first < 2 ^ 62) × (length (head_bytes largest delay count first) ≤ length out.old)))) }
    ensures { (result ≡ length (head_bytes largest delay count first)) × (out.new ≡ put out.old 0 (head_bytes largest delay count first)) }
{
    out[0] = ACK;
    let a = put_at(out, 1, largest);
    let b = put_at(out, a, delay);
    let d = put_at(out, b, count);
    put_at(out, d, first)
}

// How many bytes the frame of the n + 1 ranges of a well-formed set takes.
fn frame_size(list: &[u64], n: usize, delay: u64) -> usize
    requires { (well_formed list.now (n + 1) ≡ true) × (delay < 2 ^ 62) }
    ensures { result ≡ length (frame_of (reverse (read list.now 0 (n + 1))) delay) }
{
    let lo = list[n * 2];
    let hi = list[n * 2 + 1];
    head_size(hi - 1, delay, n as u64, hi - 1 - lo) + pairs_size(list, n, lo)
}

// Writes that frame at the start of a buffer that has room for it.
fn put_frame(out: &mut [u8], list: &[u64], n: usize, delay: u64)
    requires { (well_formed list.now (n + 1) ≡ true) × ((delay < 2 ^ 62) × (length (frame_of (reverse (read list.now 0 (n + 1))) delay) ≤ length out.old)) }
    ensures { out.new ≡ put out.old 0 (frame_of (reverse (read list.now 0 (n + 1))) delay) }
{
    let lo = list[n * 2];
    let hi = list[n * 2 + 1];
    let at = put_head(out, hi - 1, delay, n as u64, hi - 1 - lo);
    put_pairs(out, at, list, n, lo);
}

// Writes the ACK frame of the count ranges of list at the start of out: RANGE where the set is empty or ill-formed or the delay no
// varint, then ROOM where out is too small, and then nothing is written. The caller lends the list with its count: there is no heap.
pub fn write(out: &mut [u8], list: &[u64], count: usize, delay: u64) -> Result<usize, Refusal>
    ensures { done result out.new ≡ write_ack out.old list.now count delay }
{
    if count == 0 {
        return Err(Refusal::Range);
    }
    if LIMIT <= delay {
        return Err(Refusal::Range);
    }
    if !range_list::well_formed(list, count) {
        return Err(Refusal::Range);
    }
    let n = count - 1;
    let len = frame_size(list, n, delay);
    if out.len() < len {
        return Err(Refusal::Room);
    }
    put_frame(out, list, n, delay);
    Ok(len)
}
