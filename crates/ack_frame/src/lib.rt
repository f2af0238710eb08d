// Reads the ACK frame of RFC 9000, section 19.3 (01, ACK frame), written from the RFC: one pass finds the first fault in byte order
// and writes nothing; only a frame that is whole, legal and fits is then put into the lent list. Its writer is `ack_write`.
#![tactic(auto)]

ghost use Rattle.std.specs.Prelude.{◌≡◌, ◌≤◌, ◌<◌, ◌^◌, ◌*◌, true, ◌++◌, reverse, length, drop, IfOk};
ghost use Rattle.range_list.specs.Ranges.{flat};
ghost use Rattle.ack_frame.specs.Read.{int_at, int_sound, kind_at, kind_sound, step_at, step_sound, walk_of, walk_sound, legal, below, fields_at, head_of, head_sound, done, read_ack, taken_of};

use answers::Refusal;

// The type of an ACK frame without ECN counts, the one that is handled.
const ACK: u64 = 2;

// What stands in a frame, of which the ranges are in the list.
#[derive(Clone, Copy, Debug, PartialEq, Eq)]
pub struct Ack {
    // how many ranges stand in the list
    pub count: usize,
    // the largest number acknowledged
    pub largest: u64,
    // the delay as it stands in the frame, its unit is the peer's
    pub delay: u64,
    // how many bytes the frame has
    pub taken: usize,
}

// An integer of a frame, and where its bytes end.
#[derive(Clone, Copy)]
pub struct Int {
    pub value: u64,
    pub next: usize,
}

// The integer at a position of the frame; SHORT where the frame ends inside it.
fn int_at(frame: &[u8], at: usize) -> Result<Int, Refusal>
    ensures value { result ≡ int_at frame.now at }
    ensures sound { int_sound frame.now at result }
{
    let read = varint::read_at(frame, at)?;
    Ok(Int {
        value: read.value,
        next: at + read.len,
    })
}

// The place of the fields behind an ACK frame's type. A type is itself an integer: in its shortest form, and then the one that is handled.
fn kind_at(frame: &[u8]) -> Result<usize, Refusal>
    ensures value { result ≡ kind_at frame.now }
    ensures sound { kind_sound frame.now result }
{
    let kind = int_at(frame, 0)?;
    if kind.next != varint::size(kind.value) {
        return Err(Refusal::Malformed);
    }
    if kind.value != ACK {
        return Err(Refusal::Kind);
    }
    Ok(kind.next)
}

// The range below the last one, lo to hi without hi, by one pair of a gap and a length, and where the pair's bytes end.
#[derive(Clone, Copy)]
pub struct Below {
    pub next: usize,
    pub lo: u64,
    pub hi: u64,
}

// The pair at a position, below a range whose smallest number is low; or its first fault.
fn next_range(frame: &[u8], at: usize, low: u64) -> Result<Below, Refusal>
    requires { low < 2 ^ 62 }
    ensures value { result ≡ step_at frame.now at low }
    ensures sound { step_sound frame.now low result }
{
    let gap = int_at(frame, at)?;
    if low < gap.value + 2 {
        return Err(Refusal::Malformed);
    }
    let top = low - (gap.value + 2);
    let len = int_at(frame, gap.next)?;
    if top < len.value {
        return Err(Refusal::Malformed);
    }
    Ok(Below {
        next: len.next,
        lo: top - len.value,
        hi: top + 1,
    })
}

// Walks over count pairs to where they end, of whose ranges room fit, and writes nothing; or finds the first fault.
fn walk_pairs(
    frame: &[u8],
    start: usize,
    least: u64,
    count: u64,
    room: u64,
) -> Result<usize, Refusal>
    requires { (start ≤ length frame.now) × (least < 2 ^ 62) }
    ensures value { result ≡ walk_of frame.now count start least room }
    ensures sound { walk_sound frame.now result }
{
    let mut at = start;
    let mut low = least;
    for n in 0..count {
        let below = next_range(frame, at, low)?;
        if n == room {
            return Err(Refusal::Full);
        }
        at = below.next;
        low = below.lo;
    }
    Ok(at)
}

// Stores the ranges of count pairs that are known to be whole and legal, the lowest first.
fn fill(frame: &[u8], start: usize, least: u64, count: usize, list: &mut [u64])
    requires { (least < 2 ^ 62) × ((2 * count ≤ length list.old) × (legal frame.now count start least ≡ true)) }
    ensures { list.new ≡ flat (reverse (below frame.now count start least)) ++ drop (2 * count) list.old }
{
    let mut at = start;
    let mut low = least;
    for n in (0..count).rev() {
        let Ok(below) = next_range(frame, at, low) else {
            unreachable!()
        };
        list[2 * n] = below.lo;
        list[2 * n + 1] = below.hi;
        at = below.next;
        low = below.lo;
    }
}

// The frame up to its pairs: its values, the smallest number of the first range, and where the pairs start.
#[derive(Clone, Copy)]
pub struct Head {
    pub at: usize,
    pub largest: u64,
    pub delay: u64,
    pub count: u64,
    pub low: u64,
}

// The four fields behind the type, or their first fault.
fn fields_at(frame: &[u8], start: usize) -> Result<Head, Refusal>
    ensures value { result ≡ fields_at frame.now start }
    ensures sound { head_sound frame.now result }
{
    let largest = int_at(frame, start)?;
    let delay = int_at(frame, largest.next)?;
    let count = int_at(frame, delay.next)?;
    let first = int_at(frame, count.next)?;
    if largest.value < first.value {
        return Err(Refusal::Malformed);
    }
    Ok(Head {
        at: first.next,
        largest: largest.value,
        delay: delay.value,
        count: count.value,
        low: largest.value - first.value,
    })
}

fn head_at(frame: &[u8]) -> Result<Head, Refusal>
    ensures value { result ≡ head_of frame.now }
    ensures sound { head_sound frame.now result }
{
    let start = kind_at(frame)?;
    fields_at(frame, start)
}

// Reads the ACK frame at the start of frame and puts its ranges, ascending, at the start of list; or answers the first fault in byte
// order, FULL at the first range that does not fit, with the list as it was. The list is lent, flat, two numbers a range: there is no heap.
pub fn read(frame: &[u8], list: &mut [u64]) -> Result<Ack, Refusal>
    ensures list_after { done result list.new ≡ read_ack frame.now list.old }
    ensures sound { IfOk result (λ a. a.taken ≤ length frame.now) }
{
    let head = head_at(frame)?;
    let room = list.len() / 2;
    if room == 0 {
        return Err(Refusal::Full);
    }
    let taken = walk_pairs(frame, head.at, head.low, head.count, room as u64 - 1)?;
    let n = head.count as usize;
    list[2 * n] = head.low;
    list[2 * n + 1] = head.largest + 1;
    fill(frame, head.at, head.low, n, list);
    Ok(Ack {
        count: n + 1,
        largest: head.largest,
        delay: head.delay,
        taken,
    })
}

// The part of frame that the ACK frame took, by what read answered of it: a part of the caller's slice, empty where that is more than there is.
pub fn taken(frame: &[u8], ack: Ack) -> &[u8]
    ensures { result.now ≡ taken_of frame.now ack }
{
    let n = ack.taken;
    if frame.len() < n {
        return &frame[0..0];
    }
    &frame[0..n]
}
