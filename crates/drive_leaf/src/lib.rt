// The events of the modules without a state: ct, vi, pn and af (docs/EVENTS.md). An event is its library's call.
#![tactic(auto)]

ghost use Rattle.std.specs.Prelude.{◌≡◌};
ghost use Rattle.drive_leaf.specs.Step.{plainly, compare_of, read_of, done, write_of, number_of, expanded_of, frame_in, frame_to, left, step_of};
ghost use Rattle.answers.specs.Answers.{OK};

use said::Said;

// What an event gave: the answer with its numbers, how many bytes stand in the lent scratch, and how many ranges in the lent list.
#[derive(Clone, Copy)]
pub struct Gave {
    pub said: Said,
    pub size: usize,
    pub ranges: usize,
}

fn plain(answer: u8) -> Gave
    ensures { result ≡ plainly answer }
{
    Gave {
        said: said::plain(answer),
        size: 0,
        ranges: 0,
    }
}

// ct.eq
fn compare(bytes: &[u8], first: usize, size: usize) -> Gave
    ensures { result ≡ compare_of bytes.now first size }
{
    if size < first {
        return plain(answers::RANGE);
    }
    if bytes.len() < size {
        return plain(answers::RANGE);
    }
    let same = constant_time::eq(&bytes[..first], &bytes[first..size]);
    Gave {
        said: said::number(answers::OK, said::bit(same)),
        size: 0,
        ranges: 0,
    }
}

// vi.dec
fn read_varint(bytes: &[u8], size: usize) -> Gave
    ensures { result ≡ read_of bytes.now size }
{
    if bytes.len() < size {
        return plain(answers::RANGE);
    }
    match varint::read(&bytes[..size]) {
        Ok(read) => Gave {
            said: said::two(answers::OK, read.value, read.len as u64),
            size: 0,
            ranges: 0,
        },
        Err(why) => plain(u8::from(why)),
    }
}

// vi.enc
fn write_varint(v: u64, scratch: &mut [u8]) -> Gave
    ensures { done result scratch.new ≡ write_of v scratch.old }
{
    match varint::write(scratch, v) {
        Ok(n) => Gave {
            said: said::plain(answers::OK),
            size: n,
            ranges: 0,
        },
        Err(why) => plain(u8::from(why)),
    }
}

// pn.new
fn write_number(number: u64, acked: u64, scratch: &mut [u8]) -> Gave
    ensures { done result scratch.new ≡ number_of number acked scratch.old }
{
    match packet_number::encode(scratch, number, acked) {
        Ok(e) => Gave {
            said: said::number(answers::OK, e.len as u64),
            size: e.len,
            ranges: 0,
        },
        Err(why) => Gave {
            said: said::number(u8::from(why), 0),
            size: 0,
            ranges: 0,
        },
    }
}

// pn.read
fn read_number(bytes: &[u8], size: usize, largest: u64) -> Gave
    ensures { result ≡ expanded_of bytes.now size largest }
{
    if bytes.len() < size {
        return plain(answers::RANGE);
    }
    match packet_number::expand(&bytes[..size], size, largest) {
        Ok(number) => Gave {
            said: said::number(answers::OK, number),
            size: 0,
            ranges: 0,
        },
        Err(why) => Gave {
            said: said::number(u8::from(why), 0),
            size: 0,
            ranges: 0,
        },
    }
}

// af.read: a list of more places than are lent is RANGE.
fn read_frame(bytes: &[u8], size: usize, places: u64, list: &mut [u64]) -> Gave
    ensures { done result list.new ≡ frame_in bytes.now size places list.old }
{
    if bytes.len() < size {
        return plain(answers::RANGE);
    }
    if 16384 < places {
        return plain(answers::RANGE);
    }
    let end = 2 * (places as usize);
    if list.len() < end {
        return plain(answers::RANGE);
    }
    match ack_frame::read(&bytes[..size], &mut list[..end]) {
        Ok(a) => Gave {
            said: said::two(answers::OK, a.taken as u64, a.delay),
            size: 0,
            ranges: a.count,
        },
        Err(why) => Gave {
            said: said::two(u8::from(why), 0, 0),
            size: 0,
            ranges: 0,
        },
    }
}

// af.write: the words behind the space and the delay are the set. More space than is lent is RANGE.
fn write_frame(numbers: &[u64], count: usize, scratch: &mut [u8]) -> Gave
    ensures { done result scratch.new ≡ frame_to numbers.now count scratch.old }
{
    if count < 2 {
        return plain(answers::RANGE);
    }
    if numbers.len() < count {
        return plain(answers::RANGE);
    }
    let end = numbers[0] as usize;
    if scratch.len() < end {
        return plain(answers::RANGE);
    }
    match ack_write::write(
        &mut scratch[..end],
        &numbers[2..count],
        (count - 2) / 2,
        numbers[1],
    ) {
        Ok(n) => Gave {
            said: said::plain(answers::OK),
            size: n,
            ranges: 0,
        },
        Err(why) => plain(u8::from(why)),
    }
}

// What a state holds before the first event.
pub fn begin() -> Gave
    ensures { result ≡ plainly OK }
{
    plain(answers::OK)
}

// An event of a module without a state: `first` bytes are the first string of two, and `size` bytes are all.
#[tactic(auto, unfolding(crate::specs::Step::step_of))]
pub fn step(
    code: u8,
    numbers: &[u64; 32768],
    count: usize,
    bytes: &[u8],
    first: usize,
    size: usize,
    scratch: &mut [u8],
    list: &mut [u64],
) -> Gave
    ensures { left result scratch.new list.new ≡ step_of code numbers.now count bytes.now first size scratch.old list.old }
{
    match code {
        codes::CT_EQ => compare(bytes, first, size),
        codes::VI_DEC => read_varint(bytes, size),
        codes::VI_ENC => write_varint(numbers[0], scratch),
        codes::PN_NEW => write_number(numbers[0], numbers[1], scratch),
        codes::PN_READ => read_number(bytes, size, numbers[0]),
        codes::AF_READ => read_frame(bytes, size, numbers[0], list),
        _ => write_frame(numbers, count, scratch),
    }
}
