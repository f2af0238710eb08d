// The events of the connection-id queue: cq (docs/EVENTS.md). An event is its library's call.
#![tactic(auto)]

ghost use Rattle.std.specs.Prelude.{◌≡◌};
ghost use Rattle.drive_cq.specs.Step.{part_of, over, filled, give_of, made_of, parted_of, moved_of, named_of, told_of};
ghost use Rattle.drive_cq.specs.Step.{refused_of, begin_of, new_of, frame_of, reset_of, call_of, step_of};

use answers::Refusal;
use cid_queue::{CidQueue, Entry, Retired, Retirement};
use cid_ring::Cid;
use said::Said;

// What an event gave, and the queue that is kept; there is none before the first `new`.
#[derive(Clone, Copy)]
pub struct Gave {
    pub said: Said,
    // What is to be retired, of which said.a..said.b are the numbers.
    pub retired: Option<Retired>,
    // The id of the number said.a.
    pub named: Option<Cid>,
    pub kept: Option<CidQueue>,
}

// What a state holds before the first event: no queue yet.
#[tactic(auto, unfolding(crate::specs::Step::begin_of))]
pub fn begin() -> Gave
    ensures { result ≡ begin_of }
{
    give(said::plain(answers::OK), None)
}

fn give(said: Said, kept: Option<CidQueue>) -> Gave
    ensures { result ≡ give_of said kept }
{
    Gave {
        said,
        retired: None,
        named: None,
        kept,
    }
}

// The bytes from..to, none where there are not so many.
#[tactic(auto, unfolding(crate::specs::Step::part_of))]
fn part(bytes: &[u8], from: usize, to: usize) -> &[u8]
    ensures { result.now ≡ part_of bytes.now from to }
{
    bytes.get(from..to).unwrap_or(&[])
}

// Copies s to the start of `to`, as far as it fits.
#[tactic(auto, unfolding(crate::specs::Step::over))]
fn fill(s: &[u8], to: &mut [u8])
    ensures { to.new ≡ over s.now to.old }
{
    let n = s.len().min(to.len());
    to[..n].copy_from_slice(&s[..n]);
}

// The bytes from..to, as far as they fit N, then zeros: an id of 20 bytes or a token of 16.
#[tactic(auto, using(crate::proofs::Lists::cuts))]
fn cut<const N: usize>(bytes: &[u8], from: usize, to: usize) -> [u8; N]
    ensures { result ≡ filled N (part_of bytes.now from to) }
{
    let mut whole = [0u8; N];
    fill(part(bytes, from, to), &mut whole);
    whole
}

// An outcome with no value: the new queue, or what was kept before where it is refused.
fn made(d: Result<CidQueue, Refusal>, kept: Option<CidQueue>) -> Gave
    ensures { result ≡ made_of d kept }
{
    match d {
        Ok(queue) => give(said::plain(answers::OK), Some(queue)),
        Err(why) => give(said::plain(u8::from(why)), kept),
    }
}

#[tactic(auto, unfolding(crate::specs::Step::new_of))]
fn fresh(bytes: &[u8], size: usize, kept: Option<CidQueue>) -> Gave
    ensures { result ≡ new_of bytes.now size kept }
{
    let id = cut::<20>(bytes, 0, size);
    made(CidQueue::new(id, size), kept)
}

// Numbers that are to be retired are values, with the token of the new active id.
fn parted(retired: Option<Retired>, queue: CidQueue) -> Gave
    ensures { result ≡ parted_of retired queue }
{
    match retired {
        Some(r) => Gave {
            retired: Some(r),
            ..give(said::two(answers::OK, r.start, r.end), Some(queue))
        },
        None => give(said::two(answers::OK, 0, 0), Some(queue)),
    }
}

// A step of the queue `q`.
fn moved(d: Result<Retirement, Refusal>, q: CidQueue) -> Gave
    ensures { result ≡ moved_of d q }
{
    match d {
        Ok(step) => parted(step.retired, step.queue),
        Err(why) => give(said::two(u8::from(why), 0, 0), Some(q)),
    }
}

// A refusal for a token that has not 16 bytes.
fn refused(q: CidQueue) -> Gave
    ensures { result ≡ refused_of q }
{
    give(said::plain(answers::RANGE), Some(q))
}

#[tactic(auto, unfolding(crate::specs::Step::frame_of))]
fn frame(a: u64, b: u64, bytes: &[u8], first: usize, size: usize, q: CidQueue) -> Gave
    ensures { result ≡ frame_of a b bytes.now first size q }
{
    if size.saturating_sub(first) != 16 {
        return refused(q);
    }
    let id = cut::<20>(bytes, 0, first);
    let token = cut::<16>(bytes, first, size);
    moved(q.insert(a, b, id, first, token), q)
}

// An id that is shown is a value, with its number.
fn named(d: Result<Entry, Refusal>, q: CidQueue) -> Gave
    ensures { result ≡ named_of d q }
{
    match d {
        Ok(e) => Gave {
            named: Some(e.cid),
            ..give(said::number(answers::OK, e.seq), Some(q))
        },
        Err(why) => give(said::number(u8::from(why), 0), Some(q)),
    }
}

// Yes or no.
fn told(d: Result<bool, Refusal>, q: CidQueue) -> Gave
    ensures { result ≡ told_of d q }
{
    match d {
        Ok(is) => give(said::number(answers::OK, said::bit(is)), Some(q)),
        Err(why) => give(said::number(u8::from(why), 0), Some(q)),
    }
}

#[tactic(auto, unfolding(crate::specs::Step::reset_of))]
fn reset(bytes: &[u8], size: usize, q: CidQueue) -> Gave
    ensures { result ≡ reset_of bytes.now size q }
{
    if size != 16 {
        return refused(q);
    }
    let token = cut::<16>(bytes, 0, size);
    told(q.is_reset(token), q)
}

// An event of the queue that there is. A number and no enum: `call_of` takes every other code for `update`.
#[tactic(auto, unfolding(crate::specs::Step::call_of))]
fn call(code: u8, a: u64, b: u64, bytes: &[u8], first: usize, size: usize, q: CidQueue) -> Gave
    ensures { result ≡ call_of code a b bytes.now first size q }
{
    match code {
        codes::CQ_FRAME => frame(a, b, bytes, first, size, q),
        codes::CQ_NEXT => moved(q.next(), q),
        codes::CQ_ACTIVE => named(q.active(), q),
        codes::CQ_RESET => reset(bytes, size, q),
        _ => made(
            q.update_initial_cid(cut::<20>(bytes, 0, size), size),
            Some(q),
        ),
    }
}

// An event of the queue.
#[tactic(auto, unfolding(crate::specs::Step::step_of))]
pub fn step(
    code: u8,
    numbers: &[u64; 32768],
    bytes: &[u8; 65536],
    first: usize,
    size: usize,
    k: Option<CidQueue>,
) -> Gave
    ensures { result ≡ step_of code numbers.now bytes.now first size k }
{
    let a = numbers[0];
    let b = numbers[1];
    if code == codes::CQ_NEW {
        return fresh(bytes, size, k);
    }
    match k {
        Some(q) => call(code, a, b, bytes, first, size, q),
        None => give(said::plain(answers::ORDER), None),
    }
}
