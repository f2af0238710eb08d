// The peer's connection ids (quinn-proto's cid_queue.rs; RFC 9000 sections 5.1 and 19.15; 01, Connection-id queue).
// A queue holds ids under their sequence numbers, five numbers from the active one on; the active id has the least number held.
// A call hands back the queue that came of it; a refused one hands back none, and the caller's is as it was.
#![tactic(auto)]

ghost use Rattle.std.specs.Prelude.{◌≡◌, ◌<◌, ◌^◌, IfOk, IsTrue};
ghost use Rattle.cid_ring.specs.Cids.{under, token_of};
ghost use Rattle.cid_queue.specs.Queue.{issued, usable, handshake, checked, parting, moved, takes, successor, accepted, inserted};
ghost use Rattle.cid_queue.specs.Queue.{switched, made, updated, shown, active_of, active_seq, nth, entry_of, reset_of};

use answers::Refusal;
use cid_ring::{Cid, NUMBERS, PLACES, Ring};
use constant_time::eq16;

// The ids received and not yet retired; there may be gaps between their numbers.
#[derive(Clone, Copy)]
pub struct CidQueue {
    ring: Ring,
}

// The queue after a step, and what is to be retired, if anything.
#[derive(Clone, Copy)]
pub struct Retirement {
    pub queue: CidQueue,
    pub retired: Option<Retired>,
}

// The numbers start..end, at least one, and the token of the new active id, if it has one.
#[derive(Clone, Copy)]
pub struct Retired {
    pub start: u64,
    pub end: u64,
    pub token: Option<[u8; 16]>,
}

// An id held, with its number.
#[derive(Clone, Copy)]
pub struct Entry {
    pub seq: u64,
    pub cid: Cid,
}

// An id of a frame, with its token.
fn issued(id: [u8; 20], len: usize, token: [u8; 16]) -> Cid
    ensures { result ≡ issued id len token }
{
    let token = Some(token);
    Cid { len, id, token }
}

// Whether an id may have this length.
fn usable(len: usize) -> bool
    ensures { result ≡ usable len }
{
    len > 0 && len <= 20
}

// An id of the handshake, which has no token.
fn handshake(id: [u8; 20], len: usize) -> Result<Cid, Refusal>
    ensures { result ≡ handshake id len }
{
    if !usable(len) {
        return Err(Refusal::Range);
    }
    let token = None;
    Ok(Cid { len, id, token })
}

// Whether the arguments are in their limits and the ring in good form; so no sum on them wraps.
#[tactic(auto, using(crate::proofs::Laws::sound_small), unfolding(crate::specs::Queue::takes))]
fn takes(ring: Ring, sequence: u64, retire_prior_to: u64, len: usize) -> bool
    ensures is { result ≡ takes ring sequence retire_prior_to len }
    ensures small { IsTrue result → (ring.offset < 2 ^ 62) × (retire_prior_to < 2 ^ 62) }
{
    ring.sound() && usable(len) && sequence < NUMBERS && retire_prior_to < NUMBERS
}

// The token of the id under the number `n`.
fn token_under(ring: Ring, n: u64) -> Option<[u8; 16]>
    ensures { result ≡ token_of (under ring n) }
{
    ring.slot(n)?.token
}

// What is retired as `ring` becomes `next` with the active number `to`: nothing where that was its number already.
#[tactic(auto, unfolding(crate::specs::Queue::parting))]
fn parting(ring: Ring, to: u64, next: Ring) -> Option<Retired>
    requires { ring.offset < 2 ^ 62 }
    ensures { result ≡ parting ring to next }
{
    if to == ring.offset {
        return None;
    }
    let token = token_under(next, to);
    let start = ring.offset;
    let end = to.min(start + PLACES);
    Some(Retired { start, end, token })
}

// The step that `ring` becomes `next` with the active number `to`.
fn moved(ring: Ring, to: u64, next: Ring) -> Retirement
    requires { ring.offset < 2 ^ 62 }
    ensures { result ≡ moved ring to next }
{
    let queue = CidQueue { ring: next };
    let retired = parting(ring, to, next);
    Retirement { queue, retired }
}

// The frame's id is in, and all numbers below the new active one are gone.
#[tactic(auto, unfolding(crate::specs::Queue::accepted))]
fn accept(ring: Ring, sequence: u64, least: u64, cid: Cid) -> Retirement
    requires { ring.offset < 2 ^ 62 }
    ensures { result ≡ accepted ring sequence (successor ring sequence least) cid }
{
    let to = ring.first(least, sequence);
    let left = ring.retire(to);
    moved(ring, to, left.put(sequence, Some(cid)))
}

// The id under the number `n`, for a caller; a number that is held has one.
fn shown(ring: Ring, n: u64) -> Result<Entry, Refusal>
    ensures { result ≡ shown ring n }
{
    match ring.slot(n) {
        Some(cid) => Ok(Entry { seq: n, cid }),
        None => Err(Refusal::Range),
    }
}

// The number of the k-th id held; five past the active one or more where there are not so many.
#[tactic(auto, unfolding(crate::specs::Queue::nth))]
fn nth(ring: Ring, k: usize) -> u64
    requires { (k < 5) × (ring.offset < 2 ^ 62) }
    ensures { result ≡ nth ring k }
{
    let past = ring.offset + PLACES;
    let mut n = ring.offset;
    for _ in 0..k {
        n = ring.first(n + 1, past);
    }
    n
}

impl CidQueue {
    // A queue of the handshake's id, which has the number 0 and no token; RANGE for a length outside 1 to 20.
    #[tactic(auto, unfolding(crate::specs::Queue::made))]
    pub fn new(id: [u8; 20], len: usize) -> Result<CidQueue, Refusal>
        ensures { result ≡ made id len }
    {
        let cid = handshake(id, len)?;
        let ring = Ring::empty().put(0, Some(cid));
        Ok(CidQueue { ring })
    }

    // The ring, which every call first finds in good form; so no sum on its number wraps. A test and no invariant of the type: each call answers RANGE
    // for a queue out of form (`switched`, `updated`, `active_of` and the others of specs/Queue.antt).
    #[tactic(auto, using(crate::proofs::Laws::sound_small))]
    fn checked(self) -> Result<Ring, Refusal>
        ensures ring { result ≡ checked self.ring }
        ensures small { IfOk result (λ ring. ring.offset < 2 ^ 62) }
    {
        if !self.ring.sound() {
            return Err(Refusal::Range);
        }
        Ok(self.ring)
    }

    // A NEW_CONNECTION_ID frame: its id is stored under its number, all below its retire-prior-to are retired, and the least one left is the
    // active one.
    #[tactic(auto, unfolding(crate::specs::Queue::inserted))]
    pub fn insert(
        self,
        sequence: u64,
        retire_prior_to: u64,
        id: [u8; 20],
        len: usize,
        token: [u8; 16],
    ) -> Result<Retirement, Refusal>
        ensures { result ≡ inserted self.ring sequence retire_prior_to (issued id len token) }
    {
        let ring = self.ring;
        if !takes(ring, sequence, retire_prior_to, len) {
            return Err(Refusal::Range);
        }
        if sequence < retire_prior_to {
            return Err(Refusal::Malformed);
        }
        if sequence < ring.offset {
            return Err(Refusal::Retired);
        }
        let least = ring.offset.max(retire_prior_to);
        if sequence >= least + PLACES {
            return Err(Refusal::Limit);
        }
        Ok(accept(ring, sequence, least, issued(id, len, token)))
    }

    // Switches to the next id held, and the numbers before it are retired; ORDER where the active id is the only one.
    #[tactic(auto, unfolding(crate::specs::Queue::switched, crate::specs::Queue::switched_to))]
    pub fn next(self) -> Result<Retirement, Refusal>
        ensures { result ≡ switched self.ring }
    {
        let ring = self.checked()?;
        let past = ring.offset + PLACES;
        let to = ring.first(ring.offset + 1, past);
        if to >= past {
            return Err(Refusal::Order);
        }
        Ok(moved(ring, to, ring.retire(to)))
    }

    // Replaces the handshake's id; ORDER once it is no longer the active one.
    #[tactic(auto, unfolding(crate::specs::Queue::updated))]
    pub fn update_initial_cid(self, id: [u8; 20], len: usize) -> Result<CidQueue, Refusal>
        ensures { result ≡ updated self.ring id len }
    {
        let old = self.checked()?;
        let cid = handshake(id, len)?;
        if old.offset > 0 {
            return Err(Refusal::Order);
        }
        let ring = old.put(0, Some(cid));
        Ok(CidQueue { ring })
    }

    // The active id.
    #[tactic(auto, unfolding(crate::specs::Queue::active_of))]
    pub fn active(self) -> Result<Entry, Refusal>
        ensures { result ≡ active_of self.ring }
    {
        let ring = self.checked()?; // RANGE and not ORDER: there always is one
        shown(ring, ring.offset)
    }

    // The sequence number of the active id.
    #[tactic(auto, unfolding(crate::specs::Queue::active_seq))]
    pub fn active_seq(self) -> Result<u64, Refusal>
        ensures { result ≡ active_seq self.ring }
    {
        let ring = self.checked()?; // a queue out of form has no number
        Ok(ring.offset)
    }

    // Whether the token is the active id's; no where the active id came with none. The time taken shows whether it came with one, as that of the
    // Rust does, and of the tokens' bytes nothing.
    #[tactic(auto, unfolding(crate::specs::Queue::reset_of))]
    pub fn is_reset(self, token: [u8; 16]) -> Result<bool, Refusal>
        ensures { result ≡ reset_of self.ring token }
    {
        let ring = self.checked()?;
        match token_under(ring, ring.offset) {
            Some(own) => Ok(eq16(&own, &token)),
            None => Ok(false),
        }
    }

    // The k-th id held, counted from the active one as 0 and ascending; ORDER where there are not so many.
    #[tactic(auto, unfolding(crate::specs::Queue::entry_of))]
    pub fn entry(self, k: usize) -> Result<Entry, Refusal>
        ensures { result ≡ entry_of self.ring k }
    {
        let ring = self.checked()?;
        if k >= 5 {
            return Err(Refusal::Order);
        }
        let n = nth(ring, k);
        if n >= ring.offset + PLACES {
            return Err(Refusal::Order);
        }
        shown(ring, n)
    }
}
