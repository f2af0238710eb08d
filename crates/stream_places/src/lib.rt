// The calls by which places of the table come and go: more of the peer's streams granted, one of ours opened, a place given
// back, 0-RTT rejected (01, Streams and bytes; RFC 9000 sections 2.1 and 4.6; streams/state.rs). Each checks the connection
// record and the whole table first; a refusal leaves both as they were.
#![tactic(auto)]

ghost use Rattle.std.specs.Prelude.{◌≡◌, ℕ, ◌+◌, ◌*◌, ◌<◌, ◌≤◌, length, Ok};
ghost use Rattle.stream_places.specs.Places.{grown, changed, freed, free_after, grown_by, granted, grant_after, want_after, opened, open_after, unopened, rejected_conn, reject_after};

use answers::Refusal;
use stream_conn::{Conn, Counts, Release};
use stream_record::Stream;
use stream_table::{PLACES, WIDTH};

// Counts of streams are at most this (01, Limits).
const COUNTS: u64 = 1 << 60;

// What a call that moves places hands back; `value` is what the call's own line says, an id, a count or one of 0 and 1, so a number.
#[derive(Clone, Copy)]
pub struct Changed {
    pub value: u64,
    pub count: usize,
    pub conn: Conn,
}

fn moved(c: Conn, value: u64, count: usize) -> Changed
    ensures { result ≡ changed value count c }
{
    Changed {
        value,
        count,
        conn: c,
    }
}

// The place `i` is given back, and the stream that is granted for it comes in.
fn give_back(c: Conn, table: &mut [u64], count: usize, i: usize, g: Release) -> Changed
    requires { (i < count) × (count ≤ 256) × (7 * count ≤ length table.old) }
    ensures { grown (Ok result) table.new ≡ freed c table.old count i (Ok g) }
{
    stream_table::remove(table, count, i);
    let n = count - 1;
    let Some(next) = g.granted else {
        return moved(g.conn, 0, n);
    };
    stream_table::insert(table, n, Stream::new(c.swindow, next));
    moved(g.conn, 1, count)
}

// The place of a stream whose halves are both over is given back: the value is 1 where the next stream was granted for it.
#[tactic(auto, unfolding(crate::specs::Places::free_after))]
pub fn free(c: Conn, table: &mut [u64], count: usize, id: u64) -> Result<Changed, Refusal>
    ensures { grown result table.new ≡ free_after c table.old count id }
{
    let Some(place) = stream_table::enter(c, table, count, id)? else {
        return Err(Refusal::Order);
    };
    let ready = (place.stream.phase == 0) & (place.stream.sending == 0);
    if !ready {
        return Err(Refusal::Order);
    }
    let g = c.release(id)?;
    Ok(give_back(c, table, count, place.at, g))
}

// `k` fresh records more, of ids `id`, `id` + 4, ..
fn grow(w: u64, table: &mut [u64], count: usize, id: u64, k: u64)
    requires { (count + k ≤ 256) × (7 * (count + k) ≤ length table.old) × (id + 4 * k < 18446744073709551616) }
    ensures { table.new ≡ grown_by w table.old count id k }
{
    for i in 0..k {
        stream_table::insert(table, count + i as usize, Stream::new(w, id + 4 * i));
    }
}

// `new` streams more of the peer's, in the table and in the counts `k`.
#[tactic(auto, unfolding(crate::specs::Places::grant_after))]
fn grant(
    c: Conn,
    table: &mut [u64],
    count: usize,
    dir: u64,
    desired: u64,
    k: Counts,
    new: u64,
) -> Changed
    requires { (count + new ≤ 256) × (7 * (count + new) ≤ length table.old) × (k.rmax + new ≤ 1152921504606846976) × (k.ralloc ≤ k.rmax) × (dir ≤ 1) × (c.side ≤ 1) }
    ensures { grown (Ok result) table.new ≡ grant_after c table.old count dir desired k new }
{
    let id = 4 * k.rmax + 2 * dir + (1 - c.side);
    grow(c.swindow, table, count, id, new);
    let g = Counts {
        rmax: k.rmax + new,
        ralloc: k.ralloc + new,
        rwant: desired,
        ..k
    };
    let d = c.with(dir, g);
    moved(d, new, count + new as usize)
}

// As many streams of the peer as are desired in a direction: the value is how many were granted, all or none.
#[tactic(auto, unfolding(crate::specs::Places::want_after, crate::specs::Places::wanted))]
pub fn want(
    c: Conn,
    table: &mut [u64],
    count: usize,
    dir: u64,
    desired: u64,
) -> Result<Changed, Refusal>
    ensures { grown result table.new ≡ want_after c table.old count dir desired }
{
    if (dir > 1) | (desired > COUNTS) {
        return Err(Refusal::Range);
    }
    if !stream_table::sound(c, table, count) {
        return Err(Refusal::Range);
    }
    let k = c.counts(dir);
    let new = desired.saturating_sub(k.ralloc);
    if COUNTS.saturating_sub(k.rmax) < new {
        return Err(Refusal::Range);
    }
    let m = count + new as usize;
    if (m > PLACES) | (table.len() < WIDTH * m) {
        return Err(Refusal::Full);
    }
    Ok(grant(c, table, count, dir, desired, k, new))
}

// The counts with one more of ours opened.
fn open_one(k: Counts) -> Counts
    requires { k.next < k.max }
    ensures { result ≡ opened k }
{
    Counts {
        next: k.next + 1,
        ..k
    }
}

// A stream of ours is opened: the value is its id.
#[tactic(auto, unfolding(crate::specs::Places::open_after, crate::specs::Places::open_in))]
pub fn open(c: Conn, table: &mut [u64], count: usize, dir: u64) -> Result<Changed, Refusal>
    ensures { grown result table.new ≡ open_after c table.old count dir }
{
    if dir > 1 {
        return Err(Refusal::Range);
    }
    if !stream_table::sound(c, table, count) {
        return Err(Refusal::Range);
    }
    let k = c.counts(dir);
    if k.max <= k.next {
        return Err(Refusal::Limit);
    }
    let id = 4 * k.next + 2 * dir + c.side;
    let d = c.with(dir, open_one(k));
    if dir == 1 {
        return Ok(moved(d, id, count));
    }
    if !stream_table::has(table, count) {
        return Err(Refusal::Full);
    }
    stream_table::insert(table, count, Stream::new(c.swindow, id));
    Ok(moved(d, id, count + 1))
}

// The counts with none of ours opened.
fn open_none(k: Counts) -> Counts
    ensures { result ≡ unopened k }
{
    Counts { next: 0, ..k }
}

// None of ours opened, and the ends of those that were in the closed total.
fn forget(c: Conn, total: u64) -> Conn
    requires { c.closed + total < 18446744073709551616 }
    ensures { result ≡ rejected_conn c total }
{
    Conn {
        bi: open_none(c.bi),
        uni: open_none(c.uni),
        closed: c.closed + total,
        ..c
    }
}

// 0-RTT is rejected: our streams go and their ends stay charged; the value is how many went.
pub fn rejected(c: Conn, table: &mut [u64], count: usize) -> Result<Changed, Refusal>
    ensures { grown result table.new ≡ reject_after c table.old count }
{
    let t = stream_table::strip(c, table, count)?;
    let d = forget(c, t.total);
    let n = t.count;
    let gone = count - n;
    Ok(moved(d, gone as u64, n))
}
