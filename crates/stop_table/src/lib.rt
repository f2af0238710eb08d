// `stop` on a lent slice of records, `table: &mut [Stream]` (01, Forms named and Streams and bytes): the same promise as
// `streams::stop`, which works on lent words. Two functions touch the slice: `judge` passes over it once, `write` puts one
// record. What they do with a record is by value: one record joins what is known (`next`), and the pass comes to a verdict.
#![tactic(auto)]

ghost use Rattle.std.specs.Prelude.{◌≡◌};
ghost use Rattle.stop_table.specs.Slice.{on_slice, stop_on};
ghost use Rattle.stop_table.specs.Passing.{lent_places, started, noted, counted, pass_next, pass_ends, entry_of, booked_on, settled, verdict_of, judged, written};

use answers::Refusal;
use stream_conn::{Conn, Done};
use stream_record::{Step, Stream};
use stream_table::Place;

// Ids are below this (01, Limits).
const TOP: u64 = 1 << 62;

// Open streams in one table (01, Limits).
const PLACES: usize = 256;

// What is known of a table after some of its records.
#[derive(Clone, Copy)]
pub struct Pass {
    // Nothing so far speaks against the table.
    pub good: bool,
    // The least id that may follow, and what the ends may still come to.
    pub low: u64,
    pub left: u64,
    // The peer's streams so far, both ways and one way.
    pub both: u64,
    pub one: u64,
    // The stream that is looked for.
    pub found: Option<Place>,
}

// What a call comes to: the record that is written, if one is, and what is handed back.
#[derive(Clone, Copy)]
pub struct Verdict {
    pub write: Option<Place>,
    pub done: Done,
}

// How many places are looked at: none where the count can't be right.
#[tactic(auto, unfolding(crate::specs::Passing::lent_places))]
fn lent(len: usize, count: usize) -> usize
    ensures { result ≡ lent_places len count }
{
    if count > PLACES {
        return 0;
    }
    if len < count {
        return 0;
    }
    count
}

// Before the first record.
#[tactic(auto, unfolding(crate::specs::Passing::started))]
fn begin(c: Conn, len: usize, count: usize) -> Pass
    ensures { result ≡ started c len count }
{
    Pass {
        good: (count <= PLACES) & ((count <= len) & c.good()),
        low: 0,
        left: c.charged.saturating_sub(c.closed),
        both: 0,
        one: 0,
        found: None,
    }
}

// The stream that is looked for is at place `i`, unless it was before.
#[tactic(auto, unfolding(crate::specs::Passing::noted))]
fn note(a: Pass, id: u64, i: usize, s: Stream) -> Pass
    ensures { result ≡ noted id i s a }
{
    if a.found.is_some() {
        return a;
    }
    if s.id == id {
        let found = Some(Place { at: i, stream: s });
        return Pass { found, ..a };
    }
    a
}

// The record `s` comes next: it must be good, its id above those before, its end within what is left.
#[tactic(auto, unfolding(crate::specs::Passing::counted))]
fn count(a: Pass, c: Conn, s: Stream) -> Pass
    ensures { result ≡ counted c s a }
{
    let both = stream_table::count_one(c, 0, s.id);
    let one = stream_table::count_one(c, 1, s.id);
    Pass {
        good: a.good & (stream_table::good(c, s) & ((a.low <= s.id) & (s.end <= a.left))),
        low: s.id.saturating_add(1),
        left: a.left.saturating_sub(s.end),
        both: a.both.saturating_add(both),
        one: a.one.saturating_add(one),
        ..a
    }
}

// One more record, at place `i`.
fn next(a: Pass, c: Conn, id: u64, i: usize, s: Stream) -> Pass
    ensures { result ≡ pass_next c id i s a }
{
    count(note(a, id, i, s), c, s)
}

// After the last record: nothing spoke against the table, the ends come to what is charged, and the peer's streams are as many as are allocated.
#[tactic(auto, unfolding(crate::specs::Passing::pass_ends))]
fn whole(a: Pass, c: Conn) -> bool
    ensures { result ≡ pass_ends c a }
{
    a.good & ((a.left == 0) & ((a.both == c.bi.ralloc) & (a.one == c.uni.ralloc)))
}

// What the call begins with: a refusal, or the place with its record; none where the stream is closed.
#[tactic(auto, unfolding(crate::specs::Passing::entry_of))]
fn entry(a: Pass, c: Conn, id: u64) -> Result<Option<Place>, Refusal>
    ensures { result ≡ entry_of c id a }
{
    if id >= TOP {
        return Err(Refusal::Range);
    }
    if !whole(a, c) {
        return Err(Refusal::Range);
    }
    c.admit(id)?;
    Ok(a.found)
}

// A step's bytes in the books.
#[tactic(auto, unfolding(crate::specs::Passing::booked_on))]
fn book(c: Conn, p: Step) -> Conn
    ensures { result ≡ booked_on c p }
{
    let d = Conn {
        charged: c.charged.saturating_add(p.charge),
        closed: c.closed.saturating_add(p.shut),
        ..c
    };
    d.pay(p.credit)
}

// A step at place `i` goes into the table and the books.
#[tactic(auto, unfolding(crate::specs::Passing::settled))]
fn settle(c: Conn, i: usize, p: Step) -> Verdict
    ensures { result ≡ settled c i p }
{
    let t = p.stream;
    let done = Done {
        value: p.value,
        charge: p.charge,
        credit: p.credit,
        free: (t.phase == 0) & (t.sending == 0),
        conn: book(c, p),
    };
    let write = Some(Place { at: i, stream: t });
    Verdict { write, done }
}

// What stopping the stream comes to, after the pass.
#[tactic(auto, unfolding(crate::specs::Passing::verdict_of))]
fn decide(a: Pass, c: Conn, id: u64) -> Result<Verdict, Refusal>
    ensures { result ≡ verdict_of c id a }
{
    let Some(place) = entry(a, c, id)? else {
        return Err(Refusal::Order);
    };
    let Some(step) = place.stream.stop()? else {
        let done = c.unchanged();
        return Ok(Verdict { write: None, done });
    };
    Ok(settle(c, place.at, step))
}

// What stopping the stream comes to: one pass over the table.
fn judge(c: Conn, table: &[Stream], count: usize, id: u64) -> Result<Verdict, Refusal>
    ensures { result ≡ judged c table.now count id }
{
    let n = lent(table.len(), count);
    let mut a = begin(c, table.len(), count);
    for i in 0..n {
        a = next(a, c, id, i, table[i]);
    }
    decide(a, c, id)
}

// The record goes to its place, if one is written.
fn write(table: &mut [Stream], place: Option<Place>)
    ensures { table.new ≡ written table.old place }
{
    let Some(p) = place else {
        return;
    };
    if p.at >= table.len() {
        return;
    }
    table[p.at] = p.stream;
}

// We stop the stream: what is unread is credited, and the value is 1 where STOP_SENDING is due.
pub fn stop(c: Conn, table: &mut [Stream], count: usize, id: u64) -> Result<Done, Refusal>
    ensures { on_slice result table.new ≡ stop_on c table.old count id }
{
    let v = judge(c, table, count, id)?;
    write(table, v.write);
    Ok(v.done)
}
