// The calls on one stream of the table: the peer's data and resets, the application's reads and stops, our own announcements
// (01, Streams and bytes; RFC 9000 sections 3.2, 4.1 and 4.5; streams/state.rs, recv.rs). Each checks the connection record and the
// whole table first; a refusal leaves both as they were. `free` in what a call hands back says that `stream_places::free` is due.
#![tactic(auto)]

ghost use Rattle.std.specs.Prelude.{◌≡◌, ℕ, ◌+◌, ◌*◌, ◌<◌, ◌≤◌, cond, length, Option, Result, Ok};
ghost use Rattle.answers.specs.declared.Refusal.{Refusal};
ghost use Rattle.stream_record.specs.declared.Stream.{Stream};
ghost use Rattle.stream_record.specs.declared.Step.{Step};
ghost use Rattle.stream_conn.specs.Books.{raised};
ghost use Rattle.streams.specs.Calls.{after, booked, committed, room, Fair, on_stream, data_after, reset_after, stop_after, read_after, seen_after, announce_after, sent_after, look_of};

use answers::Refusal;
use stream_conn::{Conn, Done};
use stream_record::{Step, Stream};

// Offsets, lengths and final sizes are below this (01, Limits).
const TOP: u64 = 1 << 62;

// A step's bytes in the books.
#[tactic(auto, unfolding(crate::specs::Calls::booked))]
fn book(c: Conn, charge: u64, shut: u64, credit: u64) -> Conn
    requires { (c.charged + charge < 18446744073709551616) × (c.closed + shut < 18446744073709551616) }
    ensures { result ≡ booked c charge shut credit }
{
    let d = Conn {
        charged: c.charged + charge,
        closed: c.closed + shut,
        ..c
    };
    d.pay(credit)
}

// An event of the peer's makes the stream a used one.
fn touch(c: Conn, peer: bool, id: u64) -> Conn
    ensures { result ≡ cond peer (raised c id) c }
{
    if peer { c.raise(id) } else { c }
}

// A step at place `i` goes into the table and the books.
fn commit(c: Conn, table: &mut [u64], i: usize, id: u64, peer: bool, p: Step) -> Done
    requires { (i < 256) × (7 * i + 7 ≤ length table.old) × (c.charged + p.charge ≤ c.grant) × (c.closed + p.shut ≤ c.grant) }
    ensures { after (Ok result) table.new ≡ committed c table.old i id peer p }
{
    let t = p.stream;
    let d = book(c, p.charge, p.shut, p.credit);
    let e = touch(d, peer, id);
    stream_table::put(table, i, t);
    Done {
        value: p.value,
        charge: p.charge,
        credit: p.credit,
        free: (t.phase == 0) & (t.sending == 0),
        conn: e,
    }
}

// A call on a stream: the checks, then `gone` where the stream is closed, else the step that `event` comes to; `peer` says that it is the peer's event.
fn on_stream<F: FnOnce(Stream) -> Result<Option<Step>, Refusal>>(
    c: Conn,
    table: &mut [u64],
    count: usize,
    id: u64,
    peer: bool,
    gone: Result<Done, Refusal>,
    event: F,
) -> Result<Done, Refusal>
    requires runs { F.IsAlwaysCallable event }
    requires fair { (s : _) (r : _) → F.post event s r → Fair s (room c) r }
    ensures { (f : Stream → Result (Option Step) Refusal) → ((s : _) (r : _) → F.post event s r → r ≡ f s) → after result table.new ≡ on_stream c table.old count id peer gone f }
{
    let Some(place) = stream_table::enter(c, table, count, id)? else {
        return gone;
    };
    let Some(step) = event(place.stream)? else {
        return Ok(c.unchanged());
    };
    Ok(commit(c, table, place.at, id, peer, step))
}

// Data of the peer: `len` bytes at `offset` of the stream `id`; only the growth of its highest end is charged.
#[tactic(auto, unfolding(crate::specs::Calls::data_after))]
pub fn data(
    c: Conn,
    table: &mut [u64],
    count: usize,
    id: u64,
    offset: u64,
    len: u64,
    fin: bool,
) -> Result<Done, Refusal>
    ensures { after result table.new ≡ data_after c table.old count id offset len fin }
{
    if (offset >= TOP) | (len >= TOP) {
        return Err(Refusal::Range);
    }
    let to = offset + len;
    let room = c.grant.saturating_sub(c.charged);
    let gone = Ok(c.unchanged()); // late, and nothing is charged
    on_stream(c, table, count, id, true, gone, |s| s.data(to, fin, room))
}

// A reset of the peer with the final size `last`: the rest is charged, and what was not read is credited.
#[tactic(auto, unfolding(crate::specs::Calls::reset_after))]
pub fn reset(c: Conn, table: &mut [u64], count: usize, id: u64, last: u64) -> Result<Done, Refusal>
    ensures { after result table.new ≡ reset_after c table.old count id last }
{
    if last >= TOP {
        return Err(Refusal::Range);
    }
    let left = c.grant.saturating_sub(c.charged);
    let gone = Ok(c.unchanged()); // late, and nothing is charged
    on_stream(c, table, count, id, true, gone, |s| s.reset(last, left))
}

// We stop the stream: what is unread is credited, and the value is 1 where STOP_SENDING is due.
pub fn stop(c: Conn, table: &mut [u64], count: usize, id: u64) -> Result<Done, Refusal>
    ensures { after result table.new ≡ stop_after c table.old count id }
{
    let gone = Err(Refusal::Order); // nothing is left to stop
    on_stream(c, table, count, id, false, gone, |s| s.stop()) // we stop it, the peer does not use it
}

// The application has read `n` bytes more, which are credited.
#[tactic(auto, unfolding(crate::specs::Calls::read_after))]
pub fn read(c: Conn, table: &mut [u64], count: usize, id: u64, n: u64) -> Result<Done, Refusal>
    ensures { after result table.new ≡ read_after c table.old count id n }
{
    if n >= TOP {
        return Err(Refusal::Range);
    }
    let gone = Err(Refusal::Order); // nothing is left to read
    on_stream(c, table, count, id, false, gone, |s| s.read(n))
}

// The application learns the end: the value is 0 not yet, 1 finished, 2 reset.
pub fn seen(c: Conn, table: &mut [u64], count: usize, id: u64) -> Result<Done, Refusal>
    ensures { after result table.new ≡ seen_after c table.old count id }
{
    let gone = Err(Refusal::Order); // its end was learnt
    on_stream(c, table, count, id, false, gone, |s| s.seen()) // we learn it, the peer does not use it
}

// MAX_STREAM_DATA goes out: the value is the limit to send.
pub fn announce(c: Conn, table: &mut [u64], count: usize, id: u64) -> Result<Done, Refusal>
    ensures { after result table.new ≡ announce_after c table.old count id }
{
    let window = c.swindow;
    let gone = Err(Refusal::Order); // it needs no limit
    on_stream(c, table, count, id, false, gone, |s| s.announce(window))
}

// Our sending half of the stream is done.
pub fn sent(c: Conn, table: &mut [u64], count: usize, id: u64) -> Result<Done, Refusal>
    ensures { after result table.new ≡ sent_after c table.old count id }
{
    let gone = Err(Refusal::Order); // its sending is done
    on_stream(c, table, count, id, false, gone, |s| s.sent()) // we send, the peer does not use it
}

// The record of one stream, as a printer wants it; ORDER where it is closed.
#[tactic(auto, unfolding(crate::specs::Calls::look_of))]
pub fn look(c: Conn, table: &[u64], count: usize, id: u64) -> Result<Stream, Refusal>
    ensures { result ≡ look_of c table.now count id }
{
    let Some(shown) = stream_table::enter(c, table, count, id)? else {
        return Err(Refusal::Order); // nothing is left to look at
    };
    Ok(shown.stream)
}
