// The table of streams: records of seven words, sorted by id, in one lent slice with a count (01, Streams and bytes).
// One pass checks all of it; a place is found, written, put in, taken out, and our own are stripped where 0-RTT is rejected.
#![tactic(auto)]

ghost use Rattle.std.specs.Prelude.{◌≡◌, ℕ, ◌+◌, ◌*◌, ◌-◌, ◌%◌, ◌<◌, ◌≤◌, cond, leb, ltb, eqb, length};
ghost use Rattle.stream_table.specs.Table.{theirs, good_numbers, good_rec, good_from, sound_b, rec_at, put_rec, records, find_in, entered, has_place, stored_at, lower, upper, inserted, inserted_at, removed, removed_at, left, stripped, strip_after, sum_ends};

use answers::Refusal;
use stream_conn::Conn;
use stream_record::Stream;

// Ids and limits are below this (01, Limits).
const TOP: u64 = 1 << 62;

// Words a record.
pub const WIDTH: usize = 7;

// Open streams in one table (01, Limits).
pub const PLACES: usize = 256;

// A stream's place in the table, and its record.
#[derive(Clone, Copy)]
pub struct Place {
    pub at: usize,
    pub stream: Stream,
}

// The peer's streams that are left, and the sum of our own streams' ends.
#[derive(Clone, Copy)]
pub struct Stripped {
    pub count: usize,
    pub total: u64,
}

// 1 for a stream of the peer in the direction `d`, else 0.
#[tactic(auto, unfolding(crate::specs::Table::theirs))]
pub fn count_one(c: Conn, d: u64, id: u64) -> u64
    ensures { result ≡ theirs c d id }
{
    if id % 2 == c.side {
        return 0;
    }
    if (id / 2) % 2 == d {
        return 1;
    }
    0
}

// Every number of a record within its limits.
#[tactic(auto, unfolding(crate::specs::Table::good_numbers))]
fn numbers(s: Stream) -> bool
    ensures { result ≡ good_numbers s }
{
    (s.id < TOP)
        & ((s.read <= s.end)
            & ((s.end <= s.limit)
                & ((s.limit < TOP)
                    & ((s.phase < 5)
                        & ((s.sending < 2)
                            & (((0 < s.phase) | (s.limit == 0))
                                & (((s.phase < 3) | (s.read == s.end))
                                    & ((((s.id / 2) % 2 == 0) | (s.sending == 0))
                                        & (s.class == 0)))))))))
}

// A record that may stand in the table of this connection.
#[tactic(auto, unfolding(crate::specs::Table::good_rec))]
pub fn good(c: Conn, s: Stream) -> bool
    ensures { result ≡ good_rec c s }
{
    c.admit(s.id).is_ok() & numbers(s)
}

// The record at place `i`: seven words of a lent table, which the caller lends as numbers.
fn load(table: &[u64], i: usize) -> Stream
    requires { 7 * i + 7 ≤ length table.now }
    ensures { result ≡ rec_at table.now i }
{
    let at = WIDTH * i;
    Stream {
        id: table[at],
        end: table[at + 1],
        read: table[at + 2],
        limit: table[at + 3],
        phase: table[at + 4],
        sending: table[at + 5],
        class: table[at + 6],
    }
}

// The record `s` goes to place `i`.
fn store(table: &mut [u64], i: usize, s: Stream)
    requires { 7 * i + 7 ≤ length table.old }
    ensures { table.new ≡ put_rec table.old i s }
{
    let at = WIDTH * i;
    table[at] = s.id;
    table[at + 1] = s.end;
    table[at + 2] = s.read;
    table[at + 3] = s.limit;
    table[at + 4] = s.phase;
    table[at + 5] = s.sending;
    table[at + 6] = s.class;
}

// The place of a stream.
fn find(table: &[u64], count: usize, id: u64) -> Option<usize>
    requires { 7 * count ≤ length table.now }
    ensures { result ≡ find_in (records count table.now) id }
{
    for i in 0..count {
        if table[WIDTH * i] == id {
            return Some(i);
        }
    }
    None
}

// Ids rise, each record is good, the ends come to `total`, and the peer's streams are as many as are allocated.
fn check(c: Conn, table: &[u64], count: usize, total: u64) -> bool
    requires { 7 * count ≤ length table.now }
    ensures { result ≡ good_from c (records count table.now) 0 total 0 0 }
{
    let mut low = 0;
    let mut left = total;
    let mut b = 0;
    let mut u = 0;
    for i in 0..count {
        let s = load(table, i);
        if !good(c, s) {
            return false;
        }
        if s.id < low {
            return false;
        }
        if left < s.end {
            return false;
        }
        low = s.id + 1;
        left -= s.end;
        b += count_one(c, 0, s.id);
        u += count_one(c, 1, s.id);
    }
    (left == 0) & ((b == c.bi.ralloc) & (u == c.uni.ralloc))
}

// Everything that a call checks of the records that it is given.
#[tactic(auto, unfolding(crate::specs::Table::sound_b))]
pub fn sound(c: Conn, table: &[u64], count: usize) -> bool
    ensures { result ≡ sound_b c table.now count }
{
    if count > PLACES {
        return false;
    }
    if table.len() < WIDTH * count {
        return false;
    }
    if !c.good() {
        return false;
    }
    check(c, table, count, c.charged.saturating_sub(c.closed))
}

// The checks that every call on a stream begins with, and the stream's place; none where the stream is closed.
pub fn enter(c: Conn, table: &[u64], count: usize, id: u64) -> Result<Option<Place>, Refusal>
    ensures { result ≡ entered c table.now count id }
{
    if id >= TOP {
        return Err(Refusal::Range);
    }
    if !sound(c, table, count) {
        return Err(Refusal::Range);
    }
    c.admit(id)?;
    let Some(at) = find(table, count, id) else {
        return Ok(None);
    };
    let stream = load(table, at);
    Ok(Some(Place { at, stream }))
}

// Is there a place `n`: one of the table's, and lent whole.
#[tactic(auto, unfolding(crate::specs::Table::has_place))]
pub fn has(table: &[u64], n: usize) -> bool
    ensures { result ≡ has_place table.now n }
{
    if n >= PLACES {
        return false;
    }
    WIDTH * n + WIDTH <= table.len()
}

// The record `s` goes to place `i`, if there is one.
#[tactic(auto, unfolding(crate::specs::Table::stored_at, crate::specs::Table::has_place))]
pub fn put(table: &mut [u64], i: usize, s: Stream)
    ensures { table.new ≡ stored_at table.old i s }
{
    if !has(table, i) {
        return;
    }
    store(table, i, s);
}

fn lower(a: Stream, b: Stream) -> Stream
    ensures { result ≡ lower a b }
{
    if a.id < b.id { a } else { b }
}

fn upper(a: Stream, b: Stream) -> Stream
    ensures { result ≡ upper a b }
{
    if a.id < b.id { b } else { a }
}

// One record more: each place keeps the lower id of its own and the one in hand.
fn shift_up(table: &mut [u64], count: usize, s: Stream)
    requires { 7 * count + 7 ≤ length table.old }
    ensures { table.new ≡ inserted table.old count s }
{
    let mut hand = s;
    for i in 0..count {
        let t = load(table, i);
        store(table, i, lower(hand, t));
        hand = upper(hand, t);
    }
    store(table, count, hand);
}

// One more record, in the order of ids, if there is a place for it.
#[tactic(auto, unfolding(crate::specs::Table::inserted_at, crate::specs::Table::has_place))]
pub fn insert(table: &mut [u64], count: usize, s: Stream)
    ensures { table.new ≡ inserted_at table.old count s }
{
    if !has(table, count) {
        return;
    }
    shift_up(table, count, s);
}

// The records after place `at` move down.
fn shift_down(table: &mut [u64], count: usize, at: usize)
    requires { (at < count) × (7 * count ≤ length table.old) }
    ensures { table.new ≡ removed table.old count at }
{
    for i in at..count - 1 {
        let t = load(table, i + 1);
        store(table, i, t);
    }
}

// The record at place `at` goes, if it is one of the table's.
#[tactic(auto, unfolding(crate::specs::Table::removed_at))]
pub fn remove(table: &mut [u64], count: usize, at: usize)
    ensures { table.new ≡ removed_at table.old count at }
{
    if at >= count {
        return;
    }
    if count > PLACES {
        return;
    }
    if table.len() < WIDTH * count {
        return;
    }
    shift_down(table, count, at);
}

// A record of the peer's goes to place `w`; one of ours goes nowhere.
fn put_theirs(table: &mut [u64], w: usize, s: Stream, side: u64) -> usize
    requires { 7 * w + 7 ≤ length table.old }
    ensures { (result ≡ cond (eqb (s.id % 2) side) w (w + 1)) × (table.new ≡ cond (eqb (s.id % 2) side) table.old (put_rec table.old w s)) }
{
    if s.id % 2 == side {
        return w;
    }
    store(table, w, s);
    w + 1
}

// The sum with the end of a stream of ours.
fn add_ours(total: u64, s: Stream, side: u64) -> u64
    requires { total + s.end < 18446744073709551616 }
    ensures { result ≡ cond (eqb (s.id % 2) side) (total + s.end) total }
{
    if s.id % 2 == side {
        return total + s.end;
    }
    total
}

// The peer's records move together, and the ends of ours are added up.
fn strip_all(side: u64, table: &mut [u64], count: usize) -> Stripped
    requires { (7 * count ≤ length table.old) × (sum_ends (records count table.old) < 18446744073709551616) }
    ensures { left result table.new ≡ stripped side table.old count }
{
    let mut w = 0;
    let mut total = 0;
    for i in 0..count {
        let s = load(table, i);
        w = put_theirs(table, w, s, side);
        total = add_ours(total, s, side);
    }
    Stripped { count: w, total }
}

// Our streams go: the peer's are left, with the sum of the ends of those that went.
pub fn strip(c: Conn, table: &mut [u64], count: usize) -> Result<Stripped, Refusal>
    ensures { left result table.new ≡ strip_after c table.old count }
{
    if !sound(c, table, count) {
        return Err(Refusal::Range);
    }
    Ok(strip_all(c.side, table, count))
}
