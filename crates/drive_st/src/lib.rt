// The events of streams and bytes: st (docs/EVENTS.md). An event is its library's call, with the place of a stream that is over given back at once.
// The start of a connection is in st_new, the calls of the events that name a stream in st_call.
#![tactic(auto)]

ghost use Rattle.std.specs.Prelude.{◌≡◌};
ghost use Rattle.stream_places.specs.Places.{want_after, open_after, reject_after};
ghost use Rattle.drive_st.specs.Step.{done, gave, stayed, begun, plain_of, new_of, settled_of, one_of, changed_gave, opened_by, changed_by, flow_of, flowed_by, whole_of, step_of};

use answers::Refusal;
use said::Said;
use stream_conn::{Conn, Done};
use stream_places::Changed;

// The books: the connection, and how many records its table has.
#[derive(Clone, Copy)]
pub struct Books {
    pub conn: Conn,
    pub count: usize,
}

// What an event gave, the stream that it named, if any, and the books after it: there are none before the first `new`.
#[derive(Clone, Copy)]
pub struct Gave {
    pub said: Said,
    pub about: Option<u64>,
    pub kept: Option<Books>,
}

// What a state holds before the first event.
pub fn begin() -> Gave
    ensures { result ≡ begun }
{
    stay(answers::OK, None)
}

// An answer that leaves the books as they are.
fn stay(answer: u8, k: Option<Books>) -> Gave
    ensures { result ≡ stayed answer k }
{
    Gave {
        said: said::plain(answer),
        about: None,
        kept: k,
    }
}

// The books after an event that named the stream `about`, if any.
fn give(said: Said, about: Option<u64>, conn: Conn, count: usize) -> Gave
    ensures { result ≡ gave said about conn count }
{
    Gave {
        said,
        about,
        kept: Some(Books { conn, count }),
    }
}

// The line of an answer without its value.
fn plain(r: Result<u64, Refusal>) -> Said
    ensures { result ≡ plain_of r }
{
    match r {
        Ok(_) => said::plain(answers::OK),
        Err(why) => said::plain(u8::from(why)),
    }
}

// st.new
#[tactic(auto, unfolding(crate::specs::Step::new_of, crate::specs::Step::granted_by))]
fn anew(numbers: &[u64; 32768], table: &mut [u64], k: Option<Books>) -> Gave
    ensures { done result table.new ≡ new_of numbers.now table.old k }
{
    let bi = numbers[1];
    let uni = numbers[2];
    let made = stream_conn::new(numbers[0], numbers[3], numbers[4]);
    match st_new::startable(made, bi, uni) {
        Ok(c) => {
            let b = st_new::start(c, table, bi, uni);
            give(plain(b.granted), None, b.conn, b.count)
        }
        Err(why) => stay(u8::from(why), k),
    }
}

// A stream whose halves are both over gives its place back before the line is printed.
#[tactic(auto, unfolding(crate::specs::Step::settled_of))]
fn settled(code: u8, r: Result<Done, Refusal>, b: Books, table: &mut [u64], id: u64) -> Gave
    ensures { done result table.new ≡ settled_of code b.conn r table.old b.count id }
{
    let said = st_call::values(code, r);
    let Ok(d) = r else {
        return give(said, Some(id), b.conn, b.count);
    };
    if !d.free {
        return give(said, Some(id), d.conn, b.count);
    }
    match stream_places::free(d.conn, table, b.count, id) {
        Ok(f) => give(said, Some(id), f.conn, f.count),
        Err(_) => give(said, Some(id), d.conn, b.count),
    }
}

// The events that name a stream.
#[tactic(auto, unfolding(crate::specs::Step::one_of))]
fn one(code: u8, numbers: &[u64; 32768], b: Books, table: &mut [u64]) -> Gave
    ensures { done result table.new ≡ one_of code numbers.now b.conn table.old b.count }
{
    let r = st_call::call(code, numbers, b.conn, table, b.count);
    settled(code, r, b, table, numbers[0])
}

// The books after a call that moved places, with its value; a refusal leaves them as they were.
fn changed(b: Books, r: Result<Changed, Refusal>, about: Option<u64>) -> Gave
    ensures { result ≡ changed_gave b.conn b.count r about }
{
    match r {
        Ok(x) => give(said::number(answers::OK, x.value), about, x.conn, x.count),
        Err(why) => give(said::number(u8::from(why), 0), about, b.conn, b.count),
    }
}

// st.open names the stream that it opened.
#[tactic(auto, unfolding(crate::specs::Step::opened_by))]
fn open(b: Books, table: &mut [u64], dir: u64) -> Gave
    ensures { done result table.new ≡ opened_by b.conn b.count (open_after b.conn table.old b.count dir) }
{
    let r = stream_places::open(b.conn, table, b.count, dir);
    let about = match r {
        Ok(x) => Some(x.value),
        Err(_) => None,
    };
    changed(b, r, about)
}

// st.want
#[tactic(auto, unfolding(crate::specs::Step::changed_by))]
fn want(b: Books, table: &mut [u64], dir: u64, n: u64) -> Gave
    ensures { done result table.new ≡ changed_by b.conn b.count (want_after b.conn table.old b.count dir n) }
{
    let r = stream_places::want(b.conn, table, b.count, dir, n);
    changed(b, r, None)
}

// st.zrej
#[tactic(auto, unfolding(crate::specs::Step::changed_by))]
fn rejected(b: Books, table: &mut [u64]) -> Gave
    ensures { done result table.new ≡ changed_by b.conn b.count (reject_after b.conn table.old b.count) }
{
    let r = stream_places::rejected(b.conn, table, b.count);
    changed(b, r, None)
}

#[tactic(auto, unfolding(crate::specs::Step::flow_of))]
fn flow(code: u8, c: Conn, a: u64, b: u64) -> Result<Done, Refusal>
    ensures { result ≡ flow_of code c a b }
{
    match code {
        codes::ST_MAXSTREAMS => stream_conn::max_streams(c, a, b),
        codes::ST_CREDIT => stream_conn::credit(c, a),
        _ => stream_conn::window(c, a),
    }
}

// The events of the connection that leave the table alone.
#[tactic(auto, unfolding(crate::specs::Step::flowed_by))]
fn flowed(code: u8, b: Books, m: u64, n: u64) -> Gave
    ensures { result ≡ flowed_by code b.conn (flow_of code b.conn m n) b.count }
{
    let r = flow(code, b.conn, m, n);
    let said = st_call::values(code, r);
    match r {
        Ok(d) => give(said, None, d.conn, b.count),
        Err(_) => give(said, None, b.conn, b.count),
    }
}

// The events of the connection.
#[tactic(auto, unfolding(crate::specs::Step::whole_of))]
fn whole(code: u8, numbers: &[u64; 32768], b: Books, table: &mut [u64]) -> Gave
    ensures { done result table.new ≡ whole_of code numbers.now b.conn table.old b.count }
{
    match code {
        codes::ST_OPEN => open(b, table, numbers[0]),
        codes::ST_WANT => want(b, table, numbers[0], numbers[1]),
        codes::ST_ZREJ => rejected(b, table),
        _ => flowed(code, b, numbers[0], numbers[1]),
    }
}

// An event of the books.
#[tactic(auto, unfolding(crate::specs::Step::step_of))]
pub fn step(code: u8, numbers: &[u64; 32768], table: &mut [u64], k: Option<Books>) -> Gave
    ensures { done result table.new ≡ step_of code numbers.now table.old k }
{
    if code == codes::ST_NEW {
        return anew(numbers, table, k);
    }
    let Some(b) = k else {
        return stay(answers::ORDER, None);
    };
    if code <= codes::ST_SENT {
        return one(code, numbers, b, table);
    }
    whole(code, numbers, b, table)
}
