// st.new (docs/EVENTS.md): whether a connection can start with so many streams, and the grant of those.
#![tactic(auto)]

ghost use Rattle.std.specs.Prelude.{◌≡◌};
ghost use Rattle.st_new.specs.New.{room_of, start_answer, startable, granted_of, started, start_of};

use answers::Refusal;
use stream_conn::{Conn, Done};
use stream_places::Changed;
use stream_table::PLACES;

// Counts of streams are at most this (01, Limits).
const COUNTS: u64 = 1 << 60;

// What the last grant at the start came to, and the books after it.
#[derive(Clone, Copy)]
pub struct Started {
    pub granted: Result<u64, Refusal>,
    pub count: usize,
    pub conn: Conn,
}

// Whether so many streams can be wanted at a start and each has a place.
#[tactic(auto, unfolding(crate::specs::New::room_of))]
fn room(bi: u64, uni: u64) -> Result<(), Refusal>
    ensures { result ≡ room_of bi uni }
{
    if (bi > COUNTS) | (uni > COUNTS) {
        return Err(Refusal::Range);
    }
    if bi + uni > PLACES as u64 {
        return Err(Refusal::Full);
    }
    Ok(())
}

// The answer of a start, by the number of the answer that the connection's record had: any number, also one that is no answer of the table.
#[tactic(auto, unfolding(crate::specs::New::start_answer, crate::specs::New::room_of))]
pub fn start_answer(answer: u8, bi: u64, uni: u64) -> u8
    ensures { result ≡ start_answer answer bi uni }
{
    if answer != answers::OK {
        return answer;
    }
    match room(bi, uni) {
        Ok(()) => answers::OK,
        Err(why) => u8::from(why),
    }
}

// The connection that was made, if so many streams can be wanted at its start and each has a place.
#[tactic(auto, unfolding(crate::specs::New::startable, crate::specs::New::room_of))]
pub fn startable(made: Result<Done, Refusal>, bi: u64, uni: u64) -> Result<Conn, Refusal>
    ensures { result ≡ startable made bi uni }
{
    let d = made?;
    room(bi, uni)?;
    Ok(d.conn)
}

// The books after a grant: as they were where it was refused.
fn granted(c: Conn, count: usize, r: Result<Changed, Refusal>) -> Started
    ensures { result ≡ granted_of c count r }
{
    match r {
        Ok(x) => Started {
            granted: Ok(x.value),
            count: x.count,
            conn: x.conn,
        },
        Err(why) => Started {
            granted: Err(why),
            count,
            conn: c,
        },
    }
}

// The peer's streams that are wanted at the start are granted: both ways, then one way, whatever the first grant came to.
#[tactic(auto, unfolding(crate::specs::New::start_of))]
pub fn start(c: Conn, table: &mut [u64], bi: u64, uni: u64) -> Started
    ensures { started result table.new ≡ start_of c table.old bi uni }
{
    let both = granted(c, 0, stream_places::want(c, table, 0, 0, bi));
    let way = stream_places::want(both.conn, table, both.count, 1, uni);
    granted(both.conn, both.count, way)
}
