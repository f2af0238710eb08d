// Both forms of `stop` on the same events (01, Forms named): on words (`streams::stop`) and on a slice of records
// (`stop_table::stop`), each with its own connection and table. A line an event: answer, value and credit of the one and of the
// other, and whether what they handed back and left is the same. That it always is, `stop_table` proves of every table.
#![tactic(auto)]

ghost use Rattle.std.specs.Prelude.{◌≡◌};
ghost use Rattle.stop_table.specs.Slice.{on_slice, stop_on};

use answers::Refusal;
use stream_conn::{Conn, Counts, Done};
use stream_record::Stream;

// A table of four places.
#[derive(Clone, Copy)]
pub struct Records {
    pub table: [Stream; 4],
}

// What `stop` hands back, and the table afterwards.
#[derive(Clone, Copy)]
pub struct Stopped {
    pub done: Result<Done, Refusal>,
    pub table: [Stream; 4],
}

// Both connections with their tables.
#[derive(Clone, Copy)]
struct Both {
    conn: Conn,
    words: [u64; 28],
    other: Conn,
    table: [Stream; 4],
}

// `stop` on a slice of records: the table is lent from a local.
fn on_slice(c: Conn, h: Records, count: usize, id: u64) -> Stopped
    ensures { on_slice result.done result.table ≡ stop_on c h.table count id }
{
    let mut t = h.table;
    let done = stop_table::stop(c, &mut t, count, id);
    Stopped { done, table: t }
}

// One figure of a number up to ten, which is written as a letter.
fn digit(n: u64) -> u8 {
    match n {
        0 => b'0',
        1 => b'1',
        2 => b'2',
        3 => b'3',
        4 => b'4',
        5 => b'5',
        6 => b'6',
        7 => b'7',
        8 => b'8',
        9 => b'9',
        10 => b'a',
        _ => b'?',
    }
}

// What a call shows: its answer, value and credit; zeros where it was refused.
fn shown(r: Result<Done, Refusal>) -> (u64, u64, u64) {
    match r {
        Ok(d) => (0, d.value, d.credit),
        Err(why) => (u64::from(u8::from(why)), 0, 0),
    }
}

// The connection after a call: as it was where the call was refused.
fn conn_after(c: Conn, r: Result<Done, Refusal>) -> Conn {
    match r {
        Ok(d) => d.conn,
        Err(_) => c,
    }
}

// The record that seven words are; zeros where they are not seven.
fn record_of(words: &[u64]) -> Stream {
    match words {
        [id, end, read, limit, phase, sending, class] => Stream {
            id: *id,
            end: *end,
            read: *read,
            limit: *limit,
            phase: *phase,
            sending: *sending,
            class: *class,
        },
        _ => record(0, 0, 0, 0, 0, 0),
    }
}

// The four records of a table of words.
fn table_of(words: &[u64; 28]) -> [Stream; 4] {
    [
        record_of(&words[..7]),
        record_of(&words[7..14]),
        record_of(&words[14..21]),
        record_of(&words[21..]),
    ]
}

// One event, on both.
fn event(b: Both, count: usize, id: u64) -> Both {
    let mut w = b.words;
    let c = b.conn;
    let d = streams::stop(c, &mut w, count, id);
    let table = b.table;
    let o = b.other;
    let r = on_slice(o, Records { table }, count, id);
    let e = r.done;
    let ok = (d == e) & (table_of(&w) == r.table);
    let one = shown(d);
    let two = shown(e);
    let line = [
        digit(one.0),
        b' ',
        digit(one.1),
        b' ',
        digit(one.2),
        b' ',
        digit(two.0),
        b' ',
        digit(two.1),
        b' ',
        digit(two.2),
        b' ',
        if ok { b'=' } else { b'!' },
        b'\n',
    ];
    io::write_all(1, &line);
    Both {
        conn: conn_after(c, d),
        words: w,
        other: conn_after(o, e),
        table: r.table,
    }
}

fn record(id: u64, end: u64, read: u64, limit: u64, phase: u64, sending: u64) -> Stream {
    Stream {
        id,
        end,
        read,
        limit,
        phase,
        sending,
        class: 0,
    }
}

// The server's side, with two streams of the peer's each way.
fn connection() -> Conn {
    let k = Counts {
        next: 0,
        max: 0,
        rmax: 2,
        ralloc: 2,
        rwant: 2,
        rnext: 2,
    };
    Conn {
        side: 1,
        bi: k,
        uni: k,
        charged: 42,
        closed: 7,
        grant: 1000,
        window: 1000,
        debt: 3,
        swindow: 100,
    }
}

// The words of the four streams, seven a record: open, sized, reset and closed.
fn words() -> [u64; 28] {
    let mut w = [0u64; 28];
    w[1] = 10;
    w[2] = 4;
    w[3] = 100;
    w[4] = 1;
    w[5] = 1;
    w[7] = 2;
    w[8] = 20;
    w[9] = 11;
    w[10] = 100;
    w[11] = 2;
    w[14] = 4;
    w[15] = 5;
    w[16] = 5;
    w[17] = 100;
    w[18] = 3;
    w[21] = 6;
    w
}

// Both forms of the same table.
fn begin() -> Both {
    let c = connection();
    Both {
        conn: c,
        words: words(),
        other: c,
        table: [
            record(0, 10, 4, 100, 1, 1),
            record(2, 20, 11, 100, 2, 0),
            record(4, 5, 5, 100, 3, 0),
            record(6, 0, 0, 0, 0, 0),
        ],
    }
}

fn main() {
    // A count past the places; an id that is no id.
    let a = event(begin(), 5, 0);
    let a = event(a, 4, 4611686018427387904);
    // Each stream; the closed one; the first once more.
    let a = event(a, 4, 0);
    let a = event(a, 4, 2);
    let a = event(a, 4, 4);
    let a = event(a, 4, 6);
    let a = event(a, 4, 0);
    // Not granted; our own one way; a table that is not whole.
    let a = event(a, 4, 8);
    let a = event(a, 4, 3);
    event(a, 3, 0);
}
