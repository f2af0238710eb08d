// The line of an event of streams and bytes: its answer, and the books (docs/EVENTS.md).
#![tactic(auto)]

use drive_st::{Books, Gave};
use out::Out;
use stream_conn::Conn;
use stream_record::Stream;

// The name of the phase of a stream that is held. A phase is a number, as `stream_record` has it: each has a line, also one past the last.
fn name(phase: u64) -> &'static str {
    match phase {
        stream_record::OPEN => "open",
        stream_record::SIZED => "sized",
        stream_record::RESET => "reset",
        _ => "stopped",
    }
}

fn show_stream(s: Stream, id: u64, out: &mut Out) {
    if s.phase == stream_record::CLOSED {
        say::form(out, b" | #% closed", &[id]);
        return;
    }
    let values = [id, s.end, s.read, s.limit];
    say::form(out, b" | #% end=% read=% limit=% ", &values);
    out.text(name(s.phase).as_bytes());
}

// The stream that an event names, if any: one that is refused is shown as closed.
fn show_named(about: Option<u64>, b: Books, table: &[u64], out: &mut Out) {
    let Some(id) = about else {
        out.text(b" | #-");
        return;
    };
    match streams::look(b.conn, table, b.count, id) {
        Ok(s) => show_stream(s, id, out),
        Err(_) => say::form(out, b" | #% closed", &[id]),
    }
}

fn show_conn(c: Conn, out: &mut Out) {
    let b = c.bi;
    let u = c.uni;
    let values = [
        c.charged, c.grant, c.debt, c.window, b.next, u.next, b.max, u.max, b.rmax, u.rmax,
        b.ralloc, u.ralloc, b.rwant, u.rwant, b.rnext, u.rnext,
    ];
    say::form(
        out,
        b" | charged=% grant=% debt=% win=% next=%,% max=%,% rmax=%,% ralloc=%,% rwant=%,% rnext=%,%",
        &values,
    );
}

// The line of an event.
pub fn show(g: Gave, table: &[u64], out: &mut Out) {
    say::all(out, g.said);
    let Some(b) = g.kept else {
        out.text(b" | -");
        return;
    };
    show_named(g.about, b, table, out);
    show_conn(b.conn, out);
}
