// The line of an event of the connection-id queue: its answer, and the queue (docs/EVENTS.md).
#![tactic(auto)]

use cid_queue::{CidQueue, Entry};
use cid_ring::Cid;
use drive_cq::Gave;
use out::Out;

// The bytes of an id.
fn show_id(cid: Cid, out: &mut Out) {
    if let Some(s) = cid.id.get(..cid.len) {
        say::bytes(out, s);
    }
}

// The values: nothing, numbers and a token, a number and an id, or yes and no.
fn show_values(g: Gave, out: &mut Out) {
    let said = g.said;
    say_answer::name(out, said.answer);
    if said.answer != answers::OK {
        return;
    }
    if let Some(retired) = g.retired {
        say::range(out, said.a, said.b);
        out.text(b" ");
        out.hex(&retired.token.unwrap_or([0; 16])); // zeros where the new active id has none
    } else if let Some(cid) = g.named {
        out.text(b" ");
        out.number(said.a);
        out.text(b" ");
        show_id(cid, out);
    } else if said.count == 1 {
        out.text(b" ");
        out.number(said.a);
    }
}

// SEQ:CID/TOKEN of an id held.
fn show_entry(e: Entry, out: &mut Out) {
    out.text(b" ");
    out.number(e.seq);
    out.text(b":");
    show_id(e.cid, out);
    out.text(b"/");
    match e.cid.token {
        Some(token) => out.hex(&token),
        None => out.text(b"-"),
    }
}

fn show_queue(q: CidQueue, out: &mut Out) {
    out.text(b" | ");
    out.number(q.active_seq().unwrap_or(0));
    for k in 0..5 {
        if let Ok(e) = q.entry(k) {
            show_entry(e, out);
        }
    }
}

// The line of an event.
pub fn show(g: Gave, out: &mut Out) {
    show_values(g, out);
    match g.kept {
        Some(q) => show_queue(q, out),
        None => out.text(b" | -"),
    }
}
