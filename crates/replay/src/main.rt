// Replays a file of events, one to a line, and prints a line for each (docs/EVENTS.md): `replay FILE`, or `replay` for standard input.
#![tactic(auto)]

use events::Event;
use ledger::State;
use lines::{Feed, Kind};
use out::Out;
use std::env::{Env, FillError};
use std::fs;
use std::io::{Error, Read, Result};
use std::rt::Files;

// What the program lends to `events` and `ledger`: the sizes are theirs.
#[derive(Drop)]
struct Lent {
    numbers: [u64; 32768],
    bytes: [u8; 65536],
    scratch: [u8; 65536],
    memory: [u64; 2432],
    list: [u64; 32768],
}

// The event of a line, if any. What is no event has its error line, a line with no word has none.
fn parse(line: &[u8], number: u64, lent: &mut Lent, out: &mut Out) -> Option<Event> {
    let words = text::without_note(line);
    if text::is_end(words, 0) {
        return None;
    }
    match events::parse(words, &mut lent.numbers, &mut lent.bytes) {
        Ok(e) => Some(e),
        Err(why) => {
            say::refused(out, number, why);
            None
        }
    }
}

// The event of what a call for the next line found, if any.
fn event(feed: Feed, buf: &[u8; 65536], lent: &mut Lent, out: &mut Out) -> Option<Event> {
    match feed.kind {
        Kind::Line => parse(lines::line(buf, feed), feed.number, lent, out),
        Kind::More | Kind::End => None,
        Kind::Long | Kind::Failed => {
            say::unread(out, feed.number, feed.kind == Kind::Long);
            None
        }
    }
}

// What comes of one call for the next line: its event and the event's line, where there is one.
fn turn(feed: Feed, buf: &[u8; 65536], s: &mut State, lent: &mut Lent, out: &mut Out) {
    let Some(e) = event(feed, buf, lent, out) else {
        return;
    };
    *s = ledger::step(
        e,
        &lent.numbers,
        &lent.bytes,
        &mut lent.scratch,
        *s,
        &mut lent.memory,
        &mut lent.list,
    );
    show::show(*s, &lent.scratch, &lent.memory, &lent.list, out);
}

// What is left to write is written. A write that failed, now or before, is the error.
fn finish(out: &mut Out) -> Result<()> {
    out.flush();
    if out.at == out::FAILED {
        return Err(Error::other("standard output: a write failed"));
    }
    Ok(())
}

// A proved loop has to end, and nothing says that a file does: the turns are as many as no run uses up.
fn run<R: Read>(source: &mut R) -> Result<()> {
    let mut buf = io::large_buffer();
    let mut out = Out {
        buf: io::large_buffer(),
        at: 0,
    };
    let mut lent = Lent {
        numbers: [0; 32768],
        bytes: io::large_buffer(),
        scratch: io::large_buffer(),
        memory: [0; 2432],
        list: [0; 32768],
    };
    let mut feed = lines::begin();
    let mut state = ledger::begin();
    for _ in 0..u64::MAX {
        feed = lines::next(source, &mut buf, feed);
        turn(feed, &buf, &mut state, &mut lent, &mut out);
        if matches!(feed.kind, Kind::End | Kind::Failed) {
            return finish(&mut out);
        }
    }
    Ok(())
}

// The file, or an error that names it.
fn open<R: Files + Alloc>(rt: &R, path: &str) -> Result<R::File> {
    match fs::open(rt, path) {
        Ok(file) => Ok(file),
        Err(e) => {
            let words = format!(in rt.alloc(); "{e}: {path}")?;
            Err(Error::new(e.kind(), words.as_str()))
        }
    }
}

// The first argument is the file; with none, standard input is read.
fn main(rt: HostRuntime) -> Result<()> {
    let mut path = io::buffer();
    match rt.arg(1, &mut path) {
        Ok(n) => match str::from_utf8(&path[..n]) {
            Ok(name) => run(&mut open(&rt, name)?),
            Err(_) => Err(Error::other("path: not UTF-8")),
        },
        Err(FillError::NotPresent) => run(&mut rt.stdin()),
        Err(FillError::TooLong) => Err(Error::other("path: too long")),
    }
}
