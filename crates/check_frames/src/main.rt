// Reads lines of hexadecimal digits on standard input, each a buffer with an ACK frame at its start, and prints what each frame says, or why it
// is refused. A line with no word, and one that starts with #, is passed over.
#![tactic(auto)]

use lines::{Feed, Kind};
use out::Out;
use std::io::{Error, Read, Result};

// The line of a frame: into a list of 64 ranges.
fn show(frame: &[u8], list: &mut [u64], out: &mut Out) {
    match ack_frame::read(frame, list) {
        Ok(a) => {
            say_answer::name(out, answers::OK);
            say::form(out, b" taken % delay % ranges", &[a.taken as u64, a.delay]);
            say::ranges(out, list, a.count);
        }
        Err(why) => say_answer::name(out, u8::from(why)),
    }
    say::end(out);
}

// The line of a line.
fn check(line: &[u8], number: u64, frame: &mut [u8], list: &mut [u64], out: &mut Out) {
    if text::is_end(text::without_note(line), 0) {
        return;
    }
    let b = text::bytes_at(line, 0, frame, 0);
    let Some(end) = b.end else {
        say::error(out, number, b"no bytes in hex");
        return;
    };
    if !text::is_end(line, b.next) {
        say::error(out, number, b"more than one word");
    } else if let Some(bytes) = frame.get(..end) {
        show(bytes, list, out);
    }
}

// What comes of one call for the next line.
fn turn(
    feed: Feed,
    buf: &[u8; 65536],
    frame: &mut [u8; 65536],
    list: &mut [u64; 128],
    out: &mut Out,
) {
    match feed.kind {
        Kind::Line => check(lines::line(buf, feed), feed.number, frame, list, out),
        Kind::More | Kind::End => {}
        Kind::Long | Kind::Failed => {
            say::unread(out, feed.number, feed.kind == Kind::Long);
        }
    }
}

// A proved loop has to end, and nothing says that the input does: the turns are as many as no run uses up.
fn run<R: Read>(source: &mut R) -> Result<()> {
    let mut buf = io::large_buffer();
    let mut out = Out {
        buf: io::large_buffer(),
        at: 0,
    };
    let mut frame = io::large_buffer();
    let mut list = [0u64; 128];
    let mut feed = lines::begin();
    for _ in 0..u64::MAX {
        feed = lines::next(source, &mut buf, feed);
        turn(feed, &buf, &mut frame, &mut list, &mut out);
        if matches!(feed.kind, Kind::End | Kind::Failed) {
            out.flush();
            if out.at == out::FAILED {
                return Err(Error::other("standard output: a write failed"));
            }
            return Ok(());
        }
    }
    Ok(())
}

fn main(rt: HostRuntime) -> Result<()> {
    run(&mut rt.stdin())
}
