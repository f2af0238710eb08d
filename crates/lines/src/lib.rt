// The lines of a file of any size, one at a time, through a buffer of 65,536 bytes. A line without its line end, the last, is one like any
// other; one of more than 65,000 bytes is passed over and said to be too long.
#![tactic(auto)]

ghost use Rattle.std.specs.Prelude.{◌≡◌, ◌+◌, ◌-◌, ◌<◌, ◌≤◌, ◌==◌, length, true, position, slice_range, IfSome};
ghost use Rattle.lines.specs.Lines.{Held, Read, Next, begun, fitted, part, line_of, passed_of, found_of, long_of, none_of, last_of, settles};

use std::io::Read;

// What a call of `next` found.
#[derive(Clone, Copy, Debug, PartialEq, Eq)]
pub enum Kind {
    // A line.
    Line,
    // Nothing yet: `next` is called again.
    More,
    // A line that is too long, which is passed over.
    Long,
    // The end of the input.
    End,
    // A read that failed.
    Failed,
}

// Where a reader stands. The line is start..end of the buffer and from..to is held for later. `number` counts the lines from 1.
// Places, and no slices: the caller lends the buffer anew at each call, and `fitted` answers also for places that do not lie in it.
#[derive(Clone, Copy)]
pub struct Feed {
    pub kind: Kind,
    pub start: usize,
    pub end: usize,
    pub from: usize,
    pub to: usize,
    pub number: u64,
    pub skipping: bool,
    pub ended: bool,
}

// The most bytes that a line may have.
const LONGEST: usize = 65000;

// Nothing read yet.
pub fn begin() -> Feed
    ensures value { result ≡ begun }
    ensures held { Held result }
{
    Feed {
        kind: Kind::More,
        start: 0,
        end: 0,
        from: 0,
        to: 0,
        number: 0,
        skipping: false,
        ended: false,
    }
}

// How many of the bytes from..to stand before the first line end, if there is one.
fn line_end(buf: &[u8], from: usize, to: usize) -> Option<usize>
    requires { (from ≤ to) × (to ≤ length buf.now) }
    ensures place { result ≡ position (λ b. b == 10) (slice_range buf.now from to) }
    ensures within { IfSome result (λ n. n < to - from) }
{
    buf[from..to].iter().position(|b| *b == b'\n')
}

// No line: what stands before `next` is passed over.
fn passed(f: Feed, kind: Kind, next: usize, number: u64) -> Feed
    requires held { Held f }
    requires next_le_to { next ≤ f.to }
    ensures value { result ≡ passed_of f kind next number }
    ensures held_2 { Held result }
{
    Feed {
        kind,
        start: 0,
        end: 0,
        from: next,
        number,
        skipping: false,
        ..f
    }
}

// The line up to `end`, after which `from` is next.
#[tactic(auto, unfolding(crate::specs::Lines::found_of, crate::specs::Lines::one_more))]
fn found(f: Feed, end: usize, next: usize) -> Feed
    requires held { Held f }
    requires from_le_end { (f.from ≤ end) × ((end ≤ next) × (next ≤ f.to)) }
    ensures value { result ≡ found_of f end next }
    ensures held_2 { Held result }
{
    if f.skipping {
        return passed(f, Kind::More, next, f.number);
    }
    let number = f.number.saturating_add(1);
    if LONGEST < end - f.from {
        return passed(f, Kind::Long, next, number);
    }
    Feed {
        kind: Kind::Line,
        start: f.from,
        end,
        from: next,
        number,
        ..f
    }
}

// Nothing found: what is held is 0..to, the input may have ended, and `kind` says what to do.
fn nothing(f: Feed, kind: Kind, to: usize, ended: bool) -> Feed
    requires { to ≤ 65536 }
    ensures value { result ≡ none_of f kind to ended }
    ensures held { Held result }
{
    Feed {
        kind,
        start: 0,
        end: 0,
        from: 0,
        to,
        ended,
        ..f
    }
}

// A full buffer with no line end in it.
#[tactic(auto, unfolding(crate::specs::Lines::long_of, crate::specs::Lines::one_more))]
fn too_long(f: Feed) -> Feed
    ensures value { result ≡ long_of f }
    ensures held { Held result }
{
    if f.skipping {
        return nothing(f, Kind::More, 0, false);
    }
    Feed {
        number: f.number.saturating_add(1),
        skipping: true,
        ..nothing(f, Kind::Long, 0, false)
    }
}

// What there is after the last line end of an input that has ended.
#[tactic(auto, unfolding(crate::specs::Lines::last_of))]
fn last(f: Feed) -> Feed
    requires { Held f }
    ensures value { result ≡ last_of f }
    ensures held { Held result }
{
    if f.from == f.to {
        return nothing(f, Kind::End, 0, true);
    }
    found(f, f.to, f.to)
}

// A feed that a caller did not get from here may not lie in the buffer: it counts as a new one.
#[tactic(auto, unfolding(crate::specs::Lines::fitted))]
fn held(f: Feed) -> Feed
    ensures value { result ≡ fitted f }
    ensures held { Held result }
{
    if f.start <= f.end && f.end <= 65536 && f.from <= f.to && f.to <= 65536 {
        f
    } else {
        begin()
    }
}

// Moves what is held to the start, and reads once, behind it.
fn read_on<R: Read>(source: &mut R, buf: &mut [u8], f: Feed) -> Feed
    requires held { Held f }
    requires buf_len { length buf.old ≡ 65536 }
    ensures read { Read buf.old f buf.new result }
    ensures held_2 { Held result }
{
    let kept = f.to - f.from;
    buf.copy_within(f.from..f.to, 0);
    match source.read(&mut buf[kept..]) {
        Ok(0) => nothing(f, Kind::More, kept, true),
        Ok(n) => nothing(f, Kind::More, kept + n, false),
        Err(_) => nothing(f, Kind::Failed, kept, true),
    }
}

// The next line. A call finds at most one line and reads at most once, and not at all where what is held says what comes next.
pub fn next<R: Read>(source: &mut R, buf: &mut [u8; 65536], f: Feed) -> Feed
    ensures next { Next buf.old (fitted f) buf.new result }
    ensures held { Held result }
    ensures source_unread { settles buf.old (fitted f) ≡ true → source.new ≡ source.old }
{
    next_in(source, buf, held(f))
}

fn next_in<R: Read>(source: &mut R, buf: &mut [u8], f: Feed) -> Feed
    requires held { Held f }
    requires buf_len { length buf.old ≡ 65536 }
    ensures next { Next buf.old f buf.new result }
    ensures held_2 { Held result }
    ensures source_unread { settles buf.old f ≡ true → source.new ≡ source.old }
{
    match line_end(buf, f.from, f.to) {
        Some(n) => found(f, f.from + n, f.from + n + 1),
        None if f.ended => last(f),
        None if f.to - f.from == 65536 => too_long(f),
        None => read_on(source, buf, f),
    }
}

// The line that `next` found.
pub fn line(buf: &[u8; 65536], f: Feed) -> &[u8]
    ensures { result.now ≡ line_of f buf.now }
{
    let f = held(f);
    &buf[f.start..f.end]
}
