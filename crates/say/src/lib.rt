// What the programs print: forms with their numbers, an answer's values, ranges, byte strings, and the line for what is no event (docs/EVENTS.md).
#![tactic(auto)]

use events::NoEvent;
use out::Out;
use said::Said;

// A form, each `%` of it as the next of the values, nothing where they have run out. No `write!`: its digits are std's, and what `print::number`
// promises is to be said of those that are put here.
pub fn form(out: &mut Out, form: &[u8], values: &[u64]) {
    if form.is_empty() {
        return;
    }
    let mut values = values.iter();
    for (k, text) in form.split(|b| *b == b'%').enumerate() {
        if k > 0 {
            if let Some(value) = values.next() {
                out.number(*value);
            }
        }
        // An empty text behind the first adds nothing.
        if k == 0 || !text.is_empty() {
            out.text(text);
        }
    }
}

// A number, or `-` where there is none.
pub fn or_dash(out: &mut Out, number: Option<u64>) {
    match number {
        Some(n) => out.number(n),
        None => out.text(b"-"),
    }
}

// An answer and its values, of which a refusal has none.
pub fn all(out: &mut Out, s: Said) {
    say_answer::name(out, s.answer);
    if s.answer != answers::OK {
        return;
    }
    for value in [s.a, s.b, s.c].iter().take(s.count) {
        out.text(b" ");
        out.number(*value);
    }
}

// A byte string in hex, `-` for none.
pub fn bytes(out: &mut Out, s: &[u8]) {
    if s.is_empty() {
        out.text(b"-");
    } else {
        out.hex(s);
    }
}

// One range after a space.
pub fn range(out: &mut Out, a: u64, b: u64) {
    out.text(b" ");
    out.range(a, b);
}

// The ranges of a list, each after a space, or ` -`.
pub fn ranges(out: &mut Out, list: &[u64], count: usize) {
    if count == 0 {
        out.text(b" -");
        return;
    }
    for pair in list.chunks_exact(2).take(count) {
        if let [a, b] = pair {
            range(out, *a, *b);
        }
    }
}

// The end of a line.
pub fn end(out: &mut Out) {
    out.text(b"\n");
}

// The line for what is no event.
pub fn error(out: &mut Out, number: u64, what: &[u8]) {
    form(out, b"?? line %: ", &[number]);
    out.text(what);
    end(out);
}

// The line for a line that is no event.
pub fn refused(out: &mut Out, number: u64, why: NoEvent) {
    match why {
        NoEvent::Unknown => error(out, number, b"no such event"),
        NoEvent::Unfit => error(out, number, b"words that do not fit the event"),
    }
}

// The line for a line that could not be taken in: it is too long, or the input ends in an error.
pub fn unread(out: &mut Out, number: u64, long: bool) {
    if long {
        error(out, number, b"a line of more than 65000 bytes");
    } else {
        error(out, number, b"the input cannot be read on");
    }
}
