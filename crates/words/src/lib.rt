// The words of an event: each kind of word adds to the numbers or to the bytes of the event, which go to lent memory. A word that does not fit is
// not passed over, and the whole is then said not to have fitted.
#![tactic(auto)]

ghost use Rattle.std.specs.Prelude.{◌≡◌, length};
ghost use Rattle.words.specs.Words.{failed, pushed, pushed_two, number_taken, option_taken, name_taken, bytes_taken, pairs_from, pairs_taken, numbers_taken, one_taken, words_taken, done, both};

// How far a line is read: whether all words fitted, the place behind the last, and how many numbers and bytes there are.
// `ok` is a flag and no `Result`: behind a word that does not fit the later words are tried too, and `words_taken` says what they leave in memory.
#[derive(Clone, Copy, Debug, PartialEq, Eq)]
pub struct Cursor {
    pub ok: bool,
    pub at: usize,
    pub count: usize,
    pub first: usize,
    pub size: usize,
}

// A word that does not fit is not passed over.
fn fail(c: Cursor) -> Cursor
    ensures { result ≡ failed c }
{
    Cursor { ok: false, ..c }
}

// One number more.
fn push(c: Cursor, next: usize, v: u64, numbers: &mut [u64]) -> Cursor
    ensures { done result numbers.new ≡ pushed c next v numbers.old }
{
    if numbers.len() <= c.count {
        return fail(c);
    }
    numbers[c.count] = v;
    Cursor {
        at: next,
        count: c.count + 1,
        ..c
    }
}

// Two numbers more.
fn push_two(c: Cursor, next: usize, a: u64, b: u64, numbers: &mut [u64]) -> Cursor
    ensures { done result numbers.new ≡ pushed_two c next a b numbers.old }
{
    let d = push(c, next, a, numbers);
    push(d, next, b, numbers)
}

// A word that is a number.
fn take_number(line: &[u8], c: Cursor, numbers: &mut [u64]) -> Cursor
    ensures { done result numbers.new ≡ number_taken line.now c numbers.old }
{
    let n = text::number_at(line, c.at);
    match n.value {
        Some(v) => push(c, n.next, v, numbers),
        None => fail(c),
    }
}

// A word that is a number or `-`: 1 and the number, or 0 and 0.
fn take_option(line: &[u8], c: Cursor, numbers: &mut [u64]) -> Cursor
    ensures { done result numbers.new ≡ option_taken line.now c numbers.old }
{
    let w = text::word_at(line, c.at);
    if text::same(&line[w.start..w.end], b"-") {
        return push_two(c, w.end, 0, 0, numbers);
    }
    let n = text::number_at(line, c.at);
    match n.value {
        Some(v) => push_two(c, n.next, 1, v, numbers),
        None => fail(c),
    }
}

// A word that is one of two names: 0 for the first, 1 for the second.
fn take_name(line: &[u8], c: Cursor, left: &[u8], right: &[u8], numbers: &mut [u64]) -> Cursor
    ensures { done result numbers.new ≡ name_taken line.now c left.now right.now numbers.old }
{
    let w = text::word_at(line, c.at);
    let word = &line[w.start..w.end];
    if text::same(word, left) {
        push(c, w.end, 0, numbers)
    } else if text::same(word, right) {
        push(c, w.end, 1, numbers)
    } else {
        fail(c)
    }
}

// A word that is a byte string, behind those before it.
fn take_bytes(line: &[u8], c: Cursor, second: bool, bytes: &mut [u8]) -> Cursor
    ensures { done result bytes.new ≡ bytes_taken line.now c second bytes.old }
{
    let b = text::bytes_at(line, c.at, bytes, c.size);
    let Some(end) = b.end else {
        return fail(c);
    };
    Cursor {
        at: b.next,
        first: if second { c.first } else { end },
        size: end,
        ..c
    }
}

// All words that are left, which are numbers.
fn take_rest(line: &[u8], mut c: Cursor, numbers: &mut [u64]) -> Cursor
    ensures { done result numbers.new ≡ pairs_from (length line.now) line.now c numbers.old }
{
    for _turn in 0..line.len() {
        if text::is_end(line, c.at) {
            return c;
        }
        c = take_number(line, c, numbers);
    }
    c
}

// All words that are left, which are pairs of numbers.
fn take_pairs(line: &[u8], c: Cursor, numbers: &mut [u64]) -> Cursor
    ensures { done result numbers.new ≡ pairs_taken line.now c numbers.old }
{
    let d = take_rest(line, c, numbers);
    if d.count < c.count || (d.count - c.count) % 2 != 0 {
        return fail(d);
    }
    d
}

// The word or words of a kind that adds numbers: n a number, o a number or `-`, d a direction, s a side, * pairs of numbers.
// A kind is the letter that stands for it in a grammar, and no enum: one that stands for none adds nothing (`numbers_taken`).
fn one_of_numbers(line: &[u8], kind: u8, c: Cursor, numbers: &mut [u64]) -> Cursor
    ensures { done result numbers.new ≡ numbers_taken line.now kind c numbers.old }
{
    match kind {
        b'n' => take_number(line, c, numbers),
        b'o' => take_option(line, c, numbers),
        b'd' => take_name(line, c, b"bi", b"uni", numbers),
        b's' => take_name(line, c, b"client", b"server", numbers),
        b'*' => take_pairs(line, c, numbers),
        _ => c,
    }
}

// The word or words of a kind: h the first byte string, g the second, or such as add numbers.
fn one(line: &[u8], kind: u8, c: Cursor, numbers: &mut [u64], bytes: &mut [u8]) -> Cursor
    ensures { both result numbers.new bytes.new ≡ one_taken line.now kind c numbers.old bytes.old }
{
    match kind {
        b'h' => take_bytes(line, c, false, bytes),
        b'g' => take_bytes(line, c, true, bytes),
        _ => one_of_numbers(line, kind, c, numbers),
    }
}

// The words of the kinds of a shape, one after the other.
pub fn take(line: &[u8], at: usize, shape: &[u8], numbers: &mut [u64], bytes: &mut [u8]) -> Cursor
    ensures { both result numbers.new bytes.new ≡ words_taken line.now at shape.now numbers.old bytes.old }
{
    let mut c = Cursor {
        ok: true,
        at,
        count: 0,
        first: 0,
        size: 0,
    };
    for kind in shape {
        c = one(line, *kind, c, numbers, bytes);
    }
    c
}
