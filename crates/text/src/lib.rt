// Words, numbers and byte strings of a line of text. What stands between blanks is a word, a byte up to the space is a blank,
// and what follows the sign # is a note. Nothing here reads or writes a file.
#![tactic(auto)]

ghost use Rattle.std.specs.Prelude.{◌≡◌, true, ◌+◌, ◌/◌, ◌<◌, ◌≤◌, length, IfSome};
ghost use Rattle.std.specs.List.{take_while};
ghost use Rattle.std.proofs.lemmas.List.Edits.{sets};
ghost use Rattle.text.specs.Words.{word_at, is_end, unnoted, blank, solid, plain};
ghost use Rattle.text.specs.Words.{same as Words·same};
ghost use Rattle.text.specs.Numbers.{digit, number_of, number_at};
ghost use Rattle.text.specs.Bytes.{hex_value, hex_digit, all_hex, is_hex, unhexed, unhex_at, digits_of, bytes_at, done};

// The bytes of a word are those from start up to end.
#[derive(Clone, Copy)]
pub struct Word {
    pub start: usize,
    pub end: usize,
}

// How many blanks stand at the front.
fn blanks(s: &[u8]) -> usize
    ensures value { result ≡ length (take_while blank s.now) }
    ensures upper_bound { result ≤ length s.now }
{
    s.iter().take_while(|b| **b <= b' ').count()
}

// How many bytes stand before the first blank.
fn before_blank(s: &[u8]) -> usize
    ensures value { result ≡ length (take_while solid s.now) }
    ensures upper_bound { result ≤ length s.now }
{
    s.iter().take_while(|b| b' ' < **b).count()
}

// How many bytes stand before the first #.
fn before_note(s: &[u8]) -> usize
    ensures value { result ≡ length (take_while plain s.now) }
    ensures upper_bound { result ≤ length s.now }
{
    s.iter().take_while(|b| **b != b'#').count()
}

// The next word from `at` on: empty, at the end, where there is none.
pub fn word_at(s: &[u8], at: usize) -> Word
    ensures value { result ≡ word_at s.now at }
    ensures start_le_end { (result.start ≤ result.end) × (result.end ≤ length s.now) }
{
    if s.len() < at {
        return Word {
            start: s.len(),
            end: s.len(),
        };
    }
    let start = at + blanks(&s[at..]);
    let end = start + before_blank(&s[start..]);
    Word { start, end }
}

// Whether nothing but blanks is left from `at` on.
pub fn is_end(s: &[u8], at: usize) -> bool
    ensures { result ≡ is_end s.now at }
{
    let w = word_at(s, at);
    w.start == w.end
}

// The line up to its note.
pub fn without_note(s: &[u8]) -> &[u8]
    ensures { result.now ≡ unnoted s.now }
{
    &s[..before_note(s)]
}

// Whether a and b hold the same bytes.
#[tactic(auto, unfolding(crate::specs::Words::same))]
pub fn same(a: &[u8], b: &[u8]) -> bool
    ensures { result ≡ Words·same a.now b.now }
{
    a == b
}

// A number of a line: which, if there is one, and where the next word may start. Where there is none, next stays before the word
// that is no number, so that a later number is refused too.
#[derive(Clone, Copy, Debug, PartialEq, Eq)]
pub struct Number {
    pub value: Option<u64>,
    pub next: usize,
}

// The value of a decimal digit.
fn digit(b: u8) -> Option<u64>
    ensures { result ≡ digit b }
{
    match b {
        b'0'..=b'9' => Some(u64::from(b - b'0')),
        _ => None,
    }
}

// The decimal number that s is. One that is 2^64 or more is refused.
pub fn decimal(s: &[u8]) -> Option<u64>
    ensures { result ≡ number_of s.now }
{
    if s.is_empty() {
        return None;
    }
    let mut value: u64 = 0;
    for b in s {
        value = value.checked_mul(10)?.checked_add(digit(*b)?)?;
    }
    Some(value)
}

// The number of the next word from `at` on.
pub fn number_at(s: &[u8], at: usize) -> Number
    ensures { result ≡ number_at s.now at }
{
    let w = word_at(s, at);
    match decimal(&s[w.start..w.end]) {
        Some(value) => Number {
            value: Some(value),
            next: w.end,
        },
        None => Number {
            value: None,
            next: w.start, // so that a later number is refused too
        },
    }
}

// The value of a hexadecimal digit.
fn hex_value(b: u8) -> Option<u8>
    ensures value { result ≡ hex_digit b }
    ensures upper_bound { IfSome result (λ v. v < 16) }
{
    match b {
        b'0'..=b'9' => Some(b - b'0'),
        b'A'..=b'F' => Some(b - b'A' + 10),
        b'a'..=b'f' => Some(b - b'a' + 10),
        _ => None,
    }
}

// Whether all of s is hexadecimal digits.
fn all_hex(s: &[u8]) -> bool
    ensures { result ≡ all_hex s.now }
{
    s.iter().all(|b| hex_value(*b).is_some())
}

// Whether s is hexadecimal digits only, and an even number of them.
fn is_hex(s: &[u8]) -> bool
    ensures { result ≡ is_hex s.now }
{
    s.len() % 2 == 0 && all_hex(s)
}

// The value of what is known to be a hexadecimal digit: two tests where `hex_value` makes up to six.
#[tactic(auto, unfolding(crate::specs::Bytes::hex_value))]
fn nibble(b: u8) -> u8
    requires { hex_value b < 16 }
    ensures value { result ≡ hex_value b }
    ensures upper_bound { result < 16 }
{
    if b <= b'9' {
        b - b'0'
    } else if b <= b'F' {
        b - b'A' + 10
    } else {
        b - b'a' + 10
    }
}

// Puts the bytes that s spells at `at` and behind it.
fn fill(s: &[u8], out: &mut [u8], at: usize)
    requires s_value { is_hex s.now ≡ true }
    requires s_in_bounds { at + length s.now / 2 ≤ length out.old }
    ensures { out.new ≡ sets out.old at (unhexed s.now) }
{
    for i in 0..s.len() / 2 {
        out[at + i] = nibble(s[2 * i]) * 16 + nibble(s[2 * i + 1]);
    }
}

// Why a word is no byte string that can be put in its place.
#[derive(Clone, Copy, Debug, PartialEq, Eq)]
pub enum NoBytes {
    // It is not hexadecimal digits only, or their number is odd.
    NotHex,
    // Its bytes have no room.
    NoRoom,
}

// Puts the bytes that s spells, two digits each, at `at` and behind it, and answers where they end; where s spells none, or
// they have no room, out is as it was.
pub fn unhex(s: &[u8], out: &mut [u8], at: usize) -> Result<usize, NoBytes>
    ensures { done result out.new ≡ unhex_at s.now out.old at }
{
    if !is_hex(s) {
        return Err(NoBytes::NotHex);
    }
    let n = s.len() / 2;
    if out.len() < at || out.len() - at < n {
        return Err(NoBytes::NoRoom);
    }
    fill(s, out, at);
    Ok(at + n)
}

// The digits of a word: none for `-`.
fn hex_digits(s: &[u8]) -> &[u8]
    ensures { result.now ≡ digits_of s.now }
{
    if same(s, b"-") { &s[..0] } else { s }
}

// A byte string of a line: where its bytes end, if there is one that has room, and where the next word may start.
#[derive(Clone, Copy, Debug, PartialEq, Eq)]
pub struct Bytes {
    pub end: Option<usize>,
    pub next: usize,
}

// Puts the byte string of the next word from `at` on at `to` and behind it. `-` is the empty one.
pub fn bytes_at(s: &[u8], at: usize, out: &mut [u8], to: usize) -> Bytes
    ensures { done result out.new ≡ bytes_at s.now at out.old to }
{
    let w = word_at(s, at);
    if w.start == w.end {
        return Bytes {
            end: None,
            next: w.start,
        };
    }
    match unhex(hex_digits(&s[w.start..w.end]), out, to) {
        Ok(end) => Bytes {
            end: Some(end),
            next: w.end,
        },
        Err(_) => Bytes {
            end: None,
            next: w.start,
        },
    }
}
