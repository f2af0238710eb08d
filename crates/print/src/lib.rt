// Text put into a lent buffer: bytes as they are, a number in decimal, a range of numbers, a byte string in hexadecimal. Each answers where the
// next text goes. What has no room is refused with ROOM, and the buffer is then as it was. Nothing here writes a file.
#![tactic(auto)]

ghost use Rattle.std.specs.Prelude.{◌≡◌, ◌++◌, ◌+◌, ◌*◌, ◌-◌, ◌<◌, ◌≤◌, length, drop, MatchResult};
ghost use Rattle.std.proofs.lemmas.List.Edits.{sets};
ghost use Rattle.answers.specs.declared.Refusal.TheVariants.{Room};
ghost use Rattle.print.specs.Print.{glyph, decimal, hexed, put_at, done};
ghost use Rattle.print.specs.Print.{range as Print·range};

use answers::Refusal;

// Where a text of n bytes at `at` ends, if it has room.
fn end_of(out: &[u8], at: usize, n: usize) -> Result<usize, Refusal>
    ensures { MatchResult result (λ end. (end ≡ at + n) × (end ≤ length out.now)) (λ why. (why ≡ Room) × (length out.now < at + n)) }
{
    match at.checked_add(n) {
        Some(end) if end <= out.len() => Ok(end),
        _ => Err(Refusal::Room),
    }
}

// Copies s to `at` and behind it.
fn copy(s: &[u8], out: &mut [u8], at: usize)
    requires { at + length s.now ≤ length out.old }
    ensures { out.new ≡ sets out.old at s.now }
{
    out[at..at + s.len()].copy_from_slice(s);
}

// Puts s as it is.
pub fn text(out: &mut [u8], at: usize, s: &[u8]) -> Result<usize, Refusal>
    ensures { done result out.new ≡ put_at out.old at s.now }
{
    let end = end_of(out, at, s.len())?;
    copy(s, out, at);
    Ok(end)
}

// The digit of a number below 16.
fn digit(d: u8) -> u8
    requires { d < 16 }
    ensures { result ≡ glyph d }
{
    if d < 10 { b'0' + d } else { b'a' + (d - 10) }
}

// Puts n's decimal digits at the end of d, and answers where they start. A `while`, as the digits end where nothing is left of the number.
fn spell(n: u64, d: &mut [u8]) -> usize
    requires { length d.old ≡ 20 }
    ensures { (result ≤ 20) × (drop result d.new ≡ decimal n) }
{
    let mut i: usize = 20;
    let mut rest = n;
    while 9 < rest {
        i -= 1;
        d[i] = digit((rest % 10) as u8);
        rest /= 10;
    }
    i -= 1;
    d[i] = digit(rest as u8);
    i
}

// Puts n in decimal.
pub fn number(out: &mut [u8], at: usize, n: u64) -> Result<usize, Refusal>
    ensures { done result out.new ≡ put_at out.old at (decimal n) }
{
    let mut d = [0u8; 20];
    let i = spell(n, &mut d);
    text(out, at, &d[i..])
}

// Puts a range of numbers, as `3..9`.
pub fn range(out: &mut [u8], at: usize, a: u64, b: u64) -> Result<usize, Refusal>
    ensures { done result out.new ≡ put_at out.old at (Print·range a b) }
{
    let mut d = [0u8; 20];
    let i = spell(a, &mut d);
    let mut e = [0u8; 20];
    let j = spell(b, &mut e);
    three(out, at, &d[i..], b"..", &e[j..])
}

// Puts a, b and c, one behind the other: one test of the room before any is copied, so that a refusal leaves the buffer as it was.
fn three(out: &mut [u8], at: usize, a: &[u8], b: &[u8], c: &[u8]) -> Result<usize, Refusal>
    requires { length a.now + length b.now + length c.now < 256 }
    ensures { done result out.new ≡ put_at out.old at (a.now ++ (b.now ++ c.now)) }
{
    let end = end_of(out, at, a.len() + b.len() + c.len())?;
    copy(a, out, at);
    copy(b, out, at + a.len());
    copy(c, out, at + a.len() + b.len());
    Ok(end)
}

// Spreads each byte of s to two digits, from `at` on.
fn spread(s: &[u8], out: &mut [u8], at: usize)
    requires { at + 2 * length s.now ≤ length out.old }
    ensures { out.new ≡ sets out.old at (hexed s.now) }
{
    for (i, b) in s.iter().enumerate() {
        out[at + 2 * i] = digit(*b / 16);
        out[at + 2 * i + 1] = digit(*b % 16);
    }
}

// Puts each byte of s as two hexadecimal digits.
pub fn hex(out: &mut [u8], at: usize, s: &[u8]) -> Result<usize, Refusal>
    ensures { done result out.new ≡ put_at out.old at (hexed s.now) }
{
    let end = end_of(out, at, 2 * s.len())?;
    spread(s, out, at);
    Ok(end)
}
