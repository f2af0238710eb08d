// Output that is gathered in a buffer and written to standard output when the buffer is full. Once a write has failed, the place is FAILED, and
// nothing more is gathered or written.
#![tactic(auto)]

ghost use Rattle.std.specs.Prelude.{◌≡◌, ◌≤◌, length, IsOk};
ghost use Rattle.print.specs.Print.{decimal, hexed, range as Print·range};
ghost use Rattle.out.specs.Went.{Room, Went, Written, Flushed};

use std::fmt;

// The descriptor of standard output.
const STDOUT: i32 = 1;

// A number, and no enum: `text` and the others answer for every place, also for one past the buffer that a caller made.
pub const FAILED: usize = usize::MAX;

// What is gathered, which is what stands before `at`: from 0 on.
#[derive(Drop)]
pub struct Out {
    pub buf: [u8; 65536],
    pub at: usize,
}

// Writes s: where the next text goes.
fn write(s: &[u8]) -> usize
    ensures { Written result }
{
    if io::write_all(STDOUT, s) { 0 } else { FAILED }
}

impl Out {
    // Writes out what is gathered.
    pub fn flush(&mut self)
        ensures { Flushed self.old.buf self.old.at self.new.buf self.new.at }
    {
        let s: &[u8] = &self.buf;
        if self.at <= s.len() {
            self.at = write(&s[..self.at]);
        }
    }

    // Puts s, which is written out at once where it is longer than the buffer.
    pub fn text(&mut self, s: &[u8])
        ensures { Went self.old.buf self.old.at s.now self.new.buf self.new.at }
    {
        if let Ok(next) = print::text(&mut self.buf, self.at, s) {
            self.at = next;
            return;
        }
        self.flush();
        match print::text(&mut self.buf, self.at, s) {
            Ok(next) => self.at = next,
            Err(_) if self.at == FAILED => {}
            Err(_) => self.at = write(s),
        }
    }

    // Puts n in decimal.
    pub fn number(&mut self, n: u64)
        ensures { Went self.old.buf self.old.at (decimal n) self.new.buf self.new.at }
    {
        if let Ok(next) = print::number(&mut self.buf, self.at, n) {
            self.at = next;
            return;
        }
        self.flush();
        let again = print::number(&mut self.buf, self.at, n);
        if let Ok(next) = again {
            self.at = next;
        }
    }

    // Puts a range of numbers, as `3..9`.
    pub fn range(&mut self, a: u64, b: u64)
        ensures { Went self.old.buf self.old.at (Print·range a b) self.new.buf self.new.at }
    {
        if let Ok(next) = print::range(&mut self.buf, self.at, a, b) {
            self.at = next;
            return;
        }
        self.flush();
        let again = print::range(&mut self.buf, self.at, a, b);
        if let Ok(next) = again {
            self.at = next;
        }
    }

    // Puts each byte of s as two hexadecimal digits: at once where they have room, and else part by part.
    pub fn hex(&mut self, s: &[u8])
        ensures { Room self.old.buf self.old.at (hexed s.now) self.new.buf self.new.at }
    {
        match print::hex(&mut self.buf, self.at, s) {
            Ok(next) => self.at = next,
            Err(_) => self.hex_parts(s),
        }
    }

    fn hex_parts(&mut self, s: &[u8]) {
        for part in s.chunks(1024) {
            self.hex_part(part);
        }
    }

    // Puts a part of such a string.
    fn hex_part(&mut self, s: &[u8]) {
        if let Ok(next) = print::hex(&mut self.buf, self.at, s) {
            self.at = next;
            return;
        }
        self.flush();
        let again = print::hex(&mut self.buf, self.at, s);
        if let Ok(next) = again {
            self.at = next;
        }
    }
}

impl fmt::Write for Out {
    ghost write_str_gives = { λ before s after. Went before.buf before.at s after.buf after.at };

    // A write that fails is kept in `at`, so that this call and `write!` do not fail.
    fn write_str(&mut self, s: &str) -> fmt::Result
        ensures ok { IsOk result → Went self.old.buf self.old.at s.now self.new.buf self.new.at }
        ensures always { IsOk result }
    {
        self.text(s.as_bytes());
        Ok(())
    }
}
