// Which packet numbers were received already, so that a packet is not processed twice (01, Duplicate window; spaces.rs, Dedup).
// The window is the highest number and the 128 below it; what is older counts as seen.
#![tactic(auto)]

ghost use Rattle.std.specs.Prelude.{◌≡◌, ◌<◌, ◌≤◌, ◌+◌, ◌^◌};
ghost use Rattle.dedup.specs.Dedup.{place, fresh, with_number, holding, inserted};

use answers::Refusal;

// Packet numbers are below this (RFC 9000, section 17.1).
const LIMIT: u64 = 1 << 62;

#[derive(Clone, Copy)]
pub struct Dedup {
    // The 64 numbers below the highest: bit p is `next - 2 - p`.
    low: u64,
    // The 64 numbers below those: bit p is `next - 66 - p`.
    high: u64,
    // Lowest packet number higher than all yet noted; at most 2^62 in a window that is well formed.
    next: u64,
}

// What noting a packet number gives; a refusal is RANGE, and the window stays the caller's as it was.
#[derive(Clone, Copy)]
pub struct Inserted {
    // Whether the packet might be a duplicate.
    pub seen: bool,
    pub dedup: Dedup,
}

impl Dedup {
    // The window that has noted nothing.
    pub fn new() -> Dedup
        ensures { result ≡ fresh }
    {
        Dedup {
            low: 0,
            high: 0,
            next: 0,
        }
    }

    // The lowest packet number higher than all yet noted.
    pub fn next(self) -> u64
        ensures { result ≡ self.next }
    {
        self.next
    }

    // Notes a packet number, and says whether it was seen: noted before, or too old for the window.
    pub fn insert(self, packet: u64) -> Result<Inserted, Refusal>
        ensures { result ≡ inserted self packet }
    {
        if packet >= LIMIT || self.next > LIMIT {
            return Err(Refusal::Range);
        }
        if packet >= self.next {
            return Ok(Inserted {
                seen: false,
                dedup: self.slide(packet),
            });
        }
        let back = self.next - 1 - packet;
        if back == 0 || back > 128 || self.is_set(back - 1) {
            return Ok(Inserted {
                seen: true,
                dedup: self,
            });
        }
        Ok(Inserted {
            seen: false,
            dedup: self.mark(packet),
        })
    }

    // Right of the window: all places move up, until the number is the highest.
    fn slide(mut self, packet: u64) -> Dedup
        requires { (self.next ≤ packet) × (packet < 2 ^ 62) }
        ensures { result ≡ holding (with_number self packet) (packet + 1) }
    {
        let by = packet - self.next;
        self.next = packet + 1;
        if by >= 128 {
            self.high = 0;
            self.low = 0;
        } else if by >= 64 {
            self.high = ((self.low << 1) | 1) << (by - 64);
            self.low = 0;
        } else {
            self.high = ((self.high << 1) << by) | (self.low >> (63 - by));
            self.low = ((self.low << 1) | 1) << by;
        }
        self
    }

    // Within the window, below the highest: the number's place is set.
    fn mark(mut self, packet: u64) -> Dedup
        requires { (packet + 2 ≤ self.next) × (self.next ≤ packet + 129) }
        ensures { result ≡ holding (with_number self packet) self.next }
    {
        let place = self.next - 2 - packet;
        if place < 64 {
            self.low |= 1 << place;
        } else {
            self.high |= 1 << (place - 64);
        }
        self
    }

    // Whether a place is set, counted down from the number below the highest.
    fn is_set(self, at: u64) -> bool
        requires { at < 128 }
        ensures { result ≡ place self.low self.high at }
    {
        if at < 64 {
            (self.low >> at) % 2 == 1
        } else {
            (self.high >> (at - 64)) % 2 == 1
        }
    }
}
