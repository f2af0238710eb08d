// One stream of the receiving side, by value: its record and what each event does to it (01, Streams and bytes;
// RFC 9000 sections 3.2, 4.1 and 4.5; recv.rs). No function here knows the connection or the table.
#![tactic(auto)]

ghost use Rattle.std.specs.Prelude.{◌≡◌};
ghost use Rattle.stream_record.specs.Record.{fresh, moved, closing, kept, took, cut, was_reset, halted, read_on, seen_by, announced, sent_done};

use answers::Refusal;

// Offsets end below this (01, Limits).
const LIMIT: u64 = 1 << 62;

// The largest limit that MAX_STREAM_DATA can carry.
const MOST: u64 = 4611686018427387903;

// The phases of the receiving half: over; final size unknown; final size known; reset by the peer and not seen yet; stopped by us.
pub const CLOSED: u64 = 0;

pub const OPEN: u64 = 1;

pub const SIZED: u64 = 2;

pub const RESET: u64 = 3;

pub const STOPPED: u64 = 4;

// The record of one stream.
#[derive(Clone, Copy, Debug, PartialEq, Eq)]
pub struct Stream {
    // The stream's id: bit 0 the initiator, bit 1 the direction (RFC 9000 section 2.1).
    pub id: u64,
    // Highest end charged; the final size once that is known.
    pub end: u64,
    // Bytes credited: read by the application, or all of them after a reset or a stop.
    pub read: u64,
    // Limit announced to the peer.
    pub limit: u64,
    // Phase of the receiving half; a number and not an enum, as the lent table holds it as a word, and stream_table::good answers for one past the last.
    pub phase: u64,
    // 1 while our sending half of a two-way stream is open; a number for the same reason.
    pub sending: u64,
    // Kept for the stream's class; 0 for every stream so far, and a number for the same reason.
    pub class: u64,
}

// What an event does to one stream: `shut` is the end that goes to the closed total. An event that changes nothing makes no step.
// `value` is what the event's own line says, a limit or one of 0, 1 and 2: a number, as one type serves all and its events print it.
#[derive(Clone, Copy)]
pub struct Step {
    pub value: u64,
    pub charge: u64,
    pub credit: u64,
    pub shut: u64,
    pub stream: Stream,
}

impl Stream {
    // A stream that nothing was sent on yet, with the limit announced for it.
    pub fn new(limit: u64, id: u64) -> Stream
        ensures { result ≡ fresh limit id }
    {
        Stream {
            id,
            end: 0,
            read: 0,
            limit,
            phase: OPEN,
            sending: 1 - (id / 2) % 2,
            class: 0,
        }
    }

    // The record is now this one.
    fn step(self, value: u64, charge: u64, credit: u64) -> Step
        ensures { result ≡ moved self value charge credit }
    {
        Step {
            value,
            charge,
            credit,
            shut: 0,
            stream: self,
        }
    }

    // The receiving half is over at `e`.
    fn close(self, value: u64, charge: u64, credit: u64, e: u64) -> Step
        ensures { result ≡ closing self value charge credit e }
    {
        let t = Stream {
            end: 0,
            read: 0,
            limit: 0,
            phase: CLOSED,
            ..self
        };
        Step {
            value,
            charge,
            credit,
            shut: e,
            stream: t,
        }
    }

    // Data up to `e` is taken; `e` is not below the end so far.
    #[tactic(auto, unfolding(crate::specs::Record::kept))]
    fn keep(self, e: u64, fin: bool) -> Step
        ensures { result ≡ kept self e fin }
    {
        let new = e.saturating_sub(self.end);
        if self.phase == STOPPED {
            if fin {
                return self.close(0, new, new, e);
            }
            let t = Stream {
                end: e,
                read: e,
                ..self
            };
            return t.step(0, new, new);
        }
        if fin {
            let t = Stream {
                end: e,
                phase: SIZED,
                ..self
            };
            return t.step(0, new, 0);
        }
        let t = Stream { end: e, ..self };
        t.step(0, new, 0)
    }

    // Data of the peer that end at `to`, with `room` for that many bytes more on the connection.
    #[tactic(auto, unfolding(crate::specs::Record::took))]
    pub fn data(self, to: u64, fin: bool, room: u64) -> Result<Option<Step>, Refusal>
        ensures { result ≡ took self to fin room }
    {
        if (self.phase == CLOSED) | (self.phase == RESET) {
            return Ok(None);
        }
        if to >= LIMIT {
            return Err(Refusal::Flow);
        }
        if (self.phase == SIZED) & (self.end < to) {
            return Err(Refusal::Final);
        }
        if fin & (to < self.end) {
            return Err(Refusal::Final);
        }
        if self.limit < to {
            return Err(Refusal::Flow);
        }
        if room < to.saturating_sub(self.end) {
            return Err(Refusal::Flow);
        }
        Ok(Some(self.keep(self.end.max(to), fin)))
    }

    // A reset that nothing speaks against.
    #[tactic(auto, unfolding(crate::specs::Record::cut))]
    fn cut(self, last: u64) -> Option<Step>
        ensures { result ≡ cut self last }
    {
        if self.phase == RESET {
            return None;
        }
        let new = last.saturating_sub(self.end);
        let back = last.saturating_sub(self.read);
        if self.phase == STOPPED {
            return Some(self.close(0, new, back, last));
        }
        let t = Stream {
            end: last,
            read: last,
            phase: RESET,
            ..self
        };
        Some(t.step(0, new, back))
    }

    // A reset of the peer with the final size `last`, with `room` for that many bytes more on the connection.
    #[tactic(auto, unfolding(crate::specs::Record::was_reset))]
    pub fn reset(self, last: u64, room: u64) -> Result<Option<Step>, Refusal>
        ensures { result ≡ was_reset self last room }
    {
        if self.phase == CLOSED {
            return Ok(None);
        }
        if (last < self.end)
            | (((self.phase == SIZED) | (self.phase == RESET)) & (self.end < last))
        {
            return Err(Refusal::Final);
        }
        if self.limit < last {
            return Err(Refusal::Flow);
        }
        if room < last.saturating_sub(self.end) {
            return Err(Refusal::Flow);
        }
        Ok(self.cut(last))
    }

    // We stop the stream: what is unread is credited, and the value is 1 where STOP_SENDING is due.
    #[tactic(auto, unfolding(crate::specs::Record::halted))]
    pub fn stop(self) -> Result<Option<Step>, Refusal>
        ensures { result ≡ halted self }
    {
        if (self.phase == CLOSED) | (self.phase == STOPPED) {
            return Err(Refusal::Order);
        }
        let back = self.end.saturating_sub(self.read);
        if self.phase == OPEN {
            let t = Stream {
                read: self.end,
                phase: STOPPED,
                ..self
            };
            return Ok(Some(t.step(1, 0, back)));
        }
        if self.phase == SIZED {
            return Ok(Some(self.close(1, 0, back, self.end)));
        }
        Ok(Some(self.close(0, 0, back, self.end)))
    }

    // The application has read `n` bytes more, which are credited.
    #[tactic(auto, unfolding(crate::specs::Record::read_on))]
    pub fn read(self, n: u64) -> Result<Option<Step>, Refusal>
        ensures { result ≡ read_on self n }
    {
        if (self.phase == CLOSED) | (self.phase == STOPPED) {
            return Err(Refusal::Order);
        }
        if self.end.saturating_sub(self.read) < n {
            return Err(Refusal::Order);
        }
        let t = Stream {
            read: self.read + n,
            ..self
        };
        Ok(Some(t.step(0, 0, n)))
    }

    // The application learns the end: the value is 0 not yet, 1 finished, 2 reset.
    #[tactic(auto, unfolding(crate::specs::Record::seen_by))]
    pub fn seen(self) -> Result<Option<Step>, Refusal>
        ensures { result ≡ seen_by self }
    {
        if (self.phase == CLOSED) | (self.phase == STOPPED) {
            return Err(Refusal::Order);
        }
        if self.phase == RESET {
            return Ok(Some(self.close(2, 0, 0, self.end)));
        }
        if (self.phase == SIZED) & (self.read == self.end) {
            return Ok(Some(self.close(1, 0, 0, self.end)));
        }
        Ok(None)
    }

    // MAX_STREAM_DATA goes out for a window `w`: the value is the limit to send.
    #[tactic(auto, unfolding(crate::specs::Record::announced))]
    pub fn announce(self, w: u64) -> Result<Option<Step>, Refusal>
        ensures { result ≡ announced self w }
    {
        if self.phase == OPEN {
            let m = self.limit.max(self.read.saturating_add(w).min(MOST));
            let t = Stream { limit: m, ..self };
            return Ok(Some(t.step(m, 0, 0)));
        }
        Err(Refusal::Order)
    }

    // Our sending half is done.
    #[tactic(auto, unfolding(crate::specs::Record::sent_done))]
    pub fn sent(self) -> Result<Option<Step>, Refusal>
        ensures { result ≡ sent_done self }
    {
        if self.sending == 1 {
            let t = Stream { sending: 0, ..self };
            return Ok(Some(t.step(0, 0, 0)));
        }
        Err(Refusal::Order)
    }
}
