// Five places for the peer's connection ids (the ring of quinn-proto's cid_queue.rs; RFC 9000 section 5.1; 01, Connection-id queue).
// The id of the sequence number n stands in the place n % 5, for the five numbers from the active one on; so no place is named
// outside this crate, and a ring is read and written by number.
#![tactic(auto)]

ghost use Rattle.std.specs.Prelude.{◌≡◌, ◌<◌, ◌-◌, ◌%◌, ◌^◌};
ghost use Rattle.cid_ring.specs.Cids.{under, held, first, retired, put, fit, fits, sound, empty};

// An id with its reset token.
#[derive(Clone, Copy)]
pub struct Cid {
    // How many bytes of `id` count, 1 to 20, beside the array: no heap. The other bytes are as they were given.
    pub len: usize,
    pub id: [u8; 20],
    // The reset token that the id came with; the handshake's id has none.
    pub token: Option<[u8; 16]>,
}

// The ids received and not yet retired; there may be gaps between their numbers.
#[derive(Clone, Copy)]
pub struct Ring {
    // The id of the number n stands at n % 5.
    pub slots: [Option<Cid>; 5],
    // The sequence number of the active id, the least among those held.
    pub offset: u64,
}

// Where the number `n` has its place.
fn place(n: u64) -> usize
    ensures { result ≡ n % 5 }
{
    (n % PLACES) as usize
}

// Whether `s` may stand under the number `n`.
#[tactic(auto, unfolding(crate::specs::Cids::fit))]
fn fit(s: Option<Cid>, n: u64) -> bool
    ensures { result ≡ fit s n }
{
    match s {
        None => true,
        Some(id) => id.len > 0 && id.len <= 20 && n < NUMBERS && (id.token.is_some() || n == 0),
    }
}

impl Ring {
    // Nothing under any number.
    pub fn empty() -> Ring
        ensures { result ≡ empty }
    {
        Ring {
            slots: [None; 5],
            offset: 0,
        }
    }

    // What stands under the number `n`.
    #[tactic(auto, using(crate::proofs::Laws::slots))]
    pub fn slot(self, n: u64) -> Option<Cid>
        ensures { result ≡ under self n }
    {
        if n < self.offset || n - self.offset >= PLACES {
            return None;
        }
        self.slots[place(n)]
    }

    // Whether there is an id under the number `n`.
    #[tactic(auto, using(crate::proofs::Laws::slots))]
    fn held(self, n: u64) -> bool
        ensures { result ≡ held self n }
    {
        self.slot(n).is_some()
    }

    // The least number held from `from` on; `past` where none is below that, `from` where `past` is not above it.
    #[tactic(auto, using(crate::proofs::Laws::firsts))]
    pub fn first(self, from: u64, past: u64) -> u64
        ensures { result ≡ first (held self) from (past - from) }
    {
        for n in from..past {
            if self.held(n) {
                return n;
            }
        }
        from.max(past)
    }

    // The ring with `s` under the number `number`; as it was where that has no place.
    #[tactic(auto, using(crate::proofs::Places::puts))]
    pub fn put(self, number: u64, s: Option<Cid>) -> Ring
        ensures { result ≡ put self number s }
    {
        if number < self.offset || number - self.offset >= PLACES {
            return self;
        }
        let mut slots = self.slots;
        slots[place(number)] = s;
        Ring { slots, ..self }
    }

    // The ring with all below `to` gone and `to` its active number; as it was where the active number is not below that.
    pub fn retire(self, to: u64) -> Ring
        ensures { result ≡ retired self to }
    {
        if to <= self.offset {
            return self;
        }
        let mut slots = self.slots;
        let past = self.offset + (to - self.offset).min(PLACES);
        for at in self.offset..past {
            slots[place(at)] = None;
        }
        Ring { slots, offset: to }
    }

    // Whether what stands under the five numbers may stand there.
    #[tactic(auto, using(crate::proofs::Laws::checks))]
    fn all_fit(self) -> bool
        requires { self.offset < 2 ^ 62 }
        ensures { result ≡ fits self self.offset 5 }
    {
        for n in self.offset..self.offset + PLACES {
            if !fit(self.slot(n), n) {
                return false;
            }
        }
        true
    }

    // Whether the ring is in good form: its active number is held and below 2^62, and each id may stand where it does.
    #[tactic(auto, using(crate::proofs::Laws::sounds), unfolding(crate::specs::Cids::sound))]
    pub fn sound(self) -> bool
        ensures { result ≡ sound self }
    {
        self.offset < NUMBERS && self.held(self.offset) && self.all_fit()
    }
}

// How many numbers have a place, from the active one on (cid_queue.rs, LEN).
pub const PLACES: u64 = 5;

// One more than the greatest sequence number: they are varints.
pub const NUMBERS: u64 = 1 << 62;
