// Judges whether lost packets may show that the path's MTU fell: mtud.rs's BlackHoleDetector; 01, MTU search.
// Packets lost with consecutive numbers are one burst. A burst is suspicious where a smaller MTU would explain it whole. Each call is defined for
// every detector, well formed or not, so none refuses; the search over it asks `good` first, once a call.
#![tactic(auto)]

ghost use Rattle.std.specs.Prelude.{◌≡◌, cond};
ghost use Prim.Native.Nat.{ℕ, ◌<◌, ◌≤◌, ◌+◌, ◌-◌};
ghost use Rattle.black_hole.specs.BlackHole.{none, pushed, passed, retained, lower_of, least_of, kept, closed, suspicious, suspected, finished, fresh, probe_acked, delivered, follows, grown, begun, lost, detected, good_place, good_bursts, good};

// One past the packet numbers.
const LIMIT: u64 = 1 << 62;

// UDP payload sizes as settings (01, Limits).
const LEAST: u16 = 1200;

const MOST: u16 = 65527;

// Suspicious bursts that are kept.
const PLACES: usize = 4;

// Suspicious bursts that do not yet show a black hole.
const BLACK_HOLE_THRESHOLD: usize = 3;

// The suspicious bursts: the smallest packet of each, in the first `count` places, oldest first.
// An array with its count: fixed memory, there is no heap.
#[derive(Clone, Copy)]
pub struct Bursts {
    pub sizes: [u16; 4],
    pub count: usize,
}

// The burst that is being gathered, if `has`: the latest number lost and the smallest packet.
// A flag beside them, and no Option: BlackHoleDetector::good answers for the two where there is none.
#[derive(Clone, Copy)]
pub struct CurrentLossBurst {
    pub has: bool,
    pub latest: u64,
    pub smallest: u16,
}

#[derive(Clone, Copy)]
pub struct BlackHoleDetector {
    // The bursts considered suspicious now.
    pub bursts: Bursts,
    pub current: CurrentLossBurst,
    // The newest delivery noted: number of the largest packet delivered since a suspicious burst.
    pub post: u64,
    // The acknowledged size: that packet's, or the minimum.
    pub acked: u16,
    // The size that the network is known to carry.
    pub minimum: u16,
}

// Whether there is a black hole, and the detector after the question.
#[derive(Clone, Copy)]
pub struct Detected {
    pub found: bool,
    pub detector: BlackHoleDetector,
}

// No burst is being gathered.
const NO_BURST: CurrentLossBurst = CurrentLossBurst {
    has: false,
    latest: 0,
    smallest: 0,
};

// No burst is kept.
const NO_BURSTS: Bursts = Bursts {
    sizes: [0; 4],
    count: 0,
};

// The first place of the smallest size.
fn least_at(sizes: [u16; 4]) -> usize
    ensures { (result ≡ least_of sizes) × (result < 4) }
{
    let mut at = 0;
    for (i, size) in sizes.iter().enumerate() {
        if *size < sizes[at] {
            at = i;
        }
    }
    at
}

impl Bursts {
    #[tactic(auto, unfolding(crate::specs::BlackHole::pushed))]
    fn push(self, size: u16) -> Bursts
        ensures { result ≡ pushed self size }
    {
        let at = self.count;
        if at < PLACES {
            let mut sizes = self.sizes;
            sizes[at] = size;
            return Bursts {
                sizes,
                count: at + 1,
            };
        }
        self
    }

    // Bursts whose smallest packet is at most `len` are no longer suspicious.
    fn retain(self, len: u16) -> Bursts
        ensures { result ≡ retained self len }
    {
        let sizes = self.sizes;
        let mut left = NO_BURSTS;
        for (i, size) in sizes.iter().enumerate() {
            if (i < self.count) & (len < *size) {
                left = left.push(*size);
            }
        }
        left
    }

    // One burst more; with four kept, it takes the place of the first of the smallest, if that is smaller.
    #[tactic(auto, unfolding(crate::specs::BlackHole::kept))]
    fn keep(self, size: u16) -> Bursts
        ensures { result ≡ kept self size }
    {
        if self.count < PLACES {
            return self.push(size);
        }
        let mut sizes = self.sizes;
        let at = least_at(sizes);
        if sizes[at] < size {
            sizes[at] = size;
            return Bursts { sizes, ..self };
        }
        self
    }

    // Is place i free, or a size above the minimum?
    #[tactic(auto, unfolding(crate::specs::BlackHole::good_place))]
    fn good_place(self, minimum: u16, i: usize) -> bool
        requires { i < 4 }
        ensures { result ≡ good_place self minimum i }
    {
        let sizes = self.sizes;
        let size = sizes[i];
        (self.count <= i) | ((minimum < size) & (size <= MOST))
    }

    fn good(self, minimum: u16) -> bool
        ensures { result ≡ good_bursts self minimum }
    {
        let mut fine = self.count <= PLACES;
        for i in 0..PLACES {
            fine = fine & self.good_place(minimum, i);
        }
        fine
    }
}

impl BlackHoleDetector {
    // A fresh detector, over a network that carries `minimum`.
    #[tactic(auto, unfolding(crate::specs::BlackHole::fresh))]
    pub fn new(minimum: u16) -> BlackHoleDetector
        ensures { result ≡ fresh minimum }
    {
        BlackHoleDetector {
            bursts: NO_BURSTS,
            current: NO_BURST,
            post: 0,
            acked: minimum,
            minimum,
        }
    }

    // Whether the detector is well formed: `true` exactly if every number is in its limit.
    #[tactic(auto, unfolding(crate::specs::BlackHole::good))]
    pub fn good(self) -> bool
        ensures { result ≡ good self }
    {
        let current = self.current;
        let bursts = self.bursts;
        ((LEAST <= self.minimum) & (self.minimum <= MOST))
            & (((self.acked <= MOST) & (self.post < LIMIT))
                & (((current.latest < LIMIT) & (current.smallest <= MOST))
                    & bursts.good(self.minimum)))
    }

    // A probe was delivered: it is larger than all before, so no burst is suspicious any more.
    #[tactic(auto, unfolding(crate::specs::BlackHole::probe_acked))]
    pub fn on_probe_acked(self, pn: u64, len: u16) -> BlackHoleDetector
        ensures { result ≡ probe_acked self pn len }
    {
        BlackHoleDetector {
            bursts: NO_BURSTS,
            post: pn, // what was lost before it is past
            acked: len,
            ..self
        }
    }

    // Another packet was delivered: bursts with a packet no larger than it are no longer suspicious, if it is larger than those noted before.
    #[tactic(auto, unfolding(crate::specs::BlackHole::delivered))]
    pub fn on_non_probe_acked(self, pn: u64, len: u16) -> BlackHoleDetector
        ensures { result ≡ delivered self pn len }
    {
        if len < self.acked {
            return self;
        }
        if len == self.acked {
            return BlackHoleDetector {
                post: self.post.max(pn),
                ..self
            };
        }
        let bursts = self.bursts;
        BlackHoleDetector {
            bursts: bursts.retain(len),
            post: pn,
            acked: len,
            ..self
        }
    }

    // Is the burst being gathered one that a smaller MTU would explain?
    #[tactic(auto, unfolding(crate::specs::BlackHole::suspicious))]
    fn suspicious(self) -> bool
        ensures { result ≡ suspicious self }
    {
        let burst = self.current;
        (self.minimum < burst.smallest)
            & ((self.post <= burst.latest) | (self.acked < burst.smallest))
    }

    // The burst being gathered is kept; if it is newer than the newest delivery noted, that delivery counts no more.
    #[tactic(auto, unfolding(crate::specs::BlackHole::suspected))]
    fn suspect(self) -> BlackHoleDetector
        ensures { result ≡ suspected self }
    {
        let burst = self.current;
        let bursts = self.bursts;
        let kept = BlackHoleDetector {
            bursts: bursts.keep(burst.smallest),
            current: NO_BURST,
            ..self
        };
        if self.post < burst.latest {
            return BlackHoleDetector {
                acked: self.minimum,
                ..kept
            };
        }
        kept
    }

    // The burst being gathered ends: it is kept if it is suspicious.
    #[tactic(auto, unfolding(crate::specs::BlackHole::finished))]
    fn finish_loss_burst(self) -> BlackHoleDetector
        ensures { result ≡ finished self }
    {
        let burst = self.current;
        if burst.has {
            if self.suspicious() {
                return self.suspect();
            }
            return BlackHoleDetector {
                current: NO_BURST,
                ..self
            };
        }
        self
    }

    // The detector with another burst being gathered.
    fn gather(self, pn: u64, len: u16) -> BlackHoleDetector
        ensures { result ≡ begun self pn len }
    {
        BlackHoleDetector {
            current: CurrentLossBurst {
                has: true,
                latest: pn,
                smallest: len,
            },
            ..self
        }
    }

    // Is pn the number after the burst's latest?
    #[tactic(auto, unfolding(crate::specs::BlackHole::follows))]
    fn follows(self, pn: u64) -> bool
        ensures { result ≡ follows self pn }
    {
        let burst = self.current;
        burst.has & (pn.saturating_sub(burst.latest) == 1)
    }

    // A packet that is no probe was lost: the next number joins the burst, any other ends it and begins one.
    #[tactic(auto, unfolding(crate::specs::BlackHole::lost))]
    pub fn on_non_probe_lost(self, pn: u64, len: u16) -> BlackHoleDetector
        ensures { result ≡ lost self pn len }
    {
        if self.follows(pn) {
            let burst = self.current;
            return self.gather(pn, burst.smallest.min(len));
        }
        let ended = self.finish_loss_burst();
        ended.gather(pn, len)
    }

    // The burst ends; more than three suspicious bursts are a black hole, and are then forgotten.
    #[tactic(auto, unfolding(crate::specs::BlackHole::detected))]
    pub fn black_hole_detected(self) -> Detected
        ensures { result ≡ detected self }
    {
        let ended = self.finish_loss_burst();
        let bursts = ended.bursts;
        if bursts.count <= BLACK_HOLE_THRESHOLD {
            return Detected {
                found: false,
                detector: ended,
            };
        }
        Detected {
            found: true,
            detector: BlackHoleDetector {
                bursts: NO_BURSTS,
                ..ended
            },
        }
    }
}
