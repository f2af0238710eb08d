// One search for a larger MTU: mtud.rs's SearchState; 01, MTU search; RFC 8899, section 5.3.
// Each call is defined for every state, well formed or not, so none refuses; the record that holds the search asks `good` first, once a call.
#![tactic(auto)]

ghost use Rattle.std.specs.Prelude.{◌≡◌};
ghost use Prim.Native.Nat.{ℕ, ◌<◌, ◌≤◌, ◌+◌, ◌-◌};
ghost use Rattle.mtu_search.specs.Search.{begun, known, good, some_size, chosen, onward, turn, acked, missed};

// One past the packet numbers.
const LIMIT: u64 = 1 << 62;

// The smallest UDP payload size as a setting (01, Limits).
const LEAST: u16 = 1200;

// RFC 8899's MAX_PROBES: how often a size is sent.
const MAX_PROBE_RETRANSMITS: u8 = 3;

// A search that runs.
#[derive(Clone, Copy)]
pub struct SearchState {
    // The bounds: `lower` is known to pass, nothing above `upper` is tried. They are moved when the next size is chosen.
    pub lower: u16,
    pub upper: u16,
    // The size probed last.
    pub last: u16,
    // Is a probe in flight, and under which packet number? A flag beside it, and no Option: SearchState::good answers for the number where there is none.
    pub flying: bool,
    pub probe: u64,
    // Probes of the size `last` that were lost.
    pub lost: u8,
}

// What a turn of the search comes to: a probe is in flight, the state with the probe that is to be sent now, or the end of the search.
#[derive(Clone, Copy)]
pub enum Turn {
    Waiting,
    Probing(SearchState),
    Over,
}

// The size to probe next, if any: half way between the bounds; where that is too near the last size, the upper bound, if that is far enough.
// Never a size that is known to pass.
#[tactic(auto, unfolding(crate::specs::Search::chosen))]
fn choose(lower: u16, upper: u16, last: u16, change: u16) -> Option<u16>
    ensures { result ≡ some_size (chosen lower upper last change) }
{
    let next = lower.midpoint(upper);
    if change <= next.abs_diff(last) {
        if lower < next { Some(next) } else { None }
    } else if change <= upper.saturating_sub(last) {
        Some(upper)
    } else {
        None
    }
}

// The next size goes out as packet `number`, or the search is over.
#[tactic(auto, unfolding(crate::specs::Search::onward))]
fn go_on(lower: u16, upper: u16, last: u16, change: u16, number: u64) -> Turn
    ensures { result ≡ onward lower upper last change number }
{
    match choose(lower, upper, last, change) {
        None => Turn::Over,
        Some(size) => Turn::Probing(SearchState {
            lower,
            upper,
            last: size,
            flying: true,
            probe: number,
            lost: 0,
        }),
    }
}

impl SearchState {
    // A search from the known size `current` up to `top`, both capped by the peer's maximum; the known size counts as probed.
    #[tactic(auto, unfolding(crate::specs::Search::begun))]
    pub fn new(current: u16, peer: u16, top: u16) -> SearchState
        ensures { result ≡ begun current peer top }
    {
        let lower = current.min(peer);
        SearchState {
            lower,
            upper: lower.max(top.min(peer)),
            last: lower,
            flying: false,
            probe: 0,
            lost: 0,
        }
    }

    // The size that is known to pass.
    #[tactic(auto, unfolding(crate::specs::Search::known))]
    fn known(self) -> u16
        ensures { result ≡ known self }
    {
        if self.flying {
            return self.lower;
        }
        if self.lost == 0 {
            return self.last;
        }
        self.lower
    }

    // Whether the search is well formed under the MTU `current` and the peer's maximum: `true` exactly if the size last probed lies above the lower
    // bound and not above the upper, that not above the peer's maximum, the size that is known to pass is the MTU, and the tries are within three.
    #[tactic(auto, unfolding(crate::specs::Search::good))]
    pub fn good(self, current: u16, peer: u16) -> bool
        ensures { result ≡ good self current peer }
    {
        ((LEAST <= self.lower)
            & ((self.lower < self.last) & ((self.last <= self.upper) & (self.upper <= peer))))
            & (((self.lost <= MAX_PROBE_RETRANSMITS)
                & ((self.lost < MAX_PROBE_RETRANSMITS) | !self.flying))
                & ((self.probe < LIMIT) & (current == self.known())))
    }

    // One turn: nothing while a probe is in flight; a lost size again, up to three times; else the next size, or the end.
    #[tactic(auto, unfolding(crate::specs::Search::turn))]
    pub fn poll(self, change: u16, number: u64) -> Turn
        ensures { result ≡ turn self change number }
    {
        if self.flying {
            return Turn::Waiting;
        }
        if self.lost == 0 {
            return go_on(self.last, self.upper, self.last, change, number);
        }
        if self.lost < MAX_PROBE_RETRANSMITS {
            return Turn::Probing(SearchState {
                flying: true,
                probe: number,
                ..self
            });
        }
        go_on(
            self.lower,
            self.last.saturating_sub(1),
            self.last,
            change,
            number,
        )
    }

    // The probe in flight was acknowledged.
    #[tactic(auto, unfolding(crate::specs::Search::acked))]
    pub fn on_acked(self) -> SearchState
        ensures { result ≡ acked self }
    {
        SearchState {
            flying: false, // it has come
            probe: 0,
            lost: 0, // those were of the size that came
            ..self
        }
    }

    // The probe in flight was lost: one loss more, counted up to three.
    #[tactic(auto, unfolding(crate::specs::Search::missed))]
    pub fn on_lost(self) -> SearchState
        ensures { result ≡ missed self }
    {
        SearchState {
            flying: false,
            probe: 0,
            lost: self.lost.saturating_add(1).min(MAX_PROBE_RETRANSMITS),
            ..self
        }
    }
}
