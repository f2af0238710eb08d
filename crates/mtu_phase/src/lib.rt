// The phases of the search and its settings: mtud.rs's Phase and MtuDiscoveryConfig; 01, MTU search.
// What each part of a record says of itself, for the record that holds them; none of it refuses.
#![tactic(auto)]

ghost use Rattle.std.specs.Prelude.{◌≡◌, ℕ, ◌<◌, ◌≤◌};
ghost use Rattle.mtu_phase.specs.Phase.{size_b, packet_b, no_config, good_config, good_phase, restarted, searching_b, off_b, flying_of};

use mtu_search::SearchState;

// One past the packet numbers.
const LIMIT: u64 = 1 << 62;

// UDP payload sizes as settings (01, Limits).
const LEAST: u16 = 1200;

const MOST: u16 = 65527;

#[derive(Clone, Copy)]
pub enum Phase {
    // The search is switched off.
    Off,
    // Not begun.
    Initial,
    Searching(SearchState),
    // At rest until that time.
    Complete(u64),
}

#[derive(Clone, Copy)]
pub struct MtuDiscoveryConfig {
    // The largest size to try.
    pub upper: u16,
    // The search ends where sizes would change by less.
    pub change: u16,
    // From the end of a search to the next.
    pub interval: u64,
    // From a black hole to the next search.
    pub cooldown: u64,
}

// Whether x is a size that a setting may have.
#[tactic(auto, unfolding(crate::specs::Phase::size_b))]
pub fn is_size(x: u16) -> bool
    ensures { result ≡ size_b x }
{
    (LEAST <= x) & (x <= MOST)
}

// Whether a packet may have that number and size.
#[tactic(auto, unfolding(crate::specs::Phase::packet_b))]
pub fn is_packet(number: u64, size: u16) -> bool
    ensures { result ≡ packet_b number size }
{
    (number < LIMIT) & (size <= MOST)
}

impl MtuDiscoveryConfig {
    // Whether the settings are within their limits.
    #[tactic(auto, unfolding(crate::specs::Phase::good_config))]
    pub fn good(self) -> bool
        ensures { result ≡ good_config self }
    {
        is_size(self.upper) & (0 < self.change)
    }

    // The settings of a search that is off.
    pub fn none() -> MtuDiscoveryConfig
        ensures { result ≡ no_config }
    {
        MtuDiscoveryConfig {
            upper: 0,
            change: 0,
            interval: 0,
            cooldown: 0,
        }
    }
}

impl Phase {
    // Whether the phase is well formed under the settings, the MTU and the peer's maximum.
    #[tactic(auto, unfolding(crate::specs::Phase::good_phase))]
    pub fn good(self, config: MtuDiscoveryConfig, current: u16, peer: u16) -> bool
        ensures { result ≡ good_phase self config current peer }
    {
        match self {
            Phase::Off => true,
            Phase::Searching(s) => config.good()
                & ((s.upper <= config.upper) & s.good(current, peer)),
            Phase::Initial | Phase::Complete(_) => config.good(),
        }
    }

    // A search that has begun is as one that has not; one that is off stays off.
    #[tactic(auto, unfolding(crate::specs::Phase::restarted))]
    pub fn restart(self) -> Phase
        ensures { result ≡ restarted self }
    {
        match self {
            Phase::Off => Phase::Off,
            _ => Phase::Initial,
        }
    }

    // Whether a search runs.
    #[tactic(auto, unfolding(crate::specs::Phase::searching_b))]
    pub fn searching(self) -> bool
        ensures { result ≡ searching_b self }
    {
        matches!(self, Phase::Searching(_))
    }

    // The packet number of the probe in flight, if there is one.
    #[tactic(auto, unfolding(crate::specs::Phase::flying_of))]
    pub fn flying(self) -> Option<u64>
        ensures { result ≡ flying_of self }
    {
        match self {
            Phase::Searching(s) if s.flying => Some(s.probe),
            _ => None,
        }
    }

    // Whether the search is switched off.
    #[tactic(auto, unfolding(crate::specs::Phase::off_b))]
    pub fn off(self) -> bool
        ensures { result ≡ off_b self }
    {
        matches!(self, Phase::Off)
    }
}
