// The search for the largest packet that the path carries: mtud.rs (MtuDiscovery, EnabledMtuDiscovery); RFC 8899; 01, MTU search.
// A record by value: each call takes it and hands the next one back; where the call refuses, the caller's is what it was. Every call checks the whole
// record first. Sizes are UDP payload sizes, times microseconds.
#![tactic(auto)]

ghost use Rattle.std.specs.Prelude.{◌≡◌};
ghost use Rattle.mtud.specs.Discovery.{good, top, checked, opened, started, switched_off, reset_to, begun_in, rested, turn_in, by_phase, polled, peer_received, delivered, probe_delivered, by_acked, acked, by_lost, probe_lost, packet_lost, fallen, hole_asked, size_of, in_flight, viewed};

use answers::Refusal;
use black_hole::BlackHoleDetector;
use mtu_phase::{MtuDiscoveryConfig, Phase, is_packet, is_size};
use mtu_search::{SearchState, Turn};

// One past the packet numbers.
const LIMIT: u64 = 1 << 62;

// The largest UDP payload size as a setting (01, Limits).
const MOST: u16 = 65527;

#[derive(Clone, Copy)]
pub struct MtuDiscovery {
    // The MTU as far as it is known.
    current: u16,
    phase: Phase,
    // The peer's maximum, if it was received.
    peer: Option<u16>,
    config: MtuDiscoveryConfig,
    detector: BlackHoleDetector,
}

// The size of the probe to send now, if one is due, and the record after that.
#[derive(Clone, Copy)]
pub struct Polled {
    pub probe: Option<u16>,
    pub mtud: MtuDiscovery,
}

// Whether the packet was the probe in flight, and the record after it.
#[derive(Clone, Copy)]
pub struct Acked {
    pub probe: bool,
    pub mtud: MtuDiscovery,
}

// Whether there is a black hole, and the record after the question.
#[derive(Clone, Copy)]
pub struct Asked {
    pub hole: bool,
    pub mtud: MtuDiscovery,
}

// All that the record says, to be shown: the peer's maximum only if it was received.
#[derive(Clone, Copy)]
pub struct View {
    pub mtu: u16,
    pub phase: Phase,
    pub peer: Option<u16>,
    pub detector: BlackHoleDetector,
}

// RANGE unless the record and what a call is given are within their limits.
fn check(fine: bool) -> Result<(), Refusal>
    ensures { result ≡ checked fine }
{
    if fine { Ok(()) } else { Err(Refusal::Range) }
}

// A record with no burst and no probe, the MTU capped by the peer's maximum.
#[tactic(auto, unfolding(crate::specs::Discovery::opened))]
fn open(
    size: u16,
    minimum: u16,
    peer: Option<u16>,
    config: MtuDiscoveryConfig,
    phase: Phase,
) -> MtuDiscovery
    ensures { result ≡ opened size minimum peer config phase }
{
    MtuDiscovery {
        current: size.min(peer.unwrap_or(MOST)),
        phase,
        peer,
        config,
        detector: BlackHoleDetector::new(minimum),
    }
}

impl MtuDiscovery {
    // A search from `initial` on, over a network that carries `minimum`: the record, or RANGE where a setting is outside its limits, the minimum
    // change is 0 or the initial size is below the minimum.
    #[tactic(auto, unfolding(crate::specs::Discovery::started))]
    pub fn new(
        initial: u16,
        minimum: u16,
        peer: Option<u16>,
        config: MtuDiscoveryConfig,
    ) -> Result<MtuDiscovery, Refusal>
        ensures { result ≡ started initial minimum peer config }
    {
        let sizes = is_size(initial) & is_size(minimum);
        let rest = is_size(peer.unwrap_or(MOST)) & config.good();
        check(sizes & ((minimum <= initial) & rest))?;
        Ok(open(initial, minimum, peer, config, Phase::Initial))
    }

    // The search switched off, with the MTU at `size`: the record, or RANGE.
    #[tactic(auto, unfolding(crate::specs::Discovery::switched_off))]
    pub fn disabled(size: u16, minimum: u16) -> Result<MtuDiscovery, Refusal>
        ensures { result ≡ switched_off size minimum }
    {
        check(is_size(size) & is_size(minimum))?;
        let config = MtuDiscoveryConfig::none();
        Ok(open(size, minimum, None, config, Phase::Off))
    }

    // Starts over at `size`; the peer's maximum and the settings stay: the record, or RANGE.
    #[tactic(auto, unfolding(crate::specs::Discovery::reset_to))]
    pub fn reset(self, size: u16, minimum: u16) -> Result<MtuDiscovery, Refusal>
        ensures { result ≡ reset_to self size minimum }
    {
        check(self.good() & (is_size(size) & is_size(minimum)))?;
        let phase = self.phase.restart();
        Ok(open(size, minimum, self.peer, self.config, phase))
    }

    // The MTU as far as it is known, or RANGE.
    #[tactic(auto, unfolding(crate::specs::Discovery::size_of))]
    pub fn current_mtu(self) -> Result<u16, Refusal>
        ensures { result ≡ size_of self }
    {
        check(self.good())?; // a refusal gives no size
        Ok(self.current)
    }

    // The size of the probe to send now as packet `number`, if one is due; or RANGE, also where the time of the next search is past the last.
    #[tactic(auto, unfolding(crate::specs::Discovery::polled))]
    pub fn poll_transmit(self, time: u64, number: u64) -> Result<Polled, Refusal>
        ensures { result ≡ polled self time number }
    {
        check(self.good() & (number < LIMIT))?;
        self.poll(time, number)
    }

    #[tactic(auto, unfolding(crate::specs::Discovery::by_phase))]
    fn poll(self, time: u64, number: u64) -> Result<Polled, Refusal>
        ensures { result ≡ by_phase self.phase self time number }
    {
        match self.phase {
            Phase::Off => Ok(self.quiet()),
            Phase::Initial => self.turn(self.begin(), time, number),
            Phase::Searching(s) => self.turn(s, time, number),
            Phase::Complete(until) => {
                if time < until {
                    Ok(self.quiet())
                } else {
                    self.turn(self.begin(), time, number)
                }
            }
        }
    }

    fn begin(self) -> SearchState
        ensures { result ≡ begun_in self }
    {
        SearchState::new(self.current, self.top(), self.config.upper)
    }

    #[tactic(auto, unfolding(crate::specs::Discovery::turned))]
    fn turn(self, s: SearchState, time: u64, number: u64) -> Result<Polled, Refusal>
        ensures { result ≡ turn_in self s time number }
    {
        match s.poll(self.config.change, number) {
            Turn::Waiting => Ok(self.quiet()),
            Turn::Probing(next) => Ok(Polled {
                probe: Some(next.last),
                mtud: MtuDiscovery {
                    phase: Phase::Searching(next),
                    ..self
                },
            }),
            Turn::Over => {
                let resting = self.rest(time, self.config.interval)?;
                Ok(resting.quiet())
            }
        }
    }

    // No probe is due.
    fn quiet(self) -> Polled
        ensures { result ≡ Rattle.mtud.specs.Discovery.quiet self }
    {
        Polled {
            probe: None,
            mtud: self,
        }
    }

    // At rest from now on for the time `span`; a time past the last is RANGE.
    #[tactic(auto, unfolding(crate::specs::Discovery::rested))]
    fn rest(self, time: u64, span: u64) -> Result<MtuDiscovery, Refusal>
        ensures { result ≡ rested self time span }
    {
        let Some(until) = time.checked_add(span) else {
            return Err(Refusal::Range);
        };
        Ok(MtuDiscovery {
            phase: Phase::Complete(until),
            ..self
        })
    }

    // The peer's maximum caps the MTU from now on: the record; ORDER while a search runs; or RANGE.
    #[tactic(auto, unfolding(crate::specs::Discovery::peer_received))]
    pub fn on_peer_max_udp_payload_size_received(self, size: u16) -> Result<MtuDiscovery, Refusal>
        ensures { result ≡ peer_received self size }
    {
        check(self.good() & is_size(size))?;
        if self.phase.searching() {
            return Err(Refusal::Order);
        }
        Ok(MtuDiscovery {
            current: self.current.min(size),
            peer: Some(size),
            ..self
        })
    }

    // Packet `number` of that size was acknowledged: whether it was the probe in flight, whose size is then the MTU; or RANGE.
    #[tactic(auto, unfolding(crate::specs::Discovery::acked))]
    pub fn on_acked(self, number: u64, size: u16) -> Result<Acked, Refusal>
        ensures { result ≡ acked self number size }
    {
        check(self.good() & is_packet(number, size))?;
        Ok(self.deliver(number, size))
    }

    #[tactic(auto, unfolding(crate::specs::Discovery::by_acked, crate::specs::Discovery::is_probe))]
    fn deliver(self, number: u64, size: u16) -> Acked
        ensures { result ≡ by_acked self.phase self number size }
    {
        match self.phase {
            Phase::Searching(s) if s.flying & (s.probe == number) => {
                self.deliver_probe(s, number, size)
            }
            _ => self.deliver_other(number, size),
        }
    }

    fn deliver_probe(self, s: SearchState, number: u64, size: u16) -> Acked
        ensures { result ≡ probe_delivered self s number size }
    {
        Acked {
            probe: true,
            mtud: MtuDiscovery {
                current: s.last,
                phase: Phase::Searching(s.on_acked()),
                detector: self.detector.on_probe_acked(number, size),
                ..self
            },
        }
    }

    fn deliver_other(self, number: u64, size: u16) -> Acked
        ensures { result ≡ delivered self number size }
    {
        Acked {
            probe: false,
            mtud: MtuDiscovery {
                detector: self.detector.on_non_probe_acked(number, size),
                ..self
            },
        }
    }

    // The packet number of the probe in flight, if there is one; or RANGE.
    #[tactic(auto, unfolding(crate::specs::Discovery::in_flight))]
    pub fn in_flight_mtu_probe(self) -> Result<Option<u64>, Refusal>
        ensures { result ≡ in_flight self }
    {
        check(self.good())?; // a refusal says nothing of a probe
        Ok(self.phase.flying())
    }

    // The probe in flight was lost: the record; ORDER in a search with none in flight; or RANGE. With no search running there is nothing to do.
    #[tactic(auto, unfolding(crate::specs::Discovery::probe_lost))]
    pub fn on_probe_lost(self) -> Result<MtuDiscovery, Refusal>
        ensures { result ≡ probe_lost self }
    {
        check(self.good())?;
        self.miss()
    }

    #[tactic(auto, unfolding(crate::specs::Discovery::by_lost))]
    fn miss(self) -> Result<MtuDiscovery, Refusal>
        ensures { result ≡ by_lost self.phase self }
    {
        match self.phase {
            Phase::Searching(s) => {
                if s.flying {
                    Ok(MtuDiscovery {
                        phase: Phase::Searching(s.on_lost()),
                        ..self
                    })
                } else {
                    Err(Refusal::Order) // none was in flight
                }
            }
            _ => Ok(self),
        }
    }

    // Packet `number` of that size, no probe, was lost: the record; ORDER unless its number is above the latest of the burst being gathered; or RANGE.
    #[tactic(auto, unfolding(crate::specs::Discovery::packet_lost, crate::specs::Discovery::late))]
    pub fn on_non_probe_lost(self, number: u64, size: u16) -> Result<MtuDiscovery, Refusal>
        ensures { result ≡ packet_lost self number size }
    {
        check(self.good() & is_packet(number, size))?;
        let burst = self.detector.current;
        if burst.has & (number <= burst.latest) {
            return Err(Refusal::Order);
        }
        Ok(MtuDiscovery {
            detector: self.detector.on_non_probe_lost(number, size),
            ..self
        })
    }

    // Ends the burst being gathered: whether there is a black hole, whereupon the MTU is the minimum, or the peer's maximum if that is smaller, and the
    // search is at rest for the cooldown; or RANGE.
    #[tactic(auto, unfolding(crate::specs::Discovery::hole_asked, crate::specs::Discovery::by_hole))]
    pub fn black_hole_detected(self, time: u64) -> Result<Asked, Refusal>
        ensures { result ≡ hole_asked self time }
    {
        check(self.good())?;
        let detected = self.detector.black_hole_detected();
        let seen = MtuDiscovery {
            detector: detected.detector,
            ..self
        };
        if detected.found {
            let fallen = seen.fall(time)?;
            return Ok(Asked {
                hole: true,
                mtud: fallen,
            });
        }
        Ok(Asked {
            hole: false,
            mtud: seen,
        })
    }

    // A black hole: the MTU falls, and a search that is on rests.
    #[tactic(auto, unfolding(crate::specs::Discovery::fallen))]
    fn fall(self, time: u64) -> Result<MtuDiscovery, Refusal>
        ensures { result ≡ fallen self time }
    {
        let low = MtuDiscovery {
            current: self.detector.minimum.min(self.top()),
            ..self
        };
        if self.phase.off() {
            return Ok(low);
        }
        low.rest(time, self.config.cooldown)
    }

    // All that the record says, or RANGE.
    #[tactic(auto, unfolding(crate::specs::Discovery::viewed))]
    pub fn view(self) -> Result<View, Refusal>
        ensures { result ≡ viewed self }
    {
        check(self.good())?; // a refusal shows nothing
        Ok(View {
            mtu: self.current,
            phase: self.phase,
            peer: self.peer,
            detector: self.detector,
        })
    }

    // The peer's maximum, 65,527 until it is received.
    fn top(self) -> u16
        ensures { result ≡ top self }
    {
        self.peer.unwrap_or(MOST)
    }

    #[tactic(auto, unfolding(crate::specs::Discovery::good))]
    fn good(self) -> bool
        ensures { result ≡ good self }
    {
        let peer = self.top();
        let phase = self.phase.good(self.config, self.current, peer);
        (is_size(self.current) & (self.current <= peer))
            & ((peer <= MOST) & (self.detector.good() & phase))
    }
}
