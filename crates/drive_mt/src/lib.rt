// The events of the MTU search: mt (docs/EVENTS.md). An event is its library's call.
#![tactic(auto)]

ghost use Rattle.std.specs.Prelude.{◌≡◌};
ghost use Rattle.drive_mt.specs.Step.{size_of, peer_of, plainly, valued, quiet_of, polled_of, acked_of, hole_of, begin_of, start_of, new_of, call_of, step_of};

use answers::Refusal;
use mtu_phase::MtuDiscoveryConfig;
use mtud::{Acked, Asked, MtuDiscovery, Polled};
use said::Said;

// What an event gives: what is said of it, and the search after it. There is none before the first `new` or `off`.
#[derive(Clone, Copy)]
pub struct Gave {
    pub said: Said,
    pub kept: Option<MtuDiscovery>,
}

// What a state holds before the first event: no search yet.
#[tactic(auto, unfolding(crate::specs::Step::begin_of))]
pub fn begin() -> Gave
    ensures { result ≡ begin_of }
{
    Gave {
        said: said::plain(answers::OK),
        kept: None,
    }
}

// Sizes are at most 65,527, so what does not fit 16 bits is the largest that is refused.
fn size(n: u64) -> u16
    ensures { result ≡ size_of n }
{
    n.min(65535) as u16
}

#[tactic(auto, unfolding(crate::specs::Step::peer_of))]
fn peer(told: u64, n: u64) -> Option<u16>
    ensures { result ≡ peer_of told n }
{
    if told == 1 { Some(size(n)) } else { None }
}

// An answer with no value.
fn plain(answer: u8, kept: Option<MtuDiscovery>) -> Gave
    ensures { result ≡ plainly answer kept }
{
    Gave {
        said: said::plain(answer),
        kept,
    }
}

// An answer with its value.
fn number(answer: u8, value: u64, m: MtuDiscovery) -> Gave
    ensures { result ≡ valued answer value m }
{
    Gave {
        said: said::number(answer, value),
        kept: Some(m),
    }
}

// A call with no value: its record, or what was kept before where it is refused.
#[tactic(auto, unfolding(crate::specs::Step::quiet_of))]
fn quiet(outcome: Result<MtuDiscovery, Refusal>, before: Option<MtuDiscovery>) -> Gave
    ensures { result ≡ quiet_of outcome before }
{
    match outcome {
        Ok(m) => plain(answers::OK, Some(m)),
        Err(why) => plain(u8::from(why), before),
    }
}

// The size of the probe to send, 0 for none.
// This and the two below are calls with a value, each with a record of its own: a closure that picks it out would be no plainer than the match.
#[tactic(auto, unfolding(crate::specs::Step::polled_of))]
fn polled(outcome: Result<Polled, Refusal>, m: MtuDiscovery) -> Gave
    ensures { result ≡ polled_of outcome m }
{
    match outcome {
        Ok(p) => number(answers::OK, u64::from(p.probe.unwrap_or(0)), p.mtud),
        Err(why) => number(u8::from(why), 0, m),
    }
}

// Whether the packet was the probe.
#[tactic(auto, unfolding(crate::specs::Step::acked_of))]
fn acked(outcome: Result<Acked, Refusal>, m: MtuDiscovery) -> Gave
    ensures { result ≡ acked_of outcome m }
{
    match outcome {
        Ok(a) => number(answers::OK, said::bit(a.probe), a.mtud),
        Err(why) => number(u8::from(why), 0, m),
    }
}

// Whether there is a black hole.
#[tactic(auto, unfolding(crate::specs::Step::hole_of))]
fn hole(outcome: Result<Asked, Refusal>, m: MtuDiscovery) -> Gave
    ensures { result ≡ hole_of outcome m }
{
    match outcome {
        Ok(a) => number(answers::OK, said::bit(a.hole), a.mtud),
        Err(why) => number(u8::from(why), 0, m),
    }
}

// The record of a new search.
#[tactic(auto, unfolding(crate::specs::Step::start_of))]
fn start(numbers: &[u64; 32768]) -> Result<MtuDiscovery, Refusal>
    ensures { result ≡ start_of numbers.now }
{
    let config = MtuDiscoveryConfig {
        upper: size(numbers[4]),
        change: size(numbers[5]),
        interval: numbers[6],
        cooldown: numbers[7],
    };
    let p = peer(numbers[2], numbers[3]);
    MtuDiscovery::new(size(numbers[0]), size(numbers[1]), p, config)
}

// A change that does not fit 16 bits is none that the library takes.
#[tactic(auto, unfolding(crate::specs::Step::new_of))]
fn fresh(numbers: &[u64; 32768], before: Option<MtuDiscovery>) -> Gave
    ensures { result ≡ new_of numbers.now before }
{
    if 65535 < numbers[5] {
        return plain(answers::RANGE, before);
    }
    quiet(start(numbers), before)
}

// An event of the search that there is.
#[tactic(auto, unfolding(crate::specs::Step::call_of))]
fn call(code: u8, a: u64, b: u64, m: MtuDiscovery) -> Gave
    ensures { result ≡ call_of code a b m }
{
    match code {
        codes::MT_POLL => polled(m.poll_transmit(a, b), m),
        codes::MT_ACK => acked(m.on_acked(a, size(b)), m),
        codes::MT_HOLE => hole(m.black_hole_detected(a), m),
        codes::MT_LOST => quiet(m.on_non_probe_lost(a, size(b)), Some(m)),
        codes::MT_PLOST => quiet(m.on_probe_lost(), Some(m)),
        codes::MT_PEER => quiet(m.on_peer_max_udp_payload_size_received(size(a)), Some(m)),
        _ => quiet(m.reset(size(a), size(b)), Some(m)),
    }
}

// An event of the search.
#[tactic(auto, unfolding(crate::specs::Step::step_of))]
pub fn step(code: u8, numbers: &[u64; 32768], before: Option<MtuDiscovery>) -> Gave
    ensures { result ≡ step_of code numbers.now before }
{
    let a = numbers[0];
    let b = numbers[1];
    if code == codes::MT_NEW {
        return fresh(numbers, before);
    }
    if code == codes::MT_OFF {
        return quiet(MtuDiscovery::disabled(size(a), size(b)), before);
    }
    match before {
        None => plain(answers::ORDER, None),
        Some(m) => call(code, a, b, m),
    }
}
