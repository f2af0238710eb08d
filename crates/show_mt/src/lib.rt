// The line of an event of the MTU search: its answer, and the search (docs/EVENTS.md).
#![tactic(auto)]

use drive_mt::Gave;
use mtu_phase::Phase;
use mtu_search::SearchState;
use mtud::{MtuDiscovery, View};
use out::Out;

// The peer's maximum until it is received (mtud).
const MOST: u16 = 65527;

fn show_search(s: SearchState, out: &mut Out) {
    let sizes = [u64::from(s.lower), u64::from(s.upper), u64::from(s.last)];
    say::form(out, b"search(lo=%,up=%,last=%,fly=", &sizes);
    say::or_dash(out, s.flying.then_some(s.probe));
    say::form(out, b",lost=%)", &[u64::from(s.lost)]);
}

fn show_phase(p: Phase, out: &mut Out) {
    match p {
        Phase::Off => out.text(b"off"),
        Phase::Initial => out.text(b"init"),
        Phase::Searching(s) => show_search(s, out),
        Phase::Complete(t) => say::form(out, b"rest(%)", &[t]),
    }
}

// With the search off the peer's maximum may be unknown.
fn peer(v: View) -> Option<u64> {
    match v.phase {
        Phase::Off => v.peer.map(|p| u64::from(p)),
        _ => Some(u64::from(v.peer.unwrap_or(MOST))),
    }
}

fn show_view(v: View, out: &mut Out) {
    say::form(out, b" | mtu=% ", &[u64::from(v.mtu)]);
    show_phase(v.phase, out);
    out.text(b" peer=");
    say::or_dash(out, peer(v));
    show_hole::show(v.detector, out);
}

// The search, or that there is none. One that a state holds is well formed, so its view is not refused.
fn show_kept(kept: Option<MtuDiscovery>, out: &mut Out) {
    let Some(m) = kept else {
        out.text(b" | -");
        return;
    };
    if let Ok(v) = m.view() {
        show_view(v, out);
    }
}

// The line of an event.
pub fn show(g: Gave, out: &mut Out) {
    say::all(out, g.said);
    show_kept(g.kept, out);
}
