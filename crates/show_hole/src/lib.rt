// What the line of an event of the MTU search says of its black-hole detector (docs/EVENTS.md).
#![tactic(auto)]

use black_hole::{BlackHoleDetector, Bursts};
use out::Out;

// The bursts kept.
fn show_bursts(b: Bursts, out: &mut Out) {
    out.text(b" bursts=[");
    for (i, size) in b.sizes.iter().take(b.count).enumerate() {
        if i > 0 {
            out.text(b",");
        }
        out.number(u64::from(*size));
    }
    out.text(b"]");
}

// The detector: the bursts, the burst being gathered, if any, and what it knows.
pub fn show(d: BlackHoleDetector, out: &mut Out) {
    show_bursts(d.bursts, out);
    let c = d.current;
    if c.has {
        say::form(out, b" cur=%:%", &[c.latest, u64::from(c.smallest)]);
    } else {
        out.text(b" cur=-");
    }
    let rest = [d.post, u64::from(d.acked), u64::from(d.minimum)];
    say::form(out, b" post=% acked=% min=%", &rest);
}
