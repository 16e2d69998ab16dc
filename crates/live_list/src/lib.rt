// The live firings of a record as a list of firing records (document 02, T-01), in their order.
// The session's call checks the sheet and the record first.
#![tactic(auto)]

ghost use Rattle.std.specs.Prelude.{◌≡◌, ◌<◌};
ghost use Rattle.net.specs.Limits.{max_live};
ghost use Rattle.live_list.specs.List.{live_at, listed, not_listed};

use firings::{Firing, Firings};
use net::{Key, MAX_LIVE, Verdict};
use std::array::from_fn;

// The answer, how many firings are live, and those firings in their order. Unused entries hold 0.
#[derive(Clone, Copy)]
pub struct LiveFirings {
    pub answer: Verdict,
    pub count: usize,
    pub firings: [Firing; MAX_LIVE],
}

const NO_FIRING: Firing = Firing {
    transition: 0,
    key: Key(0),
    moved: 0,
};

// The live firing at i; zeros after the live ones. The list below asks below the limit.
fn live_at(f: &Firings, i: usize) -> Firing
    requires { i < max_live }
    ensures { result ≡ live_at f.now i }
{
    if i < f.live {
        f.firing_at(i)
    } else {
        NO_FIRING
    }
}

// The live firings, with their number.
pub fn list_live(f: &Firings) -> LiveFirings
    ensures { result ≡ listed f.now }
{
    LiveFirings {
        answer: Verdict::Accepted,
        count: f.live,
        firings: from_fn(|i| live_at(f, i)),
    }
}

// A refused call: no firing, and zeros.
pub fn no_live(n: u8) -> LiveFirings
    ensures { result ≡ not_listed n }
{
    LiveFirings {
        answer: Verdict::Refused(n),
        count: 0,
        firings: [NO_FIRING; MAX_LIVE],
    }
}
