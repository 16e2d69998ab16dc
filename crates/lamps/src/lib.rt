// The lamps of a record's live firings (document 02, T-06), by the table of last movers.
// The session's calls check the sheet and the record first.
#![tactic(auto)]

ghost use Rattle.std.specs.Prelude.{◌≡◌, true, ◌<◌, ◌≤◌};
ghost use Rattle.net.specs.Limits.{max_bases, max_live};
ghost use Rattle.firings.specs.Lines.{lines_in};
ghost use Rattle.firings.specs.Search.{keys_in};
ghost use Rattle.firings.specs.Form.{climbs};
ghost use Rattle.movers.specs.Lamp.{lamp};
ghost use Rattle.lamps.specs.Lamps.{flag_at, shown, not_shown};

use firings::Firings;
use movers::table::on_top;
use net::{Key, MAX_BASES, MAX_LIVE, Verdict};
use std::array::from_fn;

// The answer, how many firings are live, and a flag for each of them in its order: whether it can come off. Unused flags are no.
#[derive(Clone, Copy)]
pub struct Lamps {
    pub answer: Verdict,
    pub count: usize,
    pub lit: [bool; MAX_LIVE],
}

// The lamp of the live firing at i; no after the live ones. The callers ask below the limit, and the keys of a sound record ascend,
// here and below.
fn lit_at(movers: &[u16; MAX_BASES], f: &Firings, i: usize) -> bool
    requires { (i < max_live) × (climbs 0 (keys_in f.now.live f.now.keys) ≡ true) }
    ensures { result ≡ flag_at movers.now (lines_in max_bases f.now) i }
{
    i < f.live && on_top(movers, f.moved[i], Key(f.keys[i]))
}

// The lamp of a key: no where it is not live.
pub fn is_lit(movers: &[u16; MAX_BASES], f: &Firings, key: Key) -> bool
    requires { (f.now.live ≤ max_live) × (climbs 0 (keys_in f.now.live f.now.keys) ≡ true) }
    ensures { result ≡ lamp max_bases movers.now (lines_in max_bases f.now) key }
{
    let Some(i) = f.index_of(key) else {
        return false;
    };
    lit_at(movers, f, i)
}

// All lamps, with their number.
pub fn show(movers: &[u16; MAX_BASES], f: &Firings) -> Lamps
    requires { climbs 0 (keys_in f.now.live f.now.keys) ≡ true }
    ensures { result ≡ shown movers.now (lines_in max_bases f.now) }
{
    Lamps {
        answer: Verdict::Accepted,
        count: f.live,
        lit: from_fn(|i| lit_at(movers, f, i)),
    }
}

// A refused call: no lamp is lit.
pub fn show_none(n: u8) -> Lamps
    ensures { result ≡ not_shown n }
{
    Lamps {
        answer: Verdict::Refused(n),
        count: 0,
        lit: [false; MAX_LIVE],
    }
}
