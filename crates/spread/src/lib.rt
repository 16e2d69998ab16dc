// How far one firing spreads (document 02, T-08): over those after it that share a base, one after the other.
// The session's call checks the sheet and the record first.
#![tactic(auto)]

ghost use Rattle.std.specs.Prelude.{◌≡◌, true, ◌<◌, ◌≤◌};
ghost use Rattle.net.specs.Limits.{max_bases, max_live};
ghost use Rattle.net.specs.Tests.{pick};
ghost use Rattle.net.specs.Journal.{common};
ghost use Rattle.words.specs.Sets.{set_of, either};
ghost use Rattle.firings.specs.Lines.{lines_in};
ghost use Rattle.firings.specs.Search.{keys_in};
ghost use Rattle.firings.specs.Form.{climbs};
ghost use Rattle.spread.specs.Depends.{spread_from};
ghost use Rattle.spread.specs.Spread.{told, not_told, spread_among};

use firings::Firings;
use net::{Key, MAX_BASES, Verdict};
use std::array::from_fn;
use words::{has_base, shares, union};

// The answer, and a flag for each part: whether it was moved by the firing or by one that depends on it. Unused flags are no.
#[derive(Clone, Copy)]
pub struct Spread {
    pub answer: Verdict,
    pub parts: [bool; MAX_BASES],
}

// The set with that of a later firing, if they have a base in common.
fn wider(set: u64, moved: u64) -> u64
    ensures { set_of max_bases result
        ≡ pick (common (set_of max_bases set) (set_of max_bases moved)) (either (set_of max_bases set) (set_of max_bases moved)) (set_of max_bases set) }
{
    if shares(set, moved) {
        union(set, moved)
    } else {
        set
    }
}

// Where the live firing at i spreads. `spread_of` has found it among the live ones.
fn spread_at(f: &Firings, i: usize) -> u64
    requires { (i < f.now.live) × (f.now.live ≤ max_live) }
    ensures { set_of max_bases result ≡ spread_from i (lines_in max_bases f.now) }
{
    let own = f.moved[i];
    let mut set = own;
    for &moved in &f.moved[i + 1..f.live] {
        set = wider(set, moved);
    }
    set
}

// The set as flags.
fn tell(set: u64) -> Spread
    ensures { result ≡ told (set_of max_bases set) }
{
    Spread {
        answer: Verdict::Accepted,
        parts: from_fn(|p| has_base(set, p as u8)),
    }
}

// A refused call: no part.
pub fn tell_none(n: u8) -> Spread
    ensures { result ≡ not_told n }
{
    Spread {
        answer: Verdict::Refused(n),
        parts: [false; MAX_BASES],
    }
}

// The spread of the firing of a key; 19 where it is not live. The keys of a sound record ascend.
pub fn spread_of(f: &Firings, key: Key) -> Spread
    requires { (f.now.live ≤ max_live) × (climbs 0 (keys_in f.now.live f.now.keys) ≡ true) }
    ensures { result ≡ spread_among key (lines_in max_bases f.now) }
{
    let Some(i) = f.index_of(key) else {
        return tell_none(19);
    };
    tell(spread_at(f, i))
}
