// A wanted layout (document 02, T-04): a byte for each base, the place where it is wanted, or 255 for any place.
// Refusal 27, and the first base that is not where it is wanted.
#![tactic(auto)]

ghost use Rattle.std.specs.Prelude.{◌≡◌, ◌≤◌, length};
ghost use Rattle.net.specs.Limits.{max_bases};
ghost use Rattle.layout.specs.Layout.{elsewhere, no_such_place, unfit_layout, wrong_base};

use net::{MAX_BASES, Place};

// The byte that stands for any place.
const ANY: u8 = 255;

// Whether a byte of a layout names a place that is not there.
fn no_such_place(places: Place, wanted: u8) -> bool
    ensures { result ≡ no_such_place places wanted }
{
    (wanted != ANY) & (places <= wanted)
}

// Refusal 27 on a sheet of so many bases and places. Every byte is looked at.
pub fn unfit_layout(bases: usize, places: Place, layout: &[u8]) -> bool
    ensures { result ≡ unfit_layout bases places layout.now }
{
    let mut unfit = layout.len() != bases;
    for wanted in layout {
        unfit |= no_such_place(places, *wanted);
    }
    unfit
}

// Whether a base that is wanted at a place is somewhere else.
fn is_elsewhere(wanted: u8, place: Place) -> bool
    ensures { result ≡ elsewhere wanted place }
{
    (wanted != ANY) & (place != wanted)
}

// The first of n bases that is not where it is wanted; n where there is none. The callers have seen that 27 does not hold, on a
// sheet of n bases.
pub fn wrong_base(layout: &[u8], places: &[Place; MAX_BASES], n: usize) -> usize
    requires { (n ≤ length layout.now) × (n ≤ max_bases) }
    ensures { result ≡ wrong_base n layout.now places.now }
{
    for p in 0..n {
        if is_elsewhere(layout[p], places[p]) {
            return p;
        }
    }
    n
}
