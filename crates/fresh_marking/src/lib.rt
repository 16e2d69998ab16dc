// The marking that a session starts from: the sheet's start places and start couplings (document 01, the sheet).
// Read from the sheet's bytes into a marking in its form.
#![tactic(auto)]

ghost use Rattle.std.specs.Prelude.{◌≡◌, ◌≤◌, length};
ghost use Rattle.net.specs.Limits.{max_bases, max_bonds};
ghost use Rattle.net.specs.Tests.{table};
ghost use Rattle.format.specs.NetOf.{start_bond_count, nth_start_bond, start_marking};
ghost use Rattle.marking.specs.Form.{padded, los, his, laid};
ghost use Rattle.fresh_marking.specs.Start.{StartFits};

use format::{start_bond, start_bond_count, start_places};
use marking::Marking;
use net::{Base, MAX_BASES, MAX_BONDS, Place};

// The bytes of s, and zeros after them.
fn placed(s: &[u8]) -> [Place; MAX_BASES]
    requires { length s.now ≤ max_bases }
    ensures { result ≡ padded max_bases s.now }
{
    let mut places = [0u8; MAX_BASES];
    places[..s.len()].copy_from_slice(s);
    places
}

// The two ends of each coupling.
// Kept: two arrays, since the fields lo and hi of marking's Marking are two arrays, which all laws of its form name.
#[derive(Clone, Copy)]
struct Ends {
    lo: [Base; MAX_BONDS],
    hi: [Base; MAX_BONDS],
}

// The ends of the start couplings, and zeros after them.
fn start_ends(sheet: &[u8]) -> Ends
    requires { start_bond_count sheet.now ≤ max_bonds }
    ensures { (result.lo ≡ padded max_bonds (los (table (start_bond_count sheet.now) (nth_start_bond sheet.now))))
        × (result.hi ≡ padded max_bonds (his (table (start_bond_count sheet.now) (nth_start_bond sheet.now)))) }
{
    let count = start_bond_count(sheet);
    let mut lo = [0u8; MAX_BONDS];
    let mut hi = [0u8; MAX_BONDS];
    for i in 0..count {
        let b = start_bond(sheet, i);
        lo[i as usize] = b.lo;
        hi[i as usize] = b.hi;
    }
    Ends { lo, hi }
}

// The start marking. Callers have an accepted sheet: its start places are one for each base, and its start couplings are
// in strict order and of its bases.
pub fn start_marking(sheet: &[u8]) -> Marking
    requires { StartFits sheet.now }
    ensures { result ≡ laid (start_marking sheet.now) }
{
    let places = placed(start_places(sheet));
    let Ends { lo, hi } = start_ends(sheet);
    let count = start_bond_count(sheet) as usize;
    Marking {
        places,
        count,
        lo,
        hi,
    }
}
