// The condition under which a sheet is turned away for a transition's couplings (document 01, 9), on that transition's bytes:
// true where the sheet is refused. Total: it reads any bytes. `out` is a side of the transition (specs/Sides).
#![tactic(auto)]

ghost use Rattle.std.specs.Prelude.{◌≡◌, ◌&&◌, ◌+◌, ◌<◌, eqb};
ghost use Rattle.net.specs.Tests.{all, any};
ghost use Rattle.net.specs.Sorted.{ascends};
ghost use Rattle.net.specs.Net.{less_bond};
ghost use Rattle.net.specs.Rules.{joins, bonds_rule};
ghost use Rattle.net.specs.declared.Entry.{Entry};
ghost use Rattle.format.specs.Arcs.{arcs_in};
ghost use Rattle.format.specs.Sides.{side_bonds};
ghost use Rattle.sheet_bonds.specs.Sides.{side_of};
ghost use Rattle.sheet_bonds.specs.Conditions.{wrong_bonds};

use format::{bond_before, bond_count, entry, entry_count, nth_bond};
use net::{Base, Bond, Entry, Place};

fn side(e: Entry, out: bool) -> Place
    ensures { result ≡ side_of out e }
{
    if out { e.to } else { e.from }
}

fn bonds_ascend(b: &[u8], out: bool) -> bool
    ensures { result ≡ ascends less_bond (side_bonds b.now out) }
{
    (1..bond_count(b, out)).all(|i| bond_before(nth_bond(b, out, i - 1), nth_bond(b, out, i)))
}

// Whether there is an entry of `hi` that agrees with the place `at`.
fn has_partner(b: &[u8], out: bool, hi: Base, at: Place) -> bool
    ensures { result ≡ any (λ d. eqb d.base hi && eqb at (side_of out d)) (arcs_in b.now).entries }
{
    (0..entry_count(b)).any(|i| {
        let d = entry(b, i);
        d.base == hi && at == side(d, out)
    })
}

// Whether e is the entry of the lower base of x, and one of the higher base agrees with it.
fn starts(b: &[u8], out: bool, x: Bond, e: Entry) -> bool
    ensures { result ≡ (eqb e.base x.lo
        && any (λ d. eqb d.base x.hi && eqb (side_of out e) (side_of out d)) (arcs_in b.now).entries) }
{
    e.base == x.lo && has_partner(b, out, x.hi, side(e, out))
}

fn bond_joins(b: &[u8], out: bool, x: Bond) -> bool
    ensures { result ≡ joins (side_of out) (arcs_in b.now).entries x }
{
    x.lo < x.hi && (0..entry_count(b)).any(|i| starts(b, out, x, entry(b, i)))
}

fn bonds_join(b: &[u8], out: bool) -> bool
    ensures { result ≡ all (joins (side_of out) (arcs_in b.now).entries) (side_bonds b.now out) }
{
    (0..bond_count(b, out)).all(|i| bond_joins(b, out, nth_bond(b, out, i)))
}

fn bonds_good(b: &[u8], out: bool) -> bool
    ensures { result ≡ bonds_rule (side_of out) (arcs_in b.now).entries (side_bonds b.now out) }
{
    bonds_ascend(b, out) && bonds_join(b, out)
}

// 9: a coupling of one side or the other is against the rule. An in-coupling need not be an out-coupling (document 02, T-07).
#[tactic(auto, unfolding(crate::specs::Conditions::wrong_bonds))]
pub fn wrong_bonds(b: &[u8]) -> bool
    ensures { result ≡ wrong_bonds b.now }
{
    !bonds_good(b, false) || !bonds_good(b, true)
}
