// Why a command was refused (document 01, refusals 13 to 16 and 20): the number of the first entry, coupling, firing or base
// that holds the condition; how many there are where none does. That what is named holds it: proofs/Named and proofs/Built.
#![tactic(auto)]

ghost use Rattle.std.specs.Prelude.{◌≡◌, List, ℕ, ◌<◌, ◌≤◌};
ghost use Rattle.net.specs.Firing.{bonds_seen};
ghost use Rattle.net.specs.Limits.{max_bases, max_bonds, max_live};
ghost use Rattle.net.specs.Sorted.{Ascending};
ghost use Rattle.net.specs.Net as N;
ghost use Rattle.net.specs.Net.{Arcs, same_bond, less_bond};
ghost use Rattle.format.specs.Arcs.{entry_count, nth_entry, arcs_in};
ghost use Rattle.marking.specs.Form.{bonds_of};
ghost use Rattle.words.specs.Sets.{set_of};
ghost use Rattle.labels.specs.Labelled.{Parted};
ghost use Rattle.firings.specs.Lines.{lines_in};
ghost use Rattle.net.specs.Tests.{first_at};
ghost use Rattle.reasons.specs.Reasons.{away_from, absent_from, present_in, torn_from, has_partner, later_at, common_at};

use enabling::is_bond_of;
use firings::Firings;
use format::{entry, entry_count, in_bond, in_count, out_bond, out_count};
use marking::Marking;
use net::{Base, Entry, MAX_BASES, Place};
use words::{has_base, shares};

// An entry's base is not at its in-place. `first_away` has entries of bases below the limit.
fn is_away(places: &[Place; MAX_BASES], e: Entry) -> bool
    requires { e.base < max_bases }
    ensures { result ≡ away_from places.now e }
{
    places[usize::from(e.base)] != e.from
}

// 13: the first entry whose base is not at its in-place. The callers' entries are of bases of the net.
pub fn first_away(step: &[u8], places: &[Place; MAX_BASES]) -> u8
    requires { (i : ℕ) → i < entry_count step.now → (nth_entry step.now i).base < max_bases }
    ensures { result ≡ first_at (away_from places.now) (arcs_in step.now).entries }
{
    let n = entry_count(step);
    (0..n)
        .find(|&i| is_away(places, entry(step, i)))
        .unwrap_or(n)
}

// 14: the first in-coupling that is not there. Callers have the bonds of a marking in its form, in strict order, here and below.
pub fn first_absent(step: &[u8], m: &Marking) -> u8
    requires { (m.now.count ≤ max_bonds) × Ascending same_bond less_bond (bonds_of m.now) }
    ensures { result ≡ first_at (absent_from (bonds_of m.now)) (arcs_in step.now).in_bonds }
{
    let n = in_count(step);
    (0..n).find(|&i| !m.has_bond(in_bond(step, i))).unwrap_or(n)
}

// 15: the first out-coupling that is no in-coupling and is there already.
pub fn first_present(step: &[u8], m: &Marking) -> u8
    requires { (m.now.count ≤ max_bonds) × Ascending same_bond less_bond (bonds_of m.now) }
    ensures { result ≡ first_at (present_in (arcs_in step.now).in_bonds (bonds_of m.now))
        (arcs_in step.now).out_bonds }
{
    let n = out_count(step);
    (0..n)
        .find(|&i| {
            let b = out_bond(step, i);
            !is_bond_of(step, false, b) && m.has_bond(b)
        })
        .unwrap_or(n)
}

// Two entries hang together and have different out-places. The callers' entries are of bases below the limit, and their
// labels are by the bonds after the firing, here and below.
fn is_torn(l: &[Base; MAX_BASES], e: Entry, d: Entry) -> bool
    requires { (e.base < max_bases) × (d.base < max_bases) }
    ensures { (t : Arcs) (s : N.Marking) → Parted max_bases l.now (bonds_seen t s.bonds) → result ≡ torn_from t s e d }
{
    l[usize::from(e.base)] == l[usize::from(d.base)] && e.to != d.to
}

// 16: the first entry that hangs together with e and has another out-place.
pub fn first_partner(step: &[u8], l: &[Base; MAX_BASES], e: Entry) -> u8
    requires base_lt_max_bases { e.base < max_bases }
    requires by_index { (i : ℕ) → i < entry_count step.now → (nth_entry step.now i).base < max_bases }
    ensures { (s : N.Marking) → Parted max_bases l.now (bonds_seen (arcs_in step.now) s.bonds)
        → result ≡ first_at (torn_from (arcs_in step.now) s e) (arcs_in step.now).entries }
{
    let n = entry_count(step);
    for i in 0..n {
        if is_torn(l, e, entry(step, i)) {
            return i;
        }
    }
    n
}

// 16: the first entry that has such a partner.
pub fn first_torn(step: &[u8], l: &[Base; MAX_BASES]) -> u8
    requires { (i : ℕ) → i < entry_count step.now → (nth_entry step.now i).base < max_bases }
    ensures { (s : N.Marking) → Parted max_bases l.now (bonds_seen (arcs_in step.now) s.bonds)
        → result ≡ first_at (has_partner (arcs_in step.now) s) (arcs_in step.now).entries }
{
    let n = entry_count(step);
    for i in 0..n {
        if first_partner(step, l, entry(step, i)) < n {
            return i;
        }
    }
    n
}

// 20: where the first live firing after the one at i stands that moved a base which that one moved. The callers have found
// i among the live ones.
pub fn first_later(f: &Firings, i: usize) -> usize
    requires { (i < f.now.live) × (f.now.live ≤ max_live) }
    ensures { result ≡ later_at (lines_in max_bases f.now) i }
{
    for j in i + 1..f.live {
        if shares(f.moved[i], f.moved[j]) {
            return j;
        }
    }
    f.live
}

// 20: the first base of both sets.
pub fn first_common(a: u64, b: u64) -> usize
    ensures { result ≡ common_at (set_of max_bases a) (set_of max_bases b) }
{
    (0..MAX_BASES)
        .find(|&p| has_base(a, p as u8) && has_base(b, p as u8))
        .unwrap_or(MAX_BASES)
}
