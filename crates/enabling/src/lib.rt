// Whether a marking enables a transition (document 01, refusals 13 to 16). The transition is read from its bytes in the
// caller's sheet.
#![tactic(auto)]

ghost use Rattle.std.specs.Prelude.{◌≡◌, not, List, ℕ, ◌+◌, ◌<◌, ◌≤◌, eqb, get_or};
ghost use Rattle.net.specs.Limits.{max_bases, max_bonds};
ghost use Rattle.net.specs.Tests.{pick, any, keep};
ghost use Rattle.net.specs.Sorted.{Ascending, put};
ghost use Rattle.net.specs.Net.{same_bond, less_bond, has_bond};
ghost use Rattle.net.specs.Firing.{misplaced, bond_absent, bond_present, broken_bond, breaks_none, torn_with};
ghost use Rattle.net.specs.declared.Bond as B;
ghost use Rattle.net.specs.declared.Entry.{Entry};
ghost use Rattle.format.specs.Arcs.{entry_count, nth_entry, nth_in_bond, nth_out_bond, arcs_in};
ghost use Rattle.format.specs.Sides.{side_bonds};
ghost use Rattle.bonds.specs.Ends.{ends};
ghost use Rattle.labels.specs.Labelled.{Parted, Labelled, Within, Fits};
ghost use Rattle.marking.specs.Form.{bonds_of, marking_of};
ghost use Rattle.enabling.specs.Line.{in_line};

use format::{bond_count, entry, entry_count, in_bond, in_count, nth_bond, out_bond, out_count};
use groups::send_entries;
use labels::Labels;
use marking::Marking;
use net::{Base, Bond, MAX_BASES, Place};

// 13: an entry's base is not at its in-place. The callers' entries are of bases of the net.
pub fn misplaced(step: &[u8], m: &Marking) -> bool
    requires { (i : ℕ) → i < entry_count step.now → (nth_entry step.now i).base < max_bases }
    ensures { (n : ℕ) → ((i : ℕ) → i < entry_count step.now → (nth_entry step.now i).base < n)
        → result ≡ misplaced (arcs_in step.now) (marking_of n m.now) }
{
    let mut found = false;
    for i in 0..entry_count(step) {
        let e = entry(step, i);
        found = found | (m.places[e.base as usize] != e.from);
    }
    found
}

// 14: an in-bond is absent. Callers have the bonds of a marking in its form, in strict order, here and below.
pub fn bond_absent(step: &[u8], m: &Marking) -> bool
    requires { (m.now.count ≤ max_bonds) × Ascending same_bond less_bond (bonds_of m.now) }
    ensures { (n : ℕ) → result ≡ bond_absent (arcs_in step.now) (marking_of n m.now) }
{
    let mut found = false;
    for i in 0..in_count(step) {
        found = found | !m.has_bond(in_bond(step, i));
    }
    found
}

// Whether b is a bond of a side of the transition: `out` for the out-bonds.
pub fn is_bond_of(step: &[u8], out: bool, b: Bond) -> bool
    ensures { result ≡ has_bond b (side_bonds step.now out) }
{
    for i in 0..bond_count(step, out) {
        let c = nth_bond(step, out, i);
        if (b.lo == c.lo) & (b.hi == c.hi) {
            return true;
        }
    }
    false
}

// How many in-bonds are met after the out-bond of place i: one more, if the next of them is that bond. `in_line` has one left to meet.
fn met_more(step: &[u8], met: u8, i: u8) -> u8
    requires { met < 255 }
    ensures { result ≡ pick (same_bond (nth_in_bond step.now met) (nth_out_bond step.now i)) (met + 1) met }
{
    let b = in_bond(step, met);
    let c = out_bond(step, i);
    if (b.lo == c.lo) & (b.hi == c.hi) {
        return met + 1;
    }
    met
}

// Whether the in-bonds are met one after the other among the out-bonds. As both are in order on an accepted sheet, this tells
// in one pass that nothing breaks.
fn in_line(step: &[u8]) -> bool
    ensures { result ≡ in_line (arcs_in step.now).in_bonds (arcs_in step.now).out_bonds }
{
    let ins = in_count(step);
    let outs = out_count(step);
    let mut met: u8 = 0;
    let mut i: u8 = 0;
    while (met < ins) & (i < outs) {
        met = met_more(step, met, i);
        i += 1;
    }
    met == ins
}

// Whether every in-bond is an out-bond: then the transition breaks nothing (document 02, T-07).
fn keeps_all(step: &[u8]) -> bool
    ensures { result ≡ breaks_none (arcs_in step.now) }
{
    if in_line(step) {
        return true;
    }
    for i in 0..in_count(step) {
        if !is_bond_of(step, true, in_bond(step, i)) {
            return false;
        }
    }
    true
}

// The same. A transition that has no in-bond, as most have none, is told at once.
pub fn breaks_none(step: &[u8]) -> bool
    ensures { result ≡ breaks_none (arcs_in step.now) }
{
    if in_count(step) == 0 {
        return true;
    }
    keeps_all(step)
}

// 15: an out-bond that is no in-bond is present already.
pub fn bond_present(step: &[u8], m: &Marking) -> bool
    requires { (m.now.count ≤ max_bonds) × Ascending same_bond less_bond (bonds_of m.now) }
    ensures { (n : ℕ) → result ≡ bond_present (arcs_in step.now) (marking_of n m.now) }
{
    let mut found = false;
    for i in 0..out_count(step) {
        let b = out_bond(step, i);
        let kept = is_bond_of(step, false, b);
        let here = m.has_bond(b);
        found = found | (!kept & here);
    }
    found
}

// Whether some entry's base is not at its out-place. `torn_apart` has entries of bases of the net.
fn elsewhere(step: &[u8], places: &[Place; MAX_BASES]) -> bool
    requires { (i : ℕ) → i < entry_count step.now → (nth_entry step.now i).base < max_bases }
    ensures { result ≡ any (λ (e : Entry). not (eqb e.to (get_or places.now e.base 0))) (arcs_in step.now).entries }
{
    let mut found = false;
    for i in 0..entry_count(step) {
        let e = entry(step, i);
        found = found | (e.to != places[e.base as usize]);
    }
    found
}

// Two entries with different out-places have bases of one label. All entries are sent in a copy of the places: then the base
// of one that is not the first of its group may be elsewhere. Callers have entries of bases of the net, and labels by some bonds.
fn torn_with(step: &[u8], places: &[Place; MAX_BASES], l: &[Base; MAX_BASES]) -> bool
    requires { (i : ℕ) → i < entry_count step.now → (nth_entry step.now i).base < max_bases }
    ensures { (bs : List B.Bond) → Parted max_bases l.now bs → result ≡ torn_with (arcs_in step.now) bs }
{
    let mut next = *places;
    send_entries(step, l, &mut next);
    elsewhere(step, &next)
}

// Whether the transition breaks b: an in-bond that is no out-bond.
fn is_broken(step: &[u8], b: Bond) -> bool
    ensures { result ≡ broken_bond (arcs_in step.now) b }
{
    if !is_bond_of(step, false, b) {
        return false;
    }
    !is_bond_of(step, true, b)
}

// The labels after one more bond, unless the transition breaks it. `kept_labels` has labels that fit and bonds of bases.
fn join_kept(step: &[u8], labels: &mut Labels, b: Bond)
    requires { Fits labels.old.of labels.old.members × Within max_bases b }
    ensures fits { Fits labels.new.of labels.new.members }
    ensures labelled { (bs : List B.Bond) → Labelled labels.old.of labels.old.members bs
        → Labelled labels.new.of labels.new.members
        (pick (broken_bond (arcs_in step.now) b) bs (put same_bond less_bond b bs)) }
{
    if is_broken(step, b) {
        return;
    }
    labels.join(b);
}

// The labels by the bonds that the transition does not break. Callers have the bonds of a good marking.
pub fn kept_labels(step: &[u8], m: &Marking) -> Labels
    requires in_order { (m.now.count ≤ max_bonds) × Ascending same_bond less_bond (bonds_of m.now) }
    requires by_index { (i : ℕ) → i < m.now.count → Within max_bases (ends m.now.lo m.now.hi i) }
    ensures { Labelled result.of result.members
        (keep (λ b. not (broken_bond (arcs_in step.now) b)) (bonds_of m.now)) }
{
    let mut labels = Labels::unbound();
    for i in 0..m.count {
        join_kept(step, &mut labels, m.bond_at(i));
    }
    labels
}

// The same by the labels of the bonds that the transition does not break. What it asks is what `torn_apart` asks. A function of
// its own, so that room for these labels is made only where a bond is broken.
fn torn_kept(step: &[u8], m: &Marking) -> bool
    requires in_order { (m.now.count ≤ max_bonds) × Ascending same_bond less_bond (bonds_of m.now) }
    requires by_index { (i : ℕ) → i < m.now.count → Within max_bases (ends m.now.lo m.now.hi i) }
    requires by_index_2 { (i : ℕ) → i < entry_count step.now → (nth_entry step.now i).base < max_bases }
    ensures { result ≡ torn_with (arcs_in step.now)
        (keep (λ b. not (broken_bond (arcs_in step.now) b)) (bonds_of m.now)) }
{
    torn_with(step, &m.places, &kept_labels(step, m).of)
}

// 16: two entries with different out-places have bases that the bonds after the firing connect. Those that the transition
// does not break say the same: an out-bond joins entries of one out-place. One entry has none to differ from. Callers have a
// good marking of an accepted sheet and labels by its bonds.
pub fn torn_apart(step: &[u8], m: &Marking, l: &[Base; MAX_BASES]) -> bool
    requires in_order { (m.now.count ≤ max_bonds) × Ascending same_bond less_bond (bonds_of m.now) }
    requires by_index { (i : ℕ) → i < m.now.count → Within max_bases (ends m.now.lo m.now.hi i) }
    requires by_index_2 { ((i : ℕ) → i < entry_count step.now → (nth_entry step.now i).base < max_bases) × Parted max_bases l.now (bonds_of m.now) }
    ensures { result ≡ torn_with (arcs_in step.now)
        (keep (λ b. not (broken_bond (arcs_in step.now) b)) (bonds_of m.now)) }
{
    if entry_count(step) < 2 {
        return false;
    }
    if breaks_none(step) {
        return torn_with(step, &m.places, l);
    }
    torn_kept(step, m)
}
