// Firing a transition and taking it back (document 01), in place on a marking, in its form before and after, and on the labels
// by its bonds. The transition is read from its bytes in the caller's sheet.
#![tactic(auto)]

ghost use Rattle.std.specs.Prelude.{◌≡◌, true, not, List, [], ◌∷◌, ℕ, ◌<◌, ◌≤◌, length};
ghost use Rattle.net.specs.Limits.{max_bases, max_bonds};
ghost use Rattle.net.specs.Tests.{keep};
ghost use Rattle.net.specs.Sorted.{put, puts};
ghost use Rattle.net.specs.Net.{same_bond, less_bond};
ghost use Rattle.net.specs.Firing.{broken_bond, breaks_none, fire, undo};
ghost use Rattle.net.specs.declared.Bond.{Bond};
ghost use Rattle.format.specs.Arcs.{out_count, nth_out_bond, arcs_in};
ghost use Rattle.format.specs.Sides.{side_bonds};
ghost use Rattle.words.specs.Sets.{set_of};
ghost use Rattle.bonds.specs.Ends.{ends};
ghost use Rattle.labels.specs.Labelled.{Labelled, Within, Fits};
ghost use Rattle.marking.specs.Form.{bonds_of, marking_of, with_bonds, laid, InOrder};
ghost use Rattle.enabling.specs.Ready.{Ready};
ghost use Rattle.engine.specs.Change.{HasRoom, stays, one_sided, goes_in};

use enabling::{breaks_none, is_bond_of};
use format::{bond_count, nth_bond, out_bond, out_count};
use groups::{send_back, send_entries};
use labels::Labels;
use marking::Marking;
use net::Bond;

// b goes in; an in-bond only where the transition breaks it.
// `put_bonds` has bonds in their form and in strict order, and room for b, at each turn.
fn put_in(step: &[u8], out: bool, m: &mut Marking, b: Bond)
    requires in_order { InOrder m.old }
    requires count_len_bound { length (put same_bond less_bond b (bonds_of m.old)) ≤ max_bonds }
    ensures { m.new ≡ with_bonds m.old
        (puts same_bond less_bond (keep (goes_in (arcs_in step.now) out) (b ∷ [])) (bonds_of m.old)) }
{
    if out {
        m.put_bond(b);
        return;
    }
    if is_bond_of(step, true, b) {
        return;
    }
    m.put_bond(b);
}

// The transition's out-bonds go in, or those of its in-bonds that it breaks; from the last to the first.
// The bonds of a good marking and of an accepted transition are of bases of the net: so there is room for all.
fn put_bonds(step: &[u8], out: bool, m: &mut Marking)
    requires { HasRoom (side_bonds step.now out) m.old }
    ensures { m.new ≡ with_bonds m.old
        (puts same_bond less_bond (keep (goes_in (arcs_in step.now) out) (side_bonds step.now out)) (bonds_of m.old)) }
{
    for i in (0..bond_count(step, out)).rev() {
        put_in(step, out, m, nth_bond(step, out, i));
    }
}

// b goes out, unless it is a bond of the transition's other side.
// `take_bonds` has bonds in their form and in strict order at each turn.
fn take_out(step: &[u8], out: bool, m: &mut Marking, b: Bond)
    requires { InOrder m.old }
    ensures { m.new ≡ with_bonds m.old (keep (stays (side_bonds step.now (not out)) b) (bonds_of m.old)) }
{
    let kept = is_bond_of(step, !out, b);
    if kept {
        return;
    }
    m.take_bond(b);
}

// The bonds of one side that are none of the other go out: those that the transition made, or those that it breaks.
// Callers have a marking in its form with bonds in strict order.
fn take_bonds(step: &[u8], out: bool, m: &mut Marking)
    requires { InOrder m.old }
    ensures { m.new ≡ with_bonds m.old (keep (λ c. not (one_sided step.now out c)) (bonds_of m.old)) }
{
    for i in 0..bond_count(step, out) {
        take_out(step, out, m, nth_bond(step, out, i));
    }
}

// The bonds that the transition breaks go out. `fire_in` has looked whether it breaks none (`whole`), and has a marking in its
// form with bonds in strict order.
fn take_broken(step: &[u8], m: &mut Marking, whole: bool)
    requires { InOrder m.old × (whole ≡ breaks_none (arcs_in step.now)) }
    ensures { m.new ≡ with_bonds m.old (keep (λ c. not (broken_bond (arcs_in step.now) c)) (bonds_of m.old)) }
{
    if whole {
        return;
    }
    take_bonds(step, false, m);
}

// The bonds that the transition broke go in again. `undo_in` has looked whether it breaks none (`whole`), and has room for them.
fn put_broken(step: &[u8], m: &mut Marking, whole: bool)
    requires { HasRoom (arcs_in step.now).in_bonds m.old × (whole ≡ breaks_none (arcs_in step.now)) }
    ensures { m.new ≡ with_bonds m.old
        (puts same_bond less_bond (keep (broken_bond (arcs_in step.now)) (arcs_in step.now).in_bonds) (bonds_of m.old)) }
{
    if whole {
        return;
    }
    put_bonds(step, false, m);
}

// The labels and their sets once the transition's out-bonds are in. A bond that is there already changes nothing.
// `fire_in` has labels by the bonds, and the out-bonds of an accepted transition are of bases of the net.
pub fn join_out_bonds(step: &[u8], labels: &mut Labels)
    requires { Fits labels.old.of labels.old.members × ((i : ℕ) → i < out_count step.now → Within max_bases (nth_out_bond step.now i)) }
    ensures { (bs : List Bond) → Labelled labels.old.of labels.old.members bs
        → Labelled labels.new.of labels.new.members (puts same_bond less_bond (arcs_in step.now).out_bonds bs) }
{
    for i in (0..out_count(step)).rev() {
        labels.join(out_bond(step, i));
    }
}

// The labels of the bonds that there are, made anew unless they are as they were. The callers have the bonds of a good
// marking, and labels by those that were there: where none went and none came, these are the same.
fn relabel(labels: &mut Labels, m: &Marking, same: bool)
    requires count_in_bounds { m.now.count ≤ max_bonds }
    requires by_index { (i : ℕ) → i < m.now.count → Within max_bases (ends m.now.lo m.now.hi i) }
    requires labelled { same ≡ true → Labelled labels.old.of labels.old.members (bonds_of m.now) }
    ensures { Labelled labels.new.of labels.new.members (bonds_of m.now) }
{
    if same {
        return;
    }
    labels.remake(m);
}

// The labels after a firing: joined by the out-bonds where none was broken, else made anew. `fire_in` has the bonds of a good
// marking afterwards, and labels by those before.
fn label_fired(step: &[u8], labels: &mut Labels, m: &Marking, whole: bool)
    requires fits { Fits labels.old.of labels.old.members × (m.now.count ≤ max_bonds) }
    requires by_index { (i : ℕ) → i < out_count step.now → Within max_bases (nth_out_bond step.now i) }
    requires by_index_2 { (i : ℕ) → i < m.now.count → Within max_bases (ends m.now.lo m.now.hi i) }
    ensures { (bs : List Bond) → Labelled labels.old.of labels.old.members bs
        → (whole ≡ true → bonds_of m.now ≡ puts same_bond less_bond (arcs_in step.now).out_bonds bs)
        → Labelled labels.new.of labels.new.members (bonds_of m.now) }
{
    if whole {
        join_out_bonds(step, labels);
        return;
    }
    labels.remake(m);
}

// Fires the transition: the bonds that it breaks go out, its out-bonds go in; then every base whose group an entry hits goes to
// the out-place of the first such entry. Callers have a marking in its form and good, an accepted sheet, so it is ready (the
// proofs of steps), and labels by the marking's bonds, here and below.
pub fn fire_in(step: &[u8], n: usize, m: &mut Marking, labels: &mut Labels)
    requires { Ready n (arcs_in step.now) m.old × Labelled labels.old.of labels.old.members (bonds_of m.old) }
    ensures fired { m.new ≡ laid (fire n (arcs_in step.now) (marking_of n m.old)) }
    ensures labelled { Labelled labels.new.of labels.new.members (bonds_of m.new) }
{
    let whole = breaks_none(step);
    let count = m.count;
    take_broken(step, m, whole);
    let left = m.count;
    put_bonds(step, true, m);
    label_fired(step, labels, m, left == count);
    send_entries(step, &labels.of, &mut m.places);
}

// Takes the transition back: the bonds that it made go, those that it broke go in again; then each base of `moved` goes to the
// in-place of the entries to which it is connected.
pub fn undo_in(step: &[u8], n: usize, m: &mut Marking, labels: &mut Labels, moved: u64)
    requires { Ready n (arcs_in step.now) m.old × Labelled labels.old.of labels.old.members (bonds_of m.old) }
    ensures undone { m.new ≡ laid (undo n (arcs_in step.now) (set_of n moved) (marking_of n m.old)) }
    ensures labelled { Labelled labels.new.of labels.new.members (bonds_of m.new) }
{
    let whole = breaks_none(step);
    let count = m.count;
    take_bonds(step, true, m);
    let left = m.count;
    put_broken(step, m, whole);
    relabel(labels, m, whole & (left == count));
    send_back(step, labels, &mut m.places, moved);
}
