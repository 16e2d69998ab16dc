// Bases grouped by label, as a firing or a taking back moves them: which bases move, and bases sent in place.
// The label of a group stands for it: members[x] is the set of the bases with label x.
#![tactic(auto)]

ghost use Rattle.std.specs.Prelude.{◌≡◌, true, false, ◌&&◌, List, ℕ, ◌<◌, eqb, get_or};
ghost use Rattle.net.specs.Limits.{max_bases};
ghost use Rattle.net.specs.Tests.{pick, table};
ghost use Rattle.net.specs.Firing.{moves};
ghost use Rattle.net.specs.declared.Bond.{Bond};
ghost use Rattle.format.specs.Arcs.{entry_count, nth_entry, arcs_in};
ghost use Rattle.words.specs.Sets.{set_of};
ghost use Rattle.labels.specs.Labelled.{label_in, Labelled};
ghost use Rattle.groups.specs.Groups.{firsts, side};

use format::{entry, entry_count};
use labels::Labels;
use net::{Base, MAX_BASES, Place};
use words::{has_base, union, within};

// The moved bases: those of every group that an entry hits. Callers have labels by the bonds of a marking, and their entries
// are of bases of the net, here and below.
pub fn moved_word(step: &[u8], labels: &Labels) -> u64
    requires by_index { (i : ℕ) → i < entry_count step.now → (nth_entry step.now i).base < max_bases }
    requires labelled { (bs : List Bond) × Labelled labels.now.of labels.now.members bs }
    ensures { (bs : List Bond) → Labelled labels.now.of labels.now.members bs
        → set_of max_bases result ≡ table max_bases (moves bs (arcs_in step.now).entries) }
{
    let mut w: u64 = 0;
    for i in 0..entry_count(step) {
        let base = entry(step, i).base as usize;
        let x = labels.of[base] as usize;
        w = union(w, labels.members[x]);
    }
    w
}

// Where a base goes: to `to` if it goes at all.
fn chosen(goes: bool, to: Place, old: Place) -> Place
    ensures { result ≡ pick goes to old }
{
    if goes { to } else { old }
}

// Every base with the label x goes to `to`. The pass goes over all bases up to the limit: a constant number of turns, so that
// the compiler does many at a time.
fn send_group(l: &[Base; MAX_BASES], places: &mut [Place; MAX_BASES], x: Base, to: Place)
    ensures { places.new
        ≡ table max_bases (λ p. pick (eqb x (label_in l.now p)) to (get_or places.old p 0)) }
{
    for p in 0..MAX_BASES {
        places[p] = chosen(x == l[p], to, places[p]);
    }
}

// Every base whose group an entry hits goes to the out-place of the first such entry: from the last entry to the first.
pub fn send_entries(step: &[u8], l: &[Base; MAX_BASES], places: &mut [Place; MAX_BASES])
    requires { (i : ℕ) → i < entry_count step.now → (nth_entry step.now i).base < max_bases }
    ensures { places.new
        ≡ table max_bases (λ p. firsts (side false) (label_in l.now) (arcs_in step.now).entries
        (get_or places.old p 0) (label_in l.now p)) }
{
    for i in (0..entry_count(step)).rev() {
        let e = entry(step, i);
        send_group(l, places, l[e.base as usize], e.to);
    }
}

// Every base of `moved` with the label x goes to `to`.
fn send_some(l: &[Base; MAX_BASES], places: &mut [Place; MAX_BASES], moved: u64, x: Base, to: Place)
    ensures { places.new
        ≡ table max_bases (λ p. pick (get_or (set_of max_bases moved) p false && eqb x (label_in l.now p)) to
        (get_or places.old p 0)) }
{
    for p in 0..MAX_BASES {
        places[p] = chosen(has_base(moved, p as Base) & (x == l[p]), to, places[p]);
    }
}

// The same. Where the whole group moved, one pass asks no bit of a base. `send_back` has the set of x's group at x.
fn send_moved(labels: &Labels, places: &mut [Place; MAX_BASES], moved: u64, x: Base, to: Place)
    requires { (x < max_bases) × (set_of max_bases (get_or labels.now.members x 0) ≡ table max_bases (λ p. eqb x (label_in labels.now.of p))) }
    ensures { places.new
        ≡ table max_bases (λ p. pick (get_or (set_of max_bases moved) p false && eqb x (label_in labels.now.of p)) to
        (get_or places.old p 0)) }
{
    if within(labels.members[x as usize], moved) {
        send_group(&labels.of, places, x, to);
        return;
    }
    send_some(&labels.of, places, moved, x, to);
}

// Every base of `moved` whose group an entry hits goes to the in-place of the first such entry: from the last entry to the
// first.
pub fn send_back(step: &[u8], labels: &Labels, places: &mut [Place; MAX_BASES], moved: u64)
    requires by_index { (i : ℕ) → i < entry_count step.now → (nth_entry step.now i).base < max_bases }
    requires labelled { (bs : List Bond) × Labelled labels.now.of labels.now.members bs }
    ensures { places.new
        ≡ table max_bases (λ p. pick (get_or (set_of max_bases moved) p false)
        (firsts (side true) (label_in labels.now.of) (arcs_in step.now).entries (get_or places.old p 0)
        (label_in labels.now.of p)) (get_or places.old p 0)) }
{
    for i in (0..entry_count(step)).rev() {
        let e = entry(step, i);
        send_moved(labels, places, moved, labels.of[e.base as usize], e.from);
    }
}
