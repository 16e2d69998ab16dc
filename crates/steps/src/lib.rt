// A transition of an accepted sheet on a good marking, beside labels by its bonds: whether it is enabled, firing and taking
// back in place. The transition's bytes are found in the sheet and read there.
#![tactic(auto)]

ghost use Rattle.std.specs.Prelude.{◌≡◌, ◌<◌};
ghost use Rattle.net.specs.Limits.{max_bases};
ghost use Rattle.net.specs.Checks.{first};
ghost use Rattle.net.specs.Net.{arcs_of};
ghost use Rattle.net.specs.Firing.{moved, fire, undo};
ghost use Rattle.net.specs.Journal.{enable_checks};
ghost use Rattle.format.specs.Parts.{bases_of, transitions_of};
ghost use Rattle.format.specs.NetOf.{net_of};
ghost use Rattle.words.specs.Sets.{set_of, packed};
ghost use Rattle.labels.specs.Labelled.{Parted, Labelled};
ghost use Rattle.marking.specs.Form.{bonds_of, marking_of, laid};
ghost use Rattle.steps.specs.Placed.{Placed};

use enabling::{bond_absent, bond_present, misplaced, torn_apart};
use format::{base_count, transition_bytes, transition_count};
use groups::moved_word;
use labels::Labels;
use marking::Marking;
use net::Transition;

// The first of 12 to 16 that holds; 0 where the marking enables the transition.
// Callers have checked the sheet, hold a good marking of it and keep labels by its bonds, here and below.
pub fn enable_refusal(sheet: &[u8], m: &Marking, labels: &Labels, t: Transition) -> u8
    requires { Placed sheet.now m.now × Parted max_bases labels.now.of (bonds_of m.now) }
    ensures { result ≡ first (enable_checks (net_of sheet.now) (marking_of (bases_of sheet.now) m.now) t) }
{
    if transition_count(sheet) as u16 <= t.0 {
        return 12;
    }
    let step = transition_bytes(sheet, t);
    if misplaced(step, m) {
        return 13;
    }
    if bond_absent(step, m) {
        return 14;
    }
    if bond_present(step, m) {
        return 15;
    }
    if torn_apart(step, m, &labels.of) {
        return 16;
    }
    0
}

// Fires the transition, and answers the set of the moved bases. These are read off the labels before they join.
// Callers have a transition that is on the sheet, here and below.
pub fn fire_in(sheet: &[u8], m: &mut Marking, labels: &mut Labels, t: Transition) -> u64
    requires { Placed sheet.now m.old
        × Labelled labels.old.of labels.old.members (bonds_of m.old) × (t.0 < transitions_of sheet.now) }
    ensures fired { m.new ≡ laid (fire (bases_of sheet.now) (arcs_of (net_of sheet.now) t)
        (marking_of (bases_of sheet.now) m.old)) }
    ensures moved_value { result ≡ packed (moved (bases_of sheet.now) (arcs_of (net_of sheet.now) t)
        (marking_of (bases_of sheet.now) m.old)) }
    ensures labelled { Labelled labels.new.of labels.new.members (bonds_of m.new) }
{
    let n = base_count(sheet) as usize;
    let step = transition_bytes(sheet, t);
    let moved = moved_word(step, labels);
    engine::fire_in(step, n, m, labels);
    moved
}

// Takes the firing of the transition that moved those bases back.
pub fn undo_in(sheet: &[u8], m: &mut Marking, labels: &mut Labels, t: Transition, moved: u64)
    requires { Placed sheet.now m.old
        × Labelled labels.old.of labels.old.members (bonds_of m.old) × (t.0 < transitions_of sheet.now) }
    ensures undone { m.new ≡ laid (undo (bases_of sheet.now) (arcs_of (net_of sheet.now) t) (set_of (bases_of sheet.now) moved)
        (marking_of (bases_of sheet.now) m.old)) }
    ensures labelled { Labelled labels.new.of labels.new.members (bonds_of m.new) }
{
    let n = base_count(sheet) as usize;
    let step = transition_bytes(sheet, t);
    engine::undo_in(step, n, m, labels, moved);
}
