// Live firings run forward alone from a sheet's start (document 01, commands, record, tally: when a record is sound): whether each is accepted
// with the bases that it moved, and whether they end in a given marking.
#![tactic(auto)]

ghost use Rattle.std.specs.Prelude.{◌≡◌, true, ◌&&◌, ℕ, ◌^◌, ◌<◌, ◌≤◌, get_or};
ghost use Rattle.net.specs.Limits.{max_live, max_bonds};
ghost use Rattle.net.specs.Checks.{clear};
ghost use Rattle.net.specs.Net as N;
ghost use Rattle.net.specs.Net.{arcs_of};
ghost use Rattle.net.specs.Firing.{fire};
ghost use Rattle.net.specs.History.{same_marking, accepts, replays};
ghost use Rattle.format.specs.Parts.{bases_of};
ghost use Rattle.format.specs.NetOf.{net_of};
ghost use Rattle.sheet.specs.Checks.{sheet_checks};
ghost use Rattle.labels.specs.Labelled.{Labelled};
ghost use Rattle.marking.specs.Form.{bonds_of, marking_of, laid};
ghost use Rattle.firings.specs.Lines.{as_line, lines_in};
ghost use Rattle.steps.specs.Placed.{Placed};

use firings::{Firing, Firings};
use format::base_count;
use fresh_marking::start_marking;
use labels::Labels;
use marking::Marking;
use marking_form::same_marking;
use steps::{enable_refusal, fire_in};

// Runs one firing forward: whether it is accepted and moves just its bases. Where it is, m is the marking after it.
// `replay` has an accepted sheet, a good marking of it, its labels, and a firing in its form.
fn replay_one(sheet: &[u8], f: Firing, m: &mut Marking, labels: &mut Labels) -> bool
    requires { Placed sheet.now m.old
        × Labelled labels.old.of labels.old.members (bonds_of m.old) × (f.moved < 2 ^ bases_of sheet.now) }
    ensures value { result ≡ accepts (net_of sheet.now) (marking_of (bases_of sheet.now) m.old) (as_line (bases_of sheet.now) f) }
    ensures after { result ≡ true → (m.new ≡ laid (fire (bases_of sheet.now)
        (arcs_of (net_of sheet.now) (as_line (bases_of sheet.now) f).transition)
        (marking_of (bases_of sheet.now) m.old)))
        × Labelled labels.new.of labels.new.members (bonds_of m.new) }
{
    let t = f.transition_of();
    if enable_refusal(sheet, m, labels, t) != 0 {
        return false;
    }
    let moved = fire_in(sheet, m, labels, t);
    moved == f.moved
}

// Runs the live firings forward in their order, from the marking m. Where all are accepted, m is the marking after them.
// `runs_to` has what this asks.
fn replay(sheet: &[u8], f: &Firings, m: &mut Marking, labels: &mut Labels) -> bool
    requires placed { Placed sheet.now m.old
        × Labelled labels.old.of labels.old.members (bonds_of m.old) × (f.now.live ≤ max_live) }
    requires by_index { (i : ℕ) → i < f.now.live → get_or f.now.moved i 0 < 2 ^ bases_of sheet.now }
    ensures z_value { (z : N.Marking) → replays (net_of sheet.now)
        (marking_of (bases_of sheet.now) m.old) (lines_in (bases_of sheet.now) f.now) z
        ≡ (result && same_marking (marking_of (bases_of sheet.now) m.new) z) }
    ensures count_le_max_bonds { result ≡ true → m.new.count ≤ max_bonds }
{
    for i in 0..f.live {
        let one = f.firing_at(i);
        if !replay_one(sheet, one, m, labels) {
            return false;
        }
    }
    true
}

// Whether the live firings, run forward alone from the sheet's start, are accepted and end in the marking m.
// `is_sound` has an accepted sheet, and has seen that marking and firings are in their form.
pub fn runs_to(sheet: &[u8], f: &Firings, m: &Marking) -> bool
    requires sheet_value { (clear (sheet_checks sheet.now) ≡ true) × (f.now.live ≤ max_live) × (m.now.count ≤ max_bonds) }
    requires by_index { (i : ℕ) → i < f.now.live → get_or f.now.moved i 0 < 2 ^ bases_of sheet.now }
    ensures { result ≡ replays (net_of sheet.now) (net_of sheet.now).start
        (lines_in (bases_of sheet.now) f.now) (marking_of (bases_of sheet.now) m.now) }
{
    let begin = start_marking(sheet);
    let mut labels = Labels::of_marking(&begin);
    let mut end = begin;
    if !replay(sheet, f, &mut end, &mut labels) {
        return false;
    }
    let n = base_count(sheet) as usize;
    same_marking(n, &end, m)
}
