// The live firing at a place taken back, in place on what is held of a record that is sound for an accepted sheet.
// Whether another was built on it is not looked at: callers have seen that none was, or ask what would be held.
#![tactic(auto)]

ghost use Rattle.std.specs.Prelude.{◌-◌, ◌<◌};
ghost use Rattle.net.specs.declared.Key.{Key};
ghost use Rattle.marking.specs.Form.{bonds_of};
ghost use Rattle.labels.specs.Labelled.{Labelled};
ghost use Rattle.sound.specs.Soundness.{Passed};
ghost use Rattle.undoing.specs.Back.{UndoneAt};

use firings::Firings;
use labels::Labels;
use marking::Marking;
use steps::undo_in;

// Takes the live firing at i back: the marking as `steps` does it, then the later firings close up.
pub fn undo_at(sheet: &[u8], m: &mut Marking, f: &mut Firings, labels: &mut Labels, i: usize)
    requires passed { (k : Key) × Passed sheet.now m.old f.old k }
    requires labelled { Labelled labels.old.of labels.old.members (bonds_of m.old) × (i < f.old.live) }
    ensures undone_at { UndoneAt sheet.now m.old f.old i m.new f.new }
    ensures labelled_2 { Labelled labels.new.of labels.new.members (bonds_of m.new) }
{
    let one = f.firing_at(i);
    undo_in(sheet, m, labels, one.transition_of(), one.moved);
    f.close_up(i);
}
