// Firing and taking back in place (document 01, commands, record, tally): what a command of kind 1, or of kind 2 or 3, does to what a
// record holds.
#![tactic(auto)]

ghost use Rattle.marking.specs.Form.{bonds_of};
ghost use Rattle.labels.specs.Labelled.{Labelled};
ghost use Rattle.format.specs.Parts.{bases_of};
ghost use Rattle.format.specs.NetOf.{net_of};
ghost use Rattle.sound.specs.Soundness.{journal_in, Kept};
ghost use Rattle.commands.specs.Doing.{fire_act, undo_act, Did};

use commands::{Answer, Done, refused_in};
use firings::{Firing, Firings};
use labels::Labels;
use marking::Marking;
use movers::table::{mark, mark_back, on_top};
use net::{Key, MAX_BASES, MAX_KEY, MAX_LIVE, Transition};
use steps::enable_refusal;
use undoing::undo_at;

// Kind 1, in place on what a record holds: marking, live firings and last movers; the highest key given goes by value, and beside
// them go the labels of the bonds.
// The record is sound and the sheet accepted, here and below: `perform` and a list of commands see to it.
pub fn fire_in(
    sheet: &[u8],
    t: Transition,
    m: &mut Marking,
    f: &mut Firings,
    movers: &mut [u16; MAX_BASES],
    labels: &mut Labels,
    given: Key,
) -> Done
    requires { Kept sheet.now m.old f.old given movers.old
        × Labelled labels.old.of labels.old.members (bonds_of m.old) }
    ensures did { Did (fire_act (net_of sheet.now) (journal_in (bases_of sheet.now) m.old f.old given) t)
        result m.new f.new movers.new }
    ensures labelled { Labelled labels.new.of labels.new.members (bonds_of m.new) }
{
    let refusal = enable_refusal(sheet, m, labels, t);
    if refusal != 0 {
        return refused_in(refusal, given);
    }
    if MAX_LIVE <= f.live {
        return refused_in(17, given);
    }
    if MAX_KEY <= given.0 {
        return refused_in(18, given);
    }
    let moved = steps::fire_in(sheet, m, labels, t);
    let firing = Firing {
        transition: t.0 as u8,
        key: Key(given.0 + 1),
        moved,
    };
    f.push(firing);
    mark(movers, moved, firing.key);
    Done {
        answer: Answer::Fired,
        key: firing.key,
        given: firing.key,
    }
}

// Kinds 2 and 3 in place, of the firing of that key. Whether another was built on it, refusal 20, is what its lamp says: only the
// last movers of its own bases are looked at (document 02, T-06).
pub fn undo_in(
    sheet: &[u8],
    key: Key,
    m: &mut Marking,
    f: &mut Firings,
    movers: &mut [u16; MAX_BASES],
    labels: &mut Labels,
    given: Key,
) -> Done
    requires { Kept sheet.now m.old f.old given movers.old
        × Labelled labels.old.of labels.old.members (bonds_of m.old) }
    ensures did { Did (undo_act (net_of sheet.now) (journal_in (bases_of sheet.now) m.old f.old given) key)
        result m.new f.new movers.new }
    ensures labelled { Labelled labels.new.of labels.new.members (bonds_of m.new) }
{
    let Some(i) = f.index_of(key) else {
        return refused_in(19, given);
    };
    let set = f.moved[i];
    if !on_top(movers, set, key) {
        return refused_in(20, given);
    }
    mark_back(movers, f, i, set);
    undo_at(sheet, m, f, labels, i);
    Done {
        answer: Answer::Undone,
        key,
        given,
    }
}
