// A command in place, by its bytes: 21, 11, or what its kind does (document 01, commands, record, tally).
// The record is sound and the sheet accepted; nothing of either is checked again.
#![tactic(auto)]

ghost use Rattle.marking.specs.Form.{bonds_of};
ghost use Rattle.labels.specs.Labelled.{Labelled};
ghost use Rattle.net.specs.Journal.{act};
ghost use Rattle.format.specs.Parts.{bases_of};
ghost use Rattle.format.specs.NetOf.{net_of};
ghost use Rattle.sound.specs.Soundness.{journal_in, Kept};
ghost use Rattle.commands.specs.Doing.{Did};

use acting::{fire_in, undo_in};
use commands::{Command, Done, decode, refused_in};
use firings::Firings;
use labels::Labels;
use marking::Marking;
use net::{Key, MAX_BASES};

// A command in place, on a sound record and an accepted sheet: nothing of either is checked again. The labels go with what is held
// from command to command: they are those of its bonds before and after.
pub fn perform_in(
    sheet: &[u8],
    bytes: &[u8],
    m: &mut Marking,
    f: &mut Firings,
    movers: &mut [u16; MAX_BASES],
    labels: &mut Labels,
    given: Key,
) -> Done
    requires { Kept sheet.now m.old f.old given movers.old
        × Labelled labels.old.of labels.old.members (bonds_of m.old) }
    ensures did { Did (act (net_of sheet.now) (journal_in (bases_of sheet.now) m.old f.old given) bytes.now)
        result m.new f.new movers.new }
    ensures labelled { Labelled labels.new.of labels.new.members (bonds_of m.new) }
{
    if bytes.len() < 3 {
        return refused_in(21, given);
    }
    let Some(c) = decode(bytes) else {
        return refused_in(11, given);
    };
    match c {
        Command::Fire(t) => fire_in(sheet, t, m, f, movers, labels, given),
        Command::Undo(k) => undo_in(sheet, k, m, f, movers, labels, given),
        Command::UndoLast => {
            let k = f.last_key();
            undo_in(sheet, k, m, f, movers, labels, given)
        }
    }
}
