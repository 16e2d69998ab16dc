// Commands on what a record holds: one command, and a whole list of them given as bytes, on a sound record and an accepted sheet.
// Each command changes what is held in place; the labels of its bonds go with it.
#![tactic(auto)]

ghost use Rattle.std.specs.Prelude.{◌≡◌, ◌≤◌, length};
ghost use Rattle.net.specs.Journal.{act};
ghost use Rattle.format.specs.Parts.{bases_of};
ghost use Rattle.format.specs.NetOf.{net_of};
ghost use Rattle.marking.specs.Form.{bonds_of};
ghost use Rattle.labels.specs.Labelled.{Labelled};
ghost use Rattle.sound.specs.Soundness.{journal_in, Kept};
ghost use Rattle.command_list.specs.Commands.{how_many, commands_in};
ghost use Rattle.runs.specs.Running.{performed_of, StepDid, RanOn};

use command_list::{command_at, how_many};
use commands::{Answer, value_of, word_of};
use firings::Firings;
use labels::Labels;
use marking::Marking;
use net::{Key, MAX_BASES};
use performing::perform_in;
use tally::{Tally, counted};

// What a record holds: a marking, the live firings, for each base its last mover, and the highest key given.
#[derive(Clone, Copy)]
pub struct Held {
    pub marking: Marking,
    pub firings: Firings,
    pub movers: [u16; MAX_BASES],
    pub given: Key,
}

// What one command gives: the answer, the key (0 where it is refused), and what is held then.
#[derive(Clone, Copy)]
pub struct Performed {
    pub answer: Answer,
    pub key: Key,
    pub held: Held,
}

// What one command of a list came to: the tally after it, and its answer as a word and a value.
#[derive(Clone, Copy)]
struct Stepped {
    pub tally: Tally,
    pub word: u8,
    pub value: u16,
}

// What is held, and the tally, after a list of commands.
#[derive(Clone, Copy)]
pub struct Ran {
    pub held: Held,
    pub tally: Tally,
}

// One command. What it is given is sound and the sheet accepted, here and below: the record's calls see to it.
pub fn perform_on(sheet: &[u8], bytes: &[u8], before: Held) -> Performed
    requires { Kept sheet.now before.marking before.firings before.given before.movers }
    ensures { result ≡ performed_of (act (net_of sheet.now)
        (journal_in (bases_of sheet.now) before.marking before.firings before.given) bytes.now) }
{
    let mut held = before;
    let mut labels = Labels::of_marking(&held.marking);
    let done = perform_in(
        sheet,
        bytes,
        &mut held.marking,
        &mut held.firings,
        &mut held.movers,
        &mut labels,
        held.given,
    );
    held.given = done.given;
    Performed {
        answer: done.answer,
        key: done.key,
        held,
    }
}

// One command of a list in place, with the tally by value. `run_on` sees to it that what is held is sound and the labels are those
// of its bonds.
fn step_in(sheet: &[u8], bytes: &[u8], t: Tally, held: &mut Held, labels: &mut Labels) -> Stepped
    requires { Kept sheet.now held.old.marking held.old.firings held.old.given held.old.movers
        × Labelled labels.old.of labels.old.members (bonds_of held.old.marking) }
    ensures step_did { StepDid (act (net_of sheet.now)
        (journal_in (bases_of sheet.now) held.old.marking held.old.firings held.old.given) bytes.now) t result held.new }
    ensures labelled { Labelled labels.new.of labels.new.members (bonds_of held.new.marking) }
{
    let done = perform_in(
        sheet,
        bytes,
        &mut held.marking,
        &mut held.firings,
        &mut held.movers,
        labels,
        held.given,
    );
    held.given = done.given;
    let word = word_of(done.answer);
    let value = value_of(done.answer, done.key);
    let next = counted(t, word);
    Stepped {
        tally: next,
        word,
        value,
    }
}

// All commands of the bytes, in order; the answers as words and values into two lent lists, from entry 0 on. The caller has lists
// with an entry for each command.
pub fn run_on(
    sheet: &[u8],
    commands: &[u8],
    t: Tally,
    before: Held,
    words: &mut [u8],
    values: &mut [u16],
) -> Ran
    requires { Kept sheet.now before.marking before.firings before.given before.movers
        × (how_many commands.now ≤ length words.old) × (how_many commands.now ≤ length values.old) }
    ensures { RanOn (net_of sheet.now) (journal_in (bases_of sheet.now) before.marking before.firings before.given)
        (commands_in commands.now) t words.old values.old result.held result.tally words.new values.new }
{
    let mut held = before;
    let mut labels = Labels::of_marking(&held.marking);
    let mut counts = t;
    for i in 0..how_many(commands) {
        let bytes = command_at(commands, 3 * i);
        let done = step_in(sheet, bytes, counts, &mut held, &mut labels);
        words[i] = done.word;
        values[i] = done.value;
        counts = done.tally;
    }
    Ran {
        held,
        tally: counts,
    }
}
