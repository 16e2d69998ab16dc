// A whole list of commands, given as bytes, on a sound record: each is performed once, and the session is not replayed.
// The answers go as numbers into two lent slices, from entry 0 on: a word and a value each.
ghost use Rattle.std.specs.Prelude.{◌≤◌, length};
ghost use Rattle.command_list.specs.Commands.{how_many};
ghost use Rattle.session.specs.Records.{Sound};
ghost use Rattle.session.specs.Lists.{ran_of, RunGives};

use crate::{Record, record_with};
use runs::run_on;
use tally::Tally;

// The record and the tally after a list of commands.
#[derive(Clone, Copy)]
pub struct Ran {
    pub session: Record,
    pub tally: Tally,
}

// All commands of the bytes, in order. The caller has a sound record on an accepted sheet, and lists with an entry for each command:
// the program sees to both.
pub fn run(
    r: Record,
    sheet: &[u8],
    commands: &[u8],
    t: Tally,
    words: &mut [u8],
    values: &mut [u16],
) -> Ran
    requires { Sound sheet.now r × (how_many commands.now ≤ length words.old) × (how_many commands.now ≤ length values.old) }
    ensures { RunGives (ran_of sheet.now commands.now r t)
        words.old values.old result.session result.tally words.new values.new }
{
    let done = run_on(sheet, commands, t, r.held(), words, values);
    Ran {
        session: record_with(done.held),
        tally: done.tally,
    }
}
