// The commands in blocks of 1,000 by the customer's block call, which checks the sheet and the whole record once a block; and all
// as one list, with neither checked.
ghost use Rattle.std.specs.Prelude.{◌≡◌, ◌≤◌, length};

use crate::sum::{ZERO, print_sum, summed_all};
use command_list::how_many;
use session::block::{BlockCounted, block_with};
use session::run::run;
use session_start::start;
use sheet::check_sheet;

// The bytes of a block of 1,000 commands.
const BLOCK: usize = 3000;

// The most commands of an input.
const MOST: usize = 21846;

fn word_room() -> [u8; MOST]
    ensures { length result ≡ 21846 }
{
    [0u8; MOST]
}

fn value_room() -> [u16; MOST]
    ensures { length result ≡ 21846 }
{
    [0u16; MOST]
}

// All commands, from a fresh record and a tally of zeros, here and below.
pub fn run_blocks(sheet: &[u8], commands: &[u8]) {
    let mut session = start(sheet).session;
    let mut counts = ZERO;
    let mut words = [0u8; 1000];
    let mut values = [0u16; 1000];
    let mut sum = 0;
    for block in commands.chunks(BLOCK) {
        let done = block_with(session, sheet, block, counts, &mut words, &mut values);
        sum = summed_all(sum, &words, &values, done.outcome.count);
        session = done.outcome.session;
        counts = done.tally;
    }
    print_sum(sum, counts);
}

// Up to 1,000 commands as one block: the record and the tally that they leave.
pub fn one_block(sheet: &[u8], commands: &[u8]) -> BlockCounted {
    let fresh = start(sheet).session;
    let mut words = [0u8; 1000];
    let mut values = [0u16; 1000];
    block_with(fresh, sheet, commands, ZERO, &mut words, &mut values)
}

// All commands as one list. `main` has at most 65,536 bytes.
pub fn run_list(sheet: &[u8], commands: &[u8])
    requires { length commands.now ≤ 65536 }
{
    let checked = check_sheet(sheet);
    let refusal = checked.number();
    if refusal != 0 {
        return;
    }
    let first = start(sheet);
    let mut words = word_room();
    let mut values = value_room();
    let ran = run(
        first.session,
        sheet,
        commands,
        ZERO,
        &mut words,
        &mut values,
    );
    let sum = summed_all(0, &words, &values, how_many(commands));
    print_sum(sum, ran.tally);
}
