// A list of commands as bytes (document 01, commands, record, tally): three bytes each, a last one of fewer among them.
#![tactic(auto)]

ghost use Rattle.std.specs.Prelude.{◌≡◌, ◌<◌, length, take, drop};
ghost use Rattle.command_list.specs.Commands.{how_many};
ghost use Rattle.command_list.specs.Block.{unfit_for, turned_by};

// The most commands of a block.
const MAX_BLOCK: usize = 1000;

// The bytes of the command from `at` on: three, or those that are left. `run` asks only below the length.
pub fn command_at(commands: &[u8], at: usize) -> &[u8]
    requires { at < length commands.now }
    ensures { result.now ≡ take 3 (drop at commands.now) }
{
    let rest = &commands[at..];
    &rest[..rest.len().min(3)]
}

// How many commands the bytes hold, a last one cut short among them.
pub fn how_many(commands: &[u8]) -> usize
    ensures { result ≡ how_many commands.now }
{
    commands.len().div_ceil(3)
}

// Refusal 26 of a block (document 02, T-02), for lists of so many entries.
fn unfit(block: &[u8], words: usize, values: usize) -> bool
    ensures { result ≡ unfit_for block.now words values }
{
    let n = how_many(block);
    MAX_BLOCK < n || words < n || values < n
}

// What turns a block away: the number of 1 to 10 that the caller has found, or 26; 0 where nothing does.
pub fn block_refusal(refusal: u8, block: &[u8], words: usize, values: usize) -> u8
    ensures { result ≡ turned_by refusal block.now words values }
{
    if refusal != 0 {
        return refusal;
    }
    if unfit(block, words, values) { 26 } else { 0 }
}
