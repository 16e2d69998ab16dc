// The whole output of the exam program, from its whole input (document 01, the exam program): every command is performed
// once, on the record that the one before handed back, and the session is not replayed.
#![tactic(auto)]

ghost use Rattle.std.specs.Prelude.{◌≡◌, true, ◌+◌, ◌*◌, ◌<◌, ◌≤◌, length, take, drop};
ghost use Rattle.net.specs.Checks.{clear};
ghost use Rattle.format.specs.NetOf.{net_of};
ghost use Rattle.sheet.specs.Checks.{sheet_checks};
ghost use Rattle.session.specs.Commands.{fresh_of};
ghost use Rattle.command_list.specs.Commands.{commands_in};
ghost use Rattle.text.specs.Writes.{Filled};
ghost use Rattle.report.specs.Said.{max_commands};
ghost use Rattle.output.specs.Output.{sheet_in, command_bytes, refused_sheet, session_text, output, max_output};

use command_list::how_many;
use final_lines::put_closing;
use format::{base_count, word_at};
use net::Verdict;
use report::put_answers;
use session::Record;
use session::run::run;
use session_start::start;
use tally::Tally;
use text::{put_digits, put_word};

// How many commands are read, and the longest output: the room that `write_output` asks for.
pub const MAX_COMMANDS: usize = 65535;

// How many bytes they have.
const COMMAND_BYTES: usize = 3 * MAX_COMMANDS;

pub const MAX_OUTPUT: usize = 1630843;

// At most so many bytes of a list, from a position on: those that are there.
fn bytes_from(s: &[u8], from: usize, most: usize) -> &[u8]
    ensures { result.now ≡ take most (drop from s.now) }
{
    let rest = &s[from.min(s.len())..];
    &rest[..most.min(rest.len())]
}

// The sheet: as many bytes as the first two say, or those that are there.
fn sheet_in(input: &[u8]) -> &[u8]
    ensures { result.now ≡ sheet_in input.now }
{
    bytes_from(input, 2, word_at(input, 0))
}

// The bytes of the commands: what comes after the sheet, as far as commands are read.
fn commands_in(input: &[u8]) -> &[u8]
    ensures { result.now ≡ command_bytes input.now }
{
    bytes_from(input, 2 + word_at(input, 0), COMMAND_BYTES)
}

// Room for a word and for a value of each command. Only the lengths matter.
fn word_room() -> [u8; MAX_COMMANDS]
    ensures { max_commands ≡ length result }
{
    [0; MAX_COMMANDS]
}

fn value_room() -> [u16; MAX_COMMANDS]
    ensures { max_commands ≡ length result }
{
    [0; MAX_COMMANDS]
}

// A session on an accepted sheet, from a fresh record and a tally of zeros. `write_output` has started it.
fn put_session(buf: &mut [u8], sheet: &[u8], commands: &[u8], r: Record) -> usize
    requires { (max_output ≤ length buf.old) × (length commands.now ≤ 3 * max_commands)
        × (clear (sheet_checks sheet.now) ≡ true) × (r ≡ fresh_of sheet.now) }
    ensures filled { Filled (session_text (net_of sheet.now) (commands_in commands.now))
        buf.old result buf.new }
    ensures upper_bound { result ≤ max_output }
{
    let mut words = word_room();
    let mut values = value_room();
    let zero = Tally {
        fired: 0,
        undone: 0,
        refused: 0,
    };
    let ran = run(r, sheet, commands, zero, &mut words, &mut values);
    let at = put_answers(buf, &words, &values, how_many(commands));
    put_closing(buf, at, base_count(sheet) as usize, ran.session, ran.tally)
}

// `sheet refused` and the number. `write_output` sees to the room.
fn put_refused(buf: &mut [u8], n: u8) -> usize
    requires { max_output ≤ length buf.old }
    ensures filled { Filled (refused_sheet n) buf.old result buf.new }
    ensures upper_bound { result ≤ max_output }
{
    let a = put_word(buf, 0, b"sheet refused ");
    let b = put_digits(buf, a, n as u32, 10);
    put_word(buf, b, b"\n")
}

// The whole output, from byte 0 on; the rest of the buffer stays as it was. The program lends a buffer of MAX_OUTPUT bytes.
pub fn write_output(input: &[u8], buf: &mut [u8]) -> usize
    requires { max_output ≤ length buf.old }
    ensures filled { Filled (output input.now) buf.old result buf.new }
    ensures upper_bound { result ≤ max_output }
{
    let sheet = sheet_in(input);
    let begun = start(sheet);
    match begun.answer {
        Verdict::Accepted => put_session(buf, sheet, commands_in(input), begun.session),
        Verdict::Refused(n) => put_refused(buf, n),
    }
}
