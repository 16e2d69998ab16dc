// Reading the input as far as the output looks at it: two bytes, the sheet that they name, and behind an accepted sheet
// the commands. So a refused sheet is answered when it has been read, and the end of the input is asked for once.
#![tactic(auto)]

ghost use Rattle.std.specs.Prelude.{◌≡◌, ◌≤◌, ◌-◌, length, take, IfOk};
ghost use Rattle.output.specs.Input.{looked_at, max_input};
ghost use Rattle.reading.specs.Got.{got_bytes, IfFull};

use format::word_at;
use output::MAX_COMMANDS;
use sheet::check_sheet;
use std::io;
use std::io::Read;

// How many bytes are there, and why no more: they are all that were asked for, the input has ended, or a read failed.
#[derive(Clone, Copy)]
pub enum Got {
    Full(usize),
    Ended(usize),
    Failed(usize),
}

// One read into the room from `at` to `to`: how many bytes it gave, 0 at the end of the input. What lies before stays. `read_to`
// sees to the two.
fn read_part<R: Read>(room: &mut [u8], at: usize, to: usize, input: &mut R) -> io::Result<usize>
    requires { (at ≤ to) × (to ≤ length room.old) }
    ensures bound { IfOk result (λ n. n ≤ to - at) }
    ensures before { take at room.new ≡ take at room.old }
{
    input.read(&mut room[at..to])
}

// Reads until the room is filled from `from` to `to`, the input ends or a read fails. What lies before stays. `read_input`
// sees to the two.
fn read_to<R: Read>(room: &mut [u8], from: usize, to: usize, input: &mut R) -> Got
    requires { (from ≤ to) × (to ≤ length room.old) }
    ensures bound { got_bytes result ≤ to }
    ensures full { IfFull result (λ n. n ≡ to) }
    ensures before { take from room.new ≡ take from room.old }
{
    let mut at = from;
    while at < to {
        match read_part(room, at, to, input) {
            Ok(0) => return Got::Ended(at),
            Ok(n) => at += n,
            Err(_) => return Got::Failed(at),
        }
    }
    Got::Full(at)
}

// All that a file has, or as much of it as the room holds.
pub fn read_all<R: Read>(input: &mut R, room: &mut [u8]) -> Got
    ensures { got_bytes result ≤ length room.old }
{
    let n = room.len();
    read_to(room, 0, n, input)
}

// The input: where reading stops with nothing left to ask for, it has exactly what the output looks at. `main` lends a room
// of that length.
pub fn read_input<R: Read>(input: &mut R, room: &mut [u8]) -> Got
    requires { max_input ≤ length room.old }
    ensures n_in_bounds { got_bytes result ≤ length room.old }
    ensures n_value { IfFull result (λ n. n ≡ looked_at (take n room.new)) }
{
    let first = read_to(room, 0, 2, input);
    let Got::Full(_) = first else {
        return first;
    };
    let sheet_end = 2 + word_at(room, 0);
    let second = read_to(room, 2, sheet_end, input);
    let Got::Full(_) = second else {
        return second;
    };
    let checked = check_sheet(&room[2..sheet_end]);
    if checked.number() != 0 {
        return second;
    }
    read_to(room, sheet_end, sheet_end + 3 * MAX_COMMANDS, input)
}
