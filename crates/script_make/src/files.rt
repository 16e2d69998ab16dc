// A script as the exam program's input and back, on standard output: `desk make` and `desk show`.
// Each answers whether all of it was written.
ghost use Rattle.std.specs.Prelude.{◌≤◌, length};

use crate::input::{input_sheet, put_command, put_input};
use io::{print_decimal, write_all};
use script_lines::say::print_slip;
use sheet_print::{Printed, print_sheet};
use wording::part::{behind, front};
use wording::put::Text;
use wording::refused::put_refused;

// Room for an input as long as any that is made: the sheet, and three bytes for each line of a script.
const INPUT: usize = 1179648;

// Kept: in `make` the check unfolds this many zeros, and runs out of stack.
fn input_room() -> [u8; INPUT] {
    [0; INPUT]
}

// Writes the input that a script says; a mistake is said on standard error, and nothing is written.
pub fn make(name: &[u8], text: &[u8], sheet: &mut [u8]) -> bool
    requires { 65536 ≤ length sheet.old }
{
    let mut room = input_room();
    let mut out = Text::new(&mut room);
    match put_input(text, sheet, &mut out) {
        Ok(()) => write_all(1, out.bytes()),
        Err(m) => print_slip(2, name, m.line, m.slip),
    }
}

// ---- showing

const SHOWN: usize = 1048576;

// Kept: as `input_room`.
fn shown_room() -> [u8; SHOWN] {
    [0; SHOWN]
}

// A command as a line.
fn print_command(bytes: &[u8]) -> bool {
    let mut room = [0; 64];
    let mut line = Text::new(&mut room);
    put_command(&mut line, bytes);
    line.put(b'\n');
    write_all(1, line.bytes())
}

// A session of the commands of an input, where there are any.
fn print_session(commands: &[u8]) -> bool {
    if commands.is_empty() {
        return true;
    }
    let mut whole = write_all(1, b"session\n");
    for command in commands.chunks(3) {
        whole &= print_command(command);
    }
    whole
}

// A sheet's text; or, on standard error, why it is refused.
fn print_text(name: &[u8], sheet: &[u8]) -> bool {
    let mut text = shown_room();
    match print_sheet(sheet, &mut text) {
        Printed::Text(n) => write_all(1, b"sheet\n") & write_all(1, front(&text, n)),
        Printed::Refused(k) => print_refusal(name, sheet, k),
    }
}

fn print_refusal(name: &[u8], sheet: &[u8], k: u8) -> bool {
    let mut room = [0; 256];
    let mut reason = Text::new(&mut room);
    put_refused(&mut reason, sheet, k);
    let mut whole = write_all(2, name);
    whole &= write_all(2, b": refused ");
    whole &= print_decimal(2, u64::from(k));
    whole &= write_all(2, b": ");
    whole &= write_all(2, reason.bytes());
    write_all(2, b"\n") & whole
}

// Prints the script that an input says: its sheet, and a session of its commands where there are any.
pub fn show(name: &[u8], input: &[u8]) -> bool {
    let sheet = input_sheet(input);
    print_text(name, sheet) & print_session(behind(input, 2 + sheet.len()))
}
