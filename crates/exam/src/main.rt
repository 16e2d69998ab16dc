// The exam program (document 01): reads what the output looks at, has the whole output written into a buffer, and writes it
// once. What the output is, byte for byte, is `output` in the crate output; how input is read is the crate reading.
#![tactic(auto)]

ghost use Rattle.std.specs.Prelude.{◌≡◌, length};
ghost use Rattle.output.specs.Input.{max_input};

use output::{MAX_OUTPUT, write_output};
use reading::{Got, read_input};

// The most that is looked at: the sheet's length, the longest sheet that it can name, the commands.
const MAX_INPUT: usize = 262142;

// Room for the input, and room for the output. Only their lengths matter.
fn input_room() -> [u8; MAX_INPUT]
    ensures { max_input ≡ length result }
{
    [0; MAX_INPUT]
}

// Kept: written out in `answer`, the check unfolds this many zeros.
fn output_room() -> [u8; MAX_OUTPUT] {
    [0; MAX_OUTPUT]
}

// Writes the text, or says on standard error that it is not whole.
fn print_all(text: &[u8]) {
    if !io::write_all(1, text) {
        io::write_all(2, b"exam: the output could not be written whole\n");
    }
}

// Writes the output of an input.
fn answer(input: &[u8]) {
    let mut out = output_room();
    let length = write_output(input, &mut out);
    print_all(&out[..length]);
}

// An input that could not be read is answered on standard error alone.
fn main(rt: HostRuntime) {
    let mut input = input_room();
    match read_input(&mut rt.stdin(), &mut input) {
        Got::Full(n) | Got::Ended(n) => answer(&input[..n]),
        Got::Failed(_) => {
            io::write_all(2, b"exam: the input could not be read\n");
        }
    }
}
