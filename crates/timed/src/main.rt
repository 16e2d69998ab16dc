// For the measurement (bench/run): runs the commands of its input in each of the ways that its words name, and prints the sum of
// the keys (of the steps for `listing`) and the tally for each. Reads what the exam program reads, up to 65,536 bytes.
// `singly`: each command by the single call; `blocks`: by the block call, 1,000 at a time; `run`: as one list, nothing checked;
// `way`: as one block, and then ten times the way back to the start places; `listing`: as one block, and then ten times the listing.
// What stdout has was printed by the plain Rust program there, once for each of the first three words. For `way` it is ten times the
// sum of the live keys, since all have to go, and for `listing` ten times the sum of the live firings' steps.
#![tactic(auto)]

mod asked;
mod blocks;
mod singly;
mod sum;

ghost use Rattle.std.specs.Prelude.{◌≤◌, length};

use asked::{run_lists, run_ways};
use blocks::{run_blocks, run_list};
use format::word_at;
use singly::run_singly;
use std::env::{Env, FillError};

// The first letter of the word at i.
fn letter_of(rt: &HostRuntime, i: usize) -> u8 {
    let mut word = io::buffer();
    let _ = rt.arg(i, &mut word);
    word[0]
}

// Whether there is a word at i.
fn is_given(rt: &HostRuntime, i: usize) -> bool {
    let mut word = [0u8; 1];
    !matches!(rt.arg(i, &mut word), Err(FillError::NotPresent))
}

// The commands in the way that the word at i names.
fn run_as(rt: &HostRuntime, i: usize, sheet: &[u8], commands: &[u8])
    requires { length commands.now ≤ 65536 }
{
    match letter_of(rt, i) {
        b's' => run_singly(sheet, commands),
        b'b' => run_blocks(sheet, commands),
        b'r' => run_list(sheet, commands),
        b'w' => run_ways(sheet, commands),
        b'l' => run_lists(sheet, commands),
        _ => (),
    }
}

fn run_all(rt: &HostRuntime, sheet: &[u8], commands: &[u8])
    requires { length commands.now ≤ 65536 }
{
    for i in 1..usize::MAX {
        if !is_given(rt, i) {
            return;
        }
        run_as(rt, i, sheet, commands);
    }
}

// The sheet and the commands behind its length: missing bytes shorten the sheet.
fn parted(rt: &HostRuntime, input: &[u8])
    requires { length input.now ≤ 65536 }
{
    let n = input.len();
    let begin = n.min(2);
    let end = n.min(2 + word_at(input, 0));
    if begin <= end {
        run_all(rt, &input[begin..end], &input[end..]);
    }
}

fn main(rt: HostRuntime) {
    let mut input = io::large_buffer();
    let n = io::read_full(0, &mut input);
    parted(&rt, &input[..n]);
}
