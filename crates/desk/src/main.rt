// The desk: `desk FILE..` goes through scripts, `desk` through one on standard input; `desk make FILE` writes the exam
// program's input that a script says, `desk show FILE` prints such an input as a script. docs/DESK.md has the lines.
#![tactic(auto)]

mod program;

ghost use Rattle.std.specs.Prelude.{◌<◌, ◌≤◌};

use crate::program::{make_input, run, take_file, take_named};
use script_make::files::show;
use std::env::{Env, FillError};

// Whether an argument is a word.
fn is_word(rt: &HostRuntime, i: usize, word: &[u8]) -> bool {
    let mut arg = io::buffer();
    match rt.arg(i, &mut arg) {
        Ok(n) => &arg[..n] == word,
        Err(_) => false,
    }
}

// Whether there is an argument at i.
fn is_given(rt: &HostRuntime, i: usize) -> bool {
    let mut arg = [0; 1];
    !matches!(rt.arg(i, &mut arg), Err(FillError::NotPresent))
}

// How many arguments there are, the program's name among them.
fn count_arguments(rt: &HostRuntime) -> usize {
    for i in 0..usize::MAX {
        if !is_given(rt, i) {
            return i;
        }
    }
    usize::MAX
}

// The file at i, or a task at i with the file behind it. Answers where the next one stands; the caller has i below count.
fn take_next(rt: &HostRuntime, i: usize, count: usize) -> usize
    requires { i < count }
    ensures { (i < result) × (result ≤ count) }
{
    let next = i + 1;
    if next < count {
        if is_word(rt, i, b"make") {
            take_named(rt, make_input, next);
            return next + 1;
        }
        if is_word(rt, i, b"show") {
            take_named(rt, show, next);
            return next + 1;
        }
    }
    take_named(rt, run, i);
    next
}

fn take_all(rt: &HostRuntime, count: usize) {
    let mut i = 1;
    while i < count {
        i = take_next(rt, i, count);
    }
}

fn main(rt: HostRuntime) {
    let count = count_arguments(&rt);
    if count < 2 {
        take_file(run, b"standard input", &mut rt.stdin());
        return;
    }
    take_all(&rt, count);
}
