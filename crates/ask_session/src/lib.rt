// What a session comes to on both engines: everything that they answer and hold compared after each command (compare, live), what is counted
// of it (counts), commands by letters (letters); the session's commands as one block (blocks), and as an input of the exam program with
// its whole output (outputs, input, lines).
#![tactic(auto)]

mod blocks;
pub mod compare;
pub mod counts;
mod input;
pub mod letters;
mod lines;
mod live;
pub mod outputs;

use ask_tools::both::Both;

// How a session's commands are given once more, all together: as a block, or as an input.
#[derive(Clone, Copy, PartialEq, Eq)]
pub enum Together {
    Block,
    Input,
}

pub fn ask(c: &mut [u64], w: &[u64], b: &Both, how: Together) {
    match how {
        Together::Block => blocks::ask(c, w, b),
        Together::Input => outputs::ask(c, w, b),
    }
}
