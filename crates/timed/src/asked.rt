// Questions of document 02, asked again and again of the record that the commands leave: the way back to the sheet's start places (T-04), and
// the listing (T-09). The commands are given as one block, so up to 1,000 of them.
use crate::blocks::one_block;
use crate::sum::{print_steps, print_sum, summed};
use format::start_places;
use questions::{listing, way_back};
use session::Record;

// How often each is asked.
const TIMES: usize = 10;

// The sum of all answers to a question.
fn asked<F: Fn() -> u32>(question: F) -> u32
    requires { F.IsAlwaysCallable question }
{
    let mut sum: u32 = 0;
    for _ in 0..TIMES {
        sum = sum.wrapping_add(question());
    }
    sum
}

// The keys of a way back: its unused entries hold 0.
fn keys_of(r: Record, sheet: &[u8]) -> u32 {
    let w = way_back(r, sheet, start_places(sheet));
    w.keys.iter().fold(0, |sum, key| summed(sum, key.0))
}

// The steps of a listing: its unused entries hold 0.
fn steps_of(r: Record, sheet: &[u8]) -> u32 {
    let l = listing(r, sheet);
    l.transitions
        .iter()
        .fold(0, |sum, step| summed(sum, step.0))
}

// From a fresh record and a tally of zeros, here and below.
pub fn run_ways(sheet: &[u8], commands: &[u8]) {
    let done = one_block(sheet, commands);
    let r = done.outcome.session;
    print_sum(asked(|| keys_of(r, sheet)), done.tally);
}

pub fn run_lists(sheet: &[u8], commands: &[u8]) {
    let done = one_block(sheet, commands);
    let r = done.outcome.session;
    print_steps(asked(|| steps_of(r, sheet)), done.tally);
}
