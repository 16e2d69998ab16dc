// The listing of the live firings (document 02, T-09), asked by the customer's call (told): worked out step by step (second) and as the first
// of all orders (orders), fired and listed again (again), and held against those of other sessions (pairs). What differs is a sum: 1 the
// answer to a command, 2 to 8 the listing (told), 16 the first of all orders; of the steps fired once more 32 the live firings, 64 the
// marking, 128 the listing; 256 of a pair, whether the listings are equal.
#![tactic(auto)]

mod again;
mod orders;
mod pairs;
mod second;
mod told;

use again::relist;
use ask_tools::both::Both;
use case_tools::counts::{COMMAND, SEED, UNCOUPLED, more, unless};
use generated::random::mixed;
use least_sets::lines::{NUMBER, WORDS, count_of, live_lines, step_at};
use oracle::sets::{get, put};
use orders::{FEW, IN_TURN, first_steps, steps_of};
use pairs::ask_pairs;
use second::lay_second;
use told::{OF_STEPS, first_other, judged_lists, told_differs, told_of};

// Whether a step stands behind a higher one.
fn waits(t: &[u64]) -> bool {
    let n = count_of(t);
    (0..n).zip(1..n).any(|(i, j)| step_at(t, j) < step_at(t, i))
}

// Listings compared: 8 all; 9 in another order than that of the serials; 10 with a lower number behind a higher, for which it waits; 11 in
// sessions in which a step uncoupled. All are fired and listed again: 15, with so many steps: 16.
fn count_listing(c: &mut [u64], h: &[u64], want: &[u64]) {
    let uncoupled = get(c, UNCOUPLED) != 0;
    more(c, 8, 1, true);
    more(c, 9, 1, first_other(want, h, OF_STEPS).is_some());
    more(c, 10, 1, waits(want));
    more(c, 11, 1, uncoupled && count_of(h) != 0);
    more(c, 15, 1, true);
    more(c, 16, count_of(want) as u64, true);
}

// Of a few firings all orders are tried; the told steps are those of the first that keeps the order of firings with a common part. Such
// listings are counted in 12.
fn first_differs(c: &mut [u64], h: &[u64], told: &[u64]) -> u64 {
    let n = count_of(h);
    if FEW < n {
        return 0;
    }
    more(c, 12, 1, true);
    unless(first_steps(c, h) == steps_of(told, IN_TURN, n), 16)
}

fn hold(c: &mut [u64], h: &[u64], told: &[u64]) {
    let mut want = [0u64; WORDS];
    lay_second(&mut want, h);
    count_listing(c, h, &want);
    let first = first_differs(c, h, told);
    judged_lists(c, told, &want, told_differs(told, &want) | first);
}

// The listing of a record, held against both ways; then fired and listed again, and in pairs.
fn ask_all(c: &mut [u64], b: &Both, told: &[u64]) {
    let h = live_lines(&b.state);
    hold(c, &h, told);
    relist(c, b.record, b.sheet, told);
    let lot = mixed(get(c, SEED), get(c, COMMAND), 2, 9) % 65536 + 1;
    ask_pairs(c, b.sheet, h, told, lot);
}

// Where a refusal is expected, says what differs; no step is given then. Else that is judged.
pub fn ask(c: &mut [u64], b: &Both, refusal: Option<u64>) -> u64 {
    let told = told_of(b.record, b.sheet);
    if let Some(number) = refusal {
        let mut want = [0u64; WORDS];
        put(&mut want, NUMBER, number);
        return told_differs(&told, &want);
    }
    ask_all(c, b, &told);
    0
}
