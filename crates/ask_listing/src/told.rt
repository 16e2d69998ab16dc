// What the call for the listing gives, as a list of firings (least_sets, lines) without moved parts; two listings compared.
// What differs is a sum: of the listing 2 the number, 4 how many steps, 8 the steps.
use case_tools::counts::{judged, unless};
use least_sets::lines::{COUNT, NUMBER, WORDS, step_at};
use oracle::sets::{get, put};
use questions::listing;
use session::Record;

// The words that are compared where only the steps are, and where the moved parts and how many there are count too.
pub const OF_STEPS: usize = 256;

pub const OF_LINES: usize = 513;

// All entries of the steps, used or not.
pub fn told_of(r: Record, sheet: &[u8]) -> [u64; WORDS] {
    let l = listing(r, sheet);
    let mut t = [0u64; WORDS];
    for (i, step) in l.transitions.iter().enumerate() {
        put(&mut t, i, u64::from(step.0));
    }
    put(&mut t, COUNT, l.count as u64);
    put(&mut t, NUMBER, u64::from(l.answer.number()));
    t
}

// The first of so many words in which two lists differ.
pub fn first_other(a: &[u64], b: &[u64], words: usize) -> Option<usize> {
    (0..words).find(|&i| get(a, i) != get(b, i))
}

// What differs of two listings: the numbers, the counts, any of the 256 entries.
pub fn told_differs(a: &[u64], b: &[u64]) -> u64 {
    let numbers = get(a, NUMBER) == get(b, NUMBER);
    let counts = get(a, COUNT) == get(b, COUNT);
    let steps = first_other(a, b, OF_STEPS).is_none();
    unless(numbers, 2) | unless(counts, 4) | unless(steps, 8)
}

// A listing against another, with the first entry that differs.
pub fn judged_lists(c: &mut [u64], ours: &[u64], theirs: &[u64], what: u64) {
    let at = first_other(ours, theirs, OF_STEPS).unwrap_or(OF_STEPS);
    judged(c, at as u64, step_at(ours, at), step_at(theirs, at), what);
}
