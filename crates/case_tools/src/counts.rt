// What the comparing program counts, in a lent slice of words: where it is; how many comparisons of the row in hand were made and how many
// differed, with the first that did, so that it can be found again; and 64 counts for each kind of question, from 1 on.
use crate::print::{print_count, print_run};
use oracle::sets::{get, put};

pub const WORDS: usize = 1024;

// Where it is: the kind of question, the seed of the session, how many commands it was given, which is 0 after the last, and whether one of
// them uncoupled.
pub const KIND: usize = 0;

pub const SEED: usize = 1;

pub const COMMAND: usize = 2;

pub const UNCOUPLED: usize = 3;

// Of the row.
const RUN: usize = 4;

const DIFFERED: usize = 5;

// The first difference: where it was, what was asked, what both gave and what differs, a word each.
const FIRST: usize = 8;

const FIRST_NAMES: [&[u8]; 6] = [
    b"    first: seed",
    b"    command from 1, 0 at the end",
    b"    number of the question",
    b"    ours",
    b"    the other's",
    b"    what differs, a sum",
];

// Counts that every kind has: sessions; those in which a step uncoupled; that end with ten live firings or more; takings back of a firing
// that was not the last; commands; altered records that were refused; sheets that were. A question's own counts begin at 8.
pub const SESSIONS: usize = 0;

pub const UNCOUPLING: usize = 1;

pub const TEN: usize = 2;

pub const MIDDLE: usize = 3;

pub const COMMANDS: usize = 4;

pub const ALTERED: usize = 5;

pub const SHEETS_REFUSED: usize = 6;

fn place_of(kind: u64, count: u64) -> usize {
    (kind % 16 * 64 + count % 64) as usize
}

// A count of a kind.
pub fn count_of(c: &[u64], kind: u64, count: u64) -> u64 {
    get(c, place_of(kind, count))
}

// Numbers are taken below 2^32.
fn add(c: &mut [u64], at: usize, n: u64) {
    let old = get(c, at) % 4294967296;
    put(c, at, old + n % 4294967296);
}

// So many more in a count of the kind in hand, where a thing is so.
pub fn more(c: &mut [u64], count: usize, n: u64, there: bool) {
    if there {
        let at = place_of(get(c, KIND), (count % 64) as u64);
        add(c, at, n);
    }
}

// A number where a thing is not the same: what differs is a sum of such numbers.
pub fn unless(same: bool, what: u64) -> u64 {
    if same { 0 } else { what }
}

// A comparison of ours with another, at a number of the question's, and what differs. The first difference is kept.
pub fn judged(c: &mut [u64], number: u64, ours: u64, theirs: u64, what: u64) {
    let first = what != 0 && get(c, DIFFERED) == 0;
    add(c, RUN, 1);
    add(c, DIFFERED, unless(what == 0, 1));
    if first {
        let words = [get(c, SEED), get(c, COMMAND), number, ours, theirs, what];
        for (kept, word) in c.iter_mut().skip(FIRST).zip(words) {
            *kept = word;
        }
    }
}

fn print_first(c: &[u64]) {
    for (name, &n) in FIRST_NAMES.iter().zip(c.iter().skip(FIRST)) {
        print_count(name, n);
    }
}

// The row's counts, and its first difference where there is one. A row without a name belongs to the next.
pub fn print_group(c: &mut [u64], name: &[u8]) {
    if name.is_empty() {
        return;
    }
    print_run(name, get(c, RUN), get(c, DIFFERED));
    if get(c, DIFFERED) != 0 {
        print_first(c);
    }
    put(c, RUN, 0);
    put(c, DIFFERED, 0);
}
