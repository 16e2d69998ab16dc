// Rows of a text, from which programs of cases read what to run. A row has a name, a colon, letters or none, and numbers with a
// space before each. The comparing program has a row in a slice of words, with its letters and what was commanded in the session in hand.
ghost use Rattle.std.specs.Prelude.{◌≤◌};

use oracle::sets::{get, put};

// The numbers of a row: the kind of question, the sheet, how many sessions, how many commands each has, above how many live firings most
// take back, after every how many commands the question is asked, 0 for the end alone; 7 to 14 the plan of the sheets; every how manieth session ends with
// altered records, 0 for none; what each count of the tally begins with; before which command, from 1, serials are raised, 0 for none;
// of a way back how many layouts, and whether they are all of a sheet's.
pub const KIND: usize = 1;

pub const SHEET: usize = 2;

pub const SESSIONS: usize = 3;

pub const COMMANDS: usize = 4;

pub const ROOM: usize = 5;

pub const EVERY: usize = 6;

pub const ALTERED: usize = 15;

pub const TALLY: usize = 16;

pub const RAISE: usize = 17;

pub const LAYOUTS: usize = 18;

pub const ALL: usize = 19;

// The letters; how many commands the session was given, and of the first 1,000 each as one number (drawn), with the second engine's reply.
const LETTERS: usize = 32;

pub const NOTED: usize = 511;

const NOTES: usize = 512;

pub const ROW: usize = 2512;

// Where a byte next stands from a position on; the end where it does not.
pub fn find(s: &[u8], from: usize, b: u8) -> usize
    ensures { from ≤ result }
{
    for i in from..s.len() {
        if s[i] == b {
            return i;
        }
    }
    s.len().max(from)
}

// A part of a text; nothing where it does not reach so far.
pub fn part(s: &[u8], from: usize, to: usize) -> &[u8] {
    s.get(from..to).unwrap_or(&[])
}

// A space begins the number after number k, a digit goes behind its others.
fn read_byte(row: &mut [u64], k: usize, b: u8) -> usize {
    if b == b' ' {
        put(row, k % 64 + 1, 0);
        k % 64 + 1
    } else {
        let old = get(row, k);
        put(row, k, old % 4294967296 * 10 + (b % 16) as u64);
        k
    }
}

// The numbers of a text, from number 1 on.
pub fn read_numbers(row: &mut [u64], s: &[u8]) {
    let mut k = 0;
    for &b in s {
        k = read_byte(row, k, b);
    }
}

// The letters of a row, from letter 1 on, behind the colon.
pub fn lay_letters(row: &mut [u64], letters: &[u8]) {
    let n = letters.len() % 400;
    for (word, &letter) in row.iter_mut().skip(LETTERS).zip(letters).take(n).skip(1) {
        *word = letter.into();
    }
}

// Letter i, 0 where there is none. A row with letters has fewer than 400 commands.
pub fn letter_at(row: &[u64], i: u64) -> u64 {
    get(row, LETTERS + (i % 400) as usize)
}

// How many commands the session was given.
pub fn noted(row: &[u64]) -> u64
    ensures { result ≤ 65535 }
{
    get(row, NOTED) % 65536
}

// A command more, with the second engine's reply.
pub fn note(row: &mut [u64], g: u64, reply: u64) {
    let i = noted(row);
    put(row, NOTES + 2 * i as usize, g);
    put(row, NOTES + 2 * i as usize + 1, reply);
    put(row, NOTED, i + 1);
}

pub fn command_noted(row: &[u64], i: u64) -> u64 {
    get(row, NOTES + 2 * (i % 65536) as usize)
}

pub fn reply_noted(row: &[u64], i: u64) -> u64 {
    get(row, NOTES + 2 * (i % 65536) as usize + 1)
}
