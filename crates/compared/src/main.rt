// Sessions by lot on sheets by lot, on both engines: the proved one, and the second engine (crate oracle), which shares no code with it. After
// each command all that they answer and hold is compared, and each question of document 02 is asked in both ways (play, asking). What
// is run stands in the file stdin, a row for each kind of sheet (generated, rows). Prints for each how many comparisons were made and how
// many differed, with the first that did; the counts that have to reach a floor; and what the exam program writes at the most commands.
#![tactic(auto)]

mod altered;
mod asking;
mod play;
mod sheets;

use ask_session::outputs::{print_limit, printed};
use case_tools::counts;
use case_tools::counts::{count_of, print_group};
use case_tools::print::{print_count, print_floor};
use generated::rows::{KIND, NOTED, ROW, SESSIONS, find, lay_letters, part, read_numbers};
use oracle::sets::{get, put};
use play::session;
use sheets::write_one;

fn run_one(c: &mut [u64], w: &mut [u64], seed: u64) {
    let mut buf = [0u8; 32768];
    let n = write_one(&mut buf, w, seed);
    put(c, counts::SEED, seed);
    put(c, counts::UNCOUPLED, 0);
    put(w, NOTED, 0);
    session(c, w, part(&buf, 0, n));
}

// The sessions of a row; inputs that document 01 prints where there are none.
fn run_all(c: &mut [u64], w: &mut [u64]) {
    let n = get(w, SESSIONS);
    if n == 0 {
        printed(c);
    }
    for seed in 0..n {
        run_one(c, w, seed);
    }
}

// A count of a kind, with the floor that it has to reach, or with none.
fn print_number(c: &[u64], name: &[u8], w: &[u64]) {
    let n = count_of(c, get(w, 2), get(w, 3));
    match get(w, 4) {
        0 => print_count(name, n),
        floor => print_floor(name, n, floor),
    }
}

// Kinds of rows: 0 a count; 1 to 15 sessions with a kind of question, or inputs that document 01 prints; 16 the most commands.
fn run_row(c: &mut [u64], name: &[u8], w: &mut [u64]) {
    match get(w, KIND) {
        0 => print_number(c, name, w),
        16 => print_limit(name, (get(w, 2) % 4294967296) as usize),
        kind => {
            put(c, counts::KIND, kind);
            run_all(c, w);
            print_group(c, name);
        }
    }
}

// A row that begins with # is a comment.
fn read_row(c: &mut [u64], line: &[u8]) {
    if line.starts_with(b"#") {
        return;
    }
    let colon = find(line, 0, b':');
    let space = find(line, colon, b' ');
    let mut w = [0u64; ROW];
    lay_letters(&mut w, part(line, colon, space));
    read_numbers(&mut w, part(line, space, line.len()));
    run_row(c, part(line, 0, colon), &mut w);
}

fn read_rows(c: &mut [u64], text: &[u8]) {
    for line in text.split_inclusive(|&b| b == b'\n') {
        read_row(c, line.strip_suffix(b"\n").unwrap_or(line));
    }
}

fn main() {
    let mut text = io::large_buffer();
    let n = io::read_full(0, &mut text);
    let mut c = [0u64; counts::WORDS];
    read_rows(&mut c, &text[..n]);
}
