// What the desk prints: a line each, with the file's name and the line of the script in front.
// Each answers whether it was written.
use crate::sheets::Slip;
use io::{print_decimal, write_all};

// A line of some pieces, behind the file's name and the line of the script.
fn print_line(fd: i32, name: &[u8], line: usize, pieces: &[&[u8]]) -> bool {
    let mut whole = write_all(fd, name);
    whole &= write_all(fd, b":");
    whole &= print_decimal(fd, line as u64);
    whole &= write_all(fd, b": ");
    for piece in pieces {
        whole &= write_all(fd, piece);
    }
    write_all(fd, b"\n") & whole
}

pub fn print_answer(name: &[u8], line: usize, text: &[u8]) -> bool {
    print_line(1, name, line, &[text])
}

// An answer and the reason behind it.
pub fn print_refused(name: &[u8], line: usize, text: &[u8], reason: &[u8]) -> bool {
    print_line(1, name, line, &[text, b": ", reason])
}

pub fn print_difference(name: &[u8], line: usize, wanted: &[u8], came: &[u8]) -> bool {
    print_line(
        1,
        name,
        line,
        &[b"differs: expected", wanted, b", came ", came],
    )
}

// What was expected in place of a line.
pub fn print_mistake(fd: i32, name: &[u8], line: usize, words: &[u8]) -> bool {
    print_line(fd, name, line, &[b"not understood: expected ", words])
}

// The same for a sheet's line.
pub fn print_slip(fd: i32, name: &[u8], line: usize, slip: Slip) -> bool {
    print_mistake(fd, name, line, slip.words().as_bytes())
}

fn print_count(word: &[u8], n: usize) -> bool {
    write_all(1, word) & print_decimal(1, n as u64)
}

// The last line of a file: how many answers, expectations, differences, and lines that were not understood.
pub fn print_total(
    name: &[u8],
    answers: usize,
    expected: usize,
    differences: usize,
    mistakes: usize,
) -> bool {
    let mut whole = write_all(1, name);
    whole &= print_count(b": answers ", answers);
    whole &= print_count(b", expectations ", expected);
    whole &= print_count(b", differences ", differences);
    whole &= print_count(b", mistakes ", mistakes);
    write_all(1, b"\n") & whole
}
