// The sum of keys, or of the steps of listings: so that no answer can be left out of what is measured.
use case_tools::print::print_tally;
use tally::Tally;

// The tally that each run begins with.
pub const ZERO: Tally = Tally {
    fired: 0,
    undone: 0,
    refused: 0,
};

// The sum so far and one more key.
pub fn summed(sum: u32, key: u16) -> u32 {
    sum.wrapping_add(u32::from(key))
}

// The sum so far and the values of the first n answers, where they are keys.
pub fn summed_all(sum: u32, words: &[u8], values: &[u16], n: usize) -> u32 {
    words
        .iter()
        .zip(values.iter())
        .take(n)
        .filter(|(word, _)| **word < 2)
        .fold(sum, |s, (_, value)| summed(s, *value))
}

// A word, the sum and the tally.
fn print_named(word: &[u8], sum: u32, t: Tally) {
    io::write_all(1, word);
    io::print_decimal(1, u64::from(sum));
    io::write_all(1, b"\n");
    print_tally(t.fired, t.undone, t.refused);
}

pub fn print_sum(sum: u32, t: Tally) {
    print_named(b"keys ", sum, t);
}

pub fn print_steps(sum: u32, t: Tally) {
    print_named(b"steps ", sum, t);
}
