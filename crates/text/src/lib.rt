// Text into a lent buffer: decimal numbers and words, from a given position on. Every contract says all of the buffer
// (`Wrote`) and answers where the text ends.
#![tactic(auto)]

ghost use Rattle.std.specs.Prelude.{◌≡◌, ◌+◌, ◌≤◌, length};
ghost use Rattle.text.specs.Decimal.{digits};
ghost use Rattle.text.specs.Writes.{Wrote};

// How many digits `put_digits` writes: as many as n has, and at most `places`.
pub fn digit_count(n: u32, places: usize) -> usize
    ensures value { result ≡ length (digits places n) }
    ensures upper_bound { result ≤ places }
{
    let mut unit: u64 = 1;
    let mut count = 1;
    while unit * 10 <= u64::from(n) {
        unit *= 10;
        count += 1;
    }
    count.min(places)
}

// n in decimal, where it has at most `places` digits; of a longer number the last ones. Answers where the text ends.
// The digits are written from the last to the first.
// The callers have checked that the buffer is long enough, as for the function below.
pub fn put_digits(buf: &mut [u8], at: usize, n: u32, places: usize) -> usize
    requires { at + places ≤ length buf.old }
    ensures { Wrote (digits places n) at buf.old result buf.new }
{
    let count = digit_count(n, places);
    let mut rest = n;
    for j in (0..count).rev() {
        buf[at + j] = b'0' + (rest % 10) as u8;
        rest /= 10;
    }
    at + count
}

// The bytes of a word. Answers where the text ends.
pub fn put_word(buf: &mut [u8], at: usize, word: &[u8]) -> usize
    requires { at + length word.now ≤ length buf.old }
    ensures { Wrote word.now at buf.old result buf.new }
{
    buf[at..at + word.len()].copy_from_slice(word);
    at + word.len()
}
