// A ruled page of live firings into a lent buffer, over plain numbers (document 02, T-01). Each writer says every byte of
// the buffer (`Wrote`) and answers where its text ends; `lay_page` looks at the buffer and the numbers first.
#![tactic(auto)]

ghost use Rattle.std.specs.Prelude.{◌≡◌, ◌+◌, ◌-◌, ◌*◌, ◌<◌, ◌≤◌, ◌++◌, length};
ghost use Rattle.net.specs.Limits.{max_live};
ghost use Rattle.net.specs.Checks.{first, verdict_number};
ghost use Rattle.text.specs.Ascii.{ascii};
ghost use Rattle.text.specs.Decimal.{decimal};
ghost use Rattle.text.specs.Joined.{joined};
ghost use Rattle.text.specs.Writes.{Wrote, Filled};
ghost use Rattle.page_lines.specs.Page.{row, columns, page_bytes, blanks, right_in, row_line, last_line, line_at, page_lines, page_text, rows_in};
ghost use Rattle.page_lines.specs.Answers.{pages_of, page_checks, Laid};

use net::{MAX_LIVE, Verdict};
use text::{digit_count, put_digits, put_word};

// k spaces. The callers have seen that the buffer has room, here and in the writers below.
fn put_blanks(buf: &mut [u8], at: usize, k: usize) -> usize
    requires { at + k ≤ length buf.old }
    ensures { Wrote (blanks k) at buf.old result buf.new }
{
    buf[at..at + k].fill(b' ');
    at + k
}

// n at the right end of some columns, where it fits.
fn put_right(buf: &mut [u8], at: usize, n: u16, width: usize) -> usize
    requires { (at + width + 10 ≤ length buf.old) × (length (decimal n) ≤ width) }
    ensures { Wrote (right_in width n) at buf.old result buf.new × (result ≡ at + width) }
{
    let k = digit_count(u32::from(n), 10);
    let a = put_blanks(buf, at, width - k);
    put_digits(buf, a, n as u32, 10)
}

// Spaces up to the last column of the line that begins at `from`, and its newline. The text of the line ends at `at`.
fn put_rest(buf: &mut [u8], at: usize, from: usize) -> usize
    requires { (from ≤ at) × (at ≤ from + columns) × (from + columns + 1 ≤ length buf.old) }
    ensures { Wrote (blanks (from + columns - at) ++ ascii "\n") at buf.old result buf.new × (result ≡ from + columns + 1) }
{
    let a = put_blanks(buf, at, from + 40 - at);
    put_word(buf, a, b"\n")
}

// The line of a firing.
fn put_row(buf: &mut [u8], at: usize, key: u16, step: u8, moved: u8) -> usize
    requires { at + columns + 1 ≤ length buf.old }
    ensures { Wrote (row_line (row key step moved)) at buf.old result buf.new × (result ≡ at + columns + 1) }
{
    let a = put_right(buf, at, key, 5);
    let b = put_word(buf, a, b" ");
    let c = put_right(buf, b, step as u16, 3);
    let d = put_word(buf, c, b" ");
    let e = put_right(buf, d, moved as u16, 4);
    put_rest(buf, e, at)
}

// The last line of a page.
fn put_last(buf: &mut [u8], at: usize, number: u16) -> usize
    requires { at + columns + 1 ≤ length buf.old }
    ensures { Wrote (last_line number) at buf.old result buf.new }
{
    let a = put_word(buf, at, b"page ");
    let b = put_digits(buf, a, number as u32, 10);
    put_rest(buf, b, at)
}

// The line of the firing at i of the first n; a blank line where there is none.
fn put_line_at(
    buf: &mut [u8],
    at: usize,
    keys: &[u16],
    steps: &[u8],
    moved: &[u8],
    n: usize,
    i: usize,
) -> usize
    requires { (at + columns + 1 ≤ length buf.old) × (n ≤ length keys.now) × (n ≤ length steps.now) × (n ≤ length moved.now) }
    ensures { Wrote (line_at (rows_in keys.now steps.now moved.now n) i) at buf.old result buf.new
        × (result ≡ at + columns + 1) }
{
    if i < n {
        put_row(buf, at, keys[i], steps[i], moved[i])
    } else {
        put_rest(buf, at, at)
    }
}

// The 50 lines of a page, for the first n firings. `put_page` has a page number from 1 on.
fn put_lines(
    buf: &mut [u8],
    keys: &[u16],
    steps: &[u8],
    moved: &[u8],
    n: usize,
    number: u16,
) -> usize
    requires { (page_bytes ≤ length buf.old) × (n ≤ length keys.now) × (n ≤ length steps.now) × (n ≤ length moved.now) × (0 < number) }
    ensures { Filled (joined (page_lines (rows_in keys.now steps.now moved.now n) number)) buf.old result buf.new
        × (result ≡ 2050) }
{
    let from = 50 * (number as usize - 1);
    let mut pos = 0;
    for i in 0..50 {
        pos = put_line_at(buf, pos, keys, steps, moved, n, from + i);
    }
    pos
}

// A page: its lines and the last one. `lay_page` has checked the buffer and the page number.
fn put_page(
    buf: &mut [u8],
    keys: &[u16],
    steps: &[u8],
    moved: &[u8],
    n: usize,
    number: u16,
) -> usize
    requires { (page_bytes ≤ length buf.old) × (n ≤ length keys.now) × (n ≤ length steps.now) × (n ≤ length moved.now) × (0 < number) }
    ensures { Filled (page_text (rows_in keys.now steps.now moved.now n) number) buf.old result buf.new }
{
    let a = put_lines(buf, keys, steps, moved, n, number);
    put_last(buf, a, number)
}

// How many pages a list of n firings has.
fn pages_of(n: usize) -> usize
    requires { n ≤ max_live }
    ensures { result ≡ pages_of n }
{
    if n == 0 { 1 } else { n.div_ceil(50) }
}

// Refusals 23 to 25, for a buffer of `room` bytes and a list of n firings: the number of the first that holds, 0 where none does.
fn page_refusal(room: usize, n: usize, number: u16) -> u8
    ensures { result ≡ first (page_checks room n number) }
{
    if room < 2091 {
        return 23;
    }
    if MAX_LIVE < n {
        return 24;
    }
    if number < 1 {
        return 25;
    }
    if pages_of(n) < number as usize {
        return 25;
    }
    0
}

// A page of the first n firings, whose numbers lie in three arrays: refused with nothing written, or printed.
// n is the length of the list that is asked for; the arrays hold as many of its firings as a list may have.
pub fn lay_page(
    buf: &mut [u8],
    keys: &[u16; MAX_LIVE],
    steps: &[u8; MAX_LIVE],
    moved: &[u8; MAX_LIVE],
    n: usize,
    number: u16,
) -> Verdict
    ensures { Laid (rows_in keys.now steps.now moved.now n) n number buf.old result buf.new }
{
    let refusal = page_refusal(buf.len(), n, number);
    if refusal != 0 {
        return Verdict::Refused(refusal);
    }
    put_page(buf, keys, steps, moved, n, number);
    Verdict::Accepted
}
