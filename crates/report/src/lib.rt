// The answer line of the exam program, into a lent buffer: the command's number, what became of it, and its serial or its
// refusal's number (01, the exam program).
#![tactic(auto)]

ghost use Rattle.std.specs.Prelude.{◌≡◌, ◌+◌, ◌≤◌, ◌<◌, ◌*◌, length};
ghost use Rattle.text.specs.Writes.{Wrote, Filled};
ghost use Rattle.report.specs.Lines.{word_text, answer_line, LowValue, min_line, written_of, buffer_of};
ghost use Rattle.report.specs.Said.{max_commands, lines_upto, LowValues};

use commands::{Answer, value_of, word_of};
use net::Key;
use text::{put_digits, put_word};

// The shortest buffer that is written to. The longest line has as many bytes: ten digits, ` undone `, five digits, a newline.
const MIN_LINE: usize = 24;

// The refusal's number, or 0 and how many bytes the line has.
#[derive(Clone, Copy)]
pub struct Written {
    pub refusal: u8,
    pub length: usize,
}

// The word with a space on either side: 0 is fired, 1 is undone, any other is refused. `put_line` sees to the room.
#[tactic(auto, unfolding(crate::specs::Lines::word_text))]
fn put_answer(buf: &mut [u8], at: usize, word: u8) -> usize
    requires { at + 9 ≤ length buf.old }
    ensures { Wrote (word_text word) at buf.old result buf.new }
{
    match word {
        0 => put_word(buf, at, b" fired "),
        1 => put_word(buf, at, b" undone "),
        _ => put_word(buf, at, b" refused "),
    }
}

// The line, from `at` on. Answers where it ends. `answer_line` and the whole output see to the room and to the value: a
// refusal's number has at most three digits (01, the exam program).
pub fn put_line(buf: &mut [u8], at: usize, number: u32, word: u8, value: u16) -> usize
    requires { (at + min_line ≤ length buf.old) × LowValue word value }
    ensures wrote { Wrote (answer_line number word value) at buf.old result buf.new }
    ensures upper_bound { result ≤ at + min_line }
{
    let a = put_digits(buf, at, number, 10);
    let b = put_answer(buf, a, word);
    let e = put_digits(buf, b, value as u32, 5);
    put_word(buf, e, b"\n")
}

// The answer line of a command, for any answer and any buffer. A buffer that is too short is refused by 22 and stays as it
// was; else the line stands from byte 0 on and the rest is untouched (01, the exam program). Where the answer is refused the
// key is not read.
pub fn answer_line(buf: &mut [u8], number: u32, answer: Answer, key: Key) -> Written
    ensures value { result ≡ written_of (length buf.old) number answer key }
    ensures buf_after { buf.new ≡ buffer_of buf.old number answer key }
{
    if buf.len() < MIN_LINE {
        return Written {
            refusal: 22,
            length: 0,
        };
    }
    let word = word_of(answer);
    let value = value_of(answer, key);
    let end = put_line(buf, 0, number, word, value);
    Written {
        refusal: 0,
        length: end,
    }
}

// The first n answers, numbered from 1. `put_session` sees to the room and to the values.
pub fn put_answers(buf: &mut [u8], words: &[u8], values: &[u16], n: usize) -> usize
    requires { (min_line * n ≤ length buf.old) × (n ≤ max_commands) × (n ≤ length words.now) × (n ≤ length values.now)
        × LowValues words.now values.now n }
    ensures filled { Filled (lines_upto words.now values.now n) buf.old result buf.new }
    ensures upper_bound { result ≤ min_line * n }
{
    let mut pos = 0;
    for i in 0..n {
        pos = put_line(buf, pos, (i + 1) as u32, words[i], values[i]);
    }
    pos
}
