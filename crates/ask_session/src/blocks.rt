// Blocks of commands (document 02, T-02): the session's commands together, by the customer's block call, on a fresh record and the tally that
// they began with. Its answers are held against the second engine's, entry by entry; its record and its tally in every field (compare). What differs
// is a sum of the numbers there, of 256 where the block is not run, and 512 for an answer.
use crate::compare::differs;
use crate::input::lay_commands;
use ask_tools::both::Both;
use case_records::heard::{Heard, begun};
use case_tools::counts::{judged, more, unless};
use generated::rows::{TALLY, noted, part, reply_noted};
use net::Key;
use oracle::sets::get;
use session::block::{BlockCounted, block_with};
use session_start::start;

// The most commands of a block.
const MOST: usize = 1000;

// Whether entry i has the answer, or what it had where there is none: 7 and 777.
fn entry_holds(word: u8, value: u16, w: &[u64], i: u64) -> bool {
    if i < noted(w) {
        u64::from(word) * 65536 + u64::from(value) == reply_noted(w, i)
    } else {
        word == 7 && value == 777
    }
}

fn same_answers(words: &[u8; MOST], values: &[u16; MOST], w: &[u64]) -> bool {
    (0..MOST).all(|i| entry_holds(words[i], values[i], w, i as u64))
}

// What the block gave, with the last answer of those given singly.
fn block_differs(x: BlockCounted, w: &[u64], b: &Both) -> u64 {
    let n = noted(w);
    let last = reply_noted(w, n + 65535);
    let o = x.outcome;
    let heard = Heard {
        said: last,
        key: Key(0),
        session: o.session,
        tally: x.tally,
    };
    let ran = o.answer.number() == 0 && o.count as u64 == n;
    unless(ran, 256) | differs(&heard, b.sheet, &b.state, last)
}

// Blocks are counted in 8.
fn handed_in(c: &mut [u64], w: &[u64], b: &Both, block: &[u8]) {
    let mut words = [7u8; MOST];
    let mut values = [777u16; MOST];
    let r = start(b.sheet).session;
    let tally = begun((get(w, TALLY) % 65536) as u16);
    let x = block_with(r, b.sheet, block, tally, &mut words, &mut values);
    let what = block_differs(x, w, b);
    let answers = unless(same_answers(&words, &values, w), 512);
    more(c, 8, 1, true);
    judged(c, noted(w), 0, 0, what | answers);
}

// The session's commands as a block.
pub fn ask(c: &mut [u64], w: &[u64], b: &Both) {
    let mut block = [0u8; 3000];
    let length = lay_commands(&mut block, 0, w);
    handed_in(c, w, b, part(&block, 0, length));
}
