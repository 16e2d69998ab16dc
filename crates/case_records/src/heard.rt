// The customer's call for a command, and what it gives.
// One function for all programs of cases.
use commands::{value_of, word_of};
use net::Key;
use session::{Record, command_with};
use tally::Tally;

// What a command gave: the answer as one number, the word, 65,536 times, and the value; the outcome's key; the record after it; and the
// tally after it, which the next one begins with.
#[derive(Clone, Copy)]
pub struct Heard {
    pub said: u64,
    pub key: Key,
    pub session: Record,
    pub tally: Tally,
}

// A tally that has one number in each count.
pub fn begun(count: u16) -> Tally {
    Tally {
        fired: count,
        undone: count,
        refused: count,
    }
}

// A command on a record and a tally.
pub fn commanded(r: Record, sheet: &[u8], bytes: &[u8], tally: Tally) -> Heard {
    let done = command_with(r, sheet, bytes, tally);
    let o = done.outcome;
    Heard {
        said: u64::from(word_of(o.answer)) * 65536 + u64::from(value_of(o.answer, o.key)),
        key: o.key,
        session: o.session,
        tally: done.tally,
    }
}

// The answer alone, of a command on a copy.
pub fn answer_to(r: Record, sheet: &[u8], bytes: &[u8]) -> u64 {
    commanded(r, sheet, bytes, begun(0)).said
}
