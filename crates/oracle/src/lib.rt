// A second engine, written from document 004, chapter 3, Definitions 2, 6 and 9 to 12, and section 4.1, Definitions 21, 22 and 24,
// under document 01's reading and document 02's, T-07 (a step may break bonds; 21(2) is not followed, 4(4) stays). It
// shares no code with the other crates: programs compare the two. It is proved safe and ending for any bytes; that it
// answers rightly is what the comparison is about. Its state is one lent slice of 30,917 words: tables (module sets), the
// history (module history), a tally that is counted from the replies alone, and the highest key given, since no key is given
// twice (document 02, T-03). The sheet has been accepted.
#![tactic(auto)]

mod arcs;
mod con;
mod forward;
mod history;
mod moving;
pub mod reader;
mod refusal;
pub mod sets;

pub use arcs::{broken, parted};
use arcs::{fill, lay_labels, lay_start};
use forward::{hindrance, lacks, used};
pub use history::{
    NO_KEY, given, highest, key_after, key_at, live, moved_at, raise, slot_of, transition_at,
    undo_hindered,
};
use history::{find_slot, forget, give, record};
use moving::{execute, reverse};
use reader::{count, word};
pub use refusal::Refusal;
use sets::{SIZE, Table, get, put};

// Words of a state.
pub const STATE: usize = 30917;

const TALLY: usize = 30912;

// What a command that is not refused gives: the key of the firing.
enum Accepted {
    Fired(u64),
    Undone(u64),
}

// A command's reply is one number: the word, 65,536 times, and the value, which is the key of the firing, or the number of
// document 01's list for a refused command.
pub const FIRED: u64 = 0;

pub const UNDONE: u64 = 1;

pub const REFUSED: u64 = 2;

pub fn reply(word: u64, value: u64) -> u64 {
    word % 3 * 65536 + value % 65536
}

fn reply_of(answer: Result<Accepted, Refusal>) -> u64 {
    match answer {
        Ok(Accepted::Fired(key)) => reply(FIRED, key),
        Ok(Accepted::Undone(key)) => reply(UNDONE, key),
        Err(refusal) => reply(REFUSED, refusal as u64),
    }
}

// The count of a word in the tally.
pub fn tally_at(s: &[u64], word: u64) -> u64 {
    get(s, TALLY + (word % 3) as usize)
}

// A state of zeros.
pub fn zeros() -> [u64; STATE] {
    [0; STATE]
}

// The start of a sheet: M0, an empty history with no key given, and a tally with one number in each count.
pub fn begin(sheet: &[u8], s: &mut [u64], tally: u64) {
    fill(s, 0, TALLY, 0);
    fill(s, TALLY, 3, tally);
    put(s, SIZE, 65 * count(sheet, 1) as u64);
    give(s, 0);
    lay_start(s, sheet);
}

// Definition 21 for a transition of the sheet: which of 13 to 16 holds first, where it is not forward-enabled. Its labels are
// laid.
pub fn hindered(sheet: &[u8], s: &mut [u64], t: usize) -> Result<(), Refusal> {
    lay_labels(s, sheet, t);
    hindrance(s)
}

// Kind 1: 12, 13 to 16, 17, 18, then the firing by Definitions 22 and 10, with a key above every one given before.
fn fire(sheet: &[u8], s: &mut [u64], t: usize) -> Result<Accepted, Refusal> {
    if count(sheet, 3) <= t {
        return Err(Refusal::NoTransition);
    }
    hindered(sheet, s, t)?;
    let slot = find_slot(s, 0).ok_or(Refusal::Full)?;
    let last = given(s);
    if 65535 <= last {
        return Err(Refusal::NoKeyLeft);
    }
    let bases = used(s);
    record(s, sheet, slot, t, last + 1, bases);
    give(s, last + 1);
    execute(s);
    Ok(Accepted::Fired(last + 1))
}

// The reversal of the occurrence of a key, by Definitions 24 and 12 (as 26 has it). A check of 11(1) comes first, for kind 3.
fn undo(sheet: &[u8], s: &mut [u64], key: u64, causal: bool) -> Result<Accepted, Refusal> {
    let slot = slot_of(s, key);
    lay_labels(s, sheet, transition_at(s, slot));
    if causal && lacks(s, Table::Outgoing) {
        return Err(Refusal::NoRoom);
    }
    reverse(s);
    forget(s, slot);
    Ok(Accepted::Undone(key))
}

// Kind 2, Definitions 6 and 23: the highest key of all.
fn undo_last(sheet: &[u8], s: &mut [u64]) -> Result<Accepted, Refusal> {
    match highest(s) {
        0 => Err(Refusal::NotLive),
        key => undo(sheet, s, key, false),
    }
}

// Kind 3, Definitions 11 and 25.
fn undo_key(sheet: &[u8], s: &mut [u64], key: u64) -> Result<Accepted, Refusal> {
    undo_hindered(s, key)?;
    undo(sheet, s, key, true)
}

// A command's first three bytes, or fewer.
fn answer(sheet: &[u8], bytes: &[u8], s: &mut [u64]) -> Result<Accepted, Refusal> {
    if bytes.len() < 3 {
        return Err(Refusal::TooShort);
    }
    match (bytes[0], word(bytes, 1)) {
        (1, t) => fire(sheet, s, t),
        (2, 0) => undo_last(sheet, s),
        (3, key) => undo_key(sheet, s, key as u64),
        _ => Err(Refusal::NoKind),
    }
}

fn one_more(n: u64) -> u64 {
    if n < 65535 { n + 1 } else { n }
}

// A command, answered and counted; a count at 65,535 stays there.
pub fn command(sheet: &[u8], bytes: &[u8], s: &mut [u64]) -> u64 {
    let r = reply_of(answer(sheet, bytes, s));
    let at = TALLY + (r / 65536 % 3) as usize;
    put(s, at, one_more(get(s, at)));
    r
}
