// A session on both engines: each command, by lot or by its letter, is given to both, and what they answer and hold afterwards is compared
// and counted; the question of the row's kind is asked after every so many commands and at the end, then of altered records.
use crate::altered::each_altered;
use crate::asking::{Kind, ask, kind_of};
use ask_lamps::counts::count_entries;
use ask_session::Together;
use ask_session::compare::differs;
use ask_session::counts::count_command;
use ask_session::letters::{letter_command, raise_at, raised};
use ask_tools::both::Both;
use case_records::heard::{begun, commanded};
use case_tools::counts;
use case_tools::counts::{COMMAND, SEED, UNCOUPLED, judged, more, unless};
use generated::drawn::{bytes_of, command_length, command_of};
use generated::random::below;
use generated::rows::{ALTERED, COMMANDS, EVERY, ROOM, TALLY, note, noted};
use least_sets::draws::some_command;
use net::Verdict;
use oracle::sets::{get, join, put};
use oracle::{UNDONE, broken, highest};
use session::Record;
use session_start::start;
use tally::Tally;

// How many commands a session has. Of a block it is by lot, at most one more than the row says; of an input five times the seed where the
// row says none.
fn commands_of(c: &[u64], w: &[u64]) -> u64 {
    let n = get(w, COMMANDS) % 65536;
    let seed = get(c, SEED) % 1024;
    match kind_of(w) {
        Kind::Together(Together::Block) => (seed * 37 % 1000).min(n) + 1,
        Kind::Together(Together::Input) if n == 0 => 5 * seed,
        _ => n,
    }
}

// The next command, by its letter or by lot. Before a way back at most ten firings are live.
fn command_at(c: &[u64], w: &[u64], b: &mut Both) -> u64 {
    if let Some(command) = letter_command(w) {
        return command;
    }
    let (seed, i, room) = (get(c, SEED), noted(w), get(w, ROOM));
    match kind_of(w) {
        Kind::Way => some_command(b.sheet, &mut b.state, seed, i, room),
        _ => command_of(b.sheet, &mut b.state, seed, i, room),
    }
}

// How many bytes of it are given: in sessions and before a way back as many as drawn; of the last one of a block or an input 3, 1 or 2;
// else 3.
fn cut(c: &[u64], w: &[u64], g: u64, last: bool) -> u64 {
    let size = match kind_of(w) {
        Kind::Session | Kind::Way => return g,
        Kind::Together(_) if last && get(c, SEED) % 3 != 0 => get(c, SEED) % 3,
        _ => 3,
    };
    g % 16777216 + size % 4 * 16777216
}

// What a command was, with the record before it.
fn count_turn(c: &mut [u64], w: &[u64], before: Record, b: &Both, reply: u64) {
    let middle = reply / 65536 == UNDONE && reply % 65536 < highest(&b.state);
    let uncoupled = reply < 65536 && broken(&b.state) != 0;
    more(c, counts::COMMANDS, 1, true);
    more(c, counts::MIDDLE, 1, middle);
    join(c, UNCOUPLED, u64::from(uncoupled));
    match kind_of(w) {
        Kind::Session => count_command(c, b.sheet, &b.state, reply),
        Kind::Lamps => count_entries(c, before, b, reply),
        _ => (),
    }
}

// The next command, given to both, after serials are raised. What they hold then is compared.
fn turn(b: &mut Both, tally: &mut Tally, c: &mut [u64], w: &mut [u64], last: bool) {
    let before = b.record;
    if let Some(key) = raise_at(c, w) {
        let key = u64::from(key);
        oracle::raise(&mut b.state, key);
        b.record = raised(before, key);
    }
    let g = cut(c, w, command_at(c, w, b), last);
    let bytes = bytes_of(g);
    let given = &bytes[..command_length(g)];
    let reply = oracle::command(b.sheet, given, &mut b.state);
    let heard = commanded(b.record, b.sheet, given, *tally);
    b.record = heard.session;
    *tally = heard.tally;
    note(w, g, reply);
    put(c, COMMAND, noted(w));
    let what = differs(&heard, b.sheet, &b.state, reply);
    judged(c, 0, heard.said, reply, what);
    count_turn(c, w, before, b, reply);
}

// Whether the question is asked after this many commands, which are not the last.
fn is_asked(w: &[u64]) -> bool {
    let every = get(w, EVERY);
    every != 0 && below(noted(w), every) == 0
}

fn count_session(c: &mut [u64], s: &[u64]) {
    let uncoupled = get(c, UNCOUPLED) != 0;
    put(c, COMMAND, 0);
    more(c, counts::SESSIONS, 1, true);
    more(c, counts::UNCOUPLING, 1, uncoupled);
    more(c, counts::TEN, 1, 10 <= oracle::live(s));
}

// What is asked in the end.
fn ended(c: &mut [u64], w: &[u64], b: &Both) {
    count_session(c, &b.state);
    ask(c, w, b, 0, None);
    let every = get(w, ALTERED);
    if every != 0 && below(get(c, SEED), every) == 0 {
        each_altered(c, w, b);
    }
}

// All commands, from a fresh record.
fn run(c: &mut [u64], w: &mut [u64], sheet: &[u8], record: Record) {
    let tally = (get(w, TALLY) % 65536) as u16;
    let mut counts = begun(tally);
    let mut b = Both {
        record,
        sheet,
        state: oracle::zeros(),
    };
    oracle::begin(sheet, &mut b.state, u64::from(tally));
    let n = commands_of(c, w);
    for i in 0..n {
        let last = i + 1 == n;
        turn(&mut b, &mut counts, c, w, last);
        if !last && is_asked(w) {
            ask(c, w, &b, 0, None);
        }
    }
    ended(c, w, &b);
}

// A session on an accepted sheet; a refused one is counted, and no command is given on it.
pub fn session(c: &mut [u64], w: &mut [u64], sheet: &[u8]) {
    let first = start(sheet);
    let Verdict::Accepted = first.answer else {
        more(c, counts::SHEETS_REFUSED, 1, true);
        return;
    };
    run(c, w, sheet, first.session);
}
