// A block of commands (document 02, T-02) by the customer's call, through `block_with`. It is `fire 0`, `undo last`, `fire 0`, .. on sheet A,
// cut after so many bytes: from a fresh record the answers are fired 1, undone 1, fired 2, undone 2, ..; from one with nothing live and a
// highest key given, those above it; a command cut short is refused by 21.
// All that the block leaves is compared with what its answer makes of it: count, record, tally, and every entry of both lists.
use case_records::heard::{begun, commanded};
use case_records::same_record;
use io::{print_decimal, write_all};
use net::Key;
use samples::sheet_a;
use session::Record;
use session::block::{BlockCounted, BlockOutcome, block_with};
use session_start::start;
use tally::Tally;

// One entry more than a block may have commands.
const ENTRIES: usize = 1001;

const BYTES: usize = 3 * ENTRIES;

fn the_block() -> [u8; BYTES] {
    let mut b = [0u8; BYTES];
    for i in 0..ENTRIES {
        b[3 * i] = (i % 2 + 1) as u8;
    }
    b
}

// Of a block of so many bytes, the commands that are whole, and the answers: a command that is cut short has one too.
fn whole_in(bytes: usize) -> usize {
    bytes / 3
}

fn answers_to(bytes: usize) -> usize {
    bytes.div_ceil(3)
}

// What the lists had in each entry.
const WORD: u8 = 7;

const VALUE: u16 = 777;

// Entry i of the lists after so many bytes; an entry with no answer is as it was. The keys are those after `given`.
fn entry_holds(i: usize, bytes: usize, given: Key, word: u8, value: u16) -> bool {
    if i < whole_in(bytes) {
        let key = usize::from(given.0) + i / 2 % 1000 + 1;
        usize::from(word) == i % 2 && usize::from(value) == key
    } else if i < answers_to(bytes) {
        word == 2 && value == 21
    } else {
        word == WORD && value == VALUE
    }
}

// The lists that are lent for the answers.
#[derive(Clone, Copy)]
struct Lists {
    words: [u8; ENTRIES],
    values: [u16; ENTRIES],
}

fn lists_hold(l: &Lists, bytes: usize, given: Key) -> bool {
    (0..ENTRIES).all(|i| entry_holds(i, bytes, given, l.words[i], l.values[i]))
}

// A count with so many more; 65,535 stays.
fn has_more(before: u16, after: u16, n: usize) -> bool {
    usize::from(after) == (usize::from(before) + n % 1001).min(65535)
}

// The first of the whole commands is a firing; one that is cut short is refused.
fn tally_holds(t: Tally, u: Tally, bytes: usize) -> bool {
    let whole = whole_in(bytes);
    has_more(t.fired, u.fired, whole - whole / 2)
        && has_more(t.undone, u.undone, whole / 2)
        && has_more(t.refused, u.refused, usize::from(bytes % 3 != 0))
}

fn with_given(r: Record, n: usize) -> Record {
    Record {
        given: Key((n % 65536) as u16),
        ..r
    }
}

// The record with step 0 fired.
fn fired(r: Record, sheet: &[u8]) -> Record {
    commanded(r, sheet, b"\x01\x00\x00", begun(0)).session
}

// The record after so many bytes: with so many keys more given, of firings that were taken back, and then as it was or with step 0 fired.
fn record_after(r: Record, sheet: &[u8], bytes: usize) -> Record {
    let whole = whole_in(bytes);
    let before = with_given(r, usize::from(r.given.0) + whole / 2 % 1001);
    if whole % 2 == 0 {
        before
    } else {
        fired(before, sheet)
    }
}

// What a record, a tally and a sheet are for the blocks that follow.
#[derive(Clone, Copy)]
struct Lent {
    record: Record,
    tally: Tally,
    sheet: [u8; 40],
}

// What the block left, of so many bytes.
fn left_holds(x: &BlockCounted, l: &Lent, bytes: usize) -> bool {
    let o = x.outcome;
    tally_holds(l.tally, x.tally, bytes)
        && o.count == answers_to(bytes)
        && same_record(o.session, record_after(l.record, &l.sheet, bytes))
}

fn print_case(bytes: usize, words: usize, values: usize) {
    print_decimal(1, bytes as u64);
    write_all(1, b" bytes, lists of ");
    print_decimal(1, words as u64);
    write_all(1, b" and ");
    print_decimal(1, values as u64);
}

fn print_answer(number: u8, count: usize, holds: bool) {
    if number != 0 {
        write_all(1, b": refused ");
        print_decimal(1, u64::from(number));
    } else {
        write_all(1, b": ran ");
        print_decimal(1, count as u64);
    }
    if holds {
        write_all(1, b"\n");
    } else {
        write_all(1, b", BUT NOT ALL IS AS IT SHOULD BE\n");
    }
}

// What came of a block of so many bytes; nothing of it is run where it is refused.
fn told(x: &BlockCounted, l: &Lent, n: usize, lists: &Lists) {
    let o = x.outcome;
    let number = o.answer.number();
    let bytes = if number == 0 { n } else { 0 };
    let holds = lists_hold(lists, bytes, l.record.given) && left_holds(x, l, bytes);
    print_answer(number, o.count, holds);
}

// The block's bytes, and the entries of the two lists.
fn case(l: &Lent, bytes: usize, most_words: usize, most_values: usize) {
    let n = bytes.min(BYTES);
    let b = the_block();
    let mut lists = Lists {
        words: [WORD; ENTRIES],
        values: [VALUE; ENTRIES],
    };
    print_case(bytes, most_words, most_values);
    let x = block_with(
        l.record,
        &l.sheet,
        &b[..n],
        l.tally,
        &mut lists.words[..most_words.min(ENTRIES)],
        &mut lists.values[..most_values.min(ENTRIES)],
    );
    told(&x, l, n, &lists);
}

// ---- what is lent

// A fresh record on sheet A with a version, and a tally.
fn lent_of(version: u8, count: u16) -> Lent {
    let mut sheet = sheet_a();
    let record = start(&sheet).session;
    sheet[0] = version;
    Lent {
        record,
        tally: begun(count),
        sheet,
    }
}

// Step 0 fired, and no serial given: not sound.
fn none_given(l: &Lent) -> Lent {
    Lent {
        record: with_given(fired(l.record, &l.sheet), 0),
        ..*l
    }
}

// A serial in an entry that is not used: not sound.
fn with_unused(l: &Lent) -> Lent {
    let mut next = *l;
    next.record.firings.keys[0] = 5;
    next
}

// ---- the cases

// One command, two, three.
fn few(l: &Lent) {
    case(l, 0, 0, 0);
    case(l, 0, 5, 5);
    case(l, 1, 1, 1);
    case(l, 1, 0, 1);
    case(l, 1, 1, 0);
    case(l, 2, 1, 1);
    case(l, 2, 0, 0);
    case(l, 3, 1, 1);
    case(l, 4, 2, 2);
    case(l, 4, 1, 2);
    case(l, 4, 2, 1);
    case(l, 4, 3, 7);
    case(l, 6, 2, 2);
}

// 1,000 commands, and one more.
fn many(l: &Lent) {
    case(l, 2999, 1000, 1000);
    case(l, 2999, 999, 1000);
    case(l, 2999, 1000, 999);
    case(l, 3000, 1000, 1000);
    case(l, 3000, 999, 1000);
    case(l, 3000, 1000, 999);
    case(l, 3000, 1001, 1001);
    case(l, 3001, 1001, 1001);
    case(l, 3001, 1000, 1000);
    case(l, 3002, 1001, 1001);
    case(l, 3003, 1001, 1001);
}

// The highest serial given is 700.
fn raised(l: &Lent) {
    case(l, 4, 2, 2);
    case(l, 3000, 1000, 1000);
    case(l, 3001, 1001, 1001);
}

// 10 comes before 26.
fn not_sound(l: &Lent, m: &Lent) {
    case(l, 0, 0, 0);
    case(l, 4, 2, 2);
    case(m, 0, 0, 0);
    case(m, 4, 2, 2);
    case(m, 4, 1, 1);
    case(m, 3001, 1001, 1001);
}

// A refused sheet comes before 26.
fn refused(l: &Lent) {
    case(l, 0, 0, 0);
    case(l, 4, 1, 1);
    case(l, 3001, 1001, 1001);
}

pub fn all_blocks() {
    let l = lent_of(1, 65100);
    few(&l);
    many(&l);
    raised(&Lent {
        record: with_given(l.record, 700),
        ..l
    });
    let m = lent_of(1, 0);
    not_sound(&none_given(&m), &with_unused(&m));
    refused(&lent_of(9, 65100));
}
