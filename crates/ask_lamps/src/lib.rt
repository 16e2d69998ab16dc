// A record's lamps (document 02, T-06) by the customer's calls, held against kind 3 on a copy of the record, and against kind 3 on a copy
// of the second engine's state. What is counted of them, and of the entries of the table of last movers: counts. What
// differs is a sum: 1 a lamp, 2 kind 3 on a copy; of all lamps 4 the number, 8 the count, 16 a flag.
#![tactic(auto)]

pub mod counts;

use ask_tools::both::Both;
use case_records::heard::answer_to;
use case_tools::counts::{judged, unless};
use counts::count_lamp;
use generated::drawn::undo_bytes;
use net::{Key, MAX_LIVE};
use oracle::{UNDONE, given, key_after};
use questions::{can_undo, lamps};

// The lamp of a serial, and kind 3 with it on a copy of the record.
fn lamp_differs(b: &Both, key: u64, lit: bool) -> u64 {
    let k = Key((key % 65536) as u16);
    let reply = answer_to(b.record, b.sheet, &undo_bytes(key));
    let undone = reply == oracle::reply(UNDONE, key);
    unless(can_undo(b.record, b.sheet, k) == lit, 1) | unless(undone == lit, 2)
}

// Whether the second engine takes a serial back, on a copy of its state.
fn takes_back(b: &Both, key: u64) -> bool {
    let mut s = b.state;
    oracle::command(b.sheet, &undo_bytes(key), &mut s) == oracle::reply(UNDONE, key)
}

// One serial; it is counted where the calls are not refused. Where they are no lamp is expected to be lit.
fn key_differs(c: &mut [u64], b: &Both, key: u64, refusal: Option<u64>) -> u64 {
    if refusal.is_some() {
        return lamp_differs(b, key, false);
    }
    let lit = takes_back(b, key);
    count_lamp(c, &b.state, key, lit);
    lamp_differs(b, key, lit)
}

// The first serial at which something differs, and what. They are asked for from 0 to the highest given and one more. None is given above
// 2,000 here.
fn keys_differ(c: &mut [u64], b: &Both, refusal: Option<u64>) -> Option<(u64, u64)> {
    for key in 0..given(&b.state) % 4096 + 2 {
        let what = key_differs(c, b, key, refusal);
        if what != 0 {
            return Some((key, what));
        }
    }
    None
}

// The flag that is expected for a serial: its lamp. After the last live firing there is none.
fn flag_of(b: &Both, key: u64) -> bool {
    match u16::try_from(key) {
        Ok(k) => can_undo(b.record, b.sheet, Key(k)),
        Err(_) => false,
    }
}

// Whether each flag is that of the second engine's live firing in that place, and those after the last are no.
fn flags_hold(b: &Both, flags: [bool; MAX_LIVE]) -> bool {
    let mut hold = true;
    let mut key = 0;
    for flag in flags {
        key = key_after(&b.state, key);
        hold = hold && flag == flag_of(b, key);
    }
    hold
}

fn lamps_differ(b: &Both, refusal: Option<u64>) -> u64 {
    let l = lamps(b.record, b.sheet);
    let (number, live) = match refusal {
        Some(number) => (number, 0),
        None => (0, oracle::live(&b.state)),
    };
    let answer = unless(u64::from(l.answer.number()) == number, 4);
    answer | unless(l.count == live, 8) | unless(flags_hold(b, l.lit), 16)
}

// All lamps at once, then each by its serial. Where a refusal is expected, says what differs; else that is judged.
pub fn ask(c: &mut [u64], b: &Both, refusal: Option<u64>) -> u64 {
    let all = lamps_differ(b, refusal);
    let (key, one) = keys_differ(c, b, refusal).unwrap_or((0, 0));
    let what = all | one;
    if refusal.is_some() {
        return what;
    }
    judged(c, key, 0, 0, what);
    0
}
