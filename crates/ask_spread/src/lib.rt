// How far one firing spreads (document 02, T-08), asked by the customer's call. For each live serial the parts are those by the second engine's
// history (relation), by the sets that can be taken back (subsets), and leave the others as they are in the forward run (forward).
// For any other serial the call is refused as 19. What differs is a sum: 1 the number, 2 the parts, 4 more live firings than can be compared;
// of the sets 8 that none is the least, 16 the parts of the least; of the run 32 a command, 64 a place, 128 a coupling.
#![tactic(auto)]

mod counts;
mod forward;
mod relation;
mod subsets;

use ask_tools::both::Both;
use case_tools::counts::{judged, more, unless};
use counts::count_set;
use forward::run_differs;
use least_sets::lines::{count_of, key_at, live_lines};
use net::{Key, MAX_BASES};
use oracle::sets::only;
use oracle::{given, slot_of};
use questions::spread;
use relation::{MOST, Relation, parts_of};
use subsets::{SETS, lay_sets, least_differs};

// All flags as a set, those of no part too.
fn set_of(parts: [bool; MAX_BASES]) -> u64 {
    parts
        .iter()
        .enumerate()
        .filter(|(_, there)| **there)
        .fold(0, |set, (p, _)| set | only(p))
}

// What the call gives.
#[derive(Clone, Copy)]
struct Told {
    number: u64,
    set: u64,
}

fn told_of(b: &Both, key: u64) -> Told {
    let spread = spread(b.record, b.sheet, Key((key % 65536) as u16));
    Told {
        number: u64::from(spread.answer.number()),
        set: set_of(spread.parts),
    }
}

fn told_differs(t: Told, number: u64, set: u64) -> u64 {
    unless(t.number == number, 1) | unless(t.set == set, 2)
}

// The live firings: their list, their relation, and the table of their sets.
#[derive(Clone, Copy)]
struct Live<'a> {
    lines: &'a [u64],
    relation: &'a Relation,
    table: &'a [u64],
}

impl Live<'_> {
    // Firing i.
    fn ask(&self, c: &mut [u64], b: &Both, i: usize) {
        let h = self.lines;
        let key = key_at(h, i);
        let all = self.relation.with_all(i);
        let set = parts_of(h, all);
        let t = told_of(b, key);
        let least = least_differs(self.table, h, i, all, t.set);
        let run = run_differs(c, b.record, b.sheet, h, all, t.set);
        count_set(c, h, i, self.relation.with_direct(i), set);
        judged(c, key, t.set, set, told_differs(t, 0, set) | least | run);
    }
}

// Calls refused as 19 are counted in 13.
fn ask_other(c: &mut [u64], b: &Both, key: u64) {
    if key != 0 && slot_of(&b.state, key) < 256 {
        return;
    }
    let t = told_of(b, key);
    let what = told_differs(t, 19, 0);
    more(c, 13, 1, what == 0);
    judged(c, key, t.set, 0, what);
}

// Each live firing, then the other serials, from 0 to the highest given and one more. None is given above 2,000 here.
fn ask_all(c: &mut [u64], b: &Both, lines: &[u64]) {
    let mut table = [0u64; SETS];
    lay_sets(c, &mut table, b.record, b.sheet, lines);
    let live = Live {
        lines,
        relation: &Relation::of(lines),
        table: &table,
    };
    for i in 0..count_of(lines) {
        live.ask(c, b, i);
    }
    for key in 0..given(&b.state) % 4096 + 2 {
        ask_other(c, b, key);
    }
}

// Where a refusal is expected, whatever the serial, says what differs: that of live firing i, 0 where there is none. Else that is judged.
pub fn ask(c: &mut [u64], b: &Both, i: usize, refusal: Option<u64>) -> u64 {
    let h = live_lines(&b.state);
    if let Some(number) = refusal {
        return told_differs(told_of(b, key_at(&h, i)), number, 0);
    }
    if MOST < count_of(&h) {
        judged(c, 0, count_of(&h) as u64, MOST as u64, 4);
    } else {
        ask_all(c, b, &h);
    }
    0
}
