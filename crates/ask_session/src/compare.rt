// Compares the two engines after a command: the answer with its key, the places, the bonds, the whole tally, the live firings, the table of
// last movers and the highest key given (module live). What differs is a sum: 1 the answer, 2 a place, 4 a bond, 8 the tally, 16 a live
// firing, 32 its moved bases, 64 the table, 128 the highest key.
use crate::live::live_differs;
use ask_tools::rows::bond_rows;
use case_records::heard::Heard;
use case_tools::bytes::byte;
use case_tools::counts::unless;
use marking::Marking;
use net::{Key, MAX_BASES};
use oracle::sets::{MARKING, bonds_at, homes, only, partners};
use oracle::{FIRED, REFUSED, UNDONE, tally_at};
use tally::Tally;

// A base of the sheet has one place in the other engine, ours; a base that is not there has place 0. It has the same bonds, in
// its place and on the whole.
fn base_differs(s: &[u64], place: u8, row: u64, b: usize, there: bool) -> u64 {
    let x = usize::from(place);
    let placed = if there {
        homes(s, MARKING, b) == only(x)
    } else {
        x == 0
    };
    let bonded = bonds_at(s, MARKING, x, b) == row && partners(s, b) == row;
    unless(placed, 2) | unless(bonded, 4)
}

fn marking_differs(m: Marking, s: &[u64], bases: usize) -> u64 {
    let Some(rows) = bond_rows(m) else {
        return 4;
    };
    let mut all = 0;
    for i in 0..MAX_BASES {
        all |= base_differs(s, m.places[i], rows[i], i, i < bases);
    }
    all
}

// The second engine's tally is counted from its replies.
fn tally_differs(t: Tally, s: &[u64]) -> u64 {
    let fired = u64::from(t.fired) == tally_at(s, FIRED);
    let undone = u64::from(t.undone) == tally_at(s, UNDONE);
    let refused = u64::from(t.refused) == tally_at(s, REFUSED);
    unless(fired && undone && refused, 8)
}

// A refused command has key 0.
fn answer_differs(ours: u64, key: Key, reply: u64) -> u64 {
    let keyed = key.0 == 0 || ours / 65536 != REFUSED;
    unless(ours == reply && keyed, 1)
}

// What differs after a command; 0 where nothing does.
pub fn differs(h: &Heard, sheet: &[u8], s: &[u64], reply: u64) -> u64 {
    let bases = usize::from(byte(sheet, 2));
    let answer = answer_differs(h.said, h.key, reply);
    let marking = marking_differs(h.session.marking, s, bases);
    answer | marking | tally_differs(h.tally, s) | live_differs(h.session, s)
}
