// Steps of a list fired in turn from a fresh record, on both engines, and the listing then. The steps of a listing, fired so, give its
// places and couplings and the very listing.
use crate::told::{judged_lists, told_differs, told_of};
use case_records::heard::{begun, commanded};
use case_records::same_record;
use case_tools::counts::{judged, unless};
use generated::drawn::{bytes_of, made};
use generated::random::mixed;
use least_sets::lines::{count_of, live_lines, step_at};
use session::Record;
use session_start::start;

// A command, given to both engines; the answers are compared.
fn turn(c: &mut [u64], r: Record, sheet: &[u8], s: &mut [u64], g: u64) -> Record {
    let bytes = bytes_of(g);
    let reply = oracle::command(sheet, &bytes, s);
    let heard = commanded(r, sheet, &bytes, begun(0));
    judged(c, 0, heard.said, reply, unless(heard.said == reply, 1));
    heard.session
}

// A step fired; twice is then taken back and fired again, so that a serial is used up.
fn fire(c: &mut [u64], r: Record, sheet: &[u8], s: &mut [u64], step: u64, twice: bool) -> Record {
    let first = turn(c, r, sheet, s, made(1, step, 3));
    if !twice {
        return first;
    }
    let back = turn(c, first, sheet, s, made(2, 0, 3));
    turn(c, back, sheet, s, made(1, step, 3))
}

// The steps of a list in turn from a fresh record, some twice where there is a lot. The second engine's state is left in the slice.
pub fn run_again(
    c: &mut [u64],
    sheet: &[u8],
    g: &[u64],
    lot: Option<u64>,
    s: &mut [u64],
) -> Record {
    oracle::begin(sheet, s, 0);
    let mut r = start(sheet).session;
    for i in 0..count_of(g) {
        let twice = match lot {
            Some(lot) => mixed(lot, i as u64, 0, 9) % 3 == 0,
            None => false,
        };
        r = fire(c, r, sheet, s, step_at(g, i), twice);
    }
    r
}

// Whether the marking of a record is that of another: with it instead of its own the other is the same.
fn same_marking(a: Record, b: Record) -> bool {
    let mixed = Record {
        marking: a.marking,
        ..b
    };
    same_record(mixed, b)
}

// The steps that were told, each fired. The live firings and the record in the end: as many firings, of those steps in turn; the marking;
// the listing.
pub fn relist(c: &mut [u64], r: Record, sheet: &[u8], told: &[u64]) {
    let mut s = oracle::zeros();
    let end = run_again(c, sheet, told, None, &mut s);
    let again = told_of(end, sheet);
    let fired = unless(told_differs(&live_lines(&s), told) == 0, 32);
    let marking = unless(same_marking(end, r), 64);
    let listed = unless(told_differs(&again, told) == 0, 128);
    judged_lists(c, &again, told, fired | marking | listed);
}
