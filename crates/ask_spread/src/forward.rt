// The forward run of the live firings that are neither the given one nor depend on it: their steps as commands of kind 1, in the order of
// their serials, from a fresh record. Every part outside the told set has the place and the couplings then that it has now.
use ask_tools::led::{Led, go_on, led_to};
use ask_tools::rows::bond_rows;
use case_tools::counts::{more, unless};
use least_sets::lines::{count_of, step_at};
use marking::Marking;
use net::MAX_BASES;
use oracle::reader::count;
use oracle::sets::has;
use oracle::{FIRED, reply};
use session::Record;
use session_start::start;

// A step is fired; its serials are 1 upward.
fn fired(p: Led, sheet: &[u8], step: u64) -> Led {
    let bytes = [1, (step % 256) as u8, 0];
    go_on(p, sheet, &bytes, reply(FIRED, p.count % 65536 + 1))
}

// The run without the firings of a set.
fn run_without(first: Record, sheet: &[u8], h: &[u64], out: u64) -> Led {
    (0..count_of(h))
        .filter(|&i| !has(out, i))
        .fold(led_to(first), |p, i| fired(p, sheet, step_at(h, i)))
}

// The parts of a sheet that are not in the told set.
fn outside_of(sheet: &[u8], told: u64) -> u64 {
    let n = count(sheet, 2);
    let none = if n < 64 { u64::MAX << n } else { 0 };
    !(none | told)
}

// What differs of the parts outside.
fn outside_differs(now: Marking, then: Marking, outside: u64) -> u64 {
    let (Some(rows), Some(again)) = (bond_rows(now), bond_rows(then)) else {
        return 128;
    };
    let mut what = 0;
    for p in 0..MAX_BASES {
        if has(outside, p) {
            what |= unless(now.places[p] == then.places[p], 64);
            what |= unless(rows[p] == again[p], 128);
        }
    }
    what
}

// What differs in the run without a set of firings. Forward runs are counted in 8, commands fired in them in 9, parts outside in 10.
pub fn run_differs(c: &mut [u64], r: Record, sheet: &[u8], h: &[u64], out: u64, told: u64) -> u64 {
    let p = run_without(start(sheet).session, sheet, h, out);
    let outside = outside_of(sheet, told);
    more(c, 8, 1, true);
    more(c, 9, p.count, p.holds);
    more(c, 10, u64::from(outside.count_ones()), true);
    unless(p.holds, 32) | outside_differs(r.marking, p.session.marking, outside)
}
