// What is counted of lamps and of entries of the table of last movers.
// Floors stand in the comparing program's rows.
use ask_tools::both::Both;
use case_tools::counts::more;
use net::MAX_BASES;
use oracle::reader::arc_bases;
use oracle::sets::has;
use oracle::{UNDONE, slot_of, transition_at};
use session::Record;

// A serial that was asked for, in the second engine's state: 8 all, 9 not live, 10 not lit though live, 11 lit.
pub fn count_lamp(c: &mut [u64], s: &[u64], key: u64, lit: bool) {
    let live = key != 0 && slot_of(s, key) != 256;
    more(c, 8, 1, true);
    more(c, 9, 1, !lit && !live);
    more(c, 10, 1, !lit && live);
    more(c, 11, 1, lit);
}

// The entries of all parts before and after a command: 12 that went back to an earlier serial, 13 to 0; 14 that got the serial of a firing
// which carried the part, without an entry of the step for it.
pub fn count_entries(c: &mut [u64], before: Record, after: &Both, reply: u64) {
    let key = (reply % 65536) as u16;
    let step = transition_at(&after.state, slot_of(&after.state, reply % 65536));
    let entries = arc_bases(after.sheet, step);
    let undone = reply / 65536 == UNDONE;
    for p in 0..MAX_BASES {
        let new = after.record.movers[p];
        let back = undone && before.movers[p] == key;
        more(c, 12, 1, back && new != 0);
        more(c, 13, 1, back && new == 0);
        more(c, 14, 1, reply < 65536 && new == key && !has(entries, p));
    }
}
