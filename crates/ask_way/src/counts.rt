// What is counted of the least sets.
// Floors stand in the comparing program's rows.
use case_tools::counts::more;
use least_sets::least::{NO_SET, least_for};

// What each part of the layout needs alone, together.
fn alone(table: &[u64], layout: &[u8]) -> u64 {
    let mut all = 0;
    for b in 0..layout.len() {
        all |= least_for(table, layout, b, b + 1);
    }
    all
}

// Sets of 0, of 1, of 2 and of 3 firings, and larger ones: 10 to 14. Sets that leave a firing live which is later than one of theirs: 15;
// that are more than what each named part needs alone: 16.
fn count_found(c: &mut [u64], set: u64, apart: u64) {
    let size = (set.count_ones() as usize).min(4);
    more(c, 10 + size, 1, true);
    more(c, 15, 1, set & (set % 1024 + 1) != 0);
    more(c, 16, 1, apart != set);
}

// The least set for a layout: 8 all, 9 where there is none.
pub fn count_set(c: &mut [u64], table: &[u64], layout: &[u8], set: u64) {
    more(c, 8, 1, true);
    if set == NO_SET {
        more(c, 9, 1, true);
    } else {
        count_found(c, set, alone(table, layout));
    }
}
