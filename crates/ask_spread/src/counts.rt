// What is counted of the sets of parts.
// Floors stand in the comparing program's rows.
use crate::relation::parts_of;
use case_tools::counts::more;
use least_sets::lines::moved_at;
use oracle::sets::less;

// Whether a firing moved a part of the set and another.
fn reaches_out(moved: u64, set: u64) -> bool {
    moved & set != 0 && less(moved, set) != 0
}

// The set of parts of firing i, of which those that depend on it directly are known: 14 all; 15 more than the firing's own parts; 16 with parts
// that only come in through another firing; 17 with a part that a firing of lower serial moved, which moved others too.
pub fn count_set(c: &mut [u64], h: &[u64], i: usize, direct: u64, set: u64) {
    let lower = (0..i).any(|j| reaches_out(moved_at(h, j), set));
    more(c, 14, 1, true);
    more(c, 15, 1, moved_at(h, i) != set);
    more(c, 16, 1, parts_of(h, direct) != set);
    more(c, 17, 1, lower);
}
