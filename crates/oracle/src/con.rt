// con(a, C) of document 004, chapter 3: the bases that bonds of C lead to from a. Here C is what a table has in a place.
// Nothing outside the place is looked at.
use crate::sets::{Table, bases_at, bonds_at, has, union};

// The set, and the bases of the place that a bond leads to from one of them.
fn grown(s: &[u64], table: Table, place: usize, set: u64) -> u64 {
    let next_to = |b| if has(set, b) {
        bonds_at(s, table, place, b)
    } else {
        0
    };
    set | (bases_at(s, table, place) & union(64, next_to))
}

// The union of con(a, C) over the bases a of a set: bond after bond from all of them, until nothing is new. 64 bases need no
// more than 64 turns.
pub fn cons(s: &[u64], table: Table, place: usize, set: u64) -> u64 {
    let mut reached = bases_at(s, table, place) & set;
    if reached == 0 {
        return 0;
    }
    for _ in 0..64 {
        let next = grown(s, table, place, reached);
        if next == reached {
            break;
        }
        reached = next;
    }
    reached
}
