// The bonds of a record as rows: for each base the set of those that it is bonded to.
// Nothing where they are not as a record has them.
use marking::Marking;
use net::{MAX_BASES, MAX_BONDS};
use oracle::sets::{join, only};

pub const ROWS: usize = MAX_BASES;

// A bond is of a lower base with a higher, comes after the one before, and goes to the rows of both its bases; after the last all is 0.
// A bond's number grows in the order of bonds.
pub fn bond_rows(m: Marking) -> Option<[u64; ROWS]> {
    let mut rows = [0u64; ROWS];
    let mut last = 0;
    for i in 0..MAX_BONDS {
        let (lo, hi) = (m.lo[i], m.hi[i]);
        let number = u16::from(lo) * 256 + u16::from(hi);
        if i < m.count && lo < hi && last < number {
            join(&mut rows, usize::from(lo), only(usize::from(hi)));
            join(&mut rows, usize::from(hi), only(usize::from(lo)));
            last = number;
        } else if i < m.count || number != 0 {
            return None;
        }
    }
    Some(rows)
}
