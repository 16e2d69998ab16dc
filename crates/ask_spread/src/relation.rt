// Which live firing of the second engine's history depends on which: directly, and through others, closed by going through every firing
// between two others. A firing is numbered from 0, the lowest serial first, as in its list (least_sets, lines); a set of firings is a
// word, and each firing has two of them.
use least_sets::lines::{key_at, moved_at, share};
use oracle::sets::{has, only};

// The most live firings that are compared.
pub const MOST: usize = 64;

#[derive(Clone, Copy)]
pub struct Relation {
    direct: [u64; MOST],
    closed: [u64; MOST],
}

impl Relation {
    pub fn of(h: &[u64]) -> Relation {
        let mut d = Relation {
            direct: [0; MOST],
            closed: [0; MOST],
        };
        for i in 0..MOST {
            for j in 0..MOST {
                d.relate(h, i, j);
            }
        }
        for k in 0..MOST {
            for i in 0..MOST {
                d.go_through(k, i);
            }
        }
        d
    }

    // A firing, and those that depend on it directly.
    pub fn with_direct(&self, i: usize) -> u64 {
        only(i) | self.direct[i % MOST]
    }

    // A firing, and those that depend on it directly or through others.
    pub fn with_all(&self, i: usize) -> u64 {
        only(i) | self.closed[i % MOST]
    }

    // If firing j depends on firing i: it is later, and moved a part that i moved. Where there is no firing, no part was moved.
    fn relate(&mut self, h: &[u64], i: usize, j: usize) {
        if key_at(h, i) < key_at(h, j) && share(h, i, j) {
            self.direct[i % MOST] |= only(j);
            self.closed[i % MOST] |= only(j);
        }
    }

    // If k depends on i, so does what depends on k.
    fn go_through(&mut self, k: usize, i: usize) {
        if has(self.with_all(i), k) {
            let further = self.with_all(k);
            self.closed[i % MOST] |= further;
        }
    }
}

// The parts that the firings of a set moved.
pub fn parts_of(h: &[u64], set: u64) -> u64 {
    (0..MOST)
        .filter(|&i| has(set, i))
        .fold(0, |all, i| all | moved_at(h, i))
}
