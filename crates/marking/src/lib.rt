// A marking: the places of the bases, and the bonds in ascending order; unused entries are 0.
// Bonds go in and out where they lie, at their place in the order.
#![tactic(auto)]

ghost use Rattle.std.specs.Prelude.{◌≡◌, not, ◌∷◌, ◌++◌, ◌+◌, ◌-◌, ◌<◌, ◌≤◌, length, get_or, drop};
ghost use Rattle.net.specs.Limits.{max_bonds};
ghost use Rattle.net.specs.Tests.{keep, table};
ghost use Rattle.net.specs.Sorted.{Ascending, put};
ghost use Rattle.net.specs.Net.{same_bond, less_bond, has_bond};
ghost use Rattle.bonds.specs.Ends.{ends};
ghost use Rattle.marking.specs.Shift.{slot, gap};
ghost use Rattle.marking.specs.Form.{bonds_of, with_bonds, InOrder};

use bonds::{has_bond, rank, stands_at};
use net::{Base, Bond, MAX_BASES, MAX_BONDS, Place};

#[derive(Clone, Copy)]
pub struct Marking {
    pub places: [Place; MAX_BASES],
    pub count: usize,
    pub lo: [Base; MAX_BONDS],
    pub hi: [Base; MAX_BONDS],
}

// x goes in at k of the first n; what stood there and after it goes one further.
// `put_bond` asks with a rank, and where there is room.
fn insert(a: &mut [Base; MAX_BONDS], n: usize, k: usize, x: Base)
    requires { (k ≤ n) × (n < max_bonds) }
    ensures { a.new ≡ table (n + 1) (slot k x (λ i. get_or a.old i 0)) ++ drop (n + 1) a.old }
{
    a.copy_within(k..n, k + 1);
    a[k] = x;
}

// What stands at k of the first n goes out; what stood after it goes one nearer, and the entry that this frees is 0.
// `take_bond` asks with the rank of a bond that is there.
fn remove(a: &mut [Base; MAX_BONDS], n: usize, k: usize)
    requires { (k < n) × (n ≤ max_bonds) }
    ensures { a.new ≡ table (n - 1) (gap k (λ i. get_or a.old i 0)) ++ (0 ∷ drop n a.old) }
{
    a.copy_within(k + 1..n, k);
    a[n - 1] = 0;
}

impl Marking {
    // b goes in at its place, unless it is there. Callers hold a marking in its form with bonds in strict order; bonds of bases
    // below the limit are at most as many as the arrays hold, so there is room for b.
    pub fn put_bond(&mut self, b: Bond)
        requires in_order { InOrder self.old }
        requires count_len_bound { length (put same_bond less_bond b (bonds_of self.old)) ≤ max_bonds }
        ensures { self.new ≡ with_bonds self.old (put same_bond less_bond b (bonds_of self.old)) }
    {
        let k = rank(&self.lo, &self.hi, self.count, b);
        if stands_at(&self.lo, &self.hi, self.count, b, k) {
            return;
        }
        insert(&mut self.lo, self.count, k, b.lo);
        insert(&mut self.hi, self.count, k, b.hi);
        self.count += 1;
    }

    // b goes out, if it is there, and what follows it closes the gap. Callers hold a marking in its form with bonds in strict
    // order.
    pub fn take_bond(&mut self, b: Bond)
        requires { InOrder self.old }
        ensures { self.new ≡ with_bonds self.old (keep (λ c. not (same_bond c b)) (bonds_of self.old)) }
    {
        let k = rank(&self.lo, &self.hi, self.count, b);
        if !stands_at(&self.lo, &self.hi, self.count, b, k) {
            return;
        }
        remove(&mut self.lo, self.count, k);
        remove(&mut self.hi, self.count, k);
        self.count -= 1;
    }

    // The bond at i. The callers ask below the number of bonds, which fit.
    pub fn bond_at(&self, i: usize) -> Bond
        requires { i < max_bonds }
        ensures { result ≡ ends self.now.lo self.now.hi i }
    {
        Bond {
            lo: self.lo[i],
            hi: self.hi[i],
        }
    }

    // Whether b is among the bonds, which the callers hold in strict order.
    pub fn has_bond(&self, b: Bond) -> bool
        requires { (self.now.count ≤ max_bonds) × Ascending same_bond less_bond (bonds_of self.now) }
        ensures { result ≡ has_bond b (bonds_of self.now) }
    {
        has_bond(&self.lo, &self.hi, self.count, b)
    }
}
