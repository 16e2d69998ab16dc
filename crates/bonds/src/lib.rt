// Bonds where they lie, in two lent slices of ends, in strict order: the place of a bond in that order, by halving, and
// whether it is there. Nothing is copied.
#![tactic(auto)]

ghost use Rattle.std.specs.Prelude.{◌≡◌, ◌≤◌, length};
ghost use Rattle.net.specs.Net.{bond, same_bond, less_bond, has_bond};
ghost use Rattle.net.specs.Sorted.{Ascending};
ghost use Rattle.bonds.specs.Ends.{bonds_in, rank_in};

use net::{Base, Bond};

// Whether b is the bond of p and q.
fn is_bond(b: Bond, p: Base, q: Base) -> bool
    ensures { result ≡ same_bond b (bond p q) }
{
    (b.lo == p) & (b.hi == q)
}

// Whether the bond of p and q is less than b.
fn is_less(p: Base, q: Base, b: Bond) -> bool
    ensures { result ≡ less_bond (bond p q) b }
{
    (p < b.lo) | ((p == b.lo) & (q < b.hi))
}

// How many of the first `count` bonds are less than b: where b stands, or is to stand.
// The callers' arrays hold a marking in its form: there is room for `count` bonds, and these are in strict order.
pub fn rank<'a>(lo: &'a [Base], hi: &'a [Base], count: usize, b: Bond) -> usize
    requires { (count ≤ length lo.now) × (count ≤ length hi.now)
        × Ascending same_bond less_bond (bonds_in lo.now hi.now count) }
    ensures { result ≡ rank_in lo.now hi.now count b }
{
    let mut from = 0;
    let mut n = count;
    while 0 < n {
        let half = n / 2;
        let mid = from + half;
        if is_less(lo[mid], hi[mid], b) {
            from = mid + 1;
            n = n - half - 1;
        } else {
            n = half;
        }
    }
    from
}

// Whether b is among the first `count` bonds, by one comparison at its rank k, which the caller has.
pub fn stands_at<'a>(lo: &'a [Base], hi: &'a [Base], count: usize, b: Bond, k: usize) -> bool
    requires count_in_bounds { (count ≤ length lo.now) × (count ≤ length hi.now)
        × Ascending same_bond less_bond (bonds_in lo.now hi.now count) }
    requires k_value { k ≡ rank_in lo.now hi.now count b }
    ensures { result ≡ has_bond b (bonds_in lo.now hi.now count) }
{
    if k < count {
        is_bond(b, lo[k], hi[k])
    } else {
        false
    }
}

// Whether b is among the first `count` bonds, which the callers hold in strict order.
pub fn has_bond<'a>(lo: &'a [Base], hi: &'a [Base], count: usize, b: Bond) -> bool
    requires { (count ≤ length lo.now) × (count ≤ length hi.now)
        × Ascending same_bond less_bond (bonds_in lo.now hi.now count) }
    ensures { result ≡ has_bond b (bonds_in lo.now hi.now count) }
{
    let k = rank(lo, hi, count, b);
    stands_at(lo, hi, count, b, k)
}
