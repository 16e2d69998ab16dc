// The form of a marking (document 01, the record: unused entries hold 0) as a test, and whether two markings
// are the same. Every entry of the form is looked at: no early exit within an array.
#![tactic(auto)]

ghost use Rattle.std.specs.Prelude.{◌≡◌, true, ◌≤◌, eqb, length, take};
ghost use Rattle.net.specs.Limits.{max_bases, max_bonds};
ghost use Rattle.net.specs.Tests.{same_list};
ghost use Rattle.net.specs.History.{same_marking};
ghost use Rattle.marking.specs.Form.{marking_of, laid, zero_from, in_form};

use marking::Marking;
use net::MAX_BONDS;

// Whether a is nothing but zeros from k on.
fn zero_bytes(a: &[u8], k: usize) -> bool
    ensures { result ≡ zero_from k a.now }
{
    let mut zero = true;
    for i in k..a.len() {
        zero = zero & (a[i] == 0);
    }
    zero
}

// Whether a marking of n bases is in its form: the bonds fit, and unused entries are 0. One in its form is laid out as
// the marking that it holds is.
pub fn in_form(n: usize, m: &Marking) -> bool
    ensures value { result ≡ in_form n m.now }
    ensures laid_out { result ≡ true → n ≤ max_bases → m.now ≡ laid (marking_of n m.now) }
{
    let fits = m.count <= MAX_BONDS;
    let low = zero_bytes(&m.lo, m.count);
    let high = zero_bytes(&m.hi, m.count);
    let rest = zero_bytes(&m.places, n);
    fits & (low & (high & rest))
}

// Whether two markings of n bases are the same. Callers know that the bonds fit and n is within its limit.
pub fn same_marking(n: usize, a: &Marking, b: &Marking) -> bool
    requires { (n ≤ max_bases) × (a.now.count ≤ max_bonds) × (b.now.count ≤ max_bonds) }
    ensures { result ≡ same_marking (marking_of n a.now) (marking_of n b.now) }
{
    if a.count != b.count {
        return false;
    }
    let count = a.count;
    let all = a.places[..n] == b.places[..n];
    let low = a.lo[..count] == b.lo[..count];
    let high = a.hi[..count] == b.hi[..count];
    all & (low & high)
}
