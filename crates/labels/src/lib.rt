// Labels: connected bases have one label; and the set of the bases of each label.
// Bonds that are put in join labels; where bonds go, the labels are made anew over parents.
#![tactic(auto)]

ghost use Rattle.std.specs.Prelude.{◌≡◌, List, [], eqb, ℕ, ◌+◌, ◌<◌, ◌≤◌, length, get_or};
ghost use Rattle.net.specs.Limits.{max_bases, max_bonds};
ghost use Rattle.net.specs.Tests.{table};
ghost use Rattle.net.specs.Net.{same_bond, less_bond};
ghost use Rattle.net.specs.Sorted.{put};
ghost use Rattle.net.specs.declared.Bond.{Bond};
ghost use Rattle.bonds.specs.Ends.{ends};
ghost use Rattle.marking.specs.Form.{bonds_of};
ghost use Rattle.words.specs.Sets.{set_of};
ghost use Rattle.labels.specs.Labelled.{label_in, renamed, Parted, Labelled, Within, Fits};
ghost use Rattle.labels.specs.Forest.{Down, Forest, Spans, roots_below};

use marking::Marking;
use net::{Base, Bond, MAX_BASES};
use std::array;
use words::{union, with_base};

// For each base its label, and for each label the set of its bases.
#[derive(Clone, Copy)]
pub struct Labels {
    pub of: [Base; MAX_BASES],
    pub members: [u64; MAX_BASES],
}

impl Labels {
    // The labels of a marking's bonds and their sets, made anew. The callers hold a marking in its form, and a good one: the bonds
    // fit, and are of bases below the limit.
    pub fn of_marking(m: &Marking) -> Labels
        requires count_in_bounds { m.now.count ≤ max_bonds }
        requires by_index { (i : ℕ) → i < m.now.count → Within max_bases (ends m.now.lo m.now.hi i) }
        ensures { Labelled result.of result.members (bonds_of m.now) }
    {
        let mut labels = Labels {
            of: [0; MAX_BASES],
            members: [0; MAX_BASES],
        };
        labels.remake(m);
        labels
    }

    // The same where there are labels already, whatever they are: in place, so that none are copied.
    pub fn remake(&mut self, m: &Marking)
        requires count_in_bounds { m.now.count ≤ max_bonds }
        requires by_index { (i : ℕ) → i < m.now.count → Within max_bases (ends m.now.lo m.now.hi i) }
        ensures { Labelled self.new.of self.new.members (bonds_of m.now) }
    {
        label_all(&mut self.of, m);
        set_members(&self.of, &mut self.members);
    }

    // The labels of no bonds: each base has its own.
    pub fn unbound() -> Labels
        ensures { Labelled result.of result.members [] }
    {
        let of = own_parents();
        let mut members = [0; MAX_BASES];
        set_members(&of, &mut members);
        Labels { of, members }
    }

    // The labels and their sets after one more bond. Where its ends have one label already nothing changes.
    // The callers' labels are `Labelled`, so they fit; a checked sheet's bonds are of bases below the limit.
    pub fn join(&mut self, b: Bond)
        requires { Fits self.old.of self.old.members × Within max_bases b }
        ensures fits { Fits self.new.of self.new.members }
        ensures labelled { (bs : List Bond) → Labelled self.old.of self.old.members bs
            → Labelled self.new.of self.new.members (put same_bond less_bond b bs) }
    {
        let to = self.of[b.lo as usize];
        let from = self.of[b.hi as usize];
        if to == from {
            return;
        }
        self.members[to as usize] = union(self.members[to as usize], self.members[from as usize]);
        rename_in(&mut self.of, from, to);
    }
}

// A label, once `from` is renamed to `to`.
fn new_label(x: Base, from: Base, to: Base) -> Base
    ensures { result ≡ renamed from to x }
{
    if x == from { to } else { x }
}

// One pass over all labels: `from` gives way to `to`.
fn rename_in(l: &mut [Base; MAX_BASES], from: Base, to: Base)
    ensures { l.new ≡ table max_bases (λ p. renamed from to (get_or l.old p 0)) }
{
    for x in l.iter_mut() {
        *x = new_label(*x, from, to);
    }
}

// The root over p. Callers have united bonds only, so no parent is higher; the ends of bonds are below the limit.
fn root(l: &[Base; MAX_BASES], p: Base) -> Base
    requires { (p < max_bases) × Down max_bases l.now }
    ensures { (result ≤ p) × (get_or l.now result 0 ≡ result)
        × ((f : ℕ → ℕ) → Forest max_bases l.now f → f result ≡ f p) }
{
    let mut x = p;
    let mut up = l[x as usize];
    while up < x {
        x = up;
        up = l[x as usize];
    }
    x
}

// One more bond: the higher root goes under the lower. Answers how many roots fewer there are: 1, or 0 where the ends
// have one root. Most bonds of many have ends of one parent, which is seen at once.
// The parents are those that `unite_all` began with and this function changed; its caller knows the ends' range.
fn unite(l: &mut [Base; MAX_BASES], b: Bond) -> usize
    requires { Within max_bases b × Down max_bases l.old }
    ensures by_index { (n : ℕ) → n ≤ max_bases → Within n b
        → roots_below n l.new + result ≡ roots_below n l.old }
    ensures spans { (bs : List Bond) → Spans max_bases l.old bs
        → Spans max_bases l.new (put same_bond less_bond b bs) }
{
    let p = l[b.lo as usize];
    let q = l[b.hi as usize];
    if p == q {
        return 0;
    }
    let x = root(l, b.lo);
    let y = root(l, b.hi);
    if x < y {
        l[y as usize] = x;
        return 1;
    }
    if y < x {
        l[x as usize] = y;
        return 1;
    }
    0
}

// Each base gets its root for a label: its parent's entry is its root already. `label_all` has united the bonds before.
fn flatten(l: &mut [Base; MAX_BASES])
    requires { Down max_bases l.old }
    ensures { (bs : List Bond) → Spans max_bases l.old bs → Parted max_bases l.new bs }
{
    for p in 0..MAX_BASES {
        l[p] = l[l[p] as usize];
    }
}

// At first each base is its own parent.
fn own_parents() -> [Base; MAX_BASES]
    ensures { result ≡ table max_bases (λ p. p) }
{
    array::from_fn(|p| p as Base)
}

// The bonds of the marking united, in their order, until one root is left of the first n bases: further bonds then change
// nothing. The bonds are of these bases: n is `bases_in`'s.
fn unite_all(l: &mut [Base; MAX_BASES], m: &Marking, n: usize)
    requires count_in_bounds { m.now.count ≤ max_bonds }
    requires n_le_max_bases { (n ≤ max_bases) × ((i : ℕ) → i < m.now.count → Within n (ends m.now.lo m.now.hi i)) }
    ensures { Spans max_bases l.new (bonds_of m.now) }
{
    *l = own_parents();
    let mut roots = n;
    for i in 0..m.count {
        roots -= unite(l, m.bond_at(i));
        if roots < 2 {
            return;
        }
    }
}

// A number of bases that the bonds are of: one more than the highest.
fn bases_in(m: &Marking) -> usize
    requires count_in_bounds { m.now.count ≤ max_bonds }
    requires by_index { (i : ℕ) → i < m.now.count → Within max_bases (ends m.now.lo m.now.hi i) }
    ensures { (result ≤ max_bases) × ((i : ℕ) → i < m.now.count → Within result (ends m.now.lo m.now.hi i)) }
{
    let mut top: Base = 0;
    for k in 0..m.count {
        top = top.max(m.lo[k]).max(m.hi[k]);
    }
    top as usize + 1
}

// The label of each base, made over parents. What it asks is what `remake` asks.
fn label_all(l: &mut [Base; MAX_BASES], m: &Marking)
    requires count_in_bounds { m.now.count ≤ max_bonds }
    requires by_index { (i : ℕ) → i < m.now.count → Within max_bases (ends m.now.lo m.now.hi i) }
    ensures { Parted max_bases l.new (bonds_of m.now) }
{
    unite_all(l, m, bases_in(m));
    flatten(l);
}

// The set of each label: at first none has a base, then each base goes into its label's. The labels are `label_all`'s.
fn set_members(l: &[Base; MAX_BASES], members: &mut [u64; MAX_BASES])
    requires { (p : ℕ) → p < max_bases → label_in l.now p < max_bases }
    ensures { (length members.new ≡ max_bases)
        × ((x : ℕ) → x < max_bases → set_of max_bases (get_or members.new x 0)
        ≡ table max_bases (λ q. eqb x (label_in l.now q))) }
{
    *members = [0; MAX_BASES];
    for p in 0..MAX_BASES {
        let x = l[p] as usize;
        members[x] = with_base(members[x], p as Base);
    }
}
