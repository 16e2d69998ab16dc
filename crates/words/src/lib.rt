// Sets of bases as machine words, the lowest bit for base 0.
// One word holds a set while there are no more bases than its bits.
#![tactic(auto)]

ghost use Rattle.std.specs.Prelude.{◌≡◌, ◌+◌, ◌^◌, ◌<◌, ◌≤◌, get_or, set, true, false};
ghost use Rattle.net.specs.Limits.{max_bases};
ghost use Rattle.net.specs.Journal.{common};
ghost use Rattle.words.specs.Sets.{set_of, size_of, either, meet, minus, inside};

// Whether two sets have a common base.
pub fn shares(a: u64, b: u64) -> bool
    ensures { result ≡ common (set_of max_bases a) (set_of max_bases b) }
{
    a & b != 0
}

// Whether every base of a is in b.
pub fn within(a: u64, b: u64) -> bool
    ensures { result ≡ inside (set_of max_bases a) (set_of max_bases b) }
{
    a & b == a
}

// The set of all bases below n. A sheet has no more bases than the limit.
pub fn low_bits(n: usize) -> u64
    requires { n ≤ max_bases }
    ensures { result + 1 ≡ 2 ^ n }
{
    if n == 64 { u64::MAX } else { (1 << n) - 1 }
}

// Whether p is in the set. Labels and the bases of entries are below the limit.
pub fn has_base(w: u64, p: u8) -> bool
    requires { p < max_bases }
    ensures { result ≡ get_or (set_of max_bases w) p false }
{
    (w >> p) & 1 == 1
}

// The set with p. The callers count up to the limit, or read a base of a checked sheet.
pub fn with_base(w: u64, p: u8) -> u64
    requires { p < max_bases }
    ensures { set_of max_bases result ≡ set (set_of max_bases w) p true }
{
    w | (1 << p)
}

// The set without p. The callers have p from `lowest_base`.
pub fn without_base(w: u64, p: u8) -> u64
    requires { p < max_bases }
    ensures result_value { set_of max_bases result ≡ set (set_of max_bases w) p false }
    ensures upper_bound { get_or (set_of max_bases w) p false ≡ true → result < w }
{
    w ^ (w & (1 << p))
}

// The lowest base of a set that is not empty. The callers have seen that it is not.
pub fn lowest_base(w: u64) -> u8
    requires { w ≡ 0 → ⊥ }
    ensures { (result < max_bases) × (get_or (set_of max_bases w) result false ≡ true) }
{
    w.trailing_zeros() as u8
}

// What is in one set or the other.
pub fn union(a: u64, b: u64) -> u64
    ensures { set_of max_bases result ≡ either (set_of max_bases a) (set_of max_bases b) }
{
    a | b
}

// What is in both sets.
pub fn common_bases(a: u64, b: u64) -> u64
    ensures { set_of max_bases result ≡ meet (set_of max_bases a) (set_of max_bases b) }
{
    a & b
}

// What is in the first set and not in the other.
pub fn other_bases(a: u64, b: u64) -> u64
    ensures { set_of max_bases result ≡ minus (set_of max_bases a) (set_of max_bases b) }
{
    a ^ (a & b)
}

// How many bases are in the set.
pub fn count_bases(w: u64) -> u8
    ensures { result ≡ size_of (set_of max_bases w) }
{
    w.count_ones() as u8
}
