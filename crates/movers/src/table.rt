// The table of last movers that a record keeps (document 02, T-06): for each base the key of the last live firing that moved it,
// 0 where none did. Marked in place by a firing, given back by a taking back; the lamp looks at a firing's own entries.
ghost use Rattle.std.specs.Prelude.{◌≡◌, List, ℕ, ◌<◌, ◌≤◌, eqb};
ghost use Rattle.net.specs.Limits.{max_bases, max_live};
ghost use Rattle.net.specs.Tests.{same_list};
ghost use Rattle.words.specs.Sets.{set_of, meet, minus};
ghost use Rattle.firings.specs.Lines.{lines_in};
ghost use Rattle.movers.specs.Lamp.{last_movers, key_at_all, marked, given_back};

use firings::Firings;
use net::{Key, MAX_BASES};
use words::{common_bases, lowest_base, other_bases, shares, union, without_base};

// Every base of the set gets the key: a turn for each base of the set.
pub fn mark(table: &mut [u16; MAX_BASES], set: u64, key: Key)
    ensures { table.new ≡ marked max_bases (set_of max_bases set) key.0 table.old }
{
    let mut left = set;
    while left != 0 {
        let p = lowest_base(left);
        table[p as usize] = key.0;
        left = without_base(left, p);
    }
}

// One firing on the way down: the bases of `left` that it moved get its key. Answers what is left.
fn mark_shared(table: &mut [u16; MAX_BASES], left: u64, moved: u64, key: Key) -> u64
    ensures { (table.new ≡ marked max_bases (meet (set_of max_bases left) (set_of max_bases moved)) key.0 table.old)
        × (set_of max_bases result ≡ minus (set_of max_bases left) (set_of max_bases moved)) }
{
    let shared = common_bases(left, moved);
    mark(table, shared, key);
    other_bases(left, moved)
}

// From the last of the first n firings down four at a time are passed, while none of the four moved a base of the set: what is left
// of the n, one at least. `mark_back` has some, and no more than the limit.
fn pass_four(f: &Firings, n: usize, set: u64) -> usize
    requires { (0 < n) × (n ≤ max_live) }
    ensures result_nonzero { (0 < result) × (result ≤ n) }
    ensures by_index { (table : List ℕ)
        → given_back max_bases (lines_in max_bases (record f.now { live = result })) (set_of max_bases set) table
        ≡ given_back max_bases (lines_in max_bases (record f.now { live = n })) (set_of max_bases set) table }
{
    let mut i = n;
    // Kept: four a turn, from the last down, and out where one of them moved a base of the set.
    while 4 < i {
        let upper = union(f.moved[i - 1], f.moved[i - 2]);
        let lower = union(f.moved[i - 3], f.moved[i - 4]);
        if shares(union(upper, lower), set) {
            return i;
        }
        i -= 4;
    }
    i
}

// Every base of the set gets the key of the last of the first n firings that moved it, 0 where none did: from the last of them
// down, until nothing of the set is left. The callers have no more firings than the limit.
pub fn mark_back(table: &mut [u16; MAX_BASES], f: &Firings, n: usize, set: u64)
    requires { n ≤ max_live }
    ensures { table.new ≡ given_back max_bases (lines_in max_bases (record f.now { live = n })) (set_of max_bases set) table.old }
{
    let mut left = set;
    let mut i = n;
    while 0 < i {
        if left == 0 {
            return;
        }
        i = pass_four(f, i, left) - 1;
        left = mark_shared(table, left, f.moved[i], Key(f.keys[i]));
    }
    mark(table, left, Key(0));
}

// Whether the table is that of the live firings. The callers have no more firings than the limit.
pub fn fits(table: &[u16; MAX_BASES], f: &Firings) -> bool
    requires { f.now.live ≤ max_live }
    ensures { result ≡ same_list eqb table.now (last_movers max_bases (lines_in max_bases f.now)) }
{
    let mut own = [0; MAX_BASES];
    mark_back(&mut own, f, f.live, u64::MAX);
    *table == own
}

// Whether every base of the set has the key in the table: what a lamp looks at. No other entry is read.
pub fn on_top(table: &[u16; MAX_BASES], set: u64, key: Key) -> bool
    ensures { result ≡ key_at_all max_bases table.now (set_of max_bases set) key.0 }
{
    let mut rest = set;
    while rest != 0 {
        let p = lowest_base(rest);
        if table[p as usize] != key.0 {
            return false;
        }
        rest = without_base(rest, p);
    }
    true
}
