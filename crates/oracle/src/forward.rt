// Forward-enabledness (document 004, Definition 21), by the refusals 13 to 16 in checking order, and the bases that a
// firing uses. 21(2) is not followed; 4(4), which document 01 has as 15, stays (document 02, T-07). The transition's labels have
// been laid.
use crate::con::cons;
use crate::refusal::Refusal;
use crate::sets::{Table, bases_at, lay, less, size, union, word_at};

// 21(1): a base of F(x, t) that M(x) has not.
fn lacks_bases(s: &[u64]) -> bool {
    (0..64).any(|x| less(
        bases_at(s, Table::Incoming, x),
        bases_at(s, Table::Marking, x),
    ) != 0)
}

// 21(1) and 11(1): anything of F(x, t), or of F(t, x), that M(x) has not; once the bases are there, a bond.
pub fn lacks(s: &[u64], labels: Table) -> bool {
    (0..size(s)).any(|i| less(word_at(s, labels, i), word_at(s, Table::Marking, i)) != 0)
}

// 4(4): a bond of post(t) in M(y), y incoming, that is not in F(y, t). Row 0 is no bond.
fn repeats(s: &[u64], y: usize, row: usize, i: usize) -> bool {
    let both = word_at(s, Table::Post, row) & word_at(s, Table::Marking, i);
    let bonds = less(both, word_at(s, Table::Incoming, i));
    row != 0 && bases_at(s, Table::Incoming, y) != 0 && bonds != 0
}

// (M(x) - pre(t)) with post(t): a word of it.
fn changed_at(s: &[u64], i: usize) -> u64 {
    let stays = less(
        word_at(s, Table::Marking, i),
        word_at(s, Table::Pre, i % 65),
    );
    stays | word_at(s, Table::Post, i % 65)
}

// 21(3): a base of another out-place than y that is connected to one of y's once the step's bonds are off and on, x incoming; 64 is
// place 0 again.
fn forks(s: &[u64], y: usize, x: usize) -> bool {
    let set = bases_at(s, Table::Outgoing, y);
    bases_at(s, Table::Incoming, x) != 0
        && less(word_at(s, Table::Post, 0), set) & cons(s, Table::Changed, x, set) != 0
}

// Which of 13 to 16 holds first, where the transition is not forward-enabled.
pub fn hindrance(s: &mut [u64]) -> Result<(), Refusal> {
    if lacks_bases(s) {
        return Err(Refusal::BaseLacking);
    }
    if lacks(s, Table::Incoming) {
        return Err(Refusal::BondLacking);
    }
    if (0..size(s)).any(|i| repeats(s, i / 65, i % 65, i)) {
        return Err(Refusal::BondRepeated);
    }
    lay(s, Table::Changed, changed_at);
    if (0..size(s)).any(|i| forks(s, i / 65, i % 65)) {
        return Err(Refusal::Forked);
    }
    Ok(())
}

// con(a, M(x)) for each a of F(x, t), before the firing: what it moves, and Definition 9's bases, which 4.1.3 leaves as they are.
pub fn used(s: &[u64]) -> u64 {
    union(
        64,
        |x| cons(s, Table::Marking, x, bases_at(s, Table::Incoming, x)),
    )
}
