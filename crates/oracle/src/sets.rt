// Sets of at most 64 things as words, and words in a lent slice: past the end a read gives 0 and a store does nothing.
// So no call has to be asked for an index within the slice. The slice is the second engine's whole state: seven tables of
// 4,160 words, then the history (module history), the tally, how many words of a table the sheet's places have, and the highest
// key given. A table has 65 words for each of 64 places: row 0 is the set of bases there, row 1 + b the set of bases that are
// bonded to b there.

// The marking M; the labels F(x, t) and F(t, x) of all places x; the marking that is being made; the marking with one side's
// labels off and the other's on, in which con is asked; the unions pre(t) and post(t), in one place's 65 words.
#[derive(Clone, Copy, PartialEq, Eq)]
pub enum Table {
    Marking,
    Incoming,
    Outgoing,
    New,
    Changed,
    Pre,
    Post,
}

pub const MARKING: Table = Table::Marking;

// The set of one thing.
pub fn only(a: usize) -> u64 {
    1u64 << (a % 64)
}

pub fn has(set: u64, a: usize) -> bool {
    set & only(a) != 0
}

// What the first set has and the second has not.
pub fn less(set: u64, gone: u64) -> u64 {
    set & !gone
}

// What a function gives for each number below n, all in one set.
pub(crate) fn union<F: Fn(usize) -> u64>(n: usize, f: F) -> u64
    requires { F.IsAlwaysCallable f }
{
    (0..n).fold(0, |all, i| all | f(i))
}

pub fn get(s: &[u64], at: usize) -> u64 {
    s.get(at).copied().unwrap_or(0)
}

pub fn put(s: &mut [u64], at: usize, value: u64) {
    if let Some(word) = s.get_mut(at) {
        *word = value;
    }
}

// The things of a set go to those of the word.
pub fn join(s: &mut [u64], at: usize, set: u64) {
    let old = get(s, at);
    put(s, at, old | set);
}

pub const SIZE: usize = 30915;

// How many words of a table are used.
pub fn size(s: &[u64]) -> usize {
    (get(s, SIZE) % 4161) as usize
}

// Where word i of a table stands.
pub fn at(table: Table, i: usize) -> usize {
    table as usize * 4160 + i % 4160
}

// Gives each word of a table its value, one after another.
pub(crate) fn lay<F: Fn(&[u64], usize) -> u64>(s: &mut [u64], table: Table, word: F)
    requires { F.IsAlwaysCallable word }
{
    for i in 0..size(s) {
        let value = word(s, i);
        put(s, at(table, i), value);
    }
}

pub fn word_at(s: &[u64], table: Table, i: usize) -> u64 {
    get(s, at(table, i))
}

// Where a row of a place stands.
pub fn cell(table: Table, place: usize, row: usize) -> usize {
    at(table, (place % 64) * 65 + row % 65)
}

pub fn bases_at(s: &[u64], table: Table, place: usize) -> u64 {
    get(s, cell(table, place, 0))
}

pub fn bonds_at(s: &[u64], table: Table, place: usize, base: usize) -> u64 {
    get(s, cell(table, place, 1 + base % 64))
}

fn is_home(s: &[u64], table: Table, base: usize, place: usize) -> bool {
    has(bases_at(s, table, place), base)
}

// The places that have a base, as a set.
pub fn homes(s: &[u64], table: Table, base: usize) -> u64 {
    let home = |x| if is_home(s, table, base, x) {
        only(x)
    } else {
        0
    };
    union(64, home)
}

// The least place that has a base; 0 where none has it.
pub fn home_of(s: &[u64], table: Table, base: usize) -> usize {
    (0..64).find(|&x| is_home(s, table, base, x)).unwrap_or(0)
}

// The bases that are bonded to a base in any place.
pub fn partners(s: &[u64], base: usize) -> u64 {
    union(64, |x| bonds_at(s, MARKING, x, base))
}
