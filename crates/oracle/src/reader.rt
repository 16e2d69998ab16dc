// A sheet's bytes (document 01, the sheet), read where they stand: bytes that are not there are 0, and numbers of places
// and bases are taken below 64, so that any bytes may be handed in.
ghost use Rattle.std.specs.Prelude.{◌≤◌};

use crate::sets::{Table, only};

pub fn byte(sheet: &[u8], at: usize) -> u8 {
    sheet.get(at).copied().unwrap_or(0)
}

// A byte as an index below 64.
pub fn index(sheet: &[u8], at: usize) -> usize {
    count(sheet, at) % 64
}

// A byte as a count.
pub fn count(sheet: &[u8], at: usize) -> usize
    ensures { result ≤ 255 }
{
    byte(sheet, at).into()
}

// Two bytes, the low one first.
pub fn word(sheet: &[u8], at: usize) -> usize
    requires { at ≤ 100000 }
    ensures { result ≤ 65535 }
{
    count(sheet, at) + 256 * count(sheet, at + 1)
}

// Where a transition's bytes begin, and its number of entries.
fn begins(sheet: &[u8], t: usize) -> usize
    ensures { result ≤ 65535 }
{
    word(sheet, 12 + 4 * (t % 64))
}

pub fn arc_count(sheet: &[u8], t: usize) -> usize
    ensures { result ≤ 255 }
{
    count(sheet, begins(sheet, t))
}

// An entry: a base, the place that it is taken from, and the place that it is put in.
#[derive(Clone, Copy)]
pub struct Arc {
    pub base: usize,
    pub from: usize,
    pub to: usize,
}

pub fn arc_at(sheet: &[u8], t: usize, i: usize) -> Arc
    requires { i ≤ 255 }
{
    let at = begins(sheet, t) + 1 + 3 * i;
    Arc {
        base: index(sheet, at),
        from: index(sheet, at + 1),
        to: index(sheet, at + 2),
    }
}

// Where the count of a transition's in-bonds stands, or of its out-bonds; the bonds follow their count.
pub fn in_bonds(sheet: &[u8], t: usize) -> usize
    ensures { result ≤ 70000 }
{
    begins(sheet, t) + 1 + 3 * arc_count(sheet, t)
}

pub fn bonds_of(sheet: &[u8], t: usize, labels: Table) -> usize
    ensures { result ≤ 80000 }
{
    let at = in_bonds(sheet, t);
    match labels {
        Table::Incoming => at,
        _ => at + 1 + 2 * count(sheet, at),
    }
}

// The bases of a transition's entries, which pre(t) and post(t) share.
pub fn arc_bases(sheet: &[u8], t: usize) -> u64 {
    (0..arc_count(sheet, t)).fold(0, |all, i| all | only(arc_at(sheet, t, i).base))
}
