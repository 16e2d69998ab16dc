// The labels of arcs (document 004, Definition 2, and pre, post and eff after it), laid out like a marking: F(x, t) of all
// places x in one table, F(t, x) in another; and the start of a sheet, M0.
ghost use Rattle.std.specs.Prelude.{◌≤◌};

use crate::reader::{arc_at, arc_count, bonds_of, count, index, word};
use crate::sets::{
    Table, at, bases_at, bonds_at, cell, home_of, join, less, only, size, union, word_at,
};

// So many words from one on get a value.
pub fn fill(s: &mut [u64], from: usize, n: usize, value: u64) {
    if let Some(rest) = s.get_mut(from..) {
        let end = n.min(rest.len());
        rest[..end].fill(value);
    }
}

fn lay_base(s: &mut [u64], table: Table, place: usize, base: usize) {
    join(s, cell(table, place, 0), only(base));
}

// A bond goes where its bases are.
fn lay_bond(s: &mut [u64], table: Table, p: usize, q: usize) {
    let x = home_of(s, table, p);
    join(s, cell(table, x, 1 + p % 64), only(q));
    join(s, cell(table, x, 1 + q % 64), only(p));
}

// So many bonds, two bytes each, from a position of the sheet on.
fn lay_bonds(s: &mut [u64], sheet: &[u8], table: Table, from: usize, n: usize)
    requires { (from ≤ 100000) × (n ≤ 65535) }
{
    for i in 0..n {
        let p = index(sheet, from + 2 * i);
        lay_bond(s, table, p, index(sheet, from + 2 * i + 1));
    }
}

pub fn lay_start(s: &mut [u64], sheet: &[u8]) {
    let places = word(sheet, 4);
    for b in 0..count(sheet, 2) {
        lay_base(s, Table::Marking, index(sheet, places + b), b);
    }
    let bonds = word(sheet, 8);
    lay_bonds(s, sheet, Table::Marking, bonds, word(sheet, 10) / 2);
}

// The entries' bases in the places that they come from, or go to.
fn lay_arcs(s: &mut [u64], sheet: &[u8], t: usize, labels: Table) {
    for i in 0..arc_count(sheet, t) {
        let arc = arc_at(sheet, t, i);
        let place = match labels {
            Table::Incoming => arc.from,
            _ => arc.to,
        };
        lay_base(s, labels, place, arc.base);
    }
}

// The labels F(x, t) or F(t, x) of all places x, and their union pre(t) or post(t).
fn lay_label(s: &mut [u64], sheet: &[u8], t: usize, labels: Table, all: Table) {
    fill(s, at(labels, 0), 65 * count(sheet, 1), 0);
    fill(s, at(all, 0), 65, 0);
    lay_arcs(s, sheet, t, labels);
    let from = bonds_of(sheet, t, labels);
    lay_bonds(s, sheet, labels, from + 1, count(sheet, from));
    for i in 0..size(s) {
        join(s, at(all, i % 65), word_at(s, labels, i));
    }
}

// F(x, t) and F(t, x) of a transition, each with its bases and bonds, and their unions.
pub fn lay_labels(s: &mut [u64], sheet: &[u8], t: usize) {
    lay_label(s, sheet, t, Table::Incoming, Table::Pre);
    lay_label(s, sheet, t, Table::Outgoing, Table::Post);
}

// Of the labels laid last, those of the transition that was fired or taken back: the bases of bonds that it breaks (in pre(t), not in
// post(t)), and the bases of bonds of pre(t) that it takes to different places.
pub fn broken(s: &[u64]) -> u64 {
    union(
        64,
        |b| less(
            bonds_at(s, Table::Pre, 0, b),
            bonds_at(s, Table::Post, 0, b),
        ),
    )
}

fn parted_from(s: &[u64], b: usize) -> u64 {
    let together = bases_at(s, Table::Outgoing, home_of(s, Table::Outgoing, b));
    less(bonds_at(s, Table::Pre, 0, b), together)
}

pub fn parted(s: &[u64]) -> u64 {
    union(64, |b| parted_from(s, b))
}
