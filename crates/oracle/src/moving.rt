// The marking after a firing and after a reversal (document 004, Definitions 22 and 24): components taken out of places and put
// into others, as they are once one side's labels are off and the other's on. All are taken out before any is put in, so that a
// place on both sides keeps what comes back (document 01's reading: a step from a place to itself).
use crate::con::cons;
use crate::sets::{Table, bases_at, cell, get, has, join, lay, less, put, size, word_at};

// What a row has of the bases of a set and of the bonds among them.
fn brought(old: u64, set: u64, row: usize) -> u64 {
    if row == 0 || has(set, row - 1) {
        old & set
    } else {
        0
    }
}

// Out of a place x: what is left of the marking there when con(a, M(x)) goes for each a of its label.
fn take_out(s: &mut [u64], labels: Table, x: usize) {
    let set = cons(s, Table::Marking, x, bases_at(s, labels, x));
    for r in 0..65 {
        let old = get(s, cell(Table::Marking, x, r));
        put(s, cell(Table::New, x, r), less(old, brought(old, set, r)));
    }
}

// (M(y) - F(y)) with F(x), of one side's label and the other's, goes to place 0 of the table.
fn lay_between(s: &mut [u64], from: Table, to: Table, y: usize, x: usize) {
    for r in 0..65 {
        let stays = less(get(s, cell(Table::Marking, y, r)), get(s, cell(from, y, r)));
        let comes = get(s, cell(to, x, r));
        put(s, cell(Table::Changed, 0, r), stays | comes);
    }
}

// Its bases of a set, with the bonds among them, go to place x.
fn bring_to(s: &mut [u64], x: usize, set: u64) {
    for r in 0..65 {
        let old = get(s, cell(Table::Changed, 0, r));
        join(s, cell(Table::New, x, r), brought(old, set, r));
    }
}

// Into a place x: con(a, (M(y) - F(y)) with F(x)) for each a of both labels. 64 is place 0 again.
fn bring(s: &mut [u64], from: Table, to: Table, y: usize, x: usize) {
    let named = bases_at(s, from, y) & bases_at(s, to, x);
    if named != 0 {
        lay_between(s, from, to, y, x);
        let set = cons(s, Table::Changed, 0, named);
        bring_to(s, x, set);
    }
}

// Out of every place, into the places, and the new marking is the marking.
fn transfer(s: &mut [u64], from: Table, to: Table) {
    for x in 0..size(s) / 65 {
        take_out(s, from, x);
    }
    for i in 0..size(s) {
        bring(s, from, to, i / 65, i % 65);
    }
    lay(s, Table::Marking, |s, i| word_at(s, Table::New, i));
}

// Definition 22.
pub fn execute(s: &mut [u64]) {
    transfer(s, Table::Incoming, Table::Outgoing);
}

// Definition 24.
pub fn reverse(s: &mut [u64]) {
    transfer(s, Table::Outgoing, Table::Incoming);
}
