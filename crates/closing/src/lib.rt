// The closing lines of the exam program into a lent buffer, over plain numbers: places, bonds, live keys, the tally (01, the
// exam program). Each writer answers where its text ends; the whole output sees to the room.
#![tactic(auto)]

ghost use Rattle.std.specs.Prelude.{◌+◌, ◌*◌, ◌≤◌, length};
ghost use Rattle.bonds.specs.Ends.{bonds_in};
ghost use Rattle.text.specs.Writes.{Wrote};
ghost use Rattle.closing.specs.Closing.{item, items, row, places_line, bond_line, bond_lines, live_line, tally_line, item_room, bond_room};

use net::Base;
use text::{put_digits, put_word};

// A space and a number.
fn put_item(buf: &mut [u8], at: usize, n: u16) -> usize
    requires { at + item_room ≤ length buf.old }
    ensures { Wrote (item n) at buf.old result buf.new }
{
    let a = put_word(buf, at, b" ");
    put_digits(buf, a, u32::from(n), 10)
}

// All numbers of a list.
fn put_items(buf: &mut [u8], at: usize, ns: &[u16]) -> usize
    requires { at + item_room * length ns.now ≤ length buf.old }
    ensures { Wrote (items ns.now) at buf.old result buf.new }
{
    let mut pos = at;
    for n in ns {
        pos = put_item(buf, pos, *n);
    }
    pos
}

// A line: a word, the numbers, a newline.
fn put_row(buf: &mut [u8], at: usize, word: &[u8], ns: &[u16]) -> usize
    requires { at + length word.now + item_room * length ns.now + 1 ≤ length buf.old }
    ensures { Wrote (row word.now ns.now) at buf.old result buf.new }
{
    let a = put_word(buf, at, word);
    let b = put_items(buf, a, ns);
    put_word(buf, b, b"\n")
}

// `places` and the place of every base.
pub fn put_places(buf: &mut [u8], at: usize, places: &[u16]) -> usize
    requires { at + 7 + item_room * length places.now ≤ length buf.old }
    ensures { Wrote (places_line places.now) at buf.old result buf.new }
{
    put_row(buf, at, b"places", places)
}

// `bond` and its two bases.
fn put_bond(buf: &mut [u8], at: usize, lo: Base, hi: Base) -> usize
    requires { at + bond_room ≤ length buf.old }
    ensures { Wrote (bond_line lo hi) at buf.old result buf.new }
{
    put_row(buf, at, b"bond", &[u16::from(lo), u16::from(hi)])
}

// A line for each of the first n bonds, in their order.
pub fn put_bonds(buf: &mut [u8], at: usize, lo: &[Base], hi: &[Base], n: usize) -> usize
    requires { (at + bond_room * n ≤ length buf.old) × (n ≤ length lo.now) × (n ≤ length hi.now) }
    ensures { Wrote (bond_lines (bonds_in lo.now hi.now n)) at buf.old result buf.new }
{
    let mut pos = at;
    for i in 0..n {
        pos = put_bond(buf, pos, lo[i], hi[i]);
    }
    pos
}

// `live` and the live keys.
pub fn put_live(buf: &mut [u8], at: usize, keys: &[u16]) -> usize
    requires { at + 5 + item_room * length keys.now ≤ length buf.old }
    ensures { Wrote (live_line keys.now) at buf.old result buf.new }
{
    put_row(buf, at, b"live", keys)
}

// `tally` and the three counts.
pub fn put_tally(buf: &mut [u8], at: usize, fired: u16, undone: u16, refused: u16) -> usize
    requires { at + 6 + item_room * 3 ≤ length buf.old }
    ensures { Wrote (tally_line fired undone refused) at buf.old result buf.new }
{
    put_row(buf, at, b"tally", &[fired, undone, refused])
}
