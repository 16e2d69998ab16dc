// A sheet printed as text into a lent buffer: the lines of sheet_text's Reading, or the sheet's refusal. Each writer answers
// where its text ends, and its contract says all of the buffer (`Wrote`).
#![tactic(auto)]

ghost use Rattle.std.specs.Prelude.{◌≡◌, ◌+◌, ◌*◌, ◌≤◌, length};
ghost use Rattle.std.proofs.lemmas.List.Edits.{sets};
ghost use Rattle.text.specs.Writes.{Wrote, Filled};
ghost use Rattle.format.specs.Parts.{bases_of};
ghost use Rattle.format.specs.Arcs.{entry_count, in_count, out_count};
ghost use Rattle.format.specs.NetOf.{start_bond_count};
ghost use Rattle.sheet.specs.Checks.{checked};
ghost use Rattle.net.specs.declared.Verdict.TheVariants.{Accepted};
ghost use Rattle.sheet_text.specs.Claims.{sheet_text};
ghost use Rattle.sheet_text.specs.declared.Line.TheVariants.{Move};
ghost use Rattle.sheet_print.specs.Pieces.{line_bytes, named, one, two, bond_row, part_at, coupled_at, move_at, before_at, after_at, parts_text, coupled_text, moves_text, before_text, after_text, arcs_text, step_at, steps_text};
ghost use Rattle.sheet_print.specs.Room.{line_room, move_room, arcs_room, step_room, StepsFit, text_room};
ghost use Rattle.sheet_print.specs.Printing.{printed_of, text_printed, end_of};
ghost use Rattle.sheet_print.specs.declared.Printed.{Printed};

use format::{
    base_count, byte_at, entry, entry_count, in_bond, in_count, out_bond, out_count, place_count,
    start_bond, start_bond_count, start_places, transition_bytes, transition_count,
};
use net::{Bond, Entry, MAX_SHEET, Transition, Verdict};
use sheet::check_sheet;
use text::{put_digits, put_word};

// What printing a sheet answers: how many bytes of text it wrote, or the number of document 01's list.
#[derive(Clone, Copy)]
pub enum Printed {
    Text(usize),
    Refused(u8),
}

// The bytes that a caller lends at least: so many for each byte of the longest sheet.
pub const MAX_TEXT: usize = 30 * MAX_SHEET;

// ---- Lines

// A word and a number. The callers, here and below, have room for the longest numbers.
fn put_named(buf: &mut [u8], at: usize, word: &[u8], n: u8) -> usize
    requires { at + length word.now + 10 ≤ length buf.old }
    ensures { Wrote (named word.now n) at buf.old result buf.new }
{
    let a = put_word(buf, at, word);
    put_digits(buf, a, n as u32, 10)
}

// The same, and the line ends.
fn put_one(buf: &mut [u8], at: usize, word: &[u8], n: u8) -> usize
    requires { at + length word.now + 11 ≤ length buf.old }
    ensures { Wrote (one word.now n) at buf.old result buf.new }
{
    let a = put_named(buf, at, word, n);
    put_word(buf, a, b"\n")
}

// Two words, a number behind each, and the line ends.
fn put_two(buf: &mut [u8], at: usize, word: &[u8], n: u8, next: &[u8], m: u8) -> usize
    requires { at + length word.now + length next.now + 21 ≤ length buf.old }
    ensures { Wrote (two word.now n next.now m) at buf.old result buf.new }
{
    let a = put_named(buf, at, word, n);
    put_one(buf, a, next, m)
}

// A word and the two parts of a coupling.
fn put_bond(buf: &mut [u8], at: usize, word: &[u8], b: Bond) -> usize
    requires { at + length word.now + 22 ≤ length buf.old }
    ensures { Wrote (bond_row word.now b) at buf.old result buf.new }
{
    put_two(buf, at, word, b.lo, b" ", b.hi)
}

// `move` and an entry: the part, where it is taken from and where it goes.
fn put_entry(buf: &mut [u8], at: usize, e: Entry) -> usize
    requires { at + move_room ≤ length buf.old }
    ensures { Wrote (line_bytes (Move e.base e.from e.to)) at buf.old result buf.new }
{
    let a = put_named(buf, at, b"move ", e.base);
    put_two(buf, a, b" from ", e.from, b" to ", e.to)
}

// ---- The lines of a sheet and of a step's bytes, by position

// `part P at X`. The loops, here and below, have room for each line.
fn put_part(sheet: &[u8], buf: &mut [u8], at: usize, i: u8) -> usize
    requires { at + line_room ≤ length buf.old }
    ensures { Wrote (part_at sheet.now i) at buf.old result buf.new }
{
    let places = start_places(sheet);
    let x = byte_at(places, i as usize);
    put_two(buf, at, b"part ", i, b" at ", x)
}

// `coupled P Q`.
fn put_coupled(sheet: &[u8], buf: &mut [u8], at: usize, i: u16) -> usize
    requires { at + line_room ≤ length buf.old }
    ensures { Wrote (coupled_at sheet.now i) at buf.old result buf.new }
{
    put_bond(buf, at, b"coupled ", start_bond(sheet, i))
}

// `move P from X to Y`.
fn put_move(bytes: &[u8], buf: &mut [u8], at: usize, i: u8) -> usize
    requires { at + move_room ≤ length buf.old }
    ensures { Wrote (move_at bytes.now i) at buf.old result buf.new }
{
    put_entry(buf, at, entry(bytes, i))
}

// `before P Q`: an in-coupling.
fn put_before(bytes: &[u8], buf: &mut [u8], at: usize, i: u8) -> usize
    requires { at + line_room ≤ length buf.old }
    ensures { Wrote (before_at bytes.now i) at buf.old result buf.new }
{
    put_bond(buf, at, b"before ", in_bond(bytes, i))
}

// `after P Q`: an out-coupling.
fn put_after(bytes: &[u8], buf: &mut [u8], at: usize, i: u8) -> usize
    requires { at + line_room ≤ length buf.old }
    ensures { Wrote (after_at bytes.now i) at buf.old result buf.new }
{
    put_bond(buf, at, b"after ", out_bond(bytes, i))
}

// ---- All lines of a list. The callers below have room for as many lines as the list has.

// The start places, a line for each part.
fn put_parts(sheet: &[u8], buf: &mut [u8], at: usize) -> usize
    requires { at + line_room * bases_of sheet.now ≤ length buf.old }
    ensures { Wrote (parts_text sheet.now) at buf.old result buf.new }
{
    let n = base_count(sheet);
    let mut pos = at;
    for i in 0..n {
        pos = put_part(sheet, buf, pos, i);
    }
    pos
}

// The start couplings.
fn put_couplings(sheet: &[u8], buf: &mut [u8], at: usize) -> usize
    requires { at + line_room * start_bond_count sheet.now ≤ length buf.old }
    ensures { Wrote (coupled_text sheet.now) at buf.old result buf.new }
{
    let n = start_bond_count(sheet);
    let mut pos = at;
    for i in 0..n {
        pos = put_coupled(sheet, buf, pos, i);
    }
    pos
}

// A step's entries.
fn put_moves(bytes: &[u8], buf: &mut [u8], at: usize) -> usize
    requires { at + move_room * entry_count bytes.now ≤ length buf.old }
    ensures { Wrote (moves_text bytes.now) at buf.old result buf.new }
{
    let n = entry_count(bytes);
    let mut pos = at;
    for i in 0..n {
        pos = put_move(bytes, buf, pos, i);
    }
    pos
}

// A step's in-couplings.
fn put_befores(bytes: &[u8], buf: &mut [u8], at: usize) -> usize
    requires { at + line_room * in_count bytes.now ≤ length buf.old }
    ensures { Wrote (before_text bytes.now) at buf.old result buf.new }
{
    let n = in_count(bytes);
    let mut pos = at;
    for i in 0..n {
        pos = put_before(bytes, buf, pos, i);
    }
    pos
}

// A step's out-couplings.
fn put_afters(bytes: &[u8], buf: &mut [u8], at: usize) -> usize
    requires { at + line_room * out_count bytes.now ≤ length buf.old }
    ensures { Wrote (after_text bytes.now) at buf.old result buf.new }
{
    let n = out_count(bytes);
    let mut pos = at;
    for i in 0..n {
        pos = put_after(bytes, buf, pos, i);
    }
    pos
}

// ---- Steps

// What a step does: its entries, in-couplings and out-couplings. put_step has room for them.
fn put_arcs(bytes: &[u8], buf: &mut [u8], at: usize) -> usize
    requires { at + arcs_room bytes.now ≤ length buf.old }
    ensures { Wrote (arcs_text bytes.now) at buf.old result buf.new }
{
    let a = put_moves(bytes, buf, at);
    let b = put_befores(bytes, buf, a);
    put_afters(bytes, buf, b)
}

// `step K`, and what it does. put_steps has room for each step.
fn put_step(sheet: &[u8], buf: &mut [u8], at: usize, k: u8) -> usize
    requires { at + step_room sheet.now k ≤ length buf.old }
    ensures { Wrote (step_at sheet.now k) at buf.old result buf.new }
{
    let bytes = transition_bytes(sheet, Transition(k as u16));
    let a = put_one(buf, at, b"step ", k);
    put_arcs(bytes, buf, a)
}

// All steps. put_net knows from acceptance that each has room behind those before it.
fn put_steps(sheet: &[u8], buf: &mut [u8], at: usize) -> usize
    requires { StepsFit sheet.now at (length buf.old) }
    ensures { Wrote (steps_text sheet.now) at buf.old result buf.new }
{
    let n = transition_count(sheet);
    let mut pos = at;
    for k in 0..n {
        pos = put_step(sheet, buf, pos, k);
    }
    pos
}

// ---- The whole sheet

// The text of an accepted sheet, from the buffer's first byte on. print_sheet has checked the sheet and asks for the room.
fn put_net(sheet: &[u8], buf: &mut [u8]) -> usize
    requires { (checked sheet.now ≡ Accepted) × (text_room ≤ length buf.old) }
    ensures { Filled (sheet_text sheet.now) buf.old result buf.new }
{
    let a = put_one(buf, 0, b"places ", place_count(sheet));
    let b = put_parts(sheet, buf, a);
    let c = put_couplings(sheet, buf, b);
    put_steps(sheet, buf, c)
}

// The text of a sheet, from the buffer's first byte on, or its refusal; then the buffer stays as it was. Any bytes may be
// handed in; the caller lends a buffer of MAX_TEXT bytes or more.
pub fn print_sheet(sheet: &[u8], buf: &mut [u8]) -> Printed
    requires { text_room ≤ length buf.old }
    ensures value { result ≡ printed_of sheet.now }
    ensures buf_after { buf.new ≡ sets buf.old 0 (text_printed sheet.now) }
    ensures result_bound { end_of result ≤ text_room }
{
    match check_sheet(sheet) {
        Verdict::Accepted => Printed::Text(put_net(sheet, buf)),
        Verdict::Refused(n) => Printed::Refused(n),
    }
}
