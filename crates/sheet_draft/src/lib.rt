// The bytes of a sheet from its text (01, the sheet): the lines' acts into a lent array, the bytes of the acts into a lent
// buffer. specs/Made says what is made of a text.
#![tactic(auto)]

ghost use Rattle.std.specs.Prelude.{◌≡◌, length, ◌≤◌};
ghost use Rattle.std.proofs.lemmas.List.Edits.{sets};
ghost use Rattle.sheet_text.specs.Reading.{read_text};
ghost use Rattle.sheet_text.specs.Counts.{mistake_in};
ghost use Rattle.sheet_draft.specs.Bytes.{Fits, made_in, bytes_in};
ghost use Rattle.sheet_draft.specs.Made.{made_of, sheet_made};

use sheet_text::{Line, first_mistake};

mod bytes;
mod counts;
mod notes;

// An act for each byte of a sheet, and one more.
const MAX_ACTS: usize = 65536;

// Kept: an act is one number and how many that is, since act_of, note_of and after of specs/ say the notes so.
// What a line comes to: its act and how many that is, how many bytes it adds, the places and steps behind it.
#[derive(Clone, Copy)]
pub struct Note {
    pub act: u64,
    pub acts: usize,
    pub size: usize,
    pub places: u32,
    pub steps: usize,
}

// What a text comes to whose sheet's bytes are not too many: how many acts, places, steps and bytes.
#[derive(Clone, Copy)]
pub struct Noted {
    pub acts: usize,
    pub places: u32,
    pub steps: usize,
    pub size: usize,
}

// What was made of a text: the sheet, of so many bytes; or the number of the first line that cannot stand where it does and
// what it is; or the net is more than the format holds.
#[derive(Clone, Copy)]
pub enum Made {
    Sheet(usize),
    Mistake(usize, Line),
    TooLarge,
}

// Room for the acts. Only its length matters.
fn act_room() -> [u64; MAX_ACTS] {
    [0; MAX_ACTS]
}

// The bytes of the acts, where the format holds them. The caller has collected the acts of a sheet that is not too long.
fn make_sheet(buf: &mut [u8], acts: &[u64], places: u32, steps: usize) -> Made
    requires { Fits places steps acts.now × (65535 ≤ length buf.old) }
    ensures value { result ≡ made_in places steps acts.now }
    ensures buf_after { buf.new ≡ sets buf.old 0 (bytes_in places steps acts.now) }
{
    let parts = counts::count_of(acts, 0);
    if !counts::counts_fit(acts, parts, steps) {
        return Made::TooLarge;
    }
    let size = bytes::put_sheet(buf, acts, places as u8, parts as u8, steps as u8);
    Made::Sheet(size)
}

// The sheet of a text that is understood, as the caller knows.
fn make(text: &[u8], buf: &mut [u8]) -> Made
    requires { ((mistake_in (read_text text.now)).line ≡ 0) × (65535 ≤ length buf.old) }
    ensures value { result ≡ made_of (read_text text.now) }
    ensures buf_after { buf.new ≡ sets buf.old 0 (sheet_made (read_text text.now)) }
{
    let mut acts = act_room();
    let Some(x) = notes::collect(text, &mut acts) else {
        return Made::TooLarge;
    };
    make_sheet(buf, &acts[..x.acts], x.places, x.steps)
}

// The sheet of a text, into a buffer that has room for the longest sheet: how many bytes it has, or the first mistake, or
// that the format cannot hold it. Only where it is a sheet is the buffer written.
pub fn read_sheet(text: &[u8], buf: &mut [u8]) -> Made
    requires { 65535 ≤ length buf.old }
    ensures value { result ≡ made_of (read_text text.now) }
    ensures buf_after { buf.new ≡ sets buf.old 0 (sheet_made (read_text text.now)) }
{
    let m = first_mistake(text);
    if m.line != 0 {
        return Made::Mistake(m.line, m.what);
    }
    make(text, buf)
}
