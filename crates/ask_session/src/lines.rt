// The lines that document 01 asks of the exam program, made of the second engine's replies and its state at the end.
// No text comes from our engine.
use ask_tools::both::Both;
use case_tools::bytes::byte;
use generated::rows::{noted, reply_noted};
use least_sets::lines::{count_of, key_at, live_lines};
use oracle::sets::{MARKING, has, home_of, partners};
use oracle::{FIRED, REFUSED, UNDONE, tally_at};
use std::fmt;
use std::fmt::{InlineText, Write};

// An output, as far as there is room.
pub type Text = InlineText<65536>;

// A command's number, the answer's word and its value.
fn put_line(out: &mut Text, number: u64, reply: u64) -> fmt::Result {
    let word = match reply / 65536 {
        FIRED => "fired",
        UNDONE => "undone",
        _ => "refused",
    };
    writeln!(out, "{number} {word} {}", reply % 65536)
}

fn put_places(out: &mut Text, s: &[u64], bases: u8) -> fmt::Result {
    out.write_str("places")?;
    for b in 0..bases {
        write!(out, " {}", home_of(s, MARKING, usize::from(b)))?;
    }
    out.write_str("\n")
}

// A line for each bond.
fn put_bonds(out: &mut Text, s: &[u64]) -> fmt::Result {
    for p in 0..64 {
        for q in p + 1..64 {
            if has(partners(s, p), q) {
                writeln!(out, "bond {p} {q}")?;
            }
        }
    }
    Ok(())
}

// The live keys, from the lowest on.
fn put_live(out: &mut Text, s: &[u64]) -> fmt::Result {
    let h = live_lines(s);
    out.write_str("live")?;
    for i in 0..count_of(&h) {
        write!(out, " {}", key_at(&h, i))?;
    }
    out.write_str("\n")
}

// What stands at the end: places, bonds, live keys, tally.
fn put_closing(out: &mut Text, b: &Both) -> fmt::Result {
    let s = &b.state;
    put_places(out, s, byte(b.sheet, 2))?;
    put_bonds(out, s)?;
    put_live(out, s)?;
    let [fired, undone, refused] = [FIRED, UNDONE, REFUSED].map(|word| tally_at(s, word));
    writeln!(out, "tally {fired} {undone} {refused}")
}

// The whole output.
pub fn put_output(out: &mut Text, w: &[u64], b: &Both) -> fmt::Result {
    for i in 0..noted(w) {
        put_line(out, i + 1, reply_noted(w, i))?;
    }
    put_closing(out, b)
}
