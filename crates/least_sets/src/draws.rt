// Commands by lot, with at most ten live firings. And layouts, from numbers: the digits of a number in some base, one for each part.
// Where the base is one more than the places, the numbers from 0 on give all layouts of a sheet. By lot it is higher, so that most parts
// are left to be at any place; half of these layouts have the places after some set was taken back, where it can be, so that there is a
// way back.
use crate::table::{MOST, place_in};
use case_tools::bytes::{byte, put};
use generated::drawn::{command_of, made};
use generated::random::{below, mixed, over};

// A command by lot; where ten firings are live the last is taken back. Above `room` live firings most are takings back.
pub fn some_command(sheet: &[u8], s: &mut [u64], seed: u64, i: u64, room: u64) -> u64 {
    if MOST <= oracle::live(s) {
        made(2, 0, 3)
    } else {
        command_of(sheet, s, seed, i, room)
    }
}

// The number of layout j: in turn of all of a sheet, or by lot.
fn number_of(seed: u64, j: u64, all: bool) -> u64 {
    if all {
        return j;
    }
    let high = mixed(seed, j, 0, 8) % 4294967296;
    let low = mixed(seed, j, 1, 8) % 4294967296;
    high * 4294967296 + low
}

// The places of the parts after some set was taken back, as module table has them; for every other layout by lot, where the set can be.
fn word_of(table: &[u64], seed: u64, j: u64, all: bool) -> Option<u64> {
    if all || j % 2 == 0 {
        return None;
    }
    let set = below(mixed(seed, j, 2, 8), table.len() as u64);
    table.get(set as usize).copied().filter(|&word| word != 0)
}

// How a layout names no place for a part.
const ANY: u64 = 255;

// Digit 0 stands for any place, and so does one that is too high.
fn wanted_of(digit: u64, places: u64, word: Option<u64>, b: usize) -> u64 {
    if digit == 0 || places < digit {
        ANY
    } else {
        word.map_or(digit - 1, |word| place_in(word, b))
    }
}

// Layout j on a sheet, of all or by lot, where one to three parts are named, on the whole.
pub fn lay_layout(buf: &mut [u8], sheet: &[u8], table: &[u64], seed: u64, j: u64, all: bool) {
    let places = u64::from(byte(sheet, 1));
    let parts = byte(sheet, 2);
    let digits = if all { 1 } else { u64::from(parts) };
    let base = places + digits;
    let word = word_of(table, seed, j, all);
    let mut rest = number_of(seed, j, all);
    for b in 0..usize::from(parts) {
        put(buf, b, wanted_of(below(rest, base), places, word, b));
        rest = over(rest, base);
    }
}
