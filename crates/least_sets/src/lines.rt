// Lists of firings in one lent slice of words: 256 step numbers, the moved parts of each as a set, how many firings there are, a number of
// the papers' lists, which is 0 but for a refused call, and 256 serials. Live firings stand in the order of their serials.
ghost use Rattle.std.specs.Prelude.{◌≤◌};

use oracle::sets::{get, put};
use oracle::{key_after, slot_of, transition_at};

// The most firings of a list, and its words.
pub const MOST: usize = 256;

const MOVED: usize = 256;

pub const COUNT: usize = 512;

pub const NUMBER: usize = 513;

const KEYS: usize = 514;

pub const WORDS: usize = 770;

pub fn step_at(h: &[u64], i: usize) -> u64 {
    get(h, i % MOST)
}

pub fn moved_at(h: &[u64], i: usize) -> u64 {
    get(h, MOVED + i % MOST)
}

pub fn key_at(h: &[u64], i: usize) -> u64 {
    get(h, KEYS + i % MOST)
}

pub fn count_of(h: &[u64]) -> usize
    ensures { result ≤ 256 }
{
    get(h, COUNT).min(256) as usize
}

// Whether two firings of a list moved a common part.
pub fn share(h: &[u64], i: usize, j: usize) -> bool {
    moved_at(h, i) & moved_at(h, j) != 0
}

pub fn set_line(h: &mut [u64], i: usize, step: u64, moved: u64) {
    put(h, i % MOST, step);
    put(h, MOVED + i % MOST, moved);
}

// A firing more at the end.
pub fn append(h: &mut [u64], step: u64, moved: u64) {
    let n = count_of(h);
    set_line(h, n, step, moved);
    put(h, COUNT, n as u64 + 1);
}

fn append_live(h: &mut [u64], s: &[u64], key: u64) {
    let slot = slot_of(s, key);
    put(h, KEYS + count_of(h), key);
    append(h, transition_at(s, slot) as u64, oracle::moved_at(s, slot));
}

// The live firings of the second engine.
pub fn live_lines(s: &[u64]) -> [u64; WORDS] {
    let mut h = [0; WORDS];
    let mut key = 0;
    for _ in 0..oracle::live(s) {
        key = key_after(s, key);
        append_live(&mut h, s, key);
    }
    h
}
