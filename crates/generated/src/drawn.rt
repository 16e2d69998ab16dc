// Commands by lot for a session on a generated sheet, each worked out from the seed, its number and the second engine's
// state: firings, about half of them of a transition that is enabled; takings back, most of them not of the last firing; and
// commands that are refused as such.
ghost use Rattle.std.specs.Prelude.{◌≤◌};

use crate::random::{below, mixed};
use oracle::reader::count;
use oracle::{given, highest};

// A command is one number: its three bytes, the kind first, and above them how many of the three are given.
pub fn made(kind: u64, number: u64, length: u64) -> u64 {
    kind % 256 + number % 65536 * 256 + length % 4 * 16777216
}

// Byte k of a command, and how many bytes are given.
fn command_byte(g: u64, k: u64) -> u8 {
    ((g >> (k % 4 * 8)) % 256) as u8
}

pub fn command_length(g: u64) -> usize
    ensures { result ≤ 3 }
{
    (g / 16777216 % 4) as usize
}

// All three bytes.
pub fn bytes_of(g: u64) -> [u8; 3] {
    [command_byte(g, 0), command_byte(g, 1), command_byte(g, 2)]
}

// The bytes of a taking back by key.
pub fn undo_bytes(key: u64) -> [u8; 3] {
    bytes_of(made(3, key, 3))
}

// Whether a key is live and not the highest, and, where that is asked, may be taken back.
fn suits(s: &[u64], key: u64, free: bool) -> bool {
    key != 0 && key != highest(s) && (!free || oracle::undo_hindered(s, key).is_ok())
}

// The key that suits in the first slot from one on, going round; the highest where none does.
fn key_from(s: &[u64], first: usize, free: bool) -> u64 {
    let mut keys = (0..256).map(|i| oracle::key_at(s, first % 256 + i));
    keys.find(|&key| suits(s, key, free))
        .unwrap_or_else(|| highest(s))
}

// Any number: of 2, one is below 300, one a key that was given, taken back or not, or 0, or one of the next two.
fn any_key(s: &[u64], x: u64) -> u64 {
    if x % 2 == 0 {
        x / 2 % 300
    } else {
        below(x / 2, given(s) % 65536 + 3)
    }
}

// A key for kind 3. Of 8: one is any number, one the highest live key, three any other live key, three another that may be
// taken back.
fn some_key(s: &[u64], x: u64) -> u64 {
    let y = x / 8;
    match x % 8 {
        0 => any_key(s, y),
        1 => highest(s),
        lot => {
            let first = below(y, oracle::live(s) as u64) % 256;
            key_from(s, first as usize, lot < 5)
        }
    }
}

fn is_enabled(sheet: &[u8], s: &mut [u64], t: usize) -> bool {
    t < count(sheet, 3) && oracle::hindered(sheet, s, t).is_ok()
}

// The first enabled transition from one on, going round; that one where none is.
fn enabled_from(sheet: &[u8], s: &mut [u64], first: usize) -> usize {
    let mut transitions = (0..64).map(|i| (first % 64 + i) % 64);
    transitions
        .find(|&t| is_enabled(sheet, s, t))
        .unwrap_or(first)
}

// A transition for kind 1: of 2, one is any of the sheet, one an enabled one.
fn some_transition(sheet: &[u8], s: &mut [u64], x: u64) -> u64 {
    let t = below(x / 2, count(sheet, 3) as u64) % 256;
    if x % 2 == 0 {
        t
    } else {
        enabled_from(sheet, s, t as usize) as u64
    }
}

// A command that cannot be read, is cut short, or names no transition of the sheet.
fn odd(x: u64, transitions: u64) -> u64 {
    let y = x / 8;
    match x % 8 {
        0..=2 => made(y % 5, y % 3, y / 8 % 3),
        3 => made(2, y % 512, 3),
        4 | 5 => made(y, y / 256 % 4, 3),
        6 => made(1, 256 + y % 64, 3),
        _ => made(1, transitions % 256 + y % 3, 3),
    }
}

// How many of 64 are odd, take back the last, or take back by key. Where room is for all that can be live, few do.
fn taking_back(live: usize, room: u64) -> u64 {
    if 256 <= room {
        9
    } else if room < live as u64 {
        50
    } else {
        20
    }
}

// The command of a turn. Of 64, 4 are odd, 2 take back the last, and 14 take back by key, or most where more than `room`
// firings are live; where room is for all that can be live, 3 do.
pub fn command_of(sheet: &[u8], s: &mut [u64], seed: u64, i: u64, room: u64) -> u64 {
    let y = mixed(seed, i, 1, 6);
    match mixed(seed, i, 0, 6) % 64 {
        0..=3 => odd(y, count(sheet, 3) as u64),
        4 | 5 => made(2, 0, 3),
        x if x < taking_back(oracle::live(s), room) => made(3, some_key(s, y), 3),
        _ => made(1, some_transition(sheet, s, y), 3),
    }
}
