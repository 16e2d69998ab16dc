// What is counted of sessions on both engines: answers, and how often the rarer things were met.
// Floors stand in the comparing program's rows.
use case_tools::counts::more;
use oracle::reader::{arc_bases, count, in_bonds};
use oracle::sets::less;
use oracle::{FIRED, REFUSED, UNDONE, highest, moved_at, slot_of, tally_at, transition_at};

fn is_full_size(sheet: &[u8]) -> bool {
    count(sheet, 1) == 64 && count(sheet, 2) == 64 && count(sheet, 3) == 64
}

fn is_full(s: &[u64], word: u64) -> bool {
    tally_at(s, word) == 65535
}

// Whether a key was given before this one and is not live.
fn follows_gap(s: &[u64], key: u64) -> bool {
    2 <= key && slot_of(s, key - 1) == 256
}

// Firings that carried a base which is no entry, of a transition that has an in-bond, on a sheet with 64 of everything; that made 256 live;
// that were given key 65,535; while the highest key given was not live: 16 to 21.
fn count_fired(c: &mut [u64], sheet: &[u8], s: &[u64], key: u64) {
    let slot = slot_of(s, key);
    let t = transition_at(s, slot);
    more(c, 16, 1, less(moved_at(s, slot), arc_bases(sheet, t)) != 0);
    more(c, 17, 1, count(sheet, in_bonds(sheet, t)) != 0);
    more(c, 18, 1, is_full_size(sheet));
    more(c, 19, 1, oracle::live(s) == 256);
    more(c, 20, 1, key == 65535);
    more(c, 21, 1, follows_gap(s, key));
}

// Firings that broke a bond; those that took its two bases to different places; takings back of a firing that broke a bond, and of those the
// ones from the middle, where a higher key is left: 24 to 27 (document 02, T-07).
fn count_broken(c: &mut [u64], s: &[u64], word: u64, key: u64) {
    let broke = oracle::broken(s) != 0;
    let undone = word == UNDONE && broke;
    more(c, 24, 1, word == FIRED && broke);
    more(c, 25, 1, word == FIRED && oracle::parted(s) != 0);
    more(c, 26, 1, undone);
    more(c, 27, 1, undone && key < highest(s));
}

// One more command, with the second engine's reply and its state afterwards. Answers: 8 fired, 9 undone, 32 and the number for refusals.
// Commands after which a count of the tally is 65,535; 18 with nothing live: 22 and 23.
pub fn count_command(c: &mut [u64], sheet: &[u8], s: &[u64], reply: u64) {
    let full = is_full(s, FIRED) || is_full(s, UNDONE) || is_full(s, REFUSED);
    let last = reply == oracle::reply(REFUSED, 18);
    let row = match reply / 65536 {
        FIRED => 8,
        UNDONE => 9,
        _ => 32 + (reply % 32) as usize,
    };
    more(c, row, 1, true);
    more(c, 22, 1, full);
    more(c, 23, 1, last && oracle::live(s) == 0);
    count_broken(c, s, reply / 65536, reply % 65536);
    if reply / 65536 == FIRED {
        count_fired(c, sheet, s, reply);
    }
}
