// Answers to commands and to questions about the record: a line each, without its newline.
ghost use Rattle.std.specs.Prelude.{◌<◌};

use crate::put::Text;
use firings::{Firing, Firings};
use marking::Marking;
use net::{Key, MAX_LIVE};
use tally::Tally;
use words::has_base;

// `fired S`, `undone S` or `refused N`, of an answer's word and value.
pub fn put_heard(out: &mut Text, word: u8, value: u16) {
    let said = match word {
        0 => "fired",
        1 => "undone",
        2 => "refused",
        _ => "",
    };
    out.put_count(said, value);
}

// `accepted` and the sheet's length, or `refused N`; 0 where it is not refused.
pub fn put_start(out: &mut Text, refusal: u8, length: usize) {
    if refusal == 0 {
        out.put_count("accepted", length);
    } else {
        out.put_refusal(refusal);
    }
}

// A number of a list where it is one of those that there are. One behind them is to be 0, and is written where it is not.
pub fn put_listed(out: &mut Text, mine: bool, n: usize) {
    if mine || n != 0 {
        out.put_item(n);
    }
}

// A word, or `refused N`; 0 where it is not refused.
pub fn put_begin(out: &mut Text, refusal: u8, word: &str) {
    if refusal == 0 {
        out.say(word);
    } else {
        out.put_refusal(refusal);
    }
}

// `places` and the place of each of the first n parts.
pub fn put_where(out: &mut Text, m: &Marking, n: usize) {
    out.put_text(b"places");
    for &place in m.places.iter().take(n) {
        out.put_item(place);
    }
}

// `couplings` and each of them.
pub fn put_couplings(out: &mut Text, m: &Marking) {
    out.put_text(b"couplings");
    for (&lo, &hi) in m.lo.iter().zip(m.hi.iter()).take(m.count) {
        out.put_coupling(lo, hi);
    }
}

// `live` and the live serials.
pub fn put_live(out: &mut Text, f: &Firings) {
    out.put_text(b"live");
    for &key in f.keys.iter().take(f.live) {
        out.put_item(key);
    }
}

// A live firing by its serial; the last one, where an altered record has two.
fn find(f: &Firings, key: u16) -> Option<Firing> {
    for i in (0..MAX_LIVE).rev() {
        if i < f.live && f.keys[i] == key {
            return Some(Firing {
                transition: f.transitions[i],
                key: Key(key),
                moved: f.moved[i],
            });
        }
    }
    None
}

fn put_not_live(out: &mut Text, key: u16) {
    out.put_count("firing", key);
    out.put_text(b" is not live");
}

// `moved` and the parts that a live firing moved.
pub fn put_moved(out: &mut Text, f: &Firings, key: u16) {
    let Some(firing) = find(f, key) else {
        put_not_live(out, key);
        return;
    };
    out.put_text(b"moved");
    for p in 0..64 {
        if has_base(firing.moved, p) {
            out.put_item(p);
        }
    }
}

// `step` and the step of a live firing.
pub fn put_step(out: &mut Text, f: &Firings, key: u16) {
    match find(f, key) {
        Some(firing) => out.put_count("step", firing.transition),
        None => put_not_live(out, key),
    }
}

// `tally` and the three counts.
pub fn put_tally(out: &mut Text, t: Tally) {
    out.put_count("tally", t.fired);
    out.put_item(t.undone);
    out.put_item(t.refused);
}
