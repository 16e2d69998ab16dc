// Records with one entry changed, by which they are no longer sound. Where firings change, the table of last movers is that of the
// firings. An index past the entries is taken again from the first.
use case_tools::tables::last_movers;
use firings::Firings;
use net::Key;
use oracle::sets::only;
use oracle::{NO_KEY, key_after};
use session::Record;

// The place of part p is one higher.
fn with_place(r: Record, p: usize) -> Record {
    let mut next = r;
    let old = r.marking.places[p % 64];
    next.marking.places[p % 64] = (u16::from(old) % 255 + 1) as u8;
    next
}

// The last mover of part p.
fn with_mover(r: Record, p: usize, key: u16) -> Record {
    let mut next = r;
    next.movers[p % 64] = key;
    next
}

// Other firings.
pub fn with_firings(r: Record, f: Firings) -> Record {
    Record {
        firings: f,
        movers: last_movers(f.live, &f.keys, &f.moved),
        ..r
    }
}

// Firing i moved part p, where it did not, or did not, where it did. Past the live firings it is an unused entry that does not hold 0.
fn with_moved(r: Record, i: usize, p: usize) -> Record {
    let mut f = r.firings;
    f.moved[i % 256] ^= only(p);
    with_firings(r, f)
}

// Firing i has another serial.
pub fn with_key(r: Record, i: usize, key: u16) -> Record {
    let mut f = r.firings;
    f.keys[i % 256] = key;
    with_firings(r, f)
}

// The highest serial given.
pub fn with_given(r: Record, key: u16) -> Record {
    Record {
        given: Key(key),
        ..r
    }
}

// The next live serial, or the first; 0 where none is live.
fn another(s: &[u64], old: u16) -> u64 {
    match key_after(s, u64::from(old)) {
        NO_KEY => key_after(s, 0),
        key => key,
    }
}

// No serial was given though a firing is live.
fn none_given(r: Record) -> Record {
    if r.firings.live == 0 {
        r
    } else {
        with_given(r, 0)
    }
}

// What is changed at a part: the last mover, which is one more, another live serial or none; the place; a moved part of the first firing,
// and of the one of the part's number; the first firing's serial; the highest given.
#[derive(Clone, Copy)]
pub enum Way {
    MoverOneMore,
    OtherMover,
    NoMover,
    Place,
    FirstMoved,
    Moved,
    NoKey,
    NoneGiven,
}

pub const WAYS: [Way; 8] = [
    Way::MoverOneMore,
    Way::OtherMover,
    Way::NoMover,
    Way::Place,
    Way::FirstMoved,
    Way::Moved,
    Way::NoKey,
    Way::NoneGiven,
];

pub fn altered(r: Record, s: &[u64], way: Way, p: usize) -> Record {
    let mover = r.movers[p % 64];
    match way {
        Way::MoverOneMore => with_mover(r, p, mover.wrapping_add(1)),
        Way::OtherMover => with_mover(r, p, (another(s, mover) % 65536) as u16),
        Way::NoMover => with_mover(r, p, 0),
        Way::Place => with_place(r, p),
        Way::FirstMoved => with_moved(r, 0, p),
        Way::Moved => with_moved(r, p, p),
        Way::NoKey => with_key(r, 0, 0),
        Way::NoneGiven => none_given(r),
    }
}
