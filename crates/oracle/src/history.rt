// The history H and the dependence of occurrences (document 004, Definitions 8 to 10 and 12), in the 1,792 words after the
// tables. An occurrence has one of 256 slots: its key (0 where the slot is free), its transition, four words with the slots
// that depend on it, and the set of the bases that its firing moved. The state's last word is the highest key ever given
// (document 02, T-03).
use crate::reader::arc_bases;
use crate::refusal::Refusal;
use crate::sets::{get, join, less, only, put};

const KEYS: usize = 29120;

const TRANSITIONS: usize = 29376;

const PAIRS: usize = 29632;

const MOVED: usize = 30656;

const GIVEN: usize = 30916;

const SLOTS: usize = 256;

// No key is as high.
pub const NO_KEY: u64 = 65536;

fn keys(s: &[u64]) -> &[u64] {
    s.get(KEYS..KEYS + SLOTS).unwrap_or(&[])
}

pub fn key_at(s: &[u64], slot: usize) -> u64 {
    get(s, KEYS + slot % SLOTS)
}

pub fn transition_at(s: &[u64], slot: usize) -> usize {
    (get(s, TRANSITIONS + slot % SLOTS) % 64) as usize
}

// The bases that left their places by Definition 22: the components of the entries just before.
pub fn moved_at(s: &[u64], slot: usize) -> u64 {
    get(s, MOVED + slot % SLOTS)
}

// Where it stands that a later slot depends on an earlier.
fn pair(earlier: usize, later: usize) -> usize {
    PAIRS + 4 * (earlier % SLOTS) + later / 64 % 4
}

// max(H(t)); 0 where there is none.
fn latest(s: &[u64], t: usize) -> u64 {
    let slots = (0..SLOTS).filter(|&i| transition_at(s, i) == t);
    slots.map(|i| key_at(s, i)).max().unwrap_or(0)
}

// The highest key of all transitions; 0 where there is none.
pub fn highest(s: &[u64]) -> u64 {
    keys(s).iter().copied().max().unwrap_or(0)
}

// The highest key that was ever given, live or not; 0 where none was. The next one is above it.
pub fn given(s: &[u64]) -> u64 {
    get(s, GIVEN)
}

pub fn give(s: &mut [u64], key: u64) {
    put(s, GIVEN, key);
}

// The slot of a key, the first free one for 0.
pub(crate) fn find_slot(s: &[u64], key: u64) -> Option<usize> {
    keys(s).iter().position(|&k| k == key)
}

// The same; 256 where there is none.
pub fn slot_of(s: &[u64], key: u64) -> usize {
    find_slot(s, key).unwrap_or(SLOTS)
}

// The lowest key above a key; NO_KEY where there is none. So the live firings can be read in their order.
pub fn key_after(s: &[u64], key: u64) -> u64 {
    let later = keys(s).iter().copied().filter(|&k| key < k);
    later.min().unwrap_or(NO_KEY)
}

// How many firings are live.
pub fn live(s: &[u64]) -> usize {
    keys(s).iter().filter(|&&k| k != 0).count()
}

// Definition 9: an occurrence of lower key whose post(t) has a base that the new one uses.
fn relate(s: &mut [u64], sheet: &[u8], earlier: usize, later: usize, bases: u64) {
    let k = key_at(s, earlier);
    let common = arc_bases(sheet, transition_at(s, earlier)) & bases;
    if k != 0 && k < key_at(s, later) && common != 0 {
        join(s, pair(earlier, later), only(later));
    }
}

fn set_key(s: &mut [u64], slot: usize, key: u64) {
    put(s, KEYS + slot % SLOTS, key);
}

fn set_slot(s: &mut [u64], slot: usize, t: usize, key: u64, bases: u64) {
    set_key(s, slot, key);
    put(s, TRANSITIONS + slot % SLOTS, t as u64);
    put(s, MOVED + slot % SLOTS, bases);
}

// Definition 10: a new occurrence, the bases that it moved, and what it depends on.
pub fn record(s: &mut [u64], sheet: &[u8], slot: usize, t: usize, key: u64, bases: u64) {
    set_slot(s, slot, t, key, bases);
    for i in 0..SLOTS {
        relate(s, sheet, i, slot, bases);
    }
}

// Definition 11(2): whether an occurrence depends on this one.
fn has_dependents(s: &[u64], slot: usize) -> bool {
    (0..4).any(|k| get(s, pair(slot, 64 * k)) != 0)
}

// Definition 11 for the occurrence of a key, 11(1) aside: which of 19 and 20 holds first. It has to be the latest of its
// transition; an earlier one has a later one depend on it.
pub fn undo_hindered(s: &[u64], key: u64) -> Result<(), Refusal> {
    let live = find_slot(s, key).filter(|_| key != 0);
    let slot = live.ok_or(Refusal::NotLive)?;
    if latest(s, transition_at(s, slot)) != key || has_dependents(s, slot) {
        return Err(Refusal::DependedOn);
    }
    Ok(())
}

fn part(s: &mut [u64], earlier: usize, later: usize) {
    let at = pair(earlier, later);
    put(s, at, less(get(s, at), only(later)));
}

// Definition 12: the occurrence goes, and the pairs in which it is the later.
pub fn forget(s: &mut [u64], slot: usize) {
    set_slot(s, slot, 0, 0, 0);
    for i in 0..SLOTS {
        part(s, i, slot);
    }
}

// Another key for the occurrence of the highest, where there is one: a record handed in may have any that is above the others.
fn raise_last(s: &mut [u64], key: u64) {
    let last = highest(s);
    if last != 0 && key != 0 {
        set_key(s, slot_of(s, last), key);
    }
}

// The same, and the highest given is not below that key then, with nothing live too. 0 raises none.
pub fn raise(s: &mut [u64], key: u64) {
    raise_last(s, key);
    give(s, given(s).max(key));
}
