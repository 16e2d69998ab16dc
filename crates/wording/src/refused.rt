// Why a sheet was refused, in words (document 01, the turned-away list, 1 to 9): the number's condition, and the pair, part,
// coupling or step that it is about. Only what is printed: that a sheet is refused, and by which number, is the crate sheet's.
use crate::put::Text;
use format::{
    arcs_width, base_count, byte_at, entry, entry_count, pair_length, pair_offset, place_count,
    start_bond, start_bond_count, start_bonds, start_places, transition_bytes, transition_count,
    version,
};
use net::{Bond, Entry, Transition};
use sheet::transition_refusal;
use std::fmt;
use std::fmt::{Display, Write};

// What is wrong with a sheet.
#[derive(Clone, Copy)]
enum Fault {
    Size(usize),
    Version(u8),
    Counts { places: u8, parts: u8, steps: u8 },
    PairsEnd { at: usize, size: usize },
    Pair { k: u16, is: usize, to_be: usize },
    LastPair { pairs: u16, is: usize, to_be: usize },
    StartPlaces { places: usize, parts: u8 },
    StartPlace { part: usize, place: u8, places: u8 },
    OddCouplings(usize),
    StartCoupling { i: u16, bond: Bond },
    Width { step: u8, is: usize, to_be: usize },
    Entries { step: u8, entries: u8 },
    Stray { step: u8, entry: Entry },
    Coupling { step: u8 },
}

impl Display for Fault {
    fn fmt<W: Write>(&self, f: &mut fmt::Formatter<W>) -> fmt::Result {
        match *self {
            Fault::Size(n) => write!(f, "the sheet has {n} bytes and is to have 4 to 32768"),
            Fault::Version(n) => write!(f, "the version is {n} and is to be 1"),
            Fault::Counts {
                places,
                parts,
                steps,
            } => write!(
                f,
                "places {places} parts {parts} steps {steps} and each is to be 1 to 64"
            ),
            Fault::PairsEnd { at, size } => {
                write!(f, "the pairs end at byte {at} and the sheet at {size}")
            }
            Fault::Pair { k, is, to_be } => {
                write!(f, "pair {k} has offset {is} and is to have {to_be}")
            }
            Fault::LastPair { pairs, is, to_be } => {
                write!(
                    f,
                    "the last of {pairs} pairs does not end at byte {is} but at {to_be}"
                )
            }
            Fault::StartPlaces { places, parts } => {
                write!(f, "the start places are {places} and the parts {parts}")
            }
            Fault::StartPlace {
                part,
                place,
                places,
            } => write!(
                f,
                "part {part} starts at {place} and the places are {places}"
            ),
            Fault::OddCouplings(n) => {
                write!(f, "the start couplings have {n} bytes and that is odd")
            }
            Fault::StartCoupling { i, bond } => {
                let (lo, hi) = (bond.lo, bond.hi);
                write!(f, "start coupling {i} {lo}-{hi} breaks its rule")
            }
            Fault::Width { step, is, to_be } => {
                write!(f, "step {step} has {is} bytes and its counts give {to_be}")
            }
            Fault::Entries { step, entries } => {
                write!(
                    f,
                    "step {step} has {entries} entries and is to have 1 to 64"
                )
            }
            Fault::Stray { step, entry } => {
                let (part, from, to) = (entry.base, entry.from, entry.to);
                write!(f, "step {step} moves part {part} from {from} to {to} ")?;
                f.write_str("and one of them is not there or the parts do not ascend")
            }
            Fault::Coupling { step } => {
                write!(f, "step {step} has a coupling that breaks its rule")
            }
        }
    }
}

// ---- the pairs, the start

// The first of n pairs whose offset is not where the one before ends; the last one's end where each is.
fn pair_fault(sheet: &[u8], n: u16, begin: usize) -> Fault {
    let mut to_be = begin;
    for k in 0..n {
        let is = pair_offset(sheet, k);
        if is != to_be {
            return Fault::Pair { k, is, to_be };
        }
        to_be = is + pair_length(sheet, k);
    }
    Fault::LastPair {
        pairs: n,
        is: sheet.len(),
        to_be,
    }
}

fn pairs_fault(sheet: &[u8]) -> Fault {
    let n = u16::from(transition_count(sheet)) + 2;
    let begin = 4 + 4 * usize::from(n);
    if sheet.len() < begin {
        return Fault::PairsEnd {
            at: begin,
            size: sheet.len(),
        };
    }
    pair_fault(sheet, n, begin)
}

// The first part whose start place is not there.
fn start_places_fault(sheet: &[u8]) -> Fault {
    let starts = start_places(sheet);
    let parts = base_count(sheet);
    if starts.len() != usize::from(parts) {
        return Fault::StartPlaces {
            places: starts.len(),
            parts,
        };
    }
    let places = place_count(sheet);
    let part = starts
        .iter()
        .position(|&x| places <= x)
        .unwrap_or(starts.len());
    Fault::StartPlace {
        part,
        place: byte_at(starts, part),
        places,
    }
}

// A start coupling keeps its rule: its parts are there, the lower first, in one place.
fn is_coupling(sheet: &[u8], b: Bond) -> bool {
    let places = start_places(sheet);
    b.lo < b.hi
        && b.hi < base_count(sheet)
        && byte_at(places, usize::from(b.lo)) == byte_at(places, usize::from(b.hi))
}

// The first start coupling that breaks its rule or does not stand behind the one before.
fn first_misfit(sheet: &[u8], n: u16) -> Option<u16> {
    let mut before = Bond { lo: 0, hi: 0 };
    for i in 0..n {
        let b = start_bond(sheet, i);
        if !is_coupling(sheet, b) || (b.lo, b.hi) <= (before.lo, before.hi) {
            return Some(i);
        }
        before = b;
    }
    None
}

fn start_couplings_fault(sheet: &[u8]) -> Fault {
    let bytes = start_bonds(sheet);
    if bytes.len() % 2 != 0 {
        return Fault::OddCouplings(bytes.len());
    }
    let n = start_bond_count(sheet);
    let i = first_misfit(sheet, n).unwrap_or(n);
    Fault::StartCoupling {
        i,
        bond: start_bond(sheet, i),
    }
}

// ---- a step

// The first step that is refused; how many there are where none is.
fn first_refused(sheet: &[u8]) -> u8 {
    let n = transition_count(sheet);
    for k in 0..n {
        if transition_refusal(sheet, Transition(u16::from(k))) != 0 {
            return k;
        }
    }
    n
}

fn width_fault(step: u8, b: &[u8]) -> Fault {
    let to_be = arcs_width(b);
    if b.len() != to_be {
        return Fault::Width {
            step,
            is: b.len(),
            to_be,
        };
    }
    Fault::Entries {
        step,
        entries: entry_count(b),
    }
}

// An entry names what is there, and its part is above the one before.
fn is_entry(e: Entry, above: u16, places: u8, parts: u8) -> bool {
    above <= u16::from(e.base) && e.base < parts && e.from < places && e.to < places
}

// The first entry that does not; how many there are where all do.
fn first_stray(b: &[u8], places: u8, parts: u8) -> u8 {
    let mut above = 0;
    let n = entry_count(b);
    for i in 0..n {
        let e = entry(b, i);
        if !is_entry(e, above, places, parts) {
            return i;
        }
        above = u16::from(e.base) + 1;
    }
    n
}

fn step_fault(sheet: &[u8], number: u8) -> Fault {
    let step = first_refused(sheet);
    let b = transition_bytes(sheet, Transition(u16::from(step)));
    match number {
        7 => width_fault(step, b),
        8 => {
            let i = first_stray(b, place_count(sheet), base_count(sheet));
            Fault::Stray {
                step,
                entry: entry(b, i),
            }
        }
        _ => Fault::Coupling { step },
    }
}

// Why a sheet is refused by a number.
fn fault_of(sheet: &[u8], number: u8) -> Fault {
    match number {
        1 => Fault::Size(sheet.len()),
        2 => Fault::Version(version(sheet)),
        3 => Fault::Counts {
            places: place_count(sheet),
            parts: base_count(sheet),
            steps: transition_count(sheet),
        },
        4 => pairs_fault(sheet),
        5 => start_places_fault(sheet),
        6 => start_couplings_fault(sheet),
        _ => step_fault(sheet, number),
    }
}

// The same in words.
pub fn put_refused(out: &mut Text, sheet: &[u8], number: u8) {
    out.say(fault_of(sheet, number));
}
