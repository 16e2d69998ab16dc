// The types and limits that definitions and code share; one method, the number of an answer. specs/ has document 01's definitions
// of a net, of firing, taking back and the session book, proofs/ what holds of them, for any number of bases.
#![tactic(auto)]

ghost use Rattle.std.specs.Prelude.{◌≡◌};
ghost use Rattle.net.specs.Checks.{verdict_number};

// The number of a place, and of a base (document 01: a part), counted from 0.
pub type Place = u8;

pub type Base = u8;

// A bond (a coupling) of the bases lo < hi.
#[derive(Clone, Copy)]
pub struct Bond {
    pub lo: Base,
    pub hi: Base,
}

// An entry of a transition: the base, the place that it is taken from, the place that it is put in.
#[derive(Clone, Copy)]
pub struct Entry {
    pub base: Base,
    pub from: Place,
    pub to: Place,
}

// A transition's number (a step number), as wide as a command's number.
#[derive(Clone, Copy)]
pub struct Transition(pub u16);

// A firing's key (a serial).
#[derive(Clone, Copy)]
pub struct Key(pub u16);

// The answer of a call that gives what it is asked for, or is turned away by a number of the papers' lists.
#[derive(Clone, Copy)]
pub enum Verdict {
    Accepted,
    Refused(u8),
}

impl Verdict {
    // The number that the papers have for the answer; 0 where it is no refusal.
    pub fn number(self) -> u8
        ensures { result ≡ verdict_number self }
    {
        match self {
            Verdict::Accepted => 0,
            Verdict::Refused(n) => n,
        }
    }
}

// The limits of a sheet: its bytes, places, bases, transitions, and a transition's entries.
pub const MAX_SHEET: usize = 32768;

pub const MAX_PLACES: usize = 64;

pub const MAX_BASES: usize = 64;

pub const MAX_TRANSITIONS: usize = 64;

pub const MAX_ENTRIES: usize = 64;

// The limits of a session: bonds of a marking (all pairs of bases), live firings, the highest key.
pub const MAX_BONDS: usize = 2016;

pub const MAX_LIVE: usize = 256;

pub const MAX_KEY: u16 = 65535;
