// The byte format of a sheet (document 01, the sheet): total readers of its numbers, its parts and a transition's bytes.
// specs/ says what the bytes mean, up to the net that they describe; which sheets are accepted is the crate sheet's.
#![tactic(auto)]

ghost use Rattle.std.specs.Prelude.{◌≡◌, ◌+◌, ◌*◌, ◌^◌, ◌<◌, ◌≤◌, length, if◌then◌else◌};
ghost use Rattle.net.specs.Net.{less_bond};
ghost use Rattle.format.specs.Bytes.{outside, byte_at, word_at, base_at, entry_at, bond_at, header_width, pair_width, entry_width, bond_width};
ghost use Rattle.format.specs.Parts.{version_of, places_of, bases_of, transitions_of, offset_of, length_of, part_of, start_places, start_bonds, transition_bytes};
ghost use Rattle.format.specs.Arcs.{entry_count, nth_entry, in_at, in_count, nth_in_bond, out_at, out_count, nth_out_bond, arcs_width};
ghost use Rattle.format.specs.Sides.{bond_count, nth_bond};
ghost use Rattle.format.specs.NetOf.{start_bond_count, nth_start_bond};

use net::{Base, Bond, Entry, Place, Transition};

// The widths of the format. A base's number is one byte, read by base_at.
const BASE_WIDTH: usize = 1;

const ENTRY_WIDTH: usize = BASE_WIDTH + 2;

pub const BOND_WIDTH: usize = BASE_WIDTH + BASE_WIDTH;

pub const HEADER_WIDTH: usize = 4;

pub const PAIR_WIDTH: usize = 4;

pub const LEADING_PAIRS: usize = 2;

// A byte; 0 past the end.
pub fn byte_at(s: &[u8], at: usize) -> u8
    ensures { result ≡ byte_at s.now at }
{
    s.get(at).copied().unwrap_or(0)
}

// Whether a count is not 1 to max.
pub fn outside(n: usize, max: usize) -> bool
    ensures { result ≡ outside n max }
{
    !(1..=max).contains(&n)
}

// A two-byte number, low byte first; bytes past the end are 0. Here and below a limit on positions keeps sums of them in range.
fn word(s: &[u8], at: usize) -> usize
    requires { at < 2 ^ 32 }
    ensures value { result ≡ word_at s.now at }
    ensures upper_bound { result < 65536 }
{
    usize::from(u16::from_le_bytes([byte_at(s, at), byte_at(s, at + 1)]))
}

// The same at any position of 32 bits.
pub fn word_at(s: &[u8], at: u32) -> usize
    ensures value { result ≡ word_at s.now at }
    ensures upper_bound { result < 65536 }
{
    word(s, at as usize)
}

// A base's number: the one place that reads its width.
fn base_at(s: &[u8], at: usize) -> Base
    ensures { result ≡ base_at s.now at }
{
    byte_at(s, at)
}

fn entry_at(s: &[u8], at: usize) -> Entry
    requires { at < 2 ^ 32 }
    ensures { result ≡ entry_at s.now at }
{
    Entry {
        base: base_at(s, at),
        from: byte_at(s, at + BASE_WIDTH),
        to: byte_at(s, at + BASE_WIDTH + 1),
    }
}

fn bond_at(s: &[u8], at: usize) -> Bond
    requires { at < 2 ^ 32 }
    ensures { result ≡ bond_at s.now at }
{
    Bond {
        lo: base_at(s, at),
        hi: base_at(s, at + BASE_WIDTH),
    }
}

// Bonds are ordered as pairs.
pub fn bond_before(b: Bond, c: Bond) -> bool
    ensures { result ≡ less_bond b c }
{
    (b.lo, b.hi) < (c.lo, c.hi)
}

// ---- The header

pub fn version(sheet: &[u8]) -> u8
    ensures { result ≡ version_of sheet.now }
{
    byte_at(sheet, 0)
}

pub fn place_count(sheet: &[u8]) -> Place
    ensures { result ≡ places_of sheet.now }
{
    byte_at(sheet, 1)
}

pub fn base_count(sheet: &[u8]) -> Base
    ensures { result ≡ bases_of sheet.now }
{
    byte_at(sheet, 2)
}

pub fn transition_count(sheet: &[u8]) -> u8
    ensures { result ≡ transitions_of sheet.now }
{
    byte_at(sheet, 3)
}

// ---- The parts that the pairs name

// Where pair k stands: two bytes of its offset, two of its length.
fn pair_at(k: u16) -> usize
    ensures { result ≡ header_width + pair_width * k }
{
    HEADER_WIDTH + PAIR_WIDTH * usize::from(k)
}

pub fn pair_offset(sheet: &[u8], k: u16) -> usize
    ensures value { result ≡ offset_of sheet.now k }
    ensures upper_bound { result < 65536 }
{
    word(sheet, pair_at(k))
}

pub fn pair_length(sheet: &[u8], k: u16) -> usize
    ensures value { result ≡ length_of sheet.now k }
    ensures upper_bound { result < 65536 }
{
    word(sheet, pair_at(k) + 2)
}

// The part of the sheet that pair k names; the empty one where it does not lie in the sheet.
fn part(sheet: &[u8], k: u16) -> &[u8]
    ensures result_value { result.now ≡ part_of sheet.now k }
    ensures result_len_bound { length result.now < 65536 }
{
    let from = pair_offset(sheet, k);
    let end = from + pair_length(sheet, k);
    sheet.get(from..end).unwrap_or(&[])
}

pub fn start_places(sheet: &[u8]) -> &[u8]
    ensures { result.now ≡ start_places sheet.now }
{
    part(sheet, 0)
}

pub fn start_bonds(sheet: &[u8]) -> &[u8]
    ensures result_value { result.now ≡ start_bonds sheet.now }
    ensures result_len_bound { length result.now < 65536 }
{
    part(sheet, 1)
}

// The start couplings: as many as their bytes hold.
pub fn start_bond_count(sheet: &[u8]) -> u16
    ensures { result ≡ start_bond_count sheet.now }
{
    (start_bonds(sheet).len() / BOND_WIDTH) as u16
}

pub fn start_bond(sheet: &[u8], i: u16) -> Bond
    ensures { result ≡ nth_start_bond sheet.now i }
{
    bond_at(start_bonds(sheet), BOND_WIDTH * usize::from(i))
}

// The bytes of a transition, a part of the caller's sheet; the empty one where the sheet has no such number, or its pair
// does not lie in the sheet.
#[tactic(auto, using(std::proofs::lemmas::Bool::Decides::nat_tests), unfolding(crate::specs::Parts::transition_bytes))]
pub fn transition_bytes(sheet: &[u8], t: Transition) -> &[u8]
    ensures { result.now ≡ transition_bytes sheet.now t }
{
    if t.0 < u16::from(transition_count(sheet)) {
        part(sheet, t.0 + LEADING_PAIRS as u16)
    } else {
        &[]
    }
}

// ---- Inside a transition's bytes: entries, in-couplings and out-couplings, each after its count

pub fn entry_count(b: &[u8]) -> u8
    ensures { result ≡ entry_count b.now }
{
    byte_at(b, 0)
}

pub fn entry(b: &[u8], i: u8) -> Entry
    ensures { result ≡ nth_entry b.now i }
{
    entry_at(b, 1 + ENTRY_WIDTH * usize::from(i))
}

// Where the count of in-couplings stands.
fn in_at(b: &[u8]) -> usize
    ensures value { result ≡ in_at b.now }
    ensures upper_bound { result ≤ 1 + entry_width * 255 }
{
    1 + ENTRY_WIDTH * usize::from(entry_count(b))
}

// Where the count of a side's couplings stands: `out` for the out-couplings.
fn count_at(b: &[u8], out: bool) -> usize
    ensures value { result ≡ (if out then out_at b.now else in_at b.now) }
    ensures upper_bound { result ≤ 2 + entry_width * 255 + bond_width * 255 }
{
    let at = in_at(b);
    if out {
        at + 1 + BOND_WIDTH * usize::from(byte_at(b, at))
    } else {
        at
    }
}

// How many couplings stand on a side of the transition, and the one at i.
pub fn bond_count(b: &[u8], out: bool) -> u8
    ensures { result ≡ bond_count b.now out }
{
    byte_at(b, count_at(b, out))
}

pub fn nth_bond(b: &[u8], out: bool, i: u8) -> Bond
    ensures { result ≡ nth_bond b.now out i }
{
    bond_at(b, count_at(b, out) + 1 + BOND_WIDTH * usize::from(i))
}

pub fn in_count(b: &[u8]) -> u8
    ensures { result ≡ in_count b.now }
{
    bond_count(b, false)
}

pub fn in_bond(b: &[u8], i: u8) -> Bond
    ensures { result ≡ nth_in_bond b.now i }
{
    nth_bond(b, false, i)
}

pub fn out_count(b: &[u8]) -> u8
    ensures { result ≡ out_count b.now }
{
    bond_count(b, true)
}

pub fn out_bond(b: &[u8], i: u8) -> Bond
    ensures { result ≡ nth_out_bond b.now i }
{
    nth_bond(b, true, i)
}

// The length that the counts give.
pub fn arcs_width(b: &[u8]) -> usize
    ensures { result ≡ arcs_width b.now }
{
    count_at(b, true) + 1 + BOND_WIDTH * usize::from(out_count(b))
}
