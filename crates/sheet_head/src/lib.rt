// The conditions under which a sheet is turned away before its transitions are looked at (document 01, 1 to 6): a function
// for each, true where the sheet is refused. Total: each reads any bytes.
#![tactic(auto)]

ghost use Rattle.std.specs.Prelude.{◌≡◌, ◌+◌, ◌*◌, ◌<◌, ltb};
ghost use Rattle.net.specs.Tests.{all};
ghost use Rattle.net.specs.Sorted.{ascends};
ghost use Rattle.net.specs.Net.{less_bond};
ghost use Rattle.net.specs.Rules.{start_bond_rule};
ghost use Rattle.format.specs.Parts.{pairs_of, bases_of};
ghost use Rattle.format.specs.NetOf.{start_marking};
ghost use Rattle.sheet_head.specs.Conditions.{wrong_size, wrong_version, wrong_counts, parts_begin, follow, wrong_pairs, wrong_start_places, wrong_start_bonds};

use format::{
    BOND_WIDTH, HEADER_WIDTH, LEADING_PAIRS, PAIR_WIDTH, base_count, bond_before, byte_at, outside,
    pair_length, pair_offset, place_count, start_bond, start_bond_count, start_bonds, start_places,
    transition_count, version,
};
use net::{Bond, MAX_BASES, MAX_PLACES, MAX_SHEET, MAX_TRANSITIONS, Place};

// 1: too few bytes for a header, or too many for a sheet.
#[tactic(auto, unfolding(crate::specs::Conditions::wrong_size))]
pub fn wrong_size(sheet: &[u8]) -> bool
    ensures { result ≡ wrong_size sheet.now }
{
    !(HEADER_WIDTH..=MAX_SHEET).contains(&sheet.len())
}

// 2: not version 1.
#[tactic(auto, unfolding(crate::specs::Conditions::wrong_version))]
pub fn wrong_version(sheet: &[u8]) -> bool
    ensures { result ≡ wrong_version sheet.now }
{
    version(sheet) != 1
}

// 3: a count of the header is not within its limit.
#[tactic(auto, unfolding(crate::specs::Conditions::wrong_counts))]
pub fn wrong_counts(sheet: &[u8]) -> bool
    ensures { result ≡ wrong_counts sheet.now }
{
    outside(usize::from(place_count(sheet)), MAX_PLACES)
        || outside(usize::from(base_count(sheet)), MAX_BASES)
        || outside(usize::from(transition_count(sheet)), MAX_TRANSITIONS)
}

// Where the first part begins: behind the pairs.
fn parts_begin(sheet: &[u8]) -> usize
    ensures value { result ≡ parts_begin sheet.now }
    ensures upper_bound { result < 65536 }
{
    HEADER_WIDTH + PAIR_WIDTH * (usize::from(transition_count(sheet)) + LEADING_PAIRS)
}

// The offset rule: each part begins where the one before ends, the last ends where the sheet ends.
fn pairs_follow(sheet: &[u8]) -> bool
    ensures { result ≡ follow sheet.now (parts_begin sheet.now) 0 (pairs_of sheet.now) }
{
    let pairs = u16::from(transition_count(sheet)) + LEADING_PAIRS as u16;
    let mut at = parts_begin(sheet);
    for k in 0..pairs {
        if pair_offset(sheet, k) != at {
            return false;
        }
        at += pair_length(sheet, k);
    }
    at == sheet.len()
}

// 4: the sheet ends inside the pairs, or they break the offset rule.
#[tactic(auto, unfolding(crate::specs::Conditions::wrong_pairs))]
pub fn wrong_pairs(sheet: &[u8]) -> bool
    ensures { result ≡ wrong_pairs sheet.now }
{
    sheet.len() < parts_begin(sheet) || !pairs_follow(sheet)
}

// Whether each byte is a place that is there.
fn places_there(bytes: &[u8], places: Place) -> bool
    ensures { result ≡ all (λ x. ltb x places) bytes.now }
{
    bytes.iter().all(|&x| x < places)
}

// 5: not one start place for each base, or one that is not there.
#[tactic(auto, unfolding(crate::specs::Conditions::wrong_start_places))]
pub fn wrong_start_places(sheet: &[u8]) -> bool
    ensures { result ≡ wrong_start_places sheet.now }
{
    let bytes = start_places(sheet);
    bytes.len() != usize::from(base_count(sheet)) || !places_there(bytes, place_count(sheet))
}

// Whether each start coupling is below the next, by the lower base first.
fn start_bonds_ascend(sheet: &[u8]) -> bool
    ensures { result ≡ ascends less_bond (start_marking sheet.now).bonds }
{
    (1..start_bond_count(sheet)).all(|i| bond_before(
        start_bond(sheet, i - 1),
        start_bond(sheet, i),
    ))
}

// A start coupling is of bases p < q that are there and start in one place.
fn start_bond_fits(sheet: &[u8], b: Bond) -> bool
    ensures { result ≡ start_bond_rule (bases_of sheet.now) (start_marking sheet.now) b }
{
    let places = start_places(sheet);
    b.lo < b.hi
        && b.hi < base_count(sheet)
        && byte_at(places, usize::from(b.lo)) == byte_at(places, usize::from(b.hi))
}

fn start_bonds_fit(sheet: &[u8]) -> bool
    ensures { result ≡ all (start_bond_rule (bases_of sheet.now) (start_marking sheet.now))
        (start_marking sheet.now).bonds }
{
    (0..start_bond_count(sheet)).all(|i| start_bond_fits(sheet, start_bond(sheet, i)))
}

// 6: bytes that make no whole couplings, or a coupling against the rule.
#[tactic(auto, unfolding(crate::specs::Conditions::wrong_start_bonds))]
pub fn wrong_start_bonds(sheet: &[u8]) -> bool
    ensures { result ≡ wrong_start_bonds sheet.now }
{
    start_bonds(sheet).len() % BOND_WIDTH != 0
        || !start_bonds_ascend(sheet)
        || !start_bonds_fit(sheet)
}
