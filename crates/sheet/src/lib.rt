// Which sheets are accepted (document 01, the turned-away list, 1 to 9): the checks in order, the first that holds answered.
// The conditions themselves are the crates sheet_head's (1 to 6), sheet_arcs's (7, 8) and sheet_bonds's (9).
#![tactic(auto)]

ghost use Rattle.std.specs.Prelude.{◌≡◌, ◌+◌, ◌<◌};
ghost use Rattle.net.specs.Checks.{first, verdict_number};
ghost use Rattle.format.specs.Parts.{transitions_of};
ghost use Rattle.sheet.specs.Checks.{refusal, head_checks, transition_checks, checks_from, sheet_checks, checked};
ghost use Rattle.net.specs.declared.Verdict.{Verdict};

use format::{base_count, place_count, transition_bytes, transition_count};
use net::{Transition, Verdict};
use sheet_arcs::{wrong_entries, wrong_width};
use sheet_bonds::wrong_bonds;
use sheet_head::{
    wrong_counts, wrong_pairs, wrong_size, wrong_start_bonds, wrong_start_places, wrong_version,
};

// The first of 1 to 6 that holds.
fn head_refusal(sheet: &[u8]) -> Option<u8>
    ensures { result ≡ refusal (head_checks sheet.now) }
{
    if wrong_size(sheet) {
        Some(1)
    } else if wrong_version(sheet) {
        Some(2)
    } else if wrong_counts(sheet) {
        Some(3)
    } else if wrong_pairs(sheet) {
        Some(4)
    } else if wrong_start_places(sheet) {
        Some(5)
    } else if wrong_start_bonds(sheet) {
        Some(6)
    } else {
        None
    }
}

// The first of 7 to 9 that holds of a transition.
fn refusal_at(sheet: &[u8], t: Transition) -> Option<u8>
    ensures { result ≡ refusal (transition_checks sheet.now t) }
{
    let b = transition_bytes(sheet, t);
    if wrong_width(b) {
        Some(7)
    } else if wrong_entries(b, place_count(sheet), base_count(sheet)) {
        Some(8)
    } else if wrong_bonds(b) {
        Some(9)
    } else {
        None
    }
}

// The same as a number; 0 where none does.
// Kept: its clause says 0, and other crates call it.
pub fn transition_refusal(sheet: &[u8], t: Transition) -> u8
    ensures { result ≡ first (transition_checks sheet.now t) }
{
    refusal_at(sheet, t).unwrap_or(0)
}

// The first of 7 to 9 that holds of the transitions in number order.
fn transitions_refusal(sheet: &[u8]) -> Option<u8>
    ensures { result ≡ refusal (checks_from sheet.now 0 (transitions_of sheet.now)) }
{
    for k in 0..u16::from(transition_count(sheet)) {
        if let Some(n) = refusal_at(sheet, Transition(k)) {
            return Some(n);
        }
    }
    None
}

// The first of 1 to 9 that holds of a sheet.
#[tactic(auto, using(crate::proofs::Order::refusal_left, crate::proofs::Order::refusal_on), unfolding(crate::specs::Checks::sheet_checks))]
fn sheet_refusal(sheet: &[u8]) -> Option<u8>
    ensures { result ≡ refusal (sheet_checks sheet.now) }
{
    head_refusal(sheet).or_else(|| transitions_refusal(sheet))
}

// Accepted, or refused with the first number of document 01's list that holds. Any bytes may be handed in.
#[tactic(auto, using(crate::proofs::Order::first_refusal, crate::proofs::Order::clear_refusal), unfolding(crate::specs::Checks::checked))]
pub fn check_sheet(sheet: &[u8]) -> Verdict
    ensures value { result ≡ checked sheet.now }
    ensures result_value { verdict_number result ≡ first (sheet_checks sheet.now) }
{
    match sheet_refusal(sheet) {
        None => Verdict::Accepted,
        Some(n) => Verdict::Refused(n),
    }
}
