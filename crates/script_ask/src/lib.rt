// What a script asks: about the record, the last refusal, the sheet, the way back; and what it alters for tests.
// The answers come from the customer's calls.
#![tactic(auto)]

pub mod alter;
pub mod ask;
mod changed;
pub mod each;
pub mod ways;
