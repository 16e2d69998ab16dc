// The lines of scripts for the desk: their forms, the sheet and the commands that they say as bytes, whether two lines are alike, what is
// printed, and what is kept from line to line.
#![tactic(auto)]

pub mod command;
pub mod form;
mod hex;
pub mod same;
pub mod say;
pub mod sheets;
pub mod state;
