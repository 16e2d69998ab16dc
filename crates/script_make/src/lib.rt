// A script as the exam program's input, and such an input as a script.
// `desk make` and `desk show`.
#![tactic(auto)]

pub mod files;
mod input;
