// Sheets by lot, the same on every run: numbers (random), what a sheet is like (plan), its bytes (sheets); and commands by lot
// from the second engine's state (drawn); rows of a text that say which (rows). Nothing here cites the engine: document 01's section on
// the sheet says how one is written.
#![tactic(auto)]

pub mod drawn;
pub mod plan;
pub mod random;
pub mod rows;
pub mod sheets;
