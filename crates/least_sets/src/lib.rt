// Sets of live firings, as the second engine takes them back (document 02, T-04): the table of all sets (table), the least set for a layout
// (least), layouts and commands by lot (draws); the live firings as a list (lines). Nothing here cites the engine.
#![tactic(auto)]

pub mod draws;
pub mod least;
pub mod lines;
pub mod table;
