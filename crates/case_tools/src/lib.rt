// What the programs of cases share: bytes read from and put into slices (bytes), the table of last movers of an altered record
// (tables), what they print (print), and what the comparing program counts (counts).
// Nothing here cites the engine.
#![tactic(auto)]

pub mod bytes;
pub mod counts;
pub mod print;
pub mod tables;
