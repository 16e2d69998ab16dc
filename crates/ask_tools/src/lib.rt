// What the libraries that ask share: a record beside the second engine's state (both), records with one entry changed (altered), records
// that commands lead to (led), and a record's bonds as the second engine has them (rows).
#![tactic(auto)]

pub mod altered;
pub mod both;
pub mod led;
pub mod rows;
