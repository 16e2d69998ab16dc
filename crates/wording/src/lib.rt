// Answers in words: what the desk says of a record, of a refusal and of its reason, written into a lent buffer.
// The answers come from the customer's calls. Proved safe; what is printed is compared.
#![tactic(auto)]

pub mod answer;
pub mod pages;
pub mod panel;
pub mod part;
pub mod put;
pub mod reason;
pub mod refused;
