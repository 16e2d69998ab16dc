// Scripts for the desk: a sheet as text or bytes, commands, questions and expectations, line by line. The answers come from
// the customer's calls; what is here goes through the lines and prints. Proved safe; what is printed is compared.
#![tactic(auto)]

mod blocks;
pub mod desk;
mod enter;
