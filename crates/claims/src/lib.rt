// What the customer asked, stated in one place (specs/) and proved of the definitions that the calls' contracts cite
// (proofs/). No function.
#![tactic(auto)]
