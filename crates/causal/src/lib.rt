// The abstract theory of steps that move sets of bases and can be taken back. No function: specs/ has the
// definitions, proofs/ what follows from them.
#![tactic(auto)]
