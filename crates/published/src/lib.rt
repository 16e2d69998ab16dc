// The published definition of reversing Petri nets (document 004, chapter 3), and that document 01's firing and taking
// back are it. No function: specs/ has the definitions and the statements, proofs/ the proofs.
#![tactic(auto)]
