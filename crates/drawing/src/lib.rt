// What a drawing list means, which bus events say it, and that those events draw it (demand 3). These are statements about
// definitions (specs/) and their proofs (proofs/Demand3.antt): there is no code here.

#![tactic(auto)]
