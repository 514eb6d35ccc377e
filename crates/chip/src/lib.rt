// What is promised of the chip. The promises are statements about definitions (specs/) and their proofs (proofs/Laws.antt):
// there is no code here. Whoever stands on this crate, and not on `engine`, goes by the laws and can't open the definitions.

#![tactic(auto)]
