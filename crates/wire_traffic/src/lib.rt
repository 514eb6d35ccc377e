// No code: what is promised of the samples of the two wires, over calls of any size and over whole traffic.

#![tactic(auto)]
