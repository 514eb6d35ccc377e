// Demand 3 on a bus: what `compile` wrote for one of its chips draws the list there, and leaves the others. There is no code here.

#![tactic(auto)]
