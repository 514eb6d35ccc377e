// Several chips on one bus; there is no code here, the step of four stands in `bus_step`.

#![tactic(auto)]
