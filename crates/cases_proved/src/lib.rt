// The worked cases that document 01 marks, and the programs that it shuts out, as statements about the definitions: there is no code here.

#![tactic(auto)]
