// What is claimed of assignments, of cuts and fillings, and of the rows. There is no code here.
#![tactic(auto)]
