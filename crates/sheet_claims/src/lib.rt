// What is claimed of the sheets that a rule is written on. There is no code here.
#![tactic(auto)]
