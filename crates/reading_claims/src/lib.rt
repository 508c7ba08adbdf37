// What is claimed of integers as bytes and of the reading of templates. There is no code here.
#![tactic(auto)]
