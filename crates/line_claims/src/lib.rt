// What is claimed of the program's output as a whole: specs/Claims.antt.
#![tactic(auto)]
