// What is promised, in one place: specs/Claims.antt states the three demands, specs/Judged.antt the judged examples.
#![tactic(auto)]
