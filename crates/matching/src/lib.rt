// When a list matches: the rules, the first witness and the answers, as definitions, and their laws. There is no code here.
#![tactic(auto)]
