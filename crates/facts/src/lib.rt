// Cases on tests and on order, lists, counting: what mentions no notion of the project. There is no code here.
#![tactic(auto)]
