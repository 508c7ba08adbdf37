// The order of lists of bytes, and the first list of a kind. There is no code here.
#![tactic(auto)]
