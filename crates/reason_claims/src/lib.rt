// What is claimed of groups that are short of elements, and of the answer to why not. There is no code here.
#![tactic(auto)]
