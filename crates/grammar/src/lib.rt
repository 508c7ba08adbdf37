// What templates are, which bytes are one, with every refusal, and which integers an element template matches: definitions and their laws. There is no code here.
#![tactic(auto)]
