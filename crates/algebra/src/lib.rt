// No code: laws of element templates that are joined and negated by hand, as claims over the normaliser.
#![tactic(auto)]
