// The items of templates: which bytes are one, by which number any others are refused, the places of their members, and their blocks.
#![tactic(auto)]

pub mod group; // the items of a set of, permutation, superset or subset
pub mod item; // the items of a record of
pub mod record; // one record with a min and a max
