//! What a follower is said to have: the table of its leader after a prefix of the changes, as definitions with their laws.
#![tactic(auto)]

pub mod laws;
