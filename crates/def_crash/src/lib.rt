//! What a crash may leave of a disk at each moment, which tables that shows, and counts of faults: definitions and laws.
#![tactic(auto)]

pub mod laws;
