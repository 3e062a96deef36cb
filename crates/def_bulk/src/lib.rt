//! What an export of a version writes, and what that gives on a new store: definitions with their laws.
#![tactic(auto)]

pub mod laws;
