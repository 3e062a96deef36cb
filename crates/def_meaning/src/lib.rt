//! The table that a state of the store means, as definitions with their laws.
#![tactic(auto)]

pub mod state_laws;
pub mod table_laws;
