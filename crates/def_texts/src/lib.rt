//! The texts that the program prints of a store, and the changes of a workload, as definitions with their laws.
#![tactic(auto)]

pub mod reports;
pub mod texts;
pub mod workload_laws;
