//! What recovery finds in the bytes of a disk, as definitions with their laws.
#![tactic(auto)]

pub mod asking;
pub mod opening;
