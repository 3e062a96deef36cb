//! How versions are split into parts by density, and that the level of such a split is stratified.
//! Definitions and laws: the crate has no code that runs.
#![tactic(auto)]

pub mod bounds;
pub mod laws;
pub mod worked;
