//! What an open store holds in memory: versions, level 0 and cursors, and the manifest and the levels that its last
//! checkpoint left.
#![tactic(auto)]

pub mod admitting;
pub mod belonging;
pub mod belonging_laws;
pub mod copying;
pub mod filters;
pub mod memory;
pub mod memory_laws;
pub mod open_store;
