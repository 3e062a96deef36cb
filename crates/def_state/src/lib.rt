//! What a store holds, as definitions with their laws: levels of sorted arrays, sound states, and what
//! reading them finds.
#![tactic(auto)]

pub mod broken;
pub mod entry_laws;
pub mod laws;
pub mod look_ups;
pub mod worked;
