//! What a store stands on with a sealed level 0 and a promotion that is open, slice by slice. Definitions and laws:
//! the crate has no code that runs.
#![tactic(auto)]

pub mod budget;
pub mod ending;
pub mod lists;
pub mod opened;
