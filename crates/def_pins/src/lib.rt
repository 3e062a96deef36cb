//! What the definitions of states and formats say at their bounds: at each bound a value that passes, and one past it
//! that does not, so that no bound can be altered unnoticed. Each is the contract of a function that does nothing.

#![tactic(auto)]

pub mod bad_disks;
pub mod crashes;
pub mod disks;
pub mod drops;
pub mod formats;
pub mod frames;
pub mod journals;
pub mod limits;
pub mod look_ups;
pub mod marks;
pub mod openings;
pub mod runs;
pub mod scans;
pub mod states;
pub mod workloads;
