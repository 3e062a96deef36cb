//! Texts about a store: a report of its levels, a summary of a workload, and the line that says what a check found.
#![tactic(auto)]

mod checking;
mod density;
pub mod laws;
mod levels;
mod reporting;
mod summary;
mod totals;
mod versions;

pub use checking::write_check;
pub use reporting::{write_levels, write_summary};
pub use strat_check::verdict::{Verdict, check};
