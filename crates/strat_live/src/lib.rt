//! Which of the items of one key is live at a version, and at each version how many keys are.
#![tactic(auto)]

mod counts;
pub mod laws;
mod live;
mod tops;

pub use counts::Counts;
pub use live::live_in;
