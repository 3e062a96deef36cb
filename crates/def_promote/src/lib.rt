//! How the journal and the shallow levels of a state become one level: the union of what they say,
//! purged where nothing lies deeper, and that all maps stay. And how all of a state becomes one level, thinned.
//! Definitions and laws: the crate has no code that runs.
#![tactic(auto)]

pub mod compacting;
pub mod laws;
pub mod merging;
pub mod sealing;
pub mod worked;
