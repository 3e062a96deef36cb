//! Which blocks of a file are used, and the lowest free ones.
#![tactic(auto)]

mod holes;
pub mod laws;
mod space;

pub use space::Space;
