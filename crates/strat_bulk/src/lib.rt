//! A version of a store as a stream of puts.
#![tactic(auto)]

mod exporting;
mod framing;
pub mod laws;
mod pages;

pub use exporting::export_pairs;
