//! Filters of keys: which keys were surely never added.
#![tactic(auto)]

mod bits;
mod filter;
mod hash;
pub mod laws;

pub use filter::Filter;
pub use hash::fnv;

#[cfg(test)]
mod tests;
