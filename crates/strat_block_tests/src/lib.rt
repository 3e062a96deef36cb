//! Tests of blocks.
#![tactic(auto)]

#[cfg(test)]
mod blocks;
#[cfg(test)]
mod worked;
