//! Tests of level 0 and of the look-up among the items of one key.
#![tactic(auto)]

#[cfg(test)]
mod group;
#[cfg(test)]
mod level;
#[cfg(test)]
mod levels;
