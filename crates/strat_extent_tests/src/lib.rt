//! Tests of the space of used and free blocks.
#![tactic(auto)]

#[cfg(test)]
mod drawn;
#[cfg(test)]
mod worked;
