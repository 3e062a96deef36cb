//! What no clause of arrays says: that their calls succeed where memory is ample, and how often a disk is read.
#![tactic(auto)]

#[cfg(test)]
mod built;
#[cfg(test)]
mod reads;
#[cfg(test)]
mod runs;
#[cfg(test)]
mod writer;
