//! Tests of `strat_bulk`, over stores in memory that were served, and over disks and sinks that fail.

#![tactic(auto)]

#[cfg(test)]
mod failures;
#[cfg(test)]
mod rows;
#[cfg(test)]
mod support;
