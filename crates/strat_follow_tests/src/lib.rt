//! Tests of `strat_follow`, over sources, sinks and disks in memory that fail and crash.

#![tactic(auto)]

#[cfg(test)]
mod stops;
#[cfg(test)]
mod streams;
#[cfg(test)]
mod support;
#[cfg(test)]
mod worked;
