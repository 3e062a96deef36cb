//! Tests of `strat_store` and `strat_serve`, over sources, sinks and disks in memory that fail, crash and are altered.

#![tactic(auto)]

#[cfg(test)]
mod batches;
#[cfg(test)]
mod beside;
#[cfg(test)]
mod damaged;
#[cfg(test)]
mod disks;
#[cfg(test)]
mod filters;
#[cfg(test)]
mod formatting;
#[cfg(test)]
mod openings;
#[cfg(test)]
mod replies;
#[cfg(test)]
mod scripts;
#[cfg(test)]
mod stops;
#[cfg(test)]
mod streams;
#[cfg(test)]
mod support;
#[cfg(test)]
mod worked;
