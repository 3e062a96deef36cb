//! Tests of merged runs, and of purged and thinned groups.
#![tactic(auto)]

#[cfg(test)]
mod drawn;
#[cfg(test)]
mod faults;
#[cfg(test)]
mod groups;
#[cfg(test)]
mod list_run;
#[cfg(test)]
mod purged;
#[cfg(test)]
mod rows;
#[cfg(test)]
mod thinned;
