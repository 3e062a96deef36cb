//! Tests of manifests.
#![tactic(auto)]

#[cfg(test)]
mod chains;
#[cfg(test)]
mod manifests;
