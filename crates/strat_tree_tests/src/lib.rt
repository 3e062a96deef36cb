//! Tests of the tree of versions against plain walks along the parents.
#![tactic(auto)]

#[cfg(test)]
mod tests;
