//! Tests of counts over the items of many keys, and of the split by them.
#![tactic(auto)]

#[cfg(test)]
mod dealt;
#[cfg(test)]
mod drawn;
#[cfg(test)]
mod rows;
#[cfg(test)]
mod trees;
