//! What no clause of limits, numbers, entries, changes and pairs says: that the calls succeed where memory is
//! ample, what the definitions come to at their edges, and the printed texts.
#![tactic(auto)]

#[cfg(test)]
mod changes;
#[cfg(test)]
mod descriptors;
#[cfg(test)]
mod entries;
#[cfg(test)]
mod failures;
#[cfg(test)]
mod numbers;
#[cfg(test)]
mod pairs;
