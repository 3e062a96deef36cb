//! What no clause of sources, sinks and disks says: that their calls succeed where memory is ample, what
//! worked crashes leave, and what the adapters make of a system that fails.
#![tactic(auto)]

#[cfg(test)]
mod disks;
#[cfg(test)]
mod file_edges;
#[cfg(test)]
mod stream_edges;
#[cfg(test)]
mod streams;
