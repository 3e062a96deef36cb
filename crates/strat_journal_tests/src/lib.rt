//! What no clause of gates, superblocks and journals says: that their calls succeed where memory is ample,
//! their bytes, and what is left on worked disks whose calls were cut off.
#![tactic(auto)]

#[cfg(test)]
mod journals;
#[cfg(test)]
mod superblocks;
