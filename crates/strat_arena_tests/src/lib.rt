//! What no clause of arenas says: that there is room where memory is ample, and the bytes of worked
//! pairs while others come and go.
#![tactic(auto)]

#[cfg(test)]
mod arenas;
#[cfg(test)]
mod pools;
