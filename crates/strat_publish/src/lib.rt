//! A promotion of what fills the journal of a store, in slices, and the checkpoint at its end: the journal is emptied into the
//! levels, and other contents take the place of those on the disk.
#![tactic(auto)]

mod advancing;
mod begin;
mod checkpoint;
mod lay;
mod made;
mod next_manifest;
pub mod publishing_laws;
mod slice;

pub use advancing::advance;
