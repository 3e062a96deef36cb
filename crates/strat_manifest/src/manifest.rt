//! The manifest in memory.

use strat_base::{LevelDesc, Listing, NoMemory, Versions};

/// The parents of versions: one number for each version from 1 on.
pub type Parents = Listing<u32>;

/// A list of descriptors of levels.
pub type LevelList = Listing<LevelDesc>;

/// What a store keeps of itself beside its journal: how many changes and updates its levels hold, how
/// many entries all checkpoints wrote but for merges of all levels, and how many those did, the number of the next
/// array, the parents, a mark for each version from 0 on, 1 if it was dropped and else 0, and the levels.
#[derive(Drop)]
pub struct Manifest {
    pub changes: u32,
    pub updates: u32,
    pub written: u64,
    pub compacted: u64,
    pub next_array: u64,
    pub parents: Parents,
    pub marks: Versions,
    pub levels: LevelList,
}

/// Why no manifest was read: no manifest has this spelling, or memory ran out.
#[derive(Clone, Copy, Debug, PartialEq, Eq)]
pub enum ManifestFault {
    Refused,
    NoMemory,
}

impl From<NoMemory> for ManifestFault {
    fn from(_: NoMemory) -> ManifestFault {
        ManifestFault::NoMemory
    }
}
