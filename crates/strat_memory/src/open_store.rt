//! What an open store holds, from its recovery to the end of the run.

use crate::admitting::Published;
use crate::filters::Filters;
use crate::memory::Memory;
use strat_extent::Space;
use strat_gate::SuperBlock;
use strat_journal::Journal;
use strat_promote::promotion::Promotion;

/// A promotion that is open between two changes: the space from which it takes blocks, the budget of each of its slices,
/// and how many entries each of its two passes has.
#[derive(Drop)]
pub struct Promoting {
    pub promotion: Promotion,
    pub space: Space,
    pub budget: u64,
    pub sum: u64,
}

/// An open store: its newest superblock and the slot of that, what its last checkpoint left, its journal, what it has in
/// memory of versions and of level 0, the filters of the arrays that it made, and a promotion that may be open.
#[derive(Drop)]
pub struct OpenStore {
    pub slot: u8,
    pub sb: SuperBlock,
    pub published: Published,
    pub journal: Journal,
    pub memory: Memory,
    pub filters: Filters,
    pub promoting: Option<Promoting>,
}
