//! What a range is read through: level 0 and the levels of one moment.

use strat_arena::ArenaPool;
use strat_base::Arrays;
use strat_level::{Levels, ZeroView};
use strat_tree::Tree;

/// Levels 1 to 22, or of each the one array that is read, the shallowest level's first.
#[derive(Drop)]
pub enum Picked<'a> {
    /// The levels of a store, of each of which the array for the version is read.
    Live(&'a Levels),
    /// The arrays that a cursor holds on to.
    Pinned(&'a Arrays),
}

/// Level 0, a sealed level 0 where there is one, and the levels, as a reader goes through them. The keys and values of
/// level 0 lie in the pool.
#[derive(Drop)]
pub struct View<'a> {
    pub tree: &'a Tree,
    pub pool: &'a ArenaPool,
    pub zero: &'a ZeroView,
    pub sealed: Option<&'a ZeroView>,
    pub levels: Picked<'a>,
}
