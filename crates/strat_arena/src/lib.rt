//! Keys and values in memory that is taken in large chunks, so that a pair which was pushed never moves.
#![tactic(auto)]

mod arena;
mod chunk;
mod items;
mod pool;
mod raw;

pub use arena::Arena;
pub use items::{Item, Slot};
pub use pool::ArenaPool;
