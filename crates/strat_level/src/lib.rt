//! The levels of a store in memory: level 0 with the entries of the journal in their order, and the
//! descriptors of the levels below it.
#![tactic(auto)]

mod depth;
mod index;
pub mod laws;
mod level;
mod levels;
mod search;
mod view;
mod zero;

pub use depth::target;
pub use index::LevelFault;
pub use level::Level;
pub use levels::Levels;
pub use view::ZeroView;
pub use zero::Zero;
