//! A leader, which sends its store's changes with their numbers, and a follower, which carries them out on a store of its own
//! and answers each with a receipt. Both are protocols of `strat_loop`.
#![tactic(auto)]

mod following;
mod frames;
pub mod laws;
mod leading;
mod numbers;
mod reading;
mod receipts;
mod turns;

pub use following::{Follower, follow};
pub use leading::{Leader, lead};
pub use numbers::turn;
pub use turns::Turn;
