//! Gates and superblocks: a superblock is the old one or the new one at any moment.
#![tactic(auto)]

mod commit;
mod gate;
mod slots;
mod superblock;

pub use commit::gate_commit;
pub use gate::{gate_ensure_shut, gate_raise, gate_shut, gate_up};
pub use slots::{lay, newest};
pub use superblock::SuperBlock;
