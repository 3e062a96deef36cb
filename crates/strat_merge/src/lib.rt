//! Runs of entries merged into groups, one key after the other, and which entries of a group say
//! something, or tell something beside what their versions' parents see.
#![tactic(auto)]

mod bracket;
mod collect;
mod group;
mod merger;
mod purging;
mod run;
mod runs;
mod thinning;

pub use bracket::{Contest, leader, new_bracket, play_all, replay};
pub use collect::add_entry;
pub use group::GroupBuf;
pub use merger::Merger;
pub use purging::purge;
pub use run::Run;
pub use thinning::thin;
