//! What the store means: commands and replies, tables of versions, frames on a stream, runs of commands.
#![tactic(auto)]

mod commands;
mod ended;
mod faults;
pub mod laws;
mod plain_pairs;
mod plain_rows;
mod plain_table;
mod replies;

pub use commands::Command;
pub use ended::Ended;
pub use plain_table::PlainTable;
pub use replies::{Refusal, Reply};
