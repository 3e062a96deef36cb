//! Blocks of arrays: entries in order in 4,096 bytes, written in one pass and read in one.
//!
//! | Offset | Field |
//! |---|---|
//! | 0 | how many entries there are, n, in two bytes: at least one |
//! | 2 | n offsets of two bytes each: where each entry begins |
//! | 2 + 2n | the entries, one after the other |
//! | behind them | zeros |
//!
//! The block that says that `a` is `1` at version 0 begins `0001 0004 01 61 00000000 01 0001 31`.
#![tactic(auto)]

mod check;
mod view;
mod writer;

pub use check::is_block;
pub use view::{Block, BlockView};
pub use writer::BlockWriter;
