//! A journal of changes in two regions of a disk, which takes all of a batch or none of it.
//!
//! A region is a number of blocks, and a record is a gate and a change. Records stand one after the other
//! from the region's first byte, up to the first closed gate:
//!
//! | Offset | Bytes | Field |
//! |---|---|---|
//! | 0 | 1 | gate: `a7` is open, any other byte is closed |
//! | 1 | 1 | kind: 1 a put, 2 a delete, 3 a clone |
//! | 2 | 4 | version |
//! | 6 | 1 | length of the key, and the key after it; not in a clone |
//! | | 2 | length of the value, and the value after it; in a put alone |
//!
//! The largest record has 1,288 bytes, and a region has room for as many of these as changes and for one gate.
//! A put of `a` = `1` at version 0 as the first record is `a7 01 00000000 01 61 0001 31`, and a closed gate `00`.
#![tactic(auto)]

mod closing;
mod journal;
pub mod laws;
mod read;
mod record_buf;
mod region_reader;
mod text;

pub use closing::close_region;
pub use journal::{Journal, Logged};
