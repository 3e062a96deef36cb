//! The manifest: what a store keeps of itself beside its journal, its spelling in bytes, and its place on the disk.
//!
//! | Bytes | Field |
//! |---|---|
//! | 4 | changes |
//! | 4 | updates |
//! | 8 | entries written |
//! | 8, in format 2 alone | entries compacted |
//! | 8 | the number of the next array |
//! | 4 | versions |
//! | 4 each | the parent of each version from 1 on |
//! | 1 each, in format 2 alone | the mark of each version from 0 on, 1 if it was dropped |
//! | 1 | levels |
//! | | the levels |
//!
//! The manifest of an empty store is `00000000 00000000 0000000000000000 0000000000000000 0000000000000001 00000001 00 00`
//! in format 2, and `00000000 00000000 0000000000000000 0000000000000001 00000001 00` in format 1.
#![tactic(auto)]

mod chain;
mod chain_write;
mod lawful;
mod manifest;
mod marks;
mod parser;
mod printer;
mod reader;
mod size;
mod stored;

pub use manifest::{LevelList, Manifest, ManifestFault, Parents};
pub use marks::living_marks;
pub use parser::parse;
pub use printer::print;
pub use size::is_writable;
pub use stored::{read, write};
