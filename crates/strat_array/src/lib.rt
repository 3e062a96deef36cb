//! Arrays of entries on a disk: their writer, and the reading of keys and of entries in order.
#![tactic(auto)]

mod blocks;
mod cache;
mod hints;
pub mod laws;
mod lookup;
mod numbers;
mod place;
mod reading;
mod scratch;
mod search;
mod seen;
mod walk;
mod writer;
pub mod writer_laws;

pub use cache::Cache;
pub use lookup::find;
pub use numbers::BlockNumbers;
pub use place::Place;
pub use scratch::Scratch;
pub use search::seek;
pub use seen::Seen;
pub use walk::{entry_at, first_place_from};
pub use writer::ArrayWriter;
