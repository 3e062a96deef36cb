//! What every crate of the store shares: limits, failures, numbers in bytes, entries and pairs.
#![tactic(auto)]

mod changes;
mod descriptors;
mod entries;
mod entry_fields;
mod failures;
mod fields;
pub mod laws;
pub mod limits;
mod lists;
mod numbers;
mod order;
mod pairs;
mod troubles;

pub use changes::{Change, OwnedChange, change_size, get_change, put_change};
pub use descriptors::{ArrayDesc, Arrays, Extent, Extents, LevelDesc, Versions};
pub use entries::{Entry, Val, Version, entry_order, key_ok, value_ok};
pub use entry_fields::{entry_size, get_entry, put_entry};
pub use failures::{Failed, Fault, NoMemory, Trouble};
pub use lists::Listing;
pub use numbers::{get_u8, get_u16, get_u32, get_u64, put_u16, put_u32, put_u64};
pub use order::key_order;
pub use pairs::PairBuf;
