//! The bytes of a store's file, as definitions: superblocks, journal records, blocks of arrays, manifests, with
//! their laws.
#![tactic(auto)]

mod layout;
pub mod reading;
pub mod spellings;

pub use layout::{
    MANIFEST_MIN, NEWEST_FORMAT, OPEN, RECORD_MAX, first_free, region_at, region_blocks,
    region_first, shortest_manifest,
};
