//! Plans: which part each version is in, and what each part has.

use strat_base::{Listing, Version, Versions};

/// A part: the version that it hangs below, whose live entries its array takes over; how many leads and
/// entries its array has; and of its versions the least number of live keys.
#[derive(Clone, Copy)]
pub struct Part {
    pub above: Option<Version>,
    pub leads: u32,
    pub entries: u32,
    pub least: u32,
}

/// Parts in the order of their least versions.
pub type Parts = Listing<Part>;

/// The number of the part of each version, or `IN_NO_PART`, and the parts.
#[derive(Drop)]
pub struct Plan {
    pub part_of: Versions,
    pub parts: Parts,
}

/// What stands for the number of a part at a version that is in none.
pub const IN_NO_PART: u32 = u32::MAX;
