//! What a promotion merges: level 0, or an array.

use crate::lead_run::LeadRun;
use crate::zero_copy::ZeroRun;

/// A run of a promotion, for a merger.
#[derive(Drop)]
pub enum Input {
    /// The entries of level 0.
    Zero(ZeroRun),
    /// The leads of an array, of which one block is in memory.
    Leads(LeadRun),
}
