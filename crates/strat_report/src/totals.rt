//! Sums over the arrays of levels, in numbers wide enough for any that memory holds.

ghost use Rattle.std.specs.Prelude.{◌≡◌, ◌≤◌, ◌*◌, length, flat_map, sum_by};

use strat_base::{ArrayDesc, LevelDesc};

/// How many leads arrays have together. O(arrays).
pub(crate) fn leads_of(arrays: &[ArrayDesc]) -> u128
    ensures ok { result ≡ sum_by (λ a. a.leads) arrays.now }
{
    let mut leads = 0u128;
    for a in arrays {
        leads += a.leads as u128;
    }
    leads
}

/// How many entries arrays have together. O(arrays).
pub(crate) fn entries_of(arrays: &[ArrayDesc]) -> u128
    ensures ok { result ≡ sum_by (λ a. a.entries) arrays.now }
    ensures room { result ≤ 4294967295 * length arrays.now }
{
    let mut entries = 0u128;
    for a in arrays {
        entries += a.entries as u128;
    }
    entries
}

/// How many entries the arrays of levels have together. O(arrays).
#[tactic(auto, using(crate::proofs::TotalLemmas::sum_next, crate::proofs::TotalLemmas::items_all))]
pub(crate) fn entries_in(levels: &[LevelDesc]) -> u128
    requires fits { length levels.now ≤ 22 }
    ensures ok { result
        ≡ sum_by (λ a. a.entries) (flat_map (λ level. level.arrays) levels.now) }
    ensures room { result ≤ 79228162495817593515539431425 * 22 }
{
    let mut entries = 0u128;
    for level in levels {
        entries += entries_of(level.arrays.as_slice());
    }
    entries
}

/// How many arrays levels have. O(levels).
#[tactic(auto, using(crate::proofs::TotalLemmas::count_next, crate::proofs::TotalLemmas::items_all))]
pub(crate) fn arrays_in(levels: &[LevelDesc]) -> u128
    requires fits { length levels.now ≤ 22 }
    ensures ok { result ≡ length (flat_map (λ level. level.arrays) levels.now) }
{
    let mut arrays = 0u128;
    for level in levels {
        arrays += level.arrays.len() as u128;
    }
    arrays
}
