//! What the passes over arrays rest on, whatever a disk holds. Each manifest that recovery finds has it. Here it is tested in
//! memory, so that it need not be concluded from bytes.

ghost use Rattle.std.specs.List.{flat_map, list_all, sum_by};
ghost use Rattle.std.specs.Prelude.{◌≡◌, ◌-◌, ◌^◌, ◌&&◌, nat_lt, nat_le, min, length};
ghost use Rattle.strat_check.specs.Fit.{ends_within, is_fit_array, is_fit_level, blocks_of_levels, are_fit};

use strat_base::{ArrayDesc, Extent, LevelDesc, Version};

/// Most blocks of all arrays together: half of all entries are leads at least, no array has more blocks than entries, and
/// there are at most 2^24 leads.
const BLOCKS_MOST: u64 = 33_554_432;
/// Most arrays of a level, which has 16,384 versions at most.
const ARRAYS_MOST: usize = 16_384;
/// The deepest level.
const LEVEL_MOST: u8 = 22;

/// Whether an extent ends at a block that has a number. O(1).
fn ends_within(x: &Extent) -> bool
    ensures ok { result ≡ ends_within x.now }
{
    u64::from(x.start) + u64::from(x.len) <= 4_294_967_295
}

/// Whether each of these extents does. O(extents).
fn all_end_within(extents: &[Extent]) -> bool
    ensures ok { result ≡ list_all ends_within extents.now }
{
    for x in extents {
        if !ends_within(x) {
            return false;
        }
    }
    true
}

/// Whether each version of a tag is below a horizon. O(tag).
fn are_low(tag: &[Version], horizon: u32) -> bool
    ensures ok { result ≡ list_all (λ v. nat_lt v horizon) tag.now }
{
    for v in tag {
        if *v >= horizon {
            return false;
        }
    }
    true
}

/// Whether an array has extents that end within, and versions below a horizon. O(extents + tag).
fn is_fit_array(array: &ArrayDesc, horizon: u32) -> bool
    ensures ok { result ≡ is_fit_array horizon array.now }
{
    all_end_within(array.extents.as_slice()) && are_low(array.versions.as_slice(), horizon)
}

/// Whether each of these arrays does. O(extents + tags).
fn are_fit_arrays(arrays: &[ArrayDesc], horizon: u32) -> bool
    ensures ok { result ≡ list_all (is_fit_array horizon) arrays.now }
{
    for array in arrays {
        if !is_fit_array(array, horizon) {
            return false;
        }
    }
    true
}

/// Whether a level has a number, a horizon within the versions, few arrays, and these are fit. O(extents + tags).
fn is_fit_level(level: &LevelDesc, versions: u32) -> bool
    ensures ok { result ≡ is_fit_level versions level.now }
{
    level.number <= LEVEL_MOST
        && level.horizon <= versions
        && level.arrays.len() <= ARRAYS_MOST
        && are_fit_arrays(level.arrays.as_slice(), level.horizon)
}

/// Whether each of these levels does. O(extents + tags).
fn are_fit_levels(levels: &[LevelDesc], versions: u32) -> bool
    ensures ok { result ≡ list_all (is_fit_level versions) levels.now }
{
    for level in levels {
        if !is_fit_level(level, versions) {
            return false;
        }
    }
    true
}

/// How many blocks extents have, or 2^64 - 1 where they are more. O(extents).
fn count_extents(extents: &[Extent]) -> u64
    ensures ok { result ≡ min (sum_by (λ x. x.len) extents.now) (2 ^ 64 - 1) }
{
    let mut blocks = 0u64;
    for x in extents {
        blocks = blocks.saturating_add(u64::from(x.len));
    }
    blocks
}

/// How many blocks arrays have, or 2^64 - 1 where they are more. O(extents).
fn count_arrays(arrays: &[ArrayDesc]) -> u64
    ensures ok { result
        ≡ min (sum_by (λ a. sum_by (λ x. x.len) a.extents) arrays.now) (2 ^ 64 - 1) }
{
    let mut blocks = 0u64;
    for array in arrays {
        blocks = blocks.saturating_add(count_extents(array.extents.as_slice()));
    }
    blocks
}

/// How many blocks the arrays of levels have, or 2^64 - 1 where they are more. O(extents).
fn count_levels(levels: &[LevelDesc]) -> u64
    ensures ok { result ≡ min (blocks_of_levels levels.now) (2 ^ 64 - 1) }
{
    let mut blocks = 0u64;
    for level in levels {
        blocks = blocks.saturating_add(count_arrays(level.arrays.as_slice()));
    }
    blocks
}

/// Whether the passes may go over the arrays of these levels, in a store of so many versions. O(extents + tags).
pub fn are_fit(levels: &[LevelDesc], versions: u32) -> bool
    ensures ok { result ≡ are_fit versions levels.now }
{
    are_fit_levels(levels, versions) && count_levels(levels) <= BLOCKS_MOST
}
