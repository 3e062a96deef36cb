//! Tests of a manifest against its superblock: whether a store may have it.

ghost use Rattle.std.specs.BTreeSet.{contains};
ghost use Rattle.std.specs.List.{flat_map, list_all, sum_by};
ghost use Rattle.std.specs.Ordering.{nat_cmp};
ghost use Rattle.std.specs.Prelude.{◌≡◌, ℕ, List, map, ◌≤◌, ◌+◌, ◌-◌, ◌*◌, ◌^◌, ◌&&◌, ◌++◌, [], nat_le, nat_lt, min, false, MatchBool, IfOk, IfSome, IfNone, IsTrue};
ghost use Rattle.strat_extent.specs.Change.{CanMark};
ghost use Rattle.def_bytes.specs.Arrays.{blocks_of};
ghost use Rattle.def_bytes.specs.Layout as places;
ghost use Rattle.def_bytes.specs.Manifest.{Manifest, is_lawful_extent};
ghost use Rattle.def_bytes.specs.SuperBlock.{Super};
ghost use Rattle.def_recovery.specs.Opening.{has_own_blocks, is_filled};
ghost use Rattle.def_publish.specs.Contents.{Contents, named_blocks};
ghost use Rattle.def_publish.specs.Occupied.{IsSpaceOf, UsesMore, arrays_in, extents_of};
ghost use Rattle.def_state.specs.Level.{is_distinct};
ghost use Rattle.strat_memory.specs.Belonging.{UsesJust, are_new};

use def_bytes::first_free;
use std::alloc::Global;
use std::collections::BTreeSet;
use strat_base::limits::{ENTRIES_MAX, VERSIONS_MAX};
use strat_base::{ArrayDesc, Extent, Extents, LevelDesc, NoMemory, Version};
use strat_extent::Space;

/// The leads of arrays, or 2^64 - 1 where there are more.
fn leads_of_arrays(arrays: &[ArrayDesc]) -> u64
    ensures ok { result ≡ min (sum_by (λ a. a.leads) arrays.now) (2 ^ 64 - 1) }
{
    let mut leads = 0u64;
    for array in arrays {
        leads = leads.saturating_add(array.leads as u64);
    }
    leads
}

/// The leads of the arrays of levels, or 2^64 - 1 where there are more.
fn leads_of_levels(levels: &[LevelDesc]) -> u64
    ensures ok { result
        ≡ min (sum_by (λ level. sum_by (λ a. a.leads) level.arrays) levels.now) (2 ^ 64 - 1) }
{
    let mut leads = 0u64;
    for level in levels {
        leads = leads.saturating_add(leads_of_arrays(level.arrays.as_slice()));
    }
    leads
}

/// Whether levels have at most as many leads as there were updates, as their descriptors say. O(arrays).
pub(crate) fn has_few_leads(levels: &[LevelDesc], updates: u32) -> bool
    ensures ok { result ≡ nat_le (sum_by (λ a. a.leads) (arrays_in levels.now)) updates }
{
    leads_of_levels(levels) <= updates as u64
}

/// How many blocks extents have together, or 2^64 - 1 where there are more.
fn count_blocks(extents: &[Extent]) -> u64
    ensures ok { result ≡ min (sum_by (λ x. x.len) extents.now) (2 ^ 64 - 1) }
{
    let mut blocks = 0u64;
    for extent in extents {
        blocks = blocks.saturating_add(extent.len as u64);
    }
    blocks
}

/// Whether an array has no more blocks than entries. O(extents).
fn has_few_blocks(array: &ArrayDesc) -> bool
    ensures ok { result ≡ nat_le (sum_by (λ x. x.len) array.now.extents) array.now.entries }
{
    count_blocks(array.extents.as_slice()) <= array.entries as u64
}

/// Whether half of an array's entries are leads at least, and it has no more blocks than entries. O(extents).
fn is_filled(array: &ArrayDesc) -> bool
    ensures ok { result ≡ is_filled array.now }
{
    array.entries as u64 <= 2 * array.leads as u64 && has_few_blocks(array)
}

/// Whether each of these arrays is filled.
fn are_filled(arrays: &[ArrayDesc]) -> bool
    ensures ok { result ≡ list_all is_filled arrays.now }
{
    for array in arrays {
        if !is_filled(array) {
            return false;
        }
    }
    true
}

/// Whether each array of levels is filled. O(extents of all arrays).
pub(crate) fn all_filled(levels: &[LevelDesc]) -> bool
    ensures ok { result ≡ list_all is_filled (arrays_in levels.now) }
{
    for level in levels {
        if !are_filled(level.arrays.as_slice()) {
            return false;
        }
    }
    true
}

/// Whether there are no more checkpoints, arrays and written entries than so many changes make. O(1).
pub(crate) fn has_few_publications(
    generation: u64,
    changes: u32,
    next_array: u64,
    written: u64,
    compacted: u64,
) -> bool
    ensures ok { result ≡ (nat_le generation (changes + 1)
        && nat_le next_array (16384 * changes + 1) && nat_le written (33554432 * changes)
        && nat_le compacted (33554432 * changes)) }
{
    let changes = changes as u64;
    generation <= changes + 1
        && next_array <= VERSIONS_MAX as u64 * changes + 1
        && written <= ENTRIES_MAX as u64 * changes
        && compacted <= ENTRIES_MAX as u64 * changes
}

/// Whether each version of a tag is below a horizon.
fn are_below(versions: &[Version], horizon: Version) -> bool
    ensures ok { result ≡ list_all (λ v. nat_lt v horizon) versions.now }
{
    for version in versions {
        if *version >= horizon {
            return false;
        }
    }
    true
}

/// Whether each version in a tag of a level is below its horizon. O(lengths of all tags).
pub(crate) fn has_low_tags(level: &LevelDesc) -> bool
    ensures ok { result ≡ list_all (λ v. nat_lt v level.now.horizon)
        (flat_map (λ a. a.versions) level.now.arrays) }
{
    let arrays = level.arrays.as_slice();
    for array in arrays {
        if !are_below(array.versions.as_slice(), level.horizon) {
            return false;
        }
    }
    true
}

/// Makes the blocks of arrays used, as long as none of them is used or stands twice, and says whether that is so.
/// O(log holes) an extent. The only error is want of memory.
pub fn mark_arrays(space: &mut Space, arrays: &[ArrayDesc]) -> Result<bool, NoMemory>
    ensures ok { IfOk result (λ marked. MatchBool marked
        (UsesMore space.old (extents_of arrays.now) space.new)
        (¬ CanMark space.old (extents_of arrays.now))) }
{
    for array in arrays {
        if !space.mark(&array.extents)? {
            return Ok(false);
        }
    }
    Ok(true)
}

/// Marks the blocks of every array of every level; `false` if one is used already or stands twice.
fn mark_levels(space: &mut Space, levels: &[LevelDesc]) -> Result<bool, NoMemory>
    ensures ok { IfOk result (λ marked. MatchBool marked
        (UsesMore space.old (extents_of (arrays_in levels.now)) space.new)
        (¬ CanMark space.old (extents_of (arrays_in levels.now)))) }
{
    for level in levels {
        if !mark_arrays(space, level.arrays.as_slice())? {
            return Ok(false);
        }
    }
    Ok(true)
}

/// Marks the blocks of a manifest's chain and of every array of every level; `false` if one is used already or stands
/// twice.
fn mark_all(space: &mut Space, chain: &Extents, levels: &[LevelDesc]) -> Result<bool, NoMemory>
    ensures ok { IfOk result (λ marked. MatchBool marked
        (UsesMore space.old (chain.now ++ extents_of (arrays_in levels.now)) space.new)
        (¬ CanMark space.old (chain.now ++ extents_of (arrays_in levels.now)))) }
{
    if !space.mark(chain)? {
        return Ok(false);
    }
    let marked = mark_levels(space, levels)?;
    Ok(marked)
}

/// The space in which just the blocks of a manifest's chain and of its arrays are used, or `None` where one of them
/// stands twice or lies before the end of the journal. O(log holes) an extent, and memory for as many holes as there
/// are used blocks. The only error is want of memory.
pub fn space_if_blocks_distinct(
    alloc: Global,
    mem: u32,
    chain: &Extents,
    levels: &[LevelDesc],
) -> Result<Option<Space>, NoMemory>
    requires fits { mem ≤ 4096 }
    ensures ok { IfOk result (λ own. IfSome own (λ space. (x : Contents) → x.sb.mem ≡ mem
        → x.chained.blocks ≡ blocks_of chain.now → x.chained.manifest.levels ≡ levels.now
        → IsSpaceOf space x []
        × UsesJust space (places.first_free x.sb.mem) (named_blocks x))) }
    ensures none { IfOk result (λ own. IfNone own ((sb : Super) (m : Manifest) → sb.mem ≡ mem
        → m.levels ≡ levels.now
        → IsTrue (list_all (λ b. nat_lt b 4294967295) (blocks_of chain.now))
        → IsTrue (list_all is_lawful_extent (extents_of (arrays_in levels.now)))
        → has_own_blocks sb (blocks_of chain.now) m ≡ false)) }
{
    let mut space = Space::new(alloc, first_free(mem));
    if !mark_all(&mut space, chain, levels)? {
        return Ok(None);
    }
    Ok(Some(space))
}

/// Adds the numbers of arrays to a set, as long as none of them is in it, and says whether that is so.
fn add_ids(seen: &mut BTreeSet<u64>, arrays: &[ArrayDesc]) -> Result<bool, NoMemory>
    ensures ok { IfOk result (λ apart. (rest : List ℕ) → MatchBool apart
        (are_new (contains nat_cmp seen.new) rest
        ≡ are_new (contains nat_cmp seen.old) (map (λ a. a.id) arrays.now ++ rest))
        (are_new (contains nat_cmp seen.old) (map (λ a. a.id) arrays.now ++ rest) ≡ false)) }
{
    for array in arrays {
        let Ok(added) = seen.insert(array.id) else {
            return Err(NoMemory);
        };
        if !added {
            return Ok(false);
        }
    }
    Ok(true)
}

/// Adds the number of every array of every level to a set; `false` if one is in it already.
fn add_all_ids(seen: &mut BTreeSet<u64>, levels: &[LevelDesc]) -> Result<bool, NoMemory>
    ensures ok { IfOk result (λ apart. (rest : List ℕ) → MatchBool apart
        (are_new (contains nat_cmp seen.new) rest
        ≡ are_new (contains nat_cmp seen.old) (map (λ a. a.id) (arrays_in levels.now) ++ rest))
        (are_new (contains nat_cmp seen.old) (map (λ a. a.id) (arrays_in levels.now) ++ rest)
        ≡ false)) }
{
    for level in levels {
        if !add_ids(seen, level.arrays.as_slice())? {
            return Ok(false);
        }
    }
    Ok(true)
}

/// Whether no two arrays of levels have one number. O(arrays log arrays), and memory for each of them while it runs.
/// The only error is want of memory.
pub(crate) fn ids_are_distinct(alloc: Global, levels: &[LevelDesc]) -> Result<bool, NoMemory>
    ensures ok { IfOk result (λ own. own
        ≡ is_distinct (map (λ a. a.id) (arrays_in levels.now))) }
{
    let mut seen = BTreeSet::new(alloc);
    let own = add_all_ids(&mut seen, levels)?;
    Ok(own)
}
