//! Whether a level is stratified, computed from its tags, its descriptors and its blocks.

use crate::made::Reader;
use crate::ready::{are_plain, are_short};
use strat_array::{Place, Seen, entry_at, find};
use strat_base::{ArrayDesc, LevelDesc, Version};
use strat_disk::MemDisk;
use strat_tree::Tree;

/// How many of these keys have an entry in an array that is live at a version.
fn live_keys(
    disk: &mut MemDisk,
    desc: &ArrayDesc,
    tree: &Tree,
    reader: &mut Reader,
    keys: &[&[u8]],
    v: Version,
) -> Option<u32> {
    if v >= tree.count() || !are_short(&desc.extents) {
        return None;
    }
    let (cache, scratch, out) = (&mut reader.cache, &mut reader.scratch, &mut reader.out);
    let mut live: u32 = 0;
    for key in keys {
        out.clear();
        match find(disk, cache, desc, tree, key, v, scratch, out) {
            Ok(Seen::None) => {}
            Ok(_) => live = live.wrapping_add(1),
            Err(_) => return None,
        }
    }
    Some(live)
}

/// The least number of these keys that are live in an array at a version of its tag.
fn least_live(
    disk: &mut MemDisk,
    desc: &ArrayDesc,
    tree: &Tree,
    reader: &mut Reader,
    keys: &[&[u8]],
) -> Option<u32> {
    let mut least = u32::MAX;
    for v in desc.versions.as_slice() {
        let live = live_keys(disk, desc, tree, reader, keys, *v)?;
        least = least.min(live);
    }
    Some(least)
}

/// How many entries the blocks of an array have, and how many of them are at versions of its tag.
fn count_entries(disk: &mut MemDisk, desc: &ArrayDesc, reader: &mut Reader) -> Option<(u32, u32)> {
    if !are_short(&desc.extents) {
        return None;
    }
    reader.scratch.forget();
    let mut place = Place { block: 0, index: 0 };
    let mut entries: u32 = 0;
    let mut leads: u32 = 0;
    for _ in 0..1000 {
        match entry_at(disk, &mut reader.cache, desc, place, &mut reader.scratch) {
            Ok(Some((entry, next))) => {
                entries = entries.wrapping_add(1);
                if desc.versions.as_slice().contains(&entry.version) {
                    leads = leads.wrapping_add(1);
                }
                place = next;
            }
            Ok(None) => return Some((entries, leads)),
            Err(_) => return None,
        }
    }
    None
}

/// Whether a third of an array's entries is live at each version of its tag, half of them are leads, and its descriptor
/// says so many.
fn is_dense(
    disk: &mut MemDisk,
    desc: &ArrayDesc,
    tree: &Tree,
    reader: &mut Reader,
    keys: &[&[u8]],
) -> bool {
    let Some((entries, leads)) = count_entries(disk, desc, reader) else {
        return false;
    };
    let Some(least) = least_live(disk, desc, tree, reader, keys) else {
        return false;
    };
    entries == desc.entries
        && leads == desc.leads
        && least == desc.least
        && entries as u64 <= 3 * least as u64
        && entries as u64 <= 2 * leads as u64
}

/// In how many of these arrays' tags a version is.
fn tags_with(arrays: &[ArrayDesc], v: Version) -> usize {
    let mut tags: usize = 0;
    for i in 0..arrays.len() {
        if arrays[i].versions.as_slice().contains(&v) {
            tags = tags.wrapping_add(1);
        }
    }
    tags
}

/// Whether the tags of a level hold versions below its horizon, each once at most.
fn has_lawful_tags(level: &LevelDesc) -> bool {
    let arrays = level.arrays.as_slice();
    (0..level.horizon).all(|v| tags_with(arrays, v) <= 1) && are_plain(&level.arrays, level.horizon)
}

/// Whether a level is stratified: its tags are lawful, and each of its arrays is dense. That each array has what is live
/// at its versions is seen where its answers are compared with walks.
pub(crate) fn is_stratified(
    disk: &mut MemDisk,
    level: &LevelDesc,
    tree: &Tree,
    reader: &mut Reader,
    keys: &[&[u8]],
) -> bool {
    let arrays = level.arrays.as_slice();
    for i in 0..arrays.len() {
        if !is_dense(disk, &arrays[i], tree, reader, keys) {
            return false;
        }
    }
    has_lawful_tags(level)
}
