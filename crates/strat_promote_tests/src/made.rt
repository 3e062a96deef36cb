//! Levels that were made, compared with what they should be.

use crate::ready::are_short;
use crate::sliced::Made;
use std::alloc::Global;
use strat_array::{Cache, Place, Scratch, entry_at};
use strat_base::{ArrayDesc, Entry, LevelDesc, NoMemory, PairBuf, Version};
use strat_disk::{Disk, MemDisk};
use strat_extent::Space;

/// What reads arrays.
#[derive(Drop)]
pub(crate) struct Reader {
    pub(crate) cache: Cache,
    pub(crate) scratch: Scratch,
    pub(crate) out: PairBuf,
}

/// What reads arrays, with a cache of one block.
pub(crate) fn make_reader(alloc: Global) -> Result<Reader, NoMemory> {
    Ok(Reader {
        cache: Cache::new(alloc, 1)?,
        scratch: Scratch::new(alloc)?,
        out: PairBuf::new(alloc)?,
    })
}

/// A disk, and its blocks from 7 on.
#[derive(Drop)]
pub(crate) struct Bench {
    pub(crate) disk: MemDisk,
    pub(crate) space: Space,
}

/// An empty disk.
pub(crate) fn make_bench(alloc: Global) -> Result<Bench, NoMemory> {
    Ok(Bench {
        disk: MemDisk::new(alloc, &[])?,
        space: Space::new(alloc, 7),
    })
}

/// What an array should be: its numbers, its blocks, its versions and its entries.
#[derive(Clone, Copy)]
pub(crate) struct Wanted<'a> {
    pub(crate) id: u64,
    pub(crate) leads: u32,
    pub(crate) least: u32,
    pub(crate) start: u32,
    pub(crate) blocks: u32,
    pub(crate) versions: &'a [Version],
    pub(crate) entries: &'a [Entry<'a>],
}

/// An array in one block.
pub(crate) fn in_block<'a>(
    id: u64,
    leads: u32,
    least: u32,
    block: u32,
    versions: &'a [Version],
    entries: &'a [Entry<'a>],
) -> Wanted<'a> {
    Wanted {
        id,
        leads,
        least,
        start: block,
        blocks: 1,
        versions,
        entries,
    }
}

/// Whether an entry stands at a place, and the place behind it.
fn stands_at<D: Disk>(
    disk: &mut D,
    desc: &ArrayDesc,
    reader: &mut Reader,
    place: Place,
    wanted: Option<&Entry<'_>>,
) -> Option<Place> {
    if !are_short(&desc.extents) {
        return None;
    }
    let Ok(found) = entry_at(disk, &mut reader.cache, desc, place, &mut reader.scratch) else {
        return None;
    };
    match (found, wanted) {
        (Some((entry, next)), Some(wanted)) if entry == *wanted => Some(next),
        (None, None) => Some(place),
        _ => None,
    }
}

/// Whether the blocks of an array have these entries, and no other.
fn has_entries<D: Disk>(
    disk: &mut D,
    desc: &ArrayDesc,
    reader: &mut Reader,
    entries: &[Entry<'_>],
) -> bool {
    let mut place = Place { block: 0, index: 0 };
    for i in 0..entries.len() {
        match stands_at(disk, desc, reader, place, Some(&entries[i])) {
            Some(next) => place = next,
            None => return false,
        }
    }
    stands_at(disk, desc, reader, place, None).is_some()
}

/// Whether a descriptor has these numbers, this one extent and these versions.
fn is_described(desc: &ArrayDesc, wanted: &Wanted<'_>) -> bool {
    let numbers = desc.id == wanted.id
        && desc.entries as usize == wanted.entries.len()
        && desc.leads == wanted.leads
        && desc.least == wanted.least;
    let blocks = match desc.extents.as_slice() {
        [x] => x.start == wanted.start && x.len == wanted.blocks,
        _ => false,
    };
    numbers && blocks && desc.versions.as_slice() == wanted.versions
}

/// Whether an array is as it should be, and its entries stand on a disk.
fn is_array<D: Disk>(
    disk: &mut D,
    desc: &ArrayDesc,
    reader: &mut Reader,
    wanted: &Wanted<'_>,
) -> bool {
    reader.scratch.forget();
    is_described(desc, wanted) && has_entries(disk, desc, reader, wanted.entries)
}

/// Whether a level has this array alone, and its entries stand on a disk.
pub(crate) fn has_array<D: Disk>(
    disk: &mut D,
    level: &LevelDesc,
    reader: &mut Reader,
    wanted: &Wanted<'_>,
) -> bool {
    match level.arrays.as_slice() {
        [desc] => is_array(disk, desc, reader, wanted),
        _ => false,
    }
}

/// Whether the arrays of a level are these, and their entries stand on a disk.
fn has_arrays<D: Disk>(
    disk: &mut D,
    level: &LevelDesc,
    reader: &mut Reader,
    wanted: &[Wanted<'_>],
) -> bool {
    let arrays = level.arrays.as_slice();
    if arrays.len() != wanted.len() {
        return false;
    }
    for i in 0..arrays.len() {
        if !is_array(disk, &arrays[i], reader, &wanted[i]) {
            return false;
        }
    }
    true
}

/// Whether a promotion made a level of this number and horizon with these arrays.
pub(crate) fn is_made<D: Disk>(
    disk: &mut D,
    made: &Made,
    reader: &mut Reader,
    target: usize,
    horizon: Version,
    wanted: &[Wanted<'_>],
) -> bool {
    match &made.level {
        Some(level) => {
            made.target == target
                && level.number as usize == target
                && level.horizon == horizon
                && has_arrays(disk, level, reader, wanted)
        }
        None => false,
    }
}
