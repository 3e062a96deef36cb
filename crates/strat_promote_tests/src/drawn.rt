//! Drawn entries at drawn versions, promoted twice. Each key at each version is compared with a walk from parent to
//! parent over all entries, and each budget with the others.

ghost use Rattle.std.specs.Prelude.{◌≡◌, ◌≤◌, ◌<◌};

use crate::levels::{Told, merge_in};
use crate::made::{Reader, make_reader};
use crate::ready::are_short;
use crate::scene::{gone, grown, put};
use crate::sliced::WHOLE;
use crate::strata::is_stratified;
use std::alloc::Global;
use std::process::Abort;
use std::test::Fail;
use strat_array::{Seen, find};
use strat_base::{ArrayDesc, Entry, LevelDesc, NoMemory, PairBuf, Trouble, Val, Version};
use strat_disk::MemDisk;
use strat_level::Levels;
use strat_tree::Tree;

/// The keys, in order.
const KEYS: [&[u8]; 6] = [b"a", b"ab", b"abc", b"b", b"ba", b"c"];

/// The values of both batches.
const VALUES: [&[u8]; 2] = [b"", b"second"];

/// How many versions there are when a batch is promoted.
const VERSIONS: [Version; 2] = [15, 30];

/// A number that is drawn by multiplications.
fn mixed(seed: u32, batch: usize, key: u32, version: Version) -> u32 {
    seed.wrapping_mul(2_654_435_761)
        .wrapping_add((batch % 2) as u32)
        .wrapping_mul(2_246_822_519)
        .wrapping_add(key)
        .wrapping_mul(3_266_489_917)
        .wrapping_add(version)
        .wrapping_mul(668_265_263)
}

/// The parent of a version, which is drawn, or version 0 of that itself.
fn parent(seed: u32, version: Version) -> Version {
    if version == 0 {
        0
    } else {
        (mixed(seed, 0, 9, version) >> 8) % version
    }
}

/// Whether a version has a child by the time that batch 0 is promoted.
fn has_early_child(seed: u32, version: Version) -> bool {
    (1..VERSIONS[0]).any(|child| parent(seed, child) == version)
}

/// What a batch has of a key at a version: in one of three cases nothing, and a mark in one of four others. Batch 1 has
/// nothing at a version that had a child before, since such a version takes no changes.
fn drawn(seed: u32, batch: usize, key: u32, version: Version) -> Option<Entry<'static>> {
    let number = mixed(seed, batch, key, version);
    if version >= VERSIONS[batch % 2] || (number >> 15) % 3 == 0 {
        return None;
    }
    if batch != 0 && has_early_child(seed, version) {
        return None;
    }
    let name = KEYS[key as usize % 6];
    if (number >> 20) % 4 == 0 {
        Some(gone(name, version))
    } else {
        Some(put(name, version, VALUES[batch % 2]))
    }
}

/// Adds what a batch has of a key.
fn push_key(
    entries: &mut Vec<Entry<'static>>,
    seed: u32,
    batch: usize,
    key: u32,
) -> Result<(), NoMemory> {
    for version in 0..VERSIONS[1] {
        if let Some(entry) = drawn(seed, batch, key, version) {
            entries.push(entry)?;
        }
    }
    Ok(())
}

/// What a batch has.
fn drawn_batch(alloc: Global, seed: u32, batch: usize) -> Result<Vec<Entry<'static>>, NoMemory> {
    let mut entries = Vec::new(alloc);
    for key in 0..6 {
        push_key(&mut entries, seed, batch, key)?;
    }
    Ok(entries)
}

/// The parents of the versions from 1 on that there are when a batch is promoted.
fn parents(alloc: Global, seed: u32, batch: usize) -> Result<Vec<Version>, NoMemory> {
    let mut parents = Vec::new(alloc);
    for version in 1..VERSIONS[batch % 2] {
        parents.push(parent(seed, version))?;
    }
    Ok(parents)
}

/// The tree of all versions.
fn whole_tree(alloc: Global, seed: u32) -> Result<Tree, NoMemory> {
    let parents = parents(alloc, seed, 1)?;
    grown(alloc, &parents)
}

/// Promotes a batch.
fn promote_batch(
    alloc: Global,
    seed: u32,
    batch: usize,
    levels: &mut Levels,
    disk: &mut MemDisk,
    budget: u64,
) -> Result<Told, Trouble>
    requires { (1 ≤ budget) × (batch ≤ 1) }
{
    let entries = drawn_batch(alloc, seed, batch)?;
    let parents = parents(alloc, seed, batch)?;
    let first = 100 * batch as u64 + 1;
    merge_in(alloc, &parents, &entries, levels, first, disk, budget)
}

/// The value that a walk from a version finds.
fn walk_value(seed: u32, key: u32, version: Version) -> Option<&'static [u8]> {
    let mut at = version;
    for _ in 0..VERSIONS[1] {
        let newest = drawn(seed, 1, key, at).or(drawn(seed, 0, key, at));
        if let Some(entry) = newest {
            return match entry.val {
                Val::Put(value) => Some(value),
                Val::Gone => None,
            };
        }
        if at == 0 {
            return None;
        }
        at = parent(seed, at);
    }
    None
}

/// Whether what is seen of a key is this value, or that there is none.
fn is_value(seen: Seen, out: &PairBuf, key: &[u8], value: Option<&[u8]>) -> bool {
    match (seen, value) {
        (Seen::Put, Some(value)) => out.len() == 1 && out.key(0) == key && out.value(0) == value,
        (Seen::Gone, None) | (Seen::None, None) => out.is_empty(),
        _ => false,
    }
}

/// Whether an array tells a value of a key at a version, or that there is none.
fn tells(
    disk: &mut MemDisk,
    desc: &ArrayDesc,
    tree: &Tree,
    reader: &mut Reader,
    key: &[u8],
    version: Version,
    value: Option<&[u8]>,
) -> bool {
    if version >= tree.count() || !are_short(&desc.extents) {
        return false;
    }
    let (cache, scratch, out) = (&mut reader.cache, &mut reader.scratch, &mut reader.out);
    out.clear();
    match find(disk, cache, desc, tree, key, version, scratch, out) {
        Ok(seen) => is_value(seen, out, key, value),
        Err(_) => false,
    }
}

/// Whether a level tells of each key at a version what a walk does.
fn tells_all(
    seed: u32,
    disk: &mut MemDisk,
    levels: &Levels,
    level: usize,
    tree: &Tree,
    reader: &mut Reader,
    version: Version,
) -> bool {
    if version >= tree.count() {
        return false;
    }
    for key in 0..6 {
        let value = walk_value(seed, key, version);
        let told = match levels.array_for(tree, level, version) {
            Some(desc) => {
                let name = KEYS[key as usize % 6];
                tells(disk, desc, tree, reader, name, version, value)
            }
            None => value.is_none(),
        };
        if !told {
            return false;
        }
    }
    true
}

/// Whether a level is stratified, and tells what walks do at each version.
fn agrees(
    alloc: Global,
    seed: u32,
    levels: &Levels,
    level: usize,
    disk: &mut MemDisk,
) -> Result<bool, Trouble> {
    let tree = whole_tree(alloc, seed)?;
    let mut reader = make_reader(alloc)?;
    let Some(made) = levels.get(level) else {
        return Ok(false);
    };
    if !is_stratified(disk, made.desc(), &tree, &mut reader, &KEYS) {
        return Ok(false);
    }
    for version in 0..VERSIONS[1] {
        if !tells_all(seed, disk, levels, level, &tree, &mut reader, version) {
            return Ok(false);
        }
    }
    Ok(true)
}

/// Promotes both batches: the second fills the level that the first filled, or a deeper one.
fn promote_both(
    alloc: Global,
    seed: u32,
    levels: &mut Levels,
    disk: &mut MemDisk,
    budget: u64,
) -> Result<Option<Told>, Trouble>
    requires { 1 ≤ budget }
{
    let first = promote_batch(alloc, seed, 0, levels, disk, budget)?;
    let second = promote_batch(alloc, seed, 1, levels, disk, budget)?;
    if first.target <= second.target {
        Ok(Some(second))
    } else {
        Ok(None)
    }
}

/// Whether two arrays have equal descriptors.
fn is_same_array(a: &ArrayDesc, b: &ArrayDesc) -> bool {
    a.id == b.id
        && a.entries == b.entries
        && a.leads == b.leads
        && a.least == b.least
        && a.extents.as_slice() == b.extents.as_slice()
        && a.versions.as_slice() == b.versions.as_slice()
}

/// Whether two levels do.
fn is_same_level(a: &LevelDesc, b: &LevelDesc) -> bool {
    let (left, right) = (a.arrays.as_slice(), b.arrays.as_slice());
    if a.number != b.number || a.horizon != b.horizon || left.len() != right.len() {
        return false;
    }
    for i in 0..left.len() {
        if !is_same_array(&left[i], &right[i]) {
            return false;
        }
    }
    true
}

/// Whether the levels of a number are there, and equal.
fn have_same_level(a: &Levels, b: &Levels, number: usize) -> bool {
    match (a.get(number), b.get(number)) {
        (Some(left), Some(right)) => is_same_level(left.desc(), right.desc()),
        _ => false,
    }
}

/// Whether promotions with a budget come to the levels and the disk that are given.
fn comes_to(
    alloc: Global,
    seed: u32,
    levels: &Levels,
    told: Told,
    disk: &MemDisk,
    budget: u64,
) -> Result<bool, Trouble>
    requires { 1 ≤ budget }
{
    let mut others = Levels::new();
    let mut copy = MemDisk::new(alloc, &[])?;
    let Some(again) = promote_both(alloc, seed, &mut others, &mut copy, budget)? else {
        return Ok(false);
    };
    Ok(
        again.target == told.target
            && again.written == told.written
            && again.consumed == told.consumed
            && again.slices > told.slices
            && have_same_level(levels, &others, told.target)
            && copy.bytes() == disk.bytes(),
    )
}

/// Whether what is drawn is told as walks tell it, and made with other budgets too.
fn is_promoted(alloc: Global, seed: u32) -> Result<bool, Trouble> {
    let mut levels = Levels::new();
    let mut disk = MemDisk::new(alloc, &[])?;
    let Some(told) = promote_both(alloc, seed, &mut levels, &mut disk, WHOLE)? else {
        return Ok(false);
    };
    Ok(
        comes_to(alloc, seed, &levels, told, &disk, 1)?
            && comes_to(alloc, seed, &levels, told, &disk, 7)?
            && agrees(alloc, seed, &levels, told.target, &mut disk)?,
    )
}

#[test]
fn drawn_entries_are_told_as_walks_tell_them(rt: HostRuntime) -> Result<(), Fail> {
    for seed in 0..8 {
        let promoted = is_promoted(rt.alloc(), seed)?;
        assert!(rt; promoted);
    }
    Ok(())
}
