//! Reading of arrays: every key at every version, places before, at and behind each key, a walk over all entries, and
//! the reads that a cache saves.

ghost use Rattle.std.specs.Prelude.{◌≡◌, ◌<◌, ◌≤◌, length};
ghost use Rattle.strat_array.specs.Within.{AreWithin};

use crate::built::{FULL, Shape, block_of, key_of, many, one, value_of, version_of};
use std::alloc::Global;
use std::process::Abort;
use std::test::Fail;
use strat_array::{Cache, Place, Scratch, Seen, entry_at, find, seek};
use strat_base::limits::BLOCK;
use strat_base::{ArrayDesc, Entry, Fault, NoMemory, PairBuf, Val, Version};
use strat_disk::MemDisk;
use strat_tree::Tree;

/// Whether an answer is what entry number n says.
fn tells(seen: Seen, out: &PairBuf, shape: Shape, n: u32) -> bool {
    match (seen, value_of(shape, n)) {
        (Seen::Put, Some(byte)) => {
            out.len() == 1
                && out.key(0) == key_of(shape, n).as_slice()
                && out.value(0) == [byte; 40].as_slice()
        }
        (Seen::Gone, None) => out.is_empty(),
        _ => false,
    }
}

/// Whether a look-up of a key at a version finds entry number n.
fn finds(
    disk: &mut MemDisk,
    cache: &mut Cache,
    desc: &ArrayDesc,
    tree: &Tree,
    v: Version,
    scratch: &mut Scratch,
    out: &mut PairBuf,
    shape: Shape,
    n: u32,
) -> bool
    requires fits { AreWithin desc.now.extents }
    requires kept { v < length tree.now.parents }
{
    out.clear();
    let key = key_of(shape, n);
    match find(disk, cache, desc, tree, &key, v, scratch, out) {
        Ok(seen) => tells(seen, out, shape, n),
        Err(_) => false,
    }
}

/// The number of the entry of key number k that is live at a version: 5 and 2 see their own, the others version 0's.
fn live_number(k: u32, v: Version) -> u32
    requires { k < 1000 }
{
    3 * k
        + match v {
            5 => 0,
            2 => 1,
            _ => 2,
        }
}

/// Whether every key, or each of so many, is found at each version, with one cache and one scratch.
fn finds_all(
    disk: &mut MemDisk,
    cache: &mut Cache,
    desc: &ArrayDesc,
    tree: &Tree,
    scratch: &mut Scratch,
    out: &mut PairBuf,
    every: u32,
) -> bool
    requires fits { AreWithin desc.now.extents }
    requires kept { 7 ≤ length tree.now.parents }
    requires room { 1 ≤ every }
{
    for k in 0..1000 {
        if k % every != 0 {
            continue;
        }
        for v in 0..7 {
            let n = live_number(k, v);
            if !finds(disk, cache, desc, tree, v, scratch, out, Shape::Many, n) {
                return false;
            }
        }
    }
    true
}

/// Whether an entry is entry number n.
pub(crate) fn is_number(e: &Entry<'_>, shape: Shape, n: u32) -> bool {
    let value = match (e.val, value_of(shape, n)) {
        (Val::Put(value), Some(byte)) => value == [byte; 40].as_slice(),
        (Val::Gone, None) => true,
        _ => false,
    };
    value && e.key == key_of(shape, n).as_slice() && e.version == version_of(shape, n)
}

/// Whether entry number n stands at a place, or the end where there is none; and the place behind it.
fn stands_at(
    disk: &mut MemDisk,
    cache: &mut Cache,
    desc: &ArrayDesc,
    place: Place,
    scratch: &mut Scratch,
    n: u32,
    count: u32,
) -> Option<Place>
    requires { AreWithin desc.now.extents }
{
    match entry_at(disk, cache, desc, place, scratch) {
        Ok(Some((e, next))) => {
            if n < count && is_number(&e, Shape::Many, n) {
                Some(next)
            } else {
                None
            }
        }
        Ok(None) => { if n < count { None } else { Some(place) } }
        Err(_) => None,
    }
}

/// Whether a walk from the first place on gives all entries in order, and then the end.
fn walks(disk: &mut MemDisk, cache: &mut Cache, desc: &ArrayDesc, scratch: &mut Scratch) -> bool
    requires { AreWithin desc.now.extents }
{
    let mut place = Place { block: 0, index: 0 };
    for n in 0..3001 {
        match stands_at(disk, cache, desc, place, scratch, n, 3000) {
            Some(next) => place = next,
            None => return false,
        }
    }
    true
}

/// Whether a search for these bytes gives the place of entry number n, or the end.
fn seeks(
    disk: &mut MemDisk,
    cache: &mut Cache,
    desc: &ArrayDesc,
    key: &[u8],
    scratch: &mut Scratch,
    n: u32,
) -> bool
    requires { AreWithin desc.now.extents }
{
    let Ok(place) = seek(disk, cache, desc, key, scratch) else {
        return false;
    };
    if n >= 3000 {
        return place
            == Place {
                block: 40,
                index: 0,
            };
    }
    place.block == n / FULL
        && u32::from(place.index) == n % FULL
        && stands_at(disk, cache, desc, place, scratch, n, 3000).is_some()
}

/// Whether searches before, at and behind each key give its first entry, or the next key's.
fn seeks_all(disk: &mut MemDisk, cache: &mut Cache, desc: &ArrayDesc, scratch: &mut Scratch) -> bool
    requires { AreWithin desc.now.extents }
{
    for k in 0..1000 {
        let n = 3 * k;
        let [a, b, c, d] = key_of(Shape::Many, n);
        if !(seeks(disk, cache, desc, &[a, b, c, d], scratch, n)
            && seeks(disk, cache, desc, &[a, b, c, d, 0], scratch, n + 3)
            && seeks(
                disk,
                cache,
                desc,
                &[a, b, c, d.wrapping_sub(1), 255],
                scratch,
                n,
            ))
        {
            return false;
        }
    }
    seeks(disk, cache, desc, &[], scratch, 0) && seeks(disk, cache, desc, b"l", scratch, 3000)
}

/// How often a look-up of entry number n reads the disk, and does so again.
fn reads_of(
    disk: &mut MemDisk,
    cache: &mut Cache,
    desc: &ArrayDesc,
    tree: &Tree,
    scratch: &mut Scratch,
    out: &mut PairBuf,
    n: u32,
) -> Option<(u64, u64)>
    requires fits { AreWithin desc.now.extents }
    requires kept { 7 ≤ length tree.now.parents }
{
    let v = version_of(Shape::Many, n);
    let start = disk.reads();
    if v > 6 || !finds(disk, cache, desc, tree, v, scratch, out, Shape::Many, n) {
        return None;
    }
    let cold = disk.reads().checked_sub(start)?;
    if !finds(disk, cache, desc, tree, v, scratch, out, Shape::Many, n) {
        return None;
    }
    let warm = disk.reads().checked_sub(start)?.checked_sub(cold)?;
    Some((cold, warm))
}

/// Whether a look-up of entry number n names a block as damaged.
fn blames(
    disk: &mut MemDisk,
    cache: &mut Cache,
    desc: &ArrayDesc,
    tree: &Tree,
    scratch: &mut Scratch,
    out: &mut PairBuf,
    n: u32,
    block: u32,
) -> bool
    requires fits { AreWithin desc.now.extents }
    requires kept { 7 ≤ length tree.now.parents }
{
    out.clear();
    let key = key_of(Shape::Many, n);
    let answer = find(disk, cache, desc, tree, &key, 0, scratch, out);
    answer == Err(Fault::Damaged { block }) && out.is_empty()
}

#[test]
fn each_key_is_found_at_each_version(rt: HostRuntime) -> Result<(), Fail> {
    let mut s = many(rt.alloc())?;
    let mut cache = Cache::new(rt.alloc(), 256)?;
    let found = finds_all(
        &mut s.disk,
        &mut cache,
        &s.desc,
        &s.tree,
        &mut s.scratch,
        &mut s.out,
        1,
    );
    // Each of the 40 blocks was read once.
    assert!(rt; found && s.disk.reads() == 40 && cache.len() == 40);
    Ok(())
}

#[test]
fn a_cache_of_one_block_gives_the_same(rt: HostRuntime) -> Result<(), Fail> {
    let mut s = many(rt.alloc())?;
    let mut cache = Cache::new(rt.alloc(), 1)?;
    assert!(rt;
        finds_all(
            &mut s.disk,
            &mut cache,
            &s.desc,
            &s.tree,
            &mut s.scratch,
            &mut s.out,
            83
        )
    );
    Ok(())
}

#[test]
fn a_walk_reads_each_block_once(rt: HostRuntime) -> Result<(), Fail> {
    let mut s = many(rt.alloc())?;
    // With a cache of one block the scratch alone saves the reads.
    let mut cache = Cache::new(rt.alloc(), 1)?;
    assert!(rt; walks(&mut s.disk, &mut cache, &s.desc, &mut s.scratch));
    assert!(rt; s.disk.reads() == 40);
    Ok(())
}

#[test]
fn places_are_those_of_keys(rt: HostRuntime) -> Result<(), Fail> {
    let mut s = many(rt.alloc())?;
    let mut cache = Cache::new(rt.alloc(), 256)?;
    assert!(rt; seeks_all(&mut s.disk, &mut cache, &s.desc, &mut s.scratch));
    Ok(())
}

/// Whether look-ups of many entries, each with a new cache, read seven blocks at most, and none again: of fewer than 2^6
/// blocks halving looks at six, and the key may go on in one more. A new cache has no hints.
fn reads_few(
    alloc: Global,
    disk: &mut MemDisk,
    desc: &ArrayDesc,
    tree: &Tree,
    scratch: &mut Scratch,
    out: &mut PairBuf,
) -> Result<bool, NoMemory>
    requires fits { AreWithin desc.now.extents }
    requires kept { 7 ≤ length tree.now.parents }
{
    for i in 0..80 {
        let mut cache = Cache::new(alloc, 256)?;
        let reads = reads_of(disk, &mut cache, desc, tree, scratch, out, 37 * i);
        if !matches!(&reads, Some((1..=7, 0))) {
            return Ok(false);
        }
    }
    Ok(true)
}

#[test]
fn a_look_up_reads_few_blocks_and_none_again(rt: HostRuntime) -> Result<(), Fail> {
    let mut s = many(rt.alloc())?;
    assert!(rt;
        reads_few(
            rt.alloc(),
            &mut s.disk,
            &s.desc,
            &s.tree,
            &mut s.scratch,
            &mut s.out
        )?
    );
    Ok(())
}

/// Whether a look-up of an entry in the midst of each block finds it.
fn finds_in_each(
    disk: &mut MemDisk,
    cache: &mut Cache,
    desc: &ArrayDesc,
    tree: &Tree,
    scratch: &mut Scratch,
    out: &mut PairBuf,
) -> bool
    requires fits { AreWithin desc.now.extents }
    requires kept { 7 ≤ length tree.now.parents }
{
    for index in 0..40 {
        let n = live_number(FULL * index / 3 + 12, 0);
        if !finds(disk, cache, desc, tree, 0, scratch, out, Shape::Many, n) {
            return false;
        }
    }
    true
}

#[test]
fn hints_lead_to_the_block(rt: HostRuntime) -> Result<(), Fail> {
    let mut s = many(rt.alloc())?;
    // The walk reads each of the 40 blocks, and one stays.
    let mut cache = Cache::new(rt.alloc(), 1)?;
    assert!(rt; walks(&mut s.disk, &mut cache, &s.desc, &mut s.scratch));
    assert!(rt;
        finds_in_each(
            &mut s.disk,
            &mut cache,
            &s.desc,
            &s.tree,
            &mut s.scratch,
            &mut s.out
        )
    );
    // Then each look-up reads one.
    assert!(rt; s.disk.reads() == 40 + 40);
    Ok(())
}

/// Whether the key is found at each version, with its entries in three blocks.
fn finds_each(
    disk: &mut MemDisk,
    cache: &mut Cache,
    desc: &ArrayDesc,
    tree: &Tree,
    scratch: &mut Scratch,
    out: &mut PairBuf,
) -> bool
    requires fits { AreWithin desc.now.extents }
    requires kept { 202 ≤ length tree.now.parents }
{
    for v in 0..201 {
        if !finds(
            disk,
            cache,
            desc,
            tree,
            v,
            scratch,
            out,
            Shape::One,
            200 - v,
        ) {
            return false;
        }
    }
    // Version 201 has no entry of its own: it sees version 0's, the last.
    finds(disk, cache, desc, tree, 201, scratch, out, Shape::One, 200)
}

#[test]
fn a_key_goes_on_in_later_blocks(rt: HostRuntime) -> Result<(), Fail> {
    let mut s = one(rt.alloc())?;
    let mut cache = Cache::new(rt.alloc(), 256)?;
    assert!(rt;
        finds_each(
            &mut s.disk,
            &mut cache,
            &s.desc,
            &s.tree,
            &mut s.scratch,
            &mut s.out
        )
    );
    assert!(rt; s.disk.reads() == 3);
    Ok(())
}

/// Sets the number of entries of a block, if it is there, and gives what it was.
fn set_count(disk: &mut MemDisk, block: u32, count: u8) -> u8 {
    let at = block as usize * BLOCK + 1;
    match disk.bytes().get(at).copied() {
        None => 0,
        Some(was) => {
            disk.alter(at as u64, count);
            was
        }
    }
}

/// Whether each block that says to have so many entries is named as damaged, with a new cache each time.
fn blames_each(
    alloc: Global,
    disk: &mut MemDisk,
    desc: &ArrayDesc,
    tree: &Tree,
    scratch: &mut Scratch,
    out: &mut PairBuf,
    count: u8,
) -> Result<bool, NoMemory>
    requires fits { AreWithin desc.now.extents }
    requires kept { 7 ≤ length tree.now.parents }
{
    for index in 0..40 {
        let mut cache = Cache::new(alloc, 256)?;
        let block = block_of(index);
        let was = set_count(disk, block, count);
        let n = FULL * index + 40;
        if !blames(disk, &mut cache, desc, tree, scratch, out, n, block) {
            return Ok(false);
        }
        set_count(disk, block, was);
    }
    Ok(true)
}

/// Whether each block is named as damaged that says to have one entry too many, or none at all.
fn blames_both(
    alloc: Global,
    disk: &mut MemDisk,
    desc: &ArrayDesc,
    tree: &Tree,
    scratch: &mut Scratch,
    out: &mut PairBuf,
) -> Result<bool, NoMemory>
    requires fits { AreWithin desc.now.extents }
    requires kept { 7 ≤ length tree.now.parents }
{
    let many = blames_each(alloc, disk, desc, tree, scratch, out, 76)?;
    let none = blames_each(alloc, disk, desc, tree, scratch, out, 0)?;
    Ok(many && none)
}

#[test]
fn a_damaged_block_is_named(rt: HostRuntime) -> Result<(), Fail> {
    let mut s = many(rt.alloc())?;
    assert!(rt;
        blames_both(
            rt.alloc(),
            &mut s.disk,
            &s.desc,
            &s.tree,
            &mut s.scratch,
            &mut s.out
        )?
    );
    Ok(())
}
