//! Manifests in chains of blocks: written and read back, with wrong links, and with writes that fail.

ghost use Rattle.std.specs.Prelude.{◌≡◌, ◌≤◌, ◌<◌, ◌+◌, ◌-◌, ◌*◌, length, IfOk, IsTrue};
ghost use Rattle.def_bytes.specs.Manifest.{is_lawful_manifest, manifest_bytes};
ghost use Rattle.strat_manifest.specs.ManifestView.{manifest_of};

use std::alloc::Global;
use std::process::Abort;
use std::test::Fail;
use strat_base::{Extent, Extents, Trouble};
use strat_disk::{Disk, FuseDisk, MemDisk};
use strat_extent::Space;
use strat_manifest::{Manifest, parse, read, write};

/// Zeros for the numbers in front of a manifest, and for what was compacted.
const ZEROS: &[u8; 16] = b"\0\0\0\0\0\0\0\0\0\0\0\0\0\0\0\0";

/// 9 as the number of the next array.
const NEXT: &[u8; 8] = b"\0\0\0\0\0\0\0\x09";

/// The bytes of a level behind its number: horizon 1, and one array of one entry in block 5, for version 0.
const LEVEL: &[u8; 48] =
    b"\0\0\0\x01\0\0\0\x01\0\0\0\0\0\0\0\x01\0\0\0\x01\0\0\0\x01\0\0\0\x01\0\0\0\x01\0\0\0\x05\0\0\0\x01\0\0\0\x01\0\0\0\0";

/// Adds what format 2 has alone: so many zeros.
fn add_only(bytes: &mut Vec<u8>, format: u16, zeros: u16) -> Result<(), Trouble> {
    if format != 2 {
        return Ok(());
    }
    for _ in 0..zeros {
        bytes.push(0)?;
    }
    Ok(())
}

/// The spelling of a manifest with so many versions beside the first, each made of it, and so many levels. In format 2 it
/// has 38 bytes, five for each of these versions and 49 for each level; in format 1 nine fewer, and one fewer for each
/// version.
fn spelled(alloc: Global, format: u16, versions: u16, levels: u8) -> Result<Vec<u8>, Trouble> {
    let mut bytes = Vec::new(alloc);
    bytes.extend_from_slice(ZEROS)?;
    add_only(&mut bytes, format, 8)?;
    bytes.extend_from_slice(NEXT)?;
    bytes.extend_from_slice(&(u32::from(versions) + 1).to_be_bytes())?;
    for _ in 0..versions {
        bytes.extend_from_slice(&[0; 4])?;
    }
    add_only(&mut bytes, format, versions.saturating_add(1))?;
    bytes.push(levels)?;
    for i in 0..levels {
        bytes.push(i.saturating_add(1))?;
        bytes.extend_from_slice(LEVEL)?;
    }
    Ok(bytes)
}

/// The manifest of a spelling.
fn parsed(alloc: Global, format: u16, bytes: &[u8]) -> Result<Manifest, Trouble>
    requires { length bytes.now ≤ 100000 }
    ensures kept { IfOk result (λ m. IsTrue (is_lawful_manifest format (manifest_of m))) }
    ensures fits { IfOk result (λ m. length (manifest_bytes format (manifest_of m)) ≤ 100000) }
{
    match parse(alloc, bytes, format) {
        Ok(manifest) => Ok(manifest),
        Err(_) => Err(Trouble::NoMemory),
    }
}

/// A space from block 7 on, of which the blocks 8 and 10 are used.
fn space_with_holes(alloc: Global) -> Result<Space, Trouble>
    ensures fits { IfOk result (λ s. s.first ≡ 7) }
{
    let mut space = Space::new(alloc, 7);
    let mut used = Extents::new(alloc);
    for start in [8, 10] {
        if used.push(Extent { start, len: 1 }).is_err() {
            return Err(Trouble::NoMemory);
        }
    }
    if !space.mark(&used)? {
        return Err(Trouble::NoMemory);
    }
    Ok(space)
}

/// Writes a manifest where there is space for any.
fn stored<D: Disk>(
    alloc: Global,
    disk: &mut D,
    space: &mut Space,
    format: u16,
    manifest: &Manifest,
) -> Result<(u32, u32, Extents), Trouble>
    requires kept { IsTrue (is_lawful_manifest format (manifest_of manifest.now)) }
    requires fits { (length (manifest_bytes format (manifest_of manifest.now)) ≤ 100000)
        × (1 ≤ space.old.first) }
    ensures same { space.new.first ≡ space.old.first }
{
    if space.free() < 1048576 {
        return Err(Trouble::NoMemory);
    }
    write(alloc, disk, space, manifest, format)
}

/// Whether these are the first blocks that such a space has free, each an extent.
fn are_first(blocks: &Extents, count: usize) -> bool {
    let first = [7, 9, 11];
    let blocks = blocks.as_slice();
    if blocks.len() != count || count > 3 {
        return false;
    }
    for i in 0..count {
        if blocks[i].start != first[i] || blocks[i].len != 1 {
            return false;
        }
    }
    true
}

/// Whether a manifest of so many bytes, versions beside the first and levels is read from block 7 on, in the first
/// blocks.
fn is_there<D: Disk>(
    alloc: Global,
    disk: &mut D,
    format: u16,
    size: u32,
    versions: u16,
    levels: u8,
    count: usize,
) -> Result<bool, Trouble> {
    let (manifest, blocks) = read(alloc, disk, 7, size, format)?;
    let right = manifest.next_array == 9
        && manifest.parents.len() == usize::from(versions)
        && manifest.levels.len() == usize::from(levels);
    Ok(right && are_first(&blocks, count))
}

/// A disk and a space with the manifest of such a spelling in so many blocks.
fn with_manifest(
    alloc: Global,
    format: u16,
    bytes: &[u8],
    count: usize,
) -> Result<(MemDisk, Space), Trouble>
    requires { length bytes.now ≤ 100000 }
    ensures fits { IfOk result (λ r. r.1.first ≡ 7) }
{
    let mut disk = MemDisk::new(alloc, &[])?;
    let mut space = space_with_holes(alloc)?;
    let manifest = parsed(alloc, format, bytes)?;
    let (first, size, blocks) = stored(alloc, &mut disk, &mut space, format, &manifest)?;
    if first != 7 || size as usize != bytes.len() || !are_first(&blocks, count) {
        return Err(Trouble::Damaged { block: first });
    }
    Ok((disk, space))
}

/// The spelling of a manifest, where it isn't too long.
fn short_spelling(alloc: Global, format: u16, versions: u16, levels: u8) -> Result<Vec<u8>, Trouble>
    ensures fits { IfOk result (λ b. length b.items ≤ 100000) }
{
    let bytes = spelled(alloc, format, versions, levels)?;
    if bytes.len() > 100000 {
        return Err(Trouble::NoMemory);
    }
    Ok(bytes)
}

/// Whether a manifest of so many bytes is written into so many blocks and read back.
fn comes_back(
    alloc: Global,
    format: u16,
    versions: u16,
    levels: u8,
    size: usize,
    count: usize,
) -> Result<bool, Trouble> {
    let bytes = short_spelling(alloc, format, versions, levels)?;
    let (mut disk, _) = with_manifest(alloc, format, &bytes, count)?;
    let there = is_there(
        alloc,
        &mut disk,
        format,
        bytes.len() as u32,
        versions,
        levels,
        count,
    )?;
    Ok(there && bytes.len() == size)
}

#[test]
fn manifests_come_back_from_their_blocks(rt: HostRuntime) -> Result<(), Fail> {
    let rows = [
        (1, 0, 0, 29, 1),
        (1, 979, 3, 4092, 1),
        (1, 1016, 0, 4093, 2),
        (2, 0, 0, 38, 1),
        (2, 801, 1, 4092, 1),
        (2, 811, 0, 4093, 2),
        (2, 2100, 0, 10538, 3),
    ];
    for (format, versions, levels, length, count) in rows {
        assert!(rt; comes_back(rt.alloc(), format, versions, levels, length, count) == Ok(true));
    }
    Ok(())
}

/// The block that is damaged where a manifest of a format is read in another.
fn other_blames(alloc: Global, written: u16, read_in: u16, size: u32) -> Result<u32, Trouble> {
    let bytes = short_spelling(alloc, written, 2100, 0)?;
    let (mut disk, _) = with_manifest(alloc, written, &bytes, 3)?;
    match read(alloc, &mut disk, 7, size, read_in) {
        Ok(_) => Ok(0),
        Err(Trouble::Damaged { block }) => Ok(block),
        Err(failed) => Err(failed),
    }
}

#[test]
fn a_manifest_of_another_format_is_damage(rt: HostRuntime) -> Result<(), Fail> {
    let rows = [
        (1, 2, 8429),
        (1, 2, 10538),
        (2, 1, 10538),
        (2, 1, 8429),
        (2, 0, 10538),
        (2, 3, 10538),
    ];
    for (written, read_in, size) in rows {
        assert!(rt; other_blames(rt.alloc(), written, read_in, size) == Ok(7));
    }
    Ok(())
}

/// The block that is damaged where a byte of a chain of three blocks is another, and how often the disk was read.
fn blamed(alloc: Global, at: u64, bytes: &[u8], claimed: u32) -> Result<(u32, u64), Trouble>
    requires { at + length bytes.now ≤ 100000 }
{
    let spelling = short_spelling(alloc, 2, 2100, 0)?;
    let (mut disk, _) = with_manifest(alloc, 2, &spelling, 3)?;
    if disk.write_at(at, bytes).is_err() {
        return Err(Trouble::Device);
    }
    let before = disk.reads();
    match read(alloc, &mut disk, 7, claimed, 2) {
        Ok(_) => Ok((0, 0)),
        Err(Trouble::Damaged { block }) => Ok((block, disk.reads().saturating_sub(before))),
        Err(failed) => Err(failed),
    }
}

#[test]
fn wrong_links_are_blamed(rt: HostRuntime) -> Result<(), Fail> {
    let rows = [
        (7, 0, 7, 1),
        (7, 7, 7, 1),
        (7, 0xffff_ffff, 7, 1),
        (9, 0, 9, 2),
        (9, 9, 9, 2),
        (9, 7, 9, 2),
        (11, 12, 11, 3),
        (11, 7, 11, 3),
    ];
    for (block, link, wanted, reads) in rows {
        let told = blamed(rt.alloc(), 4096 * block, &u32::to_be_bytes(link), 10538);
        assert!(rt; told == Ok((wanted, reads)));
    }
    Ok(())
}

#[test]
fn refused_bytes_are_blamed_on_the_first_block(rt: HostRuntime) -> Result<(), Fail> {
    let fill = 4096 * 12 - 1;
    let updates = 4096 * 7 + 4 + 7;
    for at in [fill, updates] {
        assert!(rt; blamed(rt.alloc(), at, &[1], 10538) == Ok((7, 3)));
    }
    Ok(())
}

#[test]
fn a_length_beyond_the_chain_ends_with_it(rt: HostRuntime) -> Result<(), Fail> {
    assert!(rt; blamed(rt.alloc(), 0, &[1], 4_000_000_000) == Ok((11, 3)));
    Ok(())
}

/// Whether a second manifest of three blocks, of whose writes so many reach the disk, is written where three do, and else
/// leaves the space as it was; and whether the first is there afterwards.
fn stops(alloc: Global, calls: u64) -> Result<bool, Trouble> {
    let bytes = short_spelling(alloc, 2, 2100, 0)?;
    let (disk, mut space) = with_manifest(alloc, 2, &bytes, 3)?;
    let manifest = parsed(alloc, 2, &bytes)?;
    let before = space.free();
    let mut fuse = FuseDisk::new(disk, calls);
    let taken = match stored(alloc, &mut fuse, &mut space, 2, &manifest) {
        Ok(_) => 3,
        Err(Trouble::Device) => 0,
        Err(failed) => return Err(failed),
    };
    let mut disk = fuse.into_inner();
    let there = is_there(alloc, &mut disk, 2, 10538, 2100, 0, 3)?;
    Ok(there && (taken == 3) == (calls >= 3) && before.saturating_sub(space.free()) == taken)
}

#[test]
fn a_failed_write_gives_the_blocks_back(rt: HostRuntime) -> Result<(), Fail> {
    for calls in 0..5 {
        assert!(rt; stops(rt.alloc(), calls) == Ok(true));
    }
    Ok(())
}
