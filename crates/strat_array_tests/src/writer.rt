//! Arrays that are written, and read back block by block.

ghost use Rattle.std.specs.Prelude.{◌≡◌, ◌<◌, ◌≤◌, ◌+◌, ◌-◌, ◌*◌, ◌^◌, [], length, map, IsTrue, OnOk};
ghost use Rattle.std.specs.List.{list_all};
ghost use Rattle.strat_array.specs.Taking.{HasFreeBlock, AreUsed};
ghost use Rattle.strat_base.specs.Entries.{is_ascending};
ghost use Rattle.strat_base.specs.EntryBytes.{fits_fields};
ghost use Rattle.strat_base.specs.EntryView.{entry_of};
ghost use Rattle.strat_extent.specs.Blocks.{used_count};
ghost use Rattle.def_bytes.specs.Arrays.{blocks_of};

use std::alloc::Global;
use std::process::Abort;
use std::test::Fail;
use strat_array::ArrayWriter;
use strat_base::limits::BLOCK;
use strat_base::{Entry, Extent, Extents, Listing, Trouble, Val};
use strat_block::BlockView;
use strat_disk::{Disk, MemDisk};
use strat_extent::Space;

/// Pushes entries one after the other.
fn push_all(
    writer: &mut ArrayWriter,
    entries: &[Entry<'_>],
    space: &mut Space,
    disk: &mut MemDisk,
) -> Result<(), Trouble>
    requires kept { IsTrue (is_ascending (map entry_of entries.now)) }
    requires fits { IsTrue (list_all fits_fields (map entry_of entries.now))
        × (length entries.now < 1000) }
    requires none { (writer.old.count ≡ 0) × (writer.old.pending ≡ []) }
    requires room { used_count space.old + length entries.now + 1 ≤ 4294967295 - space.old.first }
    requires found { AreUsed space.old (blocks_of writer.old.extents) }
    ensures len { OnOk result (writer.new.count ≡ length entries.now) }
    ensures room { OnOk result (HasFreeBlock space.new) }
    ensures found { OnOk result (AreUsed space.new (blocks_of writer.new.extents)) }
{
    for (i, e) in entries.iter().enumerate() {
        writer.push(e, space, disk)?;
    }
    Ok(())
}

/// A space from block 7 on, of which block 8 may be used.
fn space_of(alloc: Global, with_used: bool) -> Result<Space, Trouble> {
    let mut space = Space::new(alloc, 7);
    if with_used {
        let mut used = Extents::new(alloc);
        if used.push(Extent { start: 8, len: 1 }).is_err() {
            return Err(Trouble::NoMemory);
        }
        let _ = space.mark(&used)?;
    }
    Ok(space)
}

/// Writes an array of these entries, and tells its blocks and whether it was written.
fn written(
    alloc: Global,
    entries: &[Entry<'_>],
    with_used: bool,
    disk: &mut MemDisk,
) -> Result<(bool, Extents), Trouble>
    requires kept { IsTrue (is_ascending (map entry_of entries.now)) }
    requires fits { IsTrue (list_all fits_fields (map entry_of entries.now))
        × (length entries.now < 1000) × (0 < length entries.now) }
{
    let mut space = space_of(alloc, with_used)?;
    if space.free() < 2000 {
        return Err(Trouble::NoMemory);
    }
    let mut writer = ArrayWriter::new(alloc, 5)?;
    match push_all(&mut writer, entries, &mut space, disk) {
        Ok(()) => {}
        Err(_) => return Ok((false, writer.into_extents())),
    }
    match writer.finish(2, 3, Listing::new(alloc), &mut space, disk) {
        Ok(desc) => {
            let right = desc.id == 5 && desc.entries as usize == entries.len();
            Ok((right && desc.leads == 2 && desc.least == 3, desc.extents))
        }
        Err((_, extents)) => Ok((false, extents)),
    }
}

/// Whether a block of the disk has these entries.
fn has_entries(disk: &mut MemDisk, block: u32, entries: &[Entry<'_>]) -> bool {
    let mut bytes = [0; BLOCK];
    if disk
        .read_at(block as u64 * BLOCK as u64, &mut bytes)
        .is_err()
    {
        return false;
    }
    let Some(view) = BlockView::parse(&bytes) else {
        return false;
    };
    if view.len() != entries.len() {
        return false;
    }
    for (i, e) in entries.iter().enumerate() {
        if view.entry(i) != *e {
            return false;
        }
    }
    true
}

/// The blocks of four of the largest entries, of which three fit into a block, and whether they stand there.
fn largest(alloc: Global) -> Result<(bool, Extents), Trouble> {
    let entries = [
        Entry {
            key: &[1; 255],
            version: 0,
            val: Val::Put(&[7; 1024]),
        },
        Entry {
            key: &[2; 255],
            version: 0,
            val: Val::Put(&[7; 1024]),
        },
        Entry {
            key: &[3; 255],
            version: 0,
            val: Val::Put(&[7; 1024]),
        },
        Entry {
            key: &[4; 255],
            version: 0,
            val: Val::Put(&[7; 1024]),
        },
    ];
    let mut disk = MemDisk::new(alloc, &[])?;
    let (ok, extents) = written(alloc, &entries, false, &mut disk)?;
    let stands = has_entries(&mut disk, 7, &entries[..3])
        && has_entries(&mut disk, 8, &entries[3..]);
    Ok((ok && stands, extents))
}

/// Seals a writer, and once more.
#[tactic(auto, using(strat_array::proofs::TakesLemmas::used_once_taken))]
fn seal_twice(
    writer: &mut ArrayWriter,
    space: &mut Space,
    disk: &mut MemDisk,
) -> Result<(), Trouble>
    requires room { HasFreeBlock space.old }
    requires found { AreUsed space.old (blocks_of writer.old.extents) }
{
    writer.seal(space, disk)?;
    if space.free() == 0 {
        return Err(Trouble::NoMemory);
    }
    writer.seal(space, disk)
}

/// Writes an array of these entries, seals it, and tells the blocks of its descriptor and whether that is right.
fn sealed(
    alloc: Global,
    entries: &[Entry<'_>],
    disk: &mut MemDisk,
) -> Result<(bool, Extents), Trouble>
    requires kept { IsTrue (is_ascending (map entry_of entries.now)) }
    requires fits { IsTrue (list_all fits_fields (map entry_of entries.now))
        × (length entries.now < 1000) × (0 < length entries.now) }
{
    let mut space = space_of(alloc, true)?;
    if space.free() < 2000 {
        return Err(Trouble::NoMemory);
    }
    let mut writer = ArrayWriter::new(alloc, 5)?;
    push_all(&mut writer, entries, &mut space, disk)?;
    seal_twice(&mut writer, &mut space, disk)?;
    let right = writer.count() as usize == entries.len();
    let desc = writer.describe(2, 3, Listing::new(alloc))?;
    Ok((
        right && desc.id == 5 && desc.entries == writer.count(),
        desc.extents,
    ))
}

/// The blocks of two entries after they were sealed, and whether they stand there.
fn two_sealed(alloc: Global) -> Result<(bool, Extents), Trouble> {
    let entries = [
        Entry {
            key: &[1],
            version: 0,
            val: Val::Gone,
        },
        Entry {
            key: &[2],
            version: 0,
            val: Val::Put(&[7; 1024]),
        },
    ];
    let mut disk = MemDisk::new(alloc, &[])?;
    let (ok, extents) = sealed(alloc, &entries, &mut disk)?;
    Ok((ok && has_entries(&mut disk, 7, &entries), extents))
}

/// What becomes of seven entries of which three fit into a block, where these calls of the disk fail.
fn seven(alloc: Global, failing: &[u64]) -> Result<(bool, Extents), Trouble> {
    let entries = [
        Entry {
            key: &[1],
            version: 0,
            val: Val::Put(&[7; 1024]),
        },
        Entry {
            key: &[2],
            version: 0,
            val: Val::Put(&[7; 1024]),
        },
        Entry {
            key: &[3],
            version: 0,
            val: Val::Put(&[7; 1024]),
        },
        Entry {
            key: &[4],
            version: 9,
            val: Val::Put(&[7; 1024]),
        },
        Entry {
            key: &[4],
            version: 8,
            val: Val::Put(&[7; 1024]),
        },
        Entry {
            key: &[4],
            version: 0,
            val: Val::Put(&[7; 1024]),
        },
        Entry {
            key: &[5],
            version: 0,
            val: Val::Put(&[8; 1024]),
        },
    ];
    let mut disk = MemDisk::new(alloc, failing)?;
    let (ok, extents) = written(alloc, &entries, true, &mut disk)?;
    let stands = has_entries(&mut disk, 7, &entries[..3])
        && has_entries(&mut disk, 9, &entries[3..6])
        && has_entries(&mut disk, 10, &entries[6..]);
    Ok((ok && stands, extents))
}

/// Whether these are the blocks of extents.
fn are(extents: &Extents, rows: &[(u32, u32)]) -> bool {
    if extents.len() != rows.len() {
        return false;
    }
    for (i, row) in rows.iter().enumerate() {
        let x = extents.get(i);
        if x.start != row.0 || x.len != row.1 {
            return false;
        }
    }
    true
}

#[test]
fn entries_stand_in_the_lowest_free_blocks(rt: HostRuntime) -> Result<(), Fail> {
    let (ok, extents) = seven(rt.alloc(), &[])?;
    assert!(rt; ok);
    assert!(rt; are(&extents, &[(7, 1), (9, 2)]));
    Ok(())
}

#[test]
fn a_writer_is_sealed_once(rt: HostRuntime) -> Result<(), Fail> {
    let (ok, extents) = two_sealed(rt.alloc())?;
    assert!(rt; ok);
    assert!(rt; are(&extents, &[(7, 1)]));
    Ok(())
}

#[test]
fn three_of_the_largest_entries_fill_a_block(rt: HostRuntime) -> Result<(), Fail> {
    let (ok, extents) = largest(rt.alloc())?;
    assert!(rt; ok);
    assert!(rt; are(&extents, &[(7, 2)]));
    Ok(())
}

#[test]
fn a_write_that_fails_is_told_with_its_block(rt: HostRuntime) -> Result<(), Fail> {
    let (ok, extents) = seven(rt.alloc(), &[1])?;
    assert!(rt; !ok);
    assert!(rt; are(&extents, &[(7, 1)]));
    let (ok, extents) = seven(rt.alloc(), &[3])?;
    assert!(rt; !ok);
    assert!(rt; are(&extents, &[(7, 1), (9, 2)]));
    Ok(())
}
