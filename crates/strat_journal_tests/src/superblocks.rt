//! Superblocks: the example's bytes, the ranges of the fields, and worked disks.

ghost use Rattle.std.specs.Prelude.{◌≤◌};
ghost use Rattle.def_bytes.specs.SuperBlock.{IsLawful};
ghost use Rattle.strat_gate.specs.SuperView.{super_of};

use std::test::Fail;
use strat_base::Fault;
use strat_disk::{Disk, FuseDisk, MemDisk};
use strat_gate::{SuperBlock, gate_ensure_shut, gate_raise, gate_shut, gate_up, lay, newest};

// What formatting with 4 changes a region, 100 changes and 10 versions lays into slot 0.
const EXAMPLE: [u8; 40] = [
    0xa7, 0x53, 0x54, 0x52, 0x41, 0x54, 0x42, 0x54, 0x31, 0, 2, 0, 0, 0, 0, 0, 0, 0, 1, 0, 0, 0, 6,
    0, 0, 0, 38, 0, 0, 0, 0, 4, 0, 0, 0, 100, 0, 0, 0, 10,
];

// The same in format 1.
const OLD_EXAMPLE: [u8; 40] = [
    0xa7, 0x53, 0x54, 0x52, 0x41, 0x54, 0x42, 0x54, 0x31, 0, 1, 0, 0, 0, 0, 0, 0, 0, 1, 0, 0, 0, 6,
    0, 0, 0, 29, 0, 0, 0, 0, 4, 0, 0, 0, 100, 0, 0, 0, 10,
];

fn block(generation: u64) -> SuperBlock
    requires { 1 ≤ generation }
    ensures { IsLawful (super_of result) }
{
    SuperBlock {
        format: 2,
        generation,
        manifest: 6,
        length: 38,
        region: 0,
        mem: 4,
        changes_max: 100,
        versions_max: 10,
    }
}

/// The superblock of generation 1 in format 1.
fn old_block() -> SuperBlock
    ensures { IsLawful (super_of result) }
{
    SuperBlock {
        format: 1,
        generation: 1,
        manifest: 6,
        length: 29,
        region: 0,
        mem: 4,
        changes_max: 100,
        versions_max: 10,
    }
}

/// Whether a superblock of this generation is laid into a slot.
fn lays<D: Disk>(disk: &mut D, slot: u8, generation: u64) -> bool {
    if slot > 1 || generation == 0 {
        return false;
    }
    lay(disk, slot, &block(generation)).is_ok()
}

/// Whether the newest superblock is this one with its slot, or this fault comes.
fn finds(disk: &mut MemDisk, want: Result<Option<(u8, SuperBlock)>, Fault>) -> bool {
    newest(disk) == want
}

/// Whether a disk begins with an example, with a zero behind it.
fn holds(disk: &mut MemDisk, example: &[u8; 40]) -> bool {
    let mut bytes = [9; 40];
    let mut behind = [9];
    let read = disk.read_at(0, &mut bytes).is_ok() && disk.read_at(40, &mut behind).is_ok();
    read && bytes == *example && behind == [0]
}

/// Whether the first slot's gate reads so.
fn is_up(disk: &mut MemDisk, want: bool) -> bool {
    gate_up(disk, 0) == Ok(want)
}

/// Whether a slot whose gate was shut is not found.
fn shuts(disk: &mut MemDisk) -> bool {
    gate_shut(disk, 0).is_ok() && is_up(disk, false) && finds(disk, Ok(None))
}

/// Whether a gate is raised, and closed again.
fn raises_and_closes(disk: &mut MemDisk) -> bool {
    gate_raise(disk, 0).is_ok()
        && is_up(disk, true)
        && gate_ensure_shut(disk, 0).is_ok()
        && is_up(disk, false)
}

#[test]
fn the_example_is_written_and_read(rt: HostRuntime) -> Result<(), Fail> {
    let mut disk = MemDisk::new(rt.alloc(), &[])?;
    assert!(rt; lays(&mut disk, 0, 1));
    assert!(rt; disk.bytes().len() == 4096);
    assert!(rt; holds(&mut disk, &EXAMPLE));
    assert!(rt; finds(&mut disk, Ok(Some((0, block(1))))));
    assert!(rt; is_up(&mut disk, true));
    assert!(rt; shuts(&mut disk));
    assert!(rt; raises_and_closes(&mut disk));
    Ok(())
}

/// Whether the superblock of format 1 is laid, and the next one, of format 2, behind it.
fn moves_on(disk: &mut MemDisk) -> bool {
    lay(disk, 0, &old_block()).is_ok()
        && holds(disk, &OLD_EXAMPLE)
        && finds(disk, Ok(Some((0, old_block()))))
        && lays(disk, 1, 2)
        && finds(disk, Ok(Some((1, block(2)))))
}

#[test]
fn a_superblock_of_format_1_is_followed_by_one_of_format_2(rt: HostRuntime) -> Result<(), Fail> {
    let mut disk = MemDisk::new(rt.alloc(), &[])?;
    assert!(rt; moves_on(&mut disk));
    Ok(())
}

// Bytes at a place of the example, and whether its fields are then in their ranges.
const FIELDS: [(u64, [u8; 4], bool); 23] = [
    (9, [0, 0, 0, 0], false),
    (9, [0, 3, 0, 0], false),
    (15, [0, 0, 0, 0], false),
    (15, [255, 255, 255, 255], true),
    (19, [0, 0, 0, 5], false),
    (19, [0, 0, 0, 6], true),
    (19, [255, 255, 255, 254], true),
    (19, [255, 255, 255, 255], false),
    (23, [0, 0, 0, 37], false),
    (23, [255, 255, 255, 255], true),
    (24, [0, 0, 38, 1], true),
    (24, [0, 0, 38, 2], false),
    (28, [0, 0, 0, 3], false),
    (28, [0, 0, 16, 0], true),
    (28, [0, 0, 16, 1], false),
    (32, [0, 0, 0, 0], false),
    (32, [0, 0, 0, 1], true),
    (32, [1, 0, 0, 0], true),
    (32, [1, 0, 0, 1], false),
    (36, [0, 0, 0, 0], false),
    (36, [0, 0, 0, 1], true),
    (36, [0, 0, 64, 0], true),
    (36, [0, 0, 64, 1], false),
];

/// Whether the example is written with its manifest in a block behind the largest regions, and with these
/// bytes at this place.
fn pokes(disk: &mut MemDisk, slot: u8, at: u64, bytes: [u8; 4]) -> bool {
    let start = 4096 * u64::from(slot);
    at < 40
        && disk.write_at(start, &EXAMPLE).is_ok()
        && disk.write_at(start + 19, &[0, 0, 19, 136]).is_ok()
        && disk.write_at(start + at, &bytes).is_ok()
}

/// Whether a superblock is found, or the slot's block is damaged.
fn is_judged(disk: &mut MemDisk, slot: u8, good: bool) -> bool {
    match newest(disk) {
        Ok(_) => good,
        Err(fault) => {
            !good
                && fault
                    == Fault::Damaged {
                        block: u32::from(slot),
                    }
        }
    }
}

#[test]
fn a_field_out_of_range_is_damage(rt: HostRuntime) -> Result<(), Fail> {
    for (at, bytes, good) in FIELDS {
        for slot in 0..2 {
            let mut disk = MemDisk::new(rt.alloc(), &[])?;
            assert!(rt; pokes(&mut disk, slot, at, bytes));
            assert!(rt; is_judged(&mut disk, slot, good));
        }
    }
    Ok(())
}

// A format, the length of a manifest, and whether the superblock is taken.
const FORMATS: [(u8, u8, bool); 7] = [
    (0, 38, false),
    (1, 28, false),
    (1, 29, true),
    (1, 38, true),
    (2, 37, false),
    (2, 38, true),
    (3, 38, false),
];

#[test]
fn formats_1_and_2_are_taken_from_their_shortest_manifest_on(rt: HostRuntime) -> Result<(), Fail> {
    for (format, length, good) in FORMATS {
        for slot in 0..2 {
            let mut disk = MemDisk::new(rt.alloc(), &[])?;
            assert!(rt; pokes(&mut disk, slot, 9, [0, format, 0, 0]));
            assert!(rt;
                disk.write_at(4096 * u64::from(slot) + 23, &[0, 0, 0, length])
                    .is_ok()
            );
            assert!(rt; is_judged(&mut disk, slot, good));
        }
    }
    Ok(())
}

/// Whether of two superblocks of these generations the one in this slot is found.
fn prefers(mut disk: MemDisk, first: u64, second: u64, slot: u8) -> bool {
    lays(&mut disk, 0, first)
        && lays(&mut disk, 1, second)
        && match newest(&mut disk) {
            Ok(Some((found, _))) => found == slot,
            _ => false,
        }
}

#[test]
fn the_first_slot_wins_a_tie(rt: HostRuntime) -> Result<(), Fail> {
    for (first, second, slot) in [(5, 5, 0), (5, 6, 1), (6, 5, 0)] {
        assert!(rt; prefers(MemDisk::new(rt.alloc(), &[])?, first, second, slot));
    }
    Ok(())
}

/// Whether a superblock is not found once this byte stands at this place.
fn hides(mut disk: MemDisk, at: u64, byte: u8) -> bool {
    lays(&mut disk, 0, 1)
        && at < 40
        && disk.write_at(at, &[byte]).is_ok()
        && finds(&mut disk, Ok(None))
}

#[test]
fn no_gate_or_another_magic_is_nothing(rt: HostRuntime) -> Result<(), Fail> {
    for (at, byte) in [(0, 0), (0, 0xa6), (0, 0xff), (1, 0x73), (8, 0x32)] {
        assert!(rt; hides(MemDisk::new(rt.alloc(), &[])?, at, byte));
    }
    Ok(())
}

#[test]
fn an_empty_disk_has_no_superblock(rt: HostRuntime) -> Result<(), Fail> {
    let mut disk = MemDisk::new(rt.alloc(), &[])?;
    assert!(rt; finds(&mut disk, Ok(None)));
    Ok(())
}

#[test]
fn a_read_that_fails_is_told(rt: HostRuntime) -> Result<(), Fail> {
    let mut disk = MemDisk::new(rt.alloc(), &[2])?;
    assert!(rt; finds(&mut disk, Err(Fault::Device)));
    Ok(())
}

/// Whether a crash leaves the new superblock, or the old one where the new one was not laid.
fn is_old_or_new(
    left: &MemDisk,
    choice: u8,
    old: Option<(u8, SuperBlock)>,
    new: Option<(u8, SuperBlock)>,
    laid: bool,
) -> bool {
    let Ok(mut after) = left.crash(choice) else {
        return false;
    };
    match newest(&mut after) {
        Ok(found) => found == new || found == old && !laid,
        Err(_) => false,
    }
}

/// Lays the next superblock behind a fuse of so many calls, where so many are needed, and looks at what each
/// crash leaves.
fn stops(mut disk: MemDisk, slots: u8, slot: u8, calls: u64, needed: u64) -> bool {
    let Ok(old) = newest(&mut disk) else {
        return false;
    };
    let generation = u64::from(slots) + 1;
    let new = Some((slot, block(generation)));
    let mut fuse = FuseDisk::new(disk, calls);
    let laid = lays(&mut fuse, slot, generation);
    let left = fuse.into_inner();
    laid == (calls >= needed)
        && is_old_or_new(&left, 0, old, new, laid)
        && is_old_or_new(&left, 1, old, new, laid)
        && is_old_or_new(&left, 2, old, new, laid)
}

/// Whether superblocks of generation 1 and so on are laid into so many slots.
fn prepares(disk: &mut MemDisk, slots: u8) -> bool {
    (slots < 1 || lays(disk, 0, 1)) && (slots < 2 || lays(disk, 1, 2))
}

#[test]
fn a_stop_leaves_the_old_superblock_or_the_new(rt: HostRuntime) -> Result<(), Fail> {
    for (slots, slot, needed) in [(0, 0, 5), (1, 1, 5), (2, 0, 7)] {
        for calls in 0..9 {
            let mut disk = MemDisk::new(rt.alloc(), &[])?;
            assert!(rt; prepares(&mut disk, slots));
            assert!(rt; stops(disk, slots, slot, calls, needed));
        }
    }
    Ok(())
}
