//! A promotion over a level of two blocks, stopped at each call of its disk.

use crate::large::{four, set_up};
use crate::levels::space_of;
use crate::scene::{Scene, make_scene};
use crate::sliced::{WHOLE, promote};
use std::alloc::Global;
use std::process::Abort;
use std::test::Fail;
use strat_base::{NoMemory, Trouble};
use strat_disk::{FuseDisk, MemDisk};
use strat_extent::Space;
use strat_level::Levels;

/// Promotes over a disk that stops after so many calls. The trouble, if there was some, and the disk.
fn stopped(
    alloc: Global,
    scene: &Scene,
    levels: &Levels,
    space: &mut Space,
    disk: MemDisk,
    calls: u64,
) -> (Option<Trouble>, MemDisk) {
    let mut fuse = FuseDisk::new(disk, calls);
    let trouble = match promote(alloc, scene, levels, 4, 2, space, &mut fuse, WHOLE) {
        Ok(_) => None,
        Err(trouble) => Some(trouble),
    };
    (trouble, fuse.into_inner())
}

/// Whether bytes begin with others.
fn begins_with(bytes: &[u8], front: &[u8]) -> bool {
    bytes.len() >= front.len() && &bytes[..front.len()] == front
}

/// Whether each crash leaves the bytes of the blocks that were there before.
pub(crate) fn keeps(before: &MemDisk, after: &MemDisk) -> Result<bool, NoMemory> {
    for choice in 0..3 {
        let left = after.crash(choice)?;
        if !begins_with(left.bytes(), before.bytes()) {
            return Ok(false);
        }
    }
    Ok(true)
}

/// Whether a promotion that was stopped says so and gave its blocks back, or made the level after seven calls.
fn is_told(trouble: Option<Trouble>, space: &Space, calls: u64) -> bool {
    if calls < 7 {
        trouble == Some(Trouble::Device) && space.end() == 9
    } else {
        trouble.is_none() && space.end() == 12
    }
}

/// Whether a promotion over these levels, that is stopped after so many calls, leaves all as it should be, and has read
/// so often.
fn stops_well(
    alloc: Global,
    levels: &Levels,
    disk: MemDisk,
    calls: u64,
    reads: u64,
) -> Result<bool, Trouble> {
    let before = disk.crash(0)?;
    let mut space = space_of(alloc, levels)?;
    let scene = make_scene(alloc, &[], &four(1))?;
    let (trouble, after) = stopped(alloc, &scene, levels, &mut space, disk, calls);
    Ok(is_told(trouble, &space, calls) && after.reads() == reads && keeps(&before, &after)?)
}

/// Whether a promotion that is stopped after so many calls does.
fn stops_at(alloc: Global, calls: u64, reads: u64) -> Result<bool, Trouble> {
    let mut disk = MemDisk::new(alloc, &[])?;
    let mut levels = Levels::new();
    Ok(set_up(alloc, &mut levels, &mut disk)? && stops_well(alloc, &levels, disk, calls, reads)?)
}

#[test]
fn a_stopped_promotion_leaves_all_used_blocks(rt: HostRuntime) -> Result<(), Fail> {
    // Two blocks are read in the first pass; in the second a block is written between the two.
    for (calls, reads) in [
        (0, 0),
        (1, 1),
        (2, 2),
        (3, 3),
        (4, 3),
        (5, 4),
        (6, 4),
        (7, 4),
        (8, 4),
    ] {
        let stops = stops_at(rt.alloc(), calls, reads)?;
        assert!(rt; stops);
    }
    Ok(())
}
