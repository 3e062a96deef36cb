//! A merger over the leads of one array, a block of which is damaged while it is read.

ghost use Rattle.std.specs.Prelude.{IfOk};
ghost use Rattle.strat_merge.specs.MergerFields.{IsUnspent};
ghost use Rattle.strat_promote.specs.InputFields.{input_seen};

use crate::large::set_up;
use crate::midway::damage;
use crate::ready::is_plain;
use std::alloc::Global;
use std::process::Abort;
use std::test::Fail;
use strat_arena::Arena;
use strat_base::{ArrayDesc, Trouble};
use strat_disk::MemDisk;
use strat_level::Levels;
use strat_merge::{GroupBuf, Merger};
use strat_promote::input::Input;
use strat_promote::lead_run::LeadRun;

/// A merger of one run, that over the leads of an array of version 0.
fn merger_of(alloc: Global, disk: &mut MemDisk, desc: &ArrayDesc) -> Result<Merger<Input>, Trouble>
    ensures kept { IfOk result (λ m. IsUnspent input_seen m) }
{
    if !is_plain(desc, 1) {
        return Err(Trouble::NoMemory);
    }
    let run = LeadRun::open(alloc, disk, desc, 1)?;
    let mut runs = Vec::with_capacity(alloc, 1)?;
    runs.push_reserved(Input::Leads(run));
    Ok(Merger::new(alloc, runs)?)
}

/// Takes three more groups of a merger.
fn take_three(
    merger: &mut Merger<Input>,
    disk: &mut MemDisk,
    arena: &mut Arena,
    group: &mut GroupBuf,
) -> Result<(), Trouble>
    requires kept { IsUnspent input_seen merger.old }
{
    merger.next_group(disk, arena, group)?;
    merger.next_group(disk, arena, group)?;
    merger.next_group(disk, arena, group)?;
    Ok(())
}

/// Whether the first group of a merger is there, and one of the next three names block 8, which was damaged meanwhile.
fn meets_damage(alloc: Global, disk: &mut MemDisk, desc: &ArrayDesc) -> Result<bool, Trouble> {
    let mut merger = merger_of(alloc, disk, desc)?;
    let mut arena = Arena::new(alloc);
    let mut group = GroupBuf::new(alloc, 1)?;
    let first = merger.next_group(disk, &mut arena, &mut group)?;
    if !first || !damage(disk) {
        return Ok(false);
    }
    match take_three(&mut merger, disk, &mut arena, &mut group) {
        Ok(()) => Ok(false),
        Err(trouble) => Ok(trouble == Trouble::Damaged { block: 8 }),
    }
}

/// Whether that is so over an array that has four entries in the blocks 7 and 8.
fn tells(alloc: Global) -> Result<bool, Trouble> {
    let mut disk = MemDisk::new(alloc, &[])?;
    let mut levels = Levels::new();
    if !set_up(alloc, &mut levels, &mut disk)? {
        return Ok(false);
    }
    match levels.get(1) {
        Some(level) => match level.desc().arrays.as_slice() {
            [desc] => meets_damage(alloc, &mut disk, desc),
            _ => Ok(false),
        },
        None => Ok(false),
    }
}

#[test]
fn a_block_that_is_damaged_between_groups_is_named(rt: HostRuntime) -> Result<(), Fail> {
    assert!(rt; tells(rt.alloc())?);
    Ok(())
}
