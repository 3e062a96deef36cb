//! A store on a disk beside the plain table: both are given the same drawn commands, and answer alike.

ghost use Rattle.std.specs.Prelude.{◌≤◌, ◌+◌, ◌^◌};

use crate::scripts::{Beside, Script, fresh_beside, stay_alike};
use crate::support::new_store;
use std::alloc::Global;
use std::test::Fail;
use strat_base::NoMemory;
use strat_disk::MemDisk;
use strat_store::Store;

/// Whether a store that is opened on the disk answers the commands between two numbers as the plain table does.
fn opens_alike(
    alloc: Global,
    disk: &mut MemDisk,
    beside: &mut Beside,
    script: Script,
    from: u32,
    to: u32,
) -> bool
    requires room { beside.old.plain.next_cursor ≤ 2 ^ 62 }
    ensures room { beside.new.plain.next_cursor ≤ beside.old.plain.next_cursor + to }
{
    match Store::attach(alloc, disk) {
        Ok(mut store) => stay_alike(&mut store, disk, beside, script, from, to),
        Err(_) => false,
    }
}

/// Whether the first so many commands are answered alike in one opening.
fn once_alike(
    alloc: Global,
    disk: &mut MemDisk,
    script: Script,
    to: u32,
) -> Result<bool, NoMemory> {
    let mut beside = fresh_beside(alloc)?;
    Ok(opens_alike(alloc, disk, &mut beside, script, 0, to))
}

/// Whether 1,200 commands are in four openings.
fn often_alike(alloc: Global, disk: &mut MemDisk) -> Result<bool, NoMemory> {
    let mut beside = fresh_beside(alloc)?;
    Ok(
        opens_alike(alloc, disk, &mut beside, Script::Any, 0, 300)
            && opens_alike(alloc, disk, &mut beside, Script::Any, 300, 600)
            && opens_alike(alloc, disk, &mut beside, Script::Any, 600, 900)
            && opens_alike(alloc, disk, &mut beside, Script::Any, 900, 1200),
    )
}

/// Whether 300 commands about versions that are dropped are, in three openings.
fn dropped_alike(alloc: Global, disk: &mut MemDisk) -> Result<bool, NoMemory> {
    let mut beside = fresh_beside(alloc)?;
    Ok(
        opens_alike(alloc, disk, &mut beside, Script::Dropping, 0, 100)
            && opens_alike(alloc, disk, &mut beside, Script::Dropping, 100, 200)
            && opens_alike(alloc, disk, &mut beside, Script::Dropping, 200, 300),
    )
}

#[test]
fn a_store_drops_versions_as_the_plain_table_does(rt: HostRuntime) -> Result<(), Fail> {
    let Some(mut disk) = new_store(rt.alloc(), 4, 300, 40) else {
        assert!(rt; false);
        return Ok(());
    };
    assert!(rt; dropped_alike(rt.alloc(), &mut disk)?);
    Ok(())
}

#[test]
fn a_store_answers_as_the_plain_table_does(rt: HostRuntime) -> Result<(), Fail> {
    let Some(mut disk) = new_store(rt.alloc(), 64, 300, 40) else {
        assert!(rt; false);
        return Ok(());
    };
    assert!(rt; once_alike(rt.alloc(), &mut disk, Script::Any, 400)?);
    Ok(())
}

#[test]
fn a_store_with_cursors_answers_as_the_plain_table_does(rt: HostRuntime) -> Result<(), Fail> {
    let Some(mut disk) = new_store(rt.alloc(), 4, 300, 40) else {
        assert!(rt; false);
        return Ok(());
    };
    assert!(rt; once_alike(rt.alloc(), &mut disk, Script::Paging, 400)?);
    Ok(())
}

#[test]
fn a_store_over_levels_answers_as_the_plain_table_does(rt: HostRuntime) -> Result<(), Fail> {
    let Some(mut disk) = new_store(rt.alloc(), 4, 300, 40) else {
        assert!(rt; false);
        return Ok(());
    };
    assert!(rt; often_alike(rt.alloc(), &mut disk)?);
    Ok(())
}
