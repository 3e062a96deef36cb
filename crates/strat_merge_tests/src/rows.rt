//! A merge of three runs that was worked out by hand.

ghost use Rattle.std.specs.Prelude.{OnOk};
ghost use Rattle.strat_merge.specs.MergerFields.{IsUnspent};

use crate::groups::{gives, gone, make_bench, next, put};
use crate::list_run::ListRun;
use std::alloc::Global;
use std::process::Abort;
use std::test::Fail;
use strat_arena::Arena;
use strat_base::{Entry, NoMemory, Trouble};
use strat_disk::{Disk, MemDisk};
use strat_merge::{GroupBuf, Merger, Run};

/// A run of these entries, in a block, of which it can pass so many.
fn listed<'a>(
    alloc: Global,
    block: u32,
    good: usize,
    entries: &[Entry<'a>],
) -> Result<ListRun<'a>, NoMemory> {
    let mut run = ListRun::new(alloc, 6, block, good);
    for entry in entries {
        run.push(*entry)?;
    }
    Ok(run)
}

/// Three runs with nine entries, the newest first, in the blocks 10, 11 and 12. All have key a at
/// version 3. The second can pass so many of its three.
pub(crate) fn three(alloc: Global, good: usize) -> Result<Vec<ListRun<'static>>, NoMemory> {
    let newest = [put(b"a", 3, b"new"), gone(b"b", 2)];
    let middle = [
        put(b"a", 3, b"mid"),
        put(b"a", 1, b"mid"),
        put(b"c", 0, b"mid"),
    ];
    let oldest = [
        put(b"a", 3, b"old"),
        put(b"a", 1, b"old"),
        put(b"a", 0, b""),
        put(b"b", 5, b"old"),
    ];
    let mut runs = Vec::with_capacity(alloc, 3)?;
    runs.push_reserved(listed(alloc, 10, 9, &newest)?);
    runs.push_reserved(listed(alloc, 11, good, &middle)?);
    runs.push_reserved(listed(alloc, 12, 9, &oldest)?);
    Ok(runs)
}

/// Whether a merger of the three gives the newest of each key and version, and then twice nothing.
fn gives_the_newest<D: Disk, R: Run<D>>(
    merger: &mut Merger<R>,
    disk: &mut D,
    arena: &mut Arena,
    group: &mut GroupBuf,
) -> Result<bool, Trouble>
    requires kept { IsUnspent R.view merger.old }
{
    let a = [
        put(b"a", 3, b"new"),
        put(b"a", 1, b"mid"),
        put(b"a", 0, b""),
    ];
    let b = [put(b"b", 5, b"old"), gone(b"b", 2)];
    let c = [put(b"c", 0, b"mid")];
    let rows: [(&[Entry<'_>], u64); 5] = [(&a, 6), (&b, 8), (&c, 9), (&[], 9), (&[], 9)];
    for (wanted, consumed) in rows {
        if !gives(merger, disk, arena, group, wanted, consumed)? {
            return Ok(false);
        }
    }
    Ok(true)
}

#[test]
fn the_newest_of_three_stands(rt: HostRuntime) -> Result<(), Fail> {
    let mut bench = make_bench(rt.alloc(), &[])?;
    let mut merger = Merger::new(rt.alloc(), three(rt.alloc(), 9)?)?;
    let found = gives_the_newest(
        &mut merger,
        &mut bench.disk,
        &mut bench.arena,
        &mut bench.group,
    )?;
    assert!(rt; found && bench.disk.reads() == 9);
    Ok(())
}

/// Whether a merger of the three has entries left until it gave its three groups.
fn has_left_until_the_end<D: Disk, R: Run<D>>(
    merger: &mut Merger<R>,
    disk: &mut D,
    arena: &mut Arena,
    group: &mut GroupBuf,
) -> Result<bool, Trouble>
    requires kept { IsUnspent R.view merger.old }
{
    for left in [true, true, true, false, false] {
        if merger.has_left::<D>() != left {
            return Ok(false);
        }
        next(merger, disk, arena, group)?;
    }
    Ok(true)
}

#[test]
fn entries_are_left_until_the_last_group(rt: HostRuntime) -> Result<(), Fail> {
    let mut bench = make_bench(rt.alloc(), &[])?;
    let mut merger = Merger::new(rt.alloc(), three(rt.alloc(), 9)?)?;
    let found = has_left_until_the_end(
        &mut merger,
        &mut bench.disk,
        &mut bench.arena,
        &mut bench.group,
    )?;
    assert!(rt; found);
    Ok(())
}
