//! Runs that fail in mid-merge.

ghost use Rattle.std.specs.Prelude.{OnOk};
ghost use Rattle.strat_merge.specs.MergerFields.{IsUnspent};

use crate::groups::{Bench, make_bench, next};
use crate::rows::three;
use std::alloc::Global;
use std::process::Abort;
use std::test::Fail;
use strat_arena::Arena;
use strat_base::{NoMemory, Trouble};
use strat_disk::Disk;
use strat_merge::{GroupBuf, Merger, Run};

/// The trouble in which a merge ends, or `None` where it gives all groups.
fn trouble_of<D: Disk, R: Run<D>>(
    merger: &mut Merger<R>,
    disk: &mut D,
    arena: &mut Arena,
    group: &mut GroupBuf,
) -> Option<Trouble>
    requires kept { IsUnspent R.view merger.old }
{
    for _ in 0..100 {
        match next(merger, disk, arena, group) {
            Ok(true) => {}
            Ok(false) => return None,
            Err(trouble) => return Some(trouble),
        }
    }
    None
}

/// The trouble in which a merge of the three ends, and how many entries it took.
fn merge_three(
    alloc: Global,
    good: usize,
    bench: &mut Bench,
) -> Result<(Option<Trouble>, u64), NoMemory> {
    let mut merger = Merger::new(alloc, three(alloc, good)?)?;
    let trouble = trouble_of(
        &mut merger,
        &mut bench.disk,
        &mut bench.arena,
        &mut bench.group,
    );
    Ok((trouble, merger.consumed()))
}

/// Whether a merge of the three, whose disk fails at a read, ends there.
fn ends_at_read(alloc: Global, read: u64) -> Result<bool, NoMemory> {
    let mut bench = make_bench(alloc, &[read])?;
    let (trouble, consumed) = merge_three(alloc, 9, &mut bench)?;
    Ok(if read <= 9 {
        trouble == Some(Trouble::Device) && consumed == read.saturating_sub(1)
    } else {
        trouble.is_none() && consumed == 9
    })
}

#[test]
fn a_failing_disk_is_told(rt: HostRuntime) -> Result<(), Fail> {
    for read in 1..11 {
        let ends = ends_at_read(rt.alloc(), read)?;
        assert!(rt; ends);
    }
    Ok(())
}

/// Whether a merge of the three, of which the second can pass so many entries, names its block and took
/// so many.
fn ends_at_block(alloc: Global, good: usize, wanted: u64) -> Result<bool, NoMemory> {
    let mut bench = make_bench(alloc, &[])?;
    let (trouble, consumed) = merge_three(alloc, good, &mut bench)?;
    Ok(trouble == Some(Trouble::Damaged { block: 11 }) && consumed == wanted)
}

#[test]
fn a_damaged_block_is_told(rt: HostRuntime) -> Result<(), Fail> {
    for (good, consumed) in [(0, 1), (1, 3), (2, 8)] {
        let ends = ends_at_block(rt.alloc(), good, consumed)?;
        assert!(rt; ends);
    }
    Ok(())
}
