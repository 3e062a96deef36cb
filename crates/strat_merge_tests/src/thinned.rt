//! Groups that are thinned, worked by hand.

ghost use Rattle.strat_merge.specs.MergerFields.{IsUnspent};

use crate::groups::{Bench, gone, make_bench, next, put};
use crate::list_run::ListRun;
use crate::purged::{all_below, grown, have_versions};
use std::alloc::Global;
use std::process::Abort;
use std::test::Fail;
use strat_arena::Arena;
use strat_base::{NoMemory, Trouble, Version};
use strat_disk::Disk;
use strat_merge::{GroupBuf, Merger, Run, thin};
use strat_tree::Tree;

/// A version with an item of the key, and its value. An empty one stands for a mark that the key is gone.
type Said = (Version, &'static [u8]);

/// Items of the key, and the versions of those that should be left.
type Row<'a> = (&'a [Said], &'a [Version]);

/// A run of a key's items, the greatest version first.
fn run_of(alloc: Global, said: &[Said]) -> Result<ListRun<'static>, NoMemory> {
    let mut list = ListRun::new(alloc, 64, 20, usize::MAX);
    for (version, value) in said {
        let entry = if value.is_empty() {
            gone(b"k", *version)
        } else {
            put(b"k", *version, *value)
        };
        list.push(entry)?;
    }
    Ok(list)
}

/// Whether thinning the next group leaves the items of these versions.
fn next_is_thinned<D: Disk, R: Run<D>>(
    merger: &mut Merger<R>,
    disk: &mut D,
    arena: &mut Arena,
    group: &mut GroupBuf,
    tree: &Tree,
    wanted: &[Version],
) -> Result<bool, Trouble>
    requires kept { IsUnspent R.view merger.old }
{
    next(merger, disk, arena, group)?;
    if !all_below(group.items(), tree.count()) {
        return Ok(false);
    }
    thin(group, arena, tree);
    Ok(have_versions(group.items(), wanted))
}

/// Whether thinning such items leaves those of these versions.
fn leaves(alloc: Global, bench: &mut Bench, tree: &Tree, row: Row<'_>) -> Result<bool, Trouble> {
    let (said, wanted) = row;
    let mut merger = Merger::new(alloc, vec![in alloc; run_of(alloc, said)?]?)?;
    next_is_thinned(
        &mut merger,
        &mut bench.disk,
        &mut bench.arena,
        &mut bench.group,
        tree,
        wanted,
    )
}

/// Whether thinning leaves in each row what it should.
fn leave(alloc: Global, bench: &mut Bench, tree: &Tree, rows: &[Row<'_>]) -> Result<bool, Trouble> {
    for row in rows {
        if !leaves(alloc, bench, tree, *row)? {
            return Ok(false);
        }
    }
    Ok(true)
}

/// Drops a version, and answers whether it is one that may be dropped.
fn drops(tree: &mut Tree, v: Version) -> bool {
    if v == 0 || v >= tree.count() || tree.is_dead(v) || tree.has_living_child(v) {
        return false;
    }
    tree.mark_dead(v);
    true
}

/// A chain of three living versions.
fn leave_living(alloc: Global, bench: &mut Bench, tree: &Tree) -> Result<bool, Trouble> {
    let rows: [Row; 11] = [
        // A key that was put at version 0, and again at its child.
        (&[(1, b"v"), (0, b"v")], &[0]),
        (&[(1, b"w"), (0, b"v")], &[1, 0]),
        (&[(1, b"vv"), (0, b"v")], &[1, 0]),
        (&[(2, b"v"), (0, b"v")], &[0]),
        (&[(2, b"v"), (1, b"w"), (0, b"v")], &[2, 1, 0]),
        // The value above is judged as it is given, though it goes as well.
        (&[(2, b"v"), (1, b"v"), (0, b"v")], &[0]),
        (&[(1, b""), (0, b"v")], &[1, 0]),
        (&[(2, b""), (1, b""), (0, b"v")], &[1, 0]),
        (&[(2, b"v"), (1, b""), (0, b"v")], &[2, 1, 0]),
        (&[(0, b"")], &[]),
        (&[(2, b""), (0, b"")], &[]),
    ];
    leave(alloc, bench, tree, &rows)
}

/// The same chain, of which version 2 was dropped.
fn leave_dropped(alloc: Global, bench: &mut Bench, tree: &Tree) -> Result<bool, Trouble> {
    let rows: [Row; 4] = [
        (&[(2, b"w"), (1, b"v"), (0, b"w")], &[1, 0]),
        (&[(2, b"w")], &[]),
        (&[(2, b""), (0, b"v")], &[0]),
        (&[(2, b"w"), (1, b"v"), (0, b"v")], &[0]),
    ];
    leave(alloc, bench, tree, &rows)
}

#[test]
fn what_repeats_the_parent_goes(rt: HostRuntime) -> Result<(), Fail> {
    let tree = grown(rt.alloc(), true, 3)?;
    let mut bench = make_bench(rt.alloc(), &[])?;
    assert!(rt; leave_living(rt.alloc(), &mut bench, &tree)?);
    Ok(())
}

#[test]
fn what_is_at_a_dropped_version_goes(rt: HostRuntime) -> Result<(), Fail> {
    let mut tree = grown(rt.alloc(), true, 3)?;
    let mut bench = make_bench(rt.alloc(), &[])?;
    assert!(rt; drops(&mut tree, 2) && leave_dropped(rt.alloc(), &mut bench, &tree)?);
    Ok(())
}
