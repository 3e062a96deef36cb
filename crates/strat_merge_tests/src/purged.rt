//! Groups that are purged: worked ones, and drawn ones against walks from parent to parent.

ghost use Rattle.std.specs.Prelude.{◌≡◌, ◌<◌, ◌≤◌, length, IfOk, OnOk, IsTrue};
ghost use Rattle.strat_live.specs.Counting.{are_below};
ghost use Rattle.strat_live.specs.Group.{is_descending};
ghost use Rattle.strat_merge.specs.MergerFields.{IsUnspent};

use crate::groups::{Bench, gone, make_bench, next, put};
use crate::list_run::ListRun;
use std::alloc::Global;
use std::process::Abort;
use std::test::Fail;
use strat_arena::{Arena, Item};
use strat_base::{NoMemory, Trouble, Version};
use strat_disk::Disk;
use strat_merge::{GroupBuf, Merger, Run, purge};
use strat_tree::Tree;

/// A version with an item of the key, and whether the item is a mark.
type Said = (Version, bool);

/// A run of a key's items, the greatest version first.
fn run_of(alloc: Global, said: &[Said]) -> Result<ListRun<'static>, NoMemory> {
    let mut list = ListRun::new(alloc, 64, 20, usize::MAX);
    for (version, is_gone) in said {
        let entry = if *is_gone {
            gone(b"k", *version)
        } else {
            put(b"k", *version, b"v")
        };
        list.push(entry)?;
    }
    Ok(list)
}

/// Whether all items have versions below a number.
pub(crate) fn all_below(items: &[Item], versions: u32) -> bool
    ensures ok { result ≡ are_below versions items.now }
{
    items.iter().all(|item| item.version < versions)
}

/// Whether items have these versions.
pub(crate) fn have_versions(items: &[Item], versions: &[Version]) -> bool {
    if items.len() != versions.len() {
        return false;
    }
    for i in 0..items.len() {
        if items[i].version != versions[i] {
            return false;
        }
    }
    true
}

/// Whether a purge of the next group leaves the items of these versions.
fn next_is_purged<D: Disk, R: Run<D>>(
    merger: &mut Merger<R>,
    disk: &mut D,
    arena: &mut Arena,
    group: &mut GroupBuf,
    tree: &Tree,
    wanted: &[Version],
) -> Result<bool, Trouble>
    requires kept { IsUnspent R.view merger.old }
{
    next(merger, disk, arena, group)?;
    if !all_below(group.items(), tree.count()) {
        return Ok(false);
    }
    purge(group, tree);
    Ok(have_versions(group.items(), wanted))
}

/// Whether a purge of such items leaves those of these versions.
fn leaves(
    alloc: Global,
    bench: &mut Bench,
    tree: &Tree,
    said: &[Said],
    wanted: &[Version],
) -> Result<bool, Trouble> {
    let mut merger = Merger::new(alloc, vec![in alloc; run_of(alloc, said)?]?)?;
    next_is_purged(
        &mut merger,
        &mut bench.disk,
        &mut bench.arena,
        &mut bench.group,
        tree,
        wanted,
    )
}

/// The parent of a version.
fn parent_in(is_chain: bool, v: Version) -> Version
    requires { 1 ≤ v }
    ensures { result < v }
{
    if is_chain {
        v - 1
    } else {
        (v.wrapping_mul(2_654_435_761) >> 8) % v
    }
}

/// A chain, or a drawn tree, of so many versions.
pub(crate) fn grown(alloc: Global, is_chain: bool, versions: u32) -> Result<Tree, NoMemory>
    requires { (1 ≤ versions) × (versions ≤ 64) }
    ensures len { IfOk result (λ t. length t.parents ≡ versions) }
{
    let mut tree = Tree::new(alloc, versions)?;
    for v in 1..versions {
        tree.add_child(parent_in(is_chain, v));
    }
    Ok(tree)
}

/// Whether purges of groups in a chain of three versions leave what they should.
fn leave_rows(alloc: Global, bench: &mut Bench, tree: &Tree) -> Result<bool, Trouble> {
    let rows: [(&[Said], &[Version]); 7] = [
        // A key that was put at version 0 and is gone at its child.
        (&[(1, true), (0, false)], &[1, 0]),
        (&[(0, true)], &[]),
        (&[(1, true), (0, true)], &[]),
        (&[(2, true), (1, true), (0, false)], &[1, 0]),
        (&[(2, true), (0, false)], &[2, 0]),
        (&[(2, false), (1, true)], &[2]),
        (&[(2, true), (1, false), (0, true)], &[2, 1]),
    ];
    for (said, wanted) in rows {
        if !leaves(alloc, bench, tree, said, wanted)? {
            return Ok(false);
        }
    }
    Ok(true)
}

#[test]
fn a_mark_stays_where_its_parent_sees_a_value(rt: HostRuntime) -> Result<(), Fail> {
    let tree = grown(rt.alloc(), true, 3)?;
    let mut bench = make_bench(rt.alloc(), &[])?;
    assert!(rt; leave_rows(rt.alloc(), &mut bench, &tree)?);
    Ok(())
}

/// Whether a version has an item that is drawn, and whether that is a mark.
fn drawn(seed: u32, v: Version) -> Option<bool> {
    let mixed = seed
        .wrapping_mul(2_654_435_761)
        .wrapping_add(v)
        .wrapping_mul(2_246_822_519);
    if (mixed >> 13) % 2 == 0 {
        Some((mixed >> 19) % 5 < 3)
    } else {
        None
    }
}

/// The parent of a version, if there is such a version and it has one.
fn parent(tree: &Tree, v: Version) -> Option<Version> {
    if v < tree.count() {
        tree.parent(v)
    } else {
        None
    }
}

/// Whether a walk from a version's parent meets a value first.
fn parent_sees_value(tree: &Tree, seed: u32, v: Version) -> bool {
    let mut at = v;
    for _ in 0..tree.count() {
        let Some(p) = parent(tree, at) else {
            return false;
        };
        if let Some(is_gone) = drawn(seed, p) {
            return !is_gone;
        }
        at = p;
    }
    false
}

/// The drawn items, and the versions of those that say something by such walks.
fn draw(
    tree: &Tree,
    seed: u32,
    said: &mut Vec<Said>,
    wanted: &mut Vec<Version>,
) -> Result<(), NoMemory> {
    let versions = tree.count();
    for i in 0..versions {
        let v = versions - 1 - i;
        if let Some(is_gone) = drawn(seed, v) {
            said.push((v, is_gone))?;
            if !is_gone || parent_sees_value(tree, seed, v) {
                wanted.push(v)?;
            }
        }
    }
    Ok(())
}

/// Whether a purge of drawn items leaves what walks say.
fn agrees(alloc: Global, bench: &mut Bench, tree: &Tree, seed: u32) -> Result<bool, Trouble> {
    let mut said = Vec::new(alloc);
    let mut wanted = Vec::new(alloc);
    draw(tree, seed, &mut said, &mut wanted)?;
    leaves(alloc, bench, tree, &said, &wanted)
}

/// Whether purges with several seeds do.
fn agree(alloc: Global, bench: &mut Bench, tree: &Tree) -> Result<bool, Trouble> {
    for seed in 0..40 {
        if !agrees(alloc, bench, tree, seed)? {
            return Ok(false);
        }
    }
    Ok(true)
}

#[test]
fn drawn_groups_in_a_chain_are_purged_as_walks_say(rt: HostRuntime) -> Result<(), Fail> {
    let tree = grown(rt.alloc(), true, 20)?;
    let mut bench = make_bench(rt.alloc(), &[])?;
    assert!(rt; agree(rt.alloc(), &mut bench, &tree)?);
    Ok(())
}

#[test]
fn drawn_groups_in_a_drawn_tree_are_purged_as_walks_say(rt: HostRuntime) -> Result<(), Fail> {
    let tree = grown(rt.alloc(), false, 40)?;
    let mut bench = make_bench(rt.alloc(), &[])?;
    assert!(rt; agree(rt.alloc(), &mut bench, &tree)?);
    Ok(())
}
