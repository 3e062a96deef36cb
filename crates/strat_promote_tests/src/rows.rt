//! Promotions of level 0 alone, worked out by hand.

ghost use Rattle.std.specs.Prelude.{◌≤◌};

use crate::made::{Bench, Wanted, in_block, is_made, make_bench, make_reader};
use crate::scene::{Scene, gone, make_scene, put};
use crate::sliced::{Made, WHOLE, promote};
use std::alloc::Global;
use std::process::Abort;
use std::test::Fail;
use strat_base::{Entry, Trouble, Version};
use strat_level::Levels;

/// A promotion of level 0: the parents of version 1 and those after it, the entries, the arrays that level 1 then has,
/// and how many slices of 1 and of 7 entries it takes.
#[derive(Clone, Copy)]
struct Row<'a> {
    mem: u32,
    parents: &'a [Version],
    entries: &'a [Entry<'a>],
    arrays: &'a [Wanted<'a>],
    written: u64,
    slices: [u64; 2],
}

/// Whether level 1 is as it should be, or none where no array should be there.
fn is_right(
    alloc: Global,
    row: &Row<'_>,
    bench: &mut Bench,
    made: &Made,
    horizon: Version,
) -> Result<bool, Trouble> {
    if row.arrays.is_empty() {
        return Ok(made.level.is_none() && made.target == 1 && bench.disk.calls() == 0);
    }
    let mut reader = make_reader(alloc)?;
    let disk = &mut bench.disk;
    Ok(is_made(disk, made, &mut reader, 1, horizon, row.arrays))
}

/// Whether a promotion with a budget makes the level, in so many slices.
fn promotes(
    alloc: Global,
    row: &Row<'_>,
    scene: &Scene,
    budget: u64,
    slices: u64,
) -> Result<bool, Trouble>
    requires { 1 ≤ budget }
{
    let mut bench = make_bench(alloc)?;
    let disk = &mut bench.disk;
    let levels = Levels::new();
    let space = &mut bench.space;
    let made = promote(alloc, scene, &levels, row.mem, 1, space, disk, budget)?;
    Ok(
        made.written == row.written
            && made.consumed == (row.entries.len() as u64).wrapping_mul(2)
            && made.slices == slices
            && is_right(alloc, row, &mut bench, &made, scene.tree.count())?,
    )
}

/// Whether promotions with three budgets do.
fn promotes_each(alloc: Global, row: &Row<'_>) -> Result<bool, Trouble> {
    let scene = make_scene(alloc, row.parents, row.entries)?;
    let [ones, sevens] = row.slices;
    Ok(
        promotes(alloc, row, &scene, 1, ones)?
            && promotes(alloc, row, &scene, 7, sevens)?
            && promotes(alloc, row, &scene, WHOLE, 1)?,
    )
}

#[test]
fn a_version_without_keys_is_in_no_array(rt: HostRuntime) -> Result<(), Fail> {
    let a = [put(b"a", 1, b"1")];
    let row = Row {
        mem: 4,
        parents: &[0, 1, 2],
        entries: &a,
        arrays: &[in_block(1, 1, 1, 7, &[1, 2, 3], &a)],
        written: 1,
        slices: [2, 1],
    };
    assert!(rt; promotes_each(rt.alloc(), &row)?);
    Ok(())
}

#[test]
fn children_share_what_lies_above_them(rt: HostRuntime) -> Result<(), Fail> {
    let (a, b) = (put(b"a", 0, b"1"), put(b"b", 0, b""));
    let (c, d, e) = (put(b"c", 1, b"3"), put(b"c", 2, b"4"), put(b"c", 3, b"5"));
    let (first, second) = ([a, b, c], [a, b, e, d]);
    let row = Row {
        mem: 8,
        parents: &[0, 0, 0],
        entries: &[a, b, c, d, e],
        arrays: &[
            in_block(1, 3, 2, 7, &[0, 1], &first),
            in_block(2, 2, 3, 8, &[2, 3], &second),
        ],
        written: 7,
        slices: [6, 2],
    };
    assert!(rt; promotes_each(rt.alloc(), &row)?);
    Ok(())
}

#[test]
fn a_mark_stays_where_its_parent_sees_a_value(rt: HostRuntime) -> Result<(), Fail> {
    let (a, mark) = (put(b"a", 0, b"1"), gone(b"a", 1));
    let (first, second) = ([a], [mark, a]);
    let row = Row {
        mem: 4,
        parents: &[0, 1],
        entries: &[a, mark],
        arrays: &[
            in_block(1, 1, 1, 7, &[0], &first),
            in_block(2, 1, 1, 8, &[1, 2], &second),
        ],
        written: 3,
        slices: [2, 1],
    };
    assert!(rt; promotes_each(rt.alloc(), &row)?);
    Ok(())
}

#[test]
fn a_mark_at_version_0_is_purged(rt: HostRuntime) -> Result<(), Fail> {
    let (a, b, c) = (put(b"a", 0, b"1"), put(b"b", 0, b"2"), put(b"c", 0, b"3"));
    let kept = [a, b, c];
    let row = Row {
        mem: 4,
        parents: &[],
        entries: &[gone(b"x", 0), a, b, c],
        arrays: &[in_block(1, 3, 3, 7, &[0], &kept)],
        written: 3,
        slices: [8, 2],
    };
    assert!(rt; promotes_each(rt.alloc(), &row)?);
    Ok(())
}

#[test]
fn no_level_is_made_where_all_is_purged(rt: HostRuntime) -> Result<(), Fail> {
    let row = Row {
        mem: 4,
        parents: &[0],
        entries: &[gone(b"x", 0), gone(b"x", 1), gone(b"y", 1)],
        arrays: &[],
        written: 0,
        slices: [4, 1],
    };
    assert!(rt; promotes_each(rt.alloc(), &row)?);
    Ok(())
}
