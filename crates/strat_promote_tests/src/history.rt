//! Histories of version 0: each four puts are promoted over the levels that are there.

ghost use Rattle.std.specs.Prelude.{◌≤◌};

use crate::levels::merge_in;
use crate::made::{Wanted, has_array, in_block, make_reader};
use crate::scene::{gone, put};
use crate::sliced::WHOLE;
use std::alloc::Global;
use std::process::Abort;
use std::test::Fail;
use strat_base::{Entry, Trouble};
use strat_disk::MemDisk;
use strat_level::Levels;

/// What becomes of three promotions, one after the other: the levels that they fill, the entries that they write and
/// take, and how often the disk is read by then.
#[derive(Clone, Copy)]
struct History {
    filled: [usize; 3],
    written: [u64; 3],
    consumed: [u64; 3],
    reads: u64,
}

/// Whether a batch is promoted as it should be.
fn promotes_batch(
    alloc: Global,
    history: &History,
    n: usize,
    entries: &[Entry<'_>],
    levels: &mut Levels,
    disk: &mut MemDisk,
    budget: u64,
) -> Result<bool, Trouble>
    requires { (n ≤ 2) × (1 ≤ budget) }
{
    let told = merge_in(alloc, &[], entries, levels, n as u64 + 1, disk, budget)?;
    Ok(
        told.target == history.filled[n]
            && told.written == history.written[n]
            && told.consumed == history.consumed[n],
    )
}

/// Whether the level of a number has this array alone, and all above it are empty.
fn ends_right(
    alloc: Global,
    number: usize,
    array: &Wanted<'_>,
    levels: &Levels,
    disk: &mut MemDisk,
) -> Result<bool, Trouble> {
    let mut reader = make_reader(alloc)?;
    let emptied = (1..number).all(|above| levels.get(above).is_none());
    match levels.get(number) {
        Some(level) => Ok(emptied && has_array(disk, level.desc(), &mut reader, array)),
        None => Ok(false),
    }
}

/// Whether three batches with a budget come to this array in the level that the last fills.
fn comes_right(
    alloc: Global,
    history: &History,
    first: &[Entry<'_>],
    second: &[Entry<'_>],
    third: &[Entry<'_>],
    array: &Wanted<'_>,
    budget: u64,
) -> Result<bool, Trouble>
    requires { 1 ≤ budget }
{
    let mut disk = MemDisk::new(alloc, &[])?;
    let mut levels = Levels::new();
    let to = &mut levels;
    let on = &mut disk;
    Ok(
        promotes_batch(alloc, history, 0, first, to, on, budget)?
            && promotes_batch(alloc, history, 1, second, to, on, budget)?
            && promotes_batch(alloc, history, 2, third, to, on, budget)?
            && on.reads() == history.reads
            && ends_right(alloc, history.filled[2], array, to, on)?,
    )
}

/// Whether they do with each of three budgets.
fn comes_right_each(
    alloc: Global,
    history: &History,
    first: &[Entry<'_>],
    second: &[Entry<'_>],
    third: &[Entry<'_>],
    array: &Wanted<'_>,
) -> Result<bool, Trouble> {
    Ok(
        comes_right(alloc, history, first, second, third, array, 1)?
            && comes_right(alloc, history, first, second, third, array, 7)?
            && comes_right(alloc, history, first, second, third, array, WHOLE)?,
    )
}

#[test]
fn level_2_is_filled_where_level_1_has_no_room(rt: HostRuntime) -> Result<(), Fail> {
    let all = [
        put(b"k01", 0, b"1"),
        put(b"k02", 0, b"2"),
        put(b"k03", 0, b"3"),
        put(b"k04", 0, b"4"),
        put(b"k05", 0, b"5"),
        put(b"k06", 0, b"6"),
        put(b"k07", 0, b"7"),
        put(b"k08", 0, b"8"),
        put(b"k09", 0, b"9"),
        put(b"k10", 0, b"10"),
        put(b"k11", 0, b"11"),
        put(b"k12", 0, b"12"),
    ];
    let array = in_block(3, 12, 12, 7, &[0], &all);
    let history = History {
        filled: [1, 1, 2],
        written: [4, 8, 12],
        consumed: [8, 16, 24],
        reads: 4,
    };
    assert!(rt;
        comes_right_each(
            rt.alloc(),
            &history,
            &all[..4],
            &all[4..8],
            &all[8..],
            &array
        )?
    );
    Ok(())
}

#[test]
fn the_newest_value_of_a_key_stays(rt: HostRuntime) -> Result<(), Fail> {
    let values = [
        [put(b"a", 0, b"1")],
        [put(b"a", 0, b"22")],
        [put(b"a", 0, b"333")],
    ];
    let array = in_block(3, 1, 1, 7, &[0], &values[2]);
    let history = History {
        filled: [1, 1, 1],
        written: [1, 1, 1],
        consumed: [2, 4, 4],
        reads: 4,
    };
    assert!(rt;
        comes_right_each(
            rt.alloc(),
            &history,
            &values[0],
            &values[1],
            &values[2],
            &array
        )?
    );
    Ok(())
}

#[test]
fn marks_stay_where_a_level_lies_deeper(rt: HostRuntime) -> Result<(), Fail> {
    let all = [
        put(b"k01", 0, b"1"),
        put(b"k02", 0, b"2"),
        put(b"k03", 0, b"3"),
        put(b"k04", 0, b"4"),
        put(b"k05", 0, b"5"),
        put(b"k06", 0, b"6"),
        put(b"k07", 0, b"7"),
        put(b"k08", 0, b"8"),
        put(b"k09", 0, b"9"),
    ];
    let marks = [gone(b"k01", 0), gone(b"k02", 0)];
    let array = in_block(3, 2, 2, 9, &[0], &marks);
    let history = History {
        filled: [2, 1, 1],
        written: [9, 1, 2],
        consumed: [18, 2, 4],
        reads: 2,
    };
    assert!(rt; comes_right_each(rt.alloc(), &history, &all, &marks[..1], &marks[1..], &array)?);
    Ok(())
}
