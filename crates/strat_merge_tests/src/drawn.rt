//! Drawn runs, merged and compared with a plain look at all runs.

ghost use Rattle.std.specs.Prelude.{◌≡◌, ◌<◌, ◌≤◌, OnOk};
ghost use Rattle.strat_merge.specs.MergerFields.{IsUnspent};

use crate::groups::{Bench, gives, gone, make_bench, put};
use crate::list_run::ListRun;
use std::alloc::Global;
use std::process::Abort;
use std::test::Fail;
use strat_arena::Arena;
use strat_base::{Entry, NoMemory, Trouble, Version};
use strat_disk::Disk;
use strat_merge::{GroupBuf, Merger, Run};

/// The keys, in order.
const KEYS: [&[u8]; 6] = [b"a", b"ab", b"abc", b"b", b"ba", b"c"];

/// The values: each run has its own.
const VALUES: [&[u8]; 7] = [b"", b"1", b"22", b"333", b"4444", b"55555", b"666666"];

/// How many versions there are.
const VERSIONS: Version = 8;

/// What a run has of a key at a version. Every fourth run is empty, and the others have about one entry
/// in three, some of which are marks.
fn drawn(seed: u32, run: u32, key: u32, version: Version) -> Option<Entry<'static>> {
    let mixed = seed
        .wrapping_mul(2_654_435_761)
        .wrapping_add(run)
        .wrapping_mul(2_246_822_519)
        .wrapping_add(key)
        .wrapping_mul(3_266_489_917)
        .wrapping_add(version)
        .wrapping_mul(668_265_263);
    if seed.wrapping_add(run) % 4 == 3 || (mixed >> 15) % 3 != 0 {
        return None;
    }
    let name = KEYS[key as usize % 6];
    if (mixed >> 20) % 4 == 0 {
        Some(gone(name, version))
    } else {
        Some(put(name, version, VALUES[run as usize % 7]))
    }
}

/// Adds what is drawn of a key to a run, the greatest version first.
fn push_key(list: &mut ListRun<'static>, seed: u32, run: u32, key: u32) -> Result<(), NoMemory> {
    for v in 0..VERSIONS {
        if let Some(entry) = drawn(seed, run, key, VERSIONS - 1 - v) {
            list.push(entry)?;
        }
    }
    Ok(())
}

/// A drawn run.
fn drawn_run(alloc: Global, seed: u32, run: u32) -> Result<ListRun<'static>, NoMemory> {
    let mut list = ListRun::new(alloc, VERSIONS, 20, usize::MAX);
    for key in 0..6 {
        push_key(&mut list, seed, run, key)?;
    }
    Ok(list)
}

/// So many drawn runs.
fn drawn_runs(alloc: Global, seed: u32, runs: u32) -> Result<Vec<ListRun<'static>>, NoMemory> {
    let mut lists = Vec::new(alloc);
    for run in 0..runs {
        lists.push(drawn_run(alloc, seed, run)?)?;
    }
    Ok(lists)
}

/// What the newest run that has a key at a version says.
fn newest(seed: u32, runs: u32, key: u32, version: Version) -> Option<Entry<'static>> {
    for run in 0..runs {
        let entry = drawn(seed, run, key, version);
        if entry.is_some() {
            return entry;
        }
    }
    None
}

/// The entries of a key's group.
fn wanted(alloc: Global, seed: u32, runs: u32, key: u32) -> Result<Vec<Entry<'static>>, NoMemory> {
    let mut entries = Vec::new(alloc);
    for v in 0..VERSIONS {
        if let Some(entry) = newest(seed, runs, key, VERSIONS - 1 - v) {
            entries.push(entry)?;
        }
    }
    Ok(entries)
}

/// How many entries a run has of a key.
fn count_in(seed: u32, run: u32, key: u32) -> u64 {
    let mut n: u64 = 0;
    for v in 0..VERSIONS {
        n = n.wrapping_add(drawn(seed, run, key, v).is_some() as u64);
    }
    n
}

/// How many entries all runs have of a key.
fn count_of(seed: u32, runs: u32, key: u32) -> u64 {
    let mut n: u64 = 0;
    for run in 0..runs {
        n = n.wrapping_add(count_in(seed, run, key));
    }
    n
}

/// Whether a merger gives a group of these entries next, unless there are none.
fn gives_if_any<D: Disk, R: Run<D>>(
    merger: &mut Merger<R>,
    disk: &mut D,
    arena: &mut Arena,
    group: &mut GroupBuf,
    entries: &[Entry<'_>],
    consumed: u64,
) -> Result<bool, Trouble>
    requires kept { IsUnspent R.view merger.old }
    ensures kept { OnOk result (IsUnspent R.view merger.new) }
{
    if entries.is_empty() {
        return Ok(true);
    }
    gives(merger, disk, arena, group, entries, consumed)
}

/// Whether a merger gives the groups of all keys, and then nothing.
fn gives_all<D: Disk, R: Run<D>>(
    alloc: Global,
    seed: u32,
    runs: u32,
    merger: &mut Merger<R>,
    disk: &mut D,
    arena: &mut Arena,
    group: &mut GroupBuf,
) -> Result<bool, Trouble>
    requires kept { IsUnspent R.view merger.old }
{
    let mut consumed: u64 = 0;
    for key in 0..6 {
        consumed = consumed.wrapping_add(count_of(seed, runs, key));
        let entries = wanted(alloc, seed, runs, key)?;
        if !gives_if_any(merger, disk, arena, group, &entries, consumed)? {
            return Ok(false);
        }
    }
    gives(merger, disk, arena, group, &[], consumed)
}

/// Whether a merge of so many drawn runs gives what a look at all of them gives.
fn merges(alloc: Global, seed: u32, runs: u32, bench: &mut Bench) -> Result<bool, Trouble> {
    let mut merger = Merger::new(alloc, drawn_runs(alloc, seed, runs)?)?;
    gives_all(
        alloc,
        seed,
        runs,
        &mut merger,
        &mut bench.disk,
        &mut bench.arena,
        &mut bench.group,
    )
}

/// Whether merges of so many runs do, with several seeds.
fn merges_each(alloc: Global, runs: u32, bench: &mut Bench) -> Result<bool, Trouble> {
    for seed in 0..12 {
        if !merges(alloc, seed, runs, bench)? {
            return Ok(false);
        }
    }
    Ok(true)
}

#[test]
fn drawn_runs_are_merged_as_a_plain_look_says(rt: HostRuntime) -> Result<(), Fail> {
    let mut bench = make_bench(rt.alloc(), &[])?;
    for runs in 2..8 {
        let merged = merges_each(rt.alloc(), runs, &mut bench)?;
        assert!(rt; merged);
    }
    Ok(())
}

#[test]
fn one_run_gives_its_own_entries(rt: HostRuntime) -> Result<(), Fail> {
    let mut bench = make_bench(rt.alloc(), &[])?;
    assert!(rt; merges_each(rt.alloc(), 1, &mut bench)?);
    Ok(())
}

#[test]
fn no_runs_give_no_group(rt: HostRuntime) -> Result<(), Fail> {
    let mut bench = make_bench(rt.alloc(), &[])?;
    assert!(rt; merges_each(rt.alloc(), 0, &mut bench)? && bench.disk.calls() == 0);
    Ok(())
}
