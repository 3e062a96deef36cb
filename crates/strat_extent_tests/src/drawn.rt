//! Drawn calls, compared with a plain list of 64 blocks.

ghost use Rattle.std.specs.Prelude.{◌<◌, ◌≤◌, length, OnOk};
ghost use Rattle.strat_extent_tests.specs.Held.{AreHeld};

use std::alloc::Global;
use std::process::Abort;
use std::test::Fail;
use strat_base::{Extent, Extents, NoMemory};
use strat_extent::Space;

/// The first block that may be taken.
const FIRST: u32 = 7;

/// The lowest block that is not used, or the number of blocks.
fn first_free(used: &[bool]) -> usize
    ensures { result ≤ length used.now }
{
    for b in 0..used.len() {
        if !used[b] {
            return b;
        }
    }
    used.len()
}

/// Makes the blocks of a run used, as long as each is the lowest that isn't, and tells whether all were.
fn takes_run(used: &mut [bool], run: &Extent) -> bool {
    for i in 0..run.len {
        let b = first_free(used);
        if b >= used.len() || b as u64 != run.start as u64 + i as u64 {
            return false;
        }
        used[b] = true;
    }
    true
}

/// The same of runs.
fn takes_runs(used: &mut [bool], runs: &[Extent]) -> bool {
    for run in runs {
        if !takes_run(used, run) {
            return false;
        }
    }
    true
}

/// Sets the blocks of a run, as far as the list has them.
fn set_run(used: &mut [bool], run: &Extent, value: bool) {
    for i in 0..run.len {
        let b = run.start as usize + i as usize;
        if b < used.len() {
            used[b] = value;
        }
    }
}

/// The same of runs.
fn set_runs(used: &mut [bool], runs: &[Extent], value: bool) {
    for run in runs {
        set_run(used, run, value);
    }
}

/// Whether the list has the blocks of a run, none of them used.
fn is_free_run(used: &[bool], run: &Extent) -> bool {
    for i in 0..run.len {
        let b = run.start as usize + i as usize;
        if b >= used.len() || used[b] {
            return false;
        }
    }
    true
}

/// One past the last block that is used, or the first block.
fn end_in(used: &[bool]) -> usize {
    let mut end = FIRST as usize;
    for b in 0..used.len() {
        if used[b] && b >= end {
            end = b + 1;
        }
    }
    end
}

/// How many blocks of the list are free.
fn free_in(used: &[bool]) -> usize
    ensures { result ≤ length used.now }
{
    let mut count = 0;
    for b in 0..used.len() {
        if !used[b] {
            count += 1;
        }
    }
    count
}

/// Takes n blocks, where the list has as many.
fn take_some(
    space: &mut Space,
    parts: &mut Vec<Extents>,
    used: &mut [bool],
    n: u32,
) -> Result<bool, NoMemory>
    requires kept { AreHeld space.old parts.old.items }
    ensures kept { OnOk result (AreHeld space.new parts.new.items) }
{
    if n == 0 || n > space.free() || n as usize > free_in(used) {
        return Ok(true);
    }
    let part = space.take(n)?;
    let alike = takes_runs(used, part.as_slice());
    parts.push(part)?;
    Ok(alike)
}

/// Gives a part back.
fn give_some(space: &mut Space, parts: &mut Vec<Extents>, used: &mut [bool], i: usize)
    requires kept { AreHeld space.old parts.old.items }
    requires fits { i < length parts.old.items }
    ensures kept { AreHeld space.new parts.new.items }
{
    let part = parts.remove(i);
    set_runs(used, part.as_slice(), false);
    space.give(&part);
}

/// Marks a run, and tells whether the answer is that of the list.
fn mark_some(
    alloc: Global,
    space: &mut Space,
    parts: &mut Vec<Extents>,
    used: &mut [bool],
    run: Extent,
) -> Result<bool, NoMemory>
    requires kept { AreHeld space.old parts.old.items }
    ensures kept { OnOk result (AreHeld space.new parts.new.items) }
{
    let mut part = Extents::new(alloc);
    match part.push(run) {
        Ok(()) => {}
        Err((failed, _)) => return Err(failed),
    }
    let wanted = is_free_run(used, &run);
    let marked = space.mark(&part)?;
    if marked {
        set_run(used, &run, true);
        parts.push(part)?;
    }
    Ok(marked == wanted)
}

/// One drawn call. Marks end below the list's end, so that the list can say which are free.
fn step(
    alloc: Global,
    space: &mut Space,
    parts: &mut Vec<Extents>,
    used: &mut [bool],
    mixed: u32,
) -> Result<bool, NoMemory>
    requires kept { AreHeld space.old parts.old.items }
    ensures kept { OnOk result (AreHeld space.new parts.new.items) }
{
    let rest = mixed / 8;
    match mixed % 8 {
        0 | 1 | 2 => take_some(space, parts, used, rest % 9),
        3 | 4 => {
            let run = Extent {
                start: rest % 56,
                len: (rest / 56) % 8,
            };
            mark_some(alloc, space, parts, used, run)
        }
        _ => {
            let i = rest as usize;
            if parts.len() > 0 {
                give_some(space, parts, used, i % parts.len());
            }
            Ok(true)
        }
    }
}

/// Makes so many drawn calls, and tells how many of them went as the list says.
fn drawn(alloc: Global, used: &mut [bool], count: u32) -> Result<u32, NoMemory> {
    let mut space = Space::new(alloc, FIRST);
    let mut parts = Vec::new(alloc);
    let mut alike = 0;
    for n in 0..count {
        let mixed = n.wrapping_mul(2_654_435_761) >> 9;
        if step(alloc, &mut space, &mut parts, used, mixed)?
            && space.end() as usize == end_in(used)
        {
            alike += 1;
        }
    }
    Ok(alike)
}

#[test]
fn drawn_calls_go_as_in_a_list(rt: HostRuntime) -> Result<(), Fail> {
    let mut used = [false; 64];
    for b in 0..FIRST as usize {
        used[b] = true;
    }
    assert!(rt; drawn(rt.alloc(), &mut used, 2000)? == 2000);
    Ok(())
}
