//! Promotions one after another, each over the levels that those before it left.

ghost use Rattle.std.specs.Prelude.{◌≡◌, ◌≤◌, ◌^◌};

use crate::ready::are_plain;
use crate::scene::{Scene, make_scene};
use crate::sliced::{Made, promote};
use std::alloc::Global;
use strat_base::limits::LEVELS;
use strat_base::{ArrayDesc, Entry, LevelDesc, NoMemory, Trouble, Version};
use strat_disk::Disk;
use strat_extent::Space;
use strat_level::{Level, Levels};

/// What is told of a promotion beside its level.
#[derive(Clone, Copy, PartialEq, Eq)]
pub(crate) struct Told {
    pub(crate) target: usize,
    pub(crate) written: u64,
    pub(crate) consumed: u64,
    pub(crate) slices: u64,
}

/// The level of a descriptor that is plain.
#[tactic(auto, using(crate::proofs::ReadyLemmas::plain_fits))]
fn level_of(alloc: Global, desc: LevelDesc) -> Result<Level, NoMemory> {
    if desc.horizon == 0 || !are_plain(&desc.arrays, desc.horizon) {
        return Err(NoMemory);
    }
    match Level::new(alloc, desc) {
        Ok(level) => Ok(level),
        Err(_) => Err(NoMemory),
    }
}

/// Puts what a promotion made in the place of the levels that it merged.
pub(crate) fn carry(alloc: Global, levels: &mut Levels, made: Made) -> Result<Told, NoMemory> {
    let told = Told {
        target: made.target,
        written: made.written,
        consumed: made.consumed,
        slices: made.slices,
    };
    let target = told.target.min(LEVELS);
    for number in 0..target {
        levels.set(number + 1, None);
    }
    if let Some(desc) = made.level {
        if 1 <= target {
            levels.set(target, Some(level_of(alloc, desc)?));
        }
    }
    Ok(told)
}

/// Marks the blocks of arrays.
fn mark_arrays(space: &mut Space, arrays: &[ArrayDesc]) -> Result<(), NoMemory> {
    for i in 0..arrays.len() {
        if !space.mark(&arrays[i].extents)? {
            return Err(NoMemory);
        }
    }
    Ok(())
}

/// A space of blocks from 7 on, of which those of the arrays of all levels are used.
pub(crate) fn space_of(alloc: Global, levels: &Levels) -> Result<Space, NoMemory> {
    let mut space = Space::new(alloc, 7);
    for number in 1..23 {
        if let Some(level) = levels.get(number) {
            mark_arrays(&mut space, level.desc().arrays.as_slice())?;
        }
    }
    Ok(space)
}

/// Promotes over levels, and puts what it made in their place.
fn promote_over<D: Disk>(
    alloc: Global,
    scene: &Scene,
    levels: &mut Levels,
    next_array: u64,
    disk: &mut D,
    budget: u64,
) -> Result<Told, Trouble>
    requires { (next_array ≤ 2 ^ 63) × (1 ≤ budget) }
{
    let mut space = space_of(alloc, levels)?;
    let made = promote(
        alloc, scene, levels, 4, next_array, &mut space, disk, budget,
    )?;
    Ok(carry(alloc, levels, made)?)
}

/// Promotes entries over levels, and puts what it made in their place.
pub(crate) fn merge_in<D: Disk>(
    alloc: Global,
    parents: &[Version],
    entries: &[Entry<'_>],
    levels: &mut Levels,
    next_array: u64,
    disk: &mut D,
    budget: u64,
) -> Result<Told, Trouble>
    requires { (next_array ≤ 2 ^ 63) × (1 ≤ budget) }
{
    let scene = make_scene(alloc, parents, entries)?;
    promote_over(alloc, &scene, levels, next_array, disk, budget)
}
