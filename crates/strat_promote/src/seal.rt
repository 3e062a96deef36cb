//! The end of a promotion: the arrays are sealed, and their level is described.

ghost use Rattle.std.specs.List.{range_with_len, slice_get};
ghost use Rattle.std.specs.Prelude.{◌≡◌, ◌≤◌, ◌+◌, ℕ, List, [], ◌∷◌, ◌++◌, length, map, replicate, slice_index_or, slice_set, Some, OnOk, OnErr, IfOk, IsErrOf, MatchResult};
ghost use Rattle.strat_array.specs.Progress.{ArrayProgress};
ghost use Rattle.strat_array.specs.Pushed.{IsPushed};
ghost use Rattle.strat_array.specs.Taking.{AreUsed, HasFreeBlock};
ghost use Rattle.strat_base.specs.Entries.{Entry as TheEntry};
ghost use Rattle.strat_base.specs.declared.descriptors.ArrayDesc.{ArrayDesc as TheDesc};
ghost use Rattle.def_crash.specs.Blocks.{TearsBlocks};
ghost use Rattle.def_crash.specs.Image.{Image};
ghost use Rattle.def_crash.specs.Moments.{Exposes};
ghost use Rattle.strat_extent.specs.Blocks.{is_free, used_count};
ghost use Rattle.def_bytes.specs.Arrays.{blocks_of, entries_on};
ghost use Rattle.def_split.specs.Plan.{members};
ghost use Rattle.strat_promote.specs.Closing.{AreAllUsed, AreSealed, all_extents, IsDescriptor, IsDescribed};
ghost use Rattle.strat_promote.specs.Obstacles.{MeetsObstacle};
ghost use Rattle.strat_promote.specs.Spaces.{HasFewFree, TakesMore};
ghost use Rattle.strat_promote.specs.declared.obstacle.Obstacle.TheVariants as obstacle;
ghost use Rattle.strat_split.specs.PlanSeen.{plan_seen};

use crate::obstacle::{Obstacle, Unfit};
use std::alloc::Global;
use std::mem::replace;
use strat_array::ArrayWriter;
use strat_base::{Arrays, LevelDesc, NoMemory, Versions};
use strat_disk::Disk;
use strat_extent::Space;
use strat_split::parts::Plan;

/// Refuses a space in which no block is free: no store that its levels describe comes so far.
fn check_free(space: &Space) -> Result<(), Unfit>
    ensures ok { OnOk result (HasFreeBlock space.now) }
    ensures cause { OnErr result (HasFewFree space.now 0) }
{
    if space.free() == 0 {
        return Err(Unfit);
    }
    Ok(())
}

/// Writes what of an array is in no block yet. `Unfit`: no block is free.
fn seal_one<D: Disk>(
    writer: &mut ArrayWriter,
    space: &mut Space,
    disk: &mut D,
) -> Result<(), Obstacle>
    requires found { AreUsed space.old (blocks_of writer.old.extents) }
    ensures ok { OnOk result ((f g : Image) (es : List TheEntry) → Exposes (D.view disk.old) f
        → Exposes (D.view disk.new) g → IsPushed f writer.old es
        → entries_on g (blocks_of writer.new.extents) ≡ Some es) }
    ensures fits { IsErrOf result obstacle.Unfit → HasFewFree space.old 0 }
    ensures used { used_count space.new ≤ used_count space.old + 1 }
    ensures room { TakesMore space.old space.new writer.old.extents writer.new.extents }
    ensures same { TearsBlocks (is_free space.old) (D.view disk.old) (D.view disk.new)
        × (writer.new.id ≡ writer.old.id) × (writer.new.count ≡ writer.old.count) }
    ensures filter { writer.new.filter ≡ writer.old.filter }
    ensures cause { MatchResult result (λ _. D.faults disk.new ≡ D.faults disk.old)
        (λ e. MeetsObstacle e (D.faults disk.old) (D.faults disk.new)) }
    ensures reads { D.reads disk.new ≡ D.reads disk.old }
{
    check_free(space)?;
    writer.seal(space, disk)?;
    Ok(())
}

/// Writes what of the arrays is in no block yet: one write for each at most.
pub(crate) fn seal_all<D: Disk>(
    writers: &mut Vec<ArrayWriter>,
    space: &mut Space,
    disk: &mut D,
) -> Result<(), Obstacle>
    requires found { AreAllUsed space.old writers.old.items }
    ensures ok { OnOk result (AreSealed (D.view disk.old) (D.view disk.new)
        writers.old.items writers.new.items) }
    ensures len { length writers.new.items ≡ length writers.old.items }
    ensures fits { IsErrOf result obstacle.Unfit
        → HasFewFree space.old (length writers.old.items) }
    ensures found { AreAllUsed space.new writers.new.items }
    ensures room { TakesMore space.old space.new
        (all_extents writers.old.items) (all_extents writers.new.items) }
    ensures same { TearsBlocks (is_free space.old) (D.view disk.old) (D.view disk.new) }
    ensures cause { MatchResult result (λ _. D.faults disk.new ≡ D.faults disk.old)
        (λ e. MeetsObstacle e (D.faults disk.old) (D.faults disk.new)) }
    ensures reads { D.reads disk.new ≡ D.reads disk.old }
{
    for i in 0..writers.len() {
        seal_one(&mut writers[i], space, disk)?;
    }
    Ok(())
}

/// So many empty lists.
fn no_tags(alloc: Global, parts: usize) -> Result<Vec<Versions>, NoMemory>
    ensures ok { IfOk result (λ tags. tags.items ≡ replicate parts []) }
{
    let mut tags = Vec::with_capacity(alloc, parts)?;
    for _ in 0..parts {
        tags.push(Versions::new(alloc))?;
    }
    Ok(tags)
}

/// Adds a version to those of a part, where there is such a part.
fn add_version(tags: &mut Vec<Versions>, part: usize, v: u32) -> Result<(), NoMemory>
    ensures ok { OnOk result (tags.new.items
        ≡ slice_set tags.old.items part (slice_index_or tags.old.items part [] ++ v ∷ [])) }
{
    if part < tags.len() {
        if let Err((failed, _)) = tags[part].push(v) {
            return Err(failed);
        }
    }
    Ok(())
}

/// The versions of each part of a plan, in ascending order. O(versions + parts).
fn tags_of(alloc: Global, plan: &Plan) -> Result<Vec<Versions>, NoMemory>
    requires fits { length plan.now.part_of ≤ 16384 }
    ensures ok { IfOk result (λ tags. tags.items
        ≡ map (members (plan_seen plan.now)) (range_with_len 0 (length plan.now.parts))) }
{
    let mut tags = no_tags(alloc, plan.parts.len())?;
    let labels = plan.part_of.as_slice();
    for v in 0..labels.len() {
        add_version(&mut tags, labels[v] as usize, v as u32)?;
    }
    Ok(tags)
}

/// The descriptors of arrays that are sealed, in the order of the parts that they are for.
fn describe_each(alloc: Global, writers: &[ArrayWriter], plan: &Plan) -> Result<Arrays, NoMemory>
    requires len { length writers.now ≡ length plan.now.parts }
    requires fits { length plan.now.part_of ≤ 16384 }
    ensures ok { IfOk result (λ arrays. (q : ℕ) (w : ArrayProgress)
        → slice_get writers.now q ≡ Some w → (a : TheDesc) × (slice_get arrays q ≡ Some a)
        × IsDescriptor (plan_seen plan.now) q w a) }
    ensures len { IfOk result (λ arrays. length arrays ≡ length writers.now) }
{
    let mut tags = tags_of(alloc, plan)?;
    let mut arrays = Arrays::new(alloc);
    for q in 0..writers.len() {
        let tag = replace(&mut tags[q], Versions::new(alloc));
        let part = plan.parts.get(q);
        let desc = writers[q].describe(part.leads, part.least, tag)?;
        if let Err((failed, _)) = arrays.push(desc) {
            return Err(failed);
        }
    }
    Ok(arrays)
}

/// The level of arrays that are sealed, or `None` where there are none. O(versions + arrays + extents).
pub(crate) fn describe_all(
    alloc: Global,
    writers: &[ArrayWriter],
    plan: &Plan,
    number: u8,
) -> Result<Option<LevelDesc>, NoMemory>
    requires len { length writers.now ≡ length plan.now.parts }
    requires fits { length plan.now.part_of ≤ 16384 }
    ensures ok { IfOk result (λ made. IsDescribed (plan_seen plan.now) number writers.now made) }
{
    if writers.is_empty() {
        return Ok(None);
    }
    let arrays = describe_each(alloc, writers, plan)?;
    Ok(Some(LevelDesc {
        number,
        horizon: plan.part_of.len() as u32,
        arrays,
    }))
}
