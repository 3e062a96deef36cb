//! Entries pushed into the arrays that a promotion writes.

ghost use Rattle.std.specs.List.{list_all, slice_get};
ghost use Rattle.std.specs.Prelude.{◌≡◌, ◌<◌, ◌≤◌, ◌⊎◌, ◌++◌, ◌∷◌, ◌+◌, [], ℕ, List, length, Some, slice_set, OnOk, OnErr, IfOk, IsErrOf, IsTrue, MatchResult};
ghost use Rattle.strat_arena.specs.Items.{entries_of, have_pairs};
ghost use Rattle.strat_array.specs.Progress.{ArrayProgress};
ghost use Rattle.strat_array.specs.Pushed.{IsEndOf, IsPushed, with_entry};
ghost use Rattle.strat_array.specs.Taking.{AreUsed};
ghost use Rattle.strat_base.specs.Entries.{Entry as KeyEntry, is_ascending};
ghost use Rattle.strat_base.specs.EntryBytes.{fits_fields};
ghost use Rattle.strat_base.specs.EntryView.{entry_of};
ghost use Rattle.def_crash.specs.Blocks.{TearsBlocks};
ghost use Rattle.def_crash.specs.Image.{Image};
ghost use Rattle.def_crash.specs.Moments.{Exposes};
ghost use Rattle.strat_extent.specs.Blocks.{is_free, used_count};
ghost use Rattle.def_bytes.specs.Arrays.{blocks_of};
ghost use Rattle.strat_promote.specs.Obstacles.{MeetsObstacle};
ghost use Rattle.strat_promote.specs.Spaces.{HasFewFree, TakesMore, PushesPart};
ghost use Rattle.strat_promote.specs.declared.obstacle.Obstacle.TheVariants as obstacle;

use crate::obstacle::{Obstacle, Unfit};
use strat_arena::{Arena, Item};
use strat_array::ArrayWriter;
use strat_base::Entry;
use strat_base::limits::ENTRIES_MAX;
use strat_disk::Disk;
use strat_extent::Space;

/// Whether an array of so many entries may have one more, where so many blocks are free: no store comes so far that it may
/// not.
fn check_array_room(count: u32, free: u32) -> Result<(), Unfit>
    ensures ok { OnOk result ((count < 33554432) × (0 < free)) }
    ensures cause { OnErr result ((33554432 ≤ count) ⊎ (free ≡ 0)) }
{
    if count >= ENTRIES_MAX || free == 0 {
        return Err(Unfit);
    }
    Ok(())
}

/// Adds an entry to an array. `Unfit`: the array has as many entries as any may have, or no block is free.
fn push_one<D: Disk>(
    writer: &mut ArrayWriter,
    e: &Entry<'_>,
    space: &mut Space,
    disk: &mut D,
) -> Result<(), Obstacle>
    requires fits { IsTrue (fits_fields (entry_of e.now)) }
    requires kept { IsTrue (is_ascending (writer.old.pending ++ entry_of e.now ∷ [])) }
    requires found { AreUsed space.old (blocks_of writer.old.extents) }
    ensures ok { OnOk result ((f g : Image) (es : List KeyEntry) → Exposes (D.view disk.old) f
        → Exposes (D.view disk.new) g → IsPushed f writer.old es
        → IsPushed g writer.new (es ++ entry_of e.now ∷ [])) }
    ensures state { OnOk result (
        writer.new.pending ≡ with_entry writer.old.pending (entry_of e.now)) }
    ensures len { OnOk result (writer.new.count ≡ writer.old.count + 1) }
    ensures fits { IsErrOf result obstacle.Unfit
        → (33554432 ≤ writer.old.count) ⊎ HasFewFree space.old 0 }
    ensures used { used_count space.new ≤ used_count space.old + 1 }
    ensures room { TakesMore space.old space.new writer.old.extents writer.new.extents }
    ensures same { TearsBlocks (is_free space.old) (D.view disk.old) (D.view disk.new)
        × (writer.new.id ≡ writer.old.id) }
    ensures cause { MatchResult result (λ _. D.faults disk.new ≡ D.faults disk.old)
        (λ e. MeetsObstacle e (D.faults disk.old) (D.faults disk.new)) }
    ensures reads { D.reads disk.new ≡ D.reads disk.old }
{
    check_array_room(writer.count(), space.free())?;
    writer.push(e, space, disk)?;
    Ok(())
}

/// Adds the entries of items of one key to an array.
fn push_all<D: Disk>(
    writer: &mut ArrayWriter,
    arena: &Arena,
    items: &[Item],
    space: &mut Space,
    disk: &mut D,
) -> Result<(), Obstacle>
    requires room { IsTrue (have_pairs arena.now.pairs items.now) }
    requires fits { IsTrue (list_all fits_fields (entries_of arena.now.pairs items.now)) }
    requires kept { IsTrue
        (is_ascending (writer.old.pending ++ entries_of arena.now.pairs items.now)) }
    requires found { AreUsed space.old (blocks_of writer.old.extents) }
    ensures ok { OnOk result ((f g : Image) (es : List KeyEntry) → Exposes (D.view disk.old) f
        → Exposes (D.view disk.new) g → IsPushed f writer.old es
        → IsPushed g writer.new (es ++ entries_of arena.now.pairs items.now)) }
    ensures end { OnOk result (IsEndOf writer.new.pending
        (writer.old.pending ++ entries_of arena.now.pairs items.now)) }
    ensures fits { IsErrOf result obstacle.Unfit
        → (33554432 ≤ writer.old.count + length items.now)
        ⊎ HasFewFree space.old (length items.now) }
    ensures used { used_count space.new ≤ used_count space.old + length items.now }
    ensures room { TakesMore space.old space.new writer.old.extents writer.new.extents }
    ensures same { TearsBlocks (is_free space.old) (D.view disk.old) (D.view disk.new)
        × (writer.new.id ≡ writer.old.id) }
    ensures cause { MatchResult result (λ _. D.faults disk.new ≡ D.faults disk.old)
        (λ e. MeetsObstacle e (D.faults disk.old) (D.faults disk.new)) }
    ensures reads { D.reads disk.new ≡ D.reads disk.old }
{
    for item in items {
        push_one(writer, &arena.entry(*item), space, disk)?;
    }
    Ok(())
}

/// Adds the entries of items of one key to one of the arrays.
pub(crate) fn push_part<D: Disk>(
    writers: &mut Vec<ArrayWriter>,
    part: u32,
    arena: &Arena,
    items: &[Item],
    space: &mut Space,
    disk: &mut D,
) -> Result<(), Obstacle>
    requires len { part < length writers.old.items }
    requires room { IsTrue (have_pairs arena.now.pairs items.now) }
    requires fits { IsTrue (list_all fits_fields (entries_of arena.now.pairs items.now)) }
    requires kept { (w : ArrayProgress) → slice_get writers.old.items part ≡ Some w → IsTrue
        (is_ascending (w.pending ++ entries_of arena.now.pairs items.now)) }
    requires found { (w : ArrayProgress) → slice_get writers.old.items part ≡ Some w
        → AreUsed space.old (blocks_of w.extents) }
    ensures ok { PushesPart (D.view disk.old) (D.view disk.new) space.old space.new
        writers.old.items writers.new.items part (entries_of arena.now.pairs items.now) result }
    ensures fits { IsErrOf result obstacle.Unfit → (w : ArrayProgress)
        → slice_get writers.old.items part ≡ Some w → (33554432 ≤ w.count + length items.now)
        ⊎ HasFewFree space.old (length items.now) }
    ensures used { used_count space.new ≤ used_count space.old + length items.now }
    ensures same { TearsBlocks (is_free space.old) (D.view disk.old) (D.view disk.new) }
    ensures cause { MatchResult result (λ _. D.faults disk.new ≡ D.faults disk.old)
        (λ e. MeetsObstacle e (D.faults disk.old) (D.faults disk.new)) }
    ensures reads { D.reads disk.new ≡ D.reads disk.old }
{
    push_all(&mut writers[part as usize], arena, items, space, disk)
}
