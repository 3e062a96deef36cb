//! The writes of a checkpoint: the next contents of a store take the place of those that stand on its disk.

ghost use Rattle.std.specs.Prelude.{IsTrue, ◌≡◌, ◌≤◌, ◌<◌, ◌+◌, ◌-◌, ◌^◌, ℕ, List, [], ◌∷◌, ◌++◌, Option, length, IsSome, IfOk, OnOk, OnErr, IsErrOf, ◌⊎◌};
ghost use Rattle.strat_base.specs.declared.descriptors.Extent.{Extent as TheExtent};
ghost use Rattle.strat_base.specs.declared.descriptors.LevelDesc.{LevelDesc as TheLevel};
ghost use Rattle.def_crash.specs.Blocks.{TearsBlocks};
ghost use Rattle.def_crash.specs.Faults.{CountsFaults, HasCause};
ghost use Rattle.def_crash.specs.Image.{Image};
ghost use Rattle.def_crash.specs.Moments.{Exposes, Since, Passes, OnlyReads, IsDurable};
ghost use Rattle.def_crash.specs.Trail.{Trail};
ghost use Rattle.strat_extent.specs.Blocks.{is_free, used_count};
ghost use Rattle.strat_extent.specs.Change.{IsMarked, SameBlocks, AreLowest};
ghost use Rattle.def_bytes.specs.Arrays.{blocks_of};
ghost use Rattle.def_bytes.specs.Manifest.{is_lawful_manifest, manifest_bytes};
ghost use Rattle.def_bytes.specs.SuperBlock.{IsLawful};
ghost use Rattle.strat_gate.specs.SuperView.{super_of};
ghost use Rattle.strat_journal.specs.Log.{region_turned};
ghost use Rattle.strat_manifest.specs.ManifestView.{manifest_of};
ghost use Rattle.strat_promote.specs.Spaces.{HasFewFree};
ghost use Rattle.strat_promote.specs.declared.obstacle.Obstacle.TheVariants as obstacle;
ghost use Rattle.strat_promote.specs.declared.obstacle.Obstacle.TheVariants.{NoMemory, Device, Damaged};
ghost use Rattle.def_meaning.specs.StateTable.{table_of};
ghost use Rattle.def_publish.specs.Appending.{IsLogOf};
ghost use Rattle.def_publish.specs.Contents.{Contents, contents_state};
ghost use Rattle.def_publish.specs.Next.{IsNextOf, HasManifest, arrays_made};
ghost use Rattle.def_publish.specs.Occupied.{IsSpaceOf, extents_of, arrays_in};
ghost use Rattle.def_publish.specs.Standing.{ReadsAs, ShowsTable, ContentsStand};
ghost use Rattle.def_state.specs.State.{IsPaid};
ghost use Rattle.strat_memory.specs.Paying.{ArePaidSince};
ghost use Rattle.strat_publish.specs.Publishing.{IsComputed, IsWrittenTo, LaysSuperblock, is_in_front};
ghost use Rattle.def_bytes.specs.Layout.{newest_format};

use def_bytes::NEWEST_FORMAT;
use std::alloc::Global;
use strat_base::{Extents, Failed};
use strat_disk::Disk;
use strat_extent::Space;
use strat_gate::{SuperBlock, lay};
use strat_journal::Journal;
use strat_manifest::{Manifest, write};
use strat_promote::obstacle::{Obstacle, Unfit};

/// Most blocks of a manifest's chain.
const CHAIN_MOST: u32 = 1 << 20;

/// Refuses a space with fewer free blocks than a manifest's chain may take: no store comes so far.
fn check_chain_room(space: &Space) -> Result<(), Unfit>
    ensures ok { OnOk result (used_count space.now + 1048576 ≤ 4294967295 - space.now.first) }
    ensures cause { OnErr result (HasFewFree space.now (2 ^ 20)) }
{
    if space.free() < CHAIN_MOST {
        return Err(Unfit);
    }
    Ok(())
}

/// Writes the next manifest into the lowest free blocks, and gives its first block, its length in bytes and its blocks: one
/// write a block, and no sync. It takes all memory before the first write. After an error the blocks that were taken are
/// free again. `Unfit`: too few blocks are free.
pub(crate) fn write_next<D: Disk>(
    alloc: Global,
    disk: &mut D,
    space: &mut Space,
    m: &Manifest,
) -> Result<(u32, u32, Extents), Obstacle>
    requires fits { IsTrue (is_lawful_manifest newest_format (manifest_of m.now))
        × (length (manifest_bytes newest_format (manifest_of m.now)) ≤ 4290772992)
        × (1 ≤ space.old.first) }
    ensures ok { IfOk result (λ r. IsSome (D.view disk.old).content → (g : Image)
        → Exposes (D.view disk.new) g → (new : Contents)
        → IsWrittenTo r.0 r.1 r.2 (manifest_of m.now) new → HasManifest g new) }
    ensures found { IfOk result (λ r. IsMarked space.old r.2 space.new
        × AreLowest r.2 space.new) }
    ensures kept { IfOk result (λ r. (old new : Contents) (made : Option TheLevel)
        (taken kept : List TheLevel) (gone others : List TheExtent)
        → IsNextOf old new made taken kept → new.chained.blocks ≡ blocks_of r.2
        → blocks_of gone ≡ old.chained.blocks
        → IsSpaceOf space.old old (extents_of (arrays_made made) ++ others)
        → IsSpaceOf space.new new (gone ++ (extents_of (arrays_in taken) ++ others))) }
    ensures fits { IfOk result (λ r. (space.old.first ≤ r.0) × (r.0 < 4294967295)
        × (38 ≤ r.1)) }
    ensures images { TearsBlocks (is_free space.old) (D.view disk.old) (D.view disk.new) }
    ensures err { OnErr result (SameBlocks space.old space.new) }
    ensures none { IsErrOf result obstacle.Unfit → HasFewFree space.old (2 ^ 20) }
    ensures same { IsErrOf result NoMemory → disk.new ≡ disk.old }
    ensures cause { HasCause Device (D.faults disk.old) (D.faults disk.new) result }
    ensures damaged { (b : ℕ) → IsErrOf result (Damaged b) → ⊥ }
    ensures reads { D.reads disk.new ≡ D.reads disk.old }
{
    check_chain_room(space)?;
    let written = write(alloc, disk, space, m, NEWEST_FORMAT)?;
    Ok(written)
}

/// Makes what was written beside the contents of a disk durable, before anything leads to it: one sync.
fn sync_written<D: Disk>(disk: &mut D) -> Result<(), Failed>
    ensures ok { OnOk result (IsDurable (D.view disk.new)) }
    ensures same { OnlyReads (D.view disk.old) (D.view disk.new) }
    ensures cause { CountsFaults (D.faults disk.old) (D.faults disk.new) result }
{
    disk.sync()?;
    Ok(())
}

/// Makes contents that were computed those of the disk: what was written becomes durable, their superblock is laid, and
/// the journal goes on in the other region. A crash at any moment leaves the old contents or the new ones, which mean the
/// same table. At most five syncs, whatever the size of the store. After an error only recovery can tell which
/// of both the disk holds.
pub(crate) fn lay_next<D: Disk>(
    disk: &mut D,
    slot: u8,
    sb: &SuperBlock,
    journal: &mut Journal,
) -> Result<(), Failed>
    requires fits { (slot < 2) × IsLawful (super_of sb.now) }
    ensures trail { (old new : Contents)
        → IsComputed (D.view disk.old) slot (super_of sb.now) journal.old old new
        → Trail ShowsTable (D.view disk.new) (D.view disk.old).moment
        (table_of (contents_state old) ∷ []) 0
        × (IsPaid (contents_state old) → IsPaid (contents_state new)
        → ArePaidSince (D.view disk.new) (D.view disk.old).moment)
        × ((c : Image) → Since (D.view disk.new) (D.view disk.old).moment c
        → ReadsAs c old ⊎ ReadsAs c new) }
    ensures kept { OnOk result ((old new : Contents)
        → IsComputed (D.view disk.old) slot (super_of sb.now) journal.old old new
        → ContentsStand (D.view disk.new) new × IsLogOf new journal.new) }
    ensures ok { OnOk result (journal.new ≡ region_turned journal.old) }
    ensures disk { OnOk result (journal.old.active ≤ 1 → LaysSuperblock (D.view disk.old)
        (D.view disk.new) journal.old.mem slot (super_of sb.now)) }
    ensures err { OnErr result (journal.new ≡ journal.old) }
    ensures images { journal.old.active ≤ 1
        → TearsBlocks (is_in_front journal.old.mem) (D.view disk.old) (D.view disk.new) }
    ensures time { Passes (D.view disk.old) (D.view disk.new) }
    ensures cause { CountsFaults (D.faults disk.old) (D.faults disk.new) result }
{
    sync_written(disk)?;
    lay(disk, slot, sb)?;
    journal.turn(disk)?;
    Ok(())
}
