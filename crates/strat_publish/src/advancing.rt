//! An advance of a store whose journal is full: one slice of the promotion of what fills its active region.

ghost use Rattle.std.specs.Prelude.{◌≡◌, ◌≤◌, ◌<◌, ◌⊎◌, ℕ, ◌+◌, [], ◌∷◌, length, option_map, None, Some, OnOk, OnErr, IsErrOf, Contains};
ghost use Rattle.strat_array.specs.Kept.{Blocks};
ghost use Rattle.def_crash.specs.Blocks.{AgreeOn};
ghost use Rattle.def_crash.specs.Faults.{HasCause};
ghost use Rattle.def_crash.specs.Image.{Image};
ghost use Rattle.def_crash.specs.Moments.{Exposes, Passes};
ghost use Rattle.def_crash.specs.Trail.{Trail};
ghost use Rattle.strat_gate.specs.SuperView.{super_of};
ghost use Rattle.strat_manifest.specs.ManifestView.{manifest_of};
ghost use Rattle.strat_promote.specs.Job.{IsBadInput, arrays_to, blocks_listed};
ghost use Rattle.strat_promote.specs.Promotions.{ReadsOf, target_of};
ghost use Rattle.strat_promote.specs.declared.obstacle.Obstacle.TheVariants as obstacle;
ghost use Rattle.strat_promote.specs.declared.obstacle.Obstacle.TheVariants.{Device, Damaged};
ghost use Rattle.def_meaning.specs.StateTable.{table_of};
ghost use Rattle.def_slice.specs.Opened.{slice_numbers};
ghost use Rattle.def_publish.specs.Contents.{Contents, contents_state};
ghost use Rattle.def_publish.specs.Occupied.{arrays_in};
ghost use Rattle.def_publish.specs.Standing.{ShowsTable};
ghost use Rattle.def_state.specs.Sound.{journal_max};
ghost use Rattle.def_state.specs.State.{IsPaid};
ghost use Rattle.strat_cursor.specs.Looking.{arrays_there};
ghost use Rattle.strat_memory.specs.Held.{HasReadFrom, IsConsistent, IsOnDisk, MayGoOnWith, StandsWith, arrays_held};
ghost use Rattle.strat_memory.specs.Memory.{IsReadyFrom};
ghost use Rattle.strat_memory.specs.Paying.{ArePaidSince};
ghost use Rattle.strat_memory.specs.RecoveredFields.{held_of, open_of};
ghost use Rattle.strat_publish.specs.Advancing.{HasAdvanced, HasEmptied, SlicesInBudget, StaysOpen};
ghost use Rattle.strat_publish.specs.Outcomes.{IsDamagedIn, IsOkOrShort, RanShort};
ghost use Rattle.strat_publish.specs.Promoting.{KeepsOpenToBudget, StandsOpenWith};
ghost use Rattle.strat_publish.specs.Settling.{HaveOldOrNext, IsInstalled, KeepsCursors, KeepsPublished, TakesOpen};

use crate::begin::open_now;
use crate::checkpoint::{publish_made, seal_for_next};
use crate::slice::slice_open;
use std::alloc::Global;
use strat_disk::Disk;
use strat_memory::open_store::{OpenStore, Promoting};
use strat_promote::obstacle::{Obstacle, Unfit};
use strat_promote::promotion::Progress;

/// Keeps a promotion open until the next change. `Unfit`: the journal has no room for the change that comes; where the store
/// stands the last slice was done before.
fn keep_open(held: &mut OpenStore, promoting: Promoting) -> Result<(), Unfit>
    requires fits { (1 ≤ held.old.sb.mem) × (held.old.sb.mem ≤ 4096) }
    ensures ok { OnOk result ((held.new ≡ record held.old { promoting = Some promoting })
        × (length held.old.journal.list < journal_max held.old.sb.mem)) }
    ensures err { OnErr result ((held.new ≡ held.old)
        × (journal_max held.old.sb.mem ≤ length held.old.journal.list)) }
{
    if held.journal.count() >= 2 * held.sb.mem - 2 {
        return Err(Unfit);
    }
    held.promoting = Some(promoting);
    Ok(())
}

/// One slice of a promotion that is open beside what a store holds. It then stays open, or, after the last slice, what it made
/// is published. After an error no promotion is open. It costs a slice, and what `publish_made` costs after the last one;
/// errors are those of both.
fn go_on<D: Disk>(
    alloc: Global,
    held: &mut OpenStore,
    mut promoting: Promoting,
    disk: &mut D,
) -> Result<(), Obstacle>
    requires kept { ((cached : Blocks) → IsConsistent (held_of held.old cached)
        × MayGoOnWith (held_of held.old cached) (open_of promoting))
        × (held.old.promoting ≡ None)
        × (held.old.sb.mem ≤ length held.old.journal.list)
        × (length held.old.memory.cursors.retired
        + length (arrays_in (manifest_of held.old.published.manifest).levels)
        ≤ held.old.memory.cursors.room) }
    ensures ok { OnOk result ((x : Contents) (cached : Blocks)
        → StandsOpenWith (D.view disk.old) (held_of held.old cached) x (open_of promoting)
        → HasAdvanced (D.view disk.new) (held_of held.old cached) x (held_of held.new cached)) }
    ensures budget { OnOk result (KeepsOpenToBudget (D.view disk.old) held.old (open_of promoting)
        (option_map slice_numbers (option_map open_of held.new.promoting))) }
    ensures found { OnOk result ((cached : Blocks)
        → TakesOpen (held_of held.old cached) (held_of held.new cached)
        ⊎ IsInstalled (held_of held.old cached) (held_of held.new cached)) }
    ensures disk { (IsErrOf result Device → ⊥) → (cached : Blocks)
        → IsOnDisk (D.view disk.old) (held_of held.old cached)
        → ((f : Image) → Exposes (D.view disk.old) f
        → ReadsOf f (arrays_to held.old.published.levels (target_of promoting.promotion))
        promoting.promotion)
        → IsOnDisk (D.view disk.new) (held_of held.new cached) }
    ensures trail { (x : Contents) (cached : Blocks)
        → StandsOpenWith (D.view disk.old) (held_of held.old cached) x (open_of promoting)
        → Trail ShowsTable (D.view disk.new) (D.view disk.old).moment
        (table_of (contents_state x) ∷ []) 0
        × (IsPaid (contents_state x) → ArePaidSince (D.view disk.new) (D.view disk.old).moment)
        × HaveOldOrNext (D.view disk.new) (D.view disk.old).moment held.old.slot
        (super_of held.old.sb) }
    ensures kept { OnOk result ((cached : Blocks) → IsConsistent (held_of held.new cached))
        × (RanShort result → (x : Contents) (cached : Blocks)
        → StandsWith (D.view disk.old) (held_of held.old cached) x
        → StandsWith (D.view disk.new) (held_of held.new cached) x) }
    ensures same { (held.new.sb.mem ≡ held.old.sb.mem)
        × (RanShort result → held.new ≡ held.old)
        × OnErr result ((held.new.memory ≡ held.old.memory)
        × (held.new.promoting ≡ None) × ((cached : Blocks)
        → KeepsPublished (held_of held.old cached) (held_of held.new cached))) }
    ensures err { IsErrOf result obstacle.Unfit → (x : Contents) (cached : Blocks)
        → StandsOpenWith (D.view disk.old) (held_of held.old cached) x (open_of promoting) → ⊥ }
    ensures time { Passes (D.view disk.old) (D.view disk.new)
        × ((f g : Image) → Exposes (D.view disk.old) f → Exposes (D.view disk.new) g
        → AgreeOn (blocks_listed (arrays_held held.old.memory held.old.published.levels)) f g) }
    ensures cause { HasCause Device (D.faults disk.old) (D.faults disk.new) result }
    ensures damaged { (b : ℕ) → IsErrOf result (Damaged b)
        → Contains (blocks_listed (arrays_there held.old.published.levels)) b
        × ((f : Image) → Exposes (D.view disk.old) f
        → ReadsOf f (arrays_to held.old.published.levels (target_of promoting.promotion))
        promoting.promotion
        → IsBadInput f (arrays_there held.old.published.levels) b) }
{
    let progress = slice_open(held, &mut promoting, disk)?;
    match progress {
        Progress::More => {
            keep_open(held, promoting)?;
            Ok(())
        }
        Progress::Done => publish_made(alloc, held, promoting, disk),
    }
}

/// Goes on with the promotion of what fills the active region of the journal, or begins it, by one slice. Level 0 is sealed
/// before it begins. After the last slice a new manifest names what was made, and a new superblock makes that the store's: the
/// journal has then what was behind the full region, nothing is sealed, and no promotion is open. Until then the promotion
/// stays open, its blocks are free beside what the store holds, and the journal has room for the change that comes.
///
/// The budget of a slice is the least with which as many slices as changes may still come take all entries twice. A slice
/// takes at least that many, and costs their share of both passes; publishing writes each block of the manifest once, and
/// syncs five times at most.
///
/// All memory is taken before the superblock is laid. After an error no promotion is open: what it took is free again, and the
/// next call begins anew. Else the store is then as it was, but that level 0 may be sealed. `Unfit`: too few blocks are free,
/// an array would have more than 2^25 entries, or another bound of our own was reached; no store that stands on its disk
/// reaches one. `Damaged` names a block of the store's arrays that is no block of entries, or is out of order: no store that
/// stands on its disk has one. After `Device` only recovery can tell which contents the disk holds; both mean the same table.
pub fn advance<D: Disk>(alloc: Global, held: &mut OpenStore, disk: &mut D) -> Result<(), Obstacle>
    requires kept { ((cached : Blocks) → IsConsistent (held_of held.old cached))
        × (held.old.sb.mem ≤ length held.old.journal.list) }
    ensures ok { OnOk result ((x : Contents) (cached : Blocks)
        → StandsWith (D.view disk.old) (held_of held.old cached) x
        → HasAdvanced (D.view disk.new) (held_of held.old cached) x (held_of held.new cached)) }
    ensures budget { OnOk result ((f : Image) (x : Contents) (cached : Blocks)
        → Exposes (D.view disk.old) f → StandsWith (D.view disk.old) (held_of held.old cached) x
        → SlicesInBudget f (held_of held.old cached) x (held_of held.new cached).promoting) }
    ensures found { OnOk result ((cached : Blocks)
        → StaysOpen (held_of held.old cached) (held_of held.new cached)
        ⊎ HasEmptied (held_of held.old cached) (held_of held.new cached)) }
    ensures disk { (IsErrOf result Device → ⊥) → (cached : Blocks)
        → IsOnDisk (D.view disk.old) (held_of held.old cached)
        → IsOnDisk (D.view disk.new) (held_of held.new cached) }
    ensures trail { (x : Contents) (cached : Blocks)
        → StandsWith (D.view disk.old) (held_of held.old cached) x
        → Trail ShowsTable (D.view disk.new) (D.view disk.old).moment
        (table_of (contents_state x) ∷ []) 0
        × (IsPaid (contents_state x) → ArePaidSince (D.view disk.new) (D.view disk.old).moment)
        × HaveOldOrNext (D.view disk.new) (D.view disk.old).moment held.old.slot
        (super_of held.old.sb) }
    ensures kept { (IsOkOrShort result → (cached : Blocks)
        → IsConsistent (held_of held.new cached))
        × (RanShort result → (x : Contents) (cached : Blocks)
        → StandsWith (D.view disk.old) (held_of held.old cached) x
        → StandsWith (D.view disk.new) (held_of held.new cached) x) }
    ensures same { (held.new.sb.mem ≡ held.old.sb.mem)
        × (held.new.memory.parents ≡ held.old.memory.parents)
        × (RanShort result → (held.new.journal ≡ held.old.journal)
        × IsReadyFrom held.old.sb.mem held.old.memory held.new.memory)
        × OnErr result ((held.new.promoting ≡ None) × ((cached : Blocks)
        → KeepsPublished (held_of held.old cached) (held_of held.new cached)
        × KeepsCursors (held_of held.old cached) (held_of held.new cached))) }
    ensures err { IsErrOf result obstacle.Unfit → (x : Contents) (cached : Blocks)
        → StandsWith (D.view disk.old) (held_of held.old cached) x → ⊥ }
    ensures time { Passes (D.view disk.old) (D.view disk.new)
        × ((f g : Image) → Exposes (D.view disk.old) f → Exposes (D.view disk.new) g
        → AgreeOn (blocks_listed (arrays_held held.old.memory held.old.published.levels)) f g) }
    ensures cause { HasCause Device (D.faults disk.old) (D.faults disk.new) result }
    ensures damaged { (b : ℕ) → IsErrOf result (Damaged b)
        → Contains (blocks_listed (arrays_held held.old.memory held.old.published.levels)) b
        × ((cached : Blocks) → ((f : Image) → Exposes (D.view disk.old) f
        → HasReadFrom f (held_of held.old cached))
        → IsDamagedIn (D.view disk.old).content held.old.memory held.old.published.levels b)
        × ((x : Contents) (cached : Blocks)
        → StandsWith (D.view disk.old) (held_of held.old cached) x → ⊥) }
{
    let taken = held.promoting.take();
    seal_for_next(
        alloc,
        &mut held.memory,
        held.sb.mem,
        held.published.manifest.levels.as_slice(),
    )?;
    let promoting = open_now(alloc, held, taken)?;
    go_on(alloc, held, promoting, disk)
}
