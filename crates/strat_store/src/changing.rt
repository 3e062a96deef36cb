//! Changes of a store over levels: each is durable before it is in memory, and before it is answered.

ghost use Rattle.std.specs.List.{list_all};
ghost use Rattle.std.specs.Prelude.{◌≡◌, ◌≢◌, ◌<◌, ◌≤◌, ◌-◌, ◌*◌, ℕ, [], ◌∷◌, ◌++◌, length, Some, None, OnOk, IsTrue, Contains, true, false};
ghost use Rattle.strat_array.specs.Kept.{Blocks};
ghost use Rattle.strat_base.specs.Change.{is_lawful};
ghost use Rattle.strat_base.specs.ChangeView.{change_of};
ghost use Rattle.def_crash.specs.Blocks.{KeepsTaken};
ghost use Rattle.def_crash.specs.Faults.{CountsFaults};
ghost use Rattle.def_crash.specs.Image.{Image};
ghost use Rattle.def_crash.specs.Moments.{Exposes, Passes, TearsOnly};
ghost use Rattle.def_crash.specs.Trail.{Trail};
ghost use Rattle.def_bytes.specs.Layout.{region_at, region_size};
ghost use Rattle.strat_gate.specs.SuperView.{super_of};
ghost use Rattle.strat_journal.specs.Log.{batch_region};
ghost use Rattle.strat_model.specs.Answer.{accepts, plain};
ghost use Rattle.strat_model.specs.declared.replies.Refusal.{Refusal};
ghost use Rattle.strat_model.specs.declared.replies.Refusal.TheVariants as why;
ghost use Rattle.strat_model.specs.declared.replies.Reply.TheVariants as reply;
ghost use Rattle.strat_promote.specs.Job.{blocks_listed};
ghost use Rattle.strat_promote.specs.Obstacles.{told_as};
ghost use Rattle.def_meaning.specs.StateTable.{table_of, request_for};
ghost use Rattle.def_publish.specs.Appending.{IsLogOf, with_batch};
ghost use Rattle.def_publish.specs.Contents.{Contents, contents_state};
ghost use Rattle.def_publish.specs.Standing.{ShowsTable, ContentsStand};
ghost use Rattle.def_state.specs.Sound.{Takes};
ghost use Rattle.def_state.specs.State.{IsPaid};
ghost use Rattle.strat_publish.specs.Advancing.{SlicesInBudget};
ghost use Rattle.strat_store.specs.Applying.{IsAppliedTo, FollowsStep, FailsAsTold, HoldsTheSame, StandsForOne, is_fault, may_write, refusal_of_trouble};
ghost use Rattle.strat_publish.specs.Outcomes.{IsDamagedIn};
ghost use Rattle.strat_store.specs.Cursoring.{LeavesCursors};
ghost use Rattle.strat_memory.specs.Held.{IsConsistent, IsOnDisk, StandsWith, arrays_held};
ghost use Rattle.strat_memory.specs.Memory.{KeepsRows, refusal_of_change};
ghost use Rattle.strat_memory.specs.Paying.{ArePaidSince};
ghost use Rattle.strat_publish.specs.Publishing.{is_in_front};
ghost use Rattle.strat_memory.specs.RecoveredFields.{held_of};
ghost use Rattle.strat_store.specs.Applying.{held_after};
ghost use Rattle.strat_publish.specs.Settling.{KeepSuper, KeepsPublished, LeavesPublished};

use std::alloc::Global;
use strat_base::{Change, Failed};
use strat_disk::Disk;
use strat_journal::Journal;
use strat_memory::open_store::OpenStore;
use strat_model::{Refusal, Reply};
use strat_promote::obstacle::Obstacle;
use strat_publish::advance;

/// Makes a change durable at the end of the journal, which has room for it: two writes and two syncs. It writes in the
/// active region alone, or, once that is full, in the other one.
fn log_change<D: Disk>(
    journal: &mut Journal,
    disk: &mut D,
    change: &Change<'_>,
) -> Result<(), Failed>
    requires fits { IsTrue (is_lawful (change_of change.now)) }
    requires none { journal.old.batch ≡ [] }
    requires room { length journal.old.list < 2 * journal.old.mem - 2 }
    requires kept { IsTrue (list_all is_lawful journal.old.list) × (journal.old.active ≤ 1) }
    ensures trail { (x : Contents) → ContentsStand (D.view disk.old) x → IsLogOf x journal.old
        → Takes (contents_state x) (change_of change.now)
        → Trail ShowsTable (D.view disk.new) (D.view disk.old).moment (table_of (contents_state x)
        ∷ table_of (contents_state (with_batch x (change_of change.now ∷ []))) ∷ []) 0
        × (IsPaid (contents_state x) → ArePaidSince (D.view disk.new) (D.view disk.old).moment)
        × KeepSuper (D.view disk.new) (D.view disk.old).moment x.slot x.sb }
    ensures kept { OnOk result ((x : Contents) → ContentsStand (D.view disk.old) x
        → IsLogOf x journal.old → Takes (contents_state x) (change_of change.now)
        → Trail ShowsTable (D.view disk.new) (D.view disk.old).moment (table_of (contents_state x)
        ∷ table_of (contents_state (with_batch x (change_of change.now ∷ []))) ∷ []) 1
        × ContentsStand (D.view disk.new) (with_batch x (change_of change.now ∷ []))) }
    ensures ok { OnOk result (journal.new
        ≡ record journal.old { list = journal.old.list ++ change_of change.now ∷ [] }) }
    ensures same { OnOk result ((f g : Image) → Exposes (D.view disk.old) f
        → Exposes (D.view disk.new) g → KeepsTaken (is_in_front journal.old.mem) f g) }
    ensures images { TearsOnly (D.view disk.old) (D.view disk.new)
        (region_at journal.old.mem (batch_region journal.old)) (region_size journal.old.mem) }
    ensures time { Passes (D.view disk.old) (D.view disk.new) }
    ensures cause { CountsFaults (D.faults disk.old) (D.faults disk.new) result }
{
    journal.add(change);
    journal.append(disk)?;
    Ok(())
}

/// Carries out a change that is not refused, where the journal has room, and level 0 is sealed once the active region is
/// full: it is durable before it is in memory. Two writes and two syncs, and one insertion into level 0 or
/// O(log versions_max); no memory. DeviceFault: the disk failed.
fn carry_out<D: Disk>(held: &mut OpenStore, disk: &mut D, change: &Change<'_>) -> Reply
    requires kept { (cached : Blocks) → IsConsistent (held_of held.old cached) }
    requires fits { IsTrue (is_lawful (change_of change.now)) }
    requires none { refusal_of_change held.old.memory (change_of change.now) ≡ None }
    requires room { (length held.old.journal.list < 2 * held.old.sb.mem - 2)
        × (held.old.memory.sealed ≡ None → length held.old.journal.list < held.old.sb.mem) }
    ensures ok { (x : Contents) (cached : Blocks)
        → StandsForOne (D.view disk.old) (held_of held.old cached) x
        → IsAppliedTo (D.view disk.new) (held_of held.old cached) x
        (request_for (change_of change.now)) (plain result) (held_after held.new cached result) }
    ensures trail { (x : Contents) (cached : Blocks)
        → StandsWith (D.view disk.old) (held_of held.old cached) x
        → FollowsStep (D.view disk.old) (D.view disk.new) x (request_for (change_of change.now))
        (plain result)
        × (IsPaid (contents_state x) → ArePaidSince (D.view disk.new) (D.view disk.old).moment)
        × KeepSuper (D.view disk.new) (D.view disk.old).moment held.old.slot
        (super_of held.old.sb) }
    ensures kept { is_fault result ≡ false → (cached : Blocks)
        → IsConsistent (held_of held.new cached) }
    ensures disk { (cached : Blocks)
        → KeepsPublished (held_of held.old cached) (held_of held.new cached)
        × (result ≢ reply.Refused why.DeviceFault
        → IsOnDisk (D.view disk.old) (held_of held.old cached)
        → IsOnDisk (D.view disk.new) (held_of held.new cached)) }
    ensures found { (held.new.memory.cursors ≡ held.old.memory.cursors)
        × KeepsRows held.old.memory held.new.memory
        × ((cached : Blocks) → (held_of held.new cached).promoting
        ≡ (held_of held.old cached).promoting) }
    ensures images { Passes (D.view disk.old) (D.view disk.new)
        × (result ≢ reply.Refused why.DeviceFault → (f g : Image) → Exposes (D.view disk.old) f
        → Exposes (D.view disk.new) g → KeepsTaken (is_in_front held.old.sb.mem) f g) }
    ensures same { (held.new.sb.mem ≡ held.old.sb.mem) × (result ≢ reply.Found)
        × (accepts result ≡ false → result ≡ reply.Refused why.DeviceFault)
        × (may_write result ≡ true)
        × ((b : ℕ) → result ≡ reply.Refused (why.Damaged b) → ⊥) }
    ensures cause { FailsAsTold (D.faults disk.old) (D.faults disk.new) result }
{
    let Ok(()) = log_change(&mut held.journal, disk, change) else {
        return Reply::Refused(Refusal::DeviceFault);
    };
    held.memory.take(change)
}

/// How a change is refused if the advance before it gave up. A bound that was reached is told as want of memory.
fn refusal_of(obstacle: Obstacle) -> Refusal
    ensures ok { result ≡ refusal_of_trouble (told_as obstacle) }
{
    match obstacle {
        Obstacle::NoMemory | Obstacle::Unfit => Refusal::NoMemory,
        Obstacle::Device => Refusal::DeviceFault,
        Obstacle::Damaged { block } => Refusal::Damaged { block },
    }
}

/// Carries out a change that is not refused, where the active region is full: first the promotion of what fills that goes on
/// by one slice. While it stays open the change goes behind the full region; after the last slice the checkpoint has emptied
/// that, and the change follows what was behind it. It costs a slice or the end of a checkpoint, and then what `carry_out` costs.
fn carry_out_behind<D: Disk>(
    alloc: Global,
    held: &mut OpenStore,
    disk: &mut D,
    change: &Change<'_>,
) -> Reply
    requires kept { ((cached : Blocks) → IsConsistent (held_of held.old cached))
        × (held.old.sb.mem ≤ length held.old.journal.list) }
    requires fits { IsTrue (is_lawful (change_of change.now)) }
    requires none { refusal_of_change held.old.memory (change_of change.now) ≡ None }
    ensures ok { (x : Contents) (cached : Blocks)
        → StandsWith (D.view disk.old) (held_of held.old cached) x
        → IsAppliedTo (D.view disk.new) (held_of held.old cached) x
        (request_for (change_of change.now)) (plain result) (held_after held.new cached result) }
    ensures trail { (x : Contents) (cached : Blocks)
        → StandsWith (D.view disk.old) (held_of held.old cached) x
        → FollowsStep (D.view disk.old) (D.view disk.new) x (request_for (change_of change.now))
        (plain result) }
    ensures kept { is_fault result ≡ false → (cached : Blocks)
        → IsConsistent (held_of held.new cached) }
    ensures budget { accepts result ≡ true → (f : Image) (x : Contents) (cached : Blocks)
        → Exposes (D.view disk.old) f → StandsWith (D.view disk.old) (held_of held.old cached) x
        → SlicesInBudget f (held_of held.old cached) x (held_of held.new cached).promoting }
    ensures disk { (cached : Blocks) → LeavesPublished (D.view disk.old) (D.view disk.new)
        (held_of held.old cached) (accepts result) result (held_after held.new cached result)
        × LeavesCursors (held_of held.old cached) (request_for (change_of change.now))
        (plain result) (held_after held.new cached result) }
    ensures damaged { (b : ℕ) → result ≡ reply.Refused (why.Damaged b)
        → Contains (blocks_listed (arrays_held held.old.memory held.old.published.levels)) b
        × ((cached : Blocks) → IsOnDisk (D.view disk.old) (held_of held.old cached)
        → IsDamagedIn (D.view disk.old).content held.old.memory held.old.published.levels b) }
    ensures same { (held.new.sb.mem ≡ held.old.sb.mem) × (result ≢ reply.Found)
        × (may_write result ≡ true) × KeepsRows held.old.memory held.new.memory
        × (result ≡ reply.Refused why.NoMemory → (cached : Blocks)
        → HoldsTheSame (held_of held.old cached) (held_after held.new cached result)) }
    ensures time { Passes (D.view disk.old) (D.view disk.new) }
    ensures cause { FailsAsTold (D.faults disk.old) (D.faults disk.new) result }
{
    if let Err(obstacle) = advance(alloc, held, disk) {
        return Reply::Refused(refusal_of(obstacle));
    }
    carry_out(held, disk, change)
}

/// Carries out a change: one that is refused changes nothing. Once the active region is full, each change is preceded by a slice
/// of the promotion that empties it into the levels, until the last slice ends that in a checkpoint. A change costs two writes
/// and two syncs, and one insertion into level 0 or O(log versions_max); behind a full region it costs a slice besides, which
/// is such a share of the promotion that it ends while the journal has room. NoMemory: the slice or the checkpoint ran out of
/// memory; the promotion is given up, and nothing else has changed. DeviceFault: the disk failed. Damaged: a block of an array
/// is bad. After these two the store is not to be used again.
pub(crate) fn change<D: Disk>(
    alloc: Global,
    held: &mut OpenStore,
    disk: &mut D,
    change: &Change<'_>,
) -> Reply
    requires kept { (cached : Blocks) → IsConsistent (held_of held.old cached) }
    requires fits { IsTrue (is_lawful (change_of change.now)) }
    ensures ok { (x : Contents) (cached : Blocks)
        → StandsWith (D.view disk.old) (held_of held.old cached) x
        → IsAppliedTo (D.view disk.new) (held_of held.old cached) x
        (request_for (change_of change.now)) (plain result) (held_after held.new cached result) }
    ensures trail { (x : Contents) (cached : Blocks)
        → StandsWith (D.view disk.old) (held_of held.old cached) x
        → FollowsStep (D.view disk.old) (D.view disk.new) x (request_for (change_of change.now))
        (plain result) }
    ensures kept { is_fault result ≡ false → (cached : Blocks)
        → IsConsistent (held_of held.new cached) }
    ensures budget { accepts result ≡ true → held.old.sb.mem ≤ length held.old.journal.list
        → (f : Image) (x : Contents) (cached : Blocks) → Exposes (D.view disk.old) f
        → StandsWith (D.view disk.old) (held_of held.old cached) x
        → SlicesInBudget f (held_of held.old cached) x (held_of held.new cached).promoting }
    ensures disk { (cached : Blocks) → LeavesPublished (D.view disk.old) (D.view disk.new)
        (held_of held.old cached) (accepts result) result (held_after held.new cached result)
        × LeavesCursors (held_of held.old cached) (request_for (change_of change.now))
        (plain result) (held_after held.new cached result) }
    ensures err { (r : Refusal)
        → refusal_of_change held.old.memory (change_of change.now) ≡ Some r
        → (result ≡ reply.Refused r) × (held.new ≡ held.old) × (disk.new ≡ disk.old) }
    ensures none { (refusal_of_change held.old.memory (change_of change.now) ≡ None
        → may_write result ≡ true) × (result ≡ reply.Refused why.NoMemory
        → (held.old.journal.mem ≤ length held.old.journal.list) × ((cached : Blocks)
        → HoldsTheSame (held_of held.old cached) (held_after held.new cached result))) }
    ensures damaged { (b : ℕ) → result ≡ reply.Refused (why.Damaged b)
        → (Contains (blocks_listed (arrays_held held.old.memory held.old.published.levels)) b
        × ((cached : Blocks) → IsOnDisk (D.view disk.old) (held_of held.old cached)
        → IsDamagedIn (D.view disk.old).content held.old.memory held.old.published.levels b))
        × (held.old.journal.mem ≤ length held.old.journal.list) }
    ensures same { (held.new.sb.mem ≡ held.old.sb.mem) × (result ≢ reply.Found)
        × KeepsRows held.old.memory held.new.memory }
    ensures cause { FailsAsTold (D.faults disk.old) (D.faults disk.new) result
        × Passes (D.view disk.old) (D.view disk.new) }
{
    if let Some(refusal) = held.memory.refusal(change) {
        return Reply::Refused(refusal);
    }
    if held.journal.count() >= held.sb.mem {
        return carry_out_behind(alloc, held, disk, change);
    }
    carry_out(held, disk, change)
}
