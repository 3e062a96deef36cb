//! Changes that wait to become durable together: at most sixteen, each of which memory takes at once.

ghost use Rattle.std.specs.Prelude.{◌≡◌, ◌<◌, ◌≤◌, List, [], ◌∷◌, ◌++◌, length, Some, None, IfSome, OnOk, OnErr, IsTrue, true, is_ok, is_some, slice_get};
ghost use Rattle.strat_array.specs.Kept.{Blocks};
ghost use Rattle.strat_base.specs.Change.{is_lawful};
ghost use Rattle.strat_base.specs.ChangeView.{change_of};
ghost use Rattle.def_crash.specs.Faults.{CountsFaults};
ghost use Rattle.def_crash.specs.Moments.{Passes};
ghost use Rattle.strat_journal.specs.Log.{batch_joined};
ghost use Rattle.strat_model.specs.Table.{Cursor};
ghost use Rattle.def_publish.specs.Appending.{with_batch};
ghost use Rattle.def_publish.specs.Contents.{Contents};
ghost use Rattle.strat_memory.specs.Held.{IsConsistent, StandsAt, StandsWith};
ghost use Rattle.strat_memory.specs.Memory.{KeepsRows, memory_after};
ghost use Rattle.strat_memory.specs.RecoveredFields.{held_of};
ghost use Rattle.strat_publish.specs.Settling.{LeavesPublished};
ghost use Rattle.strat_store.specs.Applying.{held_after};
ghost use Rattle.strat_store.specs.Staging.{HasRoomForStaged, FollowsBatch, has_place, held_joined, reply_of_commit, reply_over, takes_staged};

use std::marker::Model;
use strat_base::{Change, Failed};
use strat_disk::Disk;
use strat_journal::Journal;
use strat_memory::open_store::OpenStore;
use strat_model::Reply;

/// Most changes that are staged.
const STAGED_MAX: usize = 16;

/// The replies to the changes that are staged, in order: at most sixteen.
#[derive(Drop)]
pub(crate) struct Replies {
    count: usize,
    places: [Reply; STAGED_MAX],
}

impl Model for Replies {
    ghost use Rattle.std.specs.Prelude.{◌≡◌, ◌≤◌, List, length, take};
    ghost use Rattle.strat_model.specs.declared.replies.Reply.{Reply};

    ghost Value = { List Reply };

    ghost view = { λ r. take r.count r.places };

    ghost invariant = { λ r. (r.count ≤ 16) × (length r.places ≡ 16) };
}

impl Replies {
    /// None, and room for sixteen.
    pub(crate) fn new() -> Replies
        ensures ok { result ≡ [] }
    {
        Replies {
            count: 0,
            places: [Reply::Done; STAGED_MAX],
        }
    }

    /// How many there are.
    pub(crate) fn len(&self) -> usize
        ensures ok { result ≡ length self.now }
        ensures fits { result ≤ 16 }
    {
        self.count
    }

    /// Puts one behind the others.
    pub(crate) fn push(&mut self, reply: Reply)
        requires room { length self.old < 16 }
        ensures ok { self.new ≡ self.old ++ reply ∷ [] }
    {
        self.places[self.count] = reply;
        self.count += 1;
    }

    /// The reply at a place, if one is there.
    pub(crate) fn get(&self, i: usize) -> Option<Reply>
        ensures ok { result ≡ slice_get self.now i }
    {
        if i < self.count {
            Some(self.places[i])
        } else {
            None
        }
    }

    /// Lets go of all.
    pub(crate) fn clear(&mut self)
        ensures ok { self.new ≡ [] }
    {
        self.count = 0;
    }
}

/// Whether one more change may be staged behind so many.
fn has_place(journal: &Journal, mem: u32, staged: usize) -> bool
    requires len { (staged ≡ length journal.now.batch) × (mem ≡ journal.now.mem) }
    ensures ok { result ≡ has_place journal.now }
{
    staged < STAGED_MAX && journal.count() as usize + staged < mem as usize
}

/// Stages a change after so many others, and has memory make it. Answers the reply that waits for it; or `None` if it may
/// not be staged, and then nothing has changed. It takes no memory and makes no device call.
pub(crate) fn stage_change(
    held: &mut OpenStore,
    staged: usize,
    change: &Change<'_>,
) -> Option<Reply>
    requires kept { (cached : Blocks) → IsConsistent (held_joined (held_of held.old cached)) }
    requires fits { IsTrue (is_lawful (change_of change.now)) }
    requires len { staged ≡ length held.old.journal.batch }
    ensures ok { (cached : Blocks) → is_some result
        ≡ takes_staged (held_of held.old cached) (Some (change_of change.now)) }
    ensures none { result ≡ None → held.new ≡ held.old }
    ensures found { IfSome result (λ told. told
        ≡ reply_over held.old.memory.parents (change_of change.now)) }
    ensures state { is_some result ≡ true → held.new ≡ record held.old {
      journal = record held.old.journal {
        batch = held.old.journal.batch ++ change_of change.now ∷ [];
      };
      memory = memory_after held.old.memory (change_of change.now);
    } }
    ensures kept { (cached : Blocks) → IsConsistent (held_joined (held_of held.new cached)) }
    ensures room { is_some result ≡ true → HasRoomForStaged held.new.journal }
    ensures same { KeepsRows held.old.memory held.new.memory }
{
    if !has_place(&held.journal, held.sb.mem, staged) {
        return None;
    }
    let None = held.memory.refusal(change) else {
        return None;
    };
    held.journal.add(change);
    Some(held.memory.take(change))
}

/// Makes the staged changes durable, all of them or none at any crash: two writes and two syncs, whatever their number. They go
/// into the active region, which has room for them.
pub(crate) fn append_staged<D: Disk>(held: &mut OpenStore, disk: &mut D) -> Result<(), Failed>
    requires kept { (cached : Blocks) → IsConsistent (held_joined (held_of held.old cached)) }
    requires len { 0 < length held.old.journal.batch }
    requires room { HasRoomForStaged held.old.journal }
    ensures ok { OnOk result (held.new
        ≡ record held.old { journal = batch_joined held.old.journal }) }
    ensures err { OnErr result (held.new ≡ held.old) }
    ensures state { OnOk result ((x : Contents) (rows : List Cursor) (cached : Blocks)
        → StandsAt (D.view disk.old) (held_of held.old cached) x rows
        → StandsAt (D.view disk.new) (held_of held.new cached)
        (with_batch x held.old.journal.batch) rows) }
    ensures trail { (x : Contents) (cached : Blocks)
        → StandsWith (D.view disk.old) (held_of held.old cached) x
        → FollowsBatch (D.view disk.old) (D.view disk.new) x held.old.journal.batch
        (is_ok result) }
    ensures same { (cached : Blocks) → LeavesPublished (D.view disk.old) (D.view disk.new)
        (held_of held.old cached) (is_ok result) (reply_of_commit (is_ok result))
        (held_after held.new cached (reply_of_commit (is_ok result))) }
    ensures time { Passes (D.view disk.old) (D.view disk.new) }
    ensures cause { CountsFaults (D.faults disk.old) (D.faults disk.new) result }
    ensures reads { D.reads disk.new ≡ D.reads disk.old }
{
    let Ok(()) = held.journal.append(disk) else {
        return Err(Failed);
    };
    Ok(())
}
