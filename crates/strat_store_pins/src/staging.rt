//! Changes that wait to become durable together: which may be staged, what is told of them, and what a crash leaves of them.
//! Facts of these records, used once, and examples. Each is the contract of a function that does nothing.

ghost use Rattle.std.specs.Prelude.{◌≡◌, ◌≤◌, ◌<◌, ◌⊎◌, ◌++◌, ◌+◌, ℕ, List, [], ◌∷◌, length, None, Some, Ok, true, false, slice_get};
ghost use Rattle.strat_base.specs.Change.{Change};
ghost use Rattle.strat_base.specs.Change as change;
ghost use Rattle.def_crash.specs.Image.{Image};
ghost use Rattle.def_crash.specs.Moments.{Images, Since};
ghost use Rattle.strat_model.specs.Answer.{plain};
ghost use Rattle.strat_model.specs.Request.{Request, Put, Get, Clone};
ghost use Rattle.strat_model.specs.Run.{IsAfter, is_carried_out};
ghost use Rattle.strat_model.specs.Step.{step};
ghost use Rattle.strat_model.specs.Table.{Cursor};
ghost use Rattle.strat_model.specs.declared.replies.Refusal.TheVariants as why;
ghost use Rattle.strat_model.specs.declared.replies.Reply.TheVariants as reply;
ghost use Rattle.def_meaning.specs.StateTable.{table_of};
ghost use Rattle.def_publish.specs.Appending.{with_batch};
ghost use Rattle.def_publish.specs.Batches.{TakesBatch};
ghost use Rattle.def_publish.specs.Contents.{Contents, contents_state};
ghost use Rattle.def_publish.specs.Standing.{ShowsTable};
ghost use Rattle.def_publish.specs.Worked.{chain_logged};
ghost use Rattle.def_state.specs.Sound.{IsSound};
ghost use Rattle.def_state.specs.State.{State};
ghost use Rattle.strat_cursor.specs.Looking.{AreOfOldArrays};
ghost use Rattle.strat_memory.specs.Held.{Held, IsConsistent, StandsAt};
ghost use Rattle.strat_memory.specs.Memory.{memory_after};
ghost use Rattle.strat_store.specs.Staging.{FollowsBatch, IsStaged, IsStagedAt, has_place, held_joined, may_stage, position_staged, replies_staged, reply_of_commit, with_staged};
ghost use Rattle.strat_store_pins.specs.Examples.{children_apart, log_of};

use def_crash::laws::Viewed;

/// A store with staged changes, of which there are sixteen at most, holds what an opening may find once they are durable, for
/// which the active region has room, and no blocks of arrays that are yet to come.
pub fn a_store_with_staged_changes_is_consistent()
    ensures kept { (s : Held) → IsStaged s → IsConsistent (held_joined s)
        × AreOfOldArrays s.chained.manifest.next_array s.cached }
    ensures len { (s : Held) → IsStaged s → length s.log.batch ≤ 16 }
    ensures room { (s : Held) → IsStaged s → 0 < length s.log.batch
        → length s.log.list + length s.log.batch ≤ s.log.mem }
{}

/// A region of four takes a fourth change behind those that are staged, and no fifth. A sixteenth is staged, and no seventeenth.
pub fn a_journal_has_sixteen_places_at_most()
    ensures some { (has_place (log_of 4 3 0) ≡ true) × (has_place (log_of 4 1 2) ≡ true)
        × (has_place (log_of 4 0 3) ≡ true) × (has_place (log_of 20 0 15) ≡ true) }
    ensures none { (has_place (log_of 4 4 0) ≡ false) × (has_place (log_of 4 2 2) ≡ false)
        × (has_place (log_of 4 0 4) ≡ false) × (has_place (log_of 20 0 16) ≡ false) }
{}

/// A change that memory takes may be staged while there is a place: no change of a version with a child, and no look-up.
#[tactic(auto, unfolding(strat_base::specs::Tree::climb))]
pub fn a_change_that_memory_takes_may_be_staged()
    ensures some { (may_stage children_apart (Put 1 (97 ∷ []) []) ≡ true)
        × (may_stage children_apart (Clone 0) ≡ true) }
    ensures none { (may_stage children_apart (Put 0 (97 ∷ []) []) ≡ false)
        × (may_stage children_apart (Put 3 (97 ∷ []) []) ≡ false)
        × (may_stage children_apart (Get 1 (97 ∷ [])) ≡ false) }
    ensures room { may_stage (record children_apart { log = log_of 4 3 1 }) (Put 1 (97 ∷ []) [])
        ≡ false }
{}

/// A change is staged behind the others, and memory takes it.
pub fn a_staged_change_is_the_last_of_its_batch()
    ensures ok { (s : Held) (c : Change) → ((with_staged s c).log.batch ≡ s.log.batch ++ c ∷ [])
        × ((with_staged s c).log.list ≡ s.log.list)
        × ((with_staged s c).memory ≡ memory_after s.memory c) }
    ensures len { (s : Held) → (held_joined s).log.list ≡ s.log.list ++ s.log.batch }
    ensures none { (s : Held) → (held_joined s).log.batch ≡ [] }
{}

/// Of staged changes is told that they are done, or which versions they make, behind those that the journal made.
pub fn staged_clones_are_told_the_versions_that_they_make()
    ensures ok { replies_staged (record children_apart {
      log = record (log_of 4 1 0) {
        batch = change.Put 1 (97 ∷ []) [] ∷ change.Clone 1 ∷ change.Clone 0 ∷ [];
      };
    }) ≡ reply.Done ∷ reply.Made 2 ∷ reply.Made 3 ∷ [] }
    ensures end { (reply_of_commit true ≡ reply.Done)
        × (reply_of_commit false ≡ reply.Refused why.DeviceFault) }
{}

/// A command that was staged is a change that the table carries out behind those staged before. What is kept for it is what the
/// table tells, in its place. The store stands as it did, one change further on.
pub fn a_staged_change_is_a_step_of_the_table<D: Viewed>()
    ensures ok { (d : D) (old new : Held) (x : Contents) (rows : List Cursor) (request : Request)
        (is : IsStagedAt (D.view d) old x rows request new)
        → (is_carried_out (position_staged old x rows) request ≡ true)
        × (slice_get (replies_staged new) (length old.log.batch) ≡ Some is.told)
        × ((step (position_staged old x rows).table request).answer ≡ plain is.told)
        × StandsAt (D.view d) new x rows }
    ensures end { (d : D) (old new : Held) (x : Contents) (rows : List Cursor) (request : Request)
        → IsStagedAt (D.view d) old x rows request new
        → IsAfter old.log.mem (position_staged old x rows) request (position_staged new x rows) }
    ensures len { (s : Held) (x : Contents) (rows : List Cursor)
        → (position_staged s x rows).fill ≡ length s.log.list + length s.log.batch }
{}

/// A sound state takes a batch of two behind four changes, where a region takes four, and none of three, nor one that the table
/// refuses.
pub fn a_batch_is_taken_while_the_journal_has_room()
    ensures ok { TakesBatch (contents_state chain_logged) (change.Clone 3 ∷ change.Clone 0 ∷ []) }
    ensures room { ¬ TakesBatch (contents_state chain_logged)
        (change.Clone 3 ∷ change.Clone 0 ∷ change.Clone 0 ∷ []) }
    ensures none { ¬ TakesBatch (contents_state chain_logged) (change.Put 0 (97 ∷ []) [] ∷ []) }
    ensures kept { (s : State) (batch : List Change) → TakesBatch s batch → IsSound s }
{}

/// A batch that became durable leaves the table after all of it. One at which the device failed leaves that, or the table before it,
/// and so does each crash on the way.
pub fn a_batch_leaves_the_table_before_it_or_after_all<D: Viewed>()
    ensures ok { (d e : D) (x : Contents) (batch : List Change) (c : Image)
        → FollowsBatch (D.view d) (D.view e) x batch true → Images (D.view e) c
        → ShowsTable c (table_of (contents_state (with_batch x batch))) }
    ensures err { (d e : D) (x : Contents) (batch : List Change) (c : Image)
        → FollowsBatch (D.view d) (D.view e) x batch false
        → Since (D.view e) (D.view d).moment c → ShowsTable c (table_of (contents_state x))
        ⊎ ShowsTable c (table_of (contents_state (with_batch x batch))) }
{}
