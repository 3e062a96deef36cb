//! Laws of changes that wait to become durable together. Each is the contract of a function that does nothing.

ghost use Rattle.std.specs.Prelude.{◌≡◌, List, [], length, true, Some, Option};
ghost use Rattle.strat_base.specs.Change.{Change};
ghost use Rattle.strat_model.specs.Request.{Request};
ghost use Rattle.strat_model.specs.Table.{Cursor};
ghost use Rattle.def_publish.specs.Contents.{Contents};
ghost use Rattle.strat_cursor.specs.Looking.{AreOfOldArrays};
ghost use Rattle.strat_memory.specs.Held.{Held, IsConsistent, StandsAt, position_at};
ghost use Rattle.strat_memory.specs.Memory.{KeepsRows, memory_after};
ghost use Rattle.strat_store.specs.Applying.{change_wanted};
ghost use Rattle.strat_store.specs.Staging.{IsStaged, IsStagedAt, may_stage, position_staged, replies_staged, with_staged};

use strat_disk::Disk;

/// What `stage` does at a store that stands is the step of the table at the position of its staged changes, and the reply that
/// it keeps is what the table tells.
pub fn staging_follows_the_table<D: Disk>()
    ensures ok { (d : D) (s : Held) (x : Contents) (rows : List Cursor) (request : Request)
        (c : Change) → IsStaged s → StandsAt (D.view d) s x rows
        → change_wanted request ≡ Some c → may_stage s request ≡ true
        → KeepsRows s.memory (memory_after s.memory c)
        → IsStagedAt (D.view d) s x rows request (with_staged s c) }
    ensures len { (s : Held) → length (replies_staged s) ≡ length s.log.batch }
{}

/// With none staged a store is as ever: it holds what an opening may find, and stands where it stands.
pub fn none_staged_is_as_ever()
    ensures kept { (s : Held) → IsConsistent s
        → AreOfOldArrays s.chained.manifest.next_array s.cached → IsStaged s }
    ensures end { (s : Held) (x : Contents) (rows : List Cursor) → s.log.batch ≡ []
        → position_staged s x rows ≡ position_at s x rows }
{}
