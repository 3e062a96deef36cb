//! What commands leave of a store, and what they may be told of it: each fact of these records, used once.

ghost use Rattle.std.specs.Prelude.{◌≡◌, ◌⊎◌, List, ℕ, [], Contains};
ghost use Rattle.strat_base.specs.declared.descriptors.ArrayDesc.{ArrayDesc};
ghost use Rattle.strat_model.specs.Answer.{Answer};
ghost use Rattle.strat_model.specs.Request.{Delete, Get, NextPairs, Stat};
ghost use Rattle.strat_model.specs.declared.replies.Refusal.TheVariants as why;
ghost use Rattle.strat_model.specs.declared.replies.Reply.TheVariants as reply;
ghost use Rattle.strat_store.specs.Applying.{TellsTroubleOf};
ghost use Rattle.strat_store.specs.Cursoring.{LeavesCursors};
ghost use Rattle.strat_memory.specs.Held.{Held, arrays_held};
ghost use Rattle.strat_publish.specs.Counting.{CountsWritten, KeepsCount, manifest_with_array};
ghost use Rattle.strat_publish.specs.Settling.{HasPublished, KeepsCursors};
ghost use Rattle.strat_store_pins.specs.Examples.{cursors, memory};

use def_crash::laws::Viewed;

/// A manifest counts just the entries of the arrays that it numbers anew, and neither fewer nor more.
pub fn entries_are_counted_once()
    ensures ok { CountsWritten (manifest_with_array 1 4 4) (manifest_with_array 2 8 12) }
    ensures few { ¬ CountsWritten (manifest_with_array 1 4 4) (manifest_with_array 2 8 11) }
    ensures more { ¬ CountsWritten (manifest_with_array 1 4 4) (manifest_with_array 2 8 13) }
{}

/// A manifest stays, or counts what was written: no other number takes its place.
pub fn a_count_is_kept_or_counts()
    ensures same { KeepsCount (manifest_with_array 1 4 4) (manifest_with_array 1 4 4) }
    ensures ok { KeepsCount (manifest_with_array 1 4 4) (manifest_with_array 2 8 12) }
    ensures few { ¬ KeepsCount (manifest_with_array 1 4 4) (manifest_with_array 2 8 11) }
    ensures more { ¬ KeepsCount (manifest_with_array 1 4 4) (manifest_with_array 2 8 13) }
{}

/// What memory refuses is told of no fault.
pub fn what_is_refused_meets_no_fault<D: Viewed>()
    ensures version { (d : D) (old : Held) → old.memory ≡ memory (cursors [] [])
        → ¬ TellsTroubleOf (D.view d) old (Get 1 []) (reply.Refused why.DeviceFault) }
    ensures cursor { (d : D) (old : Held) → old.memory ≡ memory (cursors [] [])
        → ¬ TellsTroubleOf (D.view d) old (NextPairs 3 1) (reply.Refused (why.Damaged 7)) }
{}

/// A command that asks for no change and is about no cursor leaves the cursors, the journal and all else in memory; a change
/// leaves the cursors, or what a checkpoint does; and no array is kept that was not held.
pub fn commands_leave_cursors()
    ensures looked { (old new : Held) (a : Answer) → LeavesCursors old Stat a new
        → (new.memory.cursors ≡ old.memory.cursors) × (new.log ≡ old.log)
        × (new.memory.entries ≡ old.memory.entries) × (new.levels ≡ old.levels) }
    ensures changed { (old new : Held) (a : Answer) (v : ℕ) (key : List ℕ)
        → LeavesCursors old (Delete v key) a new → KeepsCursors old new ⊎ HasPublished old new }
    ensures kept { (old new : Held) (a : Answer) (b : ArrayDesc) → LeavesCursors old Stat a new
        → Contains new.memory.cursors.retired b
        → Contains (arrays_held old.memory old.levels) b }
{}
