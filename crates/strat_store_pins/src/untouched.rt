//! What a command leaves of a store and of its disk, as it was told: each fact of this record, used once. Each is the contract of a
//! function that does nothing.

ghost use Rattle.std.specs.Prelude.{◌≡◌, ◌⊎◌, ◌+◌, ℕ, slice_set, List, [], true, false, None, Some, Contains};
ghost use Rattle.strat_array.specs.Kept.{IsBlockRead};
ghost use Rattle.strat_base.specs.Change as change;
ghost use Rattle.strat_base.specs.Entries.{Entry};
ghost use Rattle.strat_base.specs.declared.descriptors.ArrayDesc.{ArrayDesc};
ghost use Rattle.def_crash.specs.Moments.{OnlyReads};
ghost use Rattle.def_bytes.specs.Arrays.{blocks_of};
ghost use Rattle.strat_model.specs.Request.{Clone, Delete, DropVersion, Put, Stat};
ghost use Rattle.strat_model.specs.declared.replies.Refusal.TheVariants as why;
ghost use Rattle.strat_model.specs.declared.replies.Reply.{Reply};
ghost use Rattle.strat_model.specs.declared.replies.Reply.TheVariants as reply;
ghost use Rattle.strat_store.specs.Applying.{IsUntouched, may_write};
ghost use Rattle.strat_memory.specs.Held.{Held, arrays_held};
ghost use Rattle.strat_memory.specs.Memory.{Memory, has_version, memory_after, refusal_of_change, sealed_now};

use def_crash::laws::Viewed;

/// A change that is told of want of memory leaves all that the store holds, but for the memory that stands ready, and with no
/// promotion open; and level 0 as it was, or sealed with a new one before it that has no entries.
pub fn a_change_short_of_memory_leaves_what_is_held<D: Viewed>()
    ensures same { (d e : D) (old new : Held) (v : ℕ) (key value : List ℕ)
        → IsUntouched (D.view d) (D.view e) (Put v key value) old (reply.Refused why.NoMemory) new
        → (new.slot ≡ old.slot) × (new.sb ≡ old.sb) × (new.chained ≡ old.chained)
        × (new.log ≡ old.log) × (new.levels ≡ old.levels) × (new.cached ≡ old.cached)
        × (new.promoting ≡ None) }
    ensures kept { (d e : D) (old new : Held) (v : ℕ) (key value : List ℕ)
        → IsUntouched (D.view d) (D.view e) (Put v key value) old (reply.Refused why.NoMemory) new
        → (new.memory.parents ≡ old.memory.parents) × (new.memory.updates ≡ old.memory.updates)
        × (new.memory.changes ≡ old.memory.changes)
        × (new.memory.cursors.opened ≡ old.memory.cursors.opened)
        × (new.memory.cursors.retired ≡ old.memory.cursors.retired) }
    ensures found { (d e : D) (old new : Held) (v : ℕ) (key value : List ℕ)
        → IsUntouched (D.view d) (D.view e) (Put v key value) old (reply.Refused why.NoMemory) new
        → ((new.memory.entries ≡ old.memory.entries) × (new.memory.sealed ≡ old.memory.sealed)
        × (new.memory.spare ≡ old.memory.spare))
        ⊎ ((old.memory.sealed ≡ None) × (new.memory.entries ≡ [])
        × (new.memory.sealed ≡ Some (sealed_now old.memory))
        × (new.memory.spare ≡ old.sb.mem)) }
{}

/// A change that memory refuses is refused so, and leaves store and disk as they were.
pub fn a_refused_change_leaves_store_and_disk<D: Viewed>()
    ensures err { (d e : D) (old new : Held) (v : ℕ) (key : List ℕ) (told : Reply)
        → refusal_of_change old.memory (change.Delete v key) ≡ Some why.Frozen
        → IsUntouched (D.view d) (D.view e) (Delete v key) old told new
        → (told ≡ reply.Refused why.Frozen) × (new.memory ≡ old.memory) × (new.log ≡ old.log)
        × (new.chained ≡ old.chained) × OnlyReads (D.view d) (D.view e) }
{}

/// A drop of version 0 is refused, and leaves store and disk as they were. Any other that memory takes sets one mark and counts
/// as one change.
pub fn a_drop_sets_one_mark<D: Viewed>()
    ensures err { (d e : D) (old new : Held) (told : Reply) → has_version old.memory 0 ≡ true
        → IsUntouched (D.view d) (D.view e) (DropVersion 0) old told new
        → (told ≡ reply.Refused why.Root) × (new.memory ≡ old.memory)
        × (new.log ≡ old.log) × (new.chained ≡ old.chained)
        × OnlyReads (D.view d) (D.view e) }
    ensures same { (m : Memory) (v : ℕ) → memory_after m (change.DropVersion v)
        ≡ record m { marks = slice_set m.marks v true; changes = m.changes + 1 } }
{}

/// A change that memory takes is told that it is done, of want of memory, or of a fault.
pub fn a_change_that_is_taken_is_not_refused<D: Viewed>()
    ensures none { (d e : D) (old new : Held) (v : ℕ)
        → refusal_of_change old.memory (change.Clone v) ≡ None
        → ¬ IsUntouched (D.view d) (D.view e) (Clone v) old (reply.Refused why.Frozen) new }
{}

/// After a change that was carried out, fell short of memory or met a fault a store may have written, and after no other reply
/// of a change.
pub fn a_store_may_have_written_after_these()
    ensures ok { (may_write reply.Done ≡ true) × (may_write (reply.Made 3) ≡ true)
        × (may_write (reply.Refused why.NoMemory) ≡ true)
        × (may_write (reply.Refused why.DeviceFault) ≡ true)
        × (may_write (reply.Refused (why.Damaged 7)) ≡ true) }
    ensures none { (may_write (reply.Refused why.UnknownVersion) ≡ false)
        × (may_write (reply.Refused why.Frozen) ≡ false)
        × (may_write (reply.Refused why.VersionLimit) ≡ false)
        × (may_write (reply.Refused why.ChangeLimit) ≡ false)
        × (may_write (reply.Refused why.Malformed) ≡ false)
        × (may_write reply.Found ≡ false) × (may_write reply.Absent ≡ false)
        × (may_write (reply.Pairs true) ≡ false) × (may_write (reply.Opened 1) ≡ false) }
{}

/// A command that asks for no change leaves the disk, and of the cache all but blocks that it read of arrays that are held; a
/// change leaves the cache, and the disk where it is told of a refusal.
pub fn look_ups_leave_the_disk_and_changes_the_cache<D: Viewed>()
    ensures same { (d e : D) (old new : Held) (told : Reply)
        → IsUntouched (D.view d) (D.view e) Stat old told new
        → OnlyReads (D.view d) (D.view e) × (new.cached.cap ≡ old.cached.cap) }
    ensures found { (d e : D) (old new : Held) (told : Reply) (k : ℕ × ℕ) (x : List Entry)
        → IsUntouched (D.view d) (D.view e) Stat old told new → Contains new.cached.entries (k, x)
        → Contains old.cached.entries (k, x) ⊎ ((a : ArrayDesc)
        × Contains (arrays_held old.memory old.levels) a
        × IsBlockRead (D.view d).content a.id (blocks_of a.extents) k x) }
    ensures kept { (d e : D) (old new : Held) (v : ℕ) (key : List ℕ) (told : Reply)
        → IsUntouched (D.view d) (D.view e) (Delete v key) old told new
        → new.cached ≡ old.cached }
    ensures err { (d e : D) (old new : Held) (v : ℕ) (key : List ℕ)
        → IsUntouched (D.view d) (D.view e) (Delete v key) old (reply.Refused why.Frozen) new
        → OnlyReads (D.view d) (D.view e) }
{}
