//! Laws of what a store has in memory: it answers as the table that its head means, and follows the
//! head from change to change. Each is the contract of a function that does nothing.

ghost use Rattle.std.specs.Prelude.{◌≡◌, ◌<◌, ◌≤◌, ℕ, List, [], ◌∷◌, ◌++◌, length, take, drop, filter_map, Some, None, IsTrue, false, is_some, not};
ghost use Rattle.strat_base.specs.Change.{Change};
ghost use Rattle.def_crash.specs.Image.{Image};
ghost use Rattle.strat_model.specs.Answer.{plain};
ghost use Rattle.strat_model.specs.Request.{Get, Info, Stat};
ghost use Rattle.strat_model.specs.Pairs.{value_of};
ghost use Rattle.strat_model.specs.Step.{step, refuses, pairs_at};
ghost use Rattle.strat_model.specs.Table.{Cursor};
ghost use Rattle.strat_model.specs.declared.replies.Refusal.{Refusal};
ghost use Rattle.strat_model.specs.declared.replies.Refusal.TheVariants as why;
ghost use Rattle.def_recovery.specs.Asked.{asked};
ghost use Rattle.def_recovery.specs.Head.{Head, head_versions, head_updates, head_changes, head_marks};
ghost use Rattle.def_recovery.specs.Opened.{parents_in};
ghost use Rattle.def_recovery.specs.Opening.{state_of};
ghost use Rattle.def_meaning.specs.StateTable.{table_of, request_for};
ghost use Rattle.def_slice.specs.Lists.{entries_left};
ghost use Rattle.def_state.specs.Reading.{live_of, level_zero};
ghost use Rattle.def_state.specs.Setting.{set_all};
ghost use Rattle.def_state.specs.Sound.{is_accepted, accepts_change, journal_max, IsSound};
ghost use Rattle.def_state.specs.State.{State, update_of};
ghost use Rattle.strat_memory.specs.Memory.{Memory, refusal_of_change, memory_after, HasRoomFor, reply_to, info_told, stat_told, fresh_memory, head_full, lists_in_memory, oldest_changes, oldest_entries, oldest_marks, oldest_parents, oldest_updates, oldest_versions, sealed_off, unsealed, table_with, IsMemoryOf, has_version};

/// Memory refuses a change just where the table does, and for the same reason; of any other it tells
/// what the table answers, wherever the change then goes and whatever cursors there are.
pub fn memory_answers_changes_as_the_table()
    ensures err { (f : Image) (h : Head) (s : State) (m : Memory) (rows : List Cursor) (n : ℕ)
        (change : Change) (r : Refusal)
        → state_of f h ≡ Some s → IsMemoryOf h m → refusal_of_change m change ≡ Some r
        → step (table_with s rows n) (request_for change) ≡ refuses (table_with s rows n) r }
    ensures ok { (f : Image) (h : Head) (s : State) (m : Memory) (rows : List Cursor) (n : ℕ)
        (change : Change)
        → state_of f h ≡ Some s → IsMemoryOf h m → refusal_of_change m change ≡ None
        → (step (table_with s rows n) (request_for change)).answer ≡ plain (reply_to m change) }
    ensures found { (f : Image) (h : Head) (s : State) (m : Memory) (change : Change)
        → state_of f h ≡ Some s → IsMemoryOf h m → refusal_of_change m change ≡ None
        → IsTrue (accepts_change s change) }
{}

/// Memory refuses just the changes that its limits, versions, marks and counts do not accept.
pub fn memory_refuses_what_is_not_accepted()
    ensures ok { (m : Memory) (change : Change)
        → is_accepted m.changes_max m.versions_max m.parents m.marks m.changes change
        ≡ not (is_some (refusal_of_change m change)) }
{}

/// Memory tells of versions and of the whole store what the table answers that has as many cursors as are open, and knows
/// the versions that the table has.
pub fn memory_tells_of_versions_as_the_table()
    ensures found { (f : Image) (h : Head) (s : State) (m : Memory) (rows : List Cursor) (n v : ℕ)
        → state_of f h ≡ Some s → IsMemoryOf h m → IsTrue (has_version m v)
        → (step (table_with s rows n) (Info v)).answer ≡ plain (info_told m v) }
    ensures ok { (f : Image) (h : Head) (s : State) (m : Memory) (rows : List Cursor) (n : ℕ)
        → state_of f h ≡ Some s → IsMemoryOf h m → length rows ≡ length m.cursors.opened
        → (step (table_with s rows n) Stat).answer ≡ plain (stat_told m) }
    ensures none { (f : Image) (h : Head) (s : State) (m : Memory) (rows : List Cursor) (n v : ℕ)
        → state_of f h ≡ Some s → IsMemoryOf h m → has_version m v ≡ false
        → step (table_with s rows n) (Info v) ≡ refuses (table_with s rows n) why.UnknownVersion }
    ensures err { (f : Image) (h : Head) (s : State) (m : Memory) (rows : List Cursor) (n v : ℕ)
        (key : List ℕ)
        → state_of f h ≡ Some s → IsMemoryOf h m → has_version m v ≡ false
        → step (table_with s rows n) (Get v key)
        ≡ refuses (table_with s rows n) why.UnknownVersion }
{}

/// Where nothing is sealed, a key is found in the entries of level 0 in memory as in the latest updates of the journal.
pub fn memory_finds_what_level_zero_says()
    ensures same { (f : Image) (h : Head) (s : State) (m : Memory) (v : ℕ) (key : List ℕ)
        → state_of f h ≡ Some s → IsMemoryOf h m → IsSound s → m.sealed ≡ None
        → live_of m.parents m.entries v key ≡ live_of m.parents (level_zero s) v key }
{}

/// A key is looked up in level 0, in the sealed one where there is one, and then in the levels, as the table has it.
pub fn memory_is_asked_as_the_table()
    ensures ok { (f : Image) (h : Head) (s : State) (m : Memory) (v : ℕ) (key : List ℕ)
        → state_of f h ≡ Some s → IsMemoryOf h m → IsSound s → IsTrue (has_version m v)
        → asked f m.parents (lists_in_memory m) h.manifest.levels v key
        ≡ value_of (pairs_at (table_of s) v) key }
{}

/// Memory after a change that it does not refuse is that of the head with the change in its journal, where level 0 is sealed
/// or its region has room; and it has room for what the change sets as long as the journal has room for it. Level 0 has no
/// more entries than the journal changes.
pub fn memory_follows_the_journal()
    ensures ok { (h : Head) (m : Memory) (change : Change) → IsMemoryOf h m
        → refusal_of_change m change ≡ None → (m.sealed ≡ None → length h.journal < h.sb.mem)
        → IsMemoryOf (record h { journal = h.journal ++ change ∷ [] }) (memory_after m change) }
    ensures room { (h : Head) (m : Memory) (change : Change) → IsMemoryOf h m
        → length h.journal < h.sb.mem → HasRoomFor m change }
    ensures fits { (h : Head) (m : Memory) (change : Change) → IsMemoryOf h m
        → (m.sealed ≡ None → length h.journal < h.sb.mem) → length h.journal < journal_max h.sb.mem
        → HasRoomFor m change }
    ensures len { (h : Head) (m : Memory) → IsMemoryOf h m
        → length m.entries ≤ length h.journal }
{}

/// Memory whose level 0 is sealed when the journal just fills its region is that of the same head. What is sealed, or
/// level 0 where nothing is, then has all that the journal says.
pub fn memory_may_be_sealed()
    ensures ok { (h : Head) (m : Memory) → IsMemoryOf h m → m.sealed ≡ None
        → length h.journal ≡ h.sb.mem → IsMemoryOf h (sealed_off h.sb.mem m) }
    ensures found { (h : Head) (m : Memory) → IsMemoryOf h m → length h.journal ≤ h.sb.mem
        → oldest_entries m ≡ set_all (filter_map update_of h.journal) }
    ensures none { (h : Head) (m : Memory) → IsMemoryOf h m → length h.journal < h.sb.mem
        → m.sealed ≡ None }
{}

/// What a promotion takes is what the front of the journal says that fills the active region. The counts and the marks at the
/// seal are those of the head then, and the versions then are the first ones.
pub fn a_seal_has_what_fills_the_region()
    ensures ok { (h : Head) (m : Memory) → IsMemoryOf h m
        → oldest_entries m ≡ entries_left (take h.sb.mem h.journal) }
    ensures len { (h : Head) (m : Memory) → IsMemoryOf h m
        → (oldest_versions m ≡ length (head_versions (head_full h)))
        × (oldest_updates m ≡ head_updates (head_full h))
        × (oldest_changes m ≡ head_changes (head_full h)) }
    ensures found { (h : Head) (m : Memory) → IsMemoryOf h m
        → (oldest_parents m ≡ head_versions (head_full h))
        × (oldest_marks m ≡ head_marks (head_full h)) }
{}

/// Memory that let go of what was sealed is that of a head with the same limits, versions, marks and counts, whose journal
/// has what came since.
pub fn unsealed_memory_follows_a_publication()
    ensures ok { (h new : Head) (m : Memory) → IsMemoryOf h m → IsTrue (is_some m.sealed)
        → new.journal ≡ drop h.sb.mem h.journal → length new.journal ≤ new.sb.mem
        → new.sb.mem ≡ h.sb.mem
        → new.sb.changes_max ≡ h.sb.changes_max → new.sb.versions_max ≡ h.sb.versions_max
        → head_versions new ≡ head_versions h → head_updates new ≡ head_updates h
        → head_changes new ≡ head_changes h → head_marks new ≡ head_marks h
        → IsMemoryOf new (unsealed m) }
{}

/// New memory that took the versions, the marks and the counts of a manifest is that of the manifest's head with no change
/// in its journal.
pub fn loaded_memory_is_that_of_a_manifest()
    ensures ok { (h : Head) → h.journal ≡ [] → IsMemoryOf h
        (record (fresh_memory h.sb.mem h.sb.changes_max h.sb.versions_max) {
          parents = parents_in h.manifest;
          marks = h.manifest.marks;
          updates = h.manifest.updates;
          changes = h.manifest.changes;
        }) }
{}
