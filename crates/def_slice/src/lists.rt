//! Laws of level 0 and of a sealed one. Each is the contract of a function that does nothing.

ghost use Rattle.std.specs.Prelude.{◌≡◌, ◌≤◌, ◌<◌, ℕ, ◌+◌, ◌-◌, ◌*◌, List, [], ◌∷◌, ◌++◌, length, take, drop, filter_map, Option, Some, None, IsTrue};
ghost use Rattle.strat_base.specs.Change.{Change, Put, Delete, Clone};
ghost use Rattle.strat_base.specs.Entries.{Entry};
ghost use Rattle.def_crash.specs.Image.{Image};
ghost use Rattle.strat_model.specs.Pairs.{value_of};
ghost use Rattle.strat_model.specs.Step.{pairs_at};
ghost use Rattle.def_recovery.specs.Asked.{asked};
ghost use Rattle.def_recovery.specs.Head.{Head};
ghost use Rattle.def_recovery.specs.Opening.{state_of};
ghost use Rattle.def_meaning.specs.StateTable.{table_of};
ghost use Rattle.def_slice.specs.Lists.{lists_read, HoldLists};
ghost use Rattle.def_publish.specs.Contents.{Contents, sealed_state};
ghost use Rattle.def_state.specs.LookUp.{looked_up, of_state};
ghost use Rattle.def_state.specs.Reading.{read_at};
ghost use Rattle.def_state.specs.Setting.{set_entry, set_all};
ghost use Rattle.def_state.specs.Sound.{IsSound};
ghost use Rattle.def_state.specs.State.{State, versions_of, is_living, update_of, journal_updates};

/// While a journal fits one region, level 0 may hold all of it, with as much room as the region has left. Below a
/// full region this is the only way: nothing is sealed then.
pub fn an_unsealed_level_holds_the_whole_journal()
    ensures ok { (mem : ℕ) (journal : List Change) (spare : ℕ) → length journal ≤ mem
        → mem ≤ spare + length journal
        → HoldLists mem journal (set_all (filter_map update_of journal)) None spare }
    ensures none { (mem : ℕ) (journal : List Change) (entries : List Entry)
        (sealed : Option (List Entry)) (spare : ℕ) → length journal < mem
        → HoldLists mem journal entries sealed spare
        → (sealed ≡ None) × (entries ≡ set_all (filter_map update_of journal)) }
{}

/// Both lists come from the journal: an opening that finds a full region makes them of its two parts. And once a
/// checkpoint has taken what was sealed, level 0 alone holds what came since.
pub fn both_lists_come_from_the_journal()
    ensures full { (mem : ℕ) (journal : List Change) → mem ≤ length journal
        → HoldLists mem journal (set_all (filter_map update_of (drop mem journal)))
        (Some (set_all (filter_map update_of (take mem journal)))) mem }
    ensures left { (mem : ℕ) (journal : List Change) (entries sealed : List Entry) (spare : ℕ)
        → HoldLists mem journal entries (Some sealed) spare → length (drop mem journal) ≤ mem
        → HoldLists mem (drop mem journal) entries None spare }
{}

/// Where the journal just fills the region, level 0 may be sealed, and a new one without entries stands before it.
pub fn sealing_changes_nothing()
    ensures { (mem : ℕ) (journal : List Change) (entries : List Entry) (spare : ℕ)
        → HoldLists mem journal entries None spare → length journal ≡ mem
        → HoldLists mem journal [] (Some entries) mem }
{}

/// At a living version both lists, and then the levels, are read as the state is; and the bytes of the levels as its
/// table.
pub fn both_lists_are_read()
    ensures read { (s : State) (entries : List Entry) (sealed : Option (List Entry)) (spare v : ℕ)
        (key : List ℕ) → IsSound s → HoldLists s.mem s.journal entries sealed spare
        → IsTrue (is_living s v)
        → looked_up of_state (versions_of s) (lists_read entries sealed) s.levels v key
        ≡ read_at s v key }
    ensures asked { (c : Image) (h : Head) (s : State) (entries : List Entry)
        (sealed : Option (List Entry)) (spare v : ℕ) (key : List ℕ) → state_of c h ≡ Some s
        → IsSound s → HoldLists s.mem s.journal entries sealed spare → v < length (versions_of s)
        → IsTrue (is_living s v)
        → asked c (versions_of s) (lists_read entries sealed) h.manifest.levels v key
        ≡ value_of (pairs_at (table_of s) v) key }
{}

/// A change that comes is set in level 0 alone: while the active region has room, and in front of a sealed one. Level
/// 0 has room for it, as the journal has.
pub fn a_change_goes_to_the_newer_list()
    ensures room { (mem : ℕ) (journal : List Change) (entries : List Entry)
        (sealed : Option (List Entry)) (spare : ℕ) → HoldLists mem journal entries sealed spare
        → (sealed ≡ None → length journal < mem) → length journal < 2 * mem - 2 → 1 ≤ spare }
    ensures update { (mem : ℕ) (journal : List Change) (entries : List Entry)
        (sealed : Option (List Entry)) (spare : ℕ) (c : Change) (e : Entry) → update_of c ≡ Some e
        → HoldLists mem journal entries sealed spare → (sealed ≡ None → length journal < mem)
        → HoldLists mem (journal ++ c ∷ []) (set_entry e entries) sealed (spare - 1) }
    ensures other { (mem : ℕ) (journal : List Change) (entries : List Entry)
        (sealed : Option (List Entry)) (spare : ℕ) (c : Change) → update_of c ≡ None
        → HoldLists mem journal entries sealed spare → (sealed ≡ None → length journal < mem)
        → HoldLists mem (journal ++ c ∷ []) entries sealed spare }
{}

/// What is sealed are the updates in the state of the full region, and so what a promotion takes.
pub fn what_is_sealed_is_what_is_promoted()
    ensures { (x : Contents) (entries sealed : List Entry) (spare : ℕ)
        → HoldLists x.sb.mem x.journal entries (Some sealed) spare
        → (x.sb.mem ≤ length x.journal) × (sealed ≡ set_all (journal_updates (sealed_state x))) }
{}

/// Five changes where a region takes four: the first three updates are sealed, and the fifth change alone is in level
/// 0.
pub fn five_changes_are_in_two_lists()
    ensures { (entries sealed : List Entry) (spare : ℕ)
        → HoldLists 4 (Put 0 (98 ∷ []) (49 ∷ []) ∷ Put 0 (97 ∷ []) (50 ∷ []) ∷ Clone 0
        ∷ Delete 1 (98 ∷ []) ∷ Put 1 (97 ∷ []) (51 ∷ []) ∷ []) entries (Some sealed) spare
        → (entries ≡ record { key = 97 ∷ []; version = 1; value = Some (51 ∷ []) } ∷ [])
        × (sealed ≡ record { key = 97 ∷ []; version = 0; value = Some (50 ∷ []) }
        ∷ record { key = 98 ∷ []; version = 1; value = None }
        ∷ record { key = 98 ∷ []; version = 0; value = Some (49 ∷ []) } ∷ [])
        × (3 ≤ spare) }
{}
