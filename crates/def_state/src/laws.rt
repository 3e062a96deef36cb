//! Laws that tie the definitions of a store's structure together. Each is the contract of a
//! function that does nothing.

ghost use Rattle.std.specs.BTreeMap.{insert_entry};
ghost use Rattle.std.specs.List.{list_any, list_all};
ghost use Rattle.std.specs.Map.{lookup, remove_entry};
ghost use Rattle.std.specs.Ordering.{is_eq};
ghost use Rattle.std.specs.Prelude.{◌≡◌, ◌↔◌, ◌==◌, if◌then◌else◌, ℕ, ◌+◌, ◌*◌, ◌^◌, ◌<◌, ◌≤◌, List, [], ◌∷◌, length, filter, find, Some, option_and_then, IsTrue};
ghost use Rattle.def_state.specs.Breach.{breaches};
ghost use Rattle.strat_base.specs.Change.{Change, Put, Delete, Clone, DropVersion};
ghost use Rattle.strat_base.specs.Entries.{Entry, is_of, is_single};
ghost use Rattle.def_state.specs.Level.{Level, has_disjoint_tags, has_single_leads};
ghost use Rattle.def_state.specs.Live.{live, deciding};
ghost use Rattle.strat_base.specs.Order.{key_cmp};
ghost use Rattle.def_state.specs.Reading.{read_at};
ghost use Rattle.def_state.specs.Sound.{has_ascending_entries, is_droppable, IsWellFormed, IsSound, Takes};
ghost use Rattle.def_state.specs.State.{State, fresh_state, versions_of, marks_of, is_living, sources, value_at, map_at, updates_of, changes_of, appended, stored, deep, IsPaid};
ghost use Rattle.strat_base.specs.Tree.{Parents, parent_of, path, is_ancestor, below, with_child, IsTree};

/// Where no key has two entries at one version, at most one entry of a key is live at a version:
/// the one that decides the key there.
pub fn one_entry_of_a_key_is_live()
    ensures few { (parents : Parents) (entries : List Entry) (key : List ℕ) (v : ℕ) → IsTree parents
        → IsTrue (is_single entries) → length (filter (is_of key) (live parents entries v)) ≤ 1 }
    ensures deciding { (parents : Parents) (entries : List Entry) (key : List ℕ) (v : ℕ)
        → IsTree parents → IsTrue (is_single entries)
        → find (is_of key) (live parents entries v) ≡ deciding parents entries key v }
{}

/// A key that is live at a version is live at each child of it.
pub fn live_keys_stay_live()
    ensures { (parents : Parents) (entries : List Entry) (key : List ℕ) (v child : ℕ)
        → IsTree parents → parent_of parents child ≡ Some v
        → IsTrue (list_any (is_of key) (live parents entries v))
        → IsTrue (list_any (is_of key) (live parents entries child)) }
{}

/// In a sound state the first level that has an entry of a key live at a version decides the key
/// there. Level 0 is the journal; each further level, the shallowest first, has one array for the
/// version.
pub fn the_first_place_decides()
    ensures entry { (s : State) (v : ℕ) (key : List ℕ) → IsSound s → v < length (versions_of s)
        → IsTrue (is_living s v) → read_at s v key ≡ deciding (versions_of s) (sources s) key v }
    ensures value { (s : State) (v : ℕ) (key : List ℕ) → IsSound s → v < length (versions_of s)
        → IsTrue (is_living s v)
        → option_and_then (λ e. e.value) (read_at s v key) ≡ value_at s v key }
    ensures map { (s : State) (v : ℕ) (key : List ℕ) → IsSound s → v < length (versions_of s)
        → IsTrue (is_living s v) → option_and_then (λ e. e.value) (read_at s v key)
        ≡ lookup (λ k. is_eq (key_cmp key k)) (map_at s v) }
{}

/// A sound state is one that is well formed and breaks no rule.
pub fn soundness_is_no_breach()
    ensures { (s : State) → IsSound s ↔ (IsWellFormed s × (breaches s ≡ [])) }
{}

/// Where arrays ascend and tags are disjoint, a level has one lead for each key and version.
pub fn ordered_arrays_have_single_leads()
    ensures { (level : Level) → IsTrue (list_all has_ascending_entries level.arrays)
        → IsTrue (has_disjoint_tags level) → IsTrue (has_single_leads level) }
{}

/// A put that a sound state takes sets the key in the map of its version and changes no other.
pub fn a_put_sets_a_key()
    ensures kept { (s : State) (v : ℕ) (key value : List ℕ) → Takes s (Put v key value)
        → IsSound (appended s (Put v key value)) }
    ensures tree { (s : State) (v : ℕ) (key value : List ℕ) → Takes s (Put v key value)
        → versions_of (appended s (Put v key value)) ≡ versions_of s }
    ensures map { (s : State) (v : ℕ) (key value : List ℕ) (u : ℕ) → Takes s (Put v key value)
        → map_at (appended s (Put v key value)) u
        ≡ (if u == v then insert_entry key_cmp (map_at s u) key value else map_at s u) }
    ensures counts { (s : State) (v : ℕ) (key value : List ℕ)
        → (updates_of (appended s (Put v key value)) ≡ updates_of s + 1)
        × (changes_of (appended s (Put v key value)) ≡ changes_of s + 1) }
{}

/// A deletion that a sound state takes removes the key from its version's map and changes no other.
pub fn a_deletion_removes_a_key()
    ensures kept { (s : State) (v : ℕ) (key : List ℕ) → Takes s (Delete v key)
        → IsSound (appended s (Delete v key)) }
    ensures tree { (s : State) (v : ℕ) (key : List ℕ) → Takes s (Delete v key)
        → versions_of (appended s (Delete v key)) ≡ versions_of s }
    ensures map { (s : State) (v : ℕ) (key : List ℕ) (u : ℕ) → Takes s (Delete v key)
        → map_at (appended s (Delete v key)) u
        ≡ (if u == v then remove_entry (λ k. is_eq (key_cmp key k)) (map_at s u) else map_at s u) }
    ensures counts { (s : State) (v : ℕ) (key : List ℕ)
        → (updates_of (appended s (Delete v key)) ≡ updates_of s + 1)
        × (changes_of (appended s (Delete v key)) ≡ changes_of s + 1) }
{}

/// A clone that a sound state takes makes one more version with its parent's map, and changes no other.
pub fn a_clone_copies_a_map()
    ensures kept { (s : State) (p : ℕ) → Takes s (Clone p) → IsSound (appended s (Clone p)) }
    ensures tree { (s : State) (p : ℕ) → Takes s (Clone p)
        → versions_of (appended s (Clone p)) ≡ with_child (versions_of s) p }
    ensures same { (s : State) (p u : ℕ) → Takes s (Clone p) → u < length (versions_of s)
        → map_at (appended s (Clone p)) u ≡ map_at s u }
    ensures child { (s : State) (p : ℕ) → Takes s (Clone p)
        → map_at (appended s (Clone p)) (length (versions_of s)) ≡ map_at s p }
    ensures counts { (s : State) (p : ℕ) → (updates_of (appended s (Clone p)) ≡ updates_of s)
        × (changes_of (appended s (Clone p)) ≡ changes_of s + 1) }
{}

/// A version that a sound state may drop has the empty map once it is dropped, no other map changes, and the state stays
/// sound.
pub fn a_drop_empties_a_map()
    ensures kept { (s : State) (v : ℕ) → Takes s (DropVersion v)
        → IsSound (appended s (DropVersion v)) }
    ensures tree { (s : State) (v : ℕ) → versions_of (appended s (DropVersion v)) ≡ versions_of s }
    ensures map { (s : State) (v u : ℕ) → IsSound s
        → IsTrue (is_droppable s.changes_max (versions_of s) (marks_of s) (changes_of s) v)
        → map_at (appended s (DropVersion v)) u ≡ (if u == v then [] else map_at s u) }
    ensures counts { (s : State) (v : ℕ)
        → (updates_of (appended s (DropVersion v)) ≡ updates_of s)
        × (changes_of (appended s (DropVersion v)) ≡ changes_of s + 1) }
{}

/// A new store is sound, has paid, stores nothing and has the empty map at its one version.
pub fn a_new_store_is_sound()
    ensures sound { (mem changes_max versions_max : ℕ)
        → IsSound (fresh_state mem changes_max versions_max) }
    ensures paid { (mem changes_max versions_max : ℕ)
        → IsPaid (fresh_state mem changes_max versions_max) }
    ensures empty { (mem changes_max versions_max : ℕ)
        → (stored (fresh_state mem changes_max versions_max) ≡ 0)
        × (map_at (fresh_state mem changes_max versions_max) 0 ≡ []) }
{}

/// A sound state stores at most two entries for each update that was accepted.
pub fn a_sound_state_stores_two_entries_per_update()
    ensures { (s : State) → IsSound s → stored s ≤ 2 * updates_of s }
{}

/// `deep` is the least level, from 1 on, that has room for so many leads.
pub fn deep_is_the_least_level_with_room()
    ensures first { (mem n : ℕ) → 0 < mem → 1 ≤ deep mem n }
    ensures room { (mem n : ℕ) → 0 < mem → n ≤ mem * 2 ^ deep mem n }
    ensures least { (mem n d : ℕ) → 0 < mem → 1 ≤ d → n ≤ mem * 2 ^ d → deep mem n ≤ d }
{}

/// One more change in the journal leaves a state as paid as it was.
pub fn a_change_in_the_journal_costs_nothing()
    ensures { (s : State) (change : Change) → IsPaid s → IsPaid (appended s change) }
{}
