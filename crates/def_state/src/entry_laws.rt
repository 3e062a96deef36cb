//! Laws of entries in order, and of the maps that a tree and entries give. Each is the contract of a
//! function that does nothing.

ghost use Rattle.std.specs.BTreeMap.{insert_entry};
ghost use Rattle.std.specs.List.{list_any, list_all};
ghost use Rattle.std.specs.Map.{lookup, remove_entry};
ghost use Rattle.std.specs.Ordering.{is_eq};
ghost use Rattle.std.specs.Prelude.{◌≡◌, ◌==◌, if◌then◌else◌, ℕ, ◌+◌, ◌<◌, List, [], ◌∷◌, ◌++◌, length, filter, find, Some, None, option_and_then, IsTrue, true};
ghost use Rattle.strat_base.specs.Entries.{Entry, is_of, is_at, is_single, is_ascending, latest};
ghost use Rattle.strat_base.specs.Order.{key_cmp};
ghost use Rattle.strat_base.specs.Tree.{Parents, is_known, is_ancestor, with_child, IsTree};
ghost use Rattle.def_state.specs.Live.{live, deciding};
ghost use Rattle.def_state.specs.Maps.{map_over};
ghost use Rattle.def_state.specs.Reading.{live_of};
ghost use Rattle.def_state.specs.Setting.{set_entry, set_all};

/// Entries in order, one for each key and version, stay so when one is set among them, and every key
/// and version is found as if that one stood in front.
pub fn setting_keeps_entries_in_order()
    ensures kept { (e : Entry) (entries : List Entry) → IsTrue (is_ascending entries)
        → IsTrue (is_ascending (set_entry e entries)) × IsTrue (is_single (set_entry e entries)) }
    ensures len { (e : Entry) (entries : List Entry) → IsTrue (is_ascending entries)
        → length (set_entry e entries)
        ≡ length entries + (if list_any (is_at e.key e.version) entries then 0 else 1) }
    ensures found { (e : Entry) (entries : List Entry) (key : List ℕ) (u : ℕ)
        → find (is_at key u) (set_entry e entries) ≡ find (is_at key u) (e ∷ entries) }
{}

/// Updates that are set one after another leave the latest of each key and version, in order, and a key
/// is read in them as in the latest updates of level 0.
pub fn updates_leave_their_latest_in_order()
    ensures kept { (updates : List Entry) → IsTrue (is_ascending (set_all updates)) }
    ensures ok { (updates : List Entry) (e : Entry)
        → set_all (updates ++ e ∷ []) ≡ set_entry e (set_all updates) }
    ensures found { (updates : List Entry) (key : List ℕ) (u : ℕ)
        → find (is_at key u) (set_all updates) ≡ find (is_at key u) (latest updates) }
    ensures same { (parents : Parents) (updates : List Entry) (v : ℕ) (key : List ℕ)
        → IsTree parents
        → live_of parents (set_all updates) v key ≡ live_of parents (latest updates) v key }
{}

/// Among entries in order the first of a key at a version or an ancestor of it decides the key there,
/// and it is the one that is live.
pub fn the_first_of_a_key_on_the_path_decides()
    ensures found { (parents : Parents) (entries : List Entry) (key : List ℕ) (v : ℕ)
        → IsTree parents → IsTrue (is_ascending entries) → deciding parents entries key v
        ≡ find (λ e. is_ancestor parents e.version v) (filter (is_of key) entries) }
    ensures same { (parents : Parents) (entries : List Entry) (key : List ℕ) (v : ℕ)
        → IsTree parents → IsTrue (is_ascending entries)
        → deciding parents entries key v ≡ find (is_of key) (live parents entries v) }
{}

/// The map of a version has for each key the value of the entry that decides it.
pub fn maps_have_the_deciding_values()
    ensures { (parents : Parents) (entries : List Entry) (v : ℕ) (key : List ℕ) → IsTree parents
        → lookup (λ k. is_eq (key_cmp key k)) (map_over parents entries v)
        ≡ option_and_then (λ e. e.value) (deciding parents entries key v) }
{}

/// An entry that is set at a version changes no map but that of this version and those below it: its key
/// gets its value, or is gone.
pub fn set_entries_change_one_map()
    ensures ok { (parents : Parents) (entries : List Entry) (v : ℕ) (key value : List ℕ) (u : ℕ)
        → IsTree parents → (is_ancestor parents v u ≡ true → u ≡ v)
        → map_over parents
        (set_entry (record { key = key; version = v; value = Some value }) entries) u
        ≡ (if u == v then insert_entry key_cmp (map_over parents entries u) key value
        else map_over parents entries u) }
    ensures none { (parents : Parents) (entries : List Entry) (v : ℕ) (key : List ℕ) (u : ℕ)
        → IsTree parents → (is_ancestor parents v u ≡ true → u ≡ v)
        → map_over parents (set_entry (record { key = key; version = v; value = None }) entries) u
        ≡ (if u == v then remove_entry (λ k. is_eq (key_cmp key k)) (map_over parents entries u)
        else map_over parents entries u) }
{}

/// A child begins with the map of its parent, and no older map changes.
pub fn children_begin_with_their_parents_map()
    ensures same { (parents : Parents) (entries : List Entry) (p u : ℕ) → IsTree parents
        → p < length parents → u < length parents
        → map_over (with_child parents p) entries u ≡ map_over parents entries u }
    ensures ok { (parents : Parents) (entries : List Entry) (p : ℕ) → IsTree parents
        → p < length parents → IsTrue (list_all (λ e. is_known parents e.version) entries)
        → map_over (with_child parents p) entries (length parents) ≡ map_over parents entries p }
{}
