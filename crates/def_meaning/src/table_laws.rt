//! Laws of the table that a tree of versions, their marks and a list of entries mean: what each
//! command answers at it, and what tree, marks and entries the table after it has. Each is the
//! contract of a function that does nothing.

ghost use Rattle.std.specs.Prelude.{◌≡◌, ◌≢◌, ℕ, true, false, List, [], ◌∷◌, ◌++◌, Some, None, slice_set, IsTrue};
ghost use Rattle.strat_base.specs.Entries.{Entry};
ghost use Rattle.strat_base.specs.Marks.{Marks, is_dropped, has_living_child};
ghost use Rattle.strat_base.specs.Tree.{Parents, is_known, with_child};
ghost use Rattle.strat_model.specs.Request.{Put, Delete, Get, Clone, DropVersion, Info, Stat};
ghost use Rattle.strat_model.specs.Step.{step, has_row, is_frozen, pairs_at};
ghost use Rattle.strat_model.specs.Table.{Table, fresh};
ghost use Rattle.def_meaning.specs.StateTable.{table_of};
ghost use Rattle.def_meaning.specs.TableOver.{rows_over, IsTableOver, update_over, clone_over, drop_over, get_over, info_over, stat_over};
ghost use Rattle.def_state.specs.Setting.{set_entry, set_all};
ghost use Rattle.def_state.specs.Sound.{is_there, takes_updates, IsSound};
ghost use Rattle.def_state.specs.State.{State, versions_of, marks_of, sources, journal_updates};

/// A new table is that of version 0 alone, which is living, and no entry.
pub fn new_tables_are_over_no_entry()
    ensures { (changes_max versions_max : ℕ)
        → IsTableOver (None ∷ []) (false ∷ []) [] (fresh changes_max versions_max) }
{}

/// A put and a deletion set an entry, a clone adds a child to the tree, a drop sets a mark, and the
/// further commands read the tree, its marks and the entry that decides a key.
pub fn commands_follow_tree_and_entries()
    ensures put { (parents : Parents) (marks : Marks) (entries : List Entry) (t : Table) (v : ℕ)
        (key value : List ℕ) → IsTableOver parents marks entries t → step t (Put v key value)
        ≡ update_over parents marks entries t
        (record { key = key; version = v; value = Some value }) }
    ensures delete { (parents : Parents) (marks : Marks) (entries : List Entry) (t : Table) (v : ℕ)
        (key : List ℕ) → IsTableOver parents marks entries t → step t (Delete v key)
        ≡ update_over parents marks entries t (record { key = key; version = v; value = None }) }
    ensures clone { (parents : Parents) (marks : Marks) (entries : List Entry) (t : Table) (p : ℕ)
        → IsTableOver parents marks entries t
        → step t (Clone p) ≡ clone_over parents marks entries t p }
    ensures drop { (parents : Parents) (marks : Marks) (entries : List Entry) (t : Table) (v : ℕ)
        → IsTableOver parents marks entries t
        → step t (DropVersion v) ≡ drop_over parents marks entries t v }
    ensures get { (parents : Parents) (marks : Marks) (entries : List Entry) (t : Table) (v : ℕ)
        (key : List ℕ) → IsTableOver parents marks entries t
        → step t (Get v key) ≡ get_over parents marks entries t v key }
    ensures info { (parents : Parents) (marks : Marks) (entries : List Entry) (t : Table) (v : ℕ)
        → IsTableOver parents marks entries t
        → step t (Info v) ≡ info_over parents marks t v }
    ensures stat { (parents : Parents) (marks : Marks) (entries : List Entry) (t : Table)
        → IsTableOver parents marks entries t → step t Stat ≡ stat_over parents t }
{}

/// The table after an accepted change is that of the entries with one set, of the tree with one child
/// more, or of the marks with one more set.
pub fn changed_tables_are_over_changed_entries()
    ensures ok { (parents : Parents) (marks : Marks) (entries : List Entry) (t after : Table)
        (e : Entry) → IsTableOver parents marks entries t → IsTrue (is_known parents e.version)
        → after.rows ≡ rows_over parents marks (set_entry e entries)
        → IsTableOver parents marks (set_entry e entries) after }
    ensures same { (parents : Parents) (marks : Marks) (entries : List Entry) (t after : Table)
        (p : ℕ) → IsTableOver parents marks entries t → IsTrue (is_there parents marks p)
        → after.rows ≡ rows_over (with_child parents p) (marks ++ false ∷ []) entries
        → IsTableOver (with_child parents p) (marks ++ false ∷ []) entries after }
    ensures dropped { (parents : Parents) (marks : Marks) (entries : List Entry) (t after : Table)
        (v : ℕ) → IsTableOver parents marks entries t → IsTrue (takes_updates parents marks v)
        → v ≢ 0 → after.rows ≡ rows_over parents (slice_set marks v true) entries
        → IsTableOver parents (slice_set marks v true) entries after }
{}

/// A state means the table of its versions, their marks and what it says of keys, and a sound one
/// without levels that of what its updates leave.
pub fn states_without_levels_mean_their_updates()
    ensures rows { (s : State)
        → (table_of s).rows ≡ rows_over (versions_of s) (marks_of s) (sources s) }
    ensures ok { (s : State) → IsSound s → s.levels ≡ []
        → IsTableOver (versions_of s) (marks_of s) (set_all (journal_updates s)) (table_of s) }
{}

/// A state's table has the versions that were made and not dropped, of which those with a living child
/// are frozen; and one that was dropped has no pairs.
pub fn dropped_versions_are_not_there()
    ensures known { (s : State) (v : ℕ)
        → has_row (table_of s) v ≡ is_there (versions_of s) (marks_of s) v }
    ensures frozen { (s : State) (v : ℕ)
        → is_frozen (table_of s) v ≡ has_living_child (versions_of s) (marks_of s) v }
    ensures pairs { (s : State) (v : ℕ) → IsTrue (is_dropped (marks_of s) v)
        → pairs_at (table_of s) v ≡ [] }
{}
