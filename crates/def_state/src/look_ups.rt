//! Laws of what a look-up goes through. Each is the contract of a function that does nothing.

ghost use Rattle.std.specs.List.{list_any};
ghost use Rattle.std.specs.Prelude.{◌≡◌, ◌<◌, ℕ, Bool, List, [], ◌∷◌, ◌++◌, length, filter_map, None, option_and_then, false, IsTrue};
ghost use Rattle.strat_base.specs.Change.{Change};
ghost use Rattle.strat_base.specs.Entries.{Entry, is_of, latest};
ghost use Rattle.strat_base.specs.Tree.{Parents};
ghost use Rattle.def_state.specs.Level.{TaggedArray, Level};
ghost use Rattle.def_state.specs.LookUp.{Reading, looked_up, of_state, filtered};
ghost use Rattle.def_state.specs.Reading.{level_zero, live_of, read_at};
ghost use Rattle.def_state.specs.Sound.{IsSound};
ghost use Rattle.def_state.specs.State.{State, versions_of, is_living, update_of, value_at};

/// A state is read by looking up in its level 0 and its levels, and where it is sound this finds the value of
/// the key at the version.
pub fn states_are_looked_up()
    ensures same { (s : State) (v : ℕ) (key : List ℕ)
        → looked_up of_state (versions_of s) (level_zero s ∷ []) s.levels v key ≡ read_at s v key }
    ensures found { (s : State) (v : ℕ) (key : List ℕ) → IsSound s → v < length (versions_of s)
        → IsTrue (is_living s v) → option_and_then (λ e. e.value)
        (looked_up of_state (versions_of s) (level_zero s ∷ []) s.levels v key)
        ≡ value_at s v key }
{}

/// Where a sound state's journal was sealed after some of its changes, the sealed updates stand behind the later
/// ones, and a look-up finds the same.
pub fn sealing_changes_no_answer()
    ensures { (s : State) (older newer : List Change) (v : ℕ) (key : List ℕ) → IsSound s
        → s.journal ≡ older ++ newer → IsTrue (is_living s v)
        → looked_up of_state (versions_of s)
        (latest (filter_map update_of newer) ∷ latest (filter_map update_of older) ∷ [])
        s.levels v key ≡ read_at s v key }
{}

/// Where no entry is of a key none of it is live, so a filter that passes each array with an entry of the
/// key changes no answer.
pub fn filters_change_no_answer()
    ensures key { (parents : Parents) (entries : List Entry) (v : ℕ) (key : List ℕ)
        → list_any (is_of key) entries ≡ false → live_of parents entries v key ≡ None }
    ensures same { (may_hold : TaggedArray → List ℕ → Bool) (parents : Parents)
        (zeros : List (List Entry)) (levels : List Level) (v : ℕ) (key : List ℕ)
        → ((a : TaggedArray) → may_hold a key ≡ false → list_any (is_of key) a.content ≡ false)
        → looked_up (filtered may_hold of_state) parents zeros levels v key
        ≡ looked_up of_state parents zeros levels v key }
{}
