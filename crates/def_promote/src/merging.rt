//! Laws of unions, of merging and of purging. Each is the contract of a function that does nothing.

ghost use Rattle.std.specs.Prelude.{◌≡◌, ◌<◌, ℕ, List, [], ◌∷◌, ◌++◌, length, map, find, option_and_then, IsTrue};
ghost use Rattle.std.specs.Option.{option_or};
ghost use Rattle.strat_base.specs.Entries.{Entry, is_at, is_single};
ghost use Rattle.strat_base.specs.Tree.{Parents, IsTree};
ghost use Rattle.def_split.specs.Groups.{grouped_entries, AreGroups};
ghost use Rattle.def_promote.specs.Merging.{runs_taken, rest_of, IsNext, MergesTo, Merges};
ghost use Rattle.def_promote.specs.Promoted.{told_by};
ghost use Rattle.def_promote.specs.Purge.{purged, groups_over};
ghost use Rattle.def_promote.specs.Union.{IsUnion};
ghost use Rattle.def_state.specs.Level.{Level};
ghost use Rattle.def_state.specs.Live.{deciding};
ghost use Rattle.def_state.specs.Reading.{live_of, level_zero, found_first};
ghost use Rattle.def_state.specs.Sound.{IsSound};
ghost use Rattle.def_state.specs.State.{State, versions_of, is_living};

/// Some entries have one union.
pub fn a_union_is_unique()
    ensures { (others entries same : List Entry) → IsUnion others entries → IsUnion others same
        → entries ≡ same }
{}

/// The groups that runs give until nothing is left are groups, and together the runs' union, of
/// which the newest run stands first.
pub fn merged_groups_are_the_union()
    ensures union { (runs groups : List (List Entry)) → Merges runs groups
        → IsUnion (grouped_entries runs) (grouped_entries groups) }
    ensures groups { (runs groups : List (List Entry)) → Merges runs groups → AreGroups groups }
    ensures more { (runs groups left : List (List Entry)) (key : List ℕ) (group : List Entry)
        → MergesTo runs groups left → IsNext left key group
        → MergesTo runs (groups ++ group ∷ []) (map (rest_of key) left) }
{}

/// A merge has no choice: its groups so far and the next one are the first of all groups, and where nothing is left
/// they are all.
pub fn merges_are_unique()
    ensures more { (runs all groups left : List (List Entry)) (key : List ℕ) (group : List Entry)
        → Merges runs all → MergesTo runs groups left → IsNext left key group
        → (rest : List (List Entry)) × (all ≡ groups ++ group ∷ rest) }
    ensures end { (runs all groups left : List (List Entry)) → Merges runs all
        → MergesTo runs groups left → grouped_entries left ≡ [] → all ≡ groups }
    ensures same { (runs all groups : List (List Entry)) → Merges runs all → Merges runs groups
        → all ≡ groups }
{}

/// The runs of a state say what the state says: the journal's updates in order, and then the leads
/// array by array, the shallowest level first.
pub fn runs_say_what_a_state_says()
    ensures { (s : State) (taken : List Level) (key : List ℕ) (u : ℕ)
        → find (is_at key u) (grouped_entries (runs_taken s taken))
        ≡ find (is_at key u) (told_by s taken) }
{}

/// Purging leaves every value: a mark that a key is gone is dropped only where nothing above its
/// version has a value. It may be done group by group.
pub fn purging_changes_no_value()
    ensures value { (parents : Parents) (entries : List Entry) (key : List ℕ) (v : ℕ)
        → IsTree parents → IsTrue (is_single entries)
        → option_and_then (λ e. e.value) (deciding parents (purged parents entries) key v)
        ≡ option_and_then (λ e. e.value) (deciding parents entries key v) }
    ensures groups { (parents : Parents) (groups : List (List Entry)) → AreGroups groups
        → grouped_entries (map (purged parents) groups)
        ≡ purged parents (grouped_entries groups) }
    ensures kept { (parents : Parents) (kept : List Level) (groups : List (List Entry))
        → AreGroups groups → AreGroups (groups_over parents kept groups) }
{}

/// Reading the union of the journal and the first levels at a living version finds what reading them
/// one after another finds.
pub fn a_union_is_read_as_its_places()
    ensures { (s : State) (taken kept : List Level) (entries : List Entry) (v : ℕ)
        (key : List ℕ) → IsSound s → s.levels ≡ taken ++ kept
        → IsUnion (told_by s taken) entries → v < length (versions_of s)
        → IsTrue (is_living s v)
        → live_of (versions_of s) entries v key
        ≡ option_or (live_of (versions_of s) (level_zero s) v key)
        (found_first (versions_of s) taken v key) }
{}
