//! Laws of thinning and of compactions. Each is the contract of a function that does nothing.

ghost use Rattle.std.specs.List.{list_all};
ghost use Rattle.std.specs.Prelude.{◌≡◌, ◌<◌, ◌≤◌, ◌*◌, ◌&&◌, not, ℕ, List, [], length, map, IsTrue, false};
ghost use Rattle.strat_base.specs.Entries.{Entry, is_single, is_same_value};
ghost use Rattle.strat_base.specs.Marks.{Marks, is_dropped, ArePruned};
ghost use Rattle.strat_base.specs.Tree.{Parents, is_known, IsTree};
ghost use Rattle.def_split.specs.Groups.{grouped_entries, AreGroups, SplitsGroups};
ghost use Rattle.def_split.specs.Plan.{Plan, horizon_of};
ghost use Rattle.def_promote.specs.Compacted.{HasRoomForAll, thinned_in, Compacts, compact_level, CompactsGroups, compact_level_of_groups, compacted_to};
ghost use Rattle.def_promote.specs.Kept.{kept_over};
ghost use Rattle.def_promote.specs.Merging.{runs_taken, Merges};
ghost use Rattle.def_promote.specs.Promoted.{SaysTheSame};
ghost use Rattle.def_promote.specs.Replaced.{Replaces};
ghost use Rattle.def_promote.specs.Thin.{value_above, thinned};
ghost use Rattle.def_state.specs.Maps.{value_over, map_over};
ghost use Rattle.def_state.specs.Sound.{IsOrdered, IsSound};
ghost use Rattle.def_state.specs.State.{State, versions_of, marks_of, map_at, changes_of, stored, deep, IsPaid};

/// Thinning leaves each value of a living version. What is left is at living versions, and none of it
/// repeats what the parent has afterwards. It is as much as the maps of living versions differ from those
/// of their parents. And it may be done group by group.
pub fn thinning_keeps_living_values()
    ensures value { (parents : Parents) (marks : Marks) (entries : List Entry) (key : List ℕ)
        (v : ℕ) → IsTree parents → ArePruned parents marks → IsTrue (is_single entries)
        → is_dropped marks v ≡ false
        → value_over parents (thinned parents marks entries) v key
        ≡ value_over parents entries v key }
    ensures living { (parents : Parents) (marks : Marks) (entries : List Entry)
        → IsTree parents → ArePruned parents marks → IsTrue (is_single entries)
        → IsTrue
        (list_all
        (λ e. not (is_dropped marks e.version)
        && not (is_same_value
        e.value
        (value_above parents (thinned parents marks entries) e.version e.key)))
        (thinned parents marks entries)) }
    ensures counts { (parents : Parents) (marks : Marks) (entries : List Entry)
        → IsTree parents → ArePruned parents marks → IsTrue (is_single entries)
        → IsTrue (list_all (λ e. is_known parents e.version) entries)
        → length (thinned parents marks entries)
        ≡ kept_over parents marks (λ v. map_over parents entries v) }
    ensures groups { (parents : Parents) (marks : Marks) (groups : List (List Entry))
        → AreGroups groups
        → grouped_entries (map (thinned parents marks) groups)
        ≡ thinned parents marks (grouped_entries groups) }
    ensures kept { (parents : Parents) (marks : Marks) (groups : List (List Entry))
        → AreGroups groups → AreGroups (map (thinned parents marks) groups) }
{}

/// A compaction replaces the journal and all levels by at most one level. The state after it says the same,
/// and is sound if it was. It stores at most two entries for each key at which the map of a living version
/// differs from its parent's. Its level may be the one that all changes ask for. Then a paid state stays
/// paid, though what the compaction wrote is not among the entries written.
pub fn a_compaction_says_the_same_in_little()
    ensures replaces { (s : State) (j : ℕ) (entries : List Entry) (plan : Plan) (first : ℕ)
        → IsOrdered s → Compacts s j entries plan
        → Replaces s j s.levels [] (compact_level s j entries plan first) entries
        (thinned_in s entries) }
    ensures says { (s : State) (j : ℕ) (entries : List Entry) (plan : Plan)
        (first compacted next_array : ℕ) → IsOrdered s → Compacts s j entries plan
        → SaysTheSame s
        (compacted_to s (compact_level s j entries plan first) compacted next_array) }
    ensures sound { (s : State) (j : ℕ) (entries : List Entry) (plan : Plan)
        (first compacted next_array : ℕ) → IsSound s → Compacts s j entries plan
        → IsSound (compacted_to s (compact_level s j entries plan first) compacted next_array) }
    ensures small { (s : State) (j : ℕ) (entries : List Entry) (plan : Plan)
        (first compacted next_array : ℕ) → IsOrdered s → Compacts s j entries plan
        → stored (compacted_to s (compact_level s j entries plan first) compacted next_array)
        ≤ 2 * kept_over (versions_of s) (marks_of s) (map_at s) }
    ensures paid { (s : State) (j : ℕ) (entries : List Entry) (plan : Plan)
        (first compacted next_array : ℕ) → IsOrdered s → IsPaid s → 0 < s.mem
        → Compacts s j entries plan → j ≡ deep s.mem (changes_of s)
        → IsPaid (compacted_to s (compact_level s j entries plan first) compacted next_array) }
    ensures groups { (s : State) (j : ℕ) (groups : List (List Entry)) (own seen : ℕ → ℕ)
        (plan : Plan) (first : ℕ) → IsOrdered s → CompactsGroups s j groups own seen plan
        → Compacts s j (grouped_entries groups) plan
        × (compact_level_of_groups s j groups plan first
        ≡ compact_level s j (grouped_entries groups) plan first) }
{}

/// The level that all changes ask for has room for all that a state says, and is one of the 22 levels.
pub fn the_depth_has_room_for_all()
    ensures { (s : State) → IsOrdered s → 4 ≤ s.mem → s.updates ≤ s.changes
        → changes_of s ≤ 16777216 → HasRoomForAll s (deep s.mem (changes_of s)) }
{}

/// Groups that were merged from all runs of a state are compacted, once their versions were split.
pub fn merged_groups_are_compacted()
    ensures { (s : State) (j : ℕ) (groups : List (List Entry)) (own seen : ℕ → ℕ) (plan : Plan)
        → HasRoomForAll s j → Merges (runs_taken s s.levels) groups
        → horizon_of plan ≡ length (versions_of s)
        → SplitsGroups (versions_of s) (map (thinned_in s) groups) own seen plan
        → CompactsGroups s j groups own seen plan }
{}
