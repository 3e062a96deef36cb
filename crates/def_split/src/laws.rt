//! Laws of plans and of the levels that they give. Each is the contract of a function that does
//! nothing.

ghost use Rattle.std.specs.List.{list_all};
ghost use Rattle.std.specs.Prelude.{◌≡◌, ℕ, ◌+◌, ◌<◌, ◌≤◌, nat_lt, List, length, Some, None, IsTrue};
ghost use Rattle.strat_base.specs.Entries.{Entry, is_ascending, holds_entry};
ghost use Rattle.strat_base.specs.Tree.{Parents, parent_of, IsTree};
ghost use Rattle.def_split.specs.Groups.{grouped_entries, AreGroups, group_versions, own_of, SplitsGroups, level_of_groups};
ghost use Rattle.def_state.specs.Counted.{own_at, keys_at};
ghost use Rattle.def_split.specs.Plan.{Plan, horizon_of, IsSplit};
ghost use Rattle.def_split.specs.Planned.{planned_level, IsPlan};
ghost use Rattle.def_state.specs.Level.{level_leads, IsStratified};
ghost use Rattle.def_state.specs.Live.{live};
ghost use Rattle.def_state.specs.Sound.{is_described, has_ascending_entries};
ghost use Rattle.def_state.specs.State.{State, versions_of};

/// The level of a plan is stratified; the numbers in its descriptors are those of its arrays, whose
/// entries ascend; and its leads are the entries that were planned, each of them and no other.
pub fn the_level_of_a_plan_is_stratified()
    ensures stratified { (parents : Parents) (entries : List Entry) (plan : Plan) (number first : ℕ)
        → IsTree parents → IsTrue (is_ascending entries)
        → IsTrue (list_all (λ e. nat_lt e.version (horizon_of plan)) entries)
        → IsPlan parents entries plan
        → IsStratified parents (planned_level parents entries plan number first) }
    ensures described { (s : State) (entries : List Entry) (plan : Plan) (number first : ℕ)
        → IsTree (versions_of s) → IsTrue (is_ascending entries)
        → IsTrue (list_all (λ e. nat_lt e.version (horizon_of plan)) entries)
        → IsPlan (versions_of s) entries plan
        → IsTrue (list_all
        (is_described s)
        (planned_level (versions_of s) entries plan number first).arrays) }
    ensures ascending { (parents : Parents) (entries : List Entry) (plan : Plan) (number first : ℕ)
        → IsTree parents → IsTrue (is_ascending entries)
        → IsTrue (list_all (λ e. nat_lt e.version (horizon_of plan)) entries)
        → IsPlan parents entries plan
        → IsTrue (list_all
        has_ascending_entries
        (planned_level parents entries plan number first).arrays) }
    ensures leads { (parents : Parents) (entries : List Entry) (plan : Plan) (number first : ℕ)
        → IsTree parents → IsTrue (is_ascending entries)
        → IsTrue (list_all (λ e. nat_lt e.version (horizon_of plan)) entries)
        → IsPlan parents entries plan → (e : Entry)
        → holds_entry (level_leads (planned_level parents entries plan number first)) e
        ≡ holds_entry entries e }
{}

/// The same where the versions of groups are split by two numbers each, and the arrays are filled
/// group by group.
pub fn groups_that_are_split_make_a_stratified_level()
    ensures stratified { (parents : Parents) (groups : List (List Entry)) (own seen : ℕ → ℕ)
        (plan : Plan) (number first : ℕ) → IsTree parents
        → SplitsGroups parents groups own seen plan
        → IsStratified parents (level_of_groups parents groups plan number first) }
    ensures described { (s : State) (groups : List (List Entry)) (own seen : ℕ → ℕ) (plan : Plan)
        (number first : ℕ) → IsTree (versions_of s)
        → SplitsGroups (versions_of s) groups own seen plan
        → IsTrue (list_all
        (is_described s)
        (level_of_groups (versions_of s) groups plan number first).arrays) }
    ensures ascending { (parents : Parents) (groups : List (List Entry)) (own seen : ℕ → ℕ)
        (plan : Plan) (number first : ℕ) → IsTree parents
        → SplitsGroups parents groups own seen plan
        → IsTrue (list_all
        has_ascending_entries
        (level_of_groups parents groups plan number first).arrays) }
    ensures leads { (parents : Parents) (groups : List (List Entry)) (own seen : ℕ → ℕ)
        (plan : Plan) (number first : ℕ) → IsTree parents
        → SplitsGroups parents groups own seen plan → (e : Entry)
        → holds_entry (level_leads (level_of_groups parents groups plan number first)) e
        ≡ holds_entry (grouped_entries groups) e }
    ensures same { (parents : Parents) (groups : List (List Entry)) (plan : Plan)
        (number first : ℕ) → IsTree parents → AreGroups groups
        → level_of_groups parents groups plan number first
        ≡ planned_level parents (grouped_entries groups) plan number first }
{}

/// A split of numbers is a plan for entries that have these numbers.
pub fn a_split_of_numbers_plans_entries()
    ensures { (parents : Parents) (entries : List Entry) (own seen : ℕ → ℕ) (plan : Plan)
        → IsTrue (list_all (λ e. nat_lt e.version (horizon_of plan)) entries)
        → ((v : ℕ) → v < horizon_of plan → own v ≡ own_of entries v)
        → ((v : ℕ) → v < horizon_of plan → seen v ≡ length (live parents entries v))
        → IsSplit parents own seen plan → IsPlan parents entries plan }
{}

/// Counted group by group, the versions of entries tell how many entries each version has, and how
/// many are live there.
pub fn versions_of_groups_tell_their_counts()
    ensures own { (groups : List (List Entry)) (v : ℕ)
        → own_at (group_versions groups) v ≡ own_of (grouped_entries groups) v }
    ensures live { (parents : Parents) (groups : List (List Entry)) (v : ℕ) → IsTree parents
        → AreGroups groups
        → keys_at parents (group_versions groups) v
        ≡ length (live parents (grouped_entries groups) v) }
{}

/// A version sees what its parent sees, and besides no more keys than it has entries; each entry of
/// its own is of a key that it sees.
pub fn counts_grow_from_parent_to_child()
    ensures grown { (parents : Parents) (groups : List (List ℕ)) (v p : ℕ) → IsTree parents
        → parent_of parents v ≡ Some p → keys_at parents groups p ≤ keys_at parents groups v }
    ensures begun { (parents : Parents) (groups : List (List ℕ)) (v p : ℕ) → IsTree parents
        → parent_of parents v ≡ Some p
        → keys_at parents groups v ≤ keys_at parents groups p + own_at groups v }
    ensures first { (parents : Parents) (groups : List (List ℕ)) (v : ℕ) → IsTree parents
        → parent_of parents v ≡ None → keys_at parents groups v ≤ own_at groups v }
    ensures own { (parents : Parents) (groups : List (List Entry)) (v : ℕ) → IsTree parents
        → AreGroups groups
        → own_at (group_versions groups) v ≤ keys_at parents (group_versions groups) v }
{}
