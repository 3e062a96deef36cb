//! Laws of the two numbers by which a check tells that an array agrees with its level. Each is the contract of a function
//! that does nothing.

ghost use Rattle.std.specs.Prelude.{◌≡◌, ℕ, ◌+◌, ◌==◌, true, false, if◌then◌else◌, List, [], length, Some, None, sum_by, IsTrue};
ghost use Rattle.def_split.specs.Groups.{grouped_entries, AreGroups, group_versions};
ghost use Rattle.def_state.specs.Counted.{keys_at};
ghost use Rattle.strat_base.specs.Entries.{Entry, is_single, are_same};
ghost use Rattle.strat_base.specs.Tree.{Parents, parent_of, IsTree};
ghost use Rattle.def_state.specs.Live.{live};
ghost use Rattle.def_check.specs.Weights.{weight_of, weighs_same, weights_seen, own_weight, lost_weight, nearest_at, nearest_sum};
ghost use Rattle.def_check.specs.Hiding.{hidings, weight_hidden};
ghost use Rattle.strat_base.specs.Order.{descends};
ghost use Rattle.std.specs.List.{list_any};
ghost use Rattle.def_check.specs.Worked.{line, line_leads, stale_copy, fresh_copy, false_copy};

/// The same entries of two sets are live at a version just where those of the one are all of the other, as many are live of
/// both, and they weigh the same: an entry weighs one more than its version.
pub fn agreement_is_told_by_weights()
    ensures { (parents : Parents) (others entries : List Entry) (v : ℕ) → IsTree parents
        → IsTrue (is_single others) → IsTrue (is_single entries)
        → are_same (live parents entries v) (live parents others v)
        ≡ weighs_same parents others entries v }
{}

/// What is live at a version weighs as much as what it sees of each group.
pub fn weights_are_told_group_by_group()
    ensures { (parents : Parents) (weight : Entry → ℕ) (groups : List (List Entry)) (v : ℕ)
        → IsTree parents → AreGroups groups
        → sum_by weight (live parents (grouped_entries groups) v)
        ≡ weights_seen parents weight groups v }
{}

/// A version sees what its parent sees, and the entries of its own in place of those that they hide.
pub fn weights_change_from_parent_to_child()
    ensures more { (parents : Parents) (weight : Entry → ℕ) (groups : List (List Entry)) (v p : ℕ)
        → IsTree parents → AreGroups groups → parent_of parents v ≡ Some p
        → weights_seen parents weight groups v + sum_by (lost_weight parents weight v) groups
        ≡ weights_seen parents weight groups p + sum_by (own_weight weight v) groups }
    ensures first { (parents : Parents) (weight : Entry → ℕ) (groups : List (List Entry)) (v : ℕ)
        → IsTree parents → AreGroups groups → parent_of parents v ≡ None
        → weights_seen parents weight groups v ≡ sum_by (own_weight weight v) groups }
{}

/// A copy that is too old is as many as the right one, and weighs less; one of another value weighs as much, and is no lead.
#[tactic(auto, unfolding(strat_base::specs::Tree::climb))]
pub fn copies_are_told_apart()
    ensures len { length (live line stale_copy 2) ≡ length (live line line_leads 2) }
    ensures less { (sum_by weight_of (live line stale_copy 2) ≡ 4)
        × (sum_by weight_of (live line line_leads 2) ≡ 5) }
    ensures none { weighs_same line line_leads stale_copy 2 ≡ false }
    ensures ok { weighs_same line line_leads fresh_copy 2 ≡ true }
    ensures value { weighs_same line line_leads false_copy 2 ≡ false }
{}

/// The versions of groups tell what versions see of them: how many keys, and what these weigh.
pub fn versions_tell_weights()
    ensures count { (parents : Parents) (groups : List (List Entry)) (v : ℕ) → IsTree parents
        → AreGroups groups
        → weights_seen parents (λ e. 1) groups v ≡ keys_at parents (group_versions groups) v }
    ensures weight { (parents : Parents) (groups : List (List Entry)) (v : ℕ)
        → weights_seen parents weight_of groups v
        ≡ nearest_sum parents (group_versions groups) v }
{}

/// One pass from the greatest version of a key down finds what each version hides: the nearest above it, which its parent sees.
pub fn one_pass_finds_what_is_hidden()
    ensures { (parents : Parents) (versions : List ℕ) (v p : ℕ) → IsTree parents
        → IsTrue (descends versions) → parent_of parents v ≡ Some p
        → weight_hidden v (hidings parents [] versions)
        ≡ (if list_any (λ u. u == v) versions then nearest_at parents p versions else 0) }
{}
