//! Plans worked out by the definitions, and the levels that they give. Each is the contract of a
//! function that does nothing.

#![tactic(auto, unfolding(strat_base::specs::Tree::climb))]

ghost use Rattle.std.specs.Prelude.{◌≡◌, [], ◌∷◌};
ghost use Rattle.strat_base.specs.Samples.{says};
ghost use Rattle.def_split.specs.Groups.{group_versions, SplitsGroups, level_of_groups};
ghost use Rattle.def_state.specs.Counted.{own_at, keys_at};
ghost use Rattle.def_split.specs.Splits.{pair, later_groups, later_plan, wide_groups, wide_plan, same_groups, same_plan};
ghost use Rattle.def_state.specs.Worked.{array_of, first_level};

/// A key at a child alone: version 0 is in no part, and the child's part takes over nothing.
pub fn a_key_at_a_child()
    ensures split { SplitsGroups pair later_groups (own_at (group_versions later_groups))
        (keys_at pair (group_versions later_groups)) later_plan }
    ensures level { level_of_groups pair later_groups later_plan 1 1 ∷ []
        ≡ first_level 2 (array_of 1 (1 ∷ []) (says 97 1 49 ∷ []) 1 1 1 ∷ []) }
{}

/// A key at version 0 and three others at its child: a part each, and the child's has a copy.
pub fn more_keys_at_a_child()
    ensures split { SplitsGroups pair wide_groups (own_at (group_versions wide_groups))
        (keys_at pair (group_versions wide_groups)) wide_plan }
    ensures level { level_of_groups pair wide_groups wide_plan 1 1 ∷ []
        ≡ first_level 2 (array_of 1 (0 ∷ []) (says 97 0 49 ∷ []) 1 1 1
        ∷ array_of 2 (1 ∷ [])
        (says 97 0 49 ∷ says 98 1 49 ∷ says 99 1 49 ∷ says 100 1 49 ∷ []) 4 3 4
        ∷ []) }
{}

/// A key of which version 0 and its child have an entry each: one part for both.
pub fn a_key_at_parent_and_child()
    ensures split { SplitsGroups pair same_groups (own_at (group_versions same_groups))
        (keys_at pair (group_versions same_groups)) same_plan }
    ensures level { level_of_groups pair same_groups same_plan 1 1 ∷ []
        ≡ first_level 2
        (array_of 1 (0 ∷ 1 ∷ []) (says 97 1 50 ∷ says 97 0 49 ∷ []) 2 2 1 ∷ []) }
{}
