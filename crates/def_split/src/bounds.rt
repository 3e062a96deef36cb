//! Plans that meet the bounds of a split exactly, and plans one past them. Each is the contract of a
//! function that does nothing.

#![tactic(auto, unfolding(strat_base::specs::Tree::climb))]

ghost use Rattle.std.specs.Prelude.{◌≡◌, ℕ, [], ◌∷◌, None};
ghost use Rattle.def_split.specs.Groups.{group_versions, SplitsGroups};
ghost use Rattle.def_split.specs.Plan.{IsSplit, in_no_part};
ghost use Rattle.def_split.specs.Splits.{pair, wide_groups, third_groups, third_plan, half_groups, half_plan, joint_plan, sparse_plan, copied_plan, hung_plan, idle_plan, turned_plan, late_plan, lost_plan, astray_plan};
ghost use Rattle.def_state.specs.Counted.{own_at, keys_at};

/// An array may be a third live at a version, and no less.
pub fn a_third_is_live()
    ensures met { SplitsGroups pair third_groups (own_at (group_versions third_groups))
        (keys_at pair (group_versions third_groups)) third_plan }
    ensures passed { IsSplit pair (own_at (group_versions wide_groups))
        (keys_at pair (group_versions wide_groups)) sparse_plan → ⊥ }
{}

/// Half of an array's entries may be leads, and no fewer.
pub fn half_are_leads()
    ensures met { SplitsGroups pair half_groups (own_at (group_versions half_groups))
        (keys_at pair (group_versions half_groups)) half_plan }
    ensures passed { (own live : ℕ → ℕ) → IsSplit pair own live copied_plan → ⊥ }
{}

/// The part of a root hangs below no version, though it may then have as many entries as it says.
pub fn a_root_hangs_below_nothing()
    ensures { (own live : ℕ → ℕ) → IsSplit (None ∷ []) own live hung_plan → ⊥ }
{}

/// A part has an entry.
pub fn no_part_is_empty()
    ensures { (own live : ℕ → ℕ) → IsSplit (None ∷ []) own live idle_plan → ⊥ }
{}

/// Parts are numbered by their least versions.
pub fn parts_are_numbered_in_turn()
    ensures { (own live : ℕ → ℕ) → IsSplit pair own live turned_plan → ⊥ }
{}

/// The least number of a part is that of the version which sees the fewest keys.
pub fn the_least_is_that_of_all_versions()
    ensures { IsSplit pair (own_at (group_versions third_groups))
        (keys_at pair (group_versions third_groups)) late_plan → ⊥ }
{}

/// A version that sees a key is in a part.
pub fn a_version_with_a_key_is_in_a_part()
    ensures { IsSplit (None ∷ [])
        (own_at ((0 ∷ []) ∷ [])) (keys_at (None ∷ []) ((0 ∷ []) ∷ [])) lost_plan → ⊥ }
{}

/// The number of a version is that of a part, or the greatest of four bytes.
pub fn numbers_are_those_of_parts()
    ensures none { in_no_part ≡ 4294967295 }
    ensures passed { (own live : ℕ → ℕ) → IsSplit (None ∷ []) own live astray_plan → ⊥ }
{}

/// Two plans may split the same versions.
pub fn a_later_part_is_lawful_too()
    ensures met { SplitsGroups pair half_groups (own_at (group_versions half_groups))
        (keys_at pair (group_versions half_groups)) joint_plan }
{}
