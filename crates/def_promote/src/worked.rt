//! Promotions worked out by the definitions. Each is the contract of a function that does nothing.

#![tactic(auto, unfolding(strat_base::specs::Tree::climb, def_state::specs::State::deep))]

ghost use Rattle.std.specs.Prelude.{◌≡◌, [], ◌∷◌, true, false, map};
ghost use Rattle.strat_base.specs.Samples.{says, gone};
ghost use Rattle.def_split.specs.Groups.{group_versions, level_of_groups};
ghost use Rattle.def_split.specs.Splits.{pair, later_groups, later_plan, wide_groups, wide_plan};
ghost use Rattle.def_promote.specs.Begun.{first_writes, repeated_writes, repeated_groups, repeated_plan};
ghost use Rattle.def_promote.specs.Compacted.{thinned_in, CompactsGroups, compact_level_of_groups, compacted_to};
ghost use Rattle.def_promote.specs.Kept.{kept_over};
ghost use Rattle.def_promote.specs.Merging.{Merges};
ghost use Rattle.def_promote.specs.Paid.{entries_written, IsLeastTarget};
ghost use Rattle.def_promote.specs.Promoted.{promoted, PromotesGroups, fresh_of_groups, levels_of_groups};
ghost use Rattle.def_promote.specs.Purge.{purged};
ghost use Rattle.def_promote.specs.Thin.{thinned};
ghost use Rattle.def_state.specs.Counted.{own_at, keys_at};
ghost use Rattle.def_state.specs.Maps.{map_over};
ghost use Rattle.def_state.specs.State.{versions_of, marks_of, map_at, stored, IsPaid};
ghost use Rattle.def_state.specs.Worked.{array_of, first_level, fan};

/// A journal with a clone and a put at it becomes level 1, which has one array.
pub fn a_journal_becomes_a_level()
    ensures promotes { PromotesGroups first_writes 1 [] [] later_groups
        (own_at (group_versions later_groups)) (keys_at pair (group_versions later_groups))
        later_plan }
    ensures levels { levels_of_groups first_writes 1 [] later_groups later_plan 1
        ≡ first_level 2 (array_of 1 (1 ∷ []) (says 97 1 49 ∷ []) 1 1 1 ∷ []) }
{}

/// That level is the target, since the journal is full, and its one entry is paid for.
pub fn a_full_journal_pays_for_its_level()
    ensures target { IsLeastTarget first_writes 1 }
    ensures before { IsPaid first_writes }
    ensures written { entries_written (fresh_of_groups first_writes 1 [] later_groups later_plan 1)
        ≡ 1 }
    ensures after { IsPaid (promoted first_writes
        (levels_of_groups first_writes 1 [] later_groups later_plan 1) 1 2) }
{}

/// Level 1 has room for the six leads of the fan's journal and levels in a store of three changes a region, so level 2 is no
/// target there. In a store of two it is.
pub fn a_level_with_just_room_is_no_lesser_one()
    ensures met { IsLeastTarget (record fan { mem = 2 }) 2 }
    ensures passed { IsLeastTarget (record fan { mem = 3 }) 2 → ⊥ }
{}

/// Copies are written too: an array of one entry, and one of three leads and a copy.
pub fn copies_are_written_too()
    ensures { entries_written (level_of_groups pair wide_groups wide_plan 1 1 ∷ []) ≡ 5 }
{}

/// Of a mark that a key is gone: it goes where nothing lies above, and stays below a value.
pub fn marks_are_purged()
    ensures root { purged pair (gone 97 0 ∷ []) ≡ [] }
    ensures alone { purged pair (gone 97 1 ∷ []) ≡ [] }
    ensures below { purged pair (gone 97 1 ∷ says 97 0 49 ∷ [])
        ≡ gone 97 1 ∷ says 97 0 49 ∷ [] }
    ensures twice { purged pair (gone 97 1 ∷ gone 97 0 ∷ []) ≡ [] }
    ensures another { purged pair (gone 97 1 ∷ says 98 0 49 ∷ []) ≡ says 98 0 49 ∷ [] }
{}

/// Of one key and version in two runs the newer run's entry is given, and the groups are given by key.
pub fn the_newer_run_stands()
    ensures { Merges
        ((says 97 0 50 ∷ []) ∷ (says 97 0 49 ∷ says 98 0 49 ∷ []) ∷ [])
        ((says 97 0 50 ∷ []) ∷ (says 98 0 49 ∷ []) ∷ []) }
{}

/// Of entries at a version and its parent: what repeats the parent's goes, and a dropped version's go.
pub fn entries_are_thinned()
    ensures equal { thinned pair (false ∷ false ∷ []) (says 97 1 49 ∷ says 97 0 49 ∷ [])
        ≡ says 97 0 49 ∷ [] }
    ensures other { thinned pair (false ∷ false ∷ []) (says 97 1 50 ∷ says 97 0 49 ∷ [])
        ≡ says 97 1 50 ∷ says 97 0 49 ∷ [] }
    ensures below { thinned pair (false ∷ false ∷ []) (gone 97 1 ∷ says 97 0 49 ∷ [])
        ≡ gone 97 1 ∷ says 97 0 49 ∷ [] }
    ensures alone { thinned pair (false ∷ false ∷ []) (gone 97 1 ∷ gone 97 0 ∷ []) ≡ [] }
    ensures dropped { thinned pair (false ∷ true ∷ [])
        (says 97 0 49 ∷ says 98 1 50 ∷ says 99 0 51 ∷ []) ≡ says 97 0 49 ∷ says 99 0 51 ∷ [] }
{}

/// Of maps at a version and its parent: a key that only the parent has counts as one that only the version has, and those of
/// a dropped version do not count.
pub fn differences_of_maps_are_counted()
    ensures living { kept_over pair (false ∷ false ∷ [])
        (λ v. map_over pair (gone 97 1 ∷ says 97 0 49 ∷ says 98 1 50 ∷ []) v) ≡ 3 }
    ensures changed { kept_over pair (false ∷ false ∷ [])
        (λ v. map_over pair (says 97 1 50 ∷ says 97 0 49 ∷ says 98 0 50 ∷ []) v) ≡ 3 }
    ensures equal { kept_over pair (false ∷ false ∷ [])
        (λ v. map_over pair (says 97 1 49 ∷ says 97 0 49 ∷ []) v) ≡ 1 }
    ensures dropped { kept_over pair (false ∷ true ∷ [])
        (λ v. map_over pair (gone 97 1 ∷ says 97 0 49 ∷ says 98 1 50 ∷ []) v) ≡ 1 }
{}

/// A put, a clone, and the same put at that: a compaction leaves one entry for both versions, which differ from their parents
/// at one key in all.
pub fn a_repeated_put_is_compacted()
    ensures compacts { CompactsGroups repeated_writes 1 repeated_groups
        (own_at (group_versions (map (thinned_in repeated_writes) repeated_groups)))
        (keys_at pair (group_versions (map (thinned_in repeated_writes) repeated_groups)))
        repeated_plan }
    ensures level { compact_level_of_groups repeated_writes 1 repeated_groups repeated_plan 1
        ≡ first_level 2 (array_of 1 (0 ∷ 1 ∷ []) (says 97 0 49 ∷ []) 1 1 1 ∷ []) }
    ensures kept { kept_over (versions_of repeated_writes) (marks_of repeated_writes)
        (map_at repeated_writes)
        ≡ 1 }
    ensures stored { stored (compacted_to repeated_writes
        (compact_level_of_groups repeated_writes 1 repeated_groups repeated_plan 1) 1 2)
        ≡ 1 }
{}
