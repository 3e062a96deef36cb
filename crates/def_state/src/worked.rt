//! States worked out by the definitions. Each is the contract of a function that does nothing.

#![tactic(auto, unfolding(strat_base::specs::Tree::climb, crate::specs::State::deep), using(crate::proofs::BreachLemmas::sound_from_none))]

ghost use Rattle.std.specs.List.{list_all};
ghost use Rattle.std.specs.Prelude.{◌≡◌, ℕ, List, [], ◌∷◌, Some, None, true, false};
ghost use Rattle.strat_base.specs.Samples.{says, gone};
ghost use Rattle.def_state.specs.Maps.{map_over};
ghost use Rattle.def_state.specs.Setting.{set_all};
ghost use Rattle.def_state.specs.Sound.{is_above_frozen, IsSound};
ghost use Rattle.def_state.specs.State.{value_at, map_at, densities, lead_fractions, stored, updates_of, changes_of, IsPaid};
ghost use Rattle.def_state.specs.Worked.{chain, fan, child_with_more, deleted_below, lately_dropped};

/// A chain of clones with one key at its second version: one array for those that see the key.
pub fn chain_of_clones()
    ensures sound { IsSound chain }
    ensures paid { IsPaid chain }
    ensures densities { densities chain ≡ (1, 1) ∷ [] }
    ensures leads { lead_fractions chain ≡ (1, 1) ∷ [] }
    ensures counts { (stored chain ≡ 2) × (updates_of chain ≡ 2) × (changes_of chain ≡ 5) }
    ensures first { map_at chain 0 ≡ [] }
    ensures second { map_at chain 2 ≡ (97 ∷ [], 49 ∷ []) ∷ [] }
    ensures last { map_at chain 3 ≡ (97 ∷ [], 49 ∷ []) ∷ (98 ∷ [], 49 ∷ []) ∷ [] }
{}

/// Three children of one version, each with a key of its own: two arrays, since one would be sparse.
pub fn fan_of_clones()
    ensures sound { IsSound fan }
    ensures paid { IsPaid fan }
    ensures densities { densities fan ≡ (2, 3) ∷ (3, 4) ∷ [] }
    ensures leads { lead_fractions fan ≡ (3, 3) ∷ (2, 4) ∷ [] }
    ensures counts { (stored fan ≡ 8) × (updates_of fan ≡ 6) × (changes_of fan ≡ 9) }
    ensures root { map_at fan 0 ≡ (97 ∷ [], 49 ∷ []) ∷ (98 ∷ [], 49 ∷ []) ∷ [] }
    ensures child { map_at fan 2
        ≡ (97 ∷ [], 49 ∷ []) ∷ (98 ∷ [], 49 ∷ []) ∷ (99 ∷ [], 50 ∷ []) ∷ [] }
    ensures newest { value_at fan 1 (100 ∷ []) ≡ Some (49 ∷ []) }
    ensures beside { value_at fan 2 (100 ∷ []) ≡ None }
{}

/// A child that writes three keys beside its parent's one: an array each, the child's with a copy.
pub fn parts_of_parent_and_child()
    ensures sound { IsSound child_with_more }
    ensures densities { densities child_with_more ≡ (1, 1) ∷ (4, 4) ∷ [] }
    ensures leads { lead_fractions child_with_more ≡ (1, 1) ∷ (3, 4) ∷ [] }
{}

/// A key that is gone at a child while its parent has it: the mark stays in the child's array.
pub fn deletion_below_a_value()
    ensures sound { IsSound deleted_below }
    ensures paid { IsPaid deleted_below }
    ensures densities { densities deleted_below ≡ (1, 1) ∷ (1, 2) ∷ [] }
    ensures leads { lead_fractions deleted_below ≡ (1, 1) ∷ (1, 2) ∷ [] }
    ensures counts { (stored deleted_below ≡ 4) × (updates_of deleted_below ≡ 3) }
    ensures root { map_at deleted_below 0 ≡ (97 ∷ [], 49 ∷ []) ∷ [] }
    ensures child { map_at deleted_below 1 ≡ [] }
    ensures grandchild { map_at deleted_below 2 ≡ (122 ∷ [], 49 ∷ []) ∷ [] }
{}

/// Four updates of two keys: of one key the greater version stands first, and the later update of a
/// key and a version takes the place of the earlier.
pub fn updates_set_in_order()
    ensures ok { set_all (says 98 0 49 ∷ says 97 0 49 ∷ says 97 1 50 ∷ gone 97 0 ∷ [])
        ≡ says 97 1 50 ∷ gone 97 0 ∷ says 98 0 49 ∷ [] }
    ensures root { map_over (None ∷ Some 0 ∷ []) (says 97 1 50 ∷ gone 97 0 ∷ says 98 0 49 ∷ []) 0
        ≡ (98 ∷ [], 49 ∷ []) ∷ [] }
    ensures child { map_over (None ∷ Some 0 ∷ []) (says 97 1 50 ∷ gone 97 0 ∷ says 98 0 49 ∷ []) 1
        ≡ (97 ∷ [], 50 ∷ []) ∷ (98 ∷ [], 49 ∷ []) ∷ [] }
{}

/// No lead stands above a frozen version after one was dropped, and before one did: at the parent of the dropped one.
pub fn a_drop_may_hide_a_breach()
    ensures settled { list_all (is_above_frozen lately_dropped) lately_dropped.levels ≡ true }
    ensures before { list_all (is_above_frozen (record lately_dropped { journal = [] }))
        lately_dropped.levels ≡ false }
{}
