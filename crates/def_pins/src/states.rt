//! States at the bounds of definitions: at each bound one that passes, and one past it that doesn't. Each is
//! the contract of a function that does nothing.

#![tactic(auto, unfolding(strat_base::specs::Tree::climb, def_state::specs::State::deep))]

ghost use Rattle.std.specs.Prelude.{◌≡◌, [], ◌∷◌, ◌++◌, true, false, None, Some, codes};
ghost use Rattle.def_state.specs.Breach.{breach, breaches};
ghost use Rattle.def_state.specs.Sound.{is_numbered_from, IsWellFormed, are_accepted};
ghost use Rattle.def_state.specs.State.{densities, lead_fractions, stored, deep, promised, IsPaid};
ghost use Rattle.def_state.specs.Worked.{fan, array_of, first_level};
ghost use Rattle.def_pins.specs.States.{two_levels, two_levels_after, only_array_in, with_a_lead, without_leads, eight_leads_in, a_third_is_live, later_is_sparser, tag_at_the_horizon, shallower_horizon_is, fan_says, after_puts, all_broken};
ghost use Rattle.strat_base.specs.Change.{Put, Clone};
ghost use Rattle.strat_base.specs.Samples.{says};
ghost use Rattle.def_texts.specs.Texts.{check_line};
ghost use Rattle.def_state.specs.Broken.{early_horizon, with_empty_journal};

/// After nine changes there may be leads in level 2, and 72 entries may be written: four for each change
/// and level. Of these a lead in level 1 keeps back four.
pub fn writing_is_paid_up_to_its_bound()
    ensures deep { deep 4 9 ≡ 2 }
    ensures promised { promised two_levels 2 ≡ 1 }
    ensures kept { breaches two_levels ≡ [] }
    ensures most { IsPaid (two_levels_after 68) }
    ensures more { ¬ IsPaid (two_levels_after 69) }
{}

/// After nine changes level 3 is too deep for a lead, and level 2 is not.
pub fn leads_are_no_deeper_than_paid()
    ensures most { IsPaid (only_array_in 2 with_a_lead) }
    ensures more { ¬ IsPaid (only_array_in 3 with_a_lead) }
    ensures none { IsPaid (only_array_in 3 without_leads) }
{}

/// A level has room for as many leads as a region takes changes, twice for each level down to it.
pub fn rooms_double_from_level_to_level()
    ensures first { breaches (eight_leads_in 4 1) ≡ [] }
    ensures third { breaches (eight_leads_in 1 3) ≡ [] }
    ensures second { breaches (eight_leads_in 1 2) ≡ breach 104 2 0 ∷ [] }
    ensures fewer { breaches (eight_leads_in 3 1) ≡ breach 104 1 0 ∷ [] }
{}

/// Room and promised writes are counted in leads, and neither in entries nor in arrays: the fan has five leads, in two
/// arrays of seven entries.
pub fn leads_are_counted()
    ensures room { breaches (record fan { mem = 3 }) ≡ [] }
    ensures full { breaches (record fan { mem = 2 }) ≡ breach 104 1 0 ∷ [] }
    ensures promised { (promised fan 3 ≡ 10) × (promised fan 1 ≡ 0) }
{}

/// A journal has two changes fewer than both regions take, and no more: six for regions of four. Levels begin with level 1.
/// Each version has a mark.
pub fn states_are_formed_up_to_their_bounds()
    ensures most { IsWellFormed (after_puts 6) }
    ensures more { ¬ IsWellFormed (after_puts 7) }
    ensures level { ¬ IsWellFormed (eight_leads_in 4 0) }
    ensures marks { ¬ IsWellFormed (record (after_puts 6) { marks = [] }) }
    ensures rising { is_numbered_from 1
        ((eight_leads_in 4 2).levels ++ (eight_leads_in 4 2).levels) ≡ false }
    ensures arrays { is_numbered_from 1 (record { number = 1; horizon = 1; arrays = [] } ∷ [])
        ≡ false }
{}

/// Levels are numbered from 1 to 22.
pub fn levels_are_numbered_to_twenty_two()
    ensures least { is_numbered_from 1 (eight_leads_in 4 1).levels ≡ true }
    ensures most { is_numbered_from 1 (eight_leads_in 4 22).levels ≡ true }
    ensures none { is_numbered_from 1 (eight_leads_in 4 0).levels ≡ false }
    ensures more { is_numbered_from 1 (eight_leads_in 4 23).levels ≡ false }
{}

/// An array of which a third is live at a version is dense enough.
pub fn a_third_is_enough()
    ensures ok { breaches a_third_is_live ≡ [] }
    ensures density { densities a_third_is_live ≡ (1, 3) ∷ [] }
{}

/// Of the versions of a tag the one with fewest live entries counts, wherever it stands.
pub fn the_sparsest_version_counts()
    ensures ok { breaches later_is_sparser ≡ [] }
    ensures density { densities later_is_sparser ≡ (1, 3) ∷ [] }
{}

/// What is said of arrays is said of what they hold, whatever their descriptors say.
pub fn contents_are_counted()
    ensures densities { densities (fan_says 9 8 7) ≡ (2, 3) ∷ (3, 4) ∷ [] }
    ensures leads { lead_fractions (fan_says 9 8 7) ≡ (3, 3) ∷ (2, 4) ∷ [] }
    ensures stored { stored (fan_says 9 8 7) ≡ 8 }
{}

/// A tag has no version that is its level's horizon.
pub fn tags_end_below_the_horizon()
    ensures { breaches tag_at_the_horizon ≡ breach 97 1 0 ∷ [] }
{}

/// Of two levels the deeper may have the same horizon, and no greater one.
pub fn deeper_horizons_are_no_greater()
    ensures same { breaches (shallower_horizon_is 3) ≡ [] }
    ensures greater { breaches (shallower_horizon_is 2) ≡ breach 105 2 0 ∷ [] }
{}

/// Each number of a descriptor is that of its array.
pub fn descriptors_are_exact()
    ensures ok { breaches (fan_says 3 3 2) ≡ [] }
    ensures entries { breaches (fan_says 2 3 2) ≡ breach 107 1 1 ∷ [] }
    ensures leads { breaches (fan_says 3 2 2) ≡ breach 107 1 1 ∷ [] }
    ensures least { breaches (fan_says 3 3 1) ≡ breach 107 1 1 ∷ [] }
{}

/// Breaches are told rule by rule, in one rule level by level, and in a level array by array.
pub fn breaches_are_told_in_order()
    ensures { breaches all_broken ≡ breach 109 1 1 ∷ breach 97 1 0 ∷ breach 98 1 0 ∷ breach 98 2 0
        ∷ breach 99 1 2 ∷ breach 100 1 2 ∷ breach 101 1 2 ∷ breach 102 1 2 ∷ breach 103 1 0
        ∷ breach 104 1 0 ∷ breach 105 1 0 ∷ breach 105 2 0 ∷ breach 106 2 0
        ∷ breach 107 1 1 ∷ breach 107 1 2 ∷ breach 108 0 0 ∷ [] }
{}

/// Each change of a journal counts against the most that a store takes.
pub fn changes_of_a_journal_are_counted()
    ensures most { are_accepted 2 1 (None ∷ []) (false ∷ []) 0
        (Put 0 (97 ∷ []) [] ∷ Put 0 (97 ∷ []) [] ∷ []) ≡ true }
    ensures more { are_accepted 1 1 (None ∷ []) (false ∷ []) 0
        (Put 0 (97 ∷ []) [] ∷ Put 0 (97 ∷ []) [] ∷ []) ≡ false }
{}

/// Level 3 is too deep for a lead after sixteen changes that were merged, and one more in the journal pays for no level.
pub fn changes_of_the_journal_pay_for_no_depth()
    ensures { ¬ IsPaid (record (only_array_in 3 with_a_lead) {
      changes = 16;
      journal = Put 1 (97 ∷ []) [] ∷ [];
    }) }
{}

/// A level of horizon 2 has no version that the journal makes.
pub fn clones_of_the_journal_raise_no_horizon()
    ensures { breaches (record early_horizon {
      levels = first_level 2 (array_of 1 (0 ∷ 1 ∷ []) (says 97 0 49 ∷ []) 1 1 1 ∷ []);
      journal = Clone 0 ∷ [];
    }) ≡ breach 105 1 0 ∷ [] }
{}

/// An entry that is live in an array at a version of its tag, and in no table there, breaks the rule of equal maps at its array.
pub fn entries_that_no_map_has_are_found()
    ensures { breaches (with_empty_journal (None ∷ Some 0 ∷ []) 3 (first_level 2 (
        array_of 1 (0 ∷ []) (says 97 0 49 ∷ []) 1 1 1
        ∷ array_of 2 (1 ∷ [])
        (says 97 0 49 ∷ says 98 0 57 ∷ says 99 1 49 ∷ says 100 1 49 ∷ []) 4 2 4 ∷ [])))
        ≡ breach 99 1 2 ∷ breach 102 1 2 ∷ [] }
{}

/// The line of a breach tells its rule, its level and its array.
pub fn level_and_array_are_told()
    ensures { check_line (breach 104 2 0 ∷ []) ≡ codes "unsound h level 2 array 0" }
{}
