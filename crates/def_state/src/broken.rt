//! States that break a rule, and no other that does not follow. Each is the contract of a function
//! that does nothing.

#![tactic(auto, unfolding(strat_base::specs::Tree::climb), using(crate::proofs::BreachLemmas::unsound_from_some))]

ghost use Rattle.std.specs.Prelude.{List, [], ◌∷◌};
ghost use Rattle.def_state.specs.Breach.{breach, Breaks};
ghost use Rattle.def_state.specs.Broken.{overlapping_tags, untagged_version, missing_copy, sparse_array, mostly_copies, stray_entry, two_values, overfull_level, early_horizon, lead_above_frozen, wrong_descriptor, more_leads_than_updates, unordered_entries};

/// Two tags of one level share a version.
pub fn overlapping_tags_found()
    ensures { Breaks overlapping_tags (breach 97 1 0 ∷ []) }
{}

/// A version that sees a key is in no tag.
pub fn untagged_version_found()
    ensures { Breaks untagged_version (breach 98 1 0 ∷ []) }
{}

/// An array lacks an entry that is live at a version of its tag.
pub fn missing_copy_found()
    ensures { Breaks missing_copy (breach 99 1 2 ∷ []) }
{}

/// Less than a third of an array is live at a version of its tag.
pub fn sparse_array_found()
    ensures { Breaks sparse_array (breach 100 1 1 ∷ []) }
{}

/// Less than half of an array's entries are leads.
pub fn mostly_copies_found()
    ensures { Breaks mostly_copies (breach 101 1 2 ∷ []) }
{}

/// An entry of an array is no lead of its level.
pub fn stray_entry_found()
    ensures { Breaks stray_entry (breach 102 1 2 ∷ []) }
{}

/// A key has two entries at one version, which the order of entries refuses too.
pub fn two_values_found()
    ensures { Breaks two_values (breach 109 1 1 ∷ breach 103 1 0 ∷ []) }
{}

/// A level has more leads than it has room for.
pub fn overfull_level_found()
    ensures { Breaks overfull_level (breach 104 1 0 ∷ []) }
{}

/// A horizon is past the versions.
pub fn early_horizon_found()
    ensures { Breaks early_horizon (breach 105 1 0 ∷ []) }
{}

/// A version with a child below a deeper horizon has a lead above it.
pub fn lead_above_frozen_found()
    ensures { Breaks lead_above_frozen (breach 106 2 0 ∷ []) }
{}

/// A descriptor gives its array an entry too many.
pub fn wrong_descriptor_found()
    ensures { Breaks wrong_descriptor (breach 107 1 1 ∷ []) }
{}

/// There are more leads than updates.
pub fn more_leads_than_updates_found()
    ensures { Breaks more_leads_than_updates (breach 108 0 0 ∷ []) }
{}

/// Entries of an array stand out of order.
pub fn unordered_entries_found()
    ensures { Breaks unordered_entries (breach 109 1 1 ∷ []) }
{}
