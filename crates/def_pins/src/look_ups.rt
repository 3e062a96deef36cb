//! Where a look-up goes, and what decides it. Each is the contract of a function that does nothing.

#![tactic(auto, unfolding(strat_base::specs::Tree::climb, strat_base::specs::Numbers::be, strat_base::specs::Numbers::number, def_crash::specs::Image::window, def_crash::specs::Image::over, strat_base::specs::EntryBytes::entry_in, def_bytes::specs::Block::entries_in, def_bytes::specs::Block::block_bytes, def_bytes::specs::Block::block_in, def_bytes::specs::Arrays::entries_on))]

ghost use Rattle.std.specs.Prelude.{◌≡◌, [], ◌∷◌, Some, None, true, false};
ghost use Rattle.strat_base.specs.Samples.{says, gone};
ghost use Rattle.strat_base.specs.Tree.{depth, below};
ghost use Rattle.def_recovery.specs.Asked.{asked};
ghost use Rattle.def_recovery.specs.Disks.{formatted, chain_manifest, published};
ghost use Rattle.def_recovery.specs.Opened.{parents_in};
ghost use Rattle.def_state.specs.LookUp.{looked_up, of_state, filtered};
ghost use Rattle.def_state.specs.Worked.{chain, fan};

/// Of the lists of level 0 the first decides that has the key live at the version, also where it is gone; a
/// list that has it at another version alone decides nothing.
pub fn newest_lists_decide()
    ensures first { looked_up of_state (None ∷ [])
        ((says 97 0 49 ∷ []) ∷ (says 97 0 50 ∷ []) ∷ []) [] 0 (97 ∷ []) ≡ Some (says 97 0 49) }
    ensures second { looked_up of_state (None ∷ [])
        ((says 98 0 49 ∷ []) ∷ (says 97 0 50 ∷ []) ∷ []) [] 0 (97 ∷ []) ≡ Some (says 97 0 50) }
    ensures beside { looked_up of_state (None ∷ Some 0 ∷ Some 0 ∷ [])
        ((says 97 1 49 ∷ []) ∷ (says 97 0 50 ∷ []) ∷ []) [] 2 (97 ∷ []) ≡ Some (says 97 0 50) }
    ensures none { looked_up of_state (None ∷ []) ([] ∷ []) [] 0 (97 ∷ []) ≡ None }
{}

/// A level is asked for the array of the version, or of its nearest ancestor below the horizon.
pub fn levels_are_asked_by_version()
    ensures own { looked_up of_state fan.parents [] fan.levels 2 (99 ∷ []) ≡ Some (says 99 2 50) }
    ensures newer { looked_up of_state (None ∷ Some 0 ∷ Some 1 ∷ Some 2 ∷ Some 3 ∷ []) []
        chain.levels 4 (97 ∷ []) ≡ Some (says 97 1 49) }
    ensures none { looked_up of_state chain.parents [] chain.levels 0 (97 ∷ []) ≡ None }
{}

/// An array that a filter refuses is as one without an entry, and its level is passed over.
pub fn refused_arrays_have_no_entry()
    ensures refused { looked_up (filtered (λ a key. false) of_state) fan.parents [] fan.levels 2
        (99 ∷ []) ≡ None }
    ensures passed { looked_up (filtered (λ a key. true) of_state) fan.parents [] fan.levels 2
        (99 ∷ []) ≡ Some (says 99 2 50) }
{}

/// The first version has no ancestor, and a version with two is at depth two. Below a horizon stands the nearest.
pub fn ancestors_are_counted()
    ensures depth { (depth (None ∷ Some 0 ∷ Some 1 ∷ []) 0 ≡ 0)
        × (depth (None ∷ Some 0 ∷ Some 1 ∷ []) 2 ≡ 2)
        × (depth (None ∷ Some 0 ∷ Some 0 ∷ []) 2 ≡ 1) }
    ensures below { (below (None ∷ Some 0 ∷ Some 1 ∷ []) 2 3 ≡ 2)
        × (below (None ∷ Some 0 ∷ Some 1 ∷ []) 2 2 ≡ 1)
        × (below (None ∷ Some 0 ∷ Some 0 ∷ []) 2 2 ≡ 0) }
{}

/// Bytes are asked for what the blocks of an array hold; level 0 goes before them. Where a block is no block its
/// array has no entry.
pub fn bytes_are_asked_for_blocks()
    ensures block { asked published (parents_in chain_manifest) [] chain_manifest.levels 2 (97 ∷ [])
        ≡ Some (49 ∷ []) }
    ensures zero { asked published (parents_in chain_manifest) ((says 97 2 50 ∷ []) ∷ [])
        chain_manifest.levels 2 (97 ∷ []) ≡ Some (50 ∷ []) }
    ensures gone { asked published (parents_in chain_manifest)
        ((gone 97 2 ∷ []) ∷ [])
        chain_manifest.levels 2 (97 ∷ []) ≡ None }
    ensures none { asked formatted (parents_in chain_manifest) [] chain_manifest.levels 2 (97 ∷ [])
        ≡ None }
{}
