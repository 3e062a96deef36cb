//! What an opening tests of a state, met exactly and passed by one. Each is the contract of a function that does
//! nothing.

ghost use Rattle.std.specs.Prelude.{◌≡◌, [], ◌∷◌, replicate, Some, None, true, false};
ghost use Rattle.strat_base.specs.Change.{Put, Clone};
ghost use Rattle.def_bytes.specs.SuperBlock.{AreLimits};
ghost use Rattle.def_recovery.specs.Passed.{is_sized, PassesOpening};
ghost use Rattle.def_pins.specs.Openings.{filled_chain, chain_with, chained_array};

/// After four changes there are at most four updates, 65,536 arrays, 134,217,728 entries written and as many compacted; the
/// change and the versions of the journal count, and its keys have lawful sizes. Versions may have been dropped.
pub fn states_open_up_to_their_bounds()
    ensures ok { PassesOpening filled_chain }
    ensures limits { ¬ PassesOpening (record filled_chain { mem = 3 }) }
    ensures updates { ¬ PassesOpening (record filled_chain { updates = 5 }) }
    ensures changes { ¬ PassesOpening (record filled_chain { changes_max = 4 }) }
    ensures versions { ¬ PassesOpening (record filled_chain { versions_max = 3 }) }
    ensures next { ¬ PassesOpening (record filled_chain { next_array = 65538 }) }
    ensures none { ¬ PassesOpening (record filled_chain { next_array = 0; levels = [] }) }
    ensures written { ¬ PassesOpening (record filled_chain { written = 134217729 }) }
    ensures compacted { ¬ PassesOpening (record filled_chain { compacted = 134217729 }) }
    ensures marks { PassesOpening
        (record filled_chain { marks = false ∷ false ∷ false ∷ true ∷ [] }) }
    ensures journal { ¬ PassesOpening (record filled_chain { journal = Put 3 [] [] ∷ [] }) }
{}

/// Each limit of a store at its least and its greatest, and one past that.
pub fn limits_are_met_exactly()
    ensures least { AreLimits 4 1 1 }
    ensures most { AreLimits 4096 16777216 16384 }
    ensures mem { (¬ AreLimits 3 1 1) × (¬ AreLimits 4097 1 1) }
    ensures changes { (¬ AreLimits 4 0 1) × (¬ AreLimits 4 16777217 1) }
    ensures versions { (¬ AreLimits 4 1 0) × (¬ AreLimits 4 1 16385) }
{}

/// An array has a number from 1 on and below the next, a version, and an entry; its keys and values have lawful
/// sizes; a level has a horizon; no two arrays have one number.
pub fn arrays_open_up_to_their_bounds()
    ensures zero { ¬ PassesOpening (chain_with 4 (record chained_array { id = 0 } ∷ [])) }
    ensures next { ¬ PassesOpening (chain_with 4 (record chained_array { id = 65537 } ∷ [])) }
    ensures tag { ¬ PassesOpening (chain_with 4 (record chained_array { tag = [] } ∷ [])) }
    ensures order { ¬ PassesOpening (chain_with 4
        (record chained_array { tag = 2 ∷ 1 ∷ [] } ∷ [])) }
    ensures entries { ¬ PassesOpening (chain_with 4 (record chained_array { entries = 0 } ∷ [])) }
    ensures key { ¬ PassesOpening (chain_with 4
        (record chained_array { content = record { key = []; version = 1; value = Some [] } ∷ [] }
        ∷ [])) }
    ensures horizon { ¬ PassesOpening (chain_with 0 (chained_array ∷ [])) }
    ensures level { ¬ PassesOpening (chain_with 4
        (record chained_array { id = 2; tag = 2 ∷ [] } ∷ record chained_array { tag = 1 ∷ [] }
        ∷ [])) }
    ensures distinct { ¬ PassesOpening (chain_with 4
        (record chained_array { tag = 1 ∷ [] } ∷ record chained_array { tag = 2 ∷ [] } ∷ [])) }
{}

/// The arrays of a level stand in the order of their first versions, whichever come behind these.
pub fn arrays_are_ordered_by_their_first_versions()
    ensures ok { PassesOpening (chain_with 4 (record chained_array { tag = 1 ∷ 3 ∷ [] }
        ∷ record chained_array { id = 2; tag = 2 ∷ [] } ∷ [])) }
{}

/// A key has a byte at least; a value has up to 1,024 bytes, and need not be there.
pub fn keys_and_values_are_sized()
    ensures none { is_sized (record { key = 97 ∷ []; version = 0; value = None }) ≡ true }
    ensures most { is_sized
        (record { key = 97 ∷ []; version = 0; value = Some (replicate 1024 49) }) ≡ true }
    ensures more { is_sized
        (record { key = 97 ∷ []; version = 0; value = Some (replicate 1025 49) }) ≡ false }
    ensures key { is_sized (record { key = []; version = 0; value = None }) ≡ false }
{}

/// The versions of the journal count among the most: a chain that is full takes no clone there.
pub fn versions_of_the_journal_count()
    ensures { ¬ PassesOpening (record filled_chain { journal = Clone 3 ∷ [] }) }
{}
