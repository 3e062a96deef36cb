//! What look-ups read of a store's arrays, and what they then find.

ghost use Rattle.std.specs.Prelude.{◌≡◌, ℕ, [], ◌∷◌, false};
ghost use Rattle.strat_cursor.specs.Looking.{HaveFewBlocks, reads_of_arrays};
ghost use Rattle.strat_model.specs.Answer.{Answer, as_told};
ghost use Rattle.strat_model.specs.Request.{Get, NextPairs, Scan, Stat};
ghost use Rattle.strat_model.specs.declared.replies.Reply.TheVariants as reply;
ghost use Rattle.strat_memory.specs.Memory.{lists_in_memory};
ghost use Rattle.strat_store.specs.Filtering.{KeepsFilter};
ghost use Rattle.strat_store.specs.Ranging.{AreReadAs, IsMapAsked, ReadsForLook, TellsFrom, arrays_wanted};
ghost use Rattle.strat_store_pins.specs.Examples.{array_in, children_apart, children_filtered, one_block};

/// A block that is bad leaves what is told of each version alone whose arrays do not have it.
pub fn a_bad_block_bars_its_own_versions_alone()
    ensures ok { AreReadAs one_block children_apart 1 }
    ensures none { ¬ AreReadAs one_block children_apart 2 }
    ensures found { (answer : Answer)
        → TellsFrom one_block children_apart (Get 1 (97 ∷ [])) answer
        → answer ≡ as_told reply.Found ((97 ∷ [], 49 ∷ []) ∷ []) }
{}

/// A get of a key that the array's filter refuses reads nothing. Of a key that it does not refuse it may read the array, and finds
/// what that has. A filter is kept of the one array and not of the other.
pub fn a_filter_that_refuses_a_key_spares_its_read()
    ensures reads { (before now : ℕ) → ReadsForLook children_filtered (Get 1 (98 ∷ [])) before now
        → now ≡ before }
    ensures ok { arrays_wanted children_filtered (Get 1 (97 ∷ [])) ≡ array_in 5 1 7 ∷ [] }
    ensures found { (answer : Answer)
        → TellsFrom one_block children_filtered (Get 1 (97 ∷ [])) answer
        → answer ≡ as_told reply.Found ((97 ∷ [], 49 ∷ []) ∷ []) }
    ensures kept { KeepsFilter children_filtered.filters children_filtered.levels 5
        × (¬ KeepsFilter children_filtered.filters children_filtered.levels 6) }
{}

/// The map of a version has the values of its keys, and no others.
pub fn the_map_of_a_version_is_asked()
    ensures ok { IsMapAsked one_block children_apart.memory.parents
        (lists_in_memory children_apart.memory) children_apart.levels 1 ((97 ∷ [], 49 ∷ []) ∷ []) }
    ensures none { ¬ IsMapAsked one_block children_apart.memory.parents
        (lists_in_memory children_apart.memory) children_apart.levels 1 [] }
    ensures found { (answer : Answer)
        → TellsFrom one_block children_apart (Scan 1 [] [] 2) answer
        → answer ≡ as_told (reply.Pairs false) ((97 ∷ [], 49 ∷ []) ∷ []) }
{}

/// A get and a scan read the array of their version, a page those of its cursor, and of an array of one block six at most.
#[tactic(auto, unfolding(strat_base::specs::Tree::climb))]
pub fn look_ups_read_their_arrays()
    ensures ok { (arrays_wanted children_apart (Get 1 []) ≡ array_in 5 1 7 ∷ [])
        × (arrays_wanted children_apart (Scan 2 [] [] 1) ≡ array_in 6 2 8 ∷ [])
        × (arrays_wanted children_apart (NextPairs 3 1) ≡ array_in 6 2 8 ∷ []) }
    ensures none { (arrays_wanted children_apart (Get 0 []) ≡ [])
        × (arrays_wanted children_apart (Get 3 []) ≡ [])
        × (arrays_wanted children_apart (NextPairs 4 1) ≡ [])
        × (arrays_wanted children_apart Stat ≡ []) }
    ensures reads { reads_of_arrays 1 (array_in 5 1 7 ∷ array_in 6 2 8 ∷ []) ≡ 12 }
{}

/// Fewer than a power of two is less than it.
pub fn one_block_is_fewer_than_two()
    ensures ok { HaveFewBlocks 1 (array_in 5 1 7 ∷ []) }
    ensures none { ¬ HaveFewBlocks 0 (array_in 5 1 7 ∷ []) }
{}
