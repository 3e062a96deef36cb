//! Disks with one bad block: that block is bad and no other, and without the flaw none is. Each is the contract of a
//! function that does nothing.

ghost use Rattle.std.specs.Prelude.{◌≡◌, ◌↔◌, ℕ, [], ◌∷◌, Some, Ok, Err};
ghost use Rattle.strat_base.specs.Samples.{says};
ghost use Rattle.def_recovery.specs.Bad.{IsBad};
ghost use Rattle.def_recovery.specs.Disks.{published};
ghost use Rattle.def_recovery.specs.Opening.{recover};
ghost use Rattle.def_pins.specs.BadDisks.{chain_head, chain_array, uncounted, refused_slot, split_array, split_head, split_with};

/// The block that recovery refuses is bad, and no other, though no array is named.
pub fn blocks_that_are_refused_are_bad()
    ensures found { recover refused_slot ≡ Err 1 }
    ensures ok { (b : ℕ) → IsBad refused_slot 1 [] [] b ↔ (b ≡ 1) }
{}

/// A block that counts no entry is bad where its array is named, though recovery finds the store.
pub fn blocks_that_are_none_are_bad()
    ensures found { recover uncounted ≡ Ok (Some chain_head) }
    ensures ok { (b : ℕ)
        → IsBad uncounted 4 (chain_array ∷ []) (chain_array ∷ []) b ↔ (b ≡ 7) }
    ensures named { (b : ℕ) → ¬ IsBad uncounted 4 [] (chain_array ∷ []) b }
    ensures none { (b : ℕ) → ¬ IsBad published 4 (chain_array ∷ []) (chain_array ∷ []) b }
{}

/// A block that begins with the last key and version of the block before it is bad where its array is merged.
pub fn blocks_out_of_place_are_bad()
    ensures found { recover (split_with (says 97 1 50)) ≡ Ok (Some split_head) }
    ensures ok { (b : ℕ)
        → IsBad (split_with (says 97 1 50)) 4 (split_array ∷ []) (split_array ∷ []) b
        ↔ (b ≡ 9) }
    ensures merged { (b : ℕ) → ¬ IsBad (split_with (says 97 1 50)) 4 (split_array ∷ []) [] b }
    ensures none { (b : ℕ)
        → ¬ IsBad (split_with (says 98 1 49)) 4 (split_array ∷ []) (split_array ∷ []) b }
{}
