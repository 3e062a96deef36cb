//! Laws of filters. Each is the contract of a function that does nothing.

ghost use Rattle.std.specs.Prelude.{◌≡◌, ◌<◌, ℕ, Bool, List, [], ◌∷◌, Contains, length, slice_index_or, true, false};
ghost use Rattle.strat_base.specs.Entries.{Entry};
ghost use Rattle.strat_filter.specs.Bits.{fnv, bit_places, bits_for, bits_after, may_hold};
ghost use Rattle.strat_filter.specs.Keys.{IsFilterOf};

/// A filter refuses no key that was added to it.
pub fn a_filter_holds_what_was_added()
    ensures { (n : ℕ) (keys : List (List ℕ)) (key : List ℕ) → 0 < n → Contains keys key
        → may_hold (bits_after n keys) key ≡ true }
{}

/// The hash of `a`, the places of its bits in a filter of one entry, and that the filter refuses `b`.
pub fn a_filter_of_one_key()
    ensures hash { fnv (97 ∷ []) ≡ 0xaf63dc4c8601ec8c }
    ensures found { bit_places (bits_for 1) (fnv (97 ∷ [])) ≡ 12 ∷ 25 ∷ 38 ∷ 51 ∷ [] }
    ensures none { may_hold (bits_after (bits_for 1) ((97 ∷ []) ∷ [])) (98 ∷ []) ≡ false }
{}

/// A filter of entries is of no other key: each bit that is set is one of an entry's key, and the filter of no entries refuses
/// every key.
pub fn a_filter_of_entries_has_no_other_bits()
    ensures found { (bits : List Bool) (entries : List Entry) (at : ℕ) → IsFilterOf bits entries
        → slice_index_or bits at false ≡ true
        → (e : Entry) × Contains entries e × Contains (bit_places (length bits) (fnv e.key)) at }
    ensures none { (bits : List Bool) (key : List ℕ) → IsFilterOf bits []
        → may_hold bits key ≡ false }
{}
