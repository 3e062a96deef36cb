//! Laws of exports. Each is a call that does nothing, and its clauses are what it says.

ghost use Rattle.std.specs.Prelude.{◌≡◌, ◌≤◌, ℕ, [], ◌∷◌, length};
ghost use Rattle.strat_model.specs.Kept.{IsMap};
ghost use Rattle.strat_model.specs.Pairs.{Pairs};
ghost use Rattle.strat_model.specs.Table.{fresh};
ghost use Rattle.def_bulk.specs.Exporting.{exported, puts_of, sole_version};
ghost use Rattle.def_follow.specs.Log.{IsLog, table_after};

/// A new table that may make so many changes takes the puts of a map's pairs in order. Then version 0 has the map.
pub fn an_export_gives_its_map()
    ensures ok { (changes_max versions_max : ℕ) (m : Pairs) → IsMap m → length m ≤ changes_max
        → IsLog changes_max versions_max (puts_of m)
        × (table_after (fresh changes_max versions_max) (puts_of m)
        ≡ sole_version changes_max versions_max (length m) m) }
{}

/// The bytes that are written of two pairs, and of none: puts at version 0, with the tags 1 and 2.
pub fn an_export_is_spelled_so()
    ensures ok { exported ((97 ∷ [], 49 ∷ []) ∷ (98 ∷ 99 ∷ [], []) ∷ [])
        ≡ 0 ∷ 0 ∷ 0 ∷ 15 ∷ 0 ∷ 0 ∷ 0 ∷ 1 ∷ 1 ∷ 0 ∷ 0 ∷ 0 ∷ 0 ∷ 0 ∷ 1 ∷ 97 ∷ 0 ∷ 1 ∷ 49
        ∷ 0 ∷ 0 ∷ 0 ∷ 15 ∷ 0 ∷ 0 ∷ 0 ∷ 2 ∷ 1 ∷ 0 ∷ 0 ∷ 0 ∷ 0 ∷ 0 ∷ 2 ∷ 98 ∷ 99 ∷ 0 ∷ 0 ∷ [] }
    ensures none { exported [] ≡ [] }
{}
