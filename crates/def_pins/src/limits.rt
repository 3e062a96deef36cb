//! The limits, as numbers on which users rely.

ghost use Rattle.std.specs.Prelude.{◌≡◌};
ghost use Rattle.strat_base.specs.declared.limits.TheConstants.{KEY_MAX, VALUE_MAX, BLOCK, MEM_MIN, MEM_MAX, CHANGES_MAX, VERSIONS_MAX, CURSORS_MAX, PAIRS_MAX, BODY_MAX, LEVELS, ENTRIES_MAX, CACHED_BLOCKS};

/// The limits, as numbers.
pub fn limits_are_these_numbers()
    ensures entries { (KEY_MAX ≡ 255) × (VALUE_MAX ≡ 1024) }
    ensures blocks { (BLOCK ≡ 4096) × (CACHED_BLOCKS ≡ 256) × (LEVELS ≡ 22)
        × (ENTRIES_MAX ≡ 33554432) }
    ensures store { (MEM_MIN ≡ 4) × (MEM_MAX ≡ 4096)
        × (CHANGES_MAX ≡ 16777216) × (VERSIONS_MAX ≡ 16384) }
    ensures stream { (CURSORS_MAX ≡ 64) × (PAIRS_MAX ≡ 256) × (BODY_MAX ≡ 2048) }
{}
