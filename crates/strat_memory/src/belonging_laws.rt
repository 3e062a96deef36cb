//! Laws of a manifest that a store may have. Each is the contract of a function that does nothing.

ghost use Rattle.std.specs.List.{flat_map, list_all};
ghost use Rattle.std.specs.Prelude.{◌≡◌, ◌<◌, ℕ, false, true, nat_lt, IsTrue};
ghost use Rattle.strat_base.specs.declared.descriptors.LevelDesc.{LevelDesc};
ghost use Rattle.def_bytes.specs.Manifest.{is_rising};
ghost use Rattle.strat_level.specs.Levels.{HaveDisjointTags, arrays_for};
ghost use Rattle.def_recovery.specs.Opening.{has_own_versions};

/// A level whose tags are disjoint and below its horizon has versions of its own, where each tag rises, as a spelling
/// has it. A level where two arrays are for one version has not.
pub fn disjoint_tags_are_own_versions()
    ensures ok { (level : LevelDesc)
        → IsTrue (list_all (λ a. is_rising a.versions) level.arrays)
        → HaveDisjointTags level.arrays
        → IsTrue (list_all (λ v. nat_lt v level.horizon) (flat_map (λ a. a.versions) level.arrays))
        → has_own_versions level ≡ true }
    ensures none { (level : LevelDesc) (v : ℕ) → 1 < arrays_for level.arrays v
        → has_own_versions level ≡ false }
{}
