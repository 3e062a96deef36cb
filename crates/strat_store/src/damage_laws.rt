//! A law of what is called damaged. It is the contract of a function that does nothing.

ghost use Rattle.std.specs.Prelude.{◌≡◌, ℕ, List, Option, Some};
ghost use Rattle.strat_base.specs.declared.descriptors.LevelDesc.{LevelDesc};
ghost use Rattle.def_crash.specs.Image.{Image};
ghost use Rattle.strat_cursor.specs.Looking.{arrays_there};
ghost use Rattle.def_recovery.specs.Bad.{IsBad};
ghost use Rattle.strat_publish.specs.Outcomes.{IsDamagedIn};
ghost use Rattle.strat_memory.specs.Held.{arrays_held};
ghost use Rattle.strat_memory.specs.Memory.{Memory};

/// A block that a store calls damaged is bad in the content that is exposed, of however many versions: the arrays that are
/// named are those that the store holds, and those that are merged are of its levels.
pub fn what_is_called_damaged_is_bad()
    ensures ok { (f : Image) (content : Option Image) (m : Memory)
        (levels : List (Option LevelDesc)) (versions b : ℕ) → content ≡ Some f
        → IsDamagedIn content m levels b
        → IsBad f versions (arrays_held m levels) (arrays_there levels) b }
{}
