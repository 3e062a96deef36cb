//! Laws of the journal that a disk's bytes hold. Each is the contract of a function that does nothing.

ghost use Rattle.std.specs.Prelude.{◌≡◌, ◌≤◌, ℕ, List, Ok};
ghost use Rattle.strat_base.specs.Change.{Change};
ghost use Rattle.def_crash.specs.Image.{Image, HoldsBytes};
ghost use Rattle.strat_journal.specs.Laid.{Laid};
ghost use Rattle.def_bytes.specs.Records.{records};
ghost use Rattle.strat_journal.specs.Records.{logged_from};

/// Records that stand one after the other up to a closed gate are read, each with the block of its gate, and
/// what is read stands so.
pub fn records_are_read_as_written()
    ensures read { (c : Image) (end n at : ℕ) (list : List Change) → Laid c end n at list
        → records c end n at ≡ Ok (logged_from at list) }
    ensures written { (c : Image) (end n at : ℕ) (list : List Change) → HoldsBytes c → at ≤ end
        → records c end n at ≡ Ok (logged_from at list) → Laid c end n at list }
{}
