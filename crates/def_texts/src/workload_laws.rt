//! Laws of the changes of a workload. Each is the contract of a function that does nothing.

ghost use Rattle.std.specs.Prelude.{◌≡◌, ◌≤◌, ℕ, [], ◌∷◌, length, None, false, IsTrue};
ghost use Rattle.def_state.specs.Sound.{are_accepted};
ghost use Rattle.def_texts.specs.Workload.{workload_changes, workload};

/// A workload has as many changes as were asked for, each in a frame, and a new store accepts them all in
/// their turn where it takes so many changes and 128 versions.
pub fn workloads_are_accepted()
    ensures len { (seed count : ℕ) → (length (workload_changes seed count) ≡ count)
        × (length (workload seed count) ≡ count) }
    ensures ok { (seed count changes_max versions_max : ℕ) → count ≤ changes_max
        → 128 ≤ versions_max → IsTrue (are_accepted changes_max versions_max
        (None ∷ []) (false ∷ []) 0 (workload_changes seed count)) }
{}
