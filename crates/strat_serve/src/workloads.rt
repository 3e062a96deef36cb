//! Laws of workloads as streams. Each is the contract of a function that does nothing.

ghost use Rattle.std.specs.Prelude.{◌≡◌, ◌≢◌, ◌≤◌, ◌<◌, ◌*◌, ◌^◌, ◌++◌, ℕ, List, [], length, take};
ghost use Rattle.strat_model.specs.Stream.{Splits, Long, ending_of};
ghost use Rattle.def_texts.specs.Workload.{workload_changes};
ghost use Rattle.strat_serve.specs.Generated.{workload_bytes, workload_bodies, AskFor};

/// The bytes of a workload are whole frames, none of which is too long, and few: of 1,000,000 changes
/// at most 31 MB.
pub fn workloads_are_whole_frames()
    ensures whole { (seed count : ℕ) → count < 2 ^ 32
        → Splits (workload_bytes seed count) (workload_bodies seed count) [] }
    ensures len { (seed count : ℕ) → count < 2 ^ 32
        → length (workload_bytes seed count) ≤ 31 * count }
    ensures bodies { (seed count : ℕ) → length (workload_bodies seed count) ≡ count }
{}

/// Its bodies are commands, which ask for its changes in order, each under the change's number.
pub fn workloads_ask_for_their_changes()
    ensures { (seed count : ℕ) → count < 2 ^ 32
        → AskFor 1 (workload_bodies seed count) (workload_changes seed count) }
{}

/// Bytes that were taken from the front of a workload are the frames of its first bodies, and no length
/// that no frame may have; all of its bytes are the frames of all of its bodies.
pub fn fronts_of_workloads_are_frames()
    ensures front { (seed count : ℕ) (taken left : List ℕ) (bodies : List (List ℕ)) (rest : List ℕ)
        → count < 2 ^ 32 → workload_bytes seed count ≡ taken ++ left → Splits taken bodies rest
        → (take (length bodies) (workload_bodies seed count) ≡ bodies) × (ending_of rest ≢ Long) }
    ensures all { (seed count : ℕ) (bodies : List (List ℕ)) (rest : List ℕ) → count < 2 ^ 32
        → Splits (workload_bytes seed count) bodies rest
        → (bodies ≡ workload_bodies seed count) × (rest ≡ []) }
{}
