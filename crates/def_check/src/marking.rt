//! A law of runs that are merged with all of their entries. It is the contract of a function that does nothing.

ghost use Rattle.std.specs.List.{slice_get};
ghost use Rattle.std.specs.Prelude.{◌≡◌, ◌≤◌, ℕ, List, length, Some, IsTrue};
ghost use Rattle.strat_base.specs.Entries.{Entry, is_ascending};
ghost use Rattle.def_promote.specs.Merging.{Merges};
ghost use Rattle.def_check.specs.Marked.{marked_runs, told_of_run};

/// At most 16,384 runs that ascend, their entries marked, are merged without loss: of each run its entries come, all of them, in
/// their order.
pub fn a_merge_of_marked_runs_tells_each_run()
    ensures { (runs groups : List (List Entry)) (i : ℕ) (run : List Entry) → length runs ≤ 16384
        → ((k : ℕ) (other : List Entry) → slice_get runs k ≡ Some other
        → IsTrue (is_ascending other))
        → Merges (marked_runs 0 runs) groups → slice_get runs i ≡ Some run
        → told_of_run i groups ≡ run }
{}
