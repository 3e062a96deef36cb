//! What a store answers from the bytes of a disk, and what its table says. Each is the contract of a function that
//! does nothing.

ghost use Rattle.std.specs.Prelude.{◌≡◌, ◌<◌, ℕ, List, [], ◌∷◌, length, Some, IsTrue};
ghost use Rattle.strat_base.specs.Entries.{Entry};
ghost use Rattle.strat_base.specs.Tree.{Parents};
ghost use Rattle.def_crash.specs.Image.{Image};
ghost use Rattle.def_state.specs.LookUp.{looked_up, of_state};
ghost use Rattle.def_state.specs.Reading.{level_zero};
ghost use Rattle.def_state.specs.Sound.{IsSound};
ghost use Rattle.def_state.specs.State.{State, versions_of, is_living};
ghost use Rattle.strat_model.specs.Pairs.{value_of};
ghost use Rattle.strat_model.specs.Step.{pairs_at};
ghost use Rattle.def_recovery.specs.Asked.{on_disk, asked};
ghost use Rattle.def_recovery.specs.Head.{Head};
ghost use Rattle.def_recovery.specs.Opening.{state_of};
ghost use Rattle.def_meaning.specs.StateTable.{table_of};

/// The bytes of a state answer as the state does, whatever lists stand in front of the levels; and where the
/// state is sound, they answer as its table does.
pub fn bytes_answer_as_their_table()
    ensures same { (c : Image) (h : Head) (s : State) (parents : Parents)
        (zeros : List (List Entry)) (v : ℕ) (key : List ℕ) → state_of c h ≡ Some s
        → looked_up (on_disk c) parents zeros h.manifest.levels v key
        ≡ looked_up of_state parents zeros s.levels v key }
    ensures ok { (c : Image) (h : Head) (s : State) (v : ℕ) (key : List ℕ) → state_of c h ≡ Some s
        → IsSound s → v < length (versions_of s) → IsTrue (is_living s v)
        → asked c (versions_of s) (level_zero s ∷ []) h.manifest.levels v key
        ≡ value_of (pairs_at (table_of s) v) key }
{}
