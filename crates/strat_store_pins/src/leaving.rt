//! What commands leave of the cursors of a store.

ghost use Rattle.std.specs.Prelude.{◌≡◌, [], ◌∷◌, Some, None, true};
ghost use Rattle.strat_base.specs.Change as change;
ghost use Rattle.strat_model.specs.Answer.{as_told, plain, refusal};
ghost use Rattle.strat_model.specs.Request.{Get, OpenCursor, NextPairs, CloseCursor, Stat};
ghost use Rattle.strat_model.specs.declared.replies.Refusal.TheVariants as why;
ghost use Rattle.strat_model.specs.declared.replies.Reply.TheVariants as reply;
ghost use Rattle.strat_store.specs.Cursoring.{cursors_after};
ghost use Rattle.strat_memory.specs.Held.{arrays_held};
ghost use Rattle.strat_memory.specs.Memory.{cursor_from, emptied, memory_after, renewed, stat_told};
ghost use Rattle.strat_store_pins.specs.Examples.{array, cursor, cursors, entry, level, memory};

/// An opening that is not refused adds a cursor behind the others, with the next number, over its range.
pub fn an_opening_adds_a_cursor()
    ensures ok { cursors_after (memory (cursors (cursor 3 None [] ∷ []) [])) (None ∷ [])
        (OpenCursor 0 (97 ∷ []) []) (plain (reply.Opened 9))
        ≡ record (cursors (cursor 3 None [] ∷ cursor 9 (Some (97 ∷ [])) [] ∷ []) []) {
          next = 10;
        } }
    ensures err { cursors_after (memory (cursors [] [])) [] (OpenCursor 0 [] [])
        (refusal why.NoMemory) ≡ cursors [] [] }
{}

/// A cursor holds on to what stands in level 0 then, and to the array of each level that is read at its version.
#[tactic(auto, unfolding(strat_base::specs::Tree::climb))]
pub fn an_opened_cursor_keeps_what_is_there()
    ensures ok { cursor_from (record (memory (cursors [] [])) {
      parents = None ∷ Some 0 ∷ [];
      entries = entry 97 ∷ [];
    }) (None ∷ Some (level 2 (array 5 ∷ record (array 6) { versions = 2 ∷ [] } ∷ []))
        ∷ Some (level 3 (array 7 ∷ [])) ∷ []) 1 (97 ∷ []) (99 ∷ [])
        ≡ record (cursor 9 (Some (97 ∷ [])) (array 5 ∷ array 7 ∷ [])) {
          version = 1;
          zero = entry 97 ∷ [];
          hi = 99 ∷ [];
        } }
{}

/// A page moves its cursor behind the pairs told, unless it is refused.
pub fn a_page_moves_its_cursor()
    ensures ok { cursors_after (memory (cursors (cursor 3 (Some []) [] ∷ []) [])) []
        (NextPairs 3 1) (as_told (reply.Pairs true) ((98 ∷ [], []) ∷ []))
        ≡ cursors (cursor 3 (Some (98 ∷ 0 ∷ [])) [] ∷ []) [] }
    ensures err { cursors_after (memory (cursors (cursor 3 (Some []) [] ∷ []) [])) []
        (NextPairs 3 1) (refusal why.DeviceFault) ≡ cursors (cursor 3 (Some []) [] ∷ []) [] }
{}

/// A closing takes its cursor away, unless it is refused; look-ups leave cursors alone.
pub fn a_closing_takes_its_cursor()
    ensures ok { cursors_after (memory (cursors (cursor 3 None [] ∷ []) [])) [] (CloseCursor 3)
        (plain reply.Done) ≡ cursors [] [] }
    ensures err { cursors_after (memory (cursors (cursor 3 None [] ∷ []) [])) [] (CloseCursor 4)
        (refusal why.UnknownCursor) ≡ cursors (cursor 3 None [] ∷ []) [] }
    ensures same { cursors_after (memory (cursors (cursor 3 None [] ∷ []) [])) [] (Get 0 (97 ∷ []))
        (plain reply.Absent) ≡ cursors (cursor 3 None [] ∷ []) [] }
{}

/// A change leaves the cursors, and an emptied level 0 too; the arrays that a promotion takes are kept for them.
#[tactic(auto, unfolding(strat_cursor::specs::Cursors::retired_all))]
pub fn changes_and_publications_leave_cursors()
    ensures ok { (memory_after (memory (cursors (cursor 3 None [] ∷ []) []))
        (change.Clone 0)).cursors ≡ cursors (cursor 3 None [] ∷ []) [] }
    ensures same { (emptied 4 (memory (cursors (cursor 3 None [] ∷ []) []))).cursors
        ≡ cursors (cursor 3 None [] ∷ []) [] }
    ensures kept { (renewed (array 5 ∷ array 6 ∷ [])
        (memory (cursors (cursor 3 None (array 6 ∷ []) ∷ []) []))).cursors
        ≡ cursors (cursor 3 None (array 6 ∷ []) ∷ []) (array 6 ∷ []) }
{}

/// The arrays of the levels are held, the shallowest first, and behind them those that are kept.
pub fn arrays_of_levels_and_kept_ones_are_held()
    ensures ok { arrays_held (memory (cursors [] (array 4 ∷ [])))
        (None ∷ Some (level 2 (array 5 ∷ array 6 ∷ [])) ∷ Some (level 3 (array 7 ∷ [])) ∷ [])
        ≡ array 5 ∷ array 6 ∷ array 7 ∷ array 4 ∷ [] }
{}

/// The counts of a store have its versions, and the cursors that are open.
pub fn open_cursors_are_counted()
    ensures ok { stat_told (memory (cursors (cursor 3 None [] ∷ cursor 4 None [] ∷ []) []))
        ≡ reply.Stat 1 0 0 2 }
{}
