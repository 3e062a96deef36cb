//! What look-ups may read, which cached blocks count for them, and how a cursor is opened. Each is the contract of a function that
//! does nothing.

ghost use Rattle.std.specs.Prelude.{◌≡◌, ◌≢◌, ◌≤◌, ◌+◌, ◌⊎◌, ℕ, [], ◌∷◌, length};
ghost use Rattle.strat_cursor.specs.Held.{HeldCursors};
ghost use Rattle.strat_cursor.specs.Looking.{ReadsArrays};
ghost use Rattle.strat_model.specs.Answer.{Answer, plain, refusal};
ghost use Rattle.strat_model.specs.Request.{Get, Stat};
ghost use Rattle.strat_model.specs.declared.replies.Refusal.TheVariants as why;
ghost use Rattle.strat_model.specs.declared.replies.Reply.TheVariants as reply;
ghost use Rattle.strat_store.specs.Ranging.{AreReadAs, ReadsForLook, TellsOfOpening};
ghost use Rattle.strat_store_pins.specs.Examples.{array_in, children_apart, one_block, with_cached};

/// A cached block that does not stand so on the disk bars what is told of its own array's versions alone.
pub fn a_wrong_cached_block_bars_its_own_versions_alone()
    ensures ok { AreReadAs one_block (with_cached 6 children_apart) 1 }
    ensures none { ¬ AreReadAs one_block (with_cached 5 children_apart) 1 }
{}

/// A search in an array of one block reads five at most, and the look-up one once more; of no array nothing is read. The
/// count never falls.
pub fn an_array_of_one_block_takes_six_reads()
    ensures ok { (before now : ℕ) → ReadsArrays (array_in 5 1 7 ∷ []) before now
        → (before ≤ now) × (now ≤ before + 6) }
    ensures none { (before now : ℕ) → ReadsArrays [] before now → now ≤ before }
{}

/// A get reads what its version asks, and Stat nothing.
pub fn look_ups_read_no_more_than_they_want()
    ensures found { (before now : ℕ) → ReadsForLook children_apart (Get 3 []) before now
        → now ≤ before }
    ensures none { (before now : ℕ) → ReadsForLook children_apart Stat before now → now ≤ before }
{}

/// Where 64 cursors are open an opening is refused, and where fewer are it gives the next number, or falls short of memory.
pub fn sixty_four_cursors_may_be_open()
    ensures fits { (c : HeldCursors) (answer : Answer) → length c.opened ≡ 64
        → TellsOfOpening c answer → answer ≡ refusal why.CursorLimit }
    ensures ok { (c : HeldCursors) (answer : Answer) → length c.opened ≡ 63
        → TellsOfOpening c answer
        → (answer ≡ plain (reply.Opened c.next)) ⊎ (answer ≡ refusal why.NoMemory) }
{}
