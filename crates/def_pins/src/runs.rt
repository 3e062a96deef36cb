//! Which commands change a store, take memory or reach the disk, and how many changes a journal holds after one
//! more. Each is the contract of a function that does nothing.

ghost use Rattle.std.specs.Prelude.{◌≡◌, ◌≤◌, ℕ, List, [], ◌∷◌, length, Some, None, true, false};
ghost use Rattle.strat_model.specs.Answer.{accepts, refusal};
ghost use Rattle.strat_model.specs.Batch.{Continuation, IsChangeMade, tables_continued};
ghost use Rattle.strat_model.specs.Request.{Request, Put, Delete, Get, Clone, Scan, Info, OpenCursor, NextPairs, CloseCursor, Stat, DropVersion};
ghost use Rattle.strat_model.specs.Run.{is_change, takes_memory, reaches_disk, MayFill, fill_after, is_carried_out, IsAfter, EmptiesAtOnce, Position, Response, AnswersNoCommand, AnswersNoMemory, AnswersFault, Exchange, Interruption, IsTranscript, bodies_of, responses_of, tables_of, positions_of, AnswersByTable, IsFault, IsRun, Transcript};
ghost use Rattle.strat_model.specs.Step.{step};
ghost use Rattle.strat_model.specs.Table.{fresh, bare};
ghost use Rattle.strat_model.specs.Spelling.{Spells};
ghost use Rattle.strat_model.specs.declared.replies.Refusal.TheVariants as why;

/// A put, a delete, a clone and a drop change a store.
pub fn four_commands_are_changes()
    ensures some { (is_change (Put 0 [] []) ≡ true) × (is_change (Delete 0 []) ≡ true)
        × (is_change (Clone 0) ≡ true) × (is_change (DropVersion 0) ≡ true) }
    ensures none { (is_change (Get 0 []) ≡ false) × (is_change (Scan 0 [] [] 1) ≡ false)
        × (is_change (Info 0) ≡ false) × (is_change (OpenCursor 0 [] []) ≡ false)
        × (is_change (NextPairs 1 1) ≡ false) × (is_change (CloseCursor 1) ≡ false)
        × (is_change Stat ≡ false) }
{}

/// Memory may run out for these, and where a cursor is opened.
pub fn five_commands_take_memory()
    ensures some { (takes_memory (Put 0 [] []) ≡ true) × (takes_memory (Delete 0 []) ≡ true)
        × (takes_memory (Clone 0) ≡ true) × (takes_memory (DropVersion 0) ≡ true)
        × (takes_memory (OpenCursor 0 [] []) ≡ true) }
    ensures none { (takes_memory (Get 0 []) ≡ false) × (takes_memory (Scan 0 [] [] 1) ≡ false)
        × (takes_memory (Info 0) ≡ false) × (takes_memory (NextPairs 1 1) ≡ false)
        × (takes_memory (CloseCursor 1) ≡ false) × (takes_memory Stat ≡ false) }
{}

/// No change is refused for want of memory while the journal has room.
pub fn changes_want_no_memory_below_a_full_journal()
    ensures { (mem : ℕ) (at after : Position) (body : List ℕ) (response : Response)
        (no : AnswersNoMemory mem at body response after)
        → is_change no.request ≡ true → mem ≤ at.fill }
{}

/// Nothing changes where a body is no command, or memory ran out. Memory runs out at what takes it, a fault is met by what
/// reaches the disk, and both by what the table accepts alone.
pub fn troubles_come_where_they_may()
    ensures refused { (at after : Position) (body : List ℕ) (response : Response)
        → AnswersNoCommand at body response after → after ≡ at }
    ensures same { (mem : ℕ) (at after : Position) (body : List ℕ) (response : Response)
        → AnswersNoMemory mem at body response after → after ≡ at }
    ensures room { (mem : ℕ) (at after : Position) (body : List ℕ) (response : Response)
        (no : AnswersNoMemory mem at body response after)
        → (takes_memory no.request ≡ true)
        × (accepts (step at.table no.request).answer.reply ≡ true) }
    ensures device { (mem : ℕ) (at done : Position) (body : List ℕ) (response : Response)
        (met : AnswersFault mem at body response done)
        → (reaches_disk met.request ≡ true)
        × (accepts (step at.table met.request).answer.reply ≡ true)
        × IsAfter mem at met.request done }
{}

/// After the exchanges of a transcript come the body and the response of its interruption, which was met behind them all,
/// and the table that this leaves if it was carried out.
pub fn interruptions_come_last()
    ensures bodies { (x : Exchange) (after : Position) (h : Interruption)
        → bodies_of (record { exchanges = x ∷ []; after = after; interruption = Some h })
        ≡ x.body ∷ h.body ∷ [] }
    ensures responses { (x : Exchange) (after : Position) (h : Interruption)
        → responses_of (record { exchanges = x ∷ []; after = after; interruption = Some h })
        ≡ x.response ∷ h.response ∷ [] }
    ensures tables { (x : Exchange) (after : Position) (h : Interruption)
        → tables_of (record { exchanges = x ∷ []; after = after; interruption = Some h })
        ≡ bare x.at.table ∷ bare after.table ∷ bare h.done.table ∷ [] }
    ensures none { (x : Exchange) (after : Position)
        → tables_of (record { exchanges = x ∷ []; after = after; interruption = None })
        ≡ bare x.at.table ∷ bare after.table ∷ [] }
    ensures met { (mem : ℕ) (at after : Position) (xs : List Exchange) (h : Interruption)
        → IsTranscript mem at (record { exchanges = xs; after = after; interruption = Some h })
        → AnswersFault mem after h.body h.response h.done }
{}

/// The disk may fail at a change and at what reads pairs.
pub fn seven_commands_reach_the_disk()
    ensures some { (reaches_disk (Put 0 [] []) ≡ true) × (reaches_disk (Delete 0 []) ≡ true)
        × (reaches_disk (Get 0 []) ≡ true) × (reaches_disk (Clone 0) ≡ true)
        × (reaches_disk (Scan 0 [] [] 1) ≡ true) × (reaches_disk (NextPairs 1 1) ≡ true)
        × (reaches_disk (DropVersion 0) ≡ true) }
    ensures none { (reaches_disk (Info 0) ≡ false) × (reaches_disk (OpenCursor 0 [] []) ≡ false)
        × (reaches_disk (CloseCursor 1) ≡ false) × (reaches_disk Stat ≡ false) }
{}

/// A journal of two regions of four changes each holds one more up to the sixth. From the fourth on a region may be emptied
/// instead, and behind the sixth it has to be.
pub fn a_full_region_may_be_emptied()
    ensures some { MayFill 4 0 1 × MayFill 4 3 4 × MayFill 4 5 6 }
    ensures full { MayFill 4 4 5 × MayFill 4 4 1 × MayFill 4 6 3 }
    ensures below { (n : ℕ) → MayFill 4 3 n → n ≡ 4 }
    ensures last { (n : ℕ) → MayFill 4 6 n → n ≡ 3 }
    ensures none { ¬ MayFill 4 4 4 × ¬ MayFill 4 5 1 × ¬ MayFill 4 7 8 }
{}

/// A journal that uses one region at a time holds one more up to the fourth, and begins anew with the fifth.
pub fn a_full_journal_begins_anew()
    ensures some { (fill_after 4 0 ≡ 1) × (fill_after 4 3 ≡ 4) }
    ensures full { fill_after 4 4 ≡ 1 }
    ensures anew { (at after : Position) (request : Request) → at.fill ≡ 4
        → is_carried_out at request ≡ true → EmptiesAtOnce 4 at request after → after.fill ≡ 1 }
{}

/// A change that is accepted is one more in the journal. One that is refused is none, nor is a look-up.
pub fn accepted_changes_are_journalled()
    ensures put { (after : Position) → IsAfter 4 (record { table = fresh 2 2; fill = 2 })
        (Put 0 (97 ∷ []) []) after → after.fill ≡ 3 }
    ensures clone { (after : Position) → IsAfter 4 (record { table = fresh 2 2; fill = 2 })
        (Clone 0) after → after.fill ≡ 3 }
    ensures refused { (after : Position) → IsAfter 4 (record { table = fresh 2 2; fill = 2 })
        (Put 1 (97 ∷ []) []) after → after.fill ≡ 2 }
    ensures get { (after : Position) → IsAfter 4 (record { table = fresh 2 2; fill = 2 })
        (Get 0 (97 ∷ [])) after → after.fill ≡ 2 }
    ensures table { (mem : ℕ) (at after : Position) (request : Request)
        → IsAfter mem at request after → after.table ≡ (step at.table request).table }
{}

/// The positions of a run are those before its bodies, the one after them, and that of an interruption.
pub fn positions_of_a_run()
    ensures some { (x : Exchange) (after : Position) (h : Interruption)
        → positions_of (record { exchanges = x ∷ []; after = after; interruption = Some h })
        ≡ x.at ∷ after ∷ h.done ∷ [] }
    ensures none { (x : Exchange) (after : Position)
        → positions_of (record { exchanges = x ∷ []; after = after; interruption = None })
        ≡ x.at ∷ after ∷ [] }
{}

/// A batch of changes that fails leaves the table before it or the one after all of it, and none between. The second body is one
/// that was carried out as the table says, at most fifteen follow the first, and that one asked for a change.
pub fn batches_leave_all_or_nothing()
    ensures tables { (x : Exchange) (after end : Position) (h : Interruption)
        → tables_continued (record { exchanges = x ∷ []; after = after; interruption = Some h }) end
        ≡ bare x.at.table ∷ bare after.table ∷ bare end.table ∷ [] }
    ensures none { (x : Exchange) (after end : Position)
        → tables_continued (record { exchanges = x ∷ []; after = after; interruption = None }) end
        ≡ bare x.at.table ∷ bare after.table ∷ [] }
    ensures change { (mem : ℕ) (xs : List Exchange) (after : Position) (h : Interruption)
        (y : Exchange)
        (c : Continuation mem (record { exchanges = xs; after = after; interruption = Some h }))
        → c.more ≡ y ∷ [] → (r : Request) × Spells h.body h.response.tag r
        × (is_carried_out after r ≡ true) }
    ensures next { (mem : ℕ) (xs : List Exchange) (after : Position) (h : Interruption)
        (y : Exchange)
        (c : Continuation mem (record { exchanges = xs; after = after; interruption = Some h }))
        → c.more ≡ y ∷ [] → (y.at ≡ h.done) × IsChangeMade mem y }
    ensures few { (mem : ℕ) (xs : List Exchange) (after : Position) (h : Interruption)
        (c : Continuation mem (record { exchanges = xs; after = after; interruption = Some h }))
        → (length c.more ≤ 15) × IsRun mem h.done c.more c.end }
    ensures damaged { (mem : ℕ) (xs : List Exchange) (after : Position) (h : Interruption) (b : ℕ)
        (c : Continuation mem (record { exchanges = xs; after = after; interruption = Some h }))
        → h.response.answer ≡ refusal (why.Damaged b) → c.more ≡ [] }
    ensures whole { (mem : ℕ) (t : Transcript) (c : Continuation mem t) → t.interruption ≡ None
        → c.more ≡ [] }
    ensures made { (mem : ℕ) (x : Exchange) (made : IsChangeMade mem x)
        → is_carried_out x.at made.by.request ≡ true }
{}

/// A transcript is a run from where it begins to where its exchanges lead, and the first of these stands at its beginning.
pub fn runs_begin_where_they_are_said_to()
    ensures first { (mem : ℕ) (at after : Position) (x : Exchange) → IsRun mem at (x ∷ []) after
        → x.at ≡ at }
    ensures all { (mem : ℕ) (at : Position) (t : Transcript) → IsTranscript mem at t
        → IsRun mem at t.exchanges t.after }
{}

/// A command that the table answers is spelled under the tag of its response, which has the answer of the table's step, and
/// leads to that step's table.
pub fn commands_are_answered_by_the_table()
    ensures { (mem : ℕ) (at after : Position) (body : List ℕ) (response : Response)
        (by : AnswersByTable mem at body response after)
        → Spells body response.tag by.request
        × (response.answer ≡ (step at.table by.request).answer)
        × IsAfter mem at by.request after }
{}

/// Want of memory is told, and ends no run.
pub fn want_of_memory_is_no_fault()
    ensures { ¬ IsFault (refusal why.NoMemory) }
{}

/// What a run leaves has neither cursors nor their number: the next run counts from 1.
pub fn cursors_end_with_their_run()
    ensures { bare (record (fresh 2 2) {
      cursors = record { number = 1; left = [] } ∷ [];
      next_cursor = 2;
    }) ≡ fresh 2 2 }
{}
