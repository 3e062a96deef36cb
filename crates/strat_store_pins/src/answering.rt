//! What a run over a disk that shows a table is said to have answered, and what a store is said to tell on any disk: each
//! fact of these, used once. Each is the contract of a function that does nothing.

ghost use Rattle.std.specs.Prelude.{◌≡◌, ◌≢◌, ◌≤◌, ◌<◌, ◌++◌, ℕ, List, [], Option, length, Bool, true, false, Some, None};
ghost use Rattle.def_crash.specs.Faults.{Rose};
ghost use Rattle.def_crash.specs.Image.{Image};
ghost use Rattle.strat_cursor.specs.Cursors.{is_opened};
ghost use Rattle.strat_io.specs.Streams.{Appends};
ghost use Rattle.strat_model.specs.Answer.{Answer, plain, refusal};
ghost use Rattle.strat_model.specs.Ended.{status_of};
ghost use Rattle.strat_model.specs.Request.{Get, Scan, Info, OpenCursor, NextPairs, CloseCursor, Stat};
ghost use Rattle.strat_model.specs.Run.{Interruption, Position, Transcript, IsTranscript, bodies_of, responses_of, sent_bytes};
ghost use Rattle.strat_model.specs.Stream.{Splits, Rest, Long, ending_of};
ghost use Rattle.strat_model.specs.Table.{Table};
ghost use Rattle.strat_model.specs.declared.ended.Ended.TheVariants as ended;
ghost use Rattle.strat_model.specs.declared.replies.Refusal.TheVariants as why;
ghost use Rattle.strat_model.specs.declared.replies.Reply.TheVariants as reply;
ghost use Rattle.def_publish.specs.Standing.{ShowsTable};
ghost use Rattle.def_recovery.specs.Opening.{reads_as};
ghost use Rattle.def_state.specs.State.{State, IsPaid};
ghost use Rattle.strat_memory.specs.Held.{Held};
ghost use Rattle.strat_memory.specs.Memory.{info_told, stat_told, has_version};
ghost use Rattle.strat_memory.specs.Paying.{IsPaidIn};
ghost use Rattle.strat_loop.specs.Session.{Took, IsAtEnd};
ghost use Rattle.strat_serve.specs.Serving.{too_long_bytes};
ghost use Rattle.strat_serve.specs.Tables.{AnswersAllTaken, AnswersAsTable, AnswersNothing, AnswersUntil, AnswersUntilCut, AnswersUntilFault, RefusesNext, begins_at};
ghost use Rattle.strat_loop.specs.World.{Streams};
ghost use Rattle.strat_store.specs.Getting.{MayTellOfKey};
ghost use Rattle.strat_store.specs.Ranging.{MayTellOfRange, TellsFrom, TellsOfOpening};

/// A run of a table has its status, and is a run from where it begins. It took these bytes, no more than its budget, sent
/// those, and answered as its end says. What broke it off is a fault of the device, which the disk counted.
pub fn a_run_of_a_table_took_and_sent()
    ensures ok { (budget mem status : ℕ) (start : Position) (x y : Streams)
        (a : AnswersAsTable budget mem start status x y) → (status ≡ status_of a.how)
        × IsTranscript mem start a.run × Took x.left y.left a.taken × (length a.taken ≤ budget)
        × Appends x.held y.held a.sent
        × AnswersUntil a.how budget a.run a.taken y.left a.sent }
    ensures fault { (budget mem status : ℕ) (start : Position) (x y : Streams) (h : Interruption)
        (a : AnswersAsTable budget mem start status x y) → a.run.interruption ≡ Some h
        → (h.response.answer ≡ refusal why.DeviceFault) × Rose x.disk_faults y.disk_faults }
    ensures first { (c : Image) (t : Table) (shows : ShowsTable c t)
        → ((begins_at c t shows).table ≡ t)
        × ((begins_at c t shows).fill ≡ length shows.state.journal) }
{}

/// Each end says what was answered of the bytes taken, and what was sent.
pub fn each_end_says_what_was_answered()
    ensures all { (run : Transcript) (taken rest sent more : List ℕ)
        → AnswersAllTaken run taken rest sent more → (run.interruption ≡ None)
        × Splits taken (bodies_of run) rest × (sent ≡ sent_bytes (responses_of run) ++ more) }
    ensures none { (run : Transcript) (taken sent : List ℕ) → AnswersNothing run taken sent
        → (bodies_of run ≡ []) × (taken ≡ []) × (sent ≡ []) }
    ensures fault { (run : Transcript) (taken sent : List ℕ)
        (until : AnswersUntilFault run taken sent) → Splits taken until.bodies until.rest
        × (until.broken.response.answer ≡ refusal why.DeviceFault) }
    ensures sink { (most : ℕ) (run : Transcript) (taken sent : List ℕ)
        (until : AnswersUntilCut most run taken sent) → Splits taken until.bodies until.rest
        × RefusesNext run until.bodies until.rest until.more }
    ensures next { (run : Transcript) (bodies : List (List ℕ)) (rest more : List ℕ)
        → RefusesNext run bodies rest more → more ≢ [] → (more ≡ too_long_bytes)
        × (ending_of rest ≡ Long) × (bodies_of run ≡ bodies) × (run.interruption ≡ None) }
    ensures end { (budget : ℕ) (run : Transcript) (taken sent : List ℕ) (left : Option (List ℕ))
        → (AnswersUntil ended.Done budget run taken left sent
        → AnswersAllTaken run taken [] sent [] × IsAtEnd left × (length taken < budget))
        × (AnswersUntil ended.Truncated budget run taken left sent → (rest : List ℕ)
        × AnswersAllTaken run taken rest sent [] × (ending_of rest ≡ Rest) × IsAtEnd left
        × (length taken < budget))
        × (AnswersUntil ended.FrameTooLong budget run taken left sent → (rest : List ℕ)
        × AnswersAllTaken run taken rest sent too_long_bytes × (ending_of rest ≡ Long))
        × (AnswersUntil ended.Budget budget run taken left sent → (rest : List ℕ)
        × AnswersAllTaken run taken rest sent [] × (ending_of rest ≢ Long)
        × (length taken ≡ budget))
        × (AnswersUntil ended.Source budget run taken left sent → (rest : List ℕ)
        × AnswersAllTaken run taken rest sent [] × (ending_of rest ≢ Long))
        × (AnswersUntil ended.NoMemory budget run taken left sent
        → AnswersNothing run taken sent) }
{}

/// A state that is read from bytes which are paid for is paid for. What a source leaves stays unknown if it was.
pub fn bytes_that_are_paid_for_and_sources_that_hide()
    ensures paid { (c : Image) (s : State) → IsPaidIn c → reads_as c ≡ Some s → IsPaid s }
    ensures none { (before now : Option (List ℕ)) (taken : List ℕ) → Took before now taken
        → before ≡ None → now ≡ None }
{}

/// What memory decides is told on any disk, whatever its arrays are: that a version or a cursor is not there, its place in
/// the tree, the counts, and that a cursor was opened or closed. Of one that is there pairs or a fault are told.
pub fn what_memory_decides_is_told()
    ensures none { (f : Image) (s : Held) (v limit : ℕ) (key lo hi : List ℕ) (a : Answer)
        → has_version s.memory v ≡ false
        → (TellsFrom f s (Get v key) a → a ≡ refusal why.UnknownVersion)
        × (TellsFrom f s (Scan v lo hi limit) a → a ≡ refusal why.UnknownVersion)
        × (TellsFrom f s (Info v) a → a ≡ refusal why.UnknownVersion)
        × (TellsFrom f s (OpenCursor v lo hi) a → a ≡ refusal why.UnknownVersion) }
    ensures found { (f : Image) (s : Held) (v limit : ℕ) (key lo hi : List ℕ) (a : Answer)
        → has_version s.memory v ≡ true
        → (TellsFrom f s (Get v key) a → MayTellOfKey a.reply)
        × (TellsFrom f s (Scan v lo hi limit) a → MayTellOfRange a.reply)
        × (TellsFrom f s (Info v) a → a ≡ plain (info_told s.memory v))
        × (TellsFrom f s (OpenCursor v lo hi) a → TellsOfOpening s.memory.cursors a) }
    ensures stat { (f : Image) (s : Held) (a : Answer) → TellsFrom f s Stat a
        → a ≡ plain (stat_told s.memory) }
    ensures cursor { (f : Image) (s : Held) (n limit : ℕ) (a : Answer)
        → (is_opened n s.memory.cursors.opened ≡ false → TellsFrom f s (NextPairs n limit) a
        → a ≡ refusal why.UnknownCursor)
        × (is_opened n s.memory.cursors.opened ≡ true → TellsFrom f s (NextPairs n limit) a
        → (more : Bool) × (a.reply ≡ reply.Pairs more)) }
    ensures end { (f : Image) (s : Held) (n : ℕ) (a : Answer)
        → (is_opened n s.memory.cursors.opened ≡ true → TellsFrom f s (CloseCursor n) a
        → a ≡ plain reply.Done)
        × (is_opened n s.memory.cursors.opened ≡ false → TellsFrom f s (CloseCursor n) a
        → a ≡ refusal why.UnknownCursor) }
{}
