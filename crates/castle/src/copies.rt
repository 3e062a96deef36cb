//! What a leading run and a following one come to, in words of logs, tables and crashes. Each law is the contract of a
//! function that does nothing.

ghost use Rattle.std.specs.List.{flat_map, AllByRecursion};
ghost use Rattle.std.specs.Prelude.{◌≡◌, ◌<◌, ◌≤◌, ◌⊎◌, ℕ, ◌+◌, List, ◌∷◌, [], ◌++◌, length, take, Ok, Option, Some};
ghost use Rattle.strat_base.specs.Change.{Change};
ghost use Rattle.def_crash.specs.Faults.{Rose};
ghost use Rattle.def_crash.specs.Image.{Image};
ghost use Rattle.def_crash.specs.Moments.{Exposes, Images, Since};
ghost use Rattle.def_crash.specs.Trail.{At};
ghost use Rattle.strat_io.specs.Streams.{Appends};
ghost use Rattle.strat_model.specs.declared.ended.Ended.{Ended};
ghost use Rattle.strat_model.specs.declared.replies.Refusal.{Refusal};
ghost use Rattle.strat_model.specs.declared.replies.Refusal.TheVariants as why;
ghost use Rattle.strat_model.specs.Batch.{tables_continued};
ghost use Rattle.strat_model.specs.Ended.{status_of};
ghost use Rattle.strat_model.specs.Run.{bodies_of};
ghost use Rattle.strat_model.specs.Stream.{Splits};
ghost use Rattle.strat_model.specs.Table.{Table, bare};
ghost use Rattle.def_recovery.specs.Opening.{recover};
ghost use Rattle.def_publish.specs.Standing.{ShowsTable};
ghost use Rattle.def_follow.specs.Following.{Refused, Taken, receipt_frame};
ghost use Rattle.def_follow.specs.Keeping.{IsOfLogAt};
ghost use Rattle.def_follow.specs.Log.{AreTakenFrom, IsLog, IsOfLog, table_after};
ghost use Rattle.def_follow.specs.OnDisk.{EachOfLog};
ghost use Rattle.strat_loop.specs.Session.{AreNextIn, EndHasCause, ExposesDamage, GaveUp, RefusesFor, Took};
ghost use Rattle.strat_loop.specs.Speech.{IsSpokenTranscript};
ghost use Rattle.strat_loop.specs.Spoken.{FollowsSpokenRun, IsSitting, SendsSaid, Sitting};
ghost use Rattle.strat_loop.specs.World.{IsCalm, Streams, beside};
ghost use Rattle.strat_follow.specs.Copying.{CopiesLog, KeepsToLog, SendsOrFails};
ghost use Rattle.strat_follow.specs.Follows.{follows};
ghost use Rattle.strat_follow.specs.Leading.{LeadsTable, StopsAtJournal};
ghost use Rattle.strat_follow.specs.Leads.{AreMade, change_frames, leads};
ghost use Rattle.castle.specs.Arguments.{Follow, Lead};
ghost use Rattle.castle.specs.Outcomes.{EndsAsFound, EndsAsInput, LeavesAlone, Runs};

use def_crash::laws::Viewed;

/// A run that is asked to follow, over a disk each of whose crash states shows a log's table after a prefix, which may
/// differ from state to state. Say that each body in the bytes that it takes which spells a numbered change spells that
/// of the log at its number. They come in any order, with gaps and repeats, and among them bodies that are no change.
/// Then each crash state of the run shows the log's table after a prefix, and at the end after one that has each change
/// which was answered as taken: so the next run may begin there, whatever failed. What it sends are receipts. It
/// refuses a change as out of memory, or as the device failed, which the disk counted.
pub fn a_following_run_keeps_to_its_log<D: Viewed>()
    ensures ok { (path : List ℕ) (status changes versions : ℕ) (x y : Streams) (d e : D)
        (f : Image) (log : List Change)
        → Runs (Some (Follow path)) 1099511627776 status (beside x (D.view d)) (beside y (D.view e))
        → Exposes (D.view d) f → IsLog changes versions log
        → EachOfLog changes versions log (D.view d)
        → (how : Ended) × (status ≡ status_of how)
        × (c : CopiesLog changes versions log how (beside x (D.view d)) (beside y (D.view e)))
        × Took x.left y.left c.taken × Splits c.taken c.bodies c.rest
        × (AllByRecursion (IsOfLogAt log) c.bodies
        → KeepsToLog changes versions log how (beside x (D.view d)) (beside y (D.view e))) }
    ensures images { (changes versions : ℕ) (x y : Streams) (d e : D) (how : Ended)
        (log : List Change) (c : Image)
        → KeepsToLog changes versions log how (beside x (D.view d)) (beside y (D.view e))
        → Since (D.view e) (D.view d).moment c
        → (t : Table) × ShowsTable c t × IsOfLog changes versions log t }
    ensures left { (changes versions : ℕ) (x y : Streams) (d e : D) (how : Ended)
        (log : List Change) (c : Image)
        → (k : KeepsToLog changes versions log how (beside x (D.view d)) (beside y (D.view e)))
        → Images (D.view e) c → (t : Table) × ShowsTable c t × (of : IsOfLog changes versions log t)
        × AllByRecursion (λ r. r.fate ≡ Taken → r.number < of.place) k.receipts }
    ensures same { (changes versions : ℕ) (x y : Streams) (d e : D) (how : Ended)
        (log : List Change)
        → KeepsToLog changes versions log how (beside x (D.view d)) (beside y (D.view e))
        → EachOfLog changes versions log (D.view e) }
    ensures found { (changes versions : ℕ) (x y : Streams) (d e : D) (how : Ended)
        (log : List Change)
        → (k : KeepsToLog changes versions log how (beside x (D.view d)) (beside y (D.view e)))
        → SendsOrFails how x.held y.held (flat_map receipt_frame k.receipts)
        × AllByRecursion (λ r. (cause : Refusal) → r.fate ≡ Refused cause → (cause ≡ why.NoMemory)
        ⊎ ((cause ≡ why.DeviceFault) × Rose x.disk_faults y.disk_faults)) k.receipts }
{}

/// A run that is asked to lead, over a disk that shows a table, answers what it takes as a run of that table does. What
/// it sends are the frames of the changes that its journal had, and of those that it carried out, in order, and no
/// others. They are numbered from those of the manifest on. If the sink failed it sends a front of these, and if the
/// opening gave up nothing. The table accepts the changes that were carried out one after the other. At the end a crash
/// leaves the table after all that was answered otherwise than by a fault, or after one command more and the rest of
/// its batch.
pub fn a_leading_run_sends_its_changes<D: Viewed>()
    ensures ok { (path : List ℕ) (status : ℕ) (x y : Streams) (d e : D) (f : Image) (t : Table)
        → Runs (Some (Lead path)) 1099511627776 status (beside x (D.view d)) (beside y (D.view e))
        → Exposes (D.view d) f → ShowsTable f t → (how : Ended) × (status ≡ status_of how)
        × LeadsTable 1099511627776 how f t (beside x (D.view d)) (beside y (D.view e)) }
    ensures found { (x y : Streams) (d e : D) (how : Ended) (f : Image) (t : Table)
        → (l : LeadsTable 1099511627776 how f t (beside x (D.view d)) (beside y (D.view e)))
        → (recover f ≡ Ok (Some l.head))
        × (t.changes ≡ l.head.manifest.changes + length l.head.journal)
        × (GaveUp how (beside x (D.view d)) (beside y (D.view e))
        ⊎ SendsOrFails how x.held y.held
        (change_frames l.head.manifest.changes (l.head.journal ++ l.made))) }
    ensures table { (x y : Streams) (d e : D) (how : Ended) (f : Image) (t : Table)
        → (l : LeadsTable 1099511627776 how f t (beside x (D.view d)) (beside y (D.view e)))
        → (l.start.table ≡ t) × ShowsTable f l.start.table × AreMade l.run.exchanges l.made
        × AreTakenFrom (bare t) l.made × (table_after (bare t) l.made ≡ bare l.run.after.table) }
    ensures trail { (x y : Streams) (d e : D) (how : Ended) (f : Image) (t : Table)
        → (l : LeadsTable 1099511627776 how f t (beside x (D.view d)) (beside y (D.view e)))
        → IsSpokenTranscript leads l.mem l.start l.run l.answers l.broken
        × Took x.left y.left l.taken × Splits l.taken l.bodies l.rest
        × (take (length (bodies_of l.run)) l.bodies ≡ bodies_of l.run)
        × AreNextIn l.bodies l.run l.continued.more }
    ensures left { (x y : Streams) (d e : D) (how : Ended) (f c : Image) (t : Table)
        → (l : LeadsTable 1099511627776 how f t (beside x (D.view d)) (beside y (D.view e)))
        → Images (D.view e) c → GaveUp how (beside x (D.view d)) (beside y (D.view e))
        ⊎ ((i : ℕ) × (length l.run.exchanges ≤ i)
        × At (tables_continued l.run l.continued.end) i (ShowsTable c)) }
{}

/// A following run gave up before its first read, or it served: it took bytes, answered the first of the bodies among
/// them as the protocol of followers says, and sent these receipts. If the disk shows a table, they are those of a run
/// of that table. A leading run may also have stopped at the changes of its journal, as the sink failed. Otherwise it
/// sent these, and served as the protocol of leaders says.
pub fn a_copying_run_answers_each_body<D: Viewed>()
    ensures ok { (path : List ℕ) (status : ℕ) (x y : Streams) (d e : D)
        → Runs (Some (Follow path)) 1099511627776 status (beside x (D.view d)) (beside y (D.view e))
        → (how : Ended) × (status ≡ status_of how)
        × (GaveUp how (beside x (D.view d)) (beside y (D.view e)) ⊎ ((s : Sitting)
        × IsSitting follows 1099511627776 s × Took x.left y.left s.taken
        × SendsSaid follows how x.held y.held s)) }
    ensures table { (path : List ℕ) (status : ℕ) (x y : Streams) (d e : D) (f : Image) (t : Table)
        → Runs (Some (Follow path)) 1099511627776 status (beside x (D.view d)) (beside y (D.view e))
        → Exposes (D.view d) f → ShowsTable f t → (how : Ended) × (status ≡ status_of how)
        × (GaveUp how (beside x (D.view d)) (beside y (D.view e)) ⊎ ((s : Sitting)
        × IsSitting follows 1099511627776 s × Took x.left y.left s.taken
        × SendsSaid follows how x.held y.held s
        × FollowsSpokenRun follows (D.view d) (D.view e) f t s)) }
    ensures sends { (path : List ℕ) (status : ℕ) (x y : Streams) (d e : D)
        → Runs (Some (Lead path)) 1099511627776 status (beside x (D.view d)) (beside y (D.view e))
        → (how : Ended) × (status ≡ status_of how)
        × (GaveUp how (beside x (D.view d)) (beside y (D.view e))
        ⊎ StopsAtJournal how (beside x (D.view d)) (beside y (D.view e))
        ⊎ ((s : Sitting) × (held : Option (List ℕ)) × (sent : List ℕ)
        × Appends x.held held sent × IsSitting leads 1099511627776 s × Took x.left y.left s.taken
        × SendsSaid leads how held y.held s)) }
{}

/// Whatever the disk shows: the cause of each end of a leading or a following run, how it ends if nothing failed, and
/// that an end before the first read leaves both streams as they were.
pub fn leading_and_following_runs_end_for_a_cause<D: Viewed>()
    ensures cause { (path : List ℕ) (status : ℕ) (x y : Streams) (d e : D)
        → Runs (Some (Lead path)) 1099511627776 status (beside x (D.view d)) (beside y (D.view e))
        ⊎ Runs (Some (Follow path)) 1099511627776 status (beside x (D.view d)) (beside y (D.view e))
        → (how : Ended) × (status ≡ status_of how)
        × EndHasCause how (beside x (D.view d)) (beside y (D.view e))
        × RefusesFor how (D.view d) (D.view e) }
    ensures complete { (path : List ℕ) (status : ℕ) (x y : Streams) (d e : D) (f : Image)
        → Runs (Some (Lead path)) 1099511627776 status (beside x (D.view d)) (beside y (D.view e))
        ⊎ Runs (Some (Follow path)) 1099511627776 status (beside x (D.view d)) (beside y (D.view e))
        → IsCalm (beside x (D.view d)) (beside y (D.view e)) → Exposes (D.view d) f
        → EndsAsFound (recover f) status }
    ensures end { (path : List ℕ) (status : ℕ) (x y : Streams) (d e : D) (f : Image) (t : Table)
        → Runs (Some (Lead path)) 1099511627776 status (beside x (D.view d)) (beside y (D.view e))
        ⊎ Runs (Some (Follow path)) 1099511627776 status (beside x (D.view d)) (beside y (D.view e))
        → IsCalm (beside x (D.view d)) (beside y (D.view e)) → Exposes (D.view d) f
        → ShowsTable f t → EndsAsInput status }
    ensures same { (path : List ℕ) (d : D) (status a b i j m n : ℕ)
        → LeavesAlone (Some (Lead path)) (D.view d) status (a ≡ b) (i ≡ j) (m ≡ n)
        ⊎ LeavesAlone (Some (Follow path)) (D.view d) status (a ≡ b) (i ≡ j) (m ≡ n)
        → (status ≡ 2) ⊎ (status ≡ 8) ⊎ ((status ≡ 9) × ExposesDamage (D.view d))
        → (a ≡ b) × (i ≡ j) }
{}
