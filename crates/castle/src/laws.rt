//! What the program's other runs come to: those that format, report and carry out a workload. Each law is the contract of
//! a function that does nothing.

ghost use Rattle.std.specs.Prelude.{◌≡◌, ◌≢◌, ◌≤◌, ◌<◌, ◌⊎◌, ℕ, List, [], ◌∷◌, length, take, Ok, Err, None, Some, Contains, codes};
ghost use Rattle.def_crash.specs.Faults.{Rose};
ghost use Rattle.def_crash.specs.Image.{Image};
ghost use Rattle.def_crash.specs.Moments.{Exposes, Images, Since};
ghost use Rattle.def_crash.specs.Trail.{At, Trail};
ghost use Rattle.def_bytes.specs.SuperBlock.{newest_in};
ghost use Rattle.strat_io.specs.Streams.{Appends};
ghost use Rattle.strat_model.specs.Ended.{status_of};
ghost use Rattle.strat_model.specs.Batch.{Continuation, tables_continued};
ghost use Rattle.strat_model.specs.Run.{Position, Transcript, IsTranscript, bodies_of};
ghost use Rattle.strat_model.specs.Table.{fresh, bare};
ghost use Rattle.def_check.specs.Checked.{checked};
ghost use Rattle.def_recovery.specs.Bad.{IsUnread};
ghost use Rattle.def_recovery.specs.Head.{Head, descriptors};
ghost use Rattle.def_recovery.specs.Opening.{recover, reads_as};
ghost use Rattle.def_texts.specs.Texts.{text, report, breach_line, damaged_line};
ghost use Rattle.strat_base.specs.declared.descriptors.ArrayDesc.{ArrayDesc};
ghost use Rattle.strat_report.specs.Checking.{check_text, end_of_check};
ghost use Rattle.strat_report.specs.Reporting.{AppendsFront, end_for, levels_text};
ghost use Rattle.def_publish.specs.Standing.{ShowsTable};
ghost use Rattle.def_state.specs.Breach.{Breach, breaches};
ghost use Rattle.def_state.specs.Sound.{IsSound};
ghost use Rattle.def_state.specs.State.{State, fresh_state};
ghost use Rattle.strat_open.specs.Format.{IsBlank, IsFormatted};
ghost use Rattle.strat_memory.specs.Paying.{IsPaidIn};
ghost use Rattle.strat_serve.specs.Generated.{workload_bodies};
ghost use Rattle.strat_loop.specs.Session.{AreNextIn, ExposesDamage, SendsPrefix};
ghost use Rattle.strat_loop.specs.Spoken.{FitsBothRegions};
ghost use Rattle.strat_serve.specs.Tables.{BreaksForFault, EndsAtTables, IsThrifty};
ghost use Rattle.strat_loop.specs.World.{Streams, beside};
ghost use Rattle.castle.specs.Arguments.{Check, Format, Levels, Serve, Workload};
ghost use Rattle.castle.specs.Headline.{GoesThroughNewTables, HasNotBegun, IsNoneOrThrifty};
ghost use Rattle.castle.specs.Outcomes.{LeavesAlone, Runs, format_text};
ghost use Rattle.castle.specs.Working.{summary_of, workload_start};

use def_crash::laws::Viewed;

/// A run that formats and has made a store says so, as far as the sink takes it: then a crash leaves a new store of format 2, with
/// a new table. On the way it leaves that, or none, where both slots were shut. It writes nowhere else, and ends for a cause.
pub fn a_formatting_run_makes_a_new_store<D: Viewed>()
    ensures text { (path : List ℕ) (mem changes versions status : ℕ) (x y : Streams) (d e : D)
        → Runs (Some (Format path mem changes versions)) 1099511627776 status
        (beside x (D.view d)) (beside y (D.view e))
        → (status ≡ 0 → Appends x.held y.held (format_text mem changes versions))
        × (status ≡ 7 → SendsPrefix x.held y.held (format_text mem changes versions))
        × ((status ≡ 5) ⊎ (status ≡ 8) → y.held ≡ x.held) }
    ensures left { (path : List ℕ) (mem changes versions status : ℕ) (x y : Streams) (d e : D)
        (f c : Image) → Runs (Some (Format path mem changes versions)) 1099511627776 status
        (beside x (D.view d)) (beside y (D.view e)) → (status ≡ 0) ⊎ (status ≡ 7)
        → Exposes (D.view d) f → Images (D.view e) c → ShowsTable c (fresh changes versions)
        × (reads_as c ≡ Some (fresh_state mem changes versions))
        × ((h : Head) × (recover c ≡ Ok (Some h)) × (h.sb.format ≡ 2)) }
    ensures moments { (path : List ℕ) (mem changes versions status : ℕ) (x y : Streams) (d e : D)
        (f c : Image) → Runs (Some (Format path mem changes versions)) 1099511627776 status
        (beside x (D.view d)) (beside y (D.view e)) → Exposes (D.view d) f → IsBlank (D.view d)
        → Since (D.view e) (D.view d).moment c
        → (newest_in c ≡ Ok None) ⊎ ShowsTable c (fresh changes versions) }
    ensures kept { (path : List ℕ) (mem changes versions status : ℕ) (x y : Streams) (d e : D)
        (c : Image) → Runs (Some (Format path mem changes versions)) 1099511627776 status
        (beside x (D.view d)) (beside y (D.view e)) → Since (D.view e) (D.view d).moment c
        → (b : Image) × Images (D.view d) b × ((i : ℕ) → ¬ IsFormatted mem i → c i ≡ b i) }
    ensures cause { (path : List ℕ) (mem changes versions status : ℕ) (x y : Streams) (d e : D)
        → Runs (Some (Format path mem changes versions)) 1099511627776 status
        (beside x (D.view d)) (beside y (D.view e))
        → ((status ≡ 0) ⊎ (status ≡ 5) ⊎ (status ≡ 7) ⊎ (status ≡ 8))
        × (status ≡ 5 → Rose x.disk_faults y.disk_faults)
        × (status ≡ 7 → Rose x.sink_faults y.sink_faults)
        × (y.source_faults ≡ x.source_faults)
        × (status ≢ 7 → y.sink_faults ≡ x.sink_faults)
        × (status ≢ 5 → y.disk_faults ≡ x.disk_faults) }
    ensures complete { (path : List ℕ) (mem changes versions status : ℕ) (x y : Streams) (d e : D)
        → Runs (Some (Format path mem changes versions)) 1099511627776 status
        (beside x (D.view d)) (beside y (D.view e))
        → ¬ Rose x.sink_faults y.sink_faults → ¬ Rose x.disk_faults y.disk_faults
        → (status ≡ 0) ⊎ (status ≡ 8) }
{}

/// A run that reports the levels of a store says what recovery finds in it, a damaged block too, as far as the sink takes it. It
/// leaves the disk as it was, and ends for a cause.
pub fn a_reporting_run_says_what_recovery_finds<D: Viewed>()
    ensures done { (path : List ℕ) (status : ℕ) (x y : Streams) (d e : D) (f : Image)
        → Runs (Some (Levels path)) 1099511627776 status (beside x (D.view d)) (beside y (D.view e))
        → Exposes (D.view d) f → status ≡ 0 → (head : Head) × (recover f ≡ Ok (Some head))
        × Appends x.held y.held (text (report head)) }
    ensures damaged { (path : List ℕ) (status : ℕ) (x y : Streams) (d e : D) (f : Image)
        → Runs (Some (Levels path)) 1099511627776 status (beside x (D.view d)) (beside y (D.view e))
        → Exposes (D.view d) f → status ≡ 9 → (block : ℕ) × (recover f ≡ Err block)
        × Appends x.held y.held (text (damaged_line block ∷ [])) }
    ensures none { (path : List ℕ) (status : ℕ) (x y : Streams) (d e : D) (f : Image)
        → Runs (Some (Levels path)) 1099511627776 status (beside x (D.view d)) (beside y (D.view e))
        → Exposes (D.view d) f → status ≡ 2 → (newest_in f ≡ Ok None)
        × (recover f ≡ Ok None) × Appends x.held y.held [] }
    ensures sink { (path : List ℕ) (status : ℕ) (x y : Streams) (d e : D) (f : Image)
        → Runs (Some (Levels path)) 1099511627776 status (beside x (D.view d)) (beside y (D.view e))
        → Exposes (D.view d) f → status ≡ 7
        → AppendsFront x.held y.held (levels_text (recover f)) }
    ensures same { (path : List ℕ) (status : ℕ) (x y : Streams) (d e : D)
        → Runs (Some (Levels path)) 1099511627776 status (beside x (D.view d)) (beside y (D.view e))
        → ((status ≡ 5) ⊎ (status ≡ 8) → y.held ≡ x.held)
        × ((D.view e).content ≡ (D.view d).content)
        × ((c : Image) → Since (D.view e) (D.view d).moment c → Images (D.view d) c) }
    ensures cause { (path : List ℕ) (status : ℕ) (x y : Streams) (d e : D)
        → Runs (Some (Levels path)) 1099511627776 status (beside x (D.view d)) (beside y (D.view e))
        → ((status ≡ 0) ⊎ (status ≡ 2) ⊎ (status ≡ 5) ⊎ (status ≡ 7) ⊎ (status ≡ 8) ⊎ (status ≡ 9))
        × (status ≡ 5 → Rose x.disk_faults y.disk_faults)
        × (status ≡ 7 → Rose x.sink_faults y.sink_faults)
        × (y.source_faults ≡ x.source_faults)
        × (status ≢ 7 → y.sink_faults ≡ x.sink_faults)
        × (status ≢ 5 → status ≢ 7 → y.disk_faults ≡ x.disk_faults) }
    ensures complete { (path : List ℕ) (status : ℕ) (x y : Streams) (d e : D) (f : Image)
        → Runs (Some (Levels path)) 1099511627776 status (beside x (D.view d)) (beside y (D.view e))
        → Exposes (D.view d) f → ¬ Rose x.source_faults y.source_faults
        → ¬ Rose x.sink_faults y.sink_faults → ¬ Rose x.disk_faults y.disk_faults
        → ((status ≡ status_of (end_for (recover f)))
        × Appends x.held y.held (levels_text (recover f)))
        ⊎ ((status ≡ 8) × (y.held ≡ x.held)) }
{}

/// A run that checks a store says that it is sound exactly if the bytes read as a sound state. If they read as another, it
/// names the first of the rules that this state breaks. A block that it calls damaged is one that recovery refuses, or one of
/// an array that holds no entries. It leaves the disk as it was, and ends for a cause. If nothing fails a sound store is called
/// sound, unless memory runs out.
pub fn a_checking_run_says_what_the_state_breaks<D: Viewed>()
    ensures done { (path : List ℕ) (status : ℕ) (x y : Streams) (d e : D) (f : Image)
        → Runs (Some (Check path)) 1099511627776 status (beside x (D.view d)) (beside y (D.view e))
        → Exposes (D.view d) f → status ≡ 0
        → (s : State) × (reads_as f ≡ Some s) × IsSound s
        × Appends x.held y.held (text (codes "sound" ∷ [])) }
    ensures err { (path : List ℕ) (status : ℕ) (x y : Streams) (d e : D) (f : Image)
        → Runs (Some (Check path)) 1099511627776 status (beside x (D.view d)) (beside y (D.view e))
        → Exposes (D.view d) f → status ≡ 11
        → (s : State) × (b : Breach) × (later : List Breach) × (reads_as f ≡ Some s)
        × (breaches s ≡ b ∷ later) × Appends x.held y.held (text (breach_line b ∷ [])) }
    ensures damaged { (path : List ℕ) (status : ℕ) (x y : Streams) (d e : D) (f : Image)
        → Runs (Some (Check path)) 1099511627776 status (beside x (D.view d)) (beside y (D.view e))
        → Exposes (D.view d) f → status ≡ 9 → (block : ℕ) × ((recover f ≡ Err block)
        ⊎ ((head : Head) × (recover f ≡ Ok (Some head))
        × ((a : ArrayDesc) × Contains (descriptors head.manifest) a × IsUnread f a block)))
        × Appends x.held y.held (text (damaged_line block ∷ [])) }
    ensures none { (path : List ℕ) (status : ℕ) (x y : Streams) (d e : D) (f : Image)
        → Runs (Some (Check path)) 1099511627776 status (beside x (D.view d)) (beside y (D.view e))
        → Exposes (D.view d) f → status ≡ 2
        → (newest_in f ≡ Ok None) × Appends x.held y.held [] }
    ensures sink { (path : List ℕ) (status : ℕ) (x y : Streams) (d e : D) (f : Image)
        → Runs (Some (Check path)) 1099511627776 status (beside x (D.view d)) (beside y (D.view e))
        → Exposes (D.view d) f → status ≡ 7
        → (n : ℕ) × (n < length (check_text (checked f)))
        × Appends x.held y.held (take n (check_text (checked f))) }
    ensures same { (path : List ℕ) (status : ℕ) (x y : Streams) (d e : D)
        → Runs (Some (Check path)) 1099511627776 status (beside x (D.view d)) (beside y (D.view e))
        → ((D.view e).content ≡ (D.view d).content)
        × ((c : Image) → Since (D.view e) (D.view d).moment c → Images (D.view d) c) }
    ensures cause { (path : List ℕ) (status : ℕ) (x y : Streams) (d e : D)
        → Runs (Some (Check path)) 1099511627776 status (beside x (D.view d)) (beside y (D.view e))
        → ((status ≡ 0) ⊎ (status ≡ 2) ⊎ (status ≡ 5) ⊎ (status ≡ 7) ⊎ (status ≡ 8) ⊎ (status ≡ 9)
        ⊎ (status ≡ 11)) × (status ≡ 5 → Rose x.disk_faults y.disk_faults)
        × (status ≡ 7 → Rose x.sink_faults y.sink_faults)
        × (y.source_faults ≡ x.source_faults)
        × (status ≢ 7 → y.sink_faults ≡ x.sink_faults)
        × (status ≢ 5 → status ≢ 7 → y.disk_faults ≡ x.disk_faults) }
    ensures complete { (path : List ℕ) (status : ℕ) (x y : Streams) (d e : D) (f : Image)
        → Runs (Some (Check path)) 1099511627776 status (beside x (D.view d)) (beside y (D.view e))
        → Exposes (D.view d) f → ¬ Rose x.source_faults y.source_faults
        → ¬ Rose x.sink_faults y.sink_faults → ¬ Rose x.disk_faults y.disk_faults
        → ((status ≡ status_of (end_of_check (checked f)))
        × Appends x.held y.held (check_text (checked f)))
        ⊎ ((status ≡ 8) × (y.held ≡ x.held)) }
    ensures found { (path : List ℕ) (status : ℕ) (x y : Streams) (d e : D) (f : Image) (s : State)
        → Runs (Some (Check path)) 1099511627776 status (beside x (D.view d)) (beside y (D.view e))
        → Exposes (D.view d) f → reads_as f ≡ Some s → IsSound s
        → ¬ Rose x.source_faults y.source_faults → ¬ Rose x.sink_faults y.sink_faults
        → ¬ Rose x.disk_faults y.disk_faults → (status ≡ 0) ⊎ (status ≡ 8) }
{}

/// A run of a workload on a disk that exposes its content made no store, for want of memory or as the device failed, and
/// changed no byte but those that formatting writes; or it answered the first of the workload's commands as a run of a new
/// table does, broken off by the device alone, and all of them where it is done or the sink failed: then a crash leaves the
/// table after the last, and the sink got a summary, as far as it took it. On the way a crash leaves no store, the new one,
/// or the run's tables in order.
pub fn a_run_of_a_workload_is_a_run_of_a_new_table<D: Viewed>()
    ensures done { (path : List ℕ) (seed count status : ℕ) (x y : Streams) (d e : D) (f : Image)
        → Runs (Some (Workload path seed count)) 1099511627776 status
        (beside x (D.view d)) (beside y (D.view e)) → Exposes (D.view d) f
        → (status ≡ 0) ⊎ (status ≡ 7) → (run : Transcript)
        × IsTranscript 64 workload_start run × FitsBothRegions 64 run
        × (bodies_of run ≡ workload_bodies seed count) × (run.interruption ≡ None)
        × ((c : Image) → Images (D.view e) c → ShowsTable c (bare run.after.table)) }
    ensures text { (path : List ℕ) (seed count status : ℕ) (x y : Streams) (d e : D) (g : Image)
        → Runs (Some (Workload path seed count)) 1099511627776 status
        (beside x (D.view d)) (beside y (D.view e)) → Exposes (D.view e) g
        → (status ≡ 0 → (head : Head) × (recover g ≡ Ok (Some head))
        × Appends x.held y.held (summary_of head seed count))
        × (status ≡ 7 → (head : Head) × (recover g ≡ Ok (Some head))
        × AppendsFront x.held y.held (summary_of head seed count))
        × (status ≢ 0 → status ≢ 7 → y.held ≡ x.held) }
    ensures left { (path : List ℕ) (seed count status : ℕ) (x y : Streams) (d e : D) (f : Image)
        → Runs (Some (Workload path seed count)) 1099511627776 status
        (beside x (D.view d)) (beside y (D.view e)) → Exposes (D.view d) f
        → (((status ≡ 5) ⊎ (status ≡ 8))
        × (status ≡ 8 → (D.view e).content ≡ (D.view d).content)
        × ((c : Image) → Since (D.view e) (D.view d).moment c → (status ≡ 8 → Images (D.view d) c)
        × ((b : Image) × Images (D.view d) b × ((i : ℕ) → ¬ IsFormatted 64 i → c i ≡ b i))))
        ⊎ ((run : Transcript) × IsTranscript 64 workload_start run × FitsBothRegions 64 run
        × (take (length (bodies_of run)) (workload_bodies seed count) ≡ bodies_of run)
        × BreaksForFault run x y
        × ((c : Continuation 64 run) × AreNextIn (workload_bodies seed count) run c.more
        × EndsAtTables run c.end (D.view e))) }
    ensures trail { (path : List ℕ) (seed count status : ℕ) (x y : Streams) (d e : D) (f : Image)
        → Runs (Some (Workload path seed count)) 1099511627776 status
        (beside x (D.view d)) (beside y (D.view e)) → Exposes (D.view d) f
        → (((status ≡ 5) ⊎ (status ≡ 8))
        × (IsBlank (D.view d) → (c : Image) → Since (D.view e) (D.view d).moment c
        → (newest_in c ≡ Ok None) ⊎ ShowsTable c (fresh 16777216 16384)))
        ⊎ ((run : Transcript) × IsTranscript 64 workload_start run × FitsBothRegions 64 run
        × ((c : Continuation 64 run) × AreNextIn (workload_bodies seed count) run c.more
        × GoesThroughNewTables run c.end (D.view d) (D.view e))) }
    ensures space { (path : List ℕ) (seed count status : ℕ) (x y : Streams) (d e : D) (f c : Image)
        → Runs (Some (Workload path seed count)) 1099511627776 status
        (beside x (D.view d)) (beside y (D.view e)) → Exposes (D.view d) f → IsBlank (D.view d)
        → Since (D.view e) (D.view d).moment c → IsNoneOrThrifty c }
    ensures cause { (path : List ℕ) (seed count status : ℕ) (x y : Streams) (d e : D)
        → Runs (Some (Workload path seed count)) 1099511627776 status
        (beside x (D.view d)) (beside y (D.view e))
        → ((status ≡ 0) ⊎ (status ≡ 2) ⊎ (status ≡ 5) ⊎ (status ≡ 7) ⊎ (status ≡ 8) ⊎ (status ≡ 9))
        × (status ≡ 5 → Rose x.disk_faults y.disk_faults)
        × (status ≡ 7 → Rose x.sink_faults y.sink_faults)
        × (y.source_faults ≡ x.source_faults)
        × (status ≢ 7 → y.sink_faults ≡ x.sink_faults)
        × (status ≢ 5 → status ≢ 7 → y.disk_faults ≡ x.disk_faults) }
    ensures found { (path : List ℕ) (seed count status : ℕ) (x y : Streams) (d e : D) (f : Image)
        → Runs (Some (Workload path seed count)) 1099511627776 status
        (beside x (D.view d)) (beside y (D.view e)) → Exposes (D.view d) f
        → (status ≡ 0) ⊎ (status ≡ 5) ⊎ (status ≡ 7) ⊎ (status ≡ 8) }
    ensures complete { (path : List ℕ) (seed count status : ℕ) (x y : Streams) (d e : D) (f : Image)
        → Runs (Some (Workload path seed count)) 1099511627776 status
        (beside x (D.view d)) (beside y (D.view e)) → Exposes (D.view d) f
        → ¬ Rose x.source_faults y.source_faults → ¬ Rose x.sink_faults y.sink_faults
        → ¬ Rose x.disk_faults y.disk_faults → (status ≡ 0) ⊎ (status ≡ 8) }
{}

/// A run whose arguments name no subcommand ends with status 1, whatever the streams and the disk are.
pub fn a_run_without_a_subcommand_is_refused<D: Viewed>()
    ensures none { (status : ℕ) (x y : Streams) (d e : D) → Runs None 1099511627776 status
        (beside x (D.view d)) (beside y (D.view e)) → status ≡ 1 }
{}

/// What a run leaves untouched is as it was, whatever it shows: here any numbers. Where no subcommand is named that is the source, the
/// sink and the disk; where a run that serves ends before its first read, both streams; a run that does not serve never
/// touches the source, nor the sink where it gave up.
pub fn what_a_run_leaves_alone_is_as_it_was<D: Viewed>()
    ensures none { (d : D) (status a b i j m n : ℕ)
        → LeavesAlone None (D.view d) status (a ≡ b) (i ≡ j) (m ≡ n)
        → (a ≡ b) × (i ≡ j) × (m ≡ n) }
    ensures serve { (path : List ℕ) (d : D) (status a b i j m n : ℕ)
        → LeavesAlone (Some (Serve path)) (D.view d) status (a ≡ b) (i ≡ j) (m ≡ n)
        → (status ≡ 2) ⊎ (status ≡ 8) ⊎ ((status ≡ 9) × ExposesDamage (D.view d))
        → (a ≡ b) × (i ≡ j) }
    ensures format { (path : List ℕ) (mem changes versions : ℕ) (d : D) (status a b i j m n : ℕ)
        → LeavesAlone (Some (Format path mem changes versions)) (D.view d) status (a ≡ b) (i ≡ j)
        (m ≡ n) → (a ≡ b) × ((status ≡ 2) ⊎ (status ≡ 8) ⊎ (status ≡ 9) → i ≡ j)
        × (status ≡ 8 → m ≡ n) }
    ensures levels { (path : List ℕ) (d : D) (status a b i j m n : ℕ)
        → LeavesAlone (Some (Levels path)) (D.view d) status (a ≡ b) (i ≡ j) (m ≡ n)
        → (a ≡ b) × ((status ≡ 2) ⊎ (status ≡ 5) ⊎ (status ≡ 8) → i ≡ j) }
    ensures check { (path : List ℕ) (d : D) (status a b i j m n : ℕ)
        → LeavesAlone (Some (Check path)) (D.view d) status (a ≡ b) (i ≡ j) (m ≡ n)
        → (a ≡ b) × ((status ≡ 2) ⊎ (status ≡ 5) ⊎ (status ≡ 8) → i ≡ j) }
    ensures workload { (path : List ℕ) (seed count : ℕ) (d : D) (status a b i j m n : ℕ)
        → LeavesAlone (Some (Workload path seed count)) (D.view d) status (a ≡ b) (i ≡ j) (m ≡ n)
        → (a ≡ b) × ((status ≡ 2) ⊎ (status ≡ 5) ⊎ (status ≡ 8) → i ≡ j) }
{}

/// What the laws of runs say in words of their own, each fact of these once: of a run that has not begun, of one that goes through the
/// tables of a new store, and of an image that is no store or a thrifty one.
pub fn words_of_the_laws_say_so<D: Viewed>()
    ensures none { (status : ℕ) (run : Transcript) (d e : D)
        → HasNotBegun status run (D.view d) (D.view e)
        → ((status ≡ 5) ⊎ (status ≡ 8)) × (bodies_of run ≡ [])
        × ((c : Image) → Since (D.view e) (D.view d).moment c → Images (D.view d) c) }
    ensures moments { (run : Transcript) (end : Position) (d e : D)
        (goes : GoesThroughNewTables run end (D.view d) (D.view e))
        → ((D.view d).moment ≤ goes.made) × (goes.made ≤ goes.synced)
        × (goes.synced ≤ (D.view e).moment)
        × (IsBlank (D.view d) → (m : ℕ) (c : Image) → (D.view d).moment ≤ m → m ≤ goes.made
        → (D.view e).images_at m c
        → (newest_in c ≡ Ok None) ⊎ ShowsTable c (fresh 16777216 16384))
        × ((m : ℕ) (c : Image) → goes.made ≤ m → m ≤ goes.synced → (D.view e).images_at m c
        → ShowsTable c (fresh 16777216 16384)) }
    ensures trail { (run : Transcript) (end : Position) (d e : D)
        (goes : GoesThroughNewTables run end (D.view d) (D.view e))
        → Trail ShowsTable (D.view e) goes.synced (tables_continued run end)
        (length run.exchanges) }
    ensures space { (c : Image) → IsNoneOrThrifty c
        → (newest_in c ≡ Ok None) ⊎ (IsThrifty c × IsPaidIn c) }
{}
