//! What a serving run comes to, in words of tables and of crashes. Each law is the contract of a function that does
//! nothing.

ghost use Rattle.std.specs.Prelude.{◌≡◌, ◌≢◌, ◌≤◌, ◌-◌, ◌*◌, ◌⊎◌, ℕ, List, length, Ok, Err, None, Some};
ghost use Rattle.def_crash.specs.Faults.{Rose};
ghost use Rattle.def_crash.specs.Image.{Image, Outside};
ghost use Rattle.def_crash.specs.Moments.{Exposes, Images, Since};
ghost use Rattle.def_bytes.specs.Layout.{region_at, other_region};
ghost use Rattle.def_bytes.specs.SuperBlock.{Super, newest_in};
ghost use Rattle.strat_model.specs.Table.{Table};
ghost use Rattle.def_recovery.specs.Head.{Head};
ghost use Rattle.def_recovery.specs.Opening.{recover};
ghost use Rattle.def_publish.specs.Standing.{ShowsTable};
ghost use Rattle.strat_loop.specs.Session.{IsFoundDamaged};
ghost use Rattle.strat_serve.specs.Tables.{AnswersAsTable, EndsAtTables, GoesThroughTables, KeepsSpace, begins_at};
ghost use Rattle.strat_loop.specs.World.{Streams, beside};
ghost use Rattle.castle.specs.Arguments.{Serve};
ghost use Rattle.castle.specs.Headline.{HasNotBegun};
ghost use Rattle.castle.specs.Outcomes.{Runs};

use def_crash::laws::Viewed;

/// The headline. Over a disk that shows a table, a run that is asked to serve a file answers what it takes as a run of that
/// table does; only a fault of the device, which the disk counted, breaks that off. At its end a crash leaves the table after
/// all that was answered otherwise than by a fault, or after one command more and the whole rest of its batch: up to fifteen
/// changes that no reply tells of. On the way it leaves what it might have left before, and from some moment on the run's
/// tables in order. What it leaves then is sound, each array a third live in each of its versions, and stores at most two
/// entries for each update. After a run that the device and the sink did not fail, and that opened its store, recovery finds
/// at most two changes fewer in the journal than both its regions take. The run ends for a cause, and where nothing failed, as
/// its input does or for want of memory.
pub fn a_serving_run_is_a_run_of_its_table<D: Viewed>()
    ensures answers { (path : List ℕ) (status : ℕ) (x y : Streams) (d e : D) (f : Image) (t : Table)
        (shows : ShowsTable f t) → Exposes (D.view d) f
        → Runs (Some (Serve path)) 1099511627776 status (beside x (D.view d)) (beside y (D.view e))
        → AnswersAsTable 1099511627776 shows.state.mem (begins_at f t shows) status x y }
    ensures left { (path : List ℕ) (status : ℕ) (x y : Streams) (d e : D) (f : Image) (t : Table)
        (shows : ShowsTable f t) → Exposes (D.view d) f
        → Runs (Some (Serve path)) 1099511627776 status (beside x (D.view d)) (beside y (D.view e))
        → (a : AnswersAsTable 1099511627776 shows.state.mem (begins_at f t shows) status x y)
        × (EndsAtTables a.run a.continued.end (D.view e)
        ⊎ HasNotBegun status a.run (D.view d) (D.view e)) }
    ensures trail { (path : List ℕ) (status : ℕ) (x y : Streams) (d e : D) (f : Image) (t : Table)
        (shows : ShowsTable f t) → Exposes (D.view d) f
        → Runs (Some (Serve path)) 1099511627776 status (beside x (D.view d)) (beside y (D.view e))
        → (a : AnswersAsTable 1099511627776 shows.state.mem (begins_at f t shows) status x y)
        × (GoesThroughTables a.run a.continued.end f (D.view d) (D.view e)
        ⊎ HasNotBegun status a.run (D.view d) (D.view e)) }
    ensures space { (path : List ℕ) (status : ℕ) (x y : Streams) (d e : D) (f : Image) (t : Table)
        → ShowsTable f t → Exposes (D.view d) f
        → Runs (Some (Serve path)) 1099511627776 status (beside x (D.view d)) (beside y (D.view e))
        → KeepsSpace f (D.view d) (D.view e) }
    ensures journal { (path : List ℕ) (status : ℕ) (x y : Streams) (d e : D) (f : Image)
        (t : Table) → ShowsTable f t → Exposes (D.view d) f
        → Runs (Some (Serve path)) 1099511627776 status (beside x (D.view d)) (beside y (D.view e))
        → status ≢ 5 → status ≢ 7 → status ≢ 8 → (c : Image) → Images (D.view e) c
        → (head : Head) × (recover c ≡ Ok (Some head))
        × (length head.journal ≤ 2 * head.sb.mem - 2) }
    ensures cause { (path : List ℕ) (status : ℕ) (x y : Streams) (d e : D)
        → Runs (Some (Serve path)) 1099511627776 status (beside x (D.view d)) (beside y (D.view e))
        → (status ≡ 5 → Rose x.disk_faults y.disk_faults)
        × (status ≡ 6 → Rose x.source_faults y.source_faults)
        × (status ≡ 7 → Rose x.sink_faults y.sink_faults)
        × (status ≢ 6 → y.source_faults ≡ x.source_faults)
        × (status ≢ 7 → y.sink_faults ≡ x.sink_faults)
        × (status ≢ 5 → status ≢ 7 → y.disk_faults ≡ x.disk_faults) }
    ensures complete { (path : List ℕ) (status : ℕ) (x y : Streams) (d e : D) (f : Image)
        (t : Table) → ShowsTable f t → Exposes (D.view d) f
        → Runs (Some (Serve path)) 1099511627776 status (beside x (D.view d)) (beside y (D.view e))
        → ¬ Rose x.source_faults y.source_faults → ¬ Rose x.sink_faults y.sink_faults
        → ¬ Rose x.disk_faults y.disk_faults
        → (status ≡ 0) ⊎ (status ≡ 3) ⊎ (status ≡ 4) ⊎ (status ≡ 8) ⊎ (status ≡ 10) }
{}

/// A run that is asked to serve a file, whatever the disk shows. It finds no store only if no slot is that of one, and
/// damage only if recovery or a command finds a damaged block. If recovery finds no store, nothing is taken or sent. Out of
/// memory, or over no store, all stays as it was; if the device failed before a store was open, all but one gate. If
/// nothing failed, the run ends as recovery finds the disk.
pub fn a_serving_run_ends_as_recovery_finds_its_disk<D: Viewed>()
    ensures none { (path : List ℕ) (status : ℕ) (x y : Streams) (d e : D) (f : Image)
        → Runs (Some (Serve path)) 1099511627776 status (beside x (D.view d)) (beside y (D.view e))
        → Exposes (D.view d) f → status ≡ 2 → newest_in f ≡ Ok None }
    ensures damaged { (path : List ℕ) (status : ℕ) (x y : Streams) (d e : D) (f : Image)
        → Runs (Some (Serve path)) 1099511627776 status (beside x (D.view d)) (beside y (D.view e))
        → Exposes (D.view d) f → status ≡ 9 → (block : ℕ)
        × ((recover f ≡ Err block) ⊎ IsFoundDamaged (D.view d) (D.view e) block) }
    ensures same { (path : List ℕ) (status : ℕ) (x y : Streams) (d e : D)
        → Runs (Some (Serve path)) 1099511627776 status (beside x (D.view d)) (beside y (D.view e))
        → (status ≡ 2) ⊎ (status ≡ 8) → (y.left ≡ x.left) × (y.held ≡ x.held)
        × ((D.view e).content ≡ (D.view d).content)
        × ((c : Image) → Since (D.view e) (D.view d).moment c → Images (D.view d) c) }
    ensures early { (path : List ℕ) (status : ℕ) (x y : Streams) (d e : D) (f : Image)
        → Runs (Some (Serve path)) 1099511627776 status (beside x (D.view d)) (beside y (D.view e))
        → Exposes (D.view d) f → ((head : Head) → recover f ≢ Ok (Some head))
        → (y.left ≡ x.left) × (y.held ≡ x.held) }
    ensures device { (path : List ℕ) (status : ℕ) (x y : Streams) (d e : D) (f : Image)
        → Runs (Some (Serve path)) 1099511627776 status (beside x (D.view d)) (beside y (D.view e))
        → Exposes (D.view d) f → status ≡ 5
        → ((head : Head) × (recover f ≡ Ok (Some head)))
        ⊎ ((y.left ≡ x.left) × (y.held ≡ x.held)
        × ((c : Image) → Since (D.view e) (D.view d).moment c → Images (D.view d) c
        ⊎ ((slot : ℕ) × (sb : Super) × (newest_in f ≡ Ok (Some (slot, sb)))
        × Outside (region_at sb.mem (other_region sb.region)) 1 f c))) }
    ensures complete { (path : List ℕ) (status : ℕ) (x y : Streams) (d e : D) (f : Image)
        → Runs (Some (Serve path)) 1099511627776 status (beside x (D.view d)) (beside y (D.view e))
        → Exposes (D.view d) f → ¬ Rose x.source_faults y.source_faults
        → ¬ Rose x.sink_faults y.sink_faults → ¬ Rose x.disk_faults y.disk_faults
        → (recover f ≡ Ok None → (status ≡ 2) ⊎ (status ≡ 8))
        × ((block : ℕ) → recover f ≡ Err block → (status ≡ 9) ⊎ (status ≡ 8))
        × ((head : Head) → recover f ≡ Ok (Some head) → (status ≡ 0) ⊎ (status ≡ 3)
        ⊎ (status ≡ 4) ⊎ (status ≡ 8) ⊎ (status ≡ 10) ⊎ (status ≡ 9)) }
{}
