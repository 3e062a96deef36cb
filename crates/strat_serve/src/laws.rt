//! What a serving run comes to, and what joins one run with the next. Each law is the contract of a function
//! that does nothing.

ghost use Rattle.std.specs.List.{flat_map};
ghost use Rattle.std.specs.Prelude.{◌≡◌, ◌≢◌, ◌<◌, ◌≤◌, ◌⊎◌, ◌+◌, ◌-◌, ◌*◌, ℕ, List, [], ◌++◌, Contains, IsSome, None, Ok, Some, length, map, slice_get, take, true};
ghost use Rattle.strat_base.specs.declared.descriptors.ArrayDesc.{ArrayDesc};
ghost use Rattle.def_crash.specs.Blocks.{AgreeOn};
ghost use Rattle.def_crash.specs.Faults.{Rose};
ghost use Rattle.def_crash.specs.Image.{Image, Outside};
ghost use Rattle.def_crash.specs.Moments.{Exposes, Images, Since};
ghost use Rattle.def_crash.specs.Trail.{At};
ghost use Rattle.def_bytes.specs.Layout.{region_at, other_region};
ghost use Rattle.def_bytes.specs.SuperBlock.{Super, newest_in};
ghost use Rattle.strat_model.specs.Faults.{fault_told};
ghost use Rattle.strat_model.specs.declared.ended.Ended.{Ended};
ghost use Rattle.strat_model.specs.declared.ended.Ended.TheVariants as ended;
ghost use Rattle.strat_model.specs.declared.replies.Refusal.{Refusal};
ghost use Rattle.strat_model.specs.declared.replies.Refusal.TheVariants as why;
ghost use Rattle.strat_model.specs.declared.replies.Reply.TheVariants as reply;
ghost use Rattle.strat_model.specs.Answer.{refusal};
ghost use Rattle.strat_model.specs.Ended.{status_of};
ghost use Rattle.strat_model.specs.Request.{Request};
ghost use Rattle.strat_model.specs.Batch.{tables_continued};
ghost use Rattle.strat_model.specs.Run.{IsAfter, Position, Response, Transcript, bodies_of, is_carried_out, positions_of, reaches_disk, takes_memory};
ghost use Rattle.strat_model.specs.Spelling.{Spells, IsRefusedAs};
ghost use Rattle.strat_model.specs.Stream.{Splits, frame};
ghost use Rattle.strat_model.specs.Table.{Table, bare};
ghost use Rattle.strat_promote.specs.Job.{blocks_listed};
ghost use Rattle.def_recovery.specs.Head.{Head};
ghost use Rattle.def_recovery.specs.Opening.{recover};
ghost use Rattle.def_publish.specs.Several.{EachShows, ShowOneOfSince, ShowsOneOf};
ghost use Rattle.def_publish.specs.Standing.{LeavesContent, ShowsTable};
ghost use Rattle.strat_publish.specs.Outcomes.{IsDamagedIn};
ghost use Rattle.strat_store.specs.Applying.{is_fault};
ghost use Rattle.strat_memory.specs.Held.{Held, IsConsistent, IsOnDisk, arrays_held};
ghost use Rattle.strat_store.specs.Ranging.{HasPairsFor};
ghost use Rattle.strat_loop.specs.Session.{GaveUp, Session, WasPublished};
ghost use Rattle.strat_serve.specs.Serving.{AreCalm, IsSession, IsTaggedFor, RespondsTo, Served, all_responses};
ghost use Rattle.strat_serve.specs.Tables.{AnswersAsTable, EndsAtTables, GoesThroughTables, KeepsSpace, begins_at};
ghost use Rattle.strat_loop.specs.World.{Streams, beside};

use def_crash::laws::Viewed;

/// A run that was served over a disk that shows a table answers what it took as a run of that table does. At its
/// end a crash leaves the table after all that was answered, or after one command more that met a fault and the whole
/// rest of its batch; on the way it leaves what it might have left before, and then the run's tables in order, each with
/// at most two entries for each update.
pub fn a_served_run_is_a_run_of_its_table<D: Viewed>()
    ensures answers { (x y : Streams) (d e : D) (budget : ℕ) (how : Ended) (f : Image) (t : Table)
        (shows : ShowsTable f t) → Exposes (D.view d) f
        → Served budget how (beside x (D.view d)) (beside y (D.view e))
        → AnswersAsTable budget shows.state.mem (begins_at f t shows) (status_of how) x y }
    ensures left { (x y : Streams) (d e : D) (budget : ℕ) (how : Ended) (f : Image) (t : Table)
        (shows : ShowsTable f t) → Exposes (D.view d) f
        → Served budget how (beside x (D.view d)) (beside y (D.view e))
        → (a : AnswersAsTable budget shows.state.mem (begins_at f t shows) (status_of how) x y)
        × EndsAtTables a.run a.continued.end (D.view e) }
    ensures trail { (x y : Streams) (d e : D) (budget : ℕ) (how : Ended) (f : Image) (t : Table)
        (shows : ShowsTable f t) → Exposes (D.view d) f
        → Served budget how (beside x (D.view d)) (beside y (D.view e))
        → (a : AnswersAsTable budget shows.state.mem (begins_at f t shows) (status_of how) x y)
        × GoesThroughTables a.run a.continued.end f (D.view d) (D.view e) }
    ensures space { (x y : Streams) (d e : D) (budget : ℕ) (how : Ended) (f : Image) (t : Table)
        → ShowsTable f t → Exposes (D.view d) f
        → Served budget how (beside x (D.view d)) (beside y (D.view e))
        → KeepsSpace f (D.view d) (D.view e) }
{}

/// At no position of a run does its journal have more changes than two fewer than both regions take. With so many the next
/// change empties a region: one fewer than a region takes are left. While the first region has room, a change is one more.
pub fn a_run_keeps_its_journal_within_both_regions()
    ensures most { (budget mem status i : ℕ) (start p : Position) (x y : Streams)
        (a : AnswersAsTable budget mem start status x y)
        → slice_get (positions_of a.run) i ≡ Some p → p.fill ≤ 2 * mem - 2 }
    ensures full { (mem : ℕ) (at after : Position) (request : Request) → 1 ≤ mem
        → at.fill ≡ 2 * mem - 2 → IsAfter mem at request after
        → is_carried_out at request ≡ true → after.fill ≡ mem - 1 }
    ensures room { (mem : ℕ) (at after : Position) (request : Request) → at.fill < mem
        → IsAfter mem at request after → is_carried_out at request ≡ true
        → after.fill ≡ at.fill + 1 }
{}

/// Whatever the disk shows, fewer than 6,148 bytes were taken behind the frames that were answered otherwise than
/// by a fault: a piece, and less than a frame before it.
pub fn a_run_takes_little_behind_what_it_answers()
    ensures { (budget : ℕ) (s : Session) → IsSession budget s → length s.taken
        < length (flat_map frame (take (length s.answers) s.bodies)) + 6148 }
{}

/// The first bodies have one response each, in order, and a fault is told in the last response alone.
pub fn bodies_are_answered_in_order()
    ensures each { (budget i : ℕ) (s : Session) (body : List ℕ) (r : Response) → IsSession budget s
        → slice_get s.bodies i ≡ Some body → slice_get (all_responses s) i ≡ Some r
        → RespondsTo body r }
    ensures few { (budget : ℕ) (s : Session) → IsSession budget s
        → length (all_responses s) ≤ length s.bodies }
    ensures calm { (budget i : ℕ) (s : Session) (r : Response) → IsSession budget s
        → slice_get s.answers i ≡ Some r → fault_told r.answer.reply ≡ None }
    ensures fault { (budget : ℕ) (s : Session) (r : Response) → IsSession budget s
        → s.broken ≡ Some r → IsSome (fault_told r.answer.reply) }
{}

/// A response has the tag of its body. It refuses the body for what is wrong with it, or the body is a command; then it
/// tells of a fault only to one that reaches the disk, of want of memory to one that takes some, and has no
/// more pairs than were asked for.
pub fn a_response_fits_its_body()
    ensures tag { (body : List ℕ) (r : Response) → RespondsTo body r
        → ((cause : Refusal) × IsRefusedAs body r.tag cause × (r.answer ≡ refusal cause))
        ⊎ ((request : Request) × Spells body r.tag request) }
    ensures fault { (body : List ℕ) (r : Response) → IsTaggedFor body r
        → is_fault r.answer.reply ≡ true
        → (request : Request) × Spells body r.tag request × (reaches_disk request ≡ true) }
    ensures short { (body : List ℕ) (r : Response) → IsTaggedFor body r
        → r.answer.reply ≡ reply.Refused why.NoMemory
        → (request : Request) × Spells body r.tag request × (takes_memory request ≡ true) }
    ensures pairs { (body : List ℕ) (r : Response) → IsTaggedFor body r
        → (request : Request) × Spells body r.tag request × HasPairsFor request r.answer }
{}

/// Whatever a disk shows that exposes its content: a run was served only where recovery finds a store; the disk's count of
/// faults rose where it ended the run, and nowhere else but where the sink did; unless the device failed the superblock
/// and the manifest of a store are left, and where the disk showed a table a journal of at most two changes fewer than both
/// regions take; and commands that change nothing leave the disk but for one gate.
pub fn a_served_run_finds_and_leaves_a_store<D: Viewed>()
    ensures found { (x y : Streams) (d e : D) (budget : ℕ) (how : Ended) (f : Image)
        → Served budget how (beside x (D.view d)) (beside y (D.view e)) → Exposes (D.view d) f
        → (head : Head) × (recover f ≡ Ok (Some head)) }
    ensures rose { (x y : Streams) (d e : D) (budget : ℕ)
        → Served budget ended.Device (beside x (D.view d)) (beside y (D.view e))
        → Rose x.disk_faults y.disk_faults }
    ensures same { (x y : Streams) (d e : D) (budget : ℕ) (how : Ended)
        → Served budget how (beside x (D.view d)) (beside y (D.view e))
        → how ≢ ended.Device → how ≢ ended.Sink → y.disk_faults ≡ x.disk_faults }
    ensures left { (x y : Streams) (d e : D) (budget : ℕ) (how : Ended) (f : Image)
        → Served budget how (beside x (D.view d)) (beside y (D.view e)) → Exposes (D.view d) f
        → how ≢ ended.Device → how ≢ ended.Sink
        → (store : Held) × IsConsistent store × IsOnDisk (D.view e) store }
    ensures journal { (x y : Streams) (d e : D) (budget : ℕ) (how : Ended) (f : Image) (t : Table)
        → ShowsTable f t → Served budget how (beside x (D.view d)) (beside y (D.view e))
        → Exposes (D.view d) f → how ≢ ended.Device → how ≢ ended.Sink → (c : Image)
        → Images (D.view e) c → (head : Head) × (recover c ≡ Ok (Some head))
        × (length head.journal ≤ 2 * head.sb.mem - 2) }
    ensures still { (x y : Streams) (d e : D) (budget : ℕ) (how : Ended) (f : Image)
        (s : Served budget how (beside x (D.view d)) (beside y (D.view e)))
        → AreCalm s.session.bodies (all_responses s.session) → Exposes (D.view d) f
        → (slot : ℕ) × (sb : Super) × (newest_in f ≡ Ok (Some (slot, sb)))
        × ((c : Image) → Since (D.view e) (D.view d).moment c → Images (D.view d) c
        ⊎ Outside (region_at sb.mem (other_region sb.region)) 1 f c) }
{}

/// Where a run ends at a damaged block, that is bad in a content whose blocks of a store's arrays are as they are at the end;
/// it is one of these, each of which a manifest named that a crash in this run might have left; and superblock and
/// manifest of that store are on the disk.
pub fn a_damaged_block_is_of_an_array_that_was_published<D: Viewed>()
    ensures { (x y : Streams) (d e : D) (budget block : ℕ) (f g : Image)
        → Served budget (ended.Damaged block) (beside x (D.view d)) (beside y (D.view e))
        → Exposes (D.view d) f → Exposes (D.view e) g
        → (store : Held) × IsConsistent store × IsOnDisk (D.view e) store
        × ((a : ArrayDesc) → Contains (arrays_held store.memory store.levels) a
        → WasPublished (D.view d) (D.view e) a)
        × ((then : Image) × IsDamagedIn (Some then) store.memory store.levels block
        × AgreeOn (blocks_listed (arrays_held store.memory store.levels)) then g) }
{}

/// A disk may be served each of whose images shows a table, though not all of them one: one that crashed, or that an earlier
/// run or its opening failed on, as it is. What a crash leaves at each moment shows the table of an image that the disk had at
/// the start, or one of the run's; that of an image at the start where the run gave up, also as the device failed in its opening.
pub fn runs_may_begin_at_any_image<D: Viewed>()
    ensures gave_up { (x y : Streams) (d e : D) (how : Ended) (f : Image) → Exposes (D.view d) f
        → LeavesContent (D.view d) → EachShows (D.view d)
        → GaveUp how (beside x (D.view d)) (beside y (D.view e))
        → ShowOneOfSince (D.view d) (D.view e) }
    ensures served { (x y : Streams) (d e : D) (budget : ℕ) (how : Ended) (f : Image) (t : Table)
        (shows : ShowsTable f t) → Exposes (D.view d) f → EachShows (D.view d)
        → Served budget how (beside x (D.view d)) (beside y (D.view e))
        → (a : AnswersAsTable budget shows.state.mem (begins_at f t shows) (status_of how) x y)
        × ((c : Image) → Since (D.view e) (D.view d).moment c
        → ShowsOneOf (D.view d) c
        ⊎ ((i : ℕ) × At (tables_continued a.run a.continued.end) i (ShowsTable c))) }
{}

/// What a run is continued over: nothing, where its last body met no fault; else at most fifteen of the bodies that were taken
/// next, none of which was answered, as they were to become durable with the one that met the fault. At the end a crash leaves
/// the table after all that was answered otherwise, or the one after the whole batch, and none amid it.
pub fn a_run_may_be_continued_over_the_rest_of_a_batch<D: Viewed>()
    ensures none { (budget mem status : ℕ) (start : Position) (x y : Streams)
        (a : AnswersAsTable budget mem start status x y) → a.run.interruption ≡ None
        → a.continued.more ≡ [] }
    ensures len { (budget mem status : ℕ) (start : Position) (x y : Streams)
        (a : AnswersAsTable budget mem start status x y) → length a.continued.more ≤ 15 }
    ensures next { (budget mem status : ℕ) (start : Position) (x y : Streams)
        (a : AnswersAsTable budget mem start status x y)
        → (bodies : List (List ℕ)) × (rest : List ℕ) × Splits a.taken bodies rest
        × (take (length (bodies_of a.run) + length a.continued.more) bodies
        ≡ bodies_of a.run ++ map (λ x. x.body) a.continued.more) }
    ensures left { (e : D) (run : Transcript) (end : Position) (c : Image)
        → EndsAtTables run end (D.view e) → Images (D.view e) c
        → ShowsTable c (bare run.after.table)
        ⊎ (IsSome run.interruption × ShowsTable c (bare end.table)) }
{}
