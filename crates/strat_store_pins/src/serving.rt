//! What is said of a serving run: facts of these records, used once, and values that meet what is only asked of a disk or of a
//! reply. Each is the contract of a function that does nothing.

ghost use Rattle.std.specs.List.{flat_map, list_all};
ghost use Rattle.std.specs.Prelude.{◌≡◌, ◌≤◌, ◌<◌, ◌⊎◌, ◌+◌, ◌*◌, ◌++◌, ℕ, List, Option, true, false, length, take, Contains, Some, Ok, Err, IsTrue};
ghost use Rattle.strat_base.specs.declared.descriptors.ArrayDesc.{ArrayDesc};
ghost use Rattle.def_crash.specs.Image.{Image};
ghost use Rattle.def_crash.specs.Moments.{Exposes, Images, Since};
ghost use Rattle.def_crash.specs.Trail.{At, Trail};
ghost use Rattle.strat_model.specs.Request.{Request};
ghost use Rattle.strat_model.specs.Batch.{tables_continued};
ghost use Rattle.strat_model.specs.Run.{Position, Response, Transcript, bodies_of, is_change, responses_of, sent_bytes};
ghost use Rattle.strat_model.specs.Spelling.{Spells};
ghost use Rattle.strat_model.specs.Stream.{frame, is_partial};
ghost use Rattle.strat_model.specs.declared.ended.Ended.TheVariants as ended;
ghost use Rattle.def_bytes.specs.Chained.{manifest_at};
ghost use Rattle.def_bytes.specs.SuperBlock.{newest_in};
ghost use Rattle.def_recovery.specs.Head.{descriptors};
ghost use Rattle.def_recovery.specs.Opening.{recover, reads_as};
ghost use Rattle.strat_loop.specs.Session.{ExposesDamage, IsAtEnd, SendsPrefix, WaitsForNone, WasPublished};
ghost use Rattle.strat_serve.specs.Serving.{WritesNothing};
ghost use Rattle.strat_serve.specs.Tables.{AnswersUntil, AnswersUntilCut, AnswersUntilFault, EndsAtTables, GoesThroughTables, KeepsSpace};
ghost use Rattle.def_publish.specs.Standing.{ShowsTable};
ghost use Rattle.def_state.specs.Level.{is_dense};
ghost use Rattle.def_state.specs.Sound.{IsSound};
ghost use Rattle.def_state.specs.State.{State, stored, updates_of, versions_of};
ghost use Rattle.strat_store.specs.Applying.{may_write};
ghost use Rattle.strat_memory.specs.Paying.{IsPaidIn};

use def_crash::laws::Viewed;

/// The last piece, of at most 4,096 bytes, was read behind less than a frame, which stood behind at most so many.
pub fn a_run_waits_for_no_frame()
    ensures fits { (taken : List ℕ) (bodies : List (List ℕ)) (n : ℕ)
        (waits : WaitsForNone taken bodies n) → (waits.read ≤ n) × (length waits.piece ≤ 4096)
        × (is_partial waits.held ≡ true)
        × (taken ≡ flat_map frame (take waits.read bodies) ++ (waits.held ++ waits.piece)) }
{}

/// A run that met a fault read no further while a frame waited that was not answered; one whose sink failed lost the replies to
/// sixteen bodies at most, and read no further while a frame waited whose reply had not gone out.
pub fn a_run_that_failed_did_not_read_ahead()
    ensures faults { (run : Transcript) (taken sent : List ℕ)
        (until : AnswersUntilFault run taken sent)
        → WaitsForNone taken until.bodies (length run.exchanges)
        × (take (length (bodies_of run)) until.bodies ≡ bodies_of run)
        × (run.interruption ≡ Some until.broken) × (sent ≡ sent_bytes (responses_of run)) }
    ensures err { (run : Transcript) (taken sent : List ℕ)
        (until : AnswersUntilCut 16 run taken sent)
        → WaitsForNone taken until.bodies until.whole
        × (take (length (bodies_of run)) until.bodies ≡ bodies_of run)
        × (length (responses_of run) ≤ until.whole + 16)
        × (sent ≡ sent_bytes (take until.whole (responses_of run)) ++ until.part)
        × (sent_bytes (responses_of run) ++ until.more ≡ sent ++ until.unsent)
        × (0 < length until.unsent) }
    ensures end { (before now : Option (List ℕ)) (all : List ℕ) (sends : SendsPrefix before now all)
        → (all ≡ sends.sent ++ sends.later) × (0 < length sends.later) }
{}

/// Over a disk that shows a table no run ends as over no store or at a damaged block. One at its budget took just that, and one that
/// is done all there was, and less.
pub fn a_run_of_a_table_ends_so()
    ensures none { (budget block : ℕ) (run : Transcript) (taken sent : List ℕ)
        (left : Option (List ℕ)) → (¬ AnswersUntil ended.NotAStore budget run taken left sent)
        × (¬ AnswersUntil (ended.Damaged block) budget run taken left sent)
        × (¬ AnswersUntil ended.Usage budget run taken left sent)
        × (¬ AnswersUntil ended.Unsound budget run taken left sent) }
    ensures len { (budget : ℕ) (run : Transcript) (taken sent : List ℕ) (left : Option (List ℕ))
        → (AnswersUntil ended.Budget budget run taken left sent → length taken ≡ budget)
        × (AnswersUntil ended.Done budget run taken left sent
        → IsAtEnd left × (length taken < budget)) }
{}

/// Up to the sync a crash leaves what it might have left before, then the content, and from then on the tables in order; at the end the
/// one after all exchanges, or a later one; and what it leaves is what it might have left before, or thrifty.
pub fn images_go_through_the_tables_of_a_run<D: Viewed>()
    ensures trail { (d e : D) (f : Image) (run : Transcript) (end : Position)
        (goes : GoesThroughTables run end f (D.view d) (D.view e))
        → ((D.view d).moment ≤ goes.synced) × (goes.synced ≤ (D.view e).moment)
        × (D.view e).images_at goes.synced f
        × ((c : Image) → (D.view e).images_at goes.synced c → c ≡ f)
        × ((m : ℕ) (c : Image) → (D.view d).moment ≤ m → m ≤ goes.synced
        → (D.view e).images_at m c → Images (D.view d) c)
        × Trail ShowsTable (D.view e) goes.synced (tables_continued run end)
        (length run.exchanges) }
    ensures end { (e : D) (c : Image) (run : Transcript) (end : Position)
        → EndsAtTables run end (D.view e) → Images (D.view e) c
        → (i : ℕ) × (length run.exchanges ≤ i) × At (tables_continued run end) i (ShowsTable c) }
    ensures images { (d e : D) (f c : Image) → KeepsSpace f (D.view d) (D.view e)
        → Since (D.view e) (D.view d).moment c → Images (D.view d) c
        ⊎ ((s : State) × (reads_as c ≡ Some s) × IsSound s × (stored s ≤ 2 * updates_of s)
        × IsTrue (list_all (λ level. list_all (is_dense (versions_of s)) level.arrays) s.levels)
        × (IsPaidIn f → IsPaidIn c)) }
{}

/// A disk exposes damage wherever recovery finds a damaged block in its content, whichever that is.
pub fn damage_that_recovery_finds_is_exposed<D: Viewed>()
    ensures damaged { (d : D) (f : Image) (block : ℕ) → Exposes (D.view d) f
        → recover f ≡ Err block → ExposesDamage (D.view d) }
{}

/// An array that was published was named by a manifest: a crash in the run might have left an image whose newest superblock leads
/// to it.
pub fn an_array_that_was_published_was_named<D: Viewed>()
    ensures found { (d e : D) (a : ArrayDesc) (was : WasPublished (D.view d) (D.view e) a)
        → Since (D.view e) (D.view d).moment was.image
        × (newest_in was.image ≡ Ok (Some (was.slot, was.sb)))
        × (manifest_at was.sb.format was.image was.sb.manifest was.sb.length ≡ Ok was.chained)
        × Contains (descriptors was.chained.manifest) a }
{}

/// A command that asks for no change writes nothing, whatever its reply, and nor does any body with a reply after which a store has
/// not written.
pub fn a_body_that_asks_for_no_change_writes_nothing()
    ensures ok { (body : List ℕ) (response : Response) (request : Request)
        → Spells body response.tag request → is_change request ≡ false
        → WritesNothing body response }
    ensures none { (body : List ℕ) (response : Response)
        → may_write response.answer.reply ≡ false → WritesNothing body response }
{}
