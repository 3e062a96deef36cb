//! Laws of leaders and followers. Each is the contract of a function that does nothing.

ghost use Rattle.std.specs.List.{flat_map};
ghost use Rattle.std.specs.Prelude.{◌≡◌, ◌<◌, ℕ, ◌∷◌, [], List, map, Ok, Some};
ghost use Rattle.strat_base.specs.Change.{Change};
ghost use Rattle.strat_base.specs.Change as change;
ghost use Rattle.def_crash.specs.Image.{Image};
ghost use Rattle.def_crash.specs.Moments.{Exposes};
ghost use Rattle.def_bytes.specs.SuperBlock.{Super};
ghost use Rattle.strat_model.specs.declared.replies.Refusal.{Refusal};
ghost use Rattle.strat_model.specs.declared.replies.Refusal.TheVariants as why;
ghost use Rattle.strat_model.specs.declared.replies.Reply.TheVariants as reply;
ghost use Rattle.strat_model.specs.Answer.{plain, refusal};
ghost use Rattle.strat_model.specs.Request.{Clone, DropVersion};
ghost use Rattle.strat_model.specs.Run.{Exchange, Position};
ghost use Rattle.strat_model.specs.Spelling.{IsRefusedAs};
ghost use Rattle.strat_model.specs.Table.{Table, bare};
ghost use Rattle.def_recovery.specs.Opening.{recover};
ghost use Rattle.def_publish.specs.Standing.{ShowsTable};
ghost use Rattle.def_follow.specs.Following.{Delivery, IsBrokenOff, IsFollowing, Receipt, receipt_frame};
ghost use Rattle.def_follow.specs.Log.{AreTakenFrom, table_after};
ghost use Rattle.strat_open.specs.Following.{ChangesGateAlone, FollowsFrom};
ghost use Rattle.strat_loop.specs.Session.{SendsPrefix};
ghost use Rattle.strat_loop.specs.Speech.{IsSpokenRun, Said, SaysFault, said_bytes};
ghost use Rattle.strat_loop.specs.World.{Streams, beside};
ghost use Rattle.strat_loop.specs.Spoken.{SaysCalmly};
ghost use Rattle.strat_follow.specs.Follows.{follows};
ghost use Rattle.strat_follow.specs.Leading.{StopsAtJournal};
ghost use Rattle.strat_follow.specs.Leads.{AreMade, change_frames, leads};
ghost use Rattle.strat_follow.specs.Turns.{turn_of};

use crate::turns::Turn;
use def_crash::laws::Viewed;
use strat_model::Ended;

/// A change is next if its number is that of the next one, old if it is less, and otherwise others stand before it.
pub fn numbers_say_whose_turn_it_is()
    ensures next { (n : ℕ) → turn_of n n ≡ Turn.Take }
    ensures old { (next n : ℕ) → n < next → turn_of next n ≡ Turn.Old }
    ensures gap { (next n : ℕ) → next < n → turn_of next n ≡ Turn.Gap }
{}

/// A run of a table that follows answers each body with a receipt, as one that receives numbered changes does, and sends
/// these. A change that met a fault has one, too. A body that asks for nothing was told a plain refusal, which writes nothing
/// at any number of changes.
pub fn a_run_that_follows_gives_receipts()
    ensures ok { (mem : ℕ) (at after : Position) (xs : List Exchange) (answers : List Said)
        → IsSpokenRun follows mem at xs answers after → (deliveries : List Delivery)
        × IsFollowing mem at deliveries after
        × (map (λ (d : Delivery). d.body) deliveries ≡ map (λ (x : Exchange). x.body) xs)
        × (said_bytes answers
        ≡ flat_map (λ (d : Delivery). receipt_frame d.receipt) deliveries) }
    ensures fault { (mem : ℕ) (at done : Position) (body : List ℕ) (said : Said)
        → SaysFault follows mem at body said done → (r : Receipt) × IsBrokenOff mem at body r done
        × (said.sent ≡ receipt_frame r) }
    ensures none { (changes : ℕ) (body : List ℕ) (said : Said)
        → follows.Declines changes body said → (r : Receipt) × (said.tag ≡ r.number)
        × (said.sent ≡ receipt_frame r) × (said.answer ≡ refusal why.Malformed) }
    ensures still { (changes : ℕ) (body : List ℕ) (said : Said)
        → follows.Declines changes body said → SaysCalmly follows body said }
{}

/// A run of a table that leads sends the frames of the changes that it carried out, numbered from those of its table on. These
/// are the next changes of any log that led to this table, and lead to the one at its end.
pub fn a_run_that_leads_sends_its_changes()
    ensures ok { (mem : ℕ) (at after : Position) (xs : List Exchange) (answers : List Said)
        → IsSpokenRun leads mem at xs answers after → (made : List Change) × AreMade xs made
        × (said_bytes answers ≡ change_frames at.table.changes made)
        × AreTakenFrom (bare at.table) made
        × (table_after (bare at.table) made ≡ bare after.table) }
    ensures none { (body : List ℕ) (said : Said) (changes : ℕ)
        → leads.Declines changes body said → (said.sent ≡ [])
        × ((cause : Refusal) × IsRefusedAs body said.tag cause) }
    ensures still { (body : List ℕ) (said : Said) (changes : ℕ)
        → leads.Declines changes body said → SaysCalmly leads body said }
{}

/// A leader whose sink fails at the changes of the journal has read nothing and written nothing but what the opening did, and the
/// sink has a front of their frames.
pub fn a_leader_stops_at_its_journal_for_the_sink<D: Viewed>()
    ensures ok { (x y : Streams) (d e : D) (how : Ended)
        → (s : StopsAtJournal how (beside x (D.view d)) (beside y (D.view e)))
        → (how ≡ Ended.Sink) × (y.left ≡ x.left) × (y.disk_faults ≡ x.disk_faults)
        × SendsPrefix x.held y.held (change_frames s.head.manifest.changes s.head.journal)
        × ((f : Image) → Exposes (D.view d) f → (recover f ≡ Ok (Some s.head)) × ((slot : ℕ)
        × (sb : Super) × ChangesGateAlone (D.view d) (D.view e) f slot sb)) }
    ensures images { (x y : Streams) (d e : D) (how : Ended) (f : Image) (t : Table)
        → StopsAtJournal how (beside x (D.view d)) (beside y (D.view e)) → Exposes (D.view d) f
        → ShowsTable f t → FollowsFrom (D.view d) (D.view e) f (t ∷ []) 0 }
{}

/// What is sent for single bodies, in bytes: by a leader for a first put, behind 258 changes for a clone, for a drop, and for
/// one that was refused; by a follower for a change that was taken, one for which memory ran out, and a drop of version 0.
/// Neither sends anything for a frame that is too long.
pub fn answers_are_spelled_so()
    ensures sent { change_frames 0
        (change.Put 0 (97 ∷ []) (49 ∷ []) ∷ change.Delete 0 (97 ∷ []) ∷ [])
        ≡ 0 ∷ 0 ∷ 0 ∷ 14 ∷ 0 ∷ 0 ∷ 0 ∷ 0 ∷ 1 ∷ 0 ∷ 0 ∷ 0 ∷ 0 ∷ 1 ∷ 97 ∷ 0 ∷ 1 ∷ 49
        ∷ 0 ∷ 0 ∷ 0 ∷ 11 ∷ 0 ∷ 0 ∷ 0 ∷ 1 ∷ 2 ∷ 0 ∷ 0 ∷ 0 ∷ 0 ∷ 1 ∷ 97 ∷ [] }
    ensures later { (leads.tells 258 7 (Clone 1) (plain (reply.Made 2))
        ≡ 0 ∷ 0 ∷ 0 ∷ 9 ∷ 0 ∷ 0 ∷ 1 ∷ 2 ∷ 3 ∷ 0 ∷ 0 ∷ 0 ∷ 1 ∷ [])
        × (leads.tells 3 7 (DropVersion 1) (plain reply.Done)
        ≡ 0 ∷ 0 ∷ 0 ∷ 9 ∷ 0 ∷ 0 ∷ 0 ∷ 3 ∷ 4 ∷ 0 ∷ 0 ∷ 0 ∷ 1 ∷ []) }
    ensures none { leads.tells 258 7 (Clone 1) (refusal why.VersionLimit) ≡ [] }
    ensures ok { follows.tells 4 4 (Clone 1) (plain (reply.Made 2))
        ≡ 0 ∷ 0 ∷ 0 ∷ 10 ∷ 0 ∷ 0 ∷ 0 ∷ 4 ∷ 0 ∷ 0 ∷ 0 ∷ 0 ∷ 5 ∷ 0 ∷ [] }
    ensures err { (follows.tells 5 5 (Clone 1) (refusal why.NoMemory)
        ≡ 0 ∷ 0 ∷ 0 ∷ 10 ∷ 0 ∷ 0 ∷ 0 ∷ 5 ∷ 4 ∷ 0 ∷ 0 ∷ 0 ∷ 5 ∷ 32 ∷ [])
        × (follows.tells 5 5 (DropVersion 0) (refusal why.Root)
        ≡ 0 ∷ 0 ∷ 0 ∷ 10 ∷ 0 ∷ 0 ∷ 0 ∷ 5 ∷ 4 ∷ 0 ∷ 0 ∷ 0 ∷ 5 ∷ 27 ∷ []) }
    ensures end { (leads.too_long ≡ []) × (follows.too_long ≡ []) }
{}
