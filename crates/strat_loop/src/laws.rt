//! What a run says of what its protocol does, and where it begins. Each law is the contract of a function that does nothing.

ghost use Rattle.std.specs.Prelude.{◌≡◌, ◌<◌, ◌⊎◌, ◌+◌, ℕ, List, Some};
ghost use Rattle.def_crash.specs.Image.{Image};
ghost use Rattle.strat_model.specs.Request.{Request};
ghost use Rattle.strat_model.specs.Run.{Interruption, Position};
ghost use Rattle.strat_model.specs.Table.{Table};
ghost use Rattle.def_publish.specs.Standing.{ShowsTable};
ghost use Rattle.strat_memory.specs.Held.{Held};
ghost use Rattle.strat_loop.specs.Session.{Begins};
ghost use Rattle.strat_loop.specs.Grouping.{StagesBody};
ghost use Rattle.strat_loop.specs.Speech.{Said, Says, SaysFault};
ghost use Rattle.strat_loop.specs.Spoken.{AreSaidAt, FollowsSpokenRun, IsSaidAt, Sitting};

use crate::protocol::Protocol;
use def_crash::laws::Viewed;

/// An image shows one table, and a run that is served from it begins there. What a run leaves at each
/// moment shows one of its tables, at or after the last that it acknowledged by then: so where a run
/// is cut off, the next one goes on from that table.
pub fn a_run_begins_where_the_last_one_was_cut_off()
    ensures one { (c : Image) (t other : Table) → ShowsTable c t → ShowsTable c other → t ≡ other }
    ensures ok { (c : Image) (t : Table) (mem : ℕ) (start : Position) → ShowsTable c t
        → Begins c mem start → start.table ≡ t }
{}

/// What is said to a body in a run of a protocol is what the protocol says at as many changes as the table has there: that it
/// asks for nothing, or the bytes for the answer to what it asks for. So it is with a fault, which answers only what was asked.
pub fn a_run_says_what_its_protocol_does<P: Protocol>()
    ensures ok { (mem : ℕ) (at after : Position) (body : List ℕ) (said : Said)
        → Says P.speech mem at body said after
        → P.speech.Declines at.table.changes body said
        ⊎ ((request : Request) × P.speech.Asks at.table.changes body said.tag request
        × (said.sent ≡ P.speech.tells at.table.changes said.tag request said.answer)) }
    ensures fault { (mem : ℕ) (at done : Position) (body : List ℕ) (said : Said)
        → SaysFault P.speech mem at body said done
        → (request : Request) × P.speech.Asks at.table.changes body said.tag request
        × (said.sent ≡ P.speech.tells at.table.changes said.tag request said.answer) }
{}

/// Each change of a batch counts: what is said to the body behind it is what the protocol says at one change more, though neither
/// is durable yet.
pub fn a_batch_counts_on<P: Protocol>()
    ensures ok { (old mid new : Held) (body other : List ℕ) (said more : Said)
        → StagesBody P.speech old body said mid → StagesBody P.speech mid other more new
        → (request : Request) × P.speech.Asks (old.memory.changes + 1) other more.tag request
        × (more.sent ≡ P.speech.tells (old.memory.changes + 1) more.tag request more.answer) }
{}

/// In a run of a table each body was told what the protocol says at the changes of the table there, and the sink got that. So
/// was the body that met a fault, behind the others.
pub fn what_a_run_sent_is_what_its_protocol_says<P: Protocol, D: Viewed>()
    ensures ok { (d e : D) (f : Image) (t : Table) (s : Sitting)
        → (r : FollowsSpokenRun P.speech (D.view d) (D.view e) f t s)
        → AreSaidAt P.speech r.transcript.exchanges s.answers }
    ensures fault { (d e : D) (f : Image) (t : Table) (s : Sitting) (said : Said)
        → (r : FollowsSpokenRun P.speech (D.view d) (D.view e) f t s) → s.broken ≡ Some said
        → (h : Interruption) × (r.transcript.interruption ≡ Some h)
        × IsSaidAt P.speech r.transcript.after.table.changes h.body said }
{}
