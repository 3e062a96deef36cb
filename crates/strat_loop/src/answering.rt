//! The answer to one frame alone, and to one that is too long.

ghost use Rattle.std.specs.Prelude.{◌≡◌, ◌≤◌, ◌+◌, ◌++◌, ◌⊎◌, ℕ, IfOk, OnOk, OnErr, [], length, Contains, Some, None, is_some, false};
ghost use Rattle.strat_base.specs.Numbers.{AreBytes};
ghost use Rattle.def_crash.specs.Blocks.{AgreeOn};
ghost use Rattle.def_crash.specs.Faults.{CountsFaults};
ghost use Rattle.strat_base.specs.declared.failures.Fault.TheVariants as fault;
ghost use Rattle.def_crash.specs.Image.{Image};
ghost use Rattle.def_crash.specs.Moments.{Exposes, Passes};
ghost use Rattle.strat_promote.specs.Job.{blocks_listed};
ghost use Rattle.strat_loop.specs.Grouping.{AsksNoChange};
ghost use Rattle.strat_loop.specs.Pending.{SendsAtEnd, SendsOrKeeps, none_pending};
ghost use Rattle.strat_loop.specs.Progress.{TurnGoesOn, ServesPending, TurnHasCause, TurnsTo, waiting};
ghost use Rattle.strat_loop.specs.Session.{FailsAsMet, SendsPrefix};
ghost use Rattle.strat_loop.specs.Spoken.{IsAnswered};
ghost use Rattle.strat_loop.specs.World.{Streams, beside, world};
ghost use Rattle.strat_publish.specs.Outcomes.{IsDamagedIn};
ghost use Rattle.strat_frame.specs.declared.deframer.Next.TheVariants as next;
ghost use Rattle.strat_model.specs.declared.ended.Ended.TheVariants as ended;
ghost use Rattle.strat_memory.specs.Held.{Held, IsConsistent, IsOnDisk, arrays_held};
ghost use Rattle.strat_model.specs.Stream.{IsBody};

use crate::pending::{PendingReplies, StagedReplies, end_run, make_room, send_pending};
use crate::protocol::Protocol;
use std::alloc::Global;
use strat_base::{Failed, Fault, NoMemory, PairBuf};
use strat_disk::Disk;
use strat_frame::{Deframer, Next, OutBuf};
use strat_io::Sink;
use strat_model::Ended;
use strat_store::Store;

/// What a serving run keeps beside its store: the bytes that came in, room for an answer, the replies to staged changes, and
/// those that are pending.
#[derive(Drop)]
pub struct Buffers {
    pub frames: Deframer,
    pub pairs: PairBuf,
    pub out: OutBuf,
    pub staged: StagedReplies,
    pub pending: PendingReplies,
}

impl Buffers {
    /// Empty buffers, with all the memory that frames, pairs and replies of a run need: about 1.1 MB.
    pub fn new(alloc: Global) -> Result<Buffers, NoMemory>
        ensures ok { IfOk result (λ b. (b.frames.held ≡ []) × (b.pending ≡ none_pending)) }
    {
        let frames = Deframer::new(alloc)?;
        let pairs = PairBuf::new(alloc)?;
        let out = OutBuf::new(alloc)?;
        let staged = StagedReplies::new(alloc)?;
        let pending = PendingReplies::new(alloc)?;
        Ok(Buffers {
            frames,
            pairs,
            out,
            staged,
            pending,
        })
    }
}

/// Writes what is sent for a body into the buffer for replies. Answers the fault that the store met, if it met one; then it
/// is not to be used again. A change that is answered otherwise is durable. The cost is that of `Store::apply`.
pub fn answer_frame<P: Protocol, D: Disk>(
    protocol: &P,
    store: &mut Store,
    disk: &mut D,
    body: &[u8],
    pairs: &mut PairBuf,
    out: &mut OutBuf,
) -> Option<Fault>
    requires fits { store.old.spent ≡ false }
    requires kept { IsConsistent store.old }
    ensures ok { IsAnswered P.speech (D.view disk.old) (D.view disk.new) store.old body.now
        result store.new out.new }
    ensures len { length out.new ≤ 328460 }
    ensures state { store.new.spent ≡ is_some result }
    ensures kept { result ≡ None → IsConsistent store.new }
    ensures same { store.new.sb.mem ≡ store.old.sb.mem }
    ensures time { Passes (D.view disk.old) (D.view disk.new) }
    ensures cause { FailsAsMet (D.faults disk.old) (D.faults disk.new) result }
    ensures damaged { (b : ℕ) → result ≡ Some (fault.Damaged b)
        → Contains (blocks_listed (arrays_held store.old.memory store.old.levels)) b
        × (IsOnDisk (D.view disk.old) store.old
        → IsDamagedIn (D.view disk.old).content store.old.memory store.old.levels b)
        × ((f g : Image) → Exposes (D.view disk.old) f → Exposes (D.view disk.new) g
        → AgreeOn (blocks_listed (arrays_held store.old.memory store.old.levels)) f g) }
{
    let changes = store.changes();
    let Some((tag, command)) = protocol.ask(changes, body, pairs, out) else {
        return None;
    };
    let reply = store.apply(disk, &command, pairs);
    out.clear();
    protocol.tell(changes, tag, &command, &reply, pairs, out);
    reply.fault()
}

/// Whether a body asks for a change that may empty a region of the journal.
fn may_empty<P: Protocol>(
    protocol: &P,
    store: &Store,
    body: &[u8],
    pairs: &mut PairBuf,
    out: &mut OutBuf,
) -> bool
    ensures none { result ≡ false → store.now.sb.mem ≤ length store.now.log.list
        → AsksNoChange P.speech store.now.memory.changes body.now }
{
    match protocol.ask(store.changes(), body, pairs, out) {
        Some((_tag, command)) => store.may_empty(&command),
        None => false,
    }
}

/// Makes room for one reply more. Before a change that may empty a region of the journal it sends all that are pending: what
/// was sent for a change that was made leaves the run before the change leaves the journal.
fn make_way<P: Protocol, K: Sink>(
    protocol: &P,
    store: &Store,
    body: &[u8],
    pairs: &mut PairBuf,
    out: &mut OutBuf,
    sink: &mut K,
    pending: &mut PendingReplies,
) -> Result<(), Failed>
    ensures ok { OnOk result
        (SendsOrKeeps (K.held sink.old) (K.held sink.new) pending.old pending.new) }
    ensures state { store.now.sb.mem ≤ length store.now.log.list → OnOk result
        ((pending.new ≡ none_pending) ⊎ AsksNoChange P.speech store.now.memory.changes body.now) }
    ensures len { OnOk result (pending.new.count + 1 ≤ 16) }
    ensures room { OnOk result (length pending.new.bytes ≤ 65536) }
    ensures err { OnErr result
        (SendsPrefix (K.held sink.old) (K.held sink.new) pending.old.bytes) }
    ensures cause { CountsFaults (K.faults sink.old) (K.faults sink.new) result }
{
    if may_empty(protocol, store, body, pairs, out) {
        return send_pending(sink, pending);
    }
    make_room(sink, pending, 1)
}

/// Serves the frame in the buffer alone: a change is durable before its reply is pending. Answers what comes next, or how the
/// run ends.
pub(crate) fn serve_alone<P: Protocol, K: Sink, D: Disk>(
    protocol: &P,
    store: &mut Store,
    buffers: &mut Buffers,
    sink: &mut K,
    disk: &mut D,
) -> Result<Next, Ended>
    requires fits { store.old.spent ≡ false }
    requires kept { IsConsistent store.old }
    requires len { IsBody buffers.old.frames.body }
    requires room { AreBytes buffers.old.frames.held }
    ensures ok { (start : Held) (count budget : ℕ) (x y : Streams) (d : D)
        → count ≤ budget → ServesPending P.speech start store.old count
        (waiting next.Frame buffers.old.frames) buffers.old.pending
        (beside x (D.view d)) (world y.left y.source_faults (K.held sink.old) (K.faults sink.old)
        (D.view disk.old) (D.faults disk.old))
        → TurnsTo P.speech result start store.new count budget
        buffers.new.frames buffers.new.pending
        (beside x (D.view d)) (world y.left y.source_faults (K.held sink.new) (K.faults sink.new)
        (D.view disk.new) (D.faults disk.new)) }
    ensures kept { TurnGoesOn result store.new buffers.old.frames buffers.new.frames }
    ensures time { Passes (D.view disk.old) (D.view disk.new) }
    ensures cause { (y : Streams) → TurnHasCause result
        (world y.left y.source_faults (K.held sink.old) (K.faults sink.old)
        (D.view disk.old) (D.faults disk.old))
        (world y.left y.source_faults (K.held sink.new) (K.faults sink.new)
        (D.view disk.new) (D.faults disk.new)) }
{
    let Ok(()) = make_way(
        protocol,
        store,
        buffers.frames.body(),
        &mut buffers.pairs,
        &mut buffers.out,
        sink,
        &mut buffers.pending,
    ) else {
        return Err(Ended::Sink);
    };
    let met = answer_frame(
        protocol,
        store,
        disk,
        buffers.frames.body(),
        &mut buffers.pairs,
        &mut buffers.out,
    );
    buffers.pending.keep(buffers.out.bytes(), 1);
    if let Some(fault) = met {
        return Err(end_run(sink, &mut buffers.pending, Ended::from(fault)));
    }
    Ok(buffers.frames.next())
}

/// Ends a run at a frame that is too long, whose body was not read: sends what the protocol says to one, behind the replies
/// that are pending. Says how the run ends.
pub(crate) fn refuse_long<P: Protocol, K: Sink>(
    protocol: &P,
    sink: &mut K,
    buffers: &mut Buffers,
) -> Ended
    ensures { SendsAtEnd ended.FrameTooLong result (K.held sink.old) (K.held sink.new)
        (K.faults sink.old) (K.faults sink.new)
        (buffers.old.pending.bytes ++ P.speech.too_long) }
{
    let Ok(()) = make_room(sink, &mut buffers.pending, 0) else {
        return Ended::Sink;
    };
    protocol.refuse_long(&mut buffers.pairs, &mut buffers.out);
    buffers.pending.keep(buffers.out.bytes(), 0);
    end_run(sink, &mut buffers.pending, Ended::FrameTooLong)
}
