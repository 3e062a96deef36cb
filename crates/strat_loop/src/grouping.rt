//! Batches of a serving run: changes whose frames came together become durable together, sixteen at most.

ghost use Rattle.std.specs.Prelude.{◌≡◌, ◌≤◌, ◌<◌, ◌+◌, ◌-◌, ◌*◌, ◌++◌, ℕ, length, slice_get, false, IfSome, IfNone, Some};
ghost use Rattle.strat_base.specs.Numbers.{AreBytes};
ghost use Rattle.def_crash.specs.Moments.{Passes};
ghost use Rattle.strat_memory.specs.Held.{Held, IsConsistent};
ghost use Rattle.strat_model.specs.Answer.{refusal};
ghost use Rattle.strat_model.specs.Request.{Request};
ghost use Rattle.strat_model.specs.Stream.{IsBody};
ghost use Rattle.strat_model.specs.declared.ended.Ended.TheVariants as ended;
ghost use Rattle.strat_model.specs.declared.replies.Refusal.TheVariants as why;
ghost use Rattle.strat_frame.specs.declared.deframer.Next.TheVariants as next;
ghost use Rattle.strat_loop.specs.Grouping.{GathersBatch, StagesBody};
ghost use Rattle.strat_loop.specs.Pending.{SendsAtEnd};
ghost use Rattle.strat_loop.specs.Progress.{TurnGoesOn, ServesPending, TurnHasCause, TurnsTo, waiting};
ghost use Rattle.strat_loop.specs.Speech.{Said};
ghost use Rattle.strat_loop.specs.World.{Streams, beside, world};
ghost use Rattle.strat_store.specs.Staging.{replies_staged};

use crate::answering::{Buffers, serve_alone};
use crate::pending::{StagedReplies, end_run, make_room};
use crate::protocol::Protocol;
use strat_base::PairBuf;
use strat_disk::Disk;
use strat_frame::{Next, OutBuf};
use strat_io::Sink;
use strat_model::{Ended, Reply};
use strat_store::Store;
use strat_store::staging_laws::staging_follows_the_table;

/// What is told of the change that was staged last.
fn last_reply(store: &Store) -> Reply
    requires fits { store.now.spent ≡ false }
    requires found { 0 < length store.now.log.batch }
    ensures found { slice_get (replies_staged store.now) (length store.now.log.batch - 1)
        ≡ Some result }
{
    store.staged_reply(store.staged() - 1)
}

/// Stages the change that a body asks for, and keeps what is sent for it for later: the body's tag is answered. `None` if it
/// asks for no change, or for one that may not be staged; then nothing has changed.
fn stage_body<P: Protocol>(
    protocol: &P,
    store: &mut Store,
    body: &[u8],
    pairs: &mut PairBuf,
    out: &mut OutBuf,
    kept: &mut StagedReplies,
) -> Option<u32>
    requires fits { store.old.spent ≡ false }
    requires room { length kept.old ≤ 1295 * length store.old.log.batch }
    ensures ok { IfSome result (λ tag. (said : Said) × (said.tag ≡ tag)
        × StagesBody P.speech store.old body.now said store.new
        × (kept.new ≡ kept.old ++ said.sent)) }
    ensures none { IfNone result ((store.new ≡ store.old)
        × (kept.new ≡ kept.old)) }
    ensures room { length kept.new ≤ 1295 * length store.new.log.batch }
    ensures state { store.new.spent ≡ false }
{
    let changes = store.changes();
    let Some((tag, command)) = protocol.ask(changes, body, pairs, out) else {
        return None;
    };
    if store.stage(&command) {
        let reply = last_reply(store);
        pairs.clear();
        out.clear();
        protocol.tell(changes, tag, &command, &reply, pairs, out);
        kept.keep(out.bytes());
        return Some(tag);
    }
    None
}

/// Stages the changes of the frames that are held, one after the other. Answers what ended that: a body that is not
/// staged, the end of what is held, or a frame that is too long.
fn stage_frames<P: Protocol>(protocol: &P, store: &mut Store, buffers: &mut Buffers) -> Next
    requires fits { store.old.spent ≡ false }
    requires room { length buffers.old.staged ≤ 1295 * length store.old.log.batch }
    ensures ok { GathersBatch P.speech store.old store.new buffers.old.frames buffers.new.frames
        result buffers.old.staged buffers.new.staged }
    ensures fits { AreBytes buffers.new.frames.held }
    ensures room { length buffers.new.staged ≤ 1295 * length store.new.log.batch }
    ensures same { buffers.new.pending ≡ buffers.old.pending }
    ensures state { store.new.spent ≡ false }
{
    loop {
        match buffers.frames.next() {
            Next::Frame => {
                let staged = stage_body(
                    protocol,
                    store,
                    buffers.frames.body(),
                    &mut buffers.pairs,
                    &mut buffers.out,
                    &mut buffers.staged,
                );
                if staged.is_none() {
                    return Next::Frame;
                }
            }
            met => return met,
        }
    }
}

/// Ends a run at a batch that the device failed: answers so under the tag of its first change, behind the replies that are
/// pending. Says how the run ends.
fn refuse_batch<P: Protocol, K: Sink>(
    protocol: &P,
    sink: &mut K,
    changes: u32,
    tag: u32,
    buffers: &mut Buffers,
) -> Ended
    requires len { buffers.old.pending.count + 1 ≤ 16 }
    requires room { length buffers.old.pending.bytes ≤ 65536 }
    ensures { (r : Request) → SendsAtEnd ended.Device result (K.held sink.old) (K.held sink.new)
        (K.faults sink.old) (K.faults sink.new) (buffers.old.pending.bytes
        ++ P.speech.tells changes tag r (refusal why.DeviceFault)) }
{
    protocol.tell_fault(changes, tag, &mut buffers.pairs, &mut buffers.out);
    buffers.pending.keep(buffers.out.bytes(), 1);
    end_run(sink, &mut buffers.pending, Ended::Device)
}

/// Makes changes durable together: that of the frame in the buffer, and those of the frames held after it, sixteen at
/// most. Two writes and two syncs, whatever their number. Their replies are pending once they are durable. Answers what
/// comes after them, or how the run ends. If the device fails, DeviceFault is sent to the first change alone. `None`: the
/// body in the buffer is not staged, and nothing has changed.
fn serve_group<P: Protocol, K: Sink, D: Disk>(
    protocol: &P,
    store: &mut Store,
    buffers: &mut Buffers,
    sink: &mut K,
    disk: &mut D,
) -> Option<Result<Next, Ended>>
    requires fits { store.old.spent ≡ false }
    requires kept { IsConsistent store.old }
    requires len { IsBody buffers.old.frames.body }
    requires room { AreBytes buffers.old.frames.held }
    ensures ok { IfSome result (λ turn. (start : Held) (count budget : ℕ) (x y : Streams) (d : D)
        → count ≤ budget → ServesPending P.speech start store.old count
        (waiting next.Frame buffers.old.frames) buffers.old.pending
        (beside x (D.view d)) (world y.left y.source_faults (K.held sink.old) (K.faults sink.old)
        (D.view disk.old) (D.faults disk.old))
        → TurnsTo P.speech turn start store.new count budget
        buffers.new.frames buffers.new.pending
        (beside x (D.view d)) (world y.left y.source_faults (K.held sink.new) (K.faults sink.new)
        (D.view disk.new) (D.faults disk.new))) }
    ensures kept { IfSome result (λ turn.
        TurnGoesOn turn store.new buffers.old.frames buffers.new.frames) }
    ensures none { IfNone result ((store.new ≡ store.old)
        × (buffers.new.frames ≡ buffers.old.frames) × (buffers.new.pending ≡ buffers.old.pending)
        × (sink.new ≡ sink.old) × (disk.new ≡ disk.old)) }
    ensures time { Passes (D.view disk.old) (D.view disk.new) }
    ensures cause { IfSome result (λ turn. (y : Streams) → TurnHasCause turn
        (world y.left y.source_faults (K.held sink.old) (K.faults sink.old)
        (D.view disk.old) (D.faults disk.old))
        (world y.left y.source_faults (K.held sink.new) (K.faults sink.new)
        (D.view disk.new) (D.faults disk.new))) }
{
    buffers.staged.clear();
    let before = store.changes();
    let first = stage_body(
        protocol,
        store,
        buffers.frames.body(),
        &mut buffers.pairs,
        &mut buffers.out,
        &mut buffers.staged,
    )?;
    let met = stage_frames(protocol, store, buffers);
    let many = store.staged();
    let Ok(()) = make_room(sink, &mut buffers.pending, many) else {
        return Some(Err(Ended::Sink));
    };
    staging_follows_the_table::<D>();
    if store.commit(disk).is_err() {
        return Some(Err(refuse_batch(protocol, sink, before, first, buffers)));
    }
    buffers.pending.keep(buffers.staged.bytes(), many);
    Some(Ok(met))
}

/// Serves the frame in the buffer: together with the changes of frames held after it, or alone. Its reply is pending then,
/// as those are to the frames before it, sixteen at most. Answers what comes next, or how the run ends.
pub(crate) fn serve_turn<P: Protocol, K: Sink, D: Disk>(
    protocol: &P,
    store: &mut Store,
    buffers: &mut Buffers,
    sink: &mut K,
    disk: &mut D,
) -> Result<Next, Ended>
    requires fits { store.old.spent ≡ false }
    requires kept { IsConsistent store.old }
    requires len { IsBody buffers.old.frames.body }
    requires room { AreBytes buffers.old.frames.held }
    ensures ok { (start : Held) (count budget : ℕ) (x y : Streams) (d : D)
        → count ≤ budget → ServesPending P.speech start store.old count
        (waiting next.Frame buffers.old.frames) buffers.old.pending
        (beside x (D.view d)) (world y.left y.source_faults (K.held sink.old) (K.faults sink.old)
        (D.view disk.old) (D.faults disk.old))
        → TurnsTo P.speech result start store.new count budget
        buffers.new.frames buffers.new.pending
        (beside x (D.view d)) (world y.left y.source_faults (K.held sink.new) (K.faults sink.new)
        (D.view disk.new) (D.faults disk.new)) }
    ensures kept { TurnGoesOn result store.new buffers.old.frames buffers.new.frames }
    ensures time { Passes (D.view disk.old) (D.view disk.new) }
    ensures cause { (y : Streams) → TurnHasCause result
        (world y.left y.source_faults (K.held sink.old) (K.faults sink.old)
        (D.view disk.old) (D.faults disk.old))
        (world y.left y.source_faults (K.held sink.new) (K.faults sink.new)
        (D.view disk.new) (D.faults disk.new)) }
{
    match serve_group(protocol, store, buffers, sink, disk) {
        Some(turn) => turn,
        None => serve_alone(protocol, store, buffers, sink, disk),
    }
}
