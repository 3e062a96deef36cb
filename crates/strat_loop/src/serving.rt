//! The run of a protocol over the store of a disk.

ghost use Rattle.std.specs.Prelude.{◌≡◌, ◌≢◌, ◌<◌, ◌≤◌, ◌+◌, ℕ, List, Option, length, take, [], IfOk, IfErr, IfSome, IfNone, OnErr, false};
ghost use Rattle.def_crash.specs.Faults.{CountsFaults};
ghost use Rattle.def_crash.specs.Moments.{Passes};
ghost use Rattle.strat_memory.specs.Held.{IsConsistent};
ghost use Rattle.strat_loop.specs.Pending.{none_pending};
ghost use Rattle.strat_loop.specs.Session.{Took, IsAtEnd, GaveUp, RefusesFor, IsEarlyEnd, EndHasCause, HasOpened};
ghost use Rattle.strat_loop.specs.Spoken.{ServedBy, SpokenOutcome};
ghost use Rattle.strat_loop.specs.World.{world};

use crate::answering::{Buffers, refuse_long};
use crate::grouping::serve_turn;
use crate::pending::send_pending;
use crate::protocol::Protocol;
use std::alloc::Global;
use strat_base::Failed;
use strat_disk::Disk;
use strat_frame::Next;
use strat_io::{Sink, Source};
use strat_model::Ended;
use strat_store::Store;

/// Most bytes that are read at a time.
const PIECE: usize = 4096;

/// Reads at most so many bytes into the front of a piece.
fn read_piece<S: Source>(source: &mut S, piece: &mut [u8], most: usize) -> Result<usize, Failed>
    requires room { most ≤ length piece.old }
    ensures fits { IfOk result (λ n. n ≤ most) }
    ensures ok { IfOk result (λ n.
        Took (S.left source.old) (S.left source.new) (take n piece.new)) }
    ensures end { IfOk result (λ n. n ≡ 0 → 0 < most → IsAtEnd (S.left source.new)) }
    ensures err { OnErr result (Took (S.left source.old) (S.left source.new) []) }
    ensures cause { CountsFaults (S.faults source.old) (S.faults source.new) result }
{
    let n = source.read(&mut piece[..most])?;
    Ok(n)
}

/// How many bytes may be read next, or none where as many were taken as the budget has.
fn most_next(budget: u64, taken: u64) -> Option<usize>
    requires room { taken ≤ budget }
    ensures none { IfNone result (taken ≡ budget) }
    ensures fits { IfSome result (λ n. (0 < n) × (n ≤ 4096) × (taken + n ≤ budget)) }
{
    if taken == budget {
        return None;
    }
    Some((budget - taken).min(PIECE as u64) as usize)
}

/// How a run ends whose input has ended: within a frame where bytes of one are held.
fn at_end(held: usize) -> Ended
    ensures none { held ≡ 0 → result ≡ Ended.Done }
    ensures end { held ≢ 0 → result ≡ Ended.Truncated }
{
    if held == 0 {
        Ended::Done
    } else {
        Ended::Truncated
    }
}

/// Serves frames of a protocol from a source to a sink over an open store.
#[tactic(auto, using(def_crash::proofs::MomentLemmas::passes_trans))]
fn serve_frames<P: Protocol, S: Source, K: Sink, D: Disk>(
    protocol: &P,
    store: &mut Store,
    buffers: &mut Buffers,
    source: &mut S,
    sink: &mut K,
    disk: &mut D,
    budget: u64,
) -> Ended
    requires none { (buffers.old.frames.held ≡ []) × (buffers.old.pending ≡ none_pending) }
    requires fits { store.old.spent ≡ false }
    requires kept { IsConsistent store.old }
    ensures ok { (d : D) → HasOpened (D.view d) (D.faults d)
        (D.view disk.old) (D.faults disk.old) store.old
        → ServedBy P.speech budget result
        (world (S.left source.old) (S.faults source.old) (K.held sink.old) (K.faults sink.old)
        (D.view d) (D.faults d))
        (world (S.left source.new) (S.faults source.new) (K.held sink.new) (K.faults sink.new)
        (D.view disk.new) (D.faults disk.new)) }
    ensures time { Passes (D.view disk.old) (D.view disk.new) }
    ensures cause { EndHasCause result
        (world (S.left source.old) (S.faults source.old) (K.held sink.old) (K.faults sink.old)
        (D.view disk.old) (D.faults disk.old))
        (world (S.left source.new) (S.faults source.new) (K.held sink.new) (K.faults sink.new)
        (D.view disk.new) (D.faults disk.new)) }
{
    let mut piece = [0; PIECE];
    let mut taken = 0;
    let mut met = Next::NotYet;
    loop {
        match met {
            Next::Frame => match serve_turn(protocol, store, buffers, sink, disk) {
                Ok(next) => met = next,
                Err(how) => return how,
            },
            Next::NotYet => {
                let Ok(()) = send_pending(sink, &mut buffers.pending) else {
                    return Ended::Sink;
                };
                let Some(most) = most_next(budget, taken) else {
                    return Ended::Budget;
                };
                let Ok(n) = read_piece(source, &mut piece, most) else {
                    return Ended::Source;
                };
                if n == 0 {
                    return at_end(buffers.frames.held());
                }
                taken += n as u64;
                buffers.frames.feed(&piece[..n]);
                met = buffers.frames.next();
            }
            Next::TooLong { .. } => return refuse_long(protocol, sink, buffers),
        }
    }
}

/// Serves frames of a protocol from a source to a sink over an open store, as `serve_by` does, with buffers that no run has
/// used. The disk is as the opening left it.
pub fn serve_open<P: Protocol, S: Source, K: Sink, D: Disk>(
    protocol: &P,
    store: &mut Store,
    buffers: &mut Buffers,
    source: &mut S,
    sink: &mut K,
    disk: &mut D,
    budget: u64,
) -> Ended
    requires none { (buffers.old.frames.held ≡ []) × (buffers.old.pending ≡ none_pending) }
    requires fits { store.old.spent ≡ false }
    requires kept { IsConsistent store.old }
    ensures ok { (d : D) → HasOpened (D.view d) (D.faults d)
        (D.view disk.old) (D.faults disk.old) store.old
        → ServedBy P.speech budget result
        (world (S.left source.old) (S.faults source.old) (K.held sink.old) (K.faults sink.old)
        (D.view d) (D.faults d))
        (world (S.left source.new) (S.faults source.new) (K.held sink.new) (K.faults sink.new)
        (D.view disk.new) (D.faults disk.new)) }
    ensures found { (d : D) → HasOpened (D.view d) (D.faults d)
        (D.view disk.old) (D.faults disk.old) store.old
        → RefusesFor result (D.view d) (D.view disk.new) }
    ensures end { (d : D) → HasOpened (D.view d) (D.faults d)
        (D.view disk.old) (D.faults disk.old) store.old → IsEarlyEnd result (D.view d) → ⊥ }
    ensures time { Passes (D.view disk.old) (D.view disk.new) }
    ensures cause { EndHasCause result
        (world (S.left source.old) (S.faults source.old) (K.held sink.old) (K.faults sink.old)
        (D.view disk.old) (D.faults disk.old))
        (world (S.left source.new) (S.faults source.new) (K.held sink.new) (K.faults sink.new)
        (D.view disk.new) (D.faults disk.new)) }
{
    serve_frames(protocol, store, buffers, source, sink, disk, budget)
}

/// Opens the store of a disk for a run, or says how a run ends that has none. The cost is that of `Store::attach`.
pub fn open_store<D: Disk>(alloc: Global, disk: &mut D) -> Result<Store, Ended>
    ensures ok { IfOk result (λ s. HasOpened (D.view disk.old) (D.faults disk.old)
        (D.view disk.new) (D.faults disk.new) s × IsConsistent s) }
    ensures err { IfErr result (λ how. (left held : Option (List ℕ)) (n m : ℕ) → GaveUp how
        (world left n held m (D.view disk.old) (D.faults disk.old))
        (world left n held m (D.view disk.new) (D.faults disk.new))) }
    ensures found { IfErr result (λ how. RefusesFor how (D.view disk.old) (D.view disk.new)) }
    ensures time { Passes (D.view disk.old) (D.view disk.new) }
    ensures cause { IfErr result (λ how. (left held : Option (List ℕ)) (n m : ℕ) → EndHasCause how
        (world left n held m (D.view disk.old) (D.faults disk.old))
        (world left n held m (D.view disk.new) (D.faults disk.new))) }
{
    match Store::attach(alloc, disk) {
        Ok(store) => Ok(store),
        Err(fault) => Err(Ended::from(fault)),
    }
}

/// Opens the store on a disk and serves frames of a protocol from a source to a sink, until the source ends or as many bytes
/// were read as the budget has. It takes the memory for frames, pairs and replies before it touches the disk. It reads at
/// most 4,096 bytes at a time, and reads on only when every whole frame before has its reply, and these went out. A reply
/// goes out only when the change that it answers is durable, in one write with those around it: before more than sixteen
/// wait, or more than 65,536 bytes, and before each command that meets a full journal.
#[tactic(auto, using(def_crash::proofs::MomentLemmas::passes_trans))]
pub fn serve_by<P: Protocol, S: Source, K: Sink, D: Disk>(
    alloc: Global,
    protocol: &P,
    source: &mut S,
    sink: &mut K,
    disk: &mut D,
    budget: u64,
) -> Ended
    ensures ok { SpokenOutcome P.speech budget result
        (world (S.left source.old) (S.faults source.old) (K.held sink.old) (K.faults sink.old)
        (D.view disk.old) (D.faults disk.old))
        (world (S.left source.new) (S.faults source.new) (K.held sink.new) (K.faults sink.new)
        (D.view disk.new) (D.faults disk.new)) }
    ensures found { RefusesFor result (D.view disk.old) (D.view disk.new) }
    ensures time { Passes (D.view disk.old) (D.view disk.new) }
    ensures cause { EndHasCause result
        (world (S.left source.old) (S.faults source.old) (K.held sink.old) (K.faults sink.old)
        (D.view disk.old) (D.faults disk.old))
        (world (S.left source.new) (S.faults source.new) (K.held sink.new) (K.faults sink.new)
        (D.view disk.new) (D.faults disk.new)) }
    ensures same { IsEarlyEnd result (D.view disk.old)
        → (source.new ≡ source.old) × (sink.new ≡ sink.old) }
{
    let Ok(mut buffers) = Buffers::new(alloc) else {
        return Ended::NoMemory;
    };
    let mut store = match open_store(alloc, disk) {
        Ok(store) => store,
        Err(how) => return how,
    };
    serve_open(
        protocol,
        &mut store,
        &mut buffers,
        source,
        sink,
        disk,
        budget,
    )
}
