//! Replies that wait until they are sent together: sixteen at most.

ghost use Rattle.std.specs.Prelude.{◌≡◌, ◌≤◌, ◌+◌, ◌++◌, [], length, true, IfOk, OnOk, OnErr};
ghost use Rattle.def_crash.specs.Faults.{CountsFaults};
ghost use Rattle.strat_io.specs.Streams.{Appends};
ghost use Rattle.strat_loop.specs.Pending.{SendsAtEnd, SendsOrKeeps, none_pending};
ghost use Rattle.strat_loop.specs.Session.{SendsPrefix};

use std::alloc::Global;
use std::marker::Model;
use strat_base::{Failed, NoMemory};
use strat_io::{Sink, put_all};
use strat_model::Ended;

/// Most replies that are pending.
const MOST: usize = 16;

/// Most bytes of pending replies to which one more is added.
const FEW_BYTES: usize = 65_536;

/// Bytes of pending replies, with room for the largest reply behind the most to which one is added.
const ROOM: usize = 393_996;

/// Bytes of what is sent for a batch: sixteen answers of 1,295 each, as long as the frame of the largest change.
const BATCH_ROOM: usize = 20_720;

/// Pending replies. Its memory is taken by `new`.
#[derive(Drop)]
pub struct PendingReplies {
    bytes: Vec<u8>,
    count: usize,
}

impl Model for PendingReplies {
    ghost use Rattle.std.specs.Prelude.{◌≤◌, vec_capacity};
    ghost use Rattle.strat_loop.specs.Pending.{Pending};

    ghost Value = { Pending };

    ghost view = { λ r. record { bytes = r.bytes.items; count = r.count } };

    ghost invariant = { λ r. 393996 ≤ vec_capacity r.bytes };
}

impl PendingReplies {
    /// None so far.
    pub fn new(alloc: Global) -> Result<PendingReplies, NoMemory>
        ensures ok { IfOk result (λ r. r ≡ none_pending) }
    {
        Ok(PendingReplies {
            bytes: Vec::with_capacity(alloc, ROOM)?,
            count: 0,
        })
    }

    /// Adds the bytes of so many replies.
    pub(crate) fn keep(&mut self, bytes: &[u8], count: usize)
        requires room { length self.old.bytes + length bytes.now ≤ 393996 }
        requires len { self.old.count + count ≤ 16 }
        ensures ok { self.new ≡ record {
          bytes = self.old.bytes ++ bytes.now;
          count = self.old.count + count;
        } }
    {
        self.bytes.extend_from_slice(bytes).unwrap();
        self.count += count;
    }

    /// Forgets them.
    fn clear(&mut self)
        ensures { self.new ≡ none_pending }
    {
        self.bytes.clear();
        self.count = 0;
    }

    /// Their bytes.
    fn bytes(&self) -> &[u8]
        ensures { result.now ≡ self.now.bytes }
    {
        &self.bytes
    }

    /// Whether so many more may be added, of which one may be the largest.
    fn has_room(&self, more: usize) -> bool
        requires { more ≤ 16 }
        ensures len { result ≡ true → self.now.count + more ≤ 16 }
        ensures room { result ≡ true → length self.now.bytes ≤ 65536 }
    {
        self.count <= MOST - more && self.bytes.len() <= FEW_BYTES
    }
}

/// What is sent for the staged changes, once they are durable. Its memory is taken by `new`.
#[derive(Drop)]
pub struct StagedReplies {
    bytes: Vec<u8>,
}

impl Model for StagedReplies {
    ghost use Rattle.std.specs.Prelude.{◌≤◌, ℕ, List, vec_capacity};

    ghost Value = { List ℕ };

    ghost view = { λ r. r.bytes.items };

    ghost invariant = { λ r. 20720 ≤ vec_capacity r.bytes };
}

impl StagedReplies {
    /// None so far.
    pub fn new(alloc: Global) -> Result<StagedReplies, NoMemory>
        ensures ok { IfOk result (λ r. r ≡ []) }
    {
        Ok(StagedReplies {
            bytes: Vec::with_capacity(alloc, BATCH_ROOM)?,
        })
    }

    /// Adds the bytes of an answer.
    pub(crate) fn keep(&mut self, bytes: &[u8])
        requires room { length self.old + length bytes.now ≤ 20720 }
        ensures ok { self.new ≡ self.old ++ bytes.now }
        ensures len { length self.new ≡ length self.old + length bytes.now }
    {
        self.bytes.extend_from_slice(bytes).unwrap();
    }

    /// Forgets them.
    pub(crate) fn clear(&mut self)
        ensures { self.new ≡ [] }
    {
        self.bytes.clear();
    }

    /// Their bytes.
    pub(crate) fn bytes(&self) -> &[u8]
        ensures { result.now ≡ self.now }
    {
        &self.bytes
    }
}

/// Sends the pending replies, in one write where the sink takes all of them at once, and in none where there are none.
#[tactic(auto, using(crate::proofs::SendLemmas::sends_prefix))]
pub(crate) fn send_pending<K: Sink>(
    sink: &mut K,
    pending: &mut PendingReplies,
) -> Result<(), Failed>
    ensures ok { OnOk result (Appends (K.held sink.old) (K.held sink.new) pending.old.bytes) }
    ensures state { OnOk result (pending.new ≡ none_pending) }
    ensures err { OnErr result
        (SendsPrefix (K.held sink.old) (K.held sink.new) pending.old.bytes) }
    ensures cause { CountsFaults (K.faults sink.old) (K.faults sink.new) result }
{
    put_all(sink, pending.bytes())?;
    pending.clear();
    Ok(())
}

/// Makes room for so many replies more, of which one may be the largest: sends those that are pending where they were more
/// than sixteen with these, or are more than 65,536 bytes.
pub(crate) fn make_room<K: Sink>(
    sink: &mut K,
    pending: &mut PendingReplies,
    more: usize,
) -> Result<(), Failed>
    requires len { more ≤ 16 }
    ensures ok { OnOk result
        (SendsOrKeeps (K.held sink.old) (K.held sink.new) pending.old pending.new) }
    ensures len { OnOk result (pending.new.count + more ≤ 16) }
    ensures room { OnOk result (length pending.new.bytes ≤ 65536) }
    ensures err { OnErr result
        (SendsPrefix (K.held sink.old) (K.held sink.new) pending.old.bytes) }
    ensures cause { CountsFaults (K.faults sink.old) (K.faults sink.new) result }
{
    if pending.has_room(more) {
        return Ok(());
    }
    send_pending(sink, pending)
}

/// Sends the pending replies at the end of a run, and says how it ends: as it was to, or by the sink.
pub(crate) fn end_run<K: Sink>(sink: &mut K, pending: &mut PendingReplies, how: Ended) -> Ended
    ensures { SendsAtEnd how result (K.held sink.old) (K.held sink.new)
        (K.faults sink.old) (K.faults sink.new) pending.old.bytes }
{
    match send_pending(sink, pending) {
        Ok(()) => how,
        Err(Failed) => Ended::Sink,
    }
}
