//! A leader: a run that serves commands and sends its changes.

ghost use Rattle.std.specs.Prelude.{◌≡◌, ◌≤◌, ◌<◌, ◌+◌, List, [], ◌∷◌, drop, length, not, IfSome, OnOk, OnErr, IsTrue};
ghost use Rattle.strat_base.specs.Change.{Change as TheChange};
ghost use Rattle.strat_base.specs.Change.{is_lawful};
ghost use Rattle.strat_base.specs.ChangeView.{change_of};
ghost use Rattle.strat_base.specs.Finds.{Finds};
ghost use Rattle.def_crash.specs.Faults.{CountsFaults};
ghost use Rattle.def_crash.specs.Moments.{Passes};
ghost use Rattle.def_bytes.specs.Records.{records_bytes};
ghost use Rattle.strat_io.specs.Streams.{Appends};
ghost use Rattle.strat_model.specs.Answer.{accepts};
ghost use Rattle.strat_model.specs.Command.{request_of};
ghost use Rattle.strat_memory.specs.Held.{IsConsistent, head_held};
ghost use Rattle.strat_store.specs.Applying.{change_wanted};
ghost use Rattle.strat_loop.specs.Session.{RefusesFor, IsEarlyEnd, EndHasCause, SendsPrefix};
ghost use Rattle.strat_loop.specs.World.{world};
ghost use Rattle.strat_follow.specs.Leading.{LeadOutcome, LeadsTables, journal_frames};
ghost use Rattle.strat_follow.specs.Leads.{change_frames};
ghost use Rattle.strat_follow.specs.Walking.{ArePutTogether, FindsRecord};

use crate::frames::write_numbered;
use std::alloc::Global;
use strat_base::{Change, Failed, PairBuf, get_change};
use strat_disk::Disk;
use strat_frame::{OutBuf, parse_command};
use strat_io::{Sink, Source, put_all};
use strat_loop::{Buffers, Protocol, open_store, serve_open};
use strat_model::{Command, Ended, Reply};
use strat_store::Store;

/// The change that a command asks for, if it asks for one.
fn change_in<'a>(command: &Command<'a>) -> Option<Change<'a>>
    ensures { Finds change_of result (change_wanted (request_of command.now)) }
{
    match *command {
        Command::Put {
            version,
            key,
            value,
        } => Some(Change::Put {
            version,
            key,
            value,
        }),
        Command::Delete { version, key } => Some(Change::Delete { version, key }),
        Command::Clone { version } => Some(Change::Clone { version }),
        Command::DropVersion { version } => Some(Change::DropVersion { version }),
        _ => None,
    }
}

/// Whether a reply is a refusal.
fn is_refused(reply: &Reply) -> bool
    ensures { accepts reply.now ≡ not result }
{
    matches!(reply, Reply::Refused(_))
}

/// The change of the record that stands at an offset, behind its flag, and where the record ends.
fn next_change(records: &[u8], at: usize) -> Option<(Change<'_>, usize)>
    requires fits { at ≤ length records.now }
    ensures ok { IfSome result (λ r. IsTrue (is_lawful (change_of r.0))) }
    ensures len { IfSome result (λ r. r.1 ≤ length records.now) }
    ensures found { (c : TheChange) (rest : List TheChange)
        → drop at records.now ≡ records_bytes (c ∷ rest) → IsTrue (is_lawful c)
        → FindsRecord records.now result c rest }
{
    if at == records.len() {
        return None;
    }
    get_change(records, at + 1)
}

/// The protocol of a run that leads: each body is a command, and each change that was carried out is sent with its number.
#[derive(Clone, Copy)]
pub struct Leader;

impl Protocol for Leader {
    ghost use Rattle.strat_follow.specs.Leads.{leads};

    ghost speech = { leads };

    fn ask<'a>(
        &self,
        _changes: u32,
        body: &'a [u8],
        _pairs: &mut PairBuf,
        out: &mut OutBuf,
    ) -> Option<(u32, Command<'a>)> {
        out.clear();
        match parse_command(body) {
            Ok(asked) => Some(asked),
            Err(_) => None,
        }
    }

    fn tell(
        &self,
        changes: u32,
        _tag: u32,
        command: &Command<'_>,
        reply: &Reply,
        _pairs: &PairBuf,
        out: &mut OutBuf,
    ) {
        if is_refused(reply) {
            return;
        }
        if let Some(change) = change_in(command) {
            write_numbered(changes, &change, out);
        }
    }

    fn tell_fault(&self, _changes: u32, _tag: u32, _pairs: &mut PairBuf, out: &mut OutBuf) {
        out.clear();
    }

    fn refuse_long(&self, _pairs: &mut PairBuf, out: &mut OutBuf) {
        out.clear();
    }
}

/// Sends the frame of a change with its number.
fn send_numbered<K: Sink>(
    number: u32,
    change: &Change<'_>,
    sink: &mut K,
    out: &mut OutBuf,
) -> Result<(), Failed>
    requires fits { IsTrue (is_lawful (change_of change.now)) }
    ensures ok { OnOk result (Appends (K.held sink.old) (K.held sink.new)
        (change_frames number (change_of change.now ∷ []))) }
    ensures err { OnErr result (SendsPrefix (K.held sink.old) (K.held sink.new)
        (change_frames number (change_of change.now ∷ []))) }
    ensures cause { CountsFaults (K.faults sink.old) (K.faults sink.new) result }
{
    write_numbered(number, change, out);
    put_all(sink, out.bytes())?;
    Ok(())
}

/// Sends the changes of so many records, numbered from a first one on: one write a change, unless the sink takes less.
fn send_records<K: Sink>(
    records: &[u8],
    first: u32,
    count: u32,
    sink: &mut K,
    out: &mut OutBuf,
) -> Result<(), Failed>
    requires fits { first + count < 4294967296 }
    ensures ok { OnOk result ((list : List TheChange) → ArePutTogether records.now count list
        → Appends (K.held sink.old) (K.held sink.new) (change_frames first list)) }
    ensures err { OnErr result ((list : List TheChange) → ArePutTogether records.now count list
        → SendsPrefix (K.held sink.old) (K.held sink.new) (change_frames first list)) }
    ensures cause { CountsFaults (K.faults sink.old) (K.faults sink.new) result }
{
    let mut at = 0;
    for i in 0..count {
        // A record is a flag and a change.
        let Some((change, end)) = next_change(records, at) else {
            return Ok(());
        };
        send_numbered(first + i, &change, sink, out)?;
        at = end;
    }
    Ok(())
}

/// Sends the changes of a store's journal with their numbers.
fn send_journal<K: Sink>(store: &Store, sink: &mut K, out: &mut OutBuf) -> Result<(), Failed>
    requires kept { IsConsistent store.now }
    ensures ok { OnOk result (Appends (K.held sink.old) (K.held sink.new)
        (journal_frames (head_held store.now))) }
    ensures err { OnErr result (SendsPrefix (K.held sink.old) (K.held sink.new)
        (journal_frames (head_held store.now))) }
    ensures cause { CountsFaults (K.faults sink.old) (K.faults sink.new) result }
{
    let (active, later) = store.journal_counts();
    let first = store.changes() - (active + later);
    let (front, behind) = store.journal_records();
    send_records(front, first, active, sink, out)?;
    send_records(behind, first + active, later, sink, out)?;
    Ok(())
}

/// Serves commands on the store of a disk and sends, in place of replies, each change that was carried out, with its number,
/// once it is durable. Before it reads anything it sends the changes of the journal: those of the last run that may not have
/// been sent are among them. A body that is no command, or asks for no change, gets nothing. The cost is that of `serve_by`,
/// and one write for each change of the journal.
#[tactic(auto, using(def_crash::proofs::MomentLemmas::passes_trans))]
pub fn lead<S: Source, K: Sink, D: Disk>(
    alloc: Global,
    source: &mut S,
    sink: &mut K,
    disk: &mut D,
    budget: u64,
) -> Ended
    ensures ok { LeadOutcome budget result
        (world (S.left source.old) (S.faults source.old) (K.held sink.old) (K.faults sink.old)
        (D.view disk.old) (D.faults disk.old))
        (world (S.left source.new) (S.faults source.new) (K.held sink.new) (K.faults sink.new)
        (D.view disk.new) (D.faults disk.new)) }
    ensures kept { LeadsTables budget result
        (world (S.left source.old) (S.faults source.old) (K.held sink.old) (K.faults sink.old)
        (D.view disk.old) (D.faults disk.old))
        (world (S.left source.new) (S.faults source.new) (K.held sink.new) (K.faults sink.new)
        (D.view disk.new) (D.faults disk.new)) }
    ensures found { RefusesFor result (D.view disk.old) (D.view disk.new) }
    ensures time { Passes (D.view disk.old) (D.view disk.new) }
    ensures cause { EndHasCause result
        (world (S.left source.old) (S.faults source.old) (K.held sink.old) (K.faults sink.old)
        (D.view disk.old) (D.faults disk.old))
        (world (S.left source.new) (S.faults source.new) (K.held sink.new) (K.faults sink.new)
        (D.view disk.new) (D.faults disk.new)) }
    ensures same { IsEarlyEnd result (D.view disk.old)
        → (source.new ≡ source.old) × (sink.new ≡ sink.old) }
{
    let Ok(mut buffers) = Buffers::new(alloc) else {
        return Ended::NoMemory;
    };
    let mut store = match open_store(alloc, disk) {
        Ok(store) => store,
        Err(how) => return how,
    };
    let Ok(()) = send_journal(&store, sink, &mut buffers.out) else {
        return Ended::Sink;
    };
    serve_open(
        &Leader,
        &mut store,
        &mut buffers,
        source,
        sink,
        disk,
        budget,
    )
}
