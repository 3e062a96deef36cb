//! A follower: a run that carries out the changes of a leader.

ghost use Rattle.std.specs.Prelude.{◌≡◌, ◌≤◌, IfSome, IfNone, length, true};
ghost use Rattle.def_crash.specs.Moments.{Passes};
ghost use Rattle.strat_model.specs.Answer.{accepts};
ghost use Rattle.strat_model.specs.Command.{request_of};
ghost use Rattle.strat_model.specs.Spelling.{has_lawful_sizes};
ghost use Rattle.def_follow.specs.Following.{fate_for};
ghost use Rattle.strat_loop.specs.Session.{RefusesFor, IsEarlyEnd, EndHasCause};
ghost use Rattle.strat_loop.specs.Speech.{Said};
ghost use Rattle.strat_loop.specs.Spoken.{SpokenOutcome};
ghost use Rattle.strat_loop.specs.World.{world};
ghost use Rattle.strat_follow.specs.Copying.{CopiesLogs};
ghost use Rattle.strat_follow.specs.Follows.{AsksNext, IsPassedBy, follows};
ghost use Rattle.strat_follow.specs.Turns.{fate_seen};

use crate::frames::write_receipt;
use crate::numbers::turn;
use crate::reading::{command_for, number_of, read_numbered};
use crate::receipts::Fate;
use crate::turns::Turn;
use std::alloc::Global;
use strat_base::PairBuf;
use strat_disk::Disk;
use strat_frame::OutBuf;
use strat_io::{Sink, Source};
use strat_loop::{Protocol, serve_by};
use strat_model::{Command, Ended, Refusal, Reply};

/// What becomes of a change that was next, by the reply to it.
fn fate_for(reply: &Reply) -> Fate
    ensures { fate_seen result ≡ fate_for reply.now }
{
    match *reply {
        Reply::Refused(cause) => Fate::Refused(cause),
        _ => Fate::Taken,
    }
}

/// Whether a change that was answered so was carried out.
fn is_taken(reply: &Reply) -> bool
    ensures { result ≡ accepts reply.now }
{
    !matches!(reply, Reply::Refused(_))
}

/// The protocol of a run that follows: each body is a change with its number and gets a receipt.
#[derive(Clone, Copy)]
pub struct Follower;

impl Protocol for Follower {
    ghost use Rattle.strat_follow.specs.Follows.{follows};

    ghost speech = { follows };

    fn ask<'a>(
        &self,
        changes: u32,
        body: &'a [u8],
        _pairs: &mut PairBuf,
        out: &mut OutBuf,
    ) -> Option<(u32, Command<'a>)> {
        out.clear();
        let Some((number, change)) = read_numbered(body) else {
            write_receipt(number_of(body), Fate::Malformed, changes, out);
            return None;
        };
        match turn(changes, number) {
            Turn::Take => {}
            Turn::Old => {
                write_receipt(number, Fate::Old, changes, out);
                return None;
            }
            Turn::Gap => {
                write_receipt(number, Fate::Gap, changes, out);
                return None;
            }
        }
        Some((number, command_for(&change)))
    }

    fn tell(
        &self,
        changes: u32,
        tag: u32,
        _command: &Command<'_>,
        reply: &Reply,
        _pairs: &PairBuf,
        out: &mut OutBuf,
    ) {
        // A store accepts 16,777,216 changes at most, so that this does not wrap.
        let after = changes.wrapping_add(1);
        let next = if is_taken(reply) { after } else { changes };
        write_receipt(tag, fate_for(reply), next, out);
    }

    fn tell_fault(&self, changes: u32, tag: u32, _pairs: &mut PairBuf, out: &mut OutBuf) {
        let fate = Fate::Refused(Refusal::DeviceFault);
        write_receipt(tag, fate, changes, out);
    }

    fn refuse_long(&self, _pairs: &mut PairBuf, out: &mut OutBuf) {
        out.clear();
    }
}

/// Carries out the changes of a leader on the store of a disk, and answers each body with a receipt, until the source ends or
/// as many bytes were read as the budget has. A change is carried out if its number is that of the next change of this store;
/// an older one, or one that comes too early, changes nothing. Frames may so be dropped, repeated or reordered. The cost is
/// that of `serve_by`.
pub fn follow<S: Source, K: Sink, D: Disk>(
    alloc: Global,
    source: &mut S,
    sink: &mut K,
    disk: &mut D,
    budget: u64,
) -> Ended
    ensures ok { SpokenOutcome follows budget result
        (world (S.left source.old) (S.faults source.old) (K.held sink.old) (K.faults sink.old)
        (D.view disk.old) (D.faults disk.old))
        (world (S.left source.new) (S.faults source.new) (K.held sink.new) (K.faults sink.new)
        (D.view disk.new) (D.faults disk.new)) }
    ensures kept { CopiesLogs result
        (world (S.left source.old) (S.faults source.old) (K.held sink.old) (K.faults sink.old)
        (D.view disk.old) (D.faults disk.old))
        (world (S.left source.new) (S.faults source.new) (K.held sink.new) (K.faults sink.new)
        (D.view disk.new) (D.faults disk.new)) }
    ensures found { RefusesFor result (D.view disk.old) (D.view disk.new) }
    ensures time { Passes (D.view disk.old) (D.view disk.new) }
    ensures cause { EndHasCause result
        (world (S.left source.old) (S.faults source.old) (K.held sink.old) (K.faults sink.old)
        (D.view disk.old) (D.faults disk.old))
        (world (S.left source.new) (S.faults source.new) (K.held sink.new) (K.faults sink.new)
        (D.view disk.new) (D.faults disk.new)) }
    ensures same { IsEarlyEnd result (D.view disk.old)
        → (source.new ≡ source.old) × (sink.new ≡ sink.old) }
{
    serve_by(alloc, &Follower, source, sink, disk, budget)
}
