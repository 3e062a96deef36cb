//! Commands and replies, as a protocol.

ghost use Rattle.std.specs.Prelude.{◌≡◌};
ghost use Rattle.strat_frame.specs.Faults.{refusal_for};

use strat_base::PairBuf;
use strat_frame::{BodyFault, OutBuf, parse_command, write_reply};
use strat_loop::Protocol;
use strat_model::{Command, Refusal, Reply};

/// How a body that is no command is refused.
fn refusal_of(fault: BodyFault) -> Refusal
    ensures { result ≡ refusal_for fault }
{
    match fault {
        BodyFault::Malformed => Refusal::Malformed,
        BodyFault::KeySize => Refusal::KeySize,
        BodyFault::ValueSize => Refusal::ValueSize,
        BodyFault::ScanSize => Refusal::ScanSize,
    }
}

/// The protocol of a run that serves: each body is a command and gets a reply.
#[derive(Clone, Copy)]
pub struct Replies;

impl Protocol for Replies {
    ghost use Rattle.strat_serve.specs.Replying.{replies};

    ghost speech = { replies };

    fn ask<'a>(
        &self,
        _changes: u32,
        body: &'a [u8],
        pairs: &mut PairBuf,
        out: &mut OutBuf,
    ) -> Option<(u32, Command<'a>)> {
        out.clear();
        match parse_command(body) {
            Ok(asked) => Some(asked),
            Err((tag, fault)) => {
                pairs.clear();
                let reply = Reply::Refused(refusal_of(fault));
                write_reply(tag, &reply, pairs, out);
                None
            }
        }
    }

    fn tell(
        &self,
        _changes: u32,
        tag: u32,
        _command: &Command<'_>,
        reply: &Reply,
        pairs: &PairBuf,
        out: &mut OutBuf,
    ) {
        write_reply(tag, reply, pairs, out);
    }

    fn tell_fault(&self, _changes: u32, tag: u32, pairs: &mut PairBuf, out: &mut OutBuf) {
        out.clear();
        pairs.clear();
        let reply = Reply::Refused(Refusal::DeviceFault);
        write_reply(tag, &reply, pairs, out);
    }

    fn refuse_long(&self, pairs: &mut PairBuf, out: &mut OutBuf) {
        out.clear();
        pairs.clear();
        let reply = Reply::Refused(Refusal::FrameTooLong);
        write_reply(0, &reply, pairs, out);
    }
}
