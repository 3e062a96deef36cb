//! What a run does with the bodies of frames, whatever they spell.

ghost use Rattle.std.specs.Prelude.{◌≡◌, ◌≤◌, [], length, true, IfSome, IfNone};
ghost use Rattle.strat_model.specs.Answer.{as_told, refusal};
ghost use Rattle.strat_model.specs.Command.{request_of};
ghost use Rattle.strat_model.specs.Request.{Request};
ghost use Rattle.strat_model.specs.Spelling.{has_lawful_sizes};
ghost use Rattle.strat_model.specs.declared.replies.Refusal.TheVariants as why;
ghost use Rattle.strat_loop.specs.Grouping.{TellsMade};
ghost use Rattle.strat_loop.specs.Speech.{Said, Speech, IsDeclined};

use strat_base::PairBuf;
use strat_frame::OutBuf;
use strat_model::{Command, Reply};

/// What bodies ask of a store, and what is sent for them. Each call is given how many changes the store accepted before. The
/// run calls the store itself, so that changes of any protocol become durable together. Only `tell` gets `out` empty.
pub trait Protocol {
    /// What it may say.
    ghost speech: { Speech };

    /// The command that a body asks for, and the tag of its answer. `None` if it asks for nothing. Then what is sent is in
    /// `out`. A run may ask this of one body more than once.
    fn ask<'a>(
        &self,
        changes: u32,
        body: &'a [u8],
        pairs: &mut PairBuf,
        out: &mut OutBuf,
    ) -> Option<(u32, Command<'a>)>
        ensures ok { IfSome result (λ a. speech.Asks changes body.now a.0 (request_of a.1)) }
        ensures fits { IfSome result (λ a. has_lawful_sizes (request_of a.1) ≡ true) }
        ensures none { IfNone result ((said : Said) × IsDeclined speech changes body.now said
            × (said.sent ≡ out.new)) }
        ensures len { length out.new ≤ 328460 };

    /// Writes what is sent for the reply to a command. That to a change that was made is short: sixteen of these wait for
    /// their batch. They are written before the batch is durable, and sent after it.
    fn tell(
        &self,
        changes: u32,
        tag: u32,
        command: &Command<'_>,
        reply: &Reply,
        pairs: &PairBuf,
        out: &mut OutBuf,
    )
        requires none { out.old ≡ [] }
        requires found { reply.now ≡ Reply.Found → length pairs.now ≡ 1 }
        requires fits { has_lawful_sizes (request_of command.now) ≡ true }
        ensures ok { out.new ≡ speech.tells changes tag (request_of command.now)
            (as_told reply.now pairs.now) }
        ensures len { length out.new ≤ 328460 }
        ensures room { TellsMade reply.now → pairs.now ≡ [] → length out.new ≤ 1295 };

    /// Writes what is sent for a change at whose batch the device failed, whatever it asked for.
    fn tell_fault(&self, changes: u32, tag: u32, pairs: &mut PairBuf, out: &mut OutBuf)
        ensures ok { (r : Request)
            → out.new ≡ speech.tells changes tag r (refusal why.DeviceFault) }
        ensures len { length out.new ≤ 328460 };

    /// Writes what is sent for a frame that is too long, whose body was not read. It may be nothing.
    fn refuse_long(&self, pairs: &mut PairBuf, out: &mut OutBuf)
        ensures ok { out.new ≡ speech.too_long }
        ensures len { length out.new ≤ 328460 };
}
