//! Changes with their numbers, as bodies of frames.

ghost use Rattle.std.specs.Prelude.{◌≡◌, IfSome, IfNone, IsTrue, true};
ghost use Rattle.strat_base.specs.Change.{is_lawful};
ghost use Rattle.strat_base.specs.ChangeView.{change_of};
ghost use Rattle.strat_model.specs.Command.{request_of};
ghost use Rattle.strat_model.specs.Spelling.{has_lawful_sizes, tag_of};
ghost use Rattle.def_meaning.specs.StateTable.{request_for};
ghost use Rattle.def_follow.specs.Numbered.{Numbered, SpellsNumbered};

use strat_base::{Change, get_change, get_u32};
use strat_model::Command;

/// The number that a body is answered under: its first four bytes, or 0 if it has fewer.
pub(crate) fn number_of(body: &[u8]) -> u32
    ensures { result ≡ tag_of body.now }
{
    get_u32(body, 0).unwrap_or(0)
}

/// The number and the change of a body, if it has just these. Copies none of it.
pub(crate) fn read_numbered(body: &[u8]) -> Option<(u32, Change<'_>)>
    ensures ok { IfSome result (λ r. SpellsNumbered body.now
        (record { number = r.0; change = change_of r.1 })) }
    ensures none { IfNone result ((n : Numbered) → SpellsNumbered body.now n → ⊥) }
{
    let number = get_u32(body, 0)?;
    let (change, end) = get_change(body, 4)?;
    if end != body.len() {
        return None;
    }
    Some((number, change))
}

/// The command that asks for a change.
pub(crate) fn command_for<'a>(change: &Change<'a>) -> Command<'a>
    requires fits { IsTrue (is_lawful (change_of change.now)) }
    ensures ok { request_of result ≡ request_for (change_of change.now) }
    ensures fits { has_lawful_sizes (request_of result) ≡ true }
{
    match *change {
        Change::Put {
            version,
            key,
            value,
        } => Command::Put {
            version,
            key,
            value,
        },
        Change::Delete { version, key } => Command::Delete { version, key },
        Change::Clone { version } => Command::Clone { version },
        Change::DropVersion { version } => Command::DropVersion { version },
    }
}
