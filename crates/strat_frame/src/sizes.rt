//! The sizes that keys, bounds, values and limits of a command may have.

ghost use Rattle.std.specs.Prelude.{◌≡◌};
ghost use Rattle.strat_base.specs.Finds.{Finds};
ghost use Rattle.strat_model.specs.Command.{request_of};
ghost use Rattle.strat_model.specs.Spelling.{is_bound, is_limit, has_lawful_keys, has_lawful_value, has_lawful_limit, size_refusal};
ghost use Rattle.strat_frame.specs.Faults.{refusal_for};

use crate::commands::BodyFault;
use strat_base::limits::{KEY_MAX, PAIRS_MAX};
use strat_base::{key_ok, value_ok};
use strat_model::Command;

/// Whether these bytes may be a bound of a range.
fn bound_ok(bound: &[u8]) -> bool
    ensures { result ≡ is_bound bound.now }
{
    bound.len() <= KEY_MAX
}

/// Whether so many pairs may be asked for.
fn limit_ok(limit: u16) -> bool
    ensures { result ≡ is_limit limit }
{
    limit >= 1 && limit as usize <= PAIRS_MAX
}

/// Whether the key or the bounds of a command may be such.
fn keys_ok(command: &Command<'_>) -> bool
    ensures { result ≡ has_lawful_keys (request_of command.now) }
{
    match *command {
        Command::Put { key, .. } | Command::Delete { key, .. } | Command::Get { key, .. } => {
            key_ok(key)
        }
        Command::Scan { lo, hi, .. } | Command::OpenCursor { lo, hi, .. } => {
            bound_ok(lo) && bound_ok(hi)
        }
        _ => true,
    }
}

/// Whether the value of a command may be one.
fn command_value_ok(command: &Command<'_>) -> bool
    ensures { result ≡ has_lawful_value (request_of command.now) }
{
    match *command {
        Command::Put { value, .. } => value_ok(value),
        _ => true,
    }
}

/// Whether a command may ask for as many pairs as it does.
fn command_limit_ok(command: &Command<'_>) -> bool
    ensures { result ≡ has_lawful_limit (request_of command.now) }
{
    match *command {
        Command::Scan { limit, .. } | Command::NextPairs { limit, .. } => limit_ok(limit),
        _ => true,
    }
}

/// The first that is wrong with the sizes of a command.
pub(crate) fn size_fault(command: &Command<'_>) -> Option<BodyFault>
    ensures { Finds refusal_for result (size_refusal (request_of command.now)) }
{
    if !keys_ok(command) {
        return Some(BodyFault::KeySize);
    }
    if !command_value_ok(command) {
        return Some(BodyFault::ValueSize);
    }
    if !command_limit_ok(command) {
        return Some(BodyFault::ScanSize);
    }
    None
}
