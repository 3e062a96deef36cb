//! Commands as bodies of frames.

ghost use Rattle.std.specs.Prelude.{◌≡◌, ◌+◌, ◌^◌, ◌<◌, ◌≤◌, [], ◌∷◌, ◌++◌, length, IfOk, IfErr, true};
ghost use Rattle.strat_base.specs.Numbers.{be};
ghost use Rattle.strat_model.specs.Command.{request_of};
ghost use Rattle.strat_model.specs.Spelling.{Spells, IsRefusedAs, tag_of, counted, command_bytes, command_body, has_lawful_sizes};
ghost use Rattle.strat_model.specs.Stream.{frame};
ghost use Rattle.strat_base.specs.Finds.{Finds};
ghost use Rattle.strat_frame.specs.Fields.{request_in, command_in};
ghost use Rattle.strat_frame.specs.Faults.{refusal_for};

use crate::buffer::{OutBuf, REPLY_MAX};
use crate::fields::{
    cursor_and_limit, sole_u32, sole_u64, u8_then, u32_then, version_and_key, version_and_range,
    version_and_two,
};
use crate::sizes::size_fault;
use strat_base::get_u32;
use strat_model::Command;

/// What is wrong with a body.
#[derive(Clone, Copy, Debug, PartialEq, Eq)]
pub enum BodyFault {
    /// It is not a tag, an opcode and just that command's fields.
    Malformed,
    /// A key has no byte or too many, or a bound too many.
    KeySize,
    /// A value has too many bytes.
    ValueSize,
    /// A limit is 0 or too great.
    ScanSize,
}

/// The command of opcode 1, by its fields.
#[tactic(auto, unfolding(crate::specs::Fields::request_in))]
fn put_of(fields: &[u8]) -> Option<Command<'_>>
    ensures { Finds request_of result (request_in 1 fields.now) }
{
    let (version, key, value) = version_and_two(fields)?;
    Some(Command::Put {
        version,
        key,
        value,
    })
}

/// The command of opcode 2, by its fields.
#[tactic(auto, unfolding(crate::specs::Fields::request_in))]
fn delete_of(fields: &[u8]) -> Option<Command<'_>>
    ensures { Finds request_of result (request_in 2 fields.now) }
{
    let (version, key) = version_and_key(fields)?;
    Some(Command::Delete { version, key })
}

/// The command of opcode 3, by its fields.
#[tactic(auto, unfolding(crate::specs::Fields::request_in))]
fn get_of(fields: &[u8]) -> Option<Command<'_>>
    ensures { Finds request_of result (request_in 3 fields.now) }
{
    let (version, key) = version_and_key(fields)?;
    Some(Command::Get { version, key })
}

/// The command of opcode 4, by its fields.
#[tactic(auto, unfolding(crate::specs::Fields::request_in))]
fn clone_of(fields: &[u8]) -> Option<Command<'_>>
    ensures { Finds request_of result (request_in 4 fields.now) }
{
    let version = sole_u32(fields)?;
    Some(Command::Clone { version })
}

/// The command of opcode 5, by its fields.
#[tactic(auto, unfolding(crate::specs::Fields::request_in))]
fn scan_of(fields: &[u8]) -> Option<Command<'_>>
    ensures { Finds request_of result (request_in 5 fields.now) }
{
    let (version, lo, hi, limit) = version_and_range(fields)?;
    Some(Command::Scan {
        version,
        lo,
        hi,
        limit,
    })
}

/// The command of opcode 6, by its fields.
#[tactic(auto, unfolding(crate::specs::Fields::request_in))]
fn info_of(fields: &[u8]) -> Option<Command<'_>>
    ensures { Finds request_of result (request_in 6 fields.now) }
{
    let version = sole_u32(fields)?;
    Some(Command::Info { version })
}

/// The command of opcode 7, by its fields.
#[tactic(auto, unfolding(crate::specs::Fields::request_in))]
fn open_of(fields: &[u8]) -> Option<Command<'_>>
    ensures { Finds request_of result (request_in 7 fields.now) }
{
    let (version, lo, hi) = version_and_two(fields)?;
    Some(Command::OpenCursor { version, lo, hi })
}

/// The command of opcode 8, by its fields.
#[tactic(auto, unfolding(crate::specs::Fields::request_in))]
fn next_of(fields: &[u8]) -> Option<Command<'_>>
    ensures { Finds request_of result (request_in 8 fields.now) }
{
    let (cursor, limit) = cursor_and_limit(fields)?;
    Some(Command::NextPairs { cursor, limit })
}

/// The command of opcode 9, by its fields.
#[tactic(auto, unfolding(crate::specs::Fields::request_in))]
fn close_of(fields: &[u8]) -> Option<Command<'_>>
    ensures { Finds request_of result (request_in 9 fields.now) }
{
    let cursor = sole_u64(fields)?;
    Some(Command::CloseCursor { cursor })
}

/// The command of opcode 10, by its fields.
#[tactic(auto, unfolding(crate::specs::Fields::request_in))]
fn stat_of(fields: &[u8]) -> Option<Command<'_>>
    ensures { Finds request_of result (request_in 10 fields.now) }
{
    if !fields.is_empty() {
        return None;
    }
    Some(Command::Stat)
}

/// The command of opcode 11, by its fields.
#[tactic(auto, unfolding(crate::specs::Fields::request_in))]
fn drop_of(fields: &[u8]) -> Option<Command<'_>>
    ensures { Finds request_of result (request_in 11 fields.now) }
{
    let version = sole_u32(fields)?;
    Some(Command::DropVersion { version })
}

/// The command of an opcode, by its fields.
#[tactic(auto, unfolding(crate::specs::Fields::request_in))]
fn request_for(opcode: u8, fields: &[u8]) -> Option<Command<'_>>
    ensures { Finds request_of result (request_in opcode fields.now) }
{
    match opcode {
        1 => put_of(fields),
        2 => delete_of(fields),
        3 => get_of(fields),
        4 => clone_of(fields),
        5 => scan_of(fields),
        6 => info_of(fields),
        7 => open_of(fields),
        8 => next_of(fields),
        9 => close_of(fields),
        10 => stat_of(fields),
        11 => drop_of(fields),
        _ => None,
    }
}

/// A tag and a command, all of the bytes.
#[tactic(auto, unfolding(crate::specs::Fields::command_in))]
fn command_of(body: &[u8]) -> Option<(u32, Command<'_>)>
    ensures { Finds (λ x. (x.0, request_of x.1)) result (command_in body.now) }
{
    let (tag, rest) = u32_then(body)?;
    let (opcode, fields) = u8_then(rest)?;
    let command = request_for(opcode, fields)?;
    Some((tag, command))
}

/// The tag of a body: its first four bytes, or 0 where it has fewer.
fn tag_of(body: &[u8]) -> u32
    ensures { result ≡ tag_of body.now }
{
    get_u32(body, 0).unwrap_or(0)
}

/// The tag and the command of a body, or the tag that its reply has and the first that is wrong with the
/// body: it has the form of no command, or a key, a value or a limit is of a size that none may be. Reads
/// each byte at most once and copies none.
pub fn parse_command(body: &[u8]) -> Result<(u32, Command<'_>), (u32, BodyFault)>
    ensures ok { IfOk result (λ r. Spells body.now r.0 (request_of r.1)) }
    ensures fits { IfOk result (λ r. has_lawful_sizes (request_of r.1) ≡ true) }
    ensures err { IfErr result (λ e. IsRefusedAs body.now e.0 (refusal_for e.1)) }
{
    let Some((tag, command)) = command_of(body) else {
        return Err((tag_of(body), BodyFault::Malformed));
    };
    match size_fault(&command) {
        None => Ok((tag, command)),
        Some(fault) => Err((tag, fault)),
    }
}

/// An opcode and a version.
fn put_version(opcode: u8, version: u32, out: &mut OutBuf)
    requires room { length out.old + 5 ≤ REPLY_MAX }
    ensures ok { out.new ≡ out.old ++ opcode ∷ be 4 version }
    ensures len { length out.new ≡ length out.old + 5 }
{
    out.put_u8(opcode);
    out.put_u32(version);
}

/// An opcode and a cursor's number.
fn put_cursor(opcode: u8, cursor: u64, out: &mut OutBuf)
    requires room { length out.old + 9 ≤ REPLY_MAX }
    ensures ok { out.new ≡ out.old ++ opcode ∷ be 8 cursor }
    ensures len { length out.new ≡ length out.old + 9 }
{
    out.put_u8(opcode);
    out.put_u64(cursor);
}

/// An opcode, a version and a key or a bound.
fn put_key(opcode: u8, version: u32, key: &[u8], out: &mut OutBuf)
    requires fits { length key.now < 2 ^ 16 }
    requires room { length out.old + 7 + length key.now ≤ REPLY_MAX }
    ensures ok { out.new ≡ out.old ++ (opcode ∷ be 4 version ++ counted key.now) }
    ensures len { length out.new ≡ length out.old + 7 + length key.now }
{
    put_version(opcode, version, out);
    out.put_counted(key);
}

/// An opcode, a version and two fields of bytes.
fn put_two(opcode: u8, version: u32, first: &[u8], second: &[u8], out: &mut OutBuf)
    requires fits { (length first.now < 2 ^ 16) × (length second.now < 2 ^ 16) }
    requires room { length out.old + 9 + length first.now + length second.now ≤ REPLY_MAX }
    ensures ok { out.new ≡ out.old ++ (opcode ∷ be 4 version ++ counted first.now
        ++ counted second.now) }
    ensures len { length out.new ≡ length out.old + 9 + length first.now + length second.now }
{
    put_key(opcode, version, first, out);
    out.put_counted(second);
}

/// The opcode and the fields of a command.
fn put_command(command: &Command<'_>, out: &mut OutBuf)
    requires fits { has_lawful_sizes (request_of command.now) ≡ true }
    requires room { length out.old + 4096 ≤ REPLY_MAX }
    ensures ok { out.new ≡ out.old ++ command_bytes (request_of command.now) }
    ensures len { length out.new ≤ length out.old + 4096 }
{
    match *command {
        Command::Put {
            version,
            key,
            value,
        } => put_two(1, version, key, value, out),
        Command::Delete { version, key } => put_key(2, version, key, out),
        Command::Get { version, key } => put_key(3, version, key, out),
        Command::Clone { version } => put_version(4, version, out),
        Command::Scan {
            version,
            lo,
            hi,
            limit,
        } => {
            put_two(5, version, lo, hi, out);
            out.put_u16(limit);
        }
        Command::Info { version } => put_version(6, version, out),
        Command::OpenCursor { version, lo, hi } => put_two(7, version, lo, hi, out),
        Command::NextPairs { cursor, limit } => {
            put_cursor(8, cursor, out);
            out.put_u16(limit);
        }
        Command::CloseCursor { cursor } => put_cursor(9, cursor, out),
        Command::Stat => out.put_u8(10),
        Command::DropVersion { version } => put_version(11, version, out),
    }
}

/// Writes a command's frame: the spelling of these and no others. Takes no memory.
pub fn write_command(tag: u32, command: &Command<'_>, out: &mut OutBuf)
    requires none { out.old ≡ [] }
    requires fits { has_lawful_sizes (request_of command.now) ≡ true }
    ensures ok { out.new ≡ frame (command_body tag (request_of command.now)) }
{
    out.begin(tag);
    put_command(command, out);
    out.end();
}
