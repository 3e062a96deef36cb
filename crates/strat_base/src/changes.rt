//! Changes of a store, and their bytes in a journal.

ghost use Rattle.std.specs.Prelude.{◌≡◌, ◌+◌, ◌≤◌, ◌∷◌, length, drop, IfSome, IfOk, IsTrue, IsSome};
ghost use Rattle.strat_base.specs.Finds.{Finds};
ghost use Rattle.strat_base.specs.Numbers.{placed, be};
ghost use Rattle.strat_base.specs.Change.{Change as TheChange};
ghost use Rattle.strat_base.specs.Change.{is_lawful, change_bytes, change_of_kind, change_in, change_at, BeginsWithChange};
ghost use Rattle.strat_base.specs.ChangeView.{change_of};

use crate::entries::Version;
use crate::failures::NoMemory;
use crate::fields::{key_of, put_key, put_u8, put_value, value_of};
use crate::numbers::{get_u32, put_u32};
use std::alloc::Global;
use std::marker::Model;

/// A change of a store, whose bytes lie elsewhere.
#[derive(Clone, Copy, Debug, PartialEq, Eq)]
pub enum Change<'a> {
    /// The key has this value at this version.
    Put {
        version: Version,
        key: &'a [u8],
        value: &'a [u8],
    },
    /// The key is gone from this version.
    Delete {
        version: Version,
        key: &'a [u8],
    },
    /// This version has a new child.
    Clone {
        version: Version,
    },
    /// This version is dropped.
    DropVersion {
        version: Version,
    },
}

/// A change that has its bytes itself.
#[derive(Debug, Drop)]
enum Kind {
    Put {
        version: Version,
        key: Vec<u8>,
        value: Vec<u8>,
    },
    Delete {
        version: Version,
        key: Vec<u8>,
    },
    Clone {
        version: Version,
    },
    DropVersion {
        version: Version,
    },
}

/// A change of a store that owns its bytes, seen as a change. Its sizes are lawful.
#[derive(Debug, Drop)]
pub struct OwnedChange {
    kind: Kind,
}

impl Model for OwnedChange {
    ghost use Rattle.std.specs.Prelude.{IsTrue};
    ghost use Rattle.strat_base.specs.Change.{Change, is_lawful};
    ghost use Rattle.strat_base.specs.ChangeView.{owned_of};

    ghost Value = { Change };

    ghost view = { λ c. owned_of c.kind };

    ghost invariant = { λ c. IsTrue (is_lawful (owned_of c.kind)) };
}

/// The fields of a put after its version.
fn put_of(version: Version, fields: &[u8]) -> Option<Change<'_>>
    ensures { Finds change_of result (change_of_kind 1 version fields.now) }
{
    let key = key_of(fields)?;
    let value = value_of(&fields[1 + key.len()..])?;
    Some(Change::Put {
        version,
        key,
        value,
    })
}

/// The change of a kind and a version, whose further fields stand at the front of these bytes.
fn of_kind(kind: u8, version: Version, fields: &[u8]) -> Option<Change<'_>>
    ensures { Finds change_of result (change_of_kind kind version fields.now) }
{
    match kind {
        1 => put_of(version, fields),
        2 => {
            let key = key_of(fields)?;
            Some(Change::Delete { version, key })
        }
        3 => Some(Change::Clone { version }),
        4 => Some(Change::DropVersion { version }),
        _ => None,
    }
}

/// How many bytes a change has in a journal after its record's gate: at most 1,287.
pub fn change_size(c: &Change<'_>) -> usize
    requires { IsTrue (is_lawful (change_of c.now)) }
    ensures ok { result ≡ length (change_bytes (change_of c.now)) }
    ensures room { result ≤ 1287 }
{
    match *c {
        Change::Put {
            version: _,
            key,
            value,
        } => 8 + key.len() + value.len(),
        Change::Delete { version: _, key } => 6 + key.len(),
        Change::Clone { version: _ } => 5,
        Change::DropVersion { version: _ } => 5,
    }
}

/// The change whose bytes stand at the front of these.
#[tactic(auto, unfolding(crate::specs::Change::change_in))]
fn change_from(bytes: &[u8]) -> Option<Change<'_>>
    ensures { Finds change_of result (change_in bytes.now) }
{
    let (kind, rest) = bytes.split_first()?;
    let version = get_u32(rest, 0)?;
    of_kind(*kind, version, &rest[4..])
}

/// The change whose bytes stand at an offset, and the offset after them. Reads those bytes alone, copies
/// none and takes no memory.
pub fn get_change(bytes: &[u8], at: usize) -> Option<(Change<'_>, usize)>
    ensures ok { Finds (λ r. (change_of r.0, r.1)) result (change_at bytes.now at) }
    ensures found { IfSome result (λ r. BeginsWithChange (drop at bytes.now) (change_of r.0)) }
    ensures end { IfSome result (λ r. r.1 ≡ at + length (change_bytes (change_of r.0))) }
    ensures none { (c : TheChange) → BeginsWithChange (drop at bytes.now) c → IsSome result }
{
    if at > bytes.len() {
        return None;
    }
    let change = change_from(&bytes[at..])?;
    Some((change, at + change_size(&change)))
}

/// Writes a kind and a version, and gives the offset after them.
fn put_head(into: &mut [u8], at: usize, kind: u8, version: Version) -> usize
    requires room { at + 5 ≤ length into.old }
    ensures end { result ≡ at + 5 }
    ensures ok { into.new ≡ placed into.old at (kind ∷ be 4 version) }
{
    let at = put_u8(into, at, kind);
    put_u32(into, at, version);
    at + 4
}

/// Writes the bytes of a change from an offset on, and gives the offset after them. Copies key and value
/// once and takes no memory.
pub fn put_change(c: &Change<'_>, into: &mut [u8], at: usize) -> usize
    requires fits { IsTrue (is_lawful (change_of c.now)) }
    requires room { at + length (change_bytes (change_of c.now)) ≤ length into.old }
    ensures end { result ≡ at + length (change_bytes (change_of c.now)) }
    ensures ok { into.new ≡ placed into.old at (change_bytes (change_of c.now)) }
{
    match *c {
        Change::Put {
            version,
            key,
            value,
        } => {
            let at = put_head(into, at, 1, version);
            let at = put_key(into, at, key);
            put_value(into, at, value)
        }
        Change::Delete { version, key } => {
            let at = put_head(into, at, 2, version);
            put_key(into, at, key)
        }
        Change::Clone { version } => put_head(into, at, 3, version),
        Change::DropVersion { version } => put_head(into, at, 4, version),
    }
}

impl OwnedChange {
    /// A copy of a change, with memory for its key and its value.
    pub fn new(alloc: Global, change: &Change<'_>) -> Result<OwnedChange, NoMemory>
        requires { IsTrue (is_lawful (change_of change.now)) }
        ensures ok { IfOk result (λ c. c ≡ change_of change.now) }
    {
        let kind = match *change {
            Change::Put {
                version,
                key,
                value,
            } => Kind::Put {
                version,
                key: Vec::from_slice(alloc, key)?,
                value: Vec::from_slice(alloc, value)?,
            },
            Change::Delete { version, key } => Kind::Delete {
                version,
                key: Vec::from_slice(alloc, key)?,
            },
            Change::Clone { version } => Kind::Clone { version },
            Change::DropVersion { version } => Kind::DropVersion { version },
        };
        Ok(OwnedChange { kind })
    }

    /// The change, as long as this is not moved.
    pub fn as_change(&self) -> Change<'_>
        ensures ok { change_of result ≡ self.now }
        ensures fits { IsTrue (is_lawful self.now) }
    {
        match &self.kind {
            Kind::Put {
                version,
                key,
                value,
            } => Change::Put {
                version: *version,
                key: key.as_slice(),
                value: value.as_slice(),
            },
            Kind::Delete { version, key } => Change::Delete {
                version: *version,
                key: key.as_slice(),
            },
            Kind::Clone { version } => Change::Clone { version: *version },
            Kind::DropVersion { version } => Change::DropVersion { version: *version },
        }
    }
}
