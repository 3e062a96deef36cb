//! Entries: what a version says of a key.

ghost use Rattle.std.specs.Prelude.{◌≡◌};
ghost use Rattle.strat_base.specs.Order.{entry_cmp};
ghost use Rattle.strat_base.specs.Sizes.{is_key, is_value};

use crate::limits::{KEY_MAX, VALUE_MAX};
use crate::order::key_order;
use std::cmp::Ordering;

/// The number of a version, from 0 in the order in which they were made.
pub type Version = u32;

/// What an entry says of its key.
#[derive(Clone, Copy, Debug, PartialEq, Eq)]
pub enum Val<'a> {
    /// The key is absent from this version on.
    Gone,
    /// The key has this value from this version on.
    Put(&'a [u8]),
}

/// What a version says of a key. It holds for the version's descendants too, until one of them says
/// otherwise.
#[derive(Clone, Copy, Debug, PartialEq, Eq)]
pub struct Entry<'a> {
    pub key: &'a [u8],
    pub version: Version,
    pub val: Val<'a>,
}

/// Whether these bytes may be a key.
pub fn key_ok(key: &[u8]) -> bool
    ensures { result ≡ is_key key.now }
{
    !key.is_empty() && key.len() <= KEY_MAX
}

/// Whether these bytes may be a value.
pub fn value_ok(value: &[u8]) -> bool
    ensures { result ≡ is_value value.now }
{
    value.len() <= VALUE_MAX
}

/// The order of entries in blocks and runs: by key, and among those of one key the newest version first.
#[inline(always)]
pub fn entry_order(a: &Entry<'_>, b: &Entry<'_>) -> Ordering
    ensures { result ≡ entry_cmp a.now.key.now a.now.version b.now.key.now b.now.version }
{
    key_order(a.key, b.key).then(b.version.cmp(&a.version))
}
