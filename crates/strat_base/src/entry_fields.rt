//! Entries and their bytes in a block: a key after its length in one byte, the version in four, and 0 where
//! the key is gone, or 1 and a value after its length in two.

ghost use Rattle.std.specs.Prelude.{◌≡◌, ◌+◌, ◌≤◌, length, drop, IfSome, IsSome, IsTrue};
ghost use Rattle.strat_base.specs.EntryBytes.{is_markable, fits_fields, mark_field, entry_bytes, mark_in, entry_of_key, entry_in, entry_at, BeginsWithEntry};
ghost use Rattle.strat_base.specs.Entries.{Entry as TheEntry};
ghost use Rattle.strat_base.specs.EntryView.{val_of, entry_of};
ghost use Rattle.strat_base.specs.Finds.{Finds};
ghost use Rattle.strat_base.specs.Numbers.{placed};

use crate::entries::{Entry, Val};
use crate::fields::{key_of, put_key, put_u8, put_value, value_of};
use crate::numbers::{get_u32, put_u32};

/// The mark and the value whose field stands at the front of these bytes.
fn mark_of(bytes: &[u8]) -> Option<Val<'_>>
    ensures { Finds val_of result (mark_in bytes.now) }
{
    let (mark, rest) = bytes.split_first()?;
    match *mark {
        0 => Some(Val::Gone),
        1 => {
            let value = value_of(rest)?;
            Some(Val::Put(value))
        }
        _ => None,
    }
}

/// The entry of a key, whose further fields stand at the front of these bytes.
fn of_key<'a>(key: &'a [u8], fields: &'a [u8]) -> Option<Entry<'a>>
    ensures { Finds entry_of result (entry_of_key key.now fields.now) }
{
    let version = get_u32(fields, 0)?;
    let val = mark_of(&fields[4..])?;
    Some(Entry { key, version, val })
}

/// The entry whose bytes stand at the front of these.
#[tactic(auto, unfolding(crate::specs::EntryBytes::entry_in))]
fn entry_from(bytes: &[u8]) -> Option<Entry<'_>>
    ensures { Finds entry_of result (entry_in bytes.now) }
{
    let key = key_of(bytes)?;
    of_key(key, &bytes[1 + key.len()..])
}

/// How many bytes a mark and its value have.
fn mark_size(val: &Val<'_>) -> usize
    requires { IsTrue (is_markable (val_of val.now)) }
    ensures ok { result ≡ length (mark_field (val_of val.now)) }
    ensures room { result ≤ 1027 }
{
    match *val {
        Val::Gone => 1,
        Val::Put(value) => 3 + value.len(),
    }
}

/// How many bytes an entry has in a block: at most 1,287.
pub fn entry_size(e: &Entry<'_>) -> usize
    requires { IsTrue (fits_fields (entry_of e.now)) }
    ensures ok { result ≡ length (entry_bytes (entry_of e.now)) }
    ensures room { result ≤ 1287 }
{
    5 + e.key.len() + mark_size(&e.val)
}

/// The entry whose bytes stand at an offset, and the offset after them. Reads those bytes alone, copies none
/// and takes no memory.
pub fn get_entry(bytes: &[u8], at: usize) -> Option<(Entry<'_>, usize)>
    ensures ok { Finds (λ r. (entry_of r.0, r.1)) result (entry_at bytes.now at) }
    ensures found { IfSome result (λ r. BeginsWithEntry (drop at bytes.now) (entry_of r.0)) }
    ensures end { IfSome result (λ r. r.1 ≡ at + length (entry_bytes (entry_of r.0))) }
    ensures none { (e : TheEntry) → BeginsWithEntry (drop at bytes.now) e → IsSome result }
{
    if at > bytes.len() {
        return None;
    }
    let entry = entry_from(&bytes[at..])?;
    Some((entry, at + entry_size(&entry)))
}

/// Writes the mark and the value, and gives the offset after them.
fn put_mark(into: &mut [u8], at: usize, val: &Val<'_>) -> usize
    requires fits { IsTrue (is_markable (val_of val.now)) }
    requires room { at + length (mark_field (val_of val.now)) ≤ length into.old }
    ensures end { result ≡ at + length (mark_field (val_of val.now)) }
    ensures ok { into.new ≡ placed into.old at (mark_field (val_of val.now)) }
{
    match *val {
        Val::Gone => put_u8(into, at, 0),
        Val::Put(value) => {
            let at = put_u8(into, at, 1);
            put_value(into, at, value)
        }
    }
}

/// Writes the bytes of an entry from an offset on, and gives the offset after them. Copies key and value once and
/// takes no memory.
pub fn put_entry(e: &Entry<'_>, into: &mut [u8], at: usize) -> usize
    requires fits { IsTrue (fits_fields (entry_of e.now)) }
    requires room { at + length (entry_bytes (entry_of e.now)) ≤ length into.old }
    ensures end { result ≡ at + length (entry_bytes (entry_of e.now)) }
    ensures ok { into.new ≡ placed into.old at (entry_bytes (entry_of e.now)) }
{
    let at = put_key(into, at, e.key);
    put_u32(into, at, e.version);
    put_mark(into, at + 4, &e.val)
}
