//! Keys and values as fields of changes and entries.

ghost use Rattle.std.specs.Prelude.{◌≡◌, ◌+◌, ◌≤◌, ◌∷◌, [], length, IfSome, IsTrue};
ghost use Rattle.strat_base.specs.Finds.{Finds};
ghost use Rattle.strat_base.specs.Fields.{key_field, value_field, key_in, value_in};
ghost use Rattle.strat_base.specs.Numbers.{placed};
ghost use Rattle.strat_base.specs.Sizes.{is_key, is_value};

use crate::entries::{key_ok, value_ok};
use crate::numbers::{get_u16, put_u16};

/// The key whose field stands at the front of these bytes.
pub(crate) fn key_of(bytes: &[u8]) -> Option<&[u8]>
    ensures found { Finds (λ key. key.now) result (key_in bytes.now) }
    ensures fits { IfSome result (λ key. 1 + length key.now ≤ length bytes.now) }
{
    let (first, rest) = bytes.split_first()?;
    let len = *first as usize;
    if len > rest.len() {
        return None;
    }
    let key = &rest[..len];
    if !key_ok(key) {
        return None;
    }
    Some(key)
}

/// The value whose field stands at the front of these bytes.
pub(crate) fn value_of(bytes: &[u8]) -> Option<&[u8]>
    ensures found { Finds (λ value. value.now) result (value_in bytes.now) }
    ensures fits { IfSome result (λ value. 2 + length value.now ≤ length bytes.now) }
{
    let len = get_u16(bytes, 0)? as usize;
    if len > bytes.len() - 2 {
        return None;
    }
    let value = &bytes[2..2 + len];
    if !value_ok(value) {
        return None;
    }
    Some(value)
}

/// Writes these bytes from an offset on, and gives the offset after them.
pub(crate) fn put_bytes(into: &mut [u8], at: usize, bytes: &[u8]) -> usize
    requires { at + length bytes.now ≤ length into.old }
    ensures end { result ≡ at + length bytes.now }
    ensures ok { into.new ≡ placed into.old at bytes.now }
{
    into[at..at + bytes.len()].copy_from_slice(bytes);
    at + bytes.len()
}

/// Writes a byte at an offset, and gives the offset after it.
pub(crate) fn put_u8(into: &mut [u8], at: usize, n: u8) -> usize
    requires { at + 1 ≤ length into.old }
    ensures end { result ≡ at + 1 }
    ensures ok { into.new ≡ placed into.old at (n ∷ []) }
{
    into[at] = n;
    at + 1
}

/// Writes a key after its length, and gives the offset after it.
pub(crate) fn put_key(into: &mut [u8], at: usize, key: &[u8]) -> usize
    requires fits { IsTrue (is_key key.now) }
    requires room { at + length (key_field key.now) ≤ length into.old }
    ensures end { result ≡ at + length (key_field key.now) }
    ensures ok { into.new ≡ placed into.old at (key_field key.now) }
{
    let at = put_u8(into, at, key.len() as u8);
    put_bytes(into, at, key)
}

/// Writes a value after its length, and gives the offset after it.
pub(crate) fn put_value(into: &mut [u8], at: usize, value: &[u8]) -> usize
    requires fits { IsTrue (is_value value.now) }
    requires room { at + length (value_field value.now) ≤ length into.old }
    ensures end { result ≡ at + length (value_field value.now) }
    ensures ok { into.new ≡ placed into.old at (value_field value.now) }
{
    put_u16(into, at, value.len() as u16);
    put_bytes(into, at + 2, value)
}
