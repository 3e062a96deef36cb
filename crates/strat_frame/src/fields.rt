//! The fields of a body, read from left to right: each answers its value and what follows it.

ghost use Rattle.std.specs.Prelude.{◌≡◌};
ghost use Rattle.strat_base.specs.Finds.{Finds};
ghost use Rattle.strat_frame.specs.Fields.{number_then, counted_then, sole_number, sole_long, cursor_limit_in, version_key_in, version_pair_in, version_range_in, parent_for, parent_then, flag_then};

use strat_base::{get_u8, get_u16, get_u32, get_u64};

/// A byte.
#[tactic(auto, unfolding(crate::specs::Fields::counted_then))]
pub(crate) fn u8_then(bytes: &[u8]) -> Option<(u8, &[u8])>
    ensures { Finds (λ x. (x.0, x.1.now)) result (number_then 1 bytes.now) }
{
    let n = get_u8(bytes, 0)?;
    Some((n, &bytes[1..]))
}

/// A number in two bytes.
pub(crate) fn u16_then(bytes: &[u8]) -> Option<(u16, &[u8])>
    ensures { Finds (λ x. (x.0, x.1.now)) result (number_then 2 bytes.now) }
{
    let n = get_u16(bytes, 0)?;
    Some((n, &bytes[2..]))
}

/// A number in four bytes.
pub(crate) fn u32_then(bytes: &[u8]) -> Option<(u32, &[u8])>
    ensures { Finds (λ x. (x.0, x.1.now)) result (number_then 4 bytes.now) }
{
    let n = get_u32(bytes, 0)?;
    Some((n, &bytes[4..]))
}

/// A number in eight bytes.
fn u64_then(bytes: &[u8]) -> Option<(u64, &[u8])>
    ensures { Finds (λ x. (x.0, x.1.now)) result (number_then 8 bytes.now) }
{
    let n = get_u64(bytes, 0)?;
    Some((n, &bytes[8..]))
}

/// A length in two bytes, and so many bytes.
#[tactic(auto, unfolding(crate::specs::Fields::counted_then))]
pub(crate) fn counted_bytes_then(bytes: &[u8]) -> Option<(&[u8], &[u8])>
    ensures { Finds (λ x. (x.0.now, x.1.now)) result (counted_then bytes.now) }
{
    let (n, rest) = u16_then(bytes)?;
    let n = n as usize;
    if n > rest.len() {
        return None;
    }
    Some(rest.split_at(n))
}

/// A number in four bytes, and nothing behind it.
#[tactic(auto, unfolding(crate::specs::Fields::sole_number, crate::specs::Fields::all_of))]
pub(crate) fn sole_u32(fields: &[u8]) -> Option<u32>
    ensures { result ≡ sole_number fields.now }
{
    let (n, rest) = u32_then(fields)?;
    if rest.is_empty() { Some(n) } else { None }
}

/// A number in eight bytes, and nothing behind it.
#[tactic(auto, unfolding(crate::specs::Fields::sole_long, crate::specs::Fields::all_of))]
pub(crate) fn sole_u64(fields: &[u8]) -> Option<u64>
    ensures { result ≡ sole_long fields.now }
{
    let (n, rest) = u64_then(fields)?;
    if !rest.is_empty() {
        return None;
    }
    Some(n)
}

/// A cursor and a limit, and nothing behind them.
#[tactic(auto, unfolding(crate::specs::Fields::cursor_limit_in, crate::specs::Fields::all_of, crate::specs::Fields::both))]
pub(crate) fn cursor_and_limit(fields: &[u8]) -> Option<(u64, u16)>
    ensures { Finds (λ x. (x.0, x.1)) result (cursor_limit_in fields.now) }
{
    let (cursor, rest) = u64_then(fields)?;
    let (limit, rest) = u16_then(rest)?;
    if !rest.is_empty() {
        return None;
    }
    Some((cursor, limit))
}

/// A version and a key, and nothing behind them.
#[tactic(auto, unfolding(crate::specs::Fields::version_key_in, crate::specs::Fields::all_of, crate::specs::Fields::both))]
pub(crate) fn version_and_key(fields: &[u8]) -> Option<(u32, &[u8])>
    ensures { Finds (λ x. (x.0, x.1.now)) result (version_key_in fields.now) }
{
    let (version, rest) = u32_then(fields)?;
    let (key, rest) = counted_bytes_then(rest)?;
    if !rest.is_empty() {
        return None;
    }
    Some((version, key))
}

/// A version and two fields of bytes, and nothing behind them.
#[tactic(auto, unfolding(crate::specs::Fields::version_pair_in, crate::specs::Fields::all_of, crate::specs::Fields::both))]
pub(crate) fn version_and_two(fields: &[u8]) -> Option<(u32, &[u8], &[u8])>
    ensures { Finds (λ x. ((x.0, x.1.now), x.2.now)) result (version_pair_in fields.now) }
{
    let (version, rest) = u32_then(fields)?;
    let (first, rest) = counted_bytes_then(rest)?;
    let (second, rest) = counted_bytes_then(rest)?;
    if !rest.is_empty() {
        return None;
    }
    Some((version, first, second))
}

/// A version, two bounds and a limit, and nothing behind them.
#[tactic(auto, unfolding(crate::specs::Fields::version_range_in, crate::specs::Fields::all_of, crate::specs::Fields::both))]
pub(crate) fn version_and_range(fields: &[u8]) -> Option<(u32, &[u8], &[u8], u16)>
    ensures { Finds (λ x. (((x.0, x.1.now), x.2.now), x.3)) result (version_range_in fields.now) }
{
    let (version, rest) = u32_then(fields)?;
    let (lo, rest) = counted_bytes_then(rest)?;
    let (hi, rest) = counted_bytes_then(rest)?;
    let (limit, rest) = u16_then(rest)?;
    if !rest.is_empty() {
        return None;
    }
    Some((version, lo, hi, limit))
}

/// A parent by its number, or none where it is the greatest.
fn parent_for(n: u32) -> Option<u32>
    ensures { result ≡ parent_for n }
{
    if n == u32::MAX { None } else { Some(n) }
}

/// A parent's number, or the greatest number where there is none.
#[tactic(auto, unfolding(crate::specs::Fields::parent_then))]
pub(crate) fn parent_then(bytes: &[u8]) -> Option<(Option<u32>, &[u8])>
    ensures { Finds (λ x. (x.0, x.1.now)) result (parent_then bytes.now) }
{
    let (n, rest) = u32_then(bytes)?;
    Some((parent_for(n), rest))
}

/// A yes or no in one byte.
#[tactic(auto, unfolding(crate::specs::Fields::flag_then))]
pub(crate) fn flag_then(bytes: &[u8]) -> Option<(bool, &[u8])>
    ensures { Finds (λ x. (x.0, x.1.now)) result (flag_then bytes.now) }
{
    let (n, rest) = u8_then(bytes)?;
    match n {
        0 => Some((false, rest)),
        1 => Some((true, rest)),
        _ => None,
    }
}
