//! The order of keys, compared eight bytes at a time.

ghost use Rattle.std.specs.Prelude.{◌≡◌, ◌≤◌, length, drop};
ghost use Rattle.strat_base.specs.Order.{key_cmp};

use crate::numbers::get_u64;
use std::cmp::Ordering;

/// How two keys compare whose first `at` bytes are the same: what follows decides, a byte at a time. It is mostly a few bytes,
/// for which the comparison of slices takes longer.
fn rest_order(a: &[u8], b: &[u8], at: usize) -> Ordering
    requires { (at ≤ length a.now) × (at ≤ length b.now) }
    ensures ok { result ≡ key_cmp (drop at a.now) (drop at b.now) }
{
    let mut i = at;
    while i < a.len() && i < b.len() {
        if a[i] != b[i] {
            return a[i].cmp(&b[i]);
        }
        i += 1;
    }
    a.len().cmp(&b.len())
}

/// How two keys compare, byte by byte, a proper prefix first: the order of slices.
///
/// Eight bytes are compared at once, as a number with the highest byte first, and what is left a byte at a time. Inlined,
/// since searches call it for each entry that they look at.
#[inline(always)]
pub fn key_order(a: &[u8], b: &[u8]) -> Ordering
    ensures ok { result ≡ key_cmp a.now b.now }
{
    let mut at = 0;
    while let (Some(x), Some(y)) = (get_u64(a, at), get_u64(b, at)) {
        if x != y {
            return x.cmp(&y);
        }
        at += 8;
    }
    rest_order(a, b, at)
}
