//! Whether bytes are a block.

ghost use Rattle.std.specs.Prelude.{◌≡◌, ◌≤◌, length, drop, is_some, IsSome, IfSome, option_map};
ghost use Rattle.strat_base.specs.Entries.{Entry as TheEntry};
ghost use Rattle.strat_base.specs.EntryView.{entry_of};
ghost use Rattle.strat_base.specs.Finds.{Finds};
ghost use Rattle.strat_block.specs.Links.{may_stand_behind, linked_entry, chain_end, are_zeros};
ghost use Rattle.def_bytes.specs.Block.{block_in};

use std::cmp::Ordering;
use strat_base::limits::BLOCK;
use strat_base::{Entry, entry_order, get_entry, get_u16};

/// Whether an entry stands after the one before it, where there is one.
fn follows(before: &Option<Entry<'_>>, e: &Entry<'_>) -> bool
    ensures ok { result ≡ may_stand_behind (option_map entry_of before.now) (entry_of e.now) }
{
    match before {
        None => true,
        Some(d) => entry_order(d, e) == Ordering::Less,
    }
}

/// The i-th entry, where its offset says that it begins at one and it stands after the one before. Gives
/// the offset after it, too.
#[tactic(auto, using(crate::proofs::OffsetLemmas::begins_within))]
fn link<'a>(
    bytes: &'a [u8],
    i: usize,
    at: usize,
    before: &Option<Entry<'a>>,
) -> Option<(Entry<'a>, usize)>
    requires { (i ≤ 65535) × (at ≤ length bytes.now) }
    ensures ok { Finds (λ r. (entry_of r.0, r.1)) result
        (linked_entry bytes.now i at (option_map entry_of before.now)) }
    ensures end { IfSome result (λ r. r.1 ≤ length bytes.now) }
{
    if get_u16(bytes, 2 + 2 * i)? as usize != at {
        return None;
    }
    let (entry, next) = get_entry(bytes, at)?;
    if !follows(before, &entry) {
        return None;
    }
    Some((entry, next))
}

/// Where the last of n entries ends.
fn last_end(bytes: &[u8], n: usize, at: usize) -> Option<usize>
    requires { (n ≤ 65535) × (at ≤ length bytes.now) }
    ensures ok { result ≡ chain_end bytes.now n 0 at None }
    ensures end { IfSome result (λ end. end ≤ length bytes.now) }
{
    let mut at = at;
    let mut before = None;
    for i in 0..n {
        let (entry, next) = link(bytes, i, at, &before)?;
        before = Some(entry);
        at = next;
    }
    Some(at)
}

/// Whether there are only zeros.
fn zeros(bytes: &[u8]) -> bool
    ensures ok { result ≡ are_zeros bytes.now }
{
    bytes.iter().all(|b| *b == 0)
}

/// Whether these bytes are a block: it says how many entries it has, at least one; their offsets follow;
/// then come the entries in order without a gap; and then only zeros. One pass, O(bytes), with no memory taken.
pub fn is_block(bytes: &[u8]) -> bool
    ensures ok { result ≡ is_some (block_in bytes.now) }
{
    if bytes.len() != BLOCK {
        return false;
    }
    let Some(n) = get_u16(bytes, 0) else {
        return false;
    };
    let start = 2 + 2 * n as usize;
    if n == 0 || start > BLOCK {
        return false;
    }
    match last_end(bytes, n as usize, start) {
        Some(end) => zeros(&bytes[end..]),
        None => false,
    }
}
