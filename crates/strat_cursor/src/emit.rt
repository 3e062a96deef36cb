//! A turn of a scan: the least key is handled, and its source goes on.

ghost use Rattle.std.specs.Prelude.{◌≡◌, ◌≤◌, ◌<◌, ℕ, ◌+◌, List, length, Some, None, IsTrue, IsSome, OnOk, IsErrOf, vec_capacity};
ghost use Rattle.strat_base.specs.Entries.{Entry as TheEntry};
ghost use Rattle.strat_base.specs.EntryBytes.{fits_fields};
ghost use Rattle.strat_base.specs.EntryView.{entry_of};
ghost use Rattle.strat_base.specs.declared.failures.Fault.TheVariants.{Damaged, Device};
ghost use Rattle.strat_base.specs.declared.limits.TheConstants.{PAIRS_MAX};
ghost use Rattle.def_crash.specs.Faults.{HasCause, ReadsAtMost};
ghost use Rattle.def_crash.specs.Image.{Image};
ghost use Rattle.def_crash.specs.Moments.{Exposes};
ghost use Rattle.strat_merge.specs.Bracket.{IsBracket, IsTournament};
ghost use Rattle.strat_cursor.specs.Contenders.{head_in, AreAtHand};
ghost use Rattle.strat_cursor.specs.Looking.{LooksThrough, NamesNoBlock, HaveOwnIds};
ghost use Rattle.strat_cursor.specs.Queries.{pool_asked, tree_asked, arrays_queried, contenders_asked, AsksSources, StandSettled, StandUpTo};
ghost use Rattle.strat_cursor.specs.Sources.{IsSpent, steps_left, reads_left};
ghost use Rattle.strat_cursor.specs.Emitting.{is_under, TellsValue, HandlesKey, IsLater, sum_over};

use crate::query::Query;
use crate::scan_buffers::SourcePosition;
use crate::sources::{advance, is_after};
use crate::tournament::{Heads, head_in};
use strat_array::Cache;
use strat_base::{Entry, Fault, PairBuf, Val, key_order};
use strat_disk::Disk;
use strat_merge::replay;

/// Whether a key is below hi, where that is not empty.
fn is_under(hi: &[u8], key: &[u8]) -> bool
    ensures ok { result ≡ is_under hi.now key.now }
{
    hi.is_empty() || key_order(key, hi).is_lt()
}

/// Tells the pair of an entry that has a value, or answers that there are `limit` pairs already.
fn tell_value(entry: &Entry<'_>, limit: usize, out: &mut PairBuf) -> bool
    requires fits { IsTrue (fits_fields (entry_of entry.now)) }
    requires room { limit ≤ PAIRS_MAX }
    ensures ok { TellsValue (entry_of entry.now) limit out.old out.new result }
{
    let Val::Put(value) = entry.val else {
        return false;
    };
    if out.len() >= limit {
        return true;
    }
    out.push(entry.key, value);
    false
}

/// Keeps a key as the last one that was handled.
fn remember(last: &mut Vec<u8>, key: &[u8])
    requires fits { length key.now ≤ 255 }
    requires room { 255 ≤ vec_capacity last.old }
    ensures ok { last.new.items ≡ key.now }
    ensures room { 255 ≤ vec_capacity last.new }
{
    last.clear();
    last.extend_from_slice(key).unwrap();
}

/// Handles the entry of the least key: see `HandlesKey`. At most `limit` pairs are told.
fn emit(
    entry: &Entry<'_>,
    hi: &[u8],
    limit: usize,
    last: &mut Vec<u8>,
    out: &mut PairBuf,
) -> Option<bool>
    requires fits { IsTrue (fits_fields (entry_of entry.now)) }
    requires room { limit ≤ PAIRS_MAX }
    requires kept { 255 ≤ vec_capacity last.old }
    ensures ok { HandlesKey (entry_of entry.now) hi.now limit last.old.items last.new.items
        out.old out.new result }
    ensures kept { 255 ≤ vec_capacity last.new }
{
    if !is_after(last, entry.key) {
        return None;
    }
    if !is_under(hi, entry.key) {
        return Some(false);
    }
    if tell_value(entry, limit, out) {
        return Some(true);
    }
    remember(last, entry.key);
    None
}

/// Handles the first entry of the source that leads.
pub(crate) fn emit_head(
    query: &Query<'_>,
    w: usize,
    last: &mut Vec<u8>,
    positions: &[SourcePosition],
    out: &mut PairBuf,
) -> Option<bool>
    requires kept { AreAtHand (pool_asked query.now) query.now.sources.now positions.now }
    requires fits { w < length query.now.sources.now }
    requires found { IsSome (head_in (pool_asked query.now) query.now.sources.now
        positions.now w) }
    requires room { (query.now.limit ≤ PAIRS_MAX) × (255 ≤ vec_capacity last.old) }
    ensures ok { (e : TheEntry) → head_in (pool_asked query.now) query.now.sources.now
        positions.now w ≡ Some e → HandlesKey e query.now.hi.now query.now.limit
        last.old.items last.new.items out.old out.new result }
    ensures fits { (e : TheEntry) → head_in (pool_asked query.now) query.now.sources.now
        positions.now w ≡ Some e → IsTrue (fits_fields e) }
    ensures room { 255 ≤ vec_capacity last.new }
{
    let entry = head_in(query, positions, w).unwrap();
    emit(&entry, query.hi, query.limit, last, out)
}

/// The source that led goes on, and the nodes above its leaf are played again.
pub(crate) fn advance_leader<D: Disk>(
    disk: &mut D,
    cache: &mut Cache,
    query: &Query<'_>,
    w: usize,
    last: &[u8],
    positions: &mut [SourcePosition],
    winners: &mut [usize],
) -> Result<(), Fault>
    requires fits { (query.now.version < length (tree_asked query.now))
        × (w < length query.now.sources.now) }
    requires same { AsksSources query.now }
    requires kept { StandSettled query.now positions.old
        × IsTournament (contenders_asked query.now positions.old) winners.old }
    requires room { IsSpent last.now (head_in (pool_asked query.now)
        query.now.sources.now positions.old w) }
    ensures kept { OnOk result (StandSettled query.now positions.new
        × IsTournament (contenders_asked query.now positions.new) winners.new) }
    ensures len { (length positions.new ≡ length positions.old)
        × IsBracket (length query.now.sources.now) winners.new }
    ensures ok { OnOk result ((f : Image) (lo prev : List ℕ) → Exposes (D.view disk.old) f
        → HaveOwnIds (arrays_queried query.now) → IsLater prev last.now
        → StandUpTo f cache.old query.now lo prev positions.old
        → StandUpTo f cache.new query.now lo last.now positions.new) }
    ensures end { OnOk result ((sum_over (steps_left (pool_asked query.now))
        query.now.sources.now positions.new
        < sum_over (steps_left (pool_asked query.now))
        query.now.sources.now positions.old)
        × (D.reads disk.new + sum_over reads_left query.now.sources.now positions.new
        ≤ D.reads disk.old + sum_over reads_left query.now.sources.now positions.old)) }
    ensures same { LooksThrough (D.view disk.old) (D.view disk.new)
        (arrays_queried query.now) cache.old cache.new }
    ensures damaged { (b : ℕ) → IsErrOf result (Damaged b)
        → NamesNoBlock (D.view disk.old).content (arrays_queried query.now) b }
    ensures cause { HasCause Device (D.faults disk.old) (D.faults disk.new) result }
    ensures reads { ReadsAtMost (sum_over reads_left query.now.sources.now positions.old)
        (D.reads disk.old) (D.reads disk.new) }
{
    let sources = query.sources;
    advance(disk, cache, &sources[w], query, last, &mut positions[w])?;
    replay(&Heads { query, positions }, winners, sources.len() + w);
    Ok(())
}
