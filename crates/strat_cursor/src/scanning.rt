//! The first pairs of a range.

ghost use Rattle.std.specs.Prelude.{◌≡◌, ◌≤◌, ◌<◌, ◌++◌, ℕ, ◌+◌, ◌*◌, List, sum_by, [], length, vec_capacity, true, IfOk, OnOk, OnErr, IsErrOf};
ghost use Rattle.strat_base.specs.declared.failures.Fault.TheVariants.{Damaged, Device};
ghost use Rattle.def_crash.specs.Faults.{HasCause, ReadsAtMost};
ghost use Rattle.def_crash.specs.Image.{Image};
ghost use Rattle.def_crash.specs.Moments.{Exposes};
ghost use Rattle.strat_merge.specs.Bracket.{IsBracket};
ghost use Rattle.strat_model.specs.Pairs.{Pairs};
ghost use Rattle.strat_cursor.specs.Ahead.{range_after};
ghost use Rattle.strat_cursor.specs.Queries.{tree_asked, arrays_queried, AsksSources, IsUnderWay, StandSettled, StandUpTo, reads_ahead, steps_ahead};
ghost use Rattle.strat_cursor.specs.Sources.{reads_of_source, reads_to_seek};
ghost use Rattle.strat_cursor.specs.ScanRoom.{HasScanRoom};
ghost use Rattle.strat_cursor.specs.Looking.{LooksThrough, NamesNoBlock, HaveOwnIds, HaveFewBlocks, ReadsArrays};
ghost use Rattle.strat_cursor.specs.Ranges.{FillsPage, IsMapSeen, IsPageOf};
ghost use Rattle.strat_cursor.specs.Views.{ViewStands, IsReadable, TellsPage, arrays_read, zeros_in};

use crate::emit::{advance_leader, emit_head};
use crate::picking::pick;
use crate::query::Query;
use crate::scan_buffers::{ScanBuffers, SourcePosition};
use crate::sources::begin;
use crate::tournament::{Heads, seat};
use crate::view::View;
use strat_array::Cache;
use strat_base::{Fault, PairBuf, Version};
use strat_disk::Disk;
use strat_merge::{leader, play_all};

/// Lets each source stand at its first entry that is due. What `begin` costs, for each.
fn begin_all<D: Disk>(
    disk: &mut D,
    cache: &mut Cache,
    query: &Query<'_>,
    positions: &mut [SourcePosition],
) -> Result<(), Fault>
    requires fits { query.now.version < length (tree_asked query.now) }
    requires same { AsksSources query.now }
    requires room { length positions.old ≡ length query.now.sources.now }
    ensures kept { OnOk result (StandSettled query.now positions.new) }
    ensures len { length positions.new ≡ length positions.old }
    ensures ok { OnOk result ((f : Image) (next : ℕ) → Exposes (D.view disk.old) f
        → IsReadable f next query.now.view.now query.now.version cache.old
        → StandUpTo f cache.new query.now query.now.lo.now [] positions.new) }
    ensures same { LooksThrough (D.view disk.old) (D.view disk.new)
        (arrays_queried query.now) cache.old cache.new }
    ensures damaged { (b : ℕ) → IsErrOf result (Damaged b)
        → NamesNoBlock (D.view disk.old).content (arrays_queried query.now) b }
    ensures cause { HasCause Device (D.faults disk.old) (D.faults disk.new) result }
    ensures reads { (n : ℕ) → HaveFewBlocks n (arrays_queried query.now)
        → ReadsAtMost (sum_by (reads_of_source (reads_to_seek query.now.lo.now n))
        query.now.sources.now) (D.reads disk.old) (D.reads disk.new) }
    ensures room { OnOk result ((n : ℕ) → HaveFewBlocks n (arrays_queried query.now)
        → D.reads disk.new + reads_ahead query.now positions.new
        ≤ D.reads disk.old
        + sum_by (reads_of_source (reads_to_seek query.now.lo.now n)) query.now.sources.now) }
{
    let sources = query.sources;
    for i in 0..sources.len() {
        begin(disk, cache, &sources[i], query, &mut positions[i])?;
    }
    Ok(())
}

/// Lets each source stand at its first entry that is due, and plays the tournament of them. What `begin_all` costs, and
/// O(sources) comparisons of keys.
pub(crate) fn begin_contest<D: Disk>(
    disk: &mut D,
    cache: &mut Cache,
    query: &Query<'_>,
    positions: &mut [SourcePosition],
    winners: &mut [usize],
) -> Result<(), Fault>
    requires fits { query.now.version < length (tree_asked query.now) }
    requires same { AsksSources query.now }
    requires room { (length positions.old ≡ length query.now.sources.now)
        × (length winners.old ≡ 2 * length query.now.sources.now) }
    ensures kept { OnOk result (IsUnderWay query.now positions.new winners.new) }
    ensures len { (length positions.new ≡ length positions.old)
        × (length winners.new ≡ length winners.old) }
    ensures ok { OnOk result ((f : Image) (next : ℕ) → Exposes (D.view disk.old) f
        → IsReadable f next query.now.view.now query.now.version cache.old
        → StandUpTo f cache.new query.now query.now.lo.now [] positions.new) }
    ensures same { LooksThrough (D.view disk.old) (D.view disk.new)
        (arrays_queried query.now) cache.old cache.new }
    ensures damaged { (b : ℕ) → IsErrOf result (Damaged b)
        → NamesNoBlock (D.view disk.old).content (arrays_queried query.now) b }
    ensures cause { HasCause Device (D.faults disk.old) (D.faults disk.new) result }
    ensures reads { (n : ℕ) → HaveFewBlocks n (arrays_queried query.now)
        → ReadsAtMost (sum_by (reads_of_source (reads_to_seek query.now.lo.now n))
        query.now.sources.now) (D.reads disk.old) (D.reads disk.new) }
    ensures room { OnOk result ((n : ℕ) → HaveFewBlocks n (arrays_queried query.now)
        → D.reads disk.new + reads_ahead query.now positions.new
        ≤ D.reads disk.old
        + sum_by (reads_of_source (reads_to_seek query.now.lo.now n)) query.now.sources.now) }
{
    begin_all(disk, cache, query, positions)?;
    seat(winners, query.sources.len());
    play_all(&Heads { query, positions }, winners);
    Ok(())
}

/// Tells the pairs that are to come, and answers whether there are others than those that may be told. Each turn
/// handles one entry that is due at some source: O(log sources) comparisons of keys, and what `advance` costs.
pub(crate) fn tell_all<D: Disk>(
    disk: &mut D,
    cache: &mut Cache,
    query: &Query<'_>,
    last: &mut Vec<u8>,
    positions: &mut [SourcePosition],
    winners: &mut [usize],
    out: &mut PairBuf,
) -> Result<bool, Fault>
    requires fits { query.now.version < length (tree_asked query.now) }
    requires same { AsksSources query.now }
    requires kept { IsUnderWay query.now positions.old winners.old }
    requires room { (query.now.limit ≤ 256) × (255 ≤ vec_capacity last.old)
        × (length out.old ≤ query.now.limit) }
    ensures ok { IfOk result (λ more. (f : Image) (lo : List ℕ) (m : Pairs)
        → Exposes (D.view disk.old) f → HaveOwnIds (arrays_queried query.now)
        → StandUpTo f cache.old query.now lo last.old.items positions.old
        → IsMapSeen f (tree_asked query.now) (zeros_in query.now.view.now)
        (arrays_queried query.now) query.now.version m
        → IsPageOf (out.old ++ range_after m lo query.now.hi.now last.old.items)
        query.now.limit out.new more
        × (more ≡ true → StandUpTo f cache.new query.now lo last.new.items positions.new
        × (out.old ++ range_after m lo query.now.hi.now last.old.items
        ≡ out.new ++ range_after m lo query.now.hi.now last.new.items))) }
    ensures kept { IfOk result (λ more. (more ≡ true
        → IsUnderWay query.now positions.new winners.new)
        × (steps_ahead query.now positions.new + length out.new
        ≤ steps_ahead query.now positions.old + length out.old)
        × (D.reads disk.new + reads_ahead query.now positions.new
        ≤ D.reads disk.old + reads_ahead query.now positions.old)) }
    ensures len { IfOk result (λ more. FillsPage query.now.limit (length out.new) more) }
    ensures room { (255 ≤ vec_capacity last.new) × (length positions.new ≡ length positions.old)
        × IsBracket (length query.now.sources.now) winners.new }
    ensures same { LooksThrough (D.view disk.old) (D.view disk.new)
        (arrays_queried query.now) cache.old cache.new }
    ensures damaged { (b : ℕ) → IsErrOf result (Damaged b)
        → NamesNoBlock (D.view disk.old).content (arrays_queried query.now) b }
    ensures cause { HasCause Device (D.faults disk.old) (D.faults disk.new) result }
    ensures reads { ReadsAtMost (reads_ahead query.now positions.old)
        (D.reads disk.old) (D.reads disk.new) }
{
    // For the proof: the parents are a tree.
    let _versions = query.view.tree.count();
    while let Some(w) = leader(&Heads { query, positions }, winners) {
        if let Some(more) = emit_head(query, w, last, positions, out) {
            return Ok(more);
        }
        advance_leader(disk, cache, query, w, last, positions, winners)?;
    }
    Ok(false)
}

/// Scans the sources of a view: see `scan`, whose room is passed here in its parts.
fn scan_sources<D: Disk>(
    disk: &mut D,
    cache: &mut Cache,
    query: &Query<'_>,
    last: &mut Vec<u8>,
    positions: &mut [SourcePosition],
    winners: &mut [usize],
    out: &mut PairBuf,
) -> Result<bool, Fault>
    requires fits { query.now.version < length (tree_asked query.now) }
    requires same { AsksSources query.now }
    requires kept { HasScanRoom positions.old winners.old (vec_capacity last.old) }
    requires room { (query.now.limit ≤ 256) × (out.old ≡ []) }
    ensures ok { IfOk result (λ more. (f : Image) (next : ℕ) → Exposes (D.view disk.old) f
        → IsReadable f next query.now.view.now query.now.version cache.old
        → TellsPage f query.now.view.now query.now.version query.now.lo.now query.now.hi.now
        query.now.limit out.new more) }
    ensures len { IfOk result (λ more. FillsPage query.now.limit (length out.new) more) }
    ensures kept { HasScanRoom positions.new winners.new (vec_capacity last.new) }
    ensures same { LooksThrough (D.view disk.old) (D.view disk.new)
        (arrays_queried query.now) cache.old cache.new }
    ensures damaged { (b : ℕ) → IsErrOf result (Damaged b)
        → NamesNoBlock (D.view disk.old).content (arrays_queried query.now) b }
    ensures cause { HasCause Device (D.faults disk.old) (D.faults disk.new) result }
    ensures reads { (n : ℕ) → HaveFewBlocks n (arrays_queried query.now)
        → ReadsAtMost (sum_by (reads_of_source (reads_to_seek query.now.lo.now n))
        query.now.sources.now) (D.reads disk.old) (D.reads disk.new) }
{
    let count = query.sources.len();
    let positions = &mut positions[..count];
    let winners = &mut winners[..2 * count];
    last.clear();
    begin_contest(disk, cache, query, positions, winners)?;
    tell_all(disk, cache, query, last, positions, winners, out)
}

/// The first pairs of a version from `lo` on and below `hi`, or without an upper bound where `hi` is empty: at most
/// `limit` of them are put into `out`. Answers whether there are others in the range. Of each level one array is read at
/// most: in one of fewer than 2^n blocks a search reads n + 4 of them at most, and each block is read once more.
pub fn scan<D: Disk>(
    disk: &mut D,
    cache: &mut Cache,
    view: &View<'_>,
    version: Version,
    lo: &[u8],
    hi: &[u8],
    limit: u16,
    buffers: &mut ScanBuffers,
    out: &mut PairBuf,
) -> Result<bool, Fault>
    requires kept { ViewStands view.now }
    requires found { version < length view.now.tree.now.parents }
    requires fits { (1 ≤ limit) × (limit ≤ 256) }
    requires room { out.old ≡ [] }
    ensures ok { IfOk result (λ more. (f : Image) (next : ℕ) → Exposes (D.view disk.old) f
        → IsReadable f next view.now version cache.old
        → TellsPage f view.now version lo.now hi.now limit out.new more) }
    ensures len { IfOk result (λ more. FillsPage limit (length out.new) more) }
    ensures err { OnErr result (out.new ≡ []) }
    ensures same { LooksThrough (D.view disk.old) (D.view disk.new)
        (arrays_read view.now version) cache.old cache.new }
    ensures damaged { (b : ℕ) → IsErrOf result (Damaged b)
        → NamesNoBlock (D.view disk.old).content (arrays_read view.now version) b }
    ensures cause { HasCause Device (D.faults disk.old) (D.faults disk.new) result }
    ensures reads { ReadsArrays (arrays_read view.now version)
        (D.reads disk.old) (D.reads disk.new) }
{
    let picked = pick(view, version);
    let told = scan_sources(
        disk,
        cache,
        &Query {
            view,
            sources: &picked.places[..picked.count],
            version,
            lo,
            hi,
            limit: limit as usize,
        },
        &mut buffers.last,
        &mut buffers.positions,
        &mut buffers.winners,
        out,
    );
    if told.is_err() {
        out.clear();
    }
    told
}
