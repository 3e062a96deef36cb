//! A place that a range is read from: a level 0, or an array.

ghost use Rattle.std.specs.List.{slice_get, filter};
ghost use Rattle.std.specs.Prelude.{◌≡◌, ◌≤◌, ◌<◌, ℕ, ◌+◌, ◌^◌, if◌then◌else◌, List, [], length, drop, option_map, IsTrue, IfSome, IfOk, OnOk, IsErrOf, None, Some};
ghost use Rattle.strat_base.specs.declared.failures.Fault.TheVariants.{Damaged, Device};
ghost use Rattle.def_crash.specs.Faults.{HasCause, ReadsAtMost};
ghost use Rattle.def_crash.specs.Image.{Image};
ghost use Rattle.def_crash.specs.Moments.{Exposes};
ghost use Rattle.def_bytes.specs.Arrays.{blocks_of};
ghost use Rattle.strat_array.specs.Left.{all_in, is_from};
ghost use Rattle.strat_cursor.specs.Looking.{LooksThrough, NamesNoBlock, HaveFewBlocks};
ghost use Rattle.strat_array.specs.Kept.{Looks, ArrayStands};
ghost use Rattle.strat_array.specs.Within.{AreWithin, IsNoBlock};
ghost use Rattle.strat_base.specs.Entries.{Entry as TheEntry, is_ascending};
ghost use Rattle.strat_base.specs.EntryBytes.{fits_fields};
ghost use Rattle.strat_base.specs.EntryView.{entry_of};
ghost use Rattle.strat_base.specs.Tree.{is_ancestor};
ghost use Rattle.strat_level.specs.Memtable.{ListStands, entries_held};
ghost use Rattle.strat_array.specs.Steps.{blocks_ahead, left_from, HoldsPlace};
ghost use Rattle.strat_cursor.specs.Ahead.{is_after};
ghost use Rattle.strat_cursor.specs.Queries.{pool_asked, tree_asked};
ghost use Rattle.strat_cursor.specs.Sources.{is_place, MayBeRead, HasHead, first_at_source, entry_held, is_due, arrays_at, left_at_source, steps_left, reads_left, reads_of_source, reads_to_seek, IsSettledAt, IsUpTo, IsSpent, MayBeBegun, StandsIn, left_behind, places_ahead, blocks_behind, PassesUndue};

use crate::query::Query;
use crate::scan_buffers::SourcePosition;
use strat_arena::ArenaPool;
use strat_array::{Cache, Place, Scratch, first_place_from, seek};
use strat_base::{ArrayDesc, Entry, Fault, key_order};
use strat_disk::Disk;
use strat_level::ZeroView;

/// A place that a range is read from.
#[derive(Clone, Copy)]
pub enum Source<'a> {
    /// No place.
    None,
    /// A level 0.
    Zero(&'a ZeroView),
    /// An array.
    Array(&'a ArrayDesc),
}

impl Source<'_> {
    /// Whether it is a place. O(1).
    pub(crate) fn is_place(&self) -> bool
        ensures ok { result ≡ is_place self.now }
    {
        !matches!(self, Source::None)
    }
}

/// The item at a place of level 0, if there is one. O(1).
fn item_at<'a>(pool: &'a ArenaPool, list: &ZeroView, item: usize) -> Option<Entry<'a>>
    requires kept { ListStands pool.now list.now }
    ensures ok { option_map entry_of result ≡ slice_get (entries_held pool.now list.now) item }
    ensures fits { IfSome result (λ e. IsTrue (fits_fields (entry_of e))) }
{
    if item < list.items().len() {
        Some(list.entry(pool, item))
    } else {
        None
    }
}

/// The entry at a place, if there is one. O(1).
fn entry_at_position(position: &SourcePosition) -> Option<Entry<'_>>
    requires kept { (a : ℕ) × (IsTrue position.now.there
        → HoldsPlace position.now.scratch a position.now.place × (position.now.place.index < 454)) }
    ensures ok { option_map entry_of result
        ≡ (if position.now.there then entry_held position.now.scratch position.now.place.index
        else None) }
    ensures fits { IfSome result (λ e. IsTrue (fits_fields (entry_of e))) }
{
    if position.there {
        Some(position.scratch.entry(position.place.index))
    } else {
        None
    }
}

/// The first entry that a source has left, if there is one. O(1), and nothing is read.
pub(crate) fn head<'a>(
    source: &Source<'_>,
    pool: &'a ArenaPool,
    position: &'a SourcePosition,
) -> Option<Entry<'a>>
    requires kept { MayBeRead pool.now source.now }
    requires found { HasHead source.now position.now }
    ensures ok { option_map entry_of result ≡ first_at_source pool.now source.now position.now }
    ensures fits { IfSome result (λ e. IsTrue (fits_fields (entry_of e))) }
{
    match source {
        Source::None => None,
        Source::Zero(list) => item_at(pool, list, position.item),
        Source::Array(_) => entry_at_position(position),
    }
}

/// Whether a key is after the last one that was handled, if any was.
pub(crate) fn is_after(last: &[u8], key: &[u8]) -> bool
    ensures ok { result ≡ is_after last.now key.now }
{
    last.is_empty() || key_order(last, key).is_lt()
}

/// Whether an entry decides its key: the key is after the last one that was handled, and the entry is at the query's
/// version or at an ancestor of it, whatever number its version is: a disk may say anything. A comparison of keys, and
/// O(log versions_max) where the key is after it.
#[tactic(auto, using(strat_array::proofs::WalkLemmas::past_is_off))]
fn is_due(entry: &Entry<'_>, query: &Query<'_>, last: &[u8]) -> bool
    requires { query.now.version < length (tree_asked query.now) }
    ensures ok { result ≡ is_due (tree_asked query.now) query.now.version last.now
        (entry_of entry.now) }
{
    let tree = query.view.tree;
    is_after(last, entry.key)
        && entry.version < tree.count()
        && tree.is_ancestor(entry.version, query.version)
}

/// The first item from a place on that is due. O(items passed over), each as `is_due`.
fn stand_item(query: &Query<'_>, list: &ZeroView, last: &[u8], item: usize) -> usize
    requires kept { ListStands (pool_asked query.now) list.now }
    requires fits { query.now.version < length (tree_asked query.now) }
    ensures ok { PassesUndue (tree_asked query.now) query.now.version last.now
        (drop item (entries_held (pool_asked query.now) list.now))
        (drop result (entries_held (pool_asked query.now) list.now)) }
    ensures found { IfSome (slice_get (entries_held (pool_asked query.now) list.now) result)
        (λ e. IsTrue (is_ancestor (tree_asked query.now) e.version query.now.version)) }
    ensures end { item ≤ result }
{
    let mut item = item;
    while item < list.items().len() {
        if is_due(&list.entry(query.view.pool, item), query, last) {
            return item;
        }
        item += 1;
    }
    item
}

/// The place of the first entry from a place on that is due, or `None` where none is. Afterwards the scratch holds the
/// block of that entry. O(entries passed over), each as `is_due`, and what `first_place_from` costs. Device: the disk counted a
/// fault. Damaged: this block of the array is no block of entries.
fn stand_place<D: Disk>(
    disk: &mut D,
    cache: &mut Cache,
    desc: &ArrayDesc,
    query: &Query<'_>,
    last: &[u8],
    place: Place,
    scratch: &mut Scratch,
) -> Result<Option<Place>, Fault>
    requires fits { AreWithin desc.now.extents }
    requires kept { query.now.version < length (tree_asked query.now) }
    ensures found { IfOk result (λ r. IfSome r (λ at.
        HoldsPlace scratch.new desc.now.id at × (at.index < 454))) }
    ensures kept { IfOk result (λ r. IfSome r (λ at. IfSome (entry_held scratch.new at.index)
        (λ e. IsTrue (is_ancestor (tree_asked query.now) e.version query.now.version)))) }
    ensures ok { IfOk result (λ r. (lists : List (List TheEntry))
        → ArrayStands (D.view disk.old).content desc.now.id (blocks_of desc.now.extents)
        cache.old scratch.old lists
        → PassesUndue (tree_asked query.now) query.now.version last.now
        (left_from lists place) (left_behind lists r)) }
    ensures end { IfOk result (λ r. IfSome r (λ at. places_ahead at ≤ places_ahead place)) }
    ensures same { Looks (D.view disk.old) (D.view disk.new)
        desc.now.id (blocks_of desc.now.extents) cache.old cache.new scratch.old scratch.new }
    ensures damaged { (b : ℕ) → IsErrOf result (Damaged b)
        → IsNoBlock (D.view disk.old).content (blocks_of desc.now.extents) b }
    ensures cause { HasCause Device (D.faults disk.old) (D.faults disk.new) result }
    ensures reads { ReadsAtMost
        (blocks_ahead scratch.old desc.now.id (length (blocks_of desc.now.extents)) place)
        (D.reads disk.old) (D.reads disk.new) }
    ensures room { IfOk result (λ r. D.reads disk.new
        + blocks_behind scratch.new desc.now.id (length (blocks_of desc.now.extents)) r
        ≤ D.reads disk.old
        + blocks_ahead scratch.old desc.now.id (length (blocks_of desc.now.extents)) place) }
{
    let mut place = place;
    while let Some(at) = first_place_from(disk, cache, desc, place, scratch)? {
        let entry = scratch.entry(at.index);
        if is_due(&entry, query, last) {
            return Ok(Some(at));
        }
        place = at.next();
    }
    Ok(None)
}

/// The place of the first entry of an array whose key is `lo` or after it, or the end place: what `seek` answers, and costs.
/// Where `lo` is empty it is the array's first place, and no block is read.
fn place_from<D: Disk>(
    disk: &mut D,
    cache: &mut Cache,
    desc: &ArrayDesc,
    lo: &[u8],
    scratch: &mut Scratch,
) -> Result<Place, Fault>
    requires fits { AreWithin desc.now.extents }
    ensures ok { IfOk result (λ place. (lists : List (List TheEntry))
        → ArrayStands (D.view disk.old).content desc.now.id (blocks_of desc.now.extents)
        cache.old None lists
        → IsTrue (is_ascending (all_in lists))
        → left_from lists place ≡ filter (is_from lo.now) (all_in lists)) }
    ensures same { Looks (D.view disk.old) (D.view disk.new)
        desc.now.id (blocks_of desc.now.extents) cache.old cache.new None scratch.new }
    ensures damaged { (b : ℕ) → IsErrOf result (Damaged b)
        → IsNoBlock (D.view disk.old).content (blocks_of desc.now.extents) b }
    ensures cause { HasCause Device (D.faults disk.old) (D.faults disk.new) result }
    ensures reads { (n : ℕ) → length (blocks_of desc.now.extents) < 2 ^ n
        → ReadsAtMost (reads_to_seek lo.now n) (D.reads disk.old) (D.reads disk.new) }
{
    if lo.is_empty() {
        scratch.forget();
        return Ok(Place { block: 0, index: 0 });
    }
    seek(disk, cache, desc, lo, scratch)
}

/// The place of the first entry of an array that is due from a key on, when none was handled yet. What `place_from` and
/// `stand_place` cost.
fn begin_place<D: Disk>(
    disk: &mut D,
    cache: &mut Cache,
    desc: &ArrayDesc,
    query: &Query<'_>,
    scratch: &mut Scratch,
) -> Result<Option<Place>, Fault>
    requires fits { AreWithin desc.now.extents }
    requires kept { query.now.version < length (tree_asked query.now) }
    ensures found { IfOk result (λ r. IfSome r (λ at.
        HoldsPlace scratch.new desc.now.id at × (at.index < 454))) }
    ensures kept { IfOk result (λ r. IfSome r (λ at. IfSome (entry_held scratch.new at.index)
        (λ e. IsTrue (is_ancestor (tree_asked query.now) e.version query.now.version)))) }
    ensures ok { IfOk result (λ r. (lists : List (List TheEntry))
        → ArrayStands (D.view disk.old).content desc.now.id (blocks_of desc.now.extents)
        cache.old None lists
        → IsTrue (is_ascending (all_in lists))
        → PassesUndue (tree_asked query.now) query.now.version []
        (filter (is_from query.now.lo.now) (all_in lists)) (left_behind lists r)) }
    ensures same { Looks (D.view disk.old) (D.view disk.new)
        desc.now.id (blocks_of desc.now.extents) cache.old cache.new None scratch.new }
    ensures damaged { (b : ℕ) → IsErrOf result (Damaged b)
        → IsNoBlock (D.view disk.old).content (blocks_of desc.now.extents) b }
    ensures cause { HasCause Device (D.faults disk.old) (D.faults disk.new) result }
    ensures reads { (n : ℕ) → length (blocks_of desc.now.extents) < 2 ^ n
        → ReadsAtMost (reads_to_seek query.now.lo.now n + length (blocks_of desc.now.extents))
        (D.reads disk.old) (D.reads disk.new) }
    ensures room { IfOk result (λ r. (n : ℕ) → length (blocks_of desc.now.extents) < 2 ^ n
        → D.reads disk.new
        + blocks_behind scratch.new desc.now.id (length (blocks_of desc.now.extents)) r
        ≤ D.reads disk.old
        + (reads_to_seek query.now.lo.now n + length (blocks_of desc.now.extents))) }
{
    let place = place_from(disk, cache, desc, query.lo, scratch)?;
    stand_place(disk, cache, desc, query, &[], place, scratch)
}

/// The first item of level 0 that is due from a key on, when none was handled yet. What `ZeroView::seek` and
/// `stand_item` cost.
fn begin_item(query: &Query<'_>, list: &ZeroView) -> usize
    requires kept { ListStands (pool_asked query.now) list.now }
    requires fits { query.now.version < length (tree_asked query.now) }
    ensures ok { PassesUndue (tree_asked query.now) query.now.version []
        (filter (is_from query.now.lo.now) (entries_held (pool_asked query.now) list.now))
        (drop result (entries_held (pool_asked query.now) list.now)) }
    ensures found { IfSome (slice_get (entries_held (pool_asked query.now) list.now) result)
        (λ e. IsTrue (is_ancestor (tree_asked query.now) e.version query.now.version)) }
{
    let item = list.seek(query.view.pool, query.lo);
    stand_item(query, list, &[], item)
}

/// Lets a source stand at its first entry that is due from a key on, when none was handled yet. What `place_from` costs
/// and the entries passed over, or `ZeroView::seek` and the items passed over.
pub(crate) fn begin<D: Disk>(
    disk: &mut D,
    cache: &mut Cache,
    source: &Source<'_>,
    query: &Query<'_>,
    position: &mut SourcePosition,
) -> Result<(), Fault>
    requires kept { MayBeRead (pool_asked query.now) source.now }
    requires fits { query.now.version < length (tree_asked query.now) }
    ensures found { OnOk result (IsSettledAt (tree_asked query.now) query.now.version
        (pool_asked query.now) source.now position.new) }
    ensures ok { OnOk result ((f : Image) → Exposes (D.view disk.old) f
        → MayBeBegun f cache.old source.now
        → IsUpTo f (pool_asked query.now) (tree_asked query.now) query.now.version
        query.now.lo.now [] source.now position.new
        × StandsIn f cache.new source.now position.new.scratch) }
    ensures same { LooksThrough (D.view disk.old) (D.view disk.new)
        (arrays_at source.now) cache.old cache.new }
    ensures damaged { (b : ℕ) → IsErrOf result (Damaged b)
        → NamesNoBlock (D.view disk.old).content (arrays_at source.now) b }
    ensures cause { HasCause Device (D.faults disk.old) (D.faults disk.new) result }
    ensures reads { (n : ℕ) → HaveFewBlocks n (arrays_at source.now)
        → ReadsAtMost (reads_of_source (reads_to_seek query.now.lo.now n) source.now)
        (D.reads disk.old) (D.reads disk.new) }
    ensures room { OnOk result ((n : ℕ) → HaveFewBlocks n (arrays_at source.now)
        → D.reads disk.new + reads_left source.now position.new
        ≤ D.reads disk.old + reads_of_source (reads_to_seek query.now.lo.now n) source.now) }
{
    match source {
        Source::None => Ok(()),
        Source::Zero(list) => {
            position.item = begin_item(query, list);
            Ok(())
        }
        Source::Array(desc) => {
            let at = begin_place(disk, cache, desc, query, &mut position.scratch)?;
            position.stand(at);
            Ok(())
        }
    }
}

/// Lets a source go on from an entry that was handled, to the next one that is due. O(entries passed over) and what
/// `stand_place` or `stand_item` costs.
pub(crate) fn advance<D: Disk>(
    disk: &mut D,
    cache: &mut Cache,
    source: &Source<'_>,
    query: &Query<'_>,
    last: &[u8],
    position: &mut SourcePosition,
) -> Result<(), Fault>
    requires kept { MayBeRead (pool_asked query.now) source.now }
    requires fits { query.now.version < length (tree_asked query.now) }
    requires same { HasHead source.now position.old }
    requires found { IsSpent last.now (first_at_source (pool_asked query.now) source.now
        position.old) }
    ensures found { OnOk result (IsSettledAt (tree_asked query.now) query.now.version
        (pool_asked query.now) source.now position.new) }
    ensures ok { OnOk result ((f : Image) → Exposes (D.view disk.old) f
        → StandsIn f cache.old source.now position.old.scratch
        → PassesUndue (tree_asked query.now) query.now.version last.now
        (left_at_source f (pool_asked query.now) source.now position.old)
        (left_at_source f (pool_asked query.now) source.now position.new)
        × StandsIn f cache.new source.now position.new.scratch) }
    ensures end { OnOk result (steps_left (pool_asked query.now) source.now position.new
        < steps_left (pool_asked query.now) source.now position.old) }
    ensures same { LooksThrough (D.view disk.old) (D.view disk.new)
        (arrays_at source.now) cache.old cache.new }
    ensures damaged { (b : ℕ) → IsErrOf result (Damaged b)
        → NamesNoBlock (D.view disk.old).content (arrays_at source.now) b }
    ensures cause { HasCause Device (D.faults disk.old) (D.faults disk.new) result }
    ensures reads { ReadsAtMost (reads_left source.now position.old)
        (D.reads disk.old) (D.reads disk.new) }
    ensures room { OnOk result (D.reads disk.new + reads_left source.now position.new
        ≤ D.reads disk.old + reads_left source.now position.old) }
{
    match source {
        Source::None => Ok(()),
        Source::Zero(list) => {
            // For the proof: the place after this item has a number.
            let _items = list.items().len();
            position.item = stand_item(query, list, last, position.item + 1);
            Ok(())
        }
        Source::Array(desc) => {
            let next = position.place.next();
            let at = stand_place(disk, cache, desc, query, last, next, &mut position.scratch)?;
            position.stand(at);
            Ok(())
        }
    }
}
