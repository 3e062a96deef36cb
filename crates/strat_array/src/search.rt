//! The place of a key in an array: a search over its blocks that goes by hints, and then within one block.

ghost use Rattle.std.specs.Prelude.{◌≡◌, ◌≢◌, ◌<◌, ◌+◌, ◌^◌, ℕ, List, [], length, filter, slice_index_or, None, IfOk, IfSome, IfNone, IsErrOf, IsTrue};
ghost use Rattle.strat_base.specs.Entries.{Entry as TheEntry, is_ascending};
ghost use Rattle.strat_base.specs.declared.failures.Fault.TheVariants.{Damaged, Device};
ghost use Rattle.def_crash.specs.Faults.{HasCause, ReadsAtMost};
ghost use Rattle.def_bytes.specs.Arrays.{blocks_of};
ghost use Rattle.strat_block.specs.Places.{stands_below};
ghost use Rattle.strat_array.specs.Kept.{Looks, ArrayStands};
ghost use Rattle.strat_array.specs.Left.{all_in, is_from};
ghost use Rattle.strat_array.specs.Lying.{LiesAt, Narrows};
ghost use Rattle.strat_array.specs.Steps.{left_from, IsSettled};
ghost use Rattle.strat_array.specs.Within.{AreWithin, IsNoBlock};
ghost use Rattle.strat_array.specs.declared.search.Lies.TheVariants.{Within};

use crate::cache::Cache;
use crate::hints::Outline;
use crate::place::{Place, count_blocks};
use crate::reading::{borrow_block, ensure_block_at};
use crate::scratch::Scratch;
use strat_base::{ArrayDesc, Fault, key_order};
use strat_block::BlockView;
use strat_disk::Disk;

/// How many blocks a search looks at by hints before it halves what is left.
const TRIES: u32 = 4;

/// Where the first entry whose key is a key or after it lies, seen from a block.
#[derive(Clone, Copy)]
enum Lies {
    /// At the block's first entry, or before the block.
    Before,
    /// At this index of the block, and not at the first.
    Within(u16),
    /// Behind the block.
    Behind,
}

/// Whether a block's entry is below a key.
fn is_below(block: &BlockView<'_>, i: usize, key: &[u8]) -> bool
    requires { i < length block.now }
    ensures ok { (d : TheEntry) → result ≡ stands_below key.now (slice_index_or block.now i d) }
{
    key_order(block.key_at(i), key).is_lt()
}

/// Where the first entry from a key on lies, seen from a block: one comparison of keys where the block begins from the
/// key on, and else O(log entries).
fn lies_of(block: &BlockView<'_>, key: &[u8]) -> Lies
    ensures ok { LiesAt key.now block.now result }
{
    let len = block.len();
    if !is_below(block, 0, key) {
        return Lies::Before;
    }
    let i = block.first_at_or_after(key);
    if i < len {
        Lies::Within(i as u16)
    } else {
        Lies::Behind
    }
}

/// Where the first entry from a key on lies, seen from the block at an index of an array: one read at most.
fn look_in<D: Disk>(
    disk: &mut D,
    cache: &mut Cache,
    desc: &ArrayDesc,
    index: u32,
    key: &[u8],
    scratch: &mut Scratch,
) -> Result<Lies, Fault>
    requires fits { AreWithin desc.now.extents }
    requires room { index < length (blocks_of desc.now.extents) }
    ensures ok { IfOk result (λ lies. (lists : List (List TheEntry))
        → ArrayStands (D.view disk.old).content desc.now.id (blocks_of desc.now.extents)
        cache.old scratch.old lists
        → LiesAt key.now (slice_index_or lists index []) lies) }
    ensures same { Looks (D.view disk.old) (D.view disk.new)
        desc.now.id (blocks_of desc.now.extents) cache.old cache.new scratch.old scratch.new }
    ensures damaged { (b : ℕ) → IsErrOf result (Damaged b)
        → IsNoBlock (D.view disk.old).content (blocks_of desc.now.extents) b }
    ensures cause { HasCause Device (D.faults disk.old) (D.faults disk.new) result }
    ensures reads { ReadsAtMost 1 (D.reads disk.old) (D.reads disk.new) }
{
    ensure_block_at(disk, cache, desc, index, scratch)?;
    Ok(lies_of(&borrow_block(cache, scratch, desc.id, index), key))
}

/// The borders of a search after a block between them was looked at that doesn't hold the place.
fn narrowed(low: u32, mid: u32, high: u32, lies: Lies) -> (u32, u32)
    requires { mid < high }
    ensures ok { Narrows low mid high lies result.0 result.1 }
{
    match lies {
        Lies::Before => (low, mid),
        Lies::Within(_) => (low, high),
        Lies::Behind => (mid + 1, high),
    }
}

/// The index in a block, where the place is in it and not its first.
fn index_within(lies: Lies) -> Option<u16>
    ensures found { IfSome result (λ i. lies ≡ Within i) }
    ensures none { IfNone result ((i : ℕ) → lies ≢ Within i) }
{
    match lies {
        Lies::Within(i) => Some(i),
        _ => None,
    }
}

/// The place of the first entry of an array whose key is this one or after it, or the end place, which is block
/// number of blocks, index 0. Hints of the cache lead to the first four blocks that are looked at, mostly one or two,
/// and what is left is halved: O(log blocks) blocks, each with O(extents) steps and O(log entries) comparisons.
/// Device: the disk counted a fault. Damaged: this block of the array is no block of entries.
pub fn seek<D: Disk>(
    disk: &mut D,
    cache: &mut Cache,
    desc: &ArrayDesc,
    key: &[u8],
    scratch: &mut Scratch,
) -> Result<Place, Fault>
    requires fits { AreWithin desc.now.extents }
    ensures ok { IfOk result (λ place. (lists : List (List TheEntry))
        → ArrayStands (D.view disk.old).content desc.now.id (blocks_of desc.now.extents)
        cache.old None lists
        → IsTrue (is_ascending (all_in lists))
        → left_from lists place ≡ filter (is_from key.now) (all_in lists)) }
    ensures end { IfOk result (λ place. (lists : List (List TheEntry))
        → ArrayStands (D.view disk.old).content desc.now.id (blocks_of desc.now.extents)
        cache.old None lists
        → IsSettled lists place) }
    ensures same { Looks (D.view disk.old) (D.view disk.new)
        desc.now.id (blocks_of desc.now.extents) cache.old cache.new None scratch.new }
    ensures damaged { (b : ℕ) → IsErrOf result (Damaged b)
        → IsNoBlock (D.view disk.old).content (blocks_of desc.now.extents) b }
    ensures cause { HasCause Device (D.faults disk.old) (D.faults disk.new) result }
    ensures reads { (n : ℕ) → length (blocks_of desc.now.extents) < 2 ^ n
        → ReadsAtMost (n + 4) (D.reads disk.old) (D.reads disk.new) }
{
    scratch.forget();
    let mut low = 0;
    let mut high = count_blocks(desc.extents.as_slice());
    let outline = Outline::new(desc.id, high, key);
    let mut tries = TRIES;
    while low < high {
        let mid = cache.probe(&outline, low, high, tries);
        tries = tries.saturating_sub(1);
        let lies = look_in(disk, cache, desc, mid, key, scratch)?;
        if let Some(index) = index_within(lies) {
            return Ok(Place { block: mid, index });
        }
        let (first, last) = narrowed(low, mid, high, lies);
        low = first;
        high = last;
    }
    Ok(Place {
        block: low,
        index: 0,
    })
}
