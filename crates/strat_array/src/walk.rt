//! A walk over the entries of an array, from a place on.

ghost use Rattle.std.specs.Bool.{OnTrue};
ghost use Rattle.std.specs.Prelude.{◌≡◌, ◌≤◌, ◌<◌, ◌+◌, ℕ, List, length, nat_lt, Option, option_map, IsSome, IsTrue, IfOk, IfSome, IsErrOf};
ghost use Rattle.strat_base.specs.Entries.{Entry as TheEntry};
ghost use Rattle.strat_base.specs.EntryBytes.{fits_fields};
ghost use Rattle.strat_base.specs.EntryView.{entry_of};
ghost use Rattle.strat_base.specs.declared.failures.Fault.TheVariants.{Damaged, Device};
ghost use Rattle.def_crash.specs.Faults.{HasCause, ReadsAtMost};
ghost use Rattle.def_bytes.specs.Arrays.{blocks_of};
ghost use Rattle.strat_array.specs.Kept.{Kept, held_block, kept_block, TakesOver, Looks, ArrayStands};
ghost use Rattle.strat_array.specs.Steps.{blocks_ahead, GoesOn, HoldsPlace, IsNear, Settles, Steps};
ghost use Rattle.strat_array.specs.Within.{AreWithin, IsNoBlock};

use crate::cache::Cache;
use crate::place::{Place, block_at};
use crate::reading::ensure_block;
use crate::scratch::Scratch;
use strat_base::{ArrayDesc, Entry, Fault};
use strat_disk::Disk;

/// Takes a copy of a block that is kept, unless the scratch holds it.
fn copy_from_cache(cache: &Cache, array: u64, index: u32, scratch: &mut Scratch)
    requires { IsSome (kept_block cache.now scratch.old array index) }
    ensures found { IsSome (held_block scratch.new array index) }
    ensures kept { TakesOver cache.now array index scratch.old scratch.new }
{
    if !scratch.is_held(array, index) {
        scratch.copy(array, index, &cache.block(array, index));
    }
}

/// Sees to it that the scratch holds the block at an index of an array, and says whether there is one: one read at
/// most, and no look-up where it holds the block already.
fn load_scratch<D: Disk>(
    disk: &mut D,
    cache: &mut Cache,
    desc: &ArrayDesc,
    index: u32,
    scratch: &mut Scratch,
) -> Result<bool, Fault>
    requires fits { AreWithin desc.now.extents }
    ensures found { IfOk result (λ there. OnTrue there
        (IsSome (held_block scratch.new desc.now.id index))) }
    ensures ok { IfOk result (λ there. (lists : List (List TheEntry))
        → ArrayStands (D.view disk.old).content desc.now.id (blocks_of desc.now.extents)
        cache.old scratch.old lists
        → there ≡ nat_lt index (length lists)) }
    ensures none { IsSome (held_block scratch.old desc.now.id index)
        → D.reads disk.new ≡ D.reads disk.old }
    ensures len { length (blocks_of desc.now.extents) ≤ index
        → D.reads disk.new ≡ D.reads disk.old }
    ensures same { Looks (D.view disk.old) (D.view disk.new)
        desc.now.id (blocks_of desc.now.extents) cache.old cache.new scratch.old scratch.new }
    ensures damaged { (b : ℕ) → IsErrOf result (Damaged b)
        → IsNoBlock (D.view disk.old).content (blocks_of desc.now.extents) b }
    ensures cause { HasCause Device (D.faults disk.old) (D.faults disk.new) result }
    ensures reads { ReadsAtMost 1 (D.reads disk.old) (D.reads disk.new) }
{
    if scratch.is_held(desc.id, index) {
        return Ok(true);
    }
    let Some(block) = block_at(desc.extents.as_slice(), index) else {
        return Ok(false);
    };
    ensure_block(disk, cache, desc, index, block, scratch)?;
    copy_from_cache(cache, desc.id, index, scratch);
    Ok(true)
}

/// The place of the first entry at or after a place, or `None` at the end. Afterwards the scratch holds the block of
/// that entry, which `Scratch::entry` hands out. O(1) while the walk is in one block; at the first entry of a block
/// O(extents), one look-up in the cache and one copy, or one read: two reads at most, since the walk may have to
/// pass the end of one block. Device: the disk counted a fault. Damaged: this block of the array is no block of
/// entries.
pub fn first_place_from<D: Disk>(
    disk: &mut D,
    cache: &mut Cache,
    desc: &ArrayDesc,
    place: Place,
    scratch: &mut Scratch,
) -> Result<Option<Place>, Fault>
    requires fits { AreWithin desc.now.extents }
    ensures found { IfOk result (λ r. IfSome r (λ at. HoldsPlace scratch.new desc.now.id at)) }
    ensures ok { IfOk result (λ r. (lists : List (List TheEntry))
        → ArrayStands (D.view disk.old).content desc.now.id (blocks_of desc.now.extents)
        cache.old scratch.old lists
        → Settles lists place r) }
    ensures end { IfOk result (λ r. IfSome r (λ at. IsNear place at)) }
    ensures fits { IfOk result (λ r. IfSome r (λ at. at.index < 454)) }
    ensures same { Looks (D.view disk.old) (D.view disk.new)
        desc.now.id (blocks_of desc.now.extents) cache.old cache.new scratch.old scratch.new }
    ensures damaged { (b : ℕ) → IsErrOf result (Damaged b)
        → IsNoBlock (D.view disk.old).content (blocks_of desc.now.extents) b }
    ensures cause { HasCause Device (D.faults disk.old) (D.faults disk.new) result }
    ensures reads { ReadsAtMost 2 (D.reads disk.old) (D.reads disk.new) }
    ensures len { D.reads disk.new ≤ D.reads disk.old
        + blocks_ahead scratch.old desc.now.id (length (blocks_of desc.now.extents)) place }
    ensures room { IfOk result (λ r. IfSome r (λ at. D.reads disk.new
        + blocks_ahead scratch.new desc.now.id (length (blocks_of desc.now.extents)) at
        ≤ D.reads disk.old
        + blocks_ahead scratch.old desc.now.id (length (blocks_of desc.now.extents)) place)) }
{
    if !load_scratch(disk, cache, desc, place.block, scratch)? {
        return Ok(None);
    }
    if scratch.has(place.index) {
        return Ok(Some(place));
    }
    let Some(block) = place.block.checked_add(1) else {
        return Ok(None);
    };
    if !load_scratch(disk, cache, desc, block, scratch)? {
        return Ok(None);
    }
    // For the proof: a block has an entry.
    let _some = scratch.has(0);
    Ok(Some(Place { block, index: 0 }))
}

/// The entry at a place and the place after it, or `None` at the end place. It costs what `first_place_from` does, and O(1)
/// more. What the scratch holds of the array has to be as the disk has it, as what the cache keeps has to; whoever
/// walks over many entries calls `first_place_from` and `Scratch::entry`, which say what the scratch holds afterwards.
/// Device: the disk counted a fault. Damaged: this block of the array is no block of entries.
pub fn entry_at<'s, D: Disk>(
    disk: &mut D,
    cache: &mut Cache,
    desc: &ArrayDesc,
    place: Place,
    scratch: &'s mut Scratch,
) -> Result<Option<(Entry<'s>, Place)>, Fault>
    requires fits { AreWithin desc.now.extents }
    ensures found { IfOk result (λ r. (lists : List (List TheEntry))
        → ArrayStands (D.view disk.old).content desc.now.id (blocks_of desc.now.extents)
        cache.old scratch.old lists
        → Steps lists place (option_map (λ x. (entry_of x.0, x.1)) r)) }
    ensures end { IfOk result (λ r. IfSome r (λ x. GoesOn place x.1)) }
    ensures fits { IfOk result (λ r. IfSome r (λ x. IsTrue (fits_fields (entry_of x.0)))) }
    ensures same { (held : Option Kept) × Looks (D.view disk.old) (D.view disk.new)
        desc.now.id (blocks_of desc.now.extents) cache.old cache.new scratch.old held }
    ensures damaged { (b : ℕ) → IsErrOf result (Damaged b)
        → IsNoBlock (D.view disk.old).content (blocks_of desc.now.extents) b }
    ensures cause { HasCause Device (D.faults disk.old) (D.faults disk.new) result }
    ensures reads { ReadsAtMost 2 (D.reads disk.old) (D.reads disk.new) }
{
    let Some(at) = first_place_from(disk, cache, desc, place, scratch)? else {
        return Ok(None);
    };
    let entry = scratch.entry(at.index);
    Ok(Some((entry, at.next())))
}
