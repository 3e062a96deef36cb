//! Looking at blocks of an array: in the scratch, in the cache, or on the disk.

ghost use Rattle.std.specs.Bool.{OnTrue};
ghost use Rattle.std.specs.List.{slice_get};
ghost use Rattle.std.specs.Map.{lookup};
ghost use Rattle.std.specs.Prelude.{◌≡◌, ◌<◌, ◌-◌, ◌^◌, ℕ, List, length, None, Some, IsSome, IfOk, OnOk, IsErrOf, is_some};
ghost use Rattle.strat_base.specs.Entries.{Entry as TheEntry};
ghost use Rattle.strat_base.specs.declared.failures.Fault.TheVariants.{Damaged, Device};
ghost use Rattle.def_crash.specs.Faults.{HasCause, ReadsAtMost};
ghost use Rattle.def_crash.specs.Image.{Image};
ghost use Rattle.def_crash.specs.Moments.{Exposes};
ghost use Rattle.def_bytes.specs.Arrays.{block_on, blocks_of};
ghost use Rattle.strat_array.specs.Kept.{kept_block, Looks, ArrayStands};
ghost use Rattle.strat_array.specs.Within.{AreWithin, IsNoBlock};

use crate::cache::Cache;
use crate::place::block_at;
use crate::scratch::Scratch;
use strat_base::{ArrayDesc, Fault};
use strat_block::BlockView;
use strat_disk::Disk;

/// Sees to it that a block of an array is kept. Where it isn't yet, that is one read, one pass over its bytes and a
/// copy into the cache, which remembers how the block begins.
pub(crate) fn ensure_block<D: Disk>(
    disk: &mut D,
    cache: &mut Cache,
    desc: &ArrayDesc,
    index: u32,
    block: u32,
    scratch: &mut Scratch,
) -> Result<(), Fault>
    requires fits { (block < 2 ^ 32 - 1) × AreWithin desc.now.extents }
    ensures found { OnOk result (IsSome (kept_block cache.new scratch.new desc.now.id index)) }
    ensures none { IsSome (kept_block cache.old scratch.old desc.now.id index)
        → OnOk result (D.reads disk.new ≡ D.reads disk.old) }
    ensures same { (blocks : List ℕ) → slice_get blocks index ≡ Some block
        → Looks (D.view disk.old) (D.view disk.new) desc.now.id blocks
        cache.old cache.new scratch.old scratch.new }
    ensures damaged { (b : ℕ) → IsErrOf result (Damaged b) → (b ≡ block)
        × ((f : Image) → Exposes (D.view disk.old) f → block_on f block ≡ None) }
    ensures cause { HasCause Device (D.faults disk.old) (D.faults disk.new) result }
    ensures reads { ReadsAtMost 1 (D.reads disk.old) (D.reads disk.new) }
{
    if scratch.is_held(desc.id, index) {
        return Ok(());
    }
    if cache.touch(desc.id, index) {
        return Ok(());
    }
    scratch.fetch(disk, desc.id, index, block)?;
    cache.insert(desc, index, &scratch.block());
    Ok(())
}

/// A block that is kept. O(1).
pub(crate) fn borrow_block<'b>(
    cache: &'b Cache,
    scratch: &'b Scratch,
    array: u64,
    index: u32,
) -> BlockView<'b>
    requires found { IsSome (kept_block cache.now scratch.now array index) }
    ensures ok { kept_block cache.now scratch.now array index ≡ Some result }
{
    if scratch.is_held(array, index) {
        return scratch.block();
    }
    cache.block(array, index)
}

/// Sees to it that the block at an index of an array is kept: one read at most.
pub(crate) fn ensure_block_at<D: Disk>(
    disk: &mut D,
    cache: &mut Cache,
    desc: &ArrayDesc,
    index: u32,
    scratch: &mut Scratch,
) -> Result<(), Fault>
    requires fits { AreWithin desc.now.extents }
    requires room { index < length (blocks_of desc.now.extents) }
    ensures found { OnOk result (IsSome (kept_block cache.new scratch.new desc.now.id index)) }
    ensures ok { OnOk result ((lists : List (List TheEntry))
        → ArrayStands (D.view disk.old).content desc.now.id (blocks_of desc.now.extents)
        cache.old scratch.old lists
        → kept_block cache.new scratch.new desc.now.id index ≡ slice_get lists index) }
    ensures same { Looks (D.view disk.old) (D.view disk.new)
        desc.now.id (blocks_of desc.now.extents) cache.old cache.new scratch.old scratch.new }
    ensures damaged { (b : ℕ) → IsErrOf result (Damaged b)
        → IsNoBlock (D.view disk.old).content (blocks_of desc.now.extents) b }
    ensures cause { HasCause Device (D.faults disk.old) (D.faults disk.new) result }
    ensures reads { ReadsAtMost 1 (D.reads disk.old) (D.reads disk.new) }
{
    let block = block_at(desc.extents.as_slice(), index).unwrap();
    ensure_block(disk, cache, desc, index, block, scratch)
}
