//! Blocks that are taken and written.

ghost use Rattle.std.specs.Prelude.{◌≡◌, ◌≢◌, ℕ, Bool, true, ◌<◌, ◌+◌, ◌*◌, List, ◌++◌, ◌∷◌, [], length, OnOk, OnErr, IfOk, IfSome, IfNone};
ghost use Rattle.strat_array.specs.Pushed.{AreMaximal};
ghost use Rattle.strat_array.specs.Taking.{HasFreeBlock, IsLowestTaken};
ghost use Rattle.strat_array.specs.Within.{EndWithin};
ghost use Rattle.strat_base.specs.declared.descriptors.Extent.{Extent as TheExtent};
ghost use Rattle.def_crash.specs.Blocks.{TearsBlocks};
ghost use Rattle.def_crash.specs.Faults.{CountsFaults};
ghost use Rattle.def_crash.specs.Moments.{Writes};
ghost use Rattle.strat_extent.specs.Change.{SameBlocks};
ghost use Rattle.def_bytes.specs.Arrays.{blocks_of};

use strat_base::limits::BLOCK;
use strat_base::{Extent, Extents, Failed, NoMemory};
use strat_disk::Disk;
use strat_extent::Space;

/// Writes a block: one write.
pub(crate) fn write_block<D: Disk>(disk: &mut D, block: u32, bytes: &[u8]) -> Result<(), Failed>
    requires fits { (length bytes.now ≡ 4096) × (block < 4294967295) }
    ensures ok { OnOk result (Writes (D.view disk.old) (D.view disk.new) (4096 * block) bytes.now) }
    ensures same { (free : ℕ → Bool) → free block ≡ true
        → TearsBlocks free (D.view disk.old) (D.view disk.new) }
    ensures cause { CountsFaults (D.faults disk.old) (D.faults disk.new) result }
    ensures reads { D.reads disk.new ≡ D.reads disk.old }
{
    disk.write_at(BLOCK as u64 * block as u64, bytes)
}

/// Takes the lowest free block.
fn take_lowest(space: &mut Space) -> Result<u32, NoMemory>
    requires { HasFreeBlock space.old }
    ensures ok { IfOk result (λ b. IsLowestTaken space.old b space.new) }
    ensures fits { IfOk result (λ b. b < 4294967295) }
    ensures err { OnErr result (SameBlocks space.old space.new) }
{
    let taken = space.take(1)?;
    Ok(taken.get(0).start)
}

/// An extent with the block behind it, if it ends just before this block.
fn joined(x: &Extent, block: u32) -> Option<Extent>
    requires { block < 4294967295 }
    ensures found { IfSome result (λ y. (y.start ≡ x.now.start) × (y.len ≡ x.now.len + 1)
        × (x.now.start + x.now.len ≡ block)) }
    ensures none { IfNone result (x.now.start + x.now.len ≢ block) }
{
    if x.start as u64 + x.len as u64 == block as u64 {
        Some(Extent {
            start: x.start,
            len: x.len + 1,
        })
    } else {
        None
    }
}

/// Adds a block behind those of the extents, in the place that the last of them keeps free.
fn put_block(extents: &mut Extents, block: u32)
    requires fits { block < 4294967295 }
    requires len { 0 < length extents.old }
    ensures ok { (xs : List TheExtent) (x : TheExtent) → extents.old ≡ xs ++ x ∷ []
        → blocks_of extents.new ≡ blocks_of xs ++ block ∷ [] }
    ensures kept { (xs : List TheExtent) (x : TheExtent) → extents.old ≡ xs ++ x ∷ []
        → AreMaximal xs → AreMaximal extents.new }
    ensures end { (xs : List TheExtent) (x : TheExtent) → extents.old ≡ xs ++ x ∷ []
        → EndWithin xs → EndWithin extents.new }
{
    let n = extents.len();
    if n > 1 {
        if let Some(longer) = joined(extents.get(n - 2), block) {
            extents.pop();
            extents.replace_last(longer);
            return;
        }
    }
    extents.replace_last(Extent {
        start: block,
        len: 1,
    });
}

/// Takes the lowest free block, and adds it behind those of the extents. Without memory nothing has changed.
pub(crate) fn take_block(extents: &mut Extents, space: &mut Space) -> Result<u32, NoMemory>
    requires { HasFreeBlock space.old }
    ensures ok { IfOk result (λ b. blocks_of extents.new ≡ blocks_of extents.old ++ b ∷ []) }
    ensures found { IfOk result (λ b. IsLowestTaken space.old b space.new) }
    ensures fits { IfOk result (λ b. b < 4294967295) }
    ensures kept { AreMaximal extents.old → AreMaximal extents.new }
    ensures end { EndWithin extents.old → EndWithin extents.new }
    ensures err { OnErr result (SameBlocks space.old space.new × (extents.new ≡ extents.old)) }
{
    let place = Extent { start: 0, len: 0 };
    if let Err((failed, _)) = extents.push(place) {
        return Err(failed);
    }
    match take_lowest(space) {
        Ok(block) => {
            put_block(extents, block);
            Ok(block)
        }
        Err(failed) => {
            extents.pop();
            Err(failed)
        }
    }
}
