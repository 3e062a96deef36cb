//! Bytes in a chain of blocks, as they are written.

ghost use Rattle.std.specs.Prelude.{◌≡◌, ◌≤◌, ◌<◌, ◌+◌, ◌-◌, ◌*◌, ◌^◌, ℕ, Bool, true, take, drop, length, slice_index_or, IsSome, OnOk, OnErr, IfOk, IsErrOf};
ghost use Rattle.strat_base.specs.declared.failures.Trouble.TheVariants.{NoMemory, Device, Damaged};
ghost use Rattle.strat_base.specs.Numbers.{placed};
ghost use Rattle.def_crash.specs.Blocks.{TearsBlocks};
ghost use Rattle.def_crash.specs.Faults.{CountsFaults, HasCause};
ghost use Rattle.def_crash.specs.Image.{Image};
ghost use Rattle.def_crash.specs.Moments.{Exposes, Writes};
ghost use Rattle.strat_extent.specs.Blocks.{AreRuns, times_in, total_len, is_free, used_count};
ghost use Rattle.strat_extent.specs.Change.{IsMarked, SameBlocks, AreLowest};
ghost use Rattle.def_bytes.specs.Arrays.{blocks_of};
ghost use Rattle.def_bytes.specs.Chain.{IsChain, chain_length, next_block, link_bytes};
ghost use Rattle.strat_manifest.specs.Chains.{LeavesChain, PutsRun};

use crate::chain::{PIECE, block_room, blocks_for};
use std::alloc::Global;
use strat_base::limits::BLOCK;
use strat_base::{Extent, Extents, Failed, Trouble, put_u32};
use strat_disk::Disk;
use strat_extent::Space;

/// The first 4,092 of these bytes, or all of them.
#[tactic(auto, using(std::proofs::lemmas::List::take_min))]
fn piece(bytes: &[u8]) -> &[u8]
    ensures ok { result.now ≡ take 4092 bytes.now }
    ensures len { length result.now ≤ 4092 }
{
    &bytes[..PIECE.min(bytes.len())]
}

/// The bytes from an offset on.
#[tactic(auto, using(crate::proofs::ChainWriteLemmas::all_behind))]
fn behind(bytes: &[u8], at: usize) -> &[u8]
    requires { at ≤ length bytes.now }
    ensures ok { result.now ≡ drop at bytes.now }
{
    &bytes[at..]
}

/// Writes bytes at an offset.
fn put_part(into: &mut [u8], at: usize, bytes: &[u8])
    requires { at + length bytes.now ≤ length into.old }
    ensures ok { into.new ≡ placed into.old at bytes.now }
{
    into[at..at + bytes.len()].copy_from_slice(bytes);
}

/// Makes a buffer a block of a chain: the number of the next block, these bytes, and zeros.
fn fill_link(buffer: &mut [u8], next: u32, bytes: &[u8])
    requires fits { (length buffer.old ≡ 4096) × (length bytes.now ≤ 4092) }
    ensures ok { buffer.new ≡ link_bytes next bytes.now }
    ensures len { length buffer.new ≡ 4096 }
{
    buffer.fill(0);
    put_u32(buffer, 0, next);
    put_part(buffer, 4, bytes);
}

/// Writes a block of a chain: one write.
fn write_link<D: Disk>(
    disk: &mut D,
    block: u32,
    next: u32,
    bytes: &[u8],
    buffer: &mut [u8],
) -> Result<(), Failed>
    requires fits { (block < 4294967295) × (length buffer.old ≡ 4096) }
    ensures ok { OnOk result (Writes (D.view disk.old) (D.view disk.new) (4096 * block)
        (link_bytes next (take 4092 bytes.now))) }
    ensures images { (free : ℕ → Bool) → free block ≡ true
        → TearsBlocks free (D.view disk.old) (D.view disk.new) }
    ensures len { length buffer.new ≡ 4096 }
    ensures cause { CountsFaults (D.faults disk.old) (D.faults disk.new) result }
    ensures reads { D.reads disk.new ≡ D.reads disk.old }
{
    fill_link(buffer, next, piece(bytes));
    disk.write_at(BLOCK as u64 * block as u64, buffer)
}

/// Writes the blocks of a run in front of those of a chain that begins with `next`, the last block first, so that each
/// names one that is there: one write a block.
fn write_run<D: Disk>(
    disk: &mut D,
    run: Extent,
    next: u32,
    bytes: &[u8],
    buffer: &mut [u8],
) -> Result<u32, Failed>
    requires fits { (0 < run.len) × (run.start + run.len ≤ 4294967295)
        × (4092 * run.len ≤ length bytes.now + 4091) × (length buffer.old ≡ 4096) }
    ensures ok { OnOk result (PutsRun (D.view disk.old) (D.view disk.new)
        run.start run.len next bytes.now) }
    ensures found { IfOk result (λ head. head ≡ run.start) }
    ensures images { (free : ℕ → Bool)
        → ((b : ℕ) → run.start ≤ b → b < run.start + run.len → free b ≡ true)
        → TearsBlocks free (D.view disk.old) (D.view disk.new) }
    ensures len { length buffer.new ≡ 4096 }
    ensures cause { CountsFaults (D.faults disk.old) (D.faults disk.new) result }
    ensures reads { D.reads disk.new ≡ D.reads disk.old }
{
    let mut head = next;
    let mut left = run.len;
    while left > 0 {
        left -= 1;
        let block = run.start + left;
        let at = PIECE * left as usize;
        write_link(disk, block, head, behind(bytes, at), buffer)?;
        head = block;
    }
    Ok(head)
}

/// An extent, counted from 0.
fn extent_at(extents: &[Extent], i: usize) -> Extent
    requires { i < length extents.now }
    ensures ok { result ≡ slice_index_or extents.now i result }
{
    extents[i]
}

/// Writes bytes into a chain of the blocks of these extents, the last block first, and answers the first: one write a
/// block.
fn write_extents<D: Disk>(
    disk: &mut D,
    extents: &[Extent],
    bytes: &[u8],
    buffer: &mut [u8],
) -> Result<u32, Failed>
    requires kept { AreRuns 0 extents.now (2 ^ 32) }
    requires len { (total_len extents.now ≡ chain_length (length bytes.now))
        × (1 ≤ length bytes.now) × (length bytes.now ≤ 4290772992) }
    requires room { length buffer.old ≡ 4096 }
    ensures ok { OnOk result (LeavesChain (D.view disk.old) (D.view disk.new)
        (blocks_of extents.now) bytes.now) }
    ensures found { IfOk result (λ first. first ≡ next_block (blocks_of extents.now)) }
    ensures images { (free : ℕ → Bool)
        → ((b : ℕ) → 0 < times_in extents.now b → free b ≡ true)
        → TearsBlocks free (D.view disk.old) (D.view disk.new) }
    ensures cause { CountsFaults (D.faults disk.old) (D.faults disk.new) result }
    ensures reads { D.reads disk.new ≡ D.reads disk.old }
{
    let mut head = 0;
    let mut at = PIECE * blocks_for(bytes.len()) as usize;
    let mut i = extents.len();
    while i > 0 {
        i -= 1;
        let run = extent_at(extents, i);
        at -= PIECE * run.len as usize;
        head = write_run(disk, run, head, behind(bytes, at), buffer)?;
    }
    Ok(head)
}

/// Writes bytes into a chain of the lowest free blocks, and answers the first of them and all: one write a block. All
/// memory is taken before the first of them. After an error the blocks that were taken are free again.
pub(crate) fn write_chain<D: Disk>(
    alloc: Global,
    disk: &mut D,
    space: &mut Space,
    bytes: &[u8],
) -> Result<(u32, Extents), Trouble>
    requires fits { (1 ≤ length bytes.now) × (length bytes.now ≤ 4290772992)
        × (1 ≤ space.old.first) }
    requires room { used_count space.old + chain_length (length bytes.now)
        ≤ 4294967295 - space.old.first }
    ensures ok { IfOk result (λ r. IsSome (D.view disk.old).content → (g : Image)
        → Exposes (D.view disk.new) g → IsChain g (blocks_of r.1) bytes.now) }
    ensures found { IfOk result (λ r. IsMarked space.old r.1 space.new
        × AreLowest r.1 space.new × (r.0 ≡ next_block (blocks_of r.1))) }
    ensures len { IfOk result (λ r. total_len r.1 ≡ chain_length (length bytes.now)) }
    ensures fits { IfOk result (λ r. (space.old.first ≤ r.0) × (r.0 < 4294967295)) }
    ensures images { TearsBlocks (is_free space.old) (D.view disk.old) (D.view disk.new) }
    ensures err { OnErr result (SameBlocks space.old space.new) }
    ensures same { IsErrOf result NoMemory → disk.new ≡ disk.old }
    ensures cause { HasCause Device (D.faults disk.old) (D.faults disk.new) result }
    ensures damaged { (b : ℕ) → IsErrOf result (Damaged b) → ⊥ }
    ensures reads { D.reads disk.new ≡ D.reads disk.old }
{
    let mut buffer = block_room(alloc)?;
    let taken = space.take(blocks_for(bytes.len()))?;
    match write_extents(disk, taken.as_slice(), bytes, &mut buffer) {
        Ok(first) => Ok((first, taken)),
        Err(_) => {
            space.give(&taken);
            Err(Trouble::Device)
        }
    }
}
