//! Room for one block that was read, or copied from a cache.

ghost use Rattle.std.specs.Prelude.{◌≡◌, ◌<◌, ◌-◌, ◌^◌, ℕ, length, slice_index_or, nat_lt, ◌≤◌, is_some, None, Some, IsSome, IfOk, IfSome, OnOk, OnErr, IsErrOf, IsTrue};
ghost use Rattle.strat_base.specs.Entries.{Entry as TheEntry};
ghost use Rattle.strat_base.specs.EntryBytes.{fits_fields};
ghost use Rattle.strat_base.specs.EntryView.{entry_of};
ghost use Rattle.strat_base.specs.declared.failures.Fault.TheVariants.{Damaged, Device};
ghost use Rattle.def_crash.specs.Faults.{HasCause, ReadsAtMost};
ghost use Rattle.def_crash.specs.Image.{Image};
ghost use Rattle.def_crash.specs.Moments.{Exposes, OnlyReads};
ghost use Rattle.def_bytes.specs.Block.{block_in, fits_block};
ghost use Rattle.def_bytes.specs.Arrays.{block_on};
ghost use Rattle.strat_array.specs.Kept.{held_block};

use std::alloc::Global;
use std::marker::Model;
use strat_base::limits::BLOCK;
use strat_base::{Entry, Fault, NoMemory};
use strat_block::{BlockView, is_block};
use strat_disk::Disk;

/// Room for one block. It remembers of which array and index the block is that it holds, so that a walk over the
/// entries of one block looks that block up once.
#[derive(Drop)]
pub struct Scratch {
    holds: Option<(u64, u32)>,
    bytes: Vec<u8>,
}

impl Model for Scratch {
    ghost use Rattle.std.specs.Prelude.{Option};
    ghost use Rattle.strat_array.specs.Kept.{Kept};
    ghost use Rattle.strat_array.specs.ScratchFields.{kept_in, HoldsBlock};

    ghost Value = { Option Kept };

    ghost view = { kept_in };

    ghost invariant = { HoldsBlock };
}

/// Reads a block of a disk: one read, and one pass over its bytes. What is no block is damaged.
fn read_block<D: Disk>(disk: &mut D, block: u32, into: &mut [u8]) -> Result<(), Fault>
    requires fits { block < 2 ^ 32 - 1 }
    requires len { length into.old ≡ 4096 }
    ensures ok { OnOk result (IsSome (block_in into.new)) }
    ensures found { OnOk result ((f : Image) → Exposes (D.view disk.old) f
        → block_on f block ≡ block_in into.new) }
    ensures damaged { (b : ℕ) → IsErrOf result (Damaged b) → (b ≡ block)
        × ((f : Image) → Exposes (D.view disk.old) f → block_on f block ≡ None) }
    ensures same { OnlyReads (D.view disk.old) (D.view disk.new) }
    ensures cause { HasCause Device (D.faults disk.old) (D.faults disk.new) result }
    ensures reads { ReadsAtMost 1 (D.reads disk.old) (D.reads disk.new) }
{
    let Ok(()) = disk.read_at(block as u64 * BLOCK as u64, into) else {
        return Err(Fault::Device);
    };
    if !is_block(into) {
        return Err(Fault::Damaged { block });
    }
    Ok(())
}

impl Scratch {
    /// Room for a block of 4,096 bytes, which is taken here. It holds none yet. The only error is want of memory.
    pub fn new(alloc: Global) -> Result<Scratch, NoMemory>
        ensures ok { IfOk result (λ s. s ≡ None) }
    {
        let mut bytes = Vec::with_capacity(alloc, BLOCK)?;
        bytes.resize(BLOCK, 0)?;
        Ok(Scratch { holds: None, bytes })
    }

    /// Forgets which block it holds. O(1).
    pub fn forget(&mut self)
        ensures ok { self.new ≡ None }
    {
        self.holds = None;
    }

    /// Whether it holds a block of an array. O(1).
    pub(crate) fn is_held(&self, array: u64, index: u32) -> bool
        ensures ok { result ≡ is_some (held_block self.now array index) }
    {
        self.holds == Some((array, index))
    }

    /// The block that it holds. O(1).
    pub(crate) fn block(&self) -> BlockView<'_>
        requires found { IsSome self.now }
        ensures ok { IfSome self.now (λ kept. result ≡ kept.1) }
    {
        BlockView::of(&self.bytes)
    }

    /// Reads a block of an array: one read, and one pass over its bytes. After an error it holds none. Device: the
    /// disk counted a fault. Damaged: the block is no block of entries.
    pub fn fetch<D: Disk>(
        &mut self,
        disk: &mut D,
        array: u64,
        index: u32,
        block: u32,
    ) -> Result<(), Fault>
        requires fits { block < 2 ^ 32 - 1 }
        ensures ok { OnOk result (IfSome self.new (λ kept. (kept.0 ≡ (array, index))
            × ((f : Image) → Exposes (D.view disk.old) f → block_on f block ≡ Some kept.1))) }
        ensures found { OnOk result (IsSome self.new) }
        ensures err { OnErr result (self.new ≡ None) }
        ensures damaged { (b : ℕ) → IsErrOf result (Damaged b) → (b ≡ block)
            × ((f : Image) → Exposes (D.view disk.old) f → block_on f block ≡ None) }
        ensures same { OnlyReads (D.view disk.old) (D.view disk.new) }
        ensures cause { HasCause Device (D.faults disk.old) (D.faults disk.new) result }
        ensures reads { ReadsAtMost 1 (D.reads disk.old) (D.reads disk.new) }
    {
        self.holds = None;
        read_block(disk, block, &mut self.bytes)?;
        self.holds = Some((array, index));
        Ok(())
    }

    /// Takes a copy of a block of an array. O(1) and one copy of 4,096 bytes.
    pub(crate) fn copy(&mut self, array: u64, index: u32, block: &BlockView<'_>)
        ensures ok { self.new ≡ Some ((array, index), block.now) }
    {
        self.bytes.copy_from_slice(block.bytes());
        self.holds = Some((array, index));
    }

    /// How many entries the block has that it holds: at least one. O(1).
    pub fn count(&self) -> u16
        requires found { IsSome self.now }
        ensures ok { IfSome self.now (λ kept. result ≡ length kept.1) }
        ensures fits { (0 < result) × (result ≤ 454) }
        ensures kept { IfSome self.now (λ kept. IsTrue (fits_block kept.1)) }
    {
        self.block().len() as u16
    }

    /// Whether the block that it holds has an entry at an index. O(1).
    pub(crate) fn has(&self, index: u16) -> bool
        requires { IsSome self.now }
        ensures ok { IfSome self.now (λ kept. result ≡ nat_lt index (length kept.1)) }
        ensures len { IfSome self.now (λ kept. 0 < length kept.1) }
        ensures fits { IfSome self.now (λ kept. length kept.1 ≤ 454) }
    {
        (index as usize) < self.block().len()
    }

    /// The entry at an index of the block that it holds. O(1).
    pub fn entry(&self, index: u16) -> Entry<'_>
        requires found { IsSome self.now }
        requires fits { IfSome self.now (λ kept. index < length kept.1) }
        ensures ok { IfSome self.now (λ kept. (d : TheEntry)
            → entry_of result ≡ slice_index_or kept.1 index d) }
        ensures fits { IsTrue (fits_fields (entry_of result)) }
    {
        self.block().entry(index as usize)
    }
}
