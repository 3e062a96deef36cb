//! The blocks of an array, read in order, one at a time.

ghost use Rattle.std.specs.List.{Contains};
ghost use Rattle.std.specs.Prelude.{◌≡◌, ◌≤◌, ◌<◌, ◌-◌, ◌^◌, ℕ, List, [], ◌∷◌, length, slice_index_or, Option, None, Some, IsSome, IfOk, IfSome, OnErr, IsErrOf, IsTrue};
ghost use Rattle.strat_array.specs.Within.{AreWithin};
ghost use Rattle.strat_base.specs.Entries.{Entry as TheEntry, is_ascending};
ghost use Rattle.strat_base.specs.EntryBytes.{fits_fields};
ghost use Rattle.strat_base.specs.EntryView.{entry_of};
ghost use Rattle.strat_base.specs.declared.failures.Fault.TheVariants.{Damaged, Device};
ghost use Rattle.def_crash.specs.Faults.{HasCause, ReadsAtMost};
ghost use Rattle.def_crash.specs.Image.{Image};
ghost use Rattle.def_crash.specs.Moments.{Exposes, OnlyReads};
ghost use Rattle.def_bytes.specs.Arrays.{block_on, blocks_of};
ghost use Rattle.strat_merge.specs.Runs.{ReadsFront};
ghost use Rattle.strat_promote.specs.LeadRuns.{Turns, entries_at_hand, key_alone, misfit_from, read_out};
ghost use Rattle.strat_promote.specs.Leads.{comes_after, last_of, misfit_after};

use crate::last_read::LastRead;
use std::alloc::Global;
use std::marker::Model;
use strat_array::{BlockNumbers, Scratch};
use strat_base::{ArrayDesc, Entry, Fault, NoMemory};
use strat_disk::Disk;

/// The blocks of an array, of which the last that was read is in memory. Its entries come after those of the blocks
/// before it. After an error it is spent: no block is at hand, and none is left.
#[derive(Drop)]
pub struct LeadBlocks {
    numbers: BlockNumbers,
    is_spent: bool,
    scratch: Scratch,
    len: u16,
    last: LastRead,
}

impl Model for LeadBlocks {
    ghost use Rattle.strat_promote.specs.LeadRuns.{BlockReading};

    ghost Value = { BlockReading };

    ghost use Rattle.strat_promote.specs.ReadingFields.{reading_of, IsReading};

    ghost view = { reading_of };

    ghost invariant = { IsReading };
}

/// Takes the last entry of the block that a scratch holds, if it holds one: its key is copied once a block.
fn keep_last(scratch: &Scratch, len: u16, last: &mut LastRead)
    requires { len ≡ length (entries_at_hand scratch.now) }
    ensures ok { last.new ≡ key_alone (last_of None (entries_at_hand scratch.now)) }
{
    if len == 0 {
        last.clear();
        return;
    }
    last.set(&scratch.entry(len - 1));
}

/// Reads a block, whose entries have to come after the last entry before it, and says how many it has: one read, and
/// one pass over its bytes. After an error the scratch holds none.
fn read_after<D: Disk>(
    scratch: &mut Scratch,
    last: &LastRead,
    block: u32,
    disk: &mut D,
) -> Result<u16, Fault>
    requires fits { block < 2 ^ 32 - 1 }
    ensures len { IfOk result (λ n. (n ≡ length (entries_at_hand scratch.new)) × (0 < n)) }
    ensures fits { IfOk result (λ n. n ≤ 454) }
    ensures kept { IfOk result (λ n. IsTrue (is_ascending (entries_at_hand scratch.new))) }
    ensures ok { IfOk result (λ n. IsTrue (comes_after last.now (entries_at_hand scratch.new))) }
    ensures found { IfOk result (λ n. (f : Image) → Exposes (D.view disk.old) f
        → block_on f block ≡ Some (entries_at_hand scratch.new)) }
    ensures err { OnErr result (scratch.new ≡ None) }
    ensures damaged { (b : ℕ) → IsErrOf result (Damaged b) → (b ≡ block)
        × ((f : Image) (blocks : List ℕ) → Exposes (D.view disk.old) f
        → misfit_after f last.now (block ∷ blocks) ≡ Some b) }
    ensures same { OnlyReads (D.view disk.old) (D.view disk.new) }
    ensures cause { HasCause Device (D.faults disk.old) (D.faults disk.new) result }
    ensures reads { ReadsAtMost 1 (D.reads disk.old) (D.reads disk.new) }
{
    // The scratch is this reader's own, so it does not matter under which number it holds the block.
    scratch.fetch(disk, 0, block, block)?;
    let len = scratch.count();
    if last.is_before(&scratch.entry(0)) {
        return Ok(len);
    }
    scratch.forget();
    Err(Fault::Damaged { block })
}

impl LeadBlocks {
    /// The blocks of an array, of which none is read yet. What is taken here is a block, a key and a copy of the
    /// extents; the only error is want of memory.
    pub fn new(alloc: Global, desc: &ArrayDesc) -> Result<LeadBlocks, NoMemory>
        requires fits { AreWithin desc.now.extents }
        ensures ok { IfOk result (λ r. r
            ≡ record { entries = []; blocks = blocks_of desc.now.extents }) }
    {
        Ok(LeadBlocks {
            numbers: BlockNumbers::new(alloc, &desc.extents)?,
            is_spent: false,
            scratch: Scratch::new(alloc)?,
            len: 0,
            last: LastRead::new(alloc)?,
        })
    }

    /// How many entries the block at hand has: none before the first block is read. O(1).
    pub fn count(&self) -> u16
        ensures ok { result ≡ length self.now.entries }
        ensures fits { result ≤ 454 }
        ensures kept { IsTrue (is_ascending self.now.entries) }
    {
        self.len
    }

    /// An entry of the block at hand. O(1).
    pub fn entry(&self, index: u16) -> Entry<'_>
        requires { index < length self.now.entries }
        ensures ok { (d : TheEntry) → entry_of result ≡ slice_index_or self.now.entries index d }
        ensures fits { IsTrue (fits_fields (entry_of result)) }
    {
        self.scratch.entry(index)
    }

    /// Reads the next block, and answers whether there was one. Device: the disk counted a fault. Damaged: the block
    /// holds no entries, or none that come after those before it.
    pub fn next<D: Disk>(&mut self, disk: &mut D) -> Result<bool, Fault>
        ensures ok { IfOk result (λ there. Turns (D.view disk.old) self.old self.new there) }
        ensures err { OnErr result (self.new ≡ read_out) }
        ensures damaged { (b : ℕ) → IsErrOf result (Damaged b) → Contains self.old.blocks b
            × ((f : Image) → Exposes (D.view disk.old) f → misfit_from f self.old ≡ Some b) }
        ensures same { OnlyReads (D.view disk.old) (D.view disk.new) }
        ensures cause { HasCause Device (D.faults disk.old) (D.faults disk.new) result }
        ensures reads { ReadsFront self.old.blocks self.new.blocks
            (D.reads disk.old) (D.reads disk.new) }
    {
        if self.is_spent {
            return Ok(false);
        }
        let Some(block) = self.numbers.next() else {
            return Ok(false);
        };
        keep_last(&self.scratch, self.len, &mut self.last);
        match read_after(&mut self.scratch, &self.last, block, disk) {
            Ok(len) => {
                self.len = len;
                Ok(true)
            }
            Err(fault) => {
                self.len = 0;
                self.is_spent = true;
                Err(fault)
            }
        }
    }
}
