//! The blocks of an array, looked at in order: whether each holds entries, and what is told of all of them before they are
//! merged.

ghost use Rattle.std.specs.List.{Contains};
ghost use Rattle.std.specs.Prelude.{◌≡◌, ◌≤◌, ◌<◌, ◌+◌, ◌-◌, ◌*◌, ◌^◌, ◌&&◌, ℕ, length, None, Some, IfOk, IsErrOf};
ghost use Rattle.strat_array.specs.Within.{AreWithin};
ghost use Rattle.strat_base.specs.declared.failures.Fault.TheVariants as fault;
ghost use Rattle.strat_base.specs.declared.failures.Trouble.TheVariants as trouble;
ghost use Rattle.def_crash.specs.Faults.{HasCause, ReadsAtMost};
ghost use Rattle.def_crash.specs.Image.{Image};
ghost use Rattle.def_crash.specs.Moments.{Exposes, OnlyReads};
ghost use Rattle.def_bytes.specs.Arrays.{block_on, blocks_of};
ghost use Rattle.strat_promote.specs.LeadRuns.{entries_at_hand};
ghost use Rattle.strat_check.specs.Scanned.{IsScanned, ComesBehind, first_empty, have_low_versions};

use std::alloc::Global;
use strat_array::{BlockNumbers, Scratch};
use strat_base::{ArrayDesc, Fault, Trouble};
use strat_disk::Disk;
use strat_promote::last_read::LastRead;

/// What is told of some blocks of an array.
#[derive(Clone, Copy)]
pub struct Scan {
    /// Their entries ascend; of one block that is looked at behind others, they come after those.
    pub ascends: bool,
    /// How many entries they have: at most 454 each.
    pub entries: u64,
    /// The versions of all entries are below the number of versions.
    pub is_within: bool,
}

impl Scan {
    /// What is told of these blocks and the one behind them.
    fn with(self, block: Scan) -> Scan
        requires fits { self.entries + block.entries ≤ 2 ^ 64 - 1 }
        ensures ok { (result.ascends ≡ (self.ascends && block.ascends))
            × (result.is_within ≡ (self.is_within && block.is_within)) }
        ensures len { result.entries ≡ self.entries + block.entries }
    {
        Scan {
            ascends: self.ascends && block.ascends,
            entries: self.entries + block.entries,
            is_within: self.is_within && block.is_within,
        }
    }
}

/// Whether the entries of the block at hand, so many, have versions below a number.
fn are_within(scratch: &Scratch, len: u16, versions: u32) -> bool
    requires { len ≡ length (entries_at_hand scratch.now) }
    ensures { result ≡ have_low_versions versions (entries_at_hand scratch.now) }
{
    for i in 0..len {
        if scratch.entry(i).version >= versions {
            return false;
        }
    }
    true
}

/// Reads a block, tells whether its entries come after the last one before, how many they are and whether their versions
/// are below a number, and takes the last of them: one read, and two passes over its entries.
fn read_behind<D: Disk>(
    scratch: &mut Scratch,
    last: &mut LastRead,
    block: u32,
    versions: u32,
    disk: &mut D,
) -> Result<Scan, Fault>
    requires fits { block < 2 ^ 32 - 1 }
    ensures ok { IfOk result (λ s. (f : Image) → Exposes (D.view disk.old) f
        → ComesBehind f block versions last.old last.new s) }
    ensures len { IfOk result (λ s. s.entries ≤ 454) }
    ensures damaged { (b : ℕ) → IsErrOf result (fault.Damaged b) → (b ≡ block)
        × ((f : Image) → Exposes (D.view disk.old) f → block_on f block ≡ None) }
    ensures same { OnlyReads (D.view disk.old) (D.view disk.new) }
    ensures cause { HasCause fault.Device (D.faults disk.old) (D.faults disk.new) result }
    ensures reads { ReadsAtMost 1 (D.reads disk.old) (D.reads disk.new) }
{
    // The scratch is this walk's own, so it does not matter under which number it holds the block.
    scratch.fetch(disk, 0, block, block)?;
    let len = scratch.count();
    let ascends = last.is_before(&scratch.entry(0));
    let is_within = are_within(scratch, len, versions);
    last.set(&scratch.entry(len - 1));
    Ok(Scan {
        ascends,
        entries: len as u64,
        is_within,
    })
}

/// Looks at all blocks of an array, each of which is read once: whether their entries ascend over all of them, how many they
/// are, and whether their versions are below a number. What is taken here is a block, a key and a copy of the extents.
/// Device: the disk counted a fault. Damaged: this block of the array is the first that is no block of entries.
pub fn scan_array<D: Disk>(
    alloc: Global,
    desc: &ArrayDesc,
    versions: u32,
    disk: &mut D,
) -> Result<Scan, Trouble>
    requires fits { AreWithin desc.now.extents }
    ensures ok { IfOk result (λ s. (f : Image) → Exposes (D.view disk.old) f
        → IsScanned f (blocks_of desc.now.extents) versions s) }
    ensures len { IfOk result (λ s. s.entries ≤ 454 * length (blocks_of desc.now.extents)) }
    ensures damaged { (b : ℕ) → IsErrOf result (trouble.Damaged b)
        → Contains (blocks_of desc.now.extents) b × ((f : Image) → Exposes (D.view disk.old) f
        → first_empty f (blocks_of desc.now.extents) ≡ Some b) }
    ensures same { OnlyReads (D.view disk.old) (D.view disk.new) }
    ensures cause { HasCause trouble.Device (D.faults disk.old) (D.faults disk.new) result }
    ensures reads { ReadsAtMost (length (blocks_of desc.now.extents))
        (D.reads disk.old) (D.reads disk.new) }
{
    let mut numbers = BlockNumbers::new(alloc, &desc.extents)?;
    let mut scratch = Scratch::new(alloc)?;
    let mut last = LastRead::new(alloc)?;
    let mut all = Scan {
        ascends: true,
        entries: 0,
        is_within: true,
    };
    while let Some(block) = numbers.next() {
        let found = read_behind(&mut scratch, &mut last, block, versions, disk)?;
        all = all.with(found);
    }
    Ok(all)
}
