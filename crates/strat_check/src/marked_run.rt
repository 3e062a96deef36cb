//! The entries of an array as a run that is marked with its place among others, so that a merge of such runs loses none.

ghost use Rattle.std.specs.List.{Contains};
ghost use Rattle.std.specs.Prelude.{◌≡◌, ◌≤◌, ◌<◌, ℕ, List, drop, length, Some, IfOk, OnOk, OnErr, IsErrOf, IsTrue};
ghost use Rattle.strat_base.specs.Entries.{lead_entries};
ghost use Rattle.strat_base.specs.declared.failures.Fault.TheVariants.{Damaged, Device};
ghost use Rattle.def_crash.specs.Faults.{HasCause};
ghost use Rattle.def_crash.specs.Image.{Image};
ghost use Rattle.def_crash.specs.Moments.{Exposes, OnlyReads};
ghost use Rattle.strat_merge.specs.Runs.{IsEntryRun, ReadsFront};
ghost use Rattle.strat_promote.specs.EntryRunProp.{entry_run_prop};
ghost use Rattle.strat_promote.specs.LeadRuns.{PassesOver, begins_with_lead, is_settled, leads_from, misfit_from, read_out};
ghost use Rattle.strat_check.specs.Below.{versions_below};

use std::alloc::Global;
use strat_base::{ArrayDesc, Entry, Fault, Trouble};
use strat_disk::Disk;
use strat_promote::lead_blocks::LeadBlocks;

/// Places that runs may have. The version of a marked entry is so many times its own, and the place of its run.
pub(crate) const PLACES: u32 = 16_384;

/// The index of the first entry from an index on, in the block at hand, whose version is below a number, or how many
/// entries it has. O(1) for each entry that is passed.
fn first_below(blocks: &LeadBlocks, versions: u32, from: u16) -> u16
    requires { from ≤ length blocks.now.entries }
    ensures ok { lead_entries (versions_below versions) (drop result blocks.now.entries)
        ≡ lead_entries (versions_below versions) (drop from blocks.now.entries) }
    ensures found { result < length blocks.now.entries → (more : List ℕ)
        → IsTrue (begins_with_lead (versions_below versions)
        (drop result blocks.now.entries) more) }
    ensures len { (from ≤ result) × (result ≤ length blocks.now.entries) }
{
    let mut at = from;
    while at < blocks.count() && blocks.entry(at).version >= versions {
        at += 1;
    }
    at
}

/// Moves an index of the block at hand on to the first entry from there on whose version is below a number, in this block
/// or in one that is read here; past the last block it is how many entries that has. Each block is read once.
pub(crate) fn reach_below<D: Disk>(
    blocks: &mut LeadBlocks,
    versions: u32,
    at: &mut u16,
    disk: &mut D,
) -> Result<(), Fault>
    requires { at.old ≤ length blocks.old.entries }
    ensures ok { OnOk result (PassesOver (D.view disk.old) (versions_below versions)
        blocks.old at.old blocks.new at.new) }
    ensures state { IsTrue (is_settled (versions_below versions)
        (drop at.new blocks.new.entries) blocks.new.blocks) }
    ensures fits { at.new ≤ 454 }
    ensures err { OnErr result (blocks.new ≡ read_out) }
    ensures damaged { (b : ℕ) → IsErrOf result (Damaged b) → Contains blocks.old.blocks b
        × ((f : Image) → Exposes (D.view disk.old) f → misfit_from f blocks.old ≡ Some b) }
    ensures same { OnlyReads (D.view disk.old) (D.view disk.new) }
    ensures cause { HasCause Device (D.faults disk.old) (D.faults disk.new) result }
    ensures reads { ReadsFront blocks.old.blocks blocks.new.blocks
        (D.reads disk.old) (D.reads disk.new) }
{
    *at = first_below(blocks, versions, *at);
    while *at == blocks.count() {
        if !blocks.next(disk)? {
            return Ok(());
        }
        *at = first_below(blocks, versions, 0);
    }
    Ok(())
}

/// The entries of an array whose versions are below a number, from the one on at which the run stands. One block is in
/// memory. Each entry is marked with the run's place: its version is 16,384 times its own, and the place.
#[derive(Drop)]
pub struct MarkedRun {
    pub(crate) blocks: LeadBlocks,
    pub(crate) versions: u32,
    pub(crate) place: u32,
    pub(crate) at: u16,
    ghost settled: { IsTrue (is_settled (versions_below versions) (drop at blocks.entries) blocks.blocks) },
    ghost fits: { at ≤ 454 },
    ghost law: { IsEntryRun (leads_from (versions_below versions) versions (drop at blocks.entries) blocks.blocks) } by { entry_run_prop _ },
    ghost low: { (place < 16384) × (versions ≤ 16384) },
}

impl MarkedRun {
    ghost use Rattle.std.specs.Prelude.{◌*◌, nat_lt, map, filter, option_map, IfSome, IsSome};
    ghost use Rattle.strat_array.specs.Within.{AreWithin};
    ghost use Rattle.strat_base.specs.Entries.{Entry as TheEntry, is_ascending};
    ghost use Rattle.strat_base.specs.EntryBytes.{fits_fields};
    ghost use Rattle.strat_base.specs.EntryView.{entry_of};
    ghost use Rattle.strat_base.specs.declared.failures.Trouble.TheVariants as trouble;
    ghost use Rattle.def_crash.specs.Faults.{ReadsAtMost};
    ghost use Rattle.def_bytes.specs.Arrays.{blocks_of, entries_on};
    ghost use Rattle.def_check.specs.Marked.{marked};
    ghost use Rattle.strat_merge.specs.Runs.{Advances};
    ghost use Rattle.strat_promote.specs.Leads.{misfit_in};
    ghost use Rattle.strat_check.specs.MarkedRuns.{AreMisfitsOf, marked_seen, unmarked_seen};

    /// Begins with the first entry of an array whose version is below a number: reads blocks until there is one. What is
    /// taken here is a block, a key and a copy of the extents. Device: the disk counted a fault. Damaged: this block of
    /// the array holds no entries, or none that come after those before it.
    pub fn open<D: Disk>(
        alloc: Global,
        disk: &mut D,
        desc: &ArrayDesc,
        place: u32,
        versions: u32,
    ) -> Result<MarkedRun, Trouble>
        requires fits { AreWithin desc.now.extents }
        requires room { (place < 16384) × (versions ≤ 16384) }
        ensures ok { IfOk result (λ run. (f : Image) → Exposes (D.view disk.old) f
            → (c : List TheEntry) → entries_on f (blocks_of desc.now.extents) ≡ Some c
            → IsTrue (is_ascending c)
            → ((unmarked_seen run).left f ≡ filter (λ e. nat_lt e.version versions) c)
            × ((marked_seen run).left f
            ≡ map (marked place) (filter (λ e. nat_lt e.version versions) c))) }
        ensures found { IfOk result (λ run. (marked_seen run).versions ≡ 16384 * versions) }
        ensures kept { IfOk result (λ run. AreMisfitsOf (D.view disk.old) desc.now
            (marked_seen run)) }
        ensures damaged { (b : ℕ) → IsErrOf result (trouble.Damaged b)
            → Contains (blocks_of desc.now.extents) b
            × ((f : Image) → Exposes (D.view disk.old) f → misfit_in f desc.now ≡ Some b) }
        ensures same { OnlyReads (D.view disk.old) (D.view disk.new) }
        ensures cause { HasCause trouble.Device (D.faults disk.old) (D.faults disk.new) result }
        ensures reads { IfOk result (λ run. ReadsFront (blocks_of desc.now.extents)
            (marked_seen run).blocks (D.reads disk.old) (D.reads disk.new)) }
        ensures err { OnErr result (ReadsAtMost (length (blocks_of desc.now.extents))
            (D.reads disk.old) (D.reads disk.new)) }
    {
        let mut blocks = LeadBlocks::new(alloc, desc)?;
        let mut at = 0;
        reach_below(&mut blocks, versions, &mut at, disk)?;
        Ok(MarkedRun {
            blocks,
            versions,
            place,
            at,
        })
    }

    /// The first entry that is left, without its mark, or `None` at the end. O(1), and nothing is read.
    pub(crate) fn first(&self) -> Option<Entry<'_>>
        ensures ok { option_map entry_of result ≡ (unmarked_seen self.now).first }
        ensures fits { IfSome result (λ e. IsTrue (fits_fields (entry_of e))) }
        ensures room { IfSome result (λ e. e.version < self.now.versions) }
        ensures len { (self.now.place < 16384) × (self.now.versions ≤ 16384) }
    {
        if self.at < self.blocks.count() {
            Some(self.blocks.entry(self.at))
        } else {
            None
        }
    }

    /// Passes over the first entry that is left, and reads blocks until there is another one whose version is below the
    /// number. Device: the disk counted a fault. Damaged: this block holds no entries, or none that come after those before
    /// it. After an error nothing is left.
    pub(crate) fn pass<D: Disk>(&mut self, disk: &mut D) -> Result<(), Fault>
        requires { IsSome (unmarked_seen self.old).first }
        ensures ok { OnOk result
            (Advances (D.view disk.old) (unmarked_seen self.old) (unmarked_seen self.new)) }
        ensures found { self.new.place ≡ self.old.place }
        ensures damaged { (b : ℕ) → IsErrOf result (Damaged b)
            → Contains (unmarked_seen self.old).blocks b }
        ensures err { (b : ℕ) → IsErrOf result (Damaged b) → (f : Image)
            → Exposes (D.view disk.old) f → (unmarked_seen self.old).misfit f ≡ Some b }
        ensures kept { (f : Image) (b : ℕ) → Exposes (D.view disk.old) f
            → (unmarked_seen self.new).misfit f ≡ Some b
            → (unmarked_seen self.old).misfit f ≡ Some b }
        ensures same { OnlyReads (D.view disk.old) (D.view disk.new) }
        ensures cause { HasCause Device (D.faults disk.old) (D.faults disk.new) result }
        ensures reads { ReadsFront (unmarked_seen self.old).blocks (unmarked_seen self.new).blocks
            (D.reads disk.old) (D.reads disk.new) }
    {
        self.at += 1;
        reach_below(&mut self.blocks, self.versions, &mut self.at, disk)
    }
}
