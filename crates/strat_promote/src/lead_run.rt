//! The leads of an array as a run.

ghost use Rattle.std.specs.List.{Contains, slice_get};
ghost use Rattle.std.specs.Prelude.{◌≡◌, ◌≤◌, ◌<◌, ℕ, true, List, drop, length, Some, IfOk, OnOk, OnErr, IsErrOf, IsTrue};
ghost use Rattle.strat_base.specs.Entries.{is_ascending, is_tagged, lead_entries};
ghost use Rattle.strat_base.specs.declared.failures.Fault.TheVariants.{Damaged, Device};
ghost use Rattle.def_crash.specs.Faults.{HasCause};
ghost use Rattle.def_crash.specs.Image.{Image};
ghost use Rattle.def_crash.specs.Moments.{Exposes, OnlyReads};
ghost use Rattle.strat_merge.specs.Runs.{IsEntryRun, ReadsFront};
ghost use Rattle.strat_promote.specs.EntryRunProp.{entry_run_prop};
ghost use Rattle.strat_promote.specs.LeadRuns.{PassesOver, begins_with_lead, is_settled, leads_from, misfit_from, read_out};

use crate::lead_blocks::LeadBlocks;
use crate::tag::Tag;
use std::alloc::Global;
use strat_base::{ArrayDesc, Entry, Fault, Trouble};
use strat_disk::Disk;

/// The index of the first lead of the block at hand from an index on, or how many entries it has. O(1) and one question
/// to the tag for each entry that is passed.
fn first_lead(blocks: &LeadBlocks, tag: &Tag, from: u16) -> u16
    requires { from ≤ length blocks.now.entries }
    ensures ok { lead_entries tag.now (drop result blocks.now.entries)
        ≡ lead_entries tag.now (drop from blocks.now.entries) }
    ensures found { result < length blocks.now.entries → (more : List ℕ)
        → IsTrue (begins_with_lead tag.now (drop result blocks.now.entries) more) }
    ensures len { (from ≤ result) × (result ≤ length blocks.now.entries) }
{
    let mut at = from;
    while at < blocks.count() && !tag.holds(blocks.entry(at).version) {
        at += 1;
    }
    at
}

/// Moves an index of the block at hand on to the first lead from there on, in this block or in one that is read here;
/// past the last block it is how many entries that has. Each block is read once.
fn reach_lead<D: Disk>(
    blocks: &mut LeadBlocks,
    tag: &Tag,
    at: &mut u16,
    disk: &mut D,
) -> Result<(), Fault>
    requires { at.old ≤ length blocks.old.entries }
    ensures ok { OnOk result (PassesOver (D.view disk.old) tag.now blocks.old at.old
        blocks.new at.new) }
    ensures state { IsTrue (is_settled tag.now
        (drop at.new blocks.new.entries) blocks.new.blocks) }
    ensures fits { at.new ≤ 454 }
    ensures err { OnErr result (blocks.new ≡ read_out) }
    ensures damaged { (b : ℕ) → IsErrOf result (Damaged b) → Contains blocks.old.blocks b
        × ((f : Image) → Exposes (D.view disk.old) f → misfit_from f blocks.old ≡ Some b) }
    ensures same { OnlyReads (D.view disk.old) (D.view disk.new) }
    ensures cause { HasCause Device (D.faults disk.old) (D.faults disk.new) result }
    ensures reads { ReadsFront blocks.old.blocks blocks.new.blocks
        (D.reads disk.old) (D.reads disk.new) }
{
    *at = first_lead(blocks, tag, *at);
    while *at == blocks.count() {
        if !blocks.next(disk)? {
            return Ok(());
        }
        *at = first_lead(blocks, tag, 0);
    }
    Ok(())
}

/// The leads of an array, of whose blocks one is in memory: from the first lead on at which it stands.
#[derive(Drop)]
pub struct LeadRun {
    blocks: LeadBlocks,
    tag: Tag,
    horizon: u32,
    at: u16,
    ghost settled: { IsTrue (is_settled tag (drop at blocks.entries) blocks.blocks) },
    ghost fits: { at ≤ 454 },
    ghost law: { IsEntryRun (leads_from tag horizon (drop at blocks.entries) blocks.blocks) } by { entry_run_prop _ },
    ghost below: { (v : ℕ) → is_tagged tag v ≡ true → v < horizon },
}

impl LeadRun {
    ghost use Rattle.std.specs.Prelude.{option_map, IsSome, IfSome};
    ghost use Rattle.strat_array.specs.Within.{AreWithin};
    ghost use Rattle.strat_base.specs.EntryBytes.{fits_fields};
    ghost use Rattle.strat_base.specs.EntryView.{entry_of};
    ghost use Rattle.strat_base.specs.declared.failures.Trouble.TheVariants as trouble;
    ghost use Rattle.def_crash.specs.Faults.{ReadsAtMost};
    ghost use Rattle.def_bytes.specs.Arrays.{blocks_of};
    ghost use Rattle.strat_merge.specs.Runs.{Advances};
    ghost use Rattle.strat_promote.specs.LeadFields.{lead_run_seen};
    ghost use Rattle.strat_promote.specs.Leads.{leads_in, misfit_in};

    /// Begins with the first lead of an array: reads blocks until there is one. What is taken here is a block, a key and
    /// copies of the extents and of the tag. Device: the disk counted a fault. Damaged: this block of the array holds no
    /// entries, or none that come after those before it.
    pub fn open<D: Disk>(
        alloc: Global,
        disk: &mut D,
        desc: &ArrayDesc,
        horizon: u32,
    ) -> Result<LeadRun, Trouble>
        requires fits { AreWithin desc.now.extents }
        requires room { (v : ℕ) → is_tagged desc.now.versions v ≡ true → v < horizon }
        ensures ok { IfOk result (λ run. (f : Image) → Exposes (D.view disk.old) f
            → (lead_run_seen run).left f ≡ leads_in f desc.now) }
        ensures found { IfOk result (λ run. (lead_run_seen run).versions ≡ horizon) }
        ensures kept { IfOk result (λ run. (f : Image) (b : ℕ) → Exposes (D.view disk.old) f
            → (lead_run_seen run).misfit f ≡ Some b → misfit_in f desc.now ≡ Some b) }
        ensures damaged { (b : ℕ) → IsErrOf result (trouble.Damaged b)
            → Contains (blocks_of desc.now.extents) b
            × ((f : Image) → Exposes (D.view disk.old) f → misfit_in f desc.now ≡ Some b) }
        ensures same { OnlyReads (D.view disk.old) (D.view disk.new) }
        ensures cause { HasCause trouble.Device (D.faults disk.old) (D.faults disk.new) result }
        ensures reads { IfOk result (λ run. ReadsFront (blocks_of desc.now.extents)
            (lead_run_seen run).blocks (D.reads disk.old) (D.reads disk.new)) }
        ensures err { OnErr result (ReadsAtMost (length (blocks_of desc.now.extents))
            (D.reads disk.old) (D.reads disk.new)) }
    {
        let tag = Tag::of(alloc, desc.versions.as_slice())?;
        let mut blocks = LeadBlocks::new(alloc, desc)?;
        let mut at = 0;
        reach_lead(&mut blocks, &tag, &mut at, disk)?;
        Ok(LeadRun {
            blocks,
            tag,
            horizon,
            at,
        })
    }

    /// The first lead that is left, or `None` at the end. O(1), and nothing is read.
    pub(crate) fn peek(&self) -> Option<Entry<'_>>
        ensures ok { option_map entry_of result ≡ (lead_run_seen self.now).first }
        ensures fits { IfSome result (λ e. IsTrue (fits_fields (entry_of e))) }
        ensures room { IfSome result (λ e. e.version < (lead_run_seen self.now).versions) }
    {
        if self.at < self.blocks.count() {
            Some(self.blocks.entry(self.at))
        } else {
            None
        }
    }

    /// Passes over the first lead, and reads blocks until there is another. Device: the disk counted a fault. Damaged:
    /// this block holds no entries, or none that come after those before it. After an error the run is spent.
    pub(crate) fn advance<D: Disk>(&mut self, disk: &mut D) -> Result<(), Fault>
        requires { IsSome (lead_run_seen self.old).first }
        ensures ok { OnOk result (Advances (D.view disk.old)
            (lead_run_seen self.old) (lead_run_seen self.new)) }
        ensures same { OnlyReads (D.view disk.old) (D.view disk.new) }
        ensures cause { HasCause Device (D.faults disk.old) (D.faults disk.new) result }
        ensures damaged { (b : ℕ) → IsErrOf result (Damaged b)
            → Contains (lead_run_seen self.old).blocks b }
        ensures err { (b : ℕ) → IsErrOf result (Damaged b) → (c : Image)
            → Exposes (D.view disk.old) c → (lead_run_seen self.old).misfit c ≡ Some b }
        ensures kept { (c : Image) (b : ℕ) → Exposes (D.view disk.old) c
            → (lead_run_seen self.new).misfit c ≡ Some b
            → (lead_run_seen self.old).misfit c ≡ Some b }
        ensures reads { ReadsFront (lead_run_seen self.old).blocks (lead_run_seen self.new).blocks
            (D.reads disk.old) (D.reads disk.new) }
    {
        self.at += 1;
        reach_lead(&mut self.blocks, &self.tag, &mut self.at, disk)
    }
}
