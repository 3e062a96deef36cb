//! Writing an array.

ghost use Rattle.std.specs.Prelude.{◌≡◌, ◌≤◌, ◌<◌, ◌+◌, if◌then◌else◌, ℕ, List, ◌++◌, ◌∷◌, [], length, false, replicate, Some, None, OnOk, OnErr, IfOk, IsTrue, MatchResult};
ghost use Rattle.strat_array.specs.Pushed.{AddsBlocks, AreMaximal, IsWritten, IsPushed, HasReason, blocks_needed, has_room_behind, with_entry, with_key};
ghost use Rattle.strat_array.specs.Within.{AreWithin, EndWithin};
ghost use Rattle.strat_array.specs.Taking.{HasFreeBlock, AreUsed, TakesBlock};
ghost use Rattle.strat_base.specs.Entries.{Entry as TheEntry, is_ascending};
ghost use Rattle.strat_base.specs.EntryBytes.{fits_fields};
ghost use Rattle.strat_base.specs.EntryView.{entry_of};
ghost use Rattle.def_crash.specs.Blocks.{TearsBlocks};
ghost use Rattle.def_crash.specs.Image.{Image};
ghost use Rattle.def_crash.specs.Moments.{Exposes};
ghost use Rattle.strat_extent.specs.Blocks.{is_free};
ghost use Rattle.def_bytes.specs.Arrays.{blocks_of, entries_on};
ghost use Rattle.strat_filter.specs.Bits.{bits_for};

use crate::blocks::{take_block, write_block};
use crate::numbers::copied;
use std::alloc::Global;
use std::marker::Model;
use strat_base::{ArrayDesc, Entry, Extents, NoMemory, Trouble, Versions};
use strat_block::BlockWriter;
use strat_disk::Disk;
use strat_extent::Space;
use strat_filter::Filter;

/// Takes a block, writes the entries into it that are in none, and begins anew, if there are any. Where the write
/// failed it begins anew, too.
fn write_pending<D: Disk>(
    pending: &mut BlockWriter,
    extents: &mut Extents,
    space: &mut Space,
    disk: &mut D,
) -> Result<(), Trouble>
    requires room { HasFreeBlock space.old }
    requires found { AreUsed space.old (blocks_of extents.old) }
    ensures ok { OnOk result ((f g : Image) (es : List TheEntry) → Exposes (D.view disk.old) f
        → Exposes (D.view disk.new) g → entries_on f (blocks_of extents.old) ≡ Some es
        → entries_on g (blocks_of extents.new) ≡ Some (es ++ pending.old)) }
    ensures state { OnOk result (pending.new ≡ []) }
    ensures len { blocks_needed extents.new pending.new ≡ blocks_needed extents.old pending.old }
    ensures found { TakesBlock space.old space.new extents.old extents.new }
    ensures kept { (AreMaximal extents.old → AreMaximal extents.new)
        × (EndWithin extents.old → EndWithin extents.new) }
    ensures same { TearsBlocks (is_free space.old) (D.view disk.old) (D.view disk.new) }
    ensures cause { MatchResult result (λ _. D.faults disk.new ≡ D.faults disk.old)
        (λ e. HasReason e (D.faults disk.old) (D.faults disk.new)) }
    ensures reads { D.reads disk.new ≡ D.reads disk.old }
{
    if pending.is_empty() {
        return Ok(());
    }
    let block = take_block(extents, space)?;
    let written = write_block(disk, block, &pending.spell());
    pending.clear();
    written?;
    Ok(())
}

/// Adds an entry behind those that are in no block, and writes these before where it has no room.
fn push_entry<D: Disk>(
    pending: &mut BlockWriter,
    extents: &mut Extents,
    e: &Entry<'_>,
    space: &mut Space,
    disk: &mut D,
) -> Result<(), Trouble>
    requires fits { IsTrue (fits_fields (entry_of e.now)) }
    requires kept { IsTrue (is_ascending (pending.old ++ entry_of e.now ∷ [])) }
    requires room { HasFreeBlock space.old }
    requires found { AreUsed space.old (blocks_of extents.old) }
    ensures ok { OnOk result ((f g : Image) (es : List TheEntry) → Exposes (D.view disk.old) f
        → Exposes (D.view disk.new) g → IsWritten f extents.old pending.old es
        → IsWritten g extents.new pending.new (es ++ entry_of e.now ∷ [])) }
    ensures state { OnOk result (pending.new ≡ with_entry pending.old (entry_of e.now)) }
    ensures len { AddsBlocks extents.old pending.old (entry_of e.now)
        extents.new pending.new result }
    ensures found { TakesBlock space.old space.new extents.old extents.new }
    ensures kept { (AreMaximal extents.old → AreMaximal extents.new)
        × (EndWithin extents.old → EndWithin extents.new) }
    ensures same { TearsBlocks (is_free space.old) (D.view disk.old) (D.view disk.new) }
    ensures cause { MatchResult result (λ _. D.faults disk.new ≡ D.faults disk.old)
        (λ e. HasReason e (D.faults disk.old) (D.faults disk.new)) }
    ensures reads { D.reads disk.new ≡ D.reads disk.old }
{
    if pending.push(e) {
        return Ok(());
    }
    write_pending(pending, extents, space, disk)?;
    pending.push(e);
    Ok(())
}

/// Adds a key to a filter, if one is kept. O(key).
fn add_key(filter: &mut Option<Filter>, key: &[u8])
    ensures ok { filter.new ≡ with_key filter.old key.now }
{
    if let Some(kept) = filter {
        kept.add(key);
    }
}

/// An array that is being written. Its last entries stand in memory until their block is full. It may keep a filter of its
/// keys.
#[derive(Drop)]
pub struct ArrayWriter {
    id: u64,
    count: u32,
    pending: Box<BlockWriter>,
    extents: Extents,
    filter: Option<Filter>,
}

impl Model for ArrayWriter {
    ghost use Rattle.strat_array.specs.Progress.{ArrayProgress};

    ghost Value = { ArrayProgress };

    ghost use Rattle.strat_array.specs.WriterFields.{progress_of, IsWriter};

    ghost view = { progress_of };

    ghost invariant = { IsWriter };
}

impl ArrayWriter {
    /// A writer of the array of this number. The only error is want of memory.
    pub fn new(alloc: Global, id: u64) -> Result<ArrayWriter, NoMemory>
        ensures ok { IfOk result (λ w. w
            ≡ record { id = id; count = 0; pending = []; extents = []; filter = None }) }
    {
        let pending = Box::new(alloc, BlockWriter::new())?;
        Ok(ArrayWriter {
            id,
            count: 0,
            pending,
            extents: Extents::new(alloc),
            filter: None,
        })
    }

    /// Keeps a filter of the keys from now on, for at most so many: it is one of all keys where nothing was pushed yet. It
    /// takes a byte of memory for each, and O(entries). The only error is want of memory, which leaves the writer as it was.
    #[tactic(auto, using(crate::proofs::FilterLemmas::none_added))]
    pub fn keep_filter(&mut self, alloc: Global, entries: u32) -> Result<(), NoMemory>
        requires fits { (1 ≤ entries) × (entries ≤ 33554432) }
        ensures ok { OnOk result (self.new
            ≡ record self.old { filter = Some (replicate (bits_for entries) false) }) }
        ensures err { OnErr result (self.new ≡ self.old) }
        ensures kept { (f : Image) → IsPushed f self.old [] → OnOk result (IsPushed f self.new []) }
    {
        self.filter = Some(Filter::new(alloc, entries)?);
        Ok(())
    }

    /// Adds an entry that stands behind all others. O(bytes of the entry), and where it has no room in
    /// the block so far, that block is written into the lowest free one: one write. A filter that is kept has its key
    /// added. After an error the writer is good for nothing but its extents.
    pub fn push<D: Disk>(
        &mut self,
        e: &Entry<'_>,
        space: &mut Space,
        disk: &mut D,
    ) -> Result<(), Trouble>
        requires fits { IsTrue (fits_fields (entry_of e.now)) × (self.old.count < 33554432) }
        requires kept { IsTrue (is_ascending (self.old.pending ++ entry_of e.now ∷ [])) }
        requires room { HasFreeBlock space.old }
        requires found { AreUsed space.old (blocks_of self.old.extents) }
        ensures ok { OnOk result ((f g : Image) (es : List TheEntry) → Exposes (D.view disk.old) f
            → Exposes (D.view disk.new) g → IsPushed f self.old es
            → IsPushed g self.new (es ++ entry_of e.now ∷ [])) }
        ensures state { OnOk result (
            self.new.pending ≡ with_entry self.old.pending (entry_of e.now)) }
        ensures len { OnOk result ((self.new.count ≡ self.old.count + 1)
            × (length (blocks_of self.new.extents) ≡ length (blocks_of self.old.extents)
            + (if has_room_behind self.old.pending (entry_of e.now) then 0 else 1))) }
        ensures kept { blocks_needed self.new.extents self.new.pending ≤ self.new.count }
        ensures found { TakesBlock space.old space.new self.old.extents self.new.extents }
        ensures same { TearsBlocks (is_free space.old) (D.view disk.old) (D.view disk.new)
            × (self.new.id ≡ self.old.id) }
        ensures cause { MatchResult result (λ _. D.faults disk.new ≡ D.faults disk.old)
            (λ e. HasReason e (D.faults disk.old) (D.faults disk.new)) }
        ensures reads { D.reads disk.new ≡ D.reads disk.old }
    {
        push_entry(&mut self.pending, &mut self.extents, e, space, disk)?;
        add_key(&mut self.filter, e.key);
        self.count += 1;
        Ok(())
    }

    /// Does what `seal` does, and gives the array's descriptor: one write at most. After an error it gives the
    /// blocks that were taken.
    pub fn finish<D: Disk>(
        self,
        leads: u32,
        least: u32,
        versions: Versions,
        space: &mut Space,
        disk: &mut D,
    ) -> Result<ArrayDesc, (Trouble, Extents)>
        requires len { 0 < self.count }
        requires room { HasFreeBlock space.old }
        requires found { AreUsed space.old (blocks_of self.extents) }
        ensures ok { IfOk result (λ a. (a.id ≡ self.id) × (a.entries ≡ self.count)
            × (a.leads ≡ leads) × (a.least ≡ least) × (a.versions ≡ versions)) }
        ensures found { IfOk result (λ a. (f g : Image) (es : List TheEntry)
            → Exposes (D.view disk.old) f → Exposes (D.view disk.new) g → IsPushed f self es
            → entries_on g (blocks_of a.extents) ≡ Some es) }
        ensures kept { IfOk result (λ a. AreMaximal a.extents × AreWithin a.extents) }
        ensures len { IfOk result (λ a. (length (blocks_of a.extents) ≤ a.entries)
            × (length (blocks_of a.extents) ≡ blocks_needed self.extents self.pending)) }
        ensures room { MatchResult result
            (λ a. TakesBlock space.old space.new self.extents a.extents)
            (λ e. TakesBlock space.old space.new self.extents e.1) }
        ensures same { TearsBlocks (is_free space.old) (D.view disk.old) (D.view disk.new) }
        ensures cause { MatchResult result (λ a. D.faults disk.new ≡ D.faults disk.old)
            (λ e. HasReason e.0 (D.faults disk.old) (D.faults disk.new)) }
        ensures reads { D.reads disk.new ≡ D.reads disk.old }
    {
        let ArrayWriter {
            id,
            count,
            mut pending,
            mut extents,
            ..
        } = self;
        match write_pending(&mut pending, &mut extents, space, disk) {
            Ok(()) => Ok(ArrayDesc {
                id,
                entries: count,
                leads,
                least,
                extents,
                versions,
            }),
            Err(failed) => Err((failed, extents)),
        }
    }

    /// Writes the last entries, if they are in no block: one write at most. After an error the writer is good
    /// for nothing but its extents.
    pub fn seal<D: Disk>(&mut self, space: &mut Space, disk: &mut D) -> Result<(), Trouble>
        requires room { HasFreeBlock space.old }
        requires found { AreUsed space.old (blocks_of self.old.extents) }
        ensures ok { OnOk result ((f g : Image) (es : List TheEntry) → Exposes (D.view disk.old) f
            → Exposes (D.view disk.new) g → IsPushed f self.old es
            → entries_on g (blocks_of self.new.extents) ≡ Some es) }
        ensures state { OnOk result (self.new.pending ≡ []) }
        ensures len { blocks_needed self.new.extents self.new.pending
            ≡ blocks_needed self.old.extents self.old.pending }
        ensures found { TakesBlock space.old space.new self.old.extents self.new.extents }
        ensures same { TearsBlocks (is_free space.old) (D.view disk.old) (D.view disk.new)
            × (self.new.id ≡ self.old.id) × (self.new.count ≡ self.old.count) }
        ensures filter { self.new.filter ≡ self.old.filter }
        ensures cause { MatchResult result (λ _. D.faults disk.new ≡ D.faults disk.old)
            (λ e. HasReason e (D.faults disk.old) (D.faults disk.new)) }
        ensures reads { D.reads disk.new ≡ D.reads disk.old }
    {
        write_pending(&mut self.pending, &mut self.extents, space, disk)
    }

    /// The descriptor of the array with the blocks that were written, in the time of copying their extents: after
    /// `seal` it is that of all entries. The only error is want of memory.
    #[tactic(auto, using(crate::proofs::ExtentLemmas::written_within))]
    pub fn describe(
        &self,
        leads: u32,
        least: u32,
        versions: Versions,
    ) -> Result<ArrayDesc, NoMemory>
        ensures ok { IfOk result (λ a. (a.id ≡ self.now.id) × (a.entries ≡ self.now.count)
            × (a.leads ≡ leads) × (a.least ≡ least) × (a.versions ≡ versions)) }
        ensures found { IfOk result (λ a. a.extents ≡ self.now.extents) }
        ensures kept { IfOk result (λ a. AreMaximal a.extents × AreWithin a.extents) }
        ensures len { IfOk result (λ a. length (blocks_of a.extents) ≤ a.entries) }
    {
        let extents = copied(versions.allocator(), &self.extents)?;
        Ok(ArrayDesc {
            id: self.id,
            entries: self.count,
            leads,
            least,
            extents,
            versions,
        })
    }

    /// The filter that was kept, if any. From now on none is. O(1).
    pub fn take_filter(&mut self) -> Option<Filter>
        ensures ok { result ≡ self.old.filter }
        ensures same { self.new ≡ record self.old { filter = None } }
    {
        self.filter.take()
    }

    /// How many entries were pushed. O(1).
    pub fn count(&self) -> u32
        ensures ok { result ≡ self.now.count }
    {
        self.count
    }

    /// The blocks that were taken. O(1).
    pub fn extents(&self) -> &Extents
        ensures ok { result.now ≡ self.now.extents }
    {
        &self.extents
    }

    /// The blocks that were taken.
    pub fn into_extents(self) -> Extents
        ensures ok { result ≡ self.extents }
    {
        self.extents
    }
}
