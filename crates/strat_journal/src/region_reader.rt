//! The front of a region, read block by block as far as its records are looked at.

ghost use Rattle.std.specs.Prelude.{◌≡◌, ◌≢◌, ◌≤◌, ◌<◌, ℕ, ◌+◌, ◌-◌, [], length, take, slice_index, Some, IfOk, IfSome, IsErrOf, OnOk};
ghost use Rattle.def_crash.specs.Faults.{CountsFaults, HasCause};
ghost use Rattle.std.specs.Bool.{OnTrue, OnFalse};
ghost use Rattle.def_crash.specs.Image.{Image};
ghost use Rattle.def_bytes.specs.Layout as places;
ghost use Rattle.def_bytes.specs.Layout.{IsRegion, open_flag};
ghost use Rattle.strat_journal.specs.RegionReader.{MatchesImage, IsClear, IsConclusive, ReadsOn, HoldsRecord, EndsRecord, HoldsNoRecord, Stored, StoredNone};
ghost use Rattle.def_bytes.specs.Records.{block_of};
ghost use Rattle.strat_base.specs.declared.failures.Trouble.TheVariants.{Device, Damaged};
ghost use Rattle.def_crash.specs.Moments.{Exposes};

use crate::journal::Logged;
use def_bytes::{OPEN, region_at, region_blocks};
use std::alloc::Global;
use std::marker::Model;
use strat_base::limits::BLOCK;
use strat_base::{Failed, NoMemory, OwnedChange, Trouble, get_change};
use strat_disk::Disk;

/// The bytes of a region's first blocks. Room for the whole region is taken by `new`.
#[derive(Drop)]
pub(crate) struct RegionReader {
    first: u64,
    size: usize,
    bytes: Vec<u8>,
}

impl Model for RegionReader {
    ghost use Rattle.std.specs.Prelude.{vec_capacity};
    ghost use Rattle.strat_journal.specs.RegionReader.{ReadSoFar, IsReadSoFar};

    ghost Value = { ReadSoFar };

    ghost view = { λ p. record { first = p.first; size = p.size; bytes = p.bytes.items } };

    ghost invariant = { λ p. IsReadSoFar p.first p.size p.bytes.items (vec_capacity p.bytes) };
}

impl RegionReader {
    /// No block of this region yet.
    pub(crate) fn new(alloc: Global, mem: u32, region: u8) -> Result<RegionReader, NoMemory>
        requires fits { IsRegion mem region }
        ensures ok { IfOk result (λ p. p ≡ record {
          first = places.region_at mem region;
          size = places.region_size mem;
          bytes = [];
        }) }
    {
        let size = region_blocks(mem) as usize * BLOCK;
        Ok(RegionReader {
            first: region_at(mem, region),
            size,
            bytes: Vec::with_capacity(alloc, size)?,
        })
    }

    /// How many bytes were read.
    pub(crate) fn len(&self) -> usize
        ensures ok { result ≡ length self.now.bytes }
        ensures fits { result ≤ self.now.size }
    {
        self.bytes.len()
    }

    /// Reads the next block: one read.
    fn more<D: Disk>(&mut self, disk: &mut D) -> Result<(), Failed>
        requires { length self.old.bytes < self.old.size }
        ensures len { OnOk result (length self.new.bytes ≡ length self.old.bytes + 4096) }
        ensures ok { ReadsOn (D.view disk.old) (D.view disk.new)
            (D.reads disk.old) (D.reads disk.new) self.old self.new result }
        ensures cause { CountsFaults (D.faults disk.old) (D.faults disk.new) result }
    {
        let mut block = [0; BLOCK];
        disk.read_at(self.first + self.bytes.len() as u64, &mut block)?;
        self.bytes.extend_from_slice(&block).unwrap();
        Ok(())
    }

    /// Reads on until the byte at an offset was read: one block more at most.
    fn touch<D: Disk>(&mut self, disk: &mut D, at: usize) -> Result<(), Failed>
        requires fits { (at ≤ length self.old.bytes) × (at < self.old.size) }
        ensures len { OnOk result (at < length self.new.bytes) }
        ensures ok { ReadsOn (D.view disk.old) (D.view disk.new)
            (D.reads disk.old) (D.reads disk.new) self.old self.new result }
        ensures cause { CountsFaults (D.faults disk.old) (D.faults disk.new) result }
    {
        if at < self.bytes.len() {
            return Ok(());
        }
        self.more(disk)?;
        Ok(())
    }

    /// Whether the gate at an offset is open.
    // For the proof: no proof file cites its steps, so wrong bodies of it are refused for what they do.
    fn is_open(&self, at: usize) -> bool
        requires { at < length self.now.bytes }
        ensures ok { OnTrue result (slice_index self.now.bytes at ≡ open_flag)
            × OnFalse result (slice_index self.now.bytes at ≢ open_flag) }
    {
        self.bytes[at] == OPEN
    }

    /// Whether the bytes end before it is clear which change follows the gate at an offset.
    fn needs_more(&self, at: usize) -> bool
        requires { at < length self.now.bytes }
        ensures ok { OnTrue result (length self.now.bytes < self.now.size)
            × OnFalse result (IsConclusive self.now at) }
    {
        self.is_open(at)
            && self.bytes.len() < self.size
            && get_change(&self.bytes, at + 1).is_none()
    }

    /// Reads on until it is clear what stands at an offset: two blocks more at most.
    pub(crate) fn reach<D: Disk>(&mut self, disk: &mut D, at: usize) -> Result<(), Failed>
        requires fits { (at ≤ length self.old.bytes) × (at + 1288 ≤ self.old.size) }
        ensures len { OnOk result (at < length self.new.bytes) }
        ensures found { OnOk result ((f : Image) → Exposes (D.view disk.old) f
            → MatchesImage f self.old → IsClear f self.new at) }
        ensures ok { ReadsOn (D.view disk.old) (D.view disk.new)
            (D.reads disk.old) (D.reads disk.new) self.old self.new result }
        ensures cause { CountsFaults (D.faults disk.old) (D.faults disk.new) result }
    {
        self.touch(disk, at)?;
        if !self.needs_more(at) {
            return Ok(());
        }
        self.more(disk)?;
        Ok(())
    }

    /// The bytes up to an offset.
    pub(crate) fn into_front(self, at: usize) -> Vec<u8>
        ensures { result.items ≡ take at self.bytes }
    {
        let RegionReader {
            first: _,
            size: _,
            mut bytes,
        } = self;
        bytes.truncate(at);
        bytes
    }

    /// The block in which a byte of the region lies.
    pub(crate) fn block(&self, at: usize) -> u32
        requires { at < self.now.size }
        ensures { result ≡ block_of (self.now.first + at) }
    {
        ((self.first + at as u64) / BLOCK as u64) as u32
    }

    /// The change after an open gate and the offset after it, or nothing after a closed one. No change
    /// after an open gate is damage. Takes memory for the change.
    fn record(&self, alloc: Global, at: usize) -> Result<Option<(OwnedChange, usize)>, Trouble>
        requires fits { (at < length self.now.bytes) × (length self.now.bytes ≤ self.now.size) }
        ensures found { IfOk result (λ r. HoldsRecord self.now at r) }
        ensures fits { IfOk result (λ r. IfSome r
            (λ x. (x.1 ≤ at + 1288) × (x.1 ≤ length self.now.bytes))) }
        ensures end { IfOk result (λ r. IfSome r
            (λ x. EndsRecord self.now.bytes at x.0 x.1)) }
        ensures damaged { (b : ℕ) → IsErrOf result (Damaged b)
            → HoldsNoRecord self.now at × (b ≡ block_of (self.now.first + at)) }
        ensures cause { IsErrOf result Device → ⊥ }
    {
        if !self.is_open(at) {
            return Ok(None);
        }
        let Some((change, next)) = get_change(&self.bytes, at + 1) else {
            return Err(Trouble::Damaged {
                block: self.block(at),
            });
        };
        Ok(Some((OwnedChange::new(alloc, &change)?, next)))
    }

    /// The record at an offset and the offset after it, or nothing where a closed gate ends the records.
    pub(crate) fn next<D: Disk>(
        &mut self,
        alloc: Global,
        disk: &mut D,
        at: usize,
    ) -> Result<Option<(Logged, usize)>, Trouble>
        requires fits { (at ≤ length self.old.bytes) × (at + 1288 ≤ self.old.size) }
        ensures found { IfOk result (λ r. (f : Image) → Exposes (D.view disk.old) f
            → MatchesImage f self.old → Stored f self.old at r) }
        ensures fits { IfOk result (λ r. IfSome r
            (λ x. (x.1 ≤ at + 1288) × (x.1 ≤ length self.new.bytes))) }
        ensures end { IfOk result (λ r. IfSome r
            (λ x. EndsRecord self.new.bytes at x.0.change x.1)) }
        ensures damaged { (b : ℕ) → IsErrOf result (Damaged b) → (f : Image)
            → Exposes (D.view disk.old) f → MatchesImage f self.old → StoredNone f self.old at b }
        ensures ok { ReadsOn (D.view disk.old) (D.view disk.new)
            (D.reads disk.old) (D.reads disk.new) self.old self.new result }
        ensures cause { HasCause Device (D.faults disk.old) (D.faults disk.new) result }
    {
        self.reach(disk, at)?;
        let Some((change, next)) = self.record(alloc, at)? else {
            return Ok(None);
        };
        let block = self.block(at);
        Ok(Some((Logged { change, block }, next)))
    }
}
