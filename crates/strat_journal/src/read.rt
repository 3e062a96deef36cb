//! Reading a journal at recovery.

ghost use Rattle.std.specs.Prelude.{◌≡◌, ◌≤◌, ◌<◌, ℕ, ◌+◌, ◌-◌, ◌*◌, ◌++◌, length, map, Ok, Err, IfOk, IsErrOf, IsTrue, ◌↔◌, vec_len};
ghost use Rattle.def_crash.specs.Image.{Image};
ghost use Rattle.def_bytes.specs.Layout as places;
ghost use Rattle.def_crash.specs.Moments.{Exposes, OnlyReads};
ghost use Rattle.def_bytes.specs.SuperBlock.{IsLawful};
ghost use Rattle.strat_base.specs.declared.failures.Trouble.TheVariants.{Damaged, Device};
ghost use Rattle.strat_gate.specs.SuperView.{super_of};
ghost use Rattle.strat_journal.specs.Log.{Restores, RecoversTo, IsStale};
ghost use Rattle.strat_journal.specs.Buffered.{AreOfBoth};
ghost use Rattle.strat_journal.specs.RegionReader.{AreRecords};
ghost use Rattle.def_bytes.specs.Records.{first_records, region_records, records_behind, journal_in_two};
ghost use Rattle.strat_journal.specs.Records.{logged_of};
ghost use Rattle.def_crash.specs.Faults.{HasCause, ReadsAtMost};
ghost use Rattle.def_bytes.specs.Layout.{IsRegion};

use crate::journal::{Journal, Logged};
use crate::region_reader::RegionReader;
use def_bytes::{region_at, region_first};
use std::alloc::Global;
use strat_base::Trouble;
use strat_disk::Disk;
use strat_gate::{SuperBlock, gate_up};

/// Records of a region, and their bytes.
#[derive(Drop)]
pub(crate) struct RegionRecords {
    pub(crate) logged: Vec<Logged>,
    pub(crate) bytes: Vec<u8>,
}

/// The first records of a region, up to its first closed gate or as many as are asked for. Reads each block at most once and
/// none after that gate.
fn read_region<D: Disk>(
    alloc: Global,
    disk: &mut D,
    mem: u32,
    region: u8,
    most: u32,
) -> Result<RegionRecords, Trouble>
    requires fits { IsRegion mem region }
    requires len { most ≤ mem }
    ensures found { IfOk result (λ r. (f : Image) → Exposes (D.view disk.old) f
        → first_records f mem region most ≡ Ok (map logged_of r.logged.items)) }
    ensures kept { IfOk result (λ r. AreRecords r.bytes.items r.logged.items) }
    ensures len { IfOk result (λ r. vec_len r.logged ≤ most) }
    ensures damaged { (b : ℕ) → IsErrOf result (Damaged b) → (f : Image)
        → Exposes (D.view disk.old) f → first_records f mem region most ≡ Err b }
    ensures same { OnlyReads (D.view disk.old) (D.view disk.new) }
    ensures cause { HasCause Device (D.faults disk.old) (D.faults disk.new) result }
    ensures reads { ReadsAtMost (places.region_blocks mem) (D.reads disk.old) (D.reads disk.new) }
{
    let mut reader = RegionReader::new(alloc, mem, region)?;
    let mut logged = Vec::with_capacity(alloc, most as usize)?;
    let mut at = 0;
    for _i in 0..most {
        let Some((record, next)) = reader.next(alloc, disk, at)? else {
            let bytes = reader.into_front(at);
            return Ok(RegionRecords { logged, bytes });
        };
        logged.push(record)?;
        at = next;
    }
    let bytes = reader.into_front(at);
    Ok(RegionRecords { logged, bytes })
}

/// The records of a region behind a full one. `Damaged` names the region's first block where they are as many as it takes
/// less one, or more.
fn read_behind<D: Disk>(
    alloc: Global,
    disk: &mut D,
    mem: u32,
    region: u8,
) -> Result<RegionRecords, Trouble>
    requires fits { (4 ≤ mem) × IsRegion mem region }
    ensures found { IfOk result (λ r. (f : Image) → Exposes (D.view disk.old) f
        → records_behind f mem region ≡ Ok (map logged_of r.logged.items)) }
    ensures kept { IfOk result (λ r. AreRecords r.bytes.items r.logged.items) }
    ensures len { IfOk result (λ r. vec_len r.logged + 2 ≤ mem) }
    ensures damaged { (b : ℕ) → IsErrOf result (Damaged b) → (f : Image)
        → Exposes (D.view disk.old) f → records_behind f mem region ≡ Err b }
    ensures same { OnlyReads (D.view disk.old) (D.view disk.new) }
    ensures cause { HasCause Device (D.faults disk.old) (D.faults disk.new) result }
    ensures reads { ReadsAtMost (places.region_blocks mem) (D.reads disk.old) (D.reads disk.new) }
{
    let records = read_region(alloc, disk, mem, region, mem - 1)?;
    if records.logged.len() >= mem as usize - 1 {
        return Err(Trouble::Damaged {
            block: region_first(mem, region),
        });
    }
    Ok(records)
}

/// What stands behind records of the active region: the other one's, if the active one is full. Else none are read, but
/// whether the other one's first gate is open, where it should not be.
fn read_later<D: Disk>(
    alloc: Global,
    disk: &mut D,
    mem: u32,
    region: u8,
    first: &[Logged],
) -> Result<(RegionRecords, bool), Trouble>
    requires fits { (4 ≤ mem) × IsRegion mem region }
    requires len { length first.now ≤ mem }
    ensures found { IfOk result (λ r. (f : Image) → Exposes (D.view disk.old) f
        → region_records f mem region ≡ Ok (map logged_of first.now)
        → (journal_in_two f mem region
        ≡ Ok (map logged_of first.now ++ map logged_of r.0.logged.items))
        × (IsTrue r.1 ↔ IsStale f mem region (length first.now + length r.0.logged.items))) }
    ensures kept { IfOk result (λ r. AreRecords r.0.bytes.items r.0.logged.items) }
    ensures len { IfOk result (λ r. AreOfBoth mem (length first.now) (length r.0.logged.items)) }
    ensures damaged { (b : ℕ) → IsErrOf result (Damaged b) → (f : Image)
        → Exposes (D.view disk.old) f → region_records f mem region ≡ Ok (map logged_of first.now)
        → journal_in_two f mem region ≡ Err b }
    ensures same { OnlyReads (D.view disk.old) (D.view disk.new) }
    ensures cause { HasCause Device (D.faults disk.old) (D.faults disk.new) result }
    ensures reads { ReadsAtMost (places.region_blocks mem) (D.reads disk.old) (D.reads disk.new)
        × (length first.now < mem → ReadsAtMost 1 (D.reads disk.old) (D.reads disk.new)) }
{
    if first.len() == mem as usize {
        return Ok((read_behind(alloc, disk, mem, 1 - region)?, false));
    }
    let stale = gate_up(disk, region_at(mem, 1 - region))?;
    let none = RegionRecords {
        logged: Vec::new(alloc),
        bytes: Vec::new(alloc),
    };
    Ok((none, stale))
}

impl Journal {
    /// Reads the journal of a superblock, and gives it with its changes in order and the blocks of their
    /// gates. Takes all the memory that later calls need, and writes nothing. Reads each block of the active
    /// region at most once, none after its first closed gate. Where that region is full it reads the other one in the same
    /// way, and else one block of it.
    pub fn read<D: Disk>(
        alloc: Global,
        disk: &mut D,
        sb: &SuperBlock,
    ) -> Result<(Journal, Vec<Logged>), Trouble>
        requires { IsLawful (super_of sb.now) }
        ensures ok { IfOk result (λ r. Restores sb.now.mem sb.now.region r.1.items r.0) }
        ensures found { IfOk result (λ r. (f : Image) → Exposes (D.view disk.old) f
            → RecoversTo f sb.now.mem sb.now.region r.1.items r.0) }
        ensures damaged { (b : ℕ) → IsErrOf result (Damaged b) → (f : Image)
            → Exposes (D.view disk.old) f
            → journal_in_two f sb.now.mem sb.now.region ≡ Err b }
        ensures same { OnlyReads (D.view disk.old) (D.view disk.new) }
        ensures cause { HasCause Device (D.faults disk.old) (D.faults disk.new) result }
        ensures reads { ReadsAtMost (2 * places.region_blocks sb.now.mem)
            (D.reads disk.old) (D.reads disk.new)
            × IfOk result (λ r. length r.1.items < sb.now.mem
            → ReadsAtMost (places.region_blocks sb.now.mem + 1)
            (D.reads disk.old) (D.reads disk.new)) }
    {
        let mut journal = Journal::empty(alloc, sb.mem, sb.region)?;
        let mut first = read_region(alloc, disk, sb.mem, sb.region, sb.mem)?;
        let (mut later, stale) = read_later(alloc, disk, sb.mem, sb.region, &first.logged)?;
        journal.restore(&first, &later);
        journal.set_stale(stale);
        first.logged.append(&mut later.logged)?;
        Ok((journal, first.logged))
    }
}
