//! The journal in memory, and how a batch becomes durable.

ghost use Rattle.std.specs.Prelude.{◌≡◌, ◌≤◌, ◌<◌, ℕ, ◌^◌, ◌+◌, ◌-◌, [], ◌∷◌, ◌++◌, length, take, drop, map, Some, IsTrue, IfOk, OnOk, OnErr};
ghost use Rattle.strat_base.specs.Change.{is_lawful};
ghost use Rattle.strat_base.specs.ChangeView.{change_of};
ghost use Rattle.def_crash.specs.Faults.{CountsFaults, ReadsAtMost};
ghost use Rattle.def_crash.specs.Image.{Image};
ghost use Rattle.def_bytes.specs.Layout as places;
ghost use Rattle.def_bytes.specs.Layout.{IsRegion, open_flag};
ghost use Rattle.def_bytes.specs.Records.{records_bytes};
ghost use Rattle.def_crash.specs.Moments.{Exposes, Since, Passes, TearsOnly, IsDurable};
ghost use Rattle.strat_journal.specs.Buffered.{AreOfBoth};
ghost use Rattle.strat_journal.specs.RegionReader.{AreRecords};
ghost use Rattle.strat_journal.specs.Log.{Stands, GivesAllOrNone, GivesLater, HoldsBatch, KeepsShortJournal, HasRoomToAppend, batch_joined, batch_region, gate_of, room_of, region_turned, with_list, empty_log, IsRegionShut};

use crate::closing::close_region;
use crate::read::RegionRecords;
use crate::record_buf::RecordBuf;
use def_bytes::region_at;
use std::alloc::Global;
use std::marker::Model;
use std::mem::swap;
use strat_base::{Change, Failed, NoMemory, OwnedChange};
use strat_disk::Disk;
use strat_gate::gate_commit;

/// Most changes of a batch.
pub const BATCH_MAX: usize = 16;

/// A change that recovery read, and the block of its record's gate.
#[derive(Debug, Drop)]
pub struct Logged {
    pub change: OwnedChange,
    pub block: u32,
}

/// A journal: the list of changes in the active region and then in the other, and a batch of changes that
/// are not in the list yet.
///
/// Once the active region is full, the other one takes the changes that follow, two fewer than it has places for. The
/// buffers have the records as they stand on the disk, so a batch is written from where it was put. The memory for both is
/// taken at recovery: 1,288 bytes for each of twice as many changes as a region takes, and for each of 32 more.
#[derive(Drop)]
pub struct Journal {
    /// Changes per region.
    mem: u32,
    /// The active region.
    active: u8,
    /// Whether the other region's first gate was open where it should not be.
    stale: bool,
    /// The active region's records once it is full, and none before.
    front: RecordBuf,
    /// The records of the region that takes the batch, and those of the batch.
    back: RecordBuf,
}

impl Model for Journal {
    ghost use Rattle.std.specs.Prelude.{◌++◌};
    ghost use Rattle.strat_journal.specs.Buffered.{KeepsBoth};
    ghost use Rattle.strat_journal.specs.Log.{Log};

    ghost Value = { Log };

    ghost view = { λ j. record {
      mem = j.mem;
      active = j.active;
      stale = j.stale;
      list = j.front.list ++ j.back.list;
      batch = j.back.batch;
    } };

    ghost invariant = { λ j. KeepsBoth j.mem j.active j.front j.back };
}

impl Journal {
    /// Nothing in the list, and room for as many changes as two regions take and for a batch.
    pub(crate) fn empty(alloc: Global, mem: u32, active: u8) -> Result<Journal, NoMemory>
        requires fits { (4 ≤ mem) × IsRegion mem active }
        ensures ok { IfOk result (λ j. j ≡ empty_log mem active) }
    {
        Ok(Journal {
            mem,
            active,
            stale: false,
            front: RecordBuf::new(alloc, mem)?,
            back: RecordBuf::new(alloc, mem)?,
        })
    }

    /// Takes the list that recovery read, with its records as they were read: one copy of their bytes. The records of the
    /// second region are those behind a full one.
    pub(crate) fn restore(&mut self, first: &RegionRecords, later: &RegionRecords)
        requires none { self.old.list ≡ [] }
        requires kept { AreRecords first.now.bytes.items first.now.logged.items
            × AreRecords later.now.bytes.items later.now.logged.items }
        requires room { AreOfBoth self.old.mem (length first.now.logged.items)
            (length later.now.logged.items) }
        ensures ok { self.new ≡ with_list (map (λ l. l.change) first.now.logged.items
            ++ map (λ l. l.change) later.now.logged.items) (record self.old { batch = [] }) }
    {
        if first.logged.len() == self.mem as usize {
            self.front.restore(&first.logged, &first.bytes);
            self.back.restore(&later.logged, &later.bytes);
        } else {
            self.back.restore(&first.logged, &first.bytes);
        }
    }

    /// Sets whether the region that is not active is to be shut.
    pub(crate) fn set_stale(&mut self, stale: bool)
        ensures ok { self.new ≡ record self.old { stale = stale } }
    {
        self.stale = stale;
    }

    /// The number of changes in the list.
    pub fn count(&self) -> u32
        ensures ok { result ≡ length self.now.list }
        ensures fits { length self.now.list + 2 ≤ self.now.mem + self.now.mem }
    {
        self.front.count() + self.back.count()
    }

    /// How many changes stand in the active region, and how many behind it in the other one. O(1).
    pub fn counts(&self) -> (u32, u32)
        ensures ok { (result.0 ≡ length (take self.now.mem self.now.list))
            × (result.1 ≡ length (drop self.now.mem self.now.list)) }
    {
        if self.front.count() == 0 {
            (self.back.count(), 0)
        } else {
            (self.front.count(), self.back.count())
        }
    }

    /// The records of these changes, one after the other, as they stand on the disk: those of the active region, and those
    /// behind it. O(1).
    pub fn records(&self) -> (&[u8], &[u8])
        ensures ok { (result.0.now ≡ records_bytes (take self.now.mem self.now.list))
            × (result.1.now ≡ records_bytes (drop self.now.mem self.now.list)) }
    {
        if self.front.count() == 0 {
            (self.back.records(), self.front.records())
        } else {
            (self.front.records(), self.back.records())
        }
    }

    /// How many changes more the journal takes before the active region is full, and then before the other one has two
    /// places left. Those of the batch are not counted.
    pub fn room(&self) -> u32
        ensures ok { result ≡ room_of self.now }
    {
        let count = self.front.count() + self.back.count();
        if count < self.mem {
            self.mem - count
        } else {
            2 * self.mem - 2 - count
        }
    }

    /// Whether the first gate of the region that is not active stood open when the journal was read,
    /// while the active one had room: then it is to be shut before the journal is added to.
    pub fn stale(&self) -> bool
        ensures { result ≡ self.now.stale }
    {
        self.stale
    }

    /// Adds a change to the batch, in the time of copying its bytes. It is not in the list before `append`
    /// makes it so, and takes no memory.
    pub fn add(&mut self, change: &Change<'_>)
        requires fits { IsTrue (is_lawful (change_of change.now)) }
        requires room { (length self.old.batch < 16) × (length self.old.batch < room_of self.old) }
        ensures ok { self.new
            ≡ record self.old { batch = self.old.batch ++ change_of change.now ∷ [] } }
    {
        self.back.add(change);
    }

    /// The batch joins the list. Where that fills the active region, the buffers change places.
    pub(crate) fn join(&mut self)
        ensures ok { self.new ≡ batch_joined self.old }
    {
        self.back.join();
        if self.front.count() == 0 && self.back.count() == self.mem {
            swap(&mut self.front, &mut self.back);
        }
    }

    /// The offset of the gate of the batch's first record.
    fn gate(&self) -> u64
        ensures ok { result ≡ gate_of self.now }
        ensures room { HasRoomToAppend self.now }
        ensures fits { result < 2 ^ 24 }
    {
        let region = if self.front.count() == 0 {
            self.active
        } else {
            1 - self.active
        };
        region_at(self.mem, region) + self.back.end() as u64
    }

    /// The batch's records after the first one's gate, and the closed gate after them.
    fn behind_gate(&self) -> &[u8]
        requires { 0 < length self.now.batch }
        ensures ok { open_flag ∷ result.now ≡ records_bytes self.now.batch ++ 0 ∷ [] }
        ensures len { length result.now ≤ 5296257 }
    {
        self.back.behind_gate()
    }

    /// Makes the batch durable, all of it or none at any crash: two writes and two syncs, whatever its
    /// size. After an error the journal has the batch still, and only another recovery tells what the disk has.
    pub fn append<D: Disk>(&mut self, disk: &mut D) -> Result<(), Failed>
        requires { 0 < length self.old.batch }
        ensures trail { (f : Image) → Exposes (D.view disk.old) f
            → Stands (D.view disk.old) self.old
            → (c : Image) → Since (D.view disk.new) (D.view disk.old).moment c
            → GivesAllOrNone self.old c }
        ensures kept { OnOk result ((f : Image) → Exposes (D.view disk.old) f
            → Stands (D.view disk.old) self.old → Stands (D.view disk.new) self.new) }
        ensures ok { OnOk result (self.new ≡ batch_joined self.old) }
        ensures err { OnErr result (self.new ≡ self.old) }
        ensures durable { OnOk result (HoldsBatch (D.view disk.old) (D.view disk.new) self.old) }
        ensures images { TearsOnly (D.view disk.old) (D.view disk.new)
            (places.region_at self.old.mem (batch_region self.old))
            (places.region_size self.old.mem) }
        ensures time { Passes (D.view disk.old) (D.view disk.new) }
        ensures cause { CountsFaults (D.faults disk.old) (D.faults disk.new) result }
        ensures reads { D.reads disk.new ≡ D.reads disk.old }
    {
        let gate = self.gate();
        gate_commit(disk, gate, self.behind_gate())?;
        self.join();
        Ok(())
    }

    /// The journal goes on in the other region, with what that holds. The batch stays: if the active region had room, it is
    /// copied once.
    pub(crate) fn begin_region(&mut self)
        ensures ok { self.new ≡ region_turned self.old }
    {
        if self.front.count() == 0 {
            self.back.forget_list();
        } else {
            self.front.clear();
        }
        self.active = 1 - self.active;
        self.stale = false;
    }

    /// The other region becomes active, with what it holds as the list, and the region that was active is closed
    /// where its first gate reads open: at most one read, one write and one sync. The batch stays. What the region that was
    /// active had should be in a manifest by then. Meanwhile each image keeps what the other region holds, wherever that has
    /// room. After an error the journal is as it was, and nothing but another recovery is of use.
    pub fn turn<D: Disk>(&mut self, disk: &mut D) -> Result<(), Failed>
        ensures ok { OnOk result (self.new ≡ region_turned self.old) }
        ensures err { OnErr result (self.new ≡ self.old) }
        ensures kept { OnOk result ((f : Image) → Exposes (D.view disk.old) f
            → IsDurable (D.view disk.old) → GivesLater (D.view disk.old) self.old
            → Stands (D.view disk.new) self.new) }
        ensures durable { OnOk result ((f : Image) → Exposes (D.view disk.old) f
            → IsDurable (D.view disk.old)
            → IsRegionShut (D.view disk.new) self.old.mem self.old.active) }
        ensures images { TearsOnly (D.view disk.old) (D.view disk.new)
            (places.region_at self.old.mem self.old.active) 1 }
        ensures same { (c : Image) → Since (D.view disk.new) (D.view disk.old).moment c
            → KeepsShortJournal (D.view disk.old) self.old.mem
            (places.other_region self.old.active) c }
        ensures time { Passes (D.view disk.old) (D.view disk.new) }
        ensures cause { CountsFaults (D.faults disk.old) (D.faults disk.new) result }
        ensures reads { ReadsAtMost 1 (D.reads disk.old) (D.reads disk.new) }
    {
        close_region(disk, self.mem, self.active)?;
        self.begin_region();
        Ok(())
    }
}
