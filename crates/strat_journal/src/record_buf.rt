//! Records of one region in a buffer.

ghost use Rattle.std.specs.Prelude.{◌≡◌, ◌≤◌, ◌<◌, ℕ, ◌+◌, [], ◌∷◌, ◌++◌, length, map, true, IsTrue, IfOk};
ghost use Rattle.std.specs.List.{list_all};
ghost use Rattle.strat_base.specs.Change.{is_lawful};
ghost use Rattle.strat_base.specs.ChangeView.{change_of};
ghost use Rattle.def_bytes.specs.Layout.{open_flag};
ghost use Rattle.def_bytes.specs.Records.{records_bytes};
ghost use Rattle.strat_journal.specs.Buffered.{no_records};
ghost use Rattle.strat_journal.specs.RegionReader.{AreRecords};

use crate::journal::{BATCH_MAX, Logged};
use crate::text::{behind_gate, move_to_front, put_record, put_records};
use def_bytes::RECORD_MAX;
use std::alloc::Global;
use std::marker::Model;
use strat_base::{Change, NoMemory};

/// The records of changes of one region, as they stand on the disk: first those of the list, and then those of a batch,
/// which are not on the disk yet. Its memory is taken once: 1,288 bytes for each change that a region takes, and for each
/// of 16 of a batch.
#[derive(Drop)]
pub(crate) struct RecordBuf {
    /// Changes per region.
    mem: u32,
    /// Changes in the list.
    count: u32,
    /// Changes in the batch.
    staged: u32,
    /// Where the list's records end.
    end: usize,
    /// Where the batch's records end, and a closed gate stands.
    len: usize,
    bytes: Vec<u8>,
}

impl Model for RecordBuf {
    ghost use Rattle.std.specs.Prelude.{drop};
    ghost use Rattle.strat_journal.specs.Buffered.{Buffered, changes_in, Keeps};

    ghost Value = { Buffered };

    ghost view = { λ b. record {
      mem = b.mem;
      list = changes_in b.count b.bytes.items;
      batch = changes_in b.staged (drop b.end b.bytes.items);
    } };

    ghost invariant = { λ b. Keeps (changes_in b.count b.bytes.items)
        (changes_in b.staged (drop b.end b.bytes.items))
        b.bytes.items b.mem b.count b.staged b.end b.len };
}

impl RecordBuf {
    /// No record, and room for as many changes as a region takes and for a batch.
    pub(crate) fn new(alloc: Global, mem: u32) -> Result<RecordBuf, NoMemory>
        requires fits { (4 ≤ mem) × (mem ≤ 4096) }
        ensures ok { IfOk result (λ b. b ≡ no_records mem) }
    {
        let room = RECORD_MAX as usize * (mem as usize + BATCH_MAX) + 1;
        Ok(RecordBuf {
            mem,
            count: 0,
            staged: 0,
            end: 0,
            len: 0,
            bytes: vec![in alloc; 0; room]?,
        })
    }

    /// Takes the list that recovery read, with its records as they were read: one copy of their bytes.
    pub(crate) fn restore(&mut self, logged: &[Logged], bytes: &[u8])
        requires kept { AreRecords bytes.now logged.now }
        requires room { length logged.now ≤ self.old.mem }
        ensures ok { self.new ≡ record self.old {
          list = map (λ l. l.change) logged.now;
          batch = [];
        } }
    {
        let end = bytes.len();
        put_records(&mut self.bytes, bytes);
        self.count = logged.len() as u32;
        self.staged = 0;
        self.end = end;
        self.len = end;
    }

    /// The number of changes in the list.
    pub(crate) fn count(&self) -> u32
        ensures ok { result ≡ length self.now.list }
        ensures fits { length self.now.list + length self.now.batch ≤ self.now.mem }
    {
        self.count
    }

    /// Where the list's records end.
    pub(crate) fn end(&self) -> usize
        ensures ok { result ≡ length (records_bytes self.now.list) }
        ensures fits { (list_all is_lawful self.now.list ≡ true)
            × (list_all is_lawful self.now.batch ≡ true)
            × (length self.now.list + length self.now.batch ≤ self.now.mem) }
        ensures len { result ≤ 5275648 }
    {
        self.end
    }

    /// The records of the list.
    pub(crate) fn records(&self) -> &[u8]
        ensures ok { result.now ≡ records_bytes self.now.list }
    {
        &self.bytes[..self.end]
    }

    /// The batch's records after the first one's gate, and the closed gate after them.
    pub(crate) fn behind_gate(&self) -> &[u8]
        requires { 0 < length self.now.batch }
        ensures ok { open_flag ∷ result.now ≡ records_bytes self.now.batch ++ 0 ∷ [] }
        ensures len { length result.now ≤ 5296257 }
    {
        behind_gate(&self.bytes, self.end, self.len)
    }

    /// Adds a change to the batch, in the time of copying its bytes. It takes no memory.
    pub(crate) fn add(&mut self, change: &Change<'_>)
        requires fits { IsTrue (is_lawful (change_of change.now)) }
        requires room { (length self.old.batch < 16)
            × (length self.old.list + length self.old.batch < self.old.mem) }
        ensures ok { self.new
            ≡ record self.old { batch = self.old.batch ++ change_of change.now ∷ [] } }
    {
        self.len = put_record(&mut self.bytes, self.len, change);
        self.staged += 1;
    }

    /// The batch joins the list.
    pub(crate) fn join(&mut self)
        ensures ok { self.new
            ≡ record self.old { list = self.old.list ++ self.old.batch; batch = [] } }
    {
        self.count += self.staged;
        self.staged = 0;
        self.end = self.len;
    }

    /// Forgets the list and the batch.
    pub(crate) fn clear(&mut self)
        ensures ok { self.new ≡ no_records self.old.mem }
    {
        self.bytes[0] = 0;
        self.count = 0;
        self.staged = 0;
        self.end = 0;
        self.len = 0;
    }

    /// Forgets the list, and moves the batch to the front: one copy of the batch's bytes.
    pub(crate) fn forget_list(&mut self)
        ensures ok { self.new ≡ record self.old { list = [] } }
    {
        move_to_front(&mut self.bytes, self.end, self.len);
        self.len -= self.end;
        self.end = 0;
        self.count = 0;
    }
}
