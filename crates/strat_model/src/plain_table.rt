//! A plain table: each version has a map of its own, and a clone copies it.

ghost use Rattle.std.specs.Prelude.{◌≡◌, ◌<◌, ◌≤◌, ◌^◌, ◌+◌, ◌==◌, ◌∷◌, ◌++◌, [], length, true, false, find, Some, IfOk, OnOk, OnErr};
ghost use Rattle.std.specs.Option.{option_copied};
ghost use Rattle.strat_base.specs.declared.limits.TheConstants.{CHANGES_MAX, VERSIONS_MAX, CURSORS_MAX};
ghost use Rattle.strat_base.specs.Tree.{parent_of, depth};
ghost use Rattle.strat_model.specs.Command.{request_of};
ghost use Rattle.strat_model.specs.declared.replies.Reply.TheVariants as reply;
ghost use Rattle.strat_model.specs.Request.{Put, Delete, Get, Clone, Scan, Info, OpenCursor, NextPairs, CloseCursor, Stat, DropVersion};
ghost use Rattle.strat_model.specs.Pairs.{range};
ghost use Rattle.strat_model.specs.Table.{fresh, parents_of};
ghost use Rattle.strat_model.specs.Step.{has_row, is_frozen, pairs_at};
ghost use Rattle.strat_model.specs.Spelling.{has_lawful_sizes};
ghost use Rattle.strat_model.specs.Plain.{IsStep, IsStepOrShort, grows, update_refusal, clone_refusal, cursor_refusal, drop_refusal};

use crate::commands::Command;
use crate::plain_rows::{PlainCursor, PlainRow, advance, close, has_cursor, has_living_child};
use crate::replies::{Refusal, Reply};
use std::alloc::Global;
use std::marker::Model;
use strat_base::limits::CURSORS_MAX;
use strat_base::{NoMemory, PairBuf, Version};

/// A table in memory, which takes memory for each change as it comes. It computes each answer in the
/// way in which it is defined: an update is linear in the pairs of its version and in the versions, a
/// clone copies every pair.
#[derive(Drop)]
pub struct PlainTable {
    changes_max: u32,
    versions_max: u32,
    rows: Vec<PlainRow>,
    updates: u32,
    changes: u32,
    cursors: Vec<PlainCursor>,
    next_cursor: u64,
}

impl Model for PlainTable {
    ghost use Rattle.strat_model.specs.Table.{Table};

    ghost Value = { Table };

    ghost use Rattle.strat_model.specs.PlainView.{table_seen};
    ghost use Rattle.strat_model.specs.Kept.{IsWithin};

    ghost view = { table_seen };

    ghost invariant = { λ t. IsWithin (table_seen t) };
}

impl PlainTable {
    /// A new table, which takes up to `changes_max` changes and has up to `versions_max` versions.
    pub fn new(alloc: Global, changes_max: u32, versions_max: u32) -> Result<PlainTable, NoMemory>
        requires { (changes_max ≤ CHANGES_MAX) × (1 ≤ versions_max)
            × (versions_max ≤ VERSIONS_MAX) }
        ensures ok { IfOk result (λ t. t ≡ fresh changes_max versions_max) }
    {
        let mut rows = Vec::new(alloc);
        rows.push(PlainRow::root(alloc))?;
        Ok(PlainTable {
            changes_max,
            versions_max,
            rows,
            updates: 0,
            changes: 0,
            cursors: Vec::new(alloc),
            next_cursor: 1,
        })
    }

    /// Carries out one command. The pairs of its answer are in `out`, from which all others are gone.
    /// Fewer than 2^63 cursors may have been opened before.
    #[tactic(auto, using(crate::proofs::PlainLemmas::next_cursor_after))]
    pub fn step(&mut self, command: &Command<'_>, out: &mut PairBuf) -> Reply
        requires fits { has_lawful_sizes (request_of command.now) ≡ true }
        requires room { self.old.next_cursor < 2 ^ 63 }
        ensures ok { IsStepOrShort self.old (request_of command.now) result out.new self.new }
        ensures fits { self.new.next_cursor ≤ self.old.next_cursor + 1 }
        ensures kept { self.old.changes ≤ self.old.changes_max }
        ensures none { grows (request_of command.now) ≡ false
            → IsStep self.old (request_of command.now) result out.new self.new }
    {
        // For the proof: what every table keeps.
        let _ = &self.changes;
        out.clear();
        match *command {
            Command::Put {
                version,
                key,
                value,
            } => self.put(version, key, value),
            Command::Delete { version, key } => self.delete(version, key),
            Command::Get { version, key } => self.get(version, key, out),
            Command::Clone { version } => self.clone_version(version),
            Command::DropVersion { version } => self.drop_version(version),
            Command::Scan {
                version,
                lo,
                hi,
                limit,
            } => self.scan(version, lo, hi, limit, out),
            Command::Info { version } => self.info(version),
            Command::OpenCursor { version, lo, hi } => self.open_cursor(version, lo, hi),
            Command::NextPairs { cursor, limit } => self.next_pairs(cursor, limit, out),
            Command::CloseCursor { cursor } => self.close_cursor(cursor),
            Command::Stat => self.stat(),
        }
    }

    #[tactic(auto, using(crate::proofs::TableLemmas::mark_at))]
    fn has_row(&self, version: Version) -> bool
        ensures ok { result ≡ has_row self.now version }
    {
        (version as usize) < self.rows.len() && !self.rows[version as usize].is_dropped()
    }

    fn is_frozen(&self, version: Version) -> bool
        ensures ok { result ≡ is_frozen self.now version }
    {
        has_living_child(&self.rows, version)
    }

    fn update_refusal(&self, version: Version) -> Option<Refusal>
        ensures ok { result ≡ update_refusal self.now version }
    {
        if !self.has_row(version) {
            Some(Refusal::UnknownVersion)
        } else if self.is_frozen(version) {
            Some(Refusal::Frozen)
        } else if self.changes == self.changes_max {
            Some(Refusal::ChangeLimit)
        } else {
            None
        }
    }

    fn count_update(&mut self) -> Reply
        requires room { self.old.changes < self.old.changes_max }
        ensures ok { (result ≡ reply.Done) × (self.new ≡ record self.old {
          updates = self.old.updates + 1;
          changes = self.old.changes + 1;
        }) }
    {
        self.updates += 1;
        self.changes += 1;
        Reply::Done
    }

    fn put(&mut self, version: Version, key: &[u8], value: &[u8]) -> Reply
        requires fits { has_lawful_sizes (Put version key.now value.now) ≡ true }
        ensures ok { IsStepOrShort self.old (Put version key.now value.now) result [] self.new }
    {
        if let Some(refusal) = self.update_refusal(version) {
            return Reply::Refused(refusal);
        }
        if self.rows[version as usize].set(key, value).is_err() {
            return Reply::Refused(Refusal::NoMemory);
        }
        self.count_update()
    }

    fn delete(&mut self, version: Version, key: &[u8]) -> Reply
        ensures ok { IsStep self.old (Delete version key.now) result [] self.new }
    {
        if let Some(refusal) = self.update_refusal(version) {
            return Reply::Refused(refusal);
        }
        self.rows[version as usize].unset(key);
        self.count_update()
    }

    fn get(&self, version: Version, key: &[u8], out: &mut PairBuf) -> Reply
        requires fits { has_lawful_sizes (Get version key.now) ≡ true }
        requires none { out.old ≡ [] }
        ensures ok { IsStep self.now (Get version key.now) result out.new self.now }
    {
        if !self.has_row(version) {
            return Reply::Refused(Refusal::UnknownVersion);
        }
        match self.rows[version as usize].pairs().get(key) {
            None => Reply::Absent,
            Some(value) => {
                out.push(key, value);
                Reply::Found
            }
        }
    }

    fn clone_refusal(&self, version: Version) -> Option<Refusal>
        ensures ok { result ≡ clone_refusal self.now version }
    {
        if !self.has_row(version) {
            Some(Refusal::UnknownVersion)
        } else if self.rows.len() == self.versions_max as usize {
            Some(Refusal::VersionLimit)
        } else if self.changes == self.changes_max {
            Some(Refusal::ChangeLimit)
        } else {
            None
        }
    }

    fn clone_version(&mut self, version: Version) -> Reply
        ensures ok { IsStepOrShort self.old (Clone version) result [] self.new }
    {
        if let Some(refusal) = self.clone_refusal(version) {
            return Reply::Refused(refusal);
        }
        let made = self.rows.len() as u32;
        let Ok(row) = self.rows[version as usize].child(version) else {
            return Reply::Refused(Refusal::NoMemory);
        };
        if self.rows.push(row).is_err() {
            return Reply::Refused(Refusal::NoMemory);
        }
        self.changes += 1;
        Reply::Made { version: made }
    }

    fn drop_refusal(&self, version: Version) -> Option<Refusal>
        ensures ok { result ≡ drop_refusal self.now version }
    {
        if self.has_row(version) && version == 0 {
            Some(Refusal::Root)
        } else {
            self.update_refusal(version)
        }
    }

    fn drop_version(&mut self, version: Version) -> Reply
        ensures ok { IsStep self.old (DropVersion version) result [] self.new }
    {
        if let Some(refusal) = self.drop_refusal(version) {
            return Reply::Refused(refusal);
        }
        self.rows[version as usize].drop_version();
        self.changes += 1;
        Reply::Done
    }

    fn scan(&self, version: Version, lo: &[u8], hi: &[u8], limit: u16, out: &mut PairBuf) -> Reply
        requires fits { has_lawful_sizes (Scan version lo.now hi.now limit) ≡ true }
        requires none { out.old ≡ [] }
        ensures ok { IsStep self.now (Scan version lo.now hi.now limit) result out.new self.now }
    {
        if !self.has_row(version) {
            return Reply::Refused(Refusal::UnknownVersion);
        }
        let pairs = self.rows[version as usize].pairs();
        let more = pairs.tell_range(lo, hi, limit as usize, out);
        Reply::Pairs { more }
    }

    fn parent_of(&self, version: Version) -> Option<Version>
        ensures ok { result ≡ parent_of (parents_of self.now) version }
    {
        if (version as usize) < self.rows.len() {
            self.rows[version as usize].parent()
        } else {
            None
        }
    }

    fn depth(&self, version: Version) -> u32
        ensures ok { result ≡ depth (parents_of self.now) version }
    {
        let mut depth = 0;
        let mut at = version;
        for _ in 0..version {
            match self.parent_of(at) {
                None => return depth,
                Some(parent) => {
                    at = parent;
                    depth += 1;
                }
            }
        }
        depth
    }

    fn info(&self, version: Version) -> Reply
        ensures ok { IsStep self.now (Info version) result [] self.now }
    {
        if !self.has_row(version) {
            return Reply::Refused(Refusal::UnknownVersion);
        }
        Reply::Info {
            parent: self.parent_of(version),
            depth: self.depth(version),
            frozen: self.is_frozen(version),
        }
    }

    fn cursor_refusal(&self, version: Version) -> Option<Refusal>
        ensures ok { result ≡ cursor_refusal self.now version }
    {
        if !self.has_row(version) {
            Some(Refusal::UnknownVersion)
        } else if self.cursors.len() == CURSORS_MAX {
            Some(Refusal::CursorLimit)
        } else {
            None
        }
    }

    fn open_cursor(&mut self, version: Version, lo: &[u8], hi: &[u8]) -> Reply
        requires room { self.old.next_cursor < 2 ^ 63 }
        ensures ok { IsStepOrShort self.old (OpenCursor version lo.now hi.now) result [] self.new }
    {
        if let Some(refusal) = self.cursor_refusal(version) {
            return Reply::Refused(refusal);
        }
        let number = self.next_cursor;
        let Ok(cursor) = PlainCursor::new(number, &self.rows[version as usize], lo, hi) else {
            return Reply::Refused(Refusal::NoMemory);
        };
        if self.cursors.push(cursor).is_err() {
            return Reply::Refused(Refusal::NoMemory);
        }
        self.next_cursor += 1;
        Reply::Opened { cursor: number }
    }

    fn cursor(&self, number: u64) -> Option<&PlainCursor>
        ensures ok { option_copied result ≡ find (λ c. c.number == number) self.now.cursors }
    {
        self.cursors.iter().find(|cursor| cursor.number() == number)
    }

    fn next_pairs(&mut self, number: u64, limit: u16, out: &mut PairBuf) -> Reply
        requires fits { has_lawful_sizes (NextPairs number limit) ≡ true }
        requires none { out.old ≡ [] }
        ensures ok { IsStep self.old (NextPairs number limit) result out.new self.new }
    {
        let Some(cursor) = self.cursor(number) else {
            return Reply::Refused(Refusal::UnknownCursor);
        };
        let more = cursor.tell(limit as usize, out);
        advance(&mut self.cursors, number, limit as usize);
        Reply::Pairs { more }
    }

    fn close_cursor(&mut self, number: u64) -> Reply
        ensures ok { IsStep self.old (CloseCursor number) result [] self.new }
    {
        if !has_cursor(&self.cursors, number) {
            return Reply::Refused(Refusal::UnknownCursor);
        }
        close(&mut self.cursors, number);
        Reply::Done
    }

    fn stat(&self) -> Reply
        ensures ok { IsStep self.now Stat result [] self.now }
    {
        Reply::Stat {
            versions: self.rows.len() as u32,
            updates: self.updates,
            changes: self.changes,
            cursors: self.cursors.len() as u32,
        }
    }
}
