//! A run over a list of entries in memory, which can fail.

ghost use Rattle.std.specs.Prelude.{◌≡◌, ◌<◌, length, map, drop, slice_get, option_map, IsSome, IfSome, IsErrOf, OnOk, IsTrue, Some};
ghost use Rattle.std.specs.List.{Contains};
ghost use Rattle.strat_base.specs.EntryBytes.{fits_fields};
ghost use Rattle.strat_base.specs.EntryView.{entry_of};
ghost use Rattle.strat_base.specs.declared.failures.Fault.TheVariants.{Damaged, Device};
ghost use Rattle.def_crash.specs.Faults.{HasCause, CountsFaults, ReadsAtMost};
ghost use Rattle.def_crash.specs.Image.{Image};
ghost use Rattle.def_crash.specs.Moments.{Exposes, OnlyReads};
ghost use Rattle.strat_merge.specs.Runs.{Advances, ReadsFront};
ghost use Rattle.strat_merge_tests.specs.ListRuns.{is_entry_list, IsBehind, list_view, list_law};

use std::alloc::Global;
use strat_base::limits::BLOCK;
use strat_base::{Entry, Failed, Fault, NoMemory, Val, Version, entry_order, key_ok, value_ok};
use strat_disk::Disk;
use strat_merge::Run;

/// Entries in order. For each that it passes it reads its one block, and it says that the block is
/// damaged once it passed `good` of them.
#[derive(Drop)]
pub(crate) struct ListRun<'a> {
    entries: Vec<Entry<'a>>,
    versions: Version,
    block: u32,
    good: usize,
    at: usize,
    ghost kept: { IsTrue (is_entry_list versions (map entry_of entries.items)) },
}

impl<'a> ListRun<'a> {
    /// A run of no entries, whose versions are below a number, and whose block is this.
    pub(crate) fn new(alloc: Global, versions: Version, block: u32, good: usize) -> ListRun<'a> {
        ListRun {
            entries: Vec::new(alloc),
            versions,
            block,
            good,
            at: 0,
        }
    }

    /// Adds an entry, unless it may not stand behind the others, and answers whether it did.
    pub(crate) fn push(&mut self, entry: Entry<'a>) -> Result<bool, NoMemory> {
        push_lawful(&mut self.entries, self.versions, entry)
    }
}

/// Adds an entry of a version below a number, unless it may not stand behind the others.
fn push_lawful<'a>(
    entries: &mut Vec<Entry<'a>>,
    versions: Version,
    entry: Entry<'a>,
) -> Result<bool, NoMemory>
    ensures kept { IsTrue (is_entry_list versions (map entry_of entries.old.items))
        → IsTrue (is_entry_list versions (map entry_of entries.new.items)) }
{
    if !is_lawful(&entry, versions) || !is_behind(entries, &entry) {
        return Ok(false);
    }
    entries.push(entry)?;
    Ok(true)
}

/// Whether an entry has a lawful key and value, and a version below a number.
fn is_lawful(entry: &Entry<'_>, versions: Version) -> bool
    ensures fits { IsTrue result → IsTrue (fits_fields (entry_of entry.now)) }
    ensures room { IsTrue result → entry.now.version < versions }
{
    let value = match entry.val {
        Val::Gone => true,
        Val::Put(value) => value_ok(value),
    };
    value && key_ok(entry.key) && entry.version < versions
}

/// Whether an entry stands behind the last of others.
fn is_behind(entries: &[Entry<'_>], entry: &Entry<'_>) -> bool
    ensures ok { IsTrue result → IsBehind (map entry_of entries.now) (entry_of entry.now) }
{
    match entries.last() {
        Some(last) => entry_order(last, entry).is_lt(),
        None => true,
    }
}

/// The first of the entries that are left.
fn first_left<'a>(entries: &[Entry<'a>], at: usize) -> Option<Entry<'a>>
    ensures ok { option_map entry_of result ≡ slice_get (drop at (map entry_of entries.now)) 0 }
{
    if at < entries.len() {
        Some(entries[at])
    } else {
        None
    }
}

/// Reads the first byte of a block.
fn read_block<D: Disk>(disk: &mut D, block: u32) -> Result<(), Failed>
    ensures same { OnlyReads (D.view disk.old) (D.view disk.new) }
    ensures cause { CountsFaults (D.faults disk.old) (D.faults disk.new) result }
    ensures reads { ReadsAtMost 1 (D.reads disk.old) (D.reads disk.new) }
{
    let mut byte = [0];
    disk.read_at(block as u64 * BLOCK as u64, &mut byte)
}

impl<D: Disk> Run<D> for ListRun<'_> {
    ghost view = { λ r. list_view r.versions r.block r.good r.at (map entry_of r.entries.items) };

    fn peek(&self) -> Option<Entry<'_>> {
        first_left(&self.entries, self.at)
    }

    fn advance(&mut self, disk: &mut D) -> Result<(), Fault> {
        self.at += 1;
        match read_block(disk, self.block) {
            Ok(()) if self.at > self.good => Err(Fault::Damaged { block: self.block }),
            Ok(()) => Ok(()),
            Err(Failed) => Err(Fault::Device),
        }
    }

    ghost leaves_run = { λ r. list_law r.versions r.block r.good r.at
        (map entry_of r.entries.items) r.kept };
}
