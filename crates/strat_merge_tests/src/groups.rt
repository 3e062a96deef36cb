//! Groups that a merger gives, compared with the entries that they should be.

ghost use Rattle.std.specs.Prelude.{◌≡◌, ◌<◌, length, OnOk, IsTrue};
ghost use Rattle.strat_arena.specs.Items.{have_pairs};
ghost use Rattle.strat_live.specs.Group.{is_descending};
ghost use Rattle.strat_merge.specs.MergerFields.{IsUnspent};

use std::alloc::Global;
use strat_arena::{Arena, Item};
use strat_base::{Entry, NoMemory, Trouble, Val, Version};
use strat_disk::{Disk, MemDisk};
use strat_merge::{GroupBuf, Merger, Run};

/// What a merger writes to, and the disk that it reads.
#[derive(Drop)]
pub(crate) struct Bench {
    pub(crate) disk: MemDisk,
    pub(crate) arena: Arena,
    pub(crate) group: GroupBuf,
}

/// A bench whose disk fails at the calls of these numbers.
pub(crate) fn make_bench(alloc: Global, failing: &[u64]) -> Result<Bench, NoMemory> {
    Ok(Bench {
        disk: MemDisk::new(alloc, failing)?,
        arena: Arena::new(alloc),
        group: GroupBuf::new(alloc, 8)?,
    })
}

/// An entry with a value.
pub(crate) fn put<'a>(key: &'a [u8], version: Version, value: &'a [u8]) -> Entry<'a> {
    Entry {
        key,
        version,
        val: Val::Put(value),
    }
}

/// A mark that a key is gone.
pub(crate) fn gone<'a>(key: &'a [u8], version: Version) -> Entry<'a> {
    Entry {
        key,
        version,
        val: Val::Gone,
    }
}

/// Gathers the next group, if there is one.
pub(crate) fn next<D: Disk, R: Run<D>>(
    merger: &mut Merger<R>,
    disk: &mut D,
    arena: &mut Arena,
    group: &mut GroupBuf,
) -> Result<bool, Trouble>
    requires kept { IsUnspent R.view merger.old }
    ensures kept { OnOk result (IsUnspent R.view merger.new) }
    ensures found { OnOk result (IsTrue (have_pairs arena.new.pairs group.new)) }
    ensures ok { OnOk result (IsTrue (is_descending group.new)) }
{
    merger.next_group(disk, arena, group)
}

/// Whether an item is this entry.
fn is_entry(arena: &Arena, item: Item, entry: &Entry<'_>) -> bool
    requires { item.slot.0 < length arena.now.pairs }
{
    let value = match entry.val {
        Val::Gone => item.gone,
        Val::Put(value) => !item.gone && arena.value(item.slot) == value,
    };
    value && item.version == entry.version && arena.key(item.slot) == entry.key
}

/// Whether the items of a group are these entries.
fn are_entries(arena: &Arena, group: &GroupBuf, wanted: &[Entry<'_>]) -> bool
    requires { IsTrue (have_pairs arena.now.pairs group.now) }
{
    let items = group.items();
    if items.len() != wanted.len() {
        return false;
    }
    for i in 0..items.len() {
        if !is_entry(arena, items[i], &wanted[i]) {
            return false;
        }
    }
    true
}

/// Whether a merger gives a group of these entries next, or none where there are none, and took so many
/// entries then.
pub(crate) fn gives<D: Disk, R: Run<D>>(
    merger: &mut Merger<R>,
    disk: &mut D,
    arena: &mut Arena,
    group: &mut GroupBuf,
    wanted: &[Entry<'_>],
    consumed: u64,
) -> Result<bool, Trouble>
    requires kept { IsUnspent R.view merger.old }
    ensures kept { OnOk result (IsUnspent R.view merger.new) }
{
    let more = next(merger, disk, arena, group)?;
    Ok(
        more != wanted.is_empty()
            && are_entries(arena, group, wanted)
            && merger.consumed() == consumed,
    )
}
