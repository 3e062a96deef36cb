//! Entries copied into an arena, as the items of a group.

ghost use Rattle.std.specs.Option.{option_map_or};
ghost use Rattle.std.specs.Prelude.{◌≡◌, ◌<◌, ◌≤◌, ℕ, ◌+◌, ◌-◌, ◌==◌, [], ◌∷◌, ◌++◌, map, length, false, slice_get, Some, IsSome, OnOk, OnErr, IsTrue};
ghost use Rattle.strat_base.specs.Entries.{Entry as KeyEntry, is_of};
ghost use Rattle.strat_base.specs.EntryBytes.{fits_fields, is_markable};
ghost use Rattle.strat_base.specs.EntryView.{entry_of, val_of};
ghost use Rattle.strat_merge.specs.Gathered.{with_next};
ghost use Rattle.strat_arena.specs.Items.{entry_of_item, entries_of, have_pairs, said_by};
ghost use Rattle.strat_merge.specs.Runs.{RunView, head_at};

use crate::group::GroupBuf;
use crate::run::Run;
use strat_arena::{Arena, Item};
use strat_base::{Entry, NoMemory, Val, Version};
use strat_disk::Disk;

/// What of a value goes into the arena, and whether its key is gone.
fn bytes_of_val(val: Val<'_>) -> (&[u8], bool)
    ensures ok { said_by result.1 result.0.now ≡ val_of val.entry }
    ensures fits { IsTrue (is_markable (val_of val.entry)) → length result.0.now ≤ 1024 }
{
    match val {
        Val::Gone => (&[], true),
        Val::Put(value) => (value, false),
    }
}

/// Whether the last item of a group has a version.
fn ends_at(group: &GroupBuf, version: Version) -> bool
    ensures ok { result ≡ option_map_or (λ item. item.version == version)
        (slice_get group.now (length group.now - 1)) false }
{
    match group.items().last() {
        Some(item) => item.version == version,
        None => false,
    }
}

/// Copies an entry into an arena, and adds its item to those whose pairs lie there. O(bytes of the entry).
pub fn add_entry(arena: &mut Arena, group: &mut GroupBuf, entry: &Entry<'_>) -> Result<(), NoMemory>
    requires fits { IsTrue (fits_fields (entry_of entry.now)) }
    requires len { length arena.old.pairs ≡ length group.old }
    requires kept { IsTrue (have_pairs arena.old.pairs group.old) }
    ensures ok { OnOk result (entries_of arena.new.pairs group.new
        ≡ entries_of arena.old.pairs group.old ++ entry_of entry.now ∷ []) }
    ensures len { OnOk result (length arena.new.pairs ≡ length group.new) }
    ensures kept { OnOk result (IsTrue (have_pairs arena.new.pairs group.new)) }
{
    if group.items().len() >= u32::MAX as usize {
        return Err(NoMemory);
    }
    let (value, gone) = bytes_of_val(entry.val);
    arena.reserve(1, (entry.key.len() + value.len()) as u32)?;
    let slot = arena.push(entry.key, value);
    group.push(Item {
        slot,
        version: entry.version,
        gone,
    })
}

/// Adds the first entry of a run to a group of its key, unless the group ends at its version: then a
/// newer run has an entry of the version.
pub(crate) fn collect<D: Disk, R: Run<D>>(
    runs: &[R],
    run: usize,
    arena: &mut Arena,
    group: &mut GroupBuf,
) -> Result<(), NoMemory>
    requires fits { run < length runs.now }
    requires len { length arena.old.pairs ≡ length group.old }
    requires kept { IsTrue (have_pairs arena.old.pairs group.old) }
    ensures ok { OnOk result ((e : KeyEntry) → head_at (map R.view runs.now) run ≡ Some e
        → entries_of arena.new.pairs group.new
        ≡ with_next (entries_of arena.old.pairs group.old) e) }
    ensures len { OnOk result (length arena.new.pairs ≡ length group.new) }
    ensures kept { OnOk result (IsTrue (have_pairs arena.new.pairs group.new)) }
    ensures fits { (e : KeyEntry) → head_at (map R.view runs.now) run ≡ Some e
        → IsTrue (fits_fields e) }
    ensures room { (e : KeyEntry) (v : RunView) → head_at (map R.view runs.now) run ≡ Some e
        → slice_get (map R.view runs.now) run ≡ Some v → e.version < v.versions }
{
    match runs[run].peek() {
        Some(entry) if !ends_at(group, entry.version) => add_entry(arena, group, &entry),
        _ => Ok(()),
    }
}

/// The key of a group.
pub(crate) fn key_of_group<'a>(arena: &'a Arena, group: &GroupBuf) -> &'a [u8]
    requires room { 0 < length group.now }
    requires kept { IsTrue (have_pairs arena.now.pairs group.now) }
    ensures ok { (e : KeyEntry) → slice_get (entries_of arena.now.pairs group.now) 0 ≡ Some e
        → result.now ≡ e.key }
{
    arena.key(group.items()[0].slot)
}

/// Whether a run begins with an entry of a key.
pub(crate) fn begins_with<D: Disk, R: Run<D>>(runs: &[R], run: usize, key: &[u8]) -> bool
    requires fits { run < length runs.now }
    ensures ok { (e : KeyEntry) → head_at (map R.view runs.now) run ≡ Some e
        → result ≡ is_of key.now e }
{
    match runs[run].peek() {
        Some(entry) => entry.key == key,
        None => false,
    }
}
