//! The next manifest of a store, computed in memory from the one before and from what a promotion made.

ghost use Rattle.std.specs.Prelude.{◌≡◌, ◌≤◌, ◌<◌, ℕ, ◌+◌, ◌-◌, ◌*◌, ◌^◌, List, ◌++◌, filter, length, take, min, nat_lt, IsSome, IsTrue, IfOk, OnOk, OnErr, IsErrOf};
ghost use Rattle.std.specs.Option.{option_to_list};
ghost use Rattle.strat_base.specs.declared.descriptors.Extent.{Extent};
ghost use Rattle.def_crash.specs.Blocks.{TearsBlocks};
ghost use Rattle.def_crash.specs.Faults.{HasCause};
ghost use Rattle.def_crash.specs.Image.{Image};
ghost use Rattle.def_crash.specs.Moments.{Exposes};
ghost use Rattle.strat_extent.specs.Blocks.{is_free, used_count};
ghost use Rattle.def_bytes.specs.Arrays.{blocks_of};
ghost use Rattle.def_bytes.specs.Manifest.{is_lawful_manifest, manifest_bytes};
ghost use Rattle.strat_extent.specs.Change.{IsMarked, SameBlocks};
ghost use Rattle.strat_journal.specs.Log.{Log};
ghost use Rattle.strat_manifest.specs.ManifestView.{manifest_of};
ghost use Rattle.strat_promote.specs.Promotions.{entries_if_any};
ghost use Rattle.strat_promote.specs.Spaces.{HasFewFree};
ghost use Rattle.strat_promote.specs.declared.obstacle.Obstacle.TheVariants as obstacle;
ghost use Rattle.strat_promote.specs.declared.obstacle.Obstacle.TheVariants.{Device, Damaged};
ghost use Rattle.def_recovery.specs.Head.{parent_numbers};
ghost use Rattle.def_publish.specs.Contents.{Contents};
ghost use Rattle.def_publish.specs.Next.{HasManifest, arrays_made};
ghost use Rattle.def_publish.specs.Occupied.{extents_of};
ghost use Rattle.strat_publish.specs.Outcomes.{IsOkOrShort};
ghost use Rattle.strat_publish.specs.Publishing.{IsWrittenTo, MayBeWritten, MayCompute, IsComputedBy, WritesManifest, manifest_after};
ghost use Rattle.def_bytes.specs.Layout.{newest_format};

use crate::lay::write_next;
use crate::made::Made;
use def_bytes::NEWEST_FORMAT;
use std::alloc::Global;
use strat_base::{Extents, LevelDesc, NoMemory};
use strat_disk::Disk;
use strat_extent::Space;
use strat_manifest::{LevelList, Manifest, Parents, is_writable};
use strat_memory::copying::add_copy;
use strat_memory::memory::Memory;
use strat_promote::obstacle::{Obstacle, Unfit};
use strat_tree::Tree;

/// Adds equal descriptors of the levels that are deeper than a number to a list.
fn add_deeper(
    alloc: Global,
    levels: &mut LevelList,
    old: &[LevelDesc],
    target: usize,
) -> Result<(), NoMemory>
    ensures ok { OnOk result
        (levels.new ≡ levels.old ++ filter (λ level. nat_lt target level.number) old.now) }
{
    for level in old {
        if level.number as usize > target {
            add_copy(alloc, levels, level)?;
        }
    }
    Ok(())
}

/// The level that was made, if there is one, and those that are deeper than its number.
fn next_levels(alloc: Global, made: &Made, old: &[LevelDesc]) -> Result<LevelList, NoMemory>
    ensures ok { IfOk result (λ levels. levels ≡ option_to_list made.now.level
        ++ filter (λ level. nat_lt made.now.target level.number) old.now) }
{
    let mut levels = LevelList::new(alloc);
    if let Some(level) = &made.level {
        add_copy(alloc, &mut levels, level)?;
    }
    add_deeper(alloc, &mut levels, old, made.target)?;
    Ok(levels)
}

/// Adds the parent of a version, if it has one.
fn add_parent(parents: &mut Parents, parent: Option<u32>) -> Result<(), NoMemory>
    ensures ok { OnOk result (parents.new ≡ parents.old ++ option_to_list parent) }
{
    if let Some(parent) = parent {
        if let Err((failed, _)) = parents.push(parent) {
            return Err(failed);
        }
    }
    Ok(())
}

/// The parents of those of the first versions that have one, in the order of these.
fn parents_of(alloc: Global, tree: &Tree, versions: u32) -> Result<Parents, NoMemory>
    requires len { versions ≤ length tree.now.parents }
    ensures ok { IfOk result (λ parents.
        parents ≡ parent_numbers (take versions tree.now.parents)) }
{
    let mut parents = Parents::new(alloc);
    for v in 0..versions {
        add_parent(&mut parents, tree.parent(v))?;
    }
    Ok(parents)
}

/// How many arrays a promotion made.
fn count_made(made: &Made) -> u64
    ensures ok { result ≡ length (arrays_made made.now.level) }
{
    match &made.level {
        Some(level) => level.arrays.len() as u64,
        None => 0,
    }
}

/// How many entries were written until after a promotion, and the number of the next array, unless one of them has no number
/// left: no store comes so far.
fn next_counts(old: &Manifest, made: &Made) -> Result<(u64, u64), Unfit>
    requires len { made.now.entries ≡ min (entries_if_any made.now.level) (2 ^ 64 - 1) }
    ensures ok { IfOk result (λ n. (n.0 ≡ old.now.written + entries_if_any made.now.level)
        × (n.1 ≡ old.now.next_array + length (arrays_made made.now.level))) }
    ensures cause { OnErr result (2 ^ 63 ≤ old.now.written + entries_if_any made.now.level
        + (old.now.next_array + length (arrays_made made.now.level))) }
{
    if made.entries == u64::MAX {
        return Err(Unfit);
    }
    let Some(written) = old.written.checked_add(made.entries) else {
        return Err(Unfit);
    };
    let Some(next_array) = old.next_array.checked_add(count_made(made)) else {
        return Err(Unfit);
    };
    Ok((written, next_array))
}

/// The manifest of the next checkpoint, in new memory: it counts the changes up to the seal and the entries of the new
/// arrays, has the marks of the seal, and lists the new level before the deeper ones. O(size). `Unfit`: counts that no store reaches.
pub(crate) fn next_manifest(
    alloc: Global,
    old: &Manifest,
    memory: &Memory,
    made: &Made,
) -> Result<Manifest, Obstacle>
    requires len { made.now.entries ≡ min (entries_if_any made.now.level) (2 ^ 64 - 1) }
    ensures ok { IfOk result (λ m. manifest_of m
        ≡ manifest_after (manifest_of old.now) memory.now made.now.target made.now.level) }
    ensures err { IsErrOf result obstacle.Unfit → 2 ^ 63 ≤ old.now.written
        + entries_if_any made.now.level
        + (old.now.next_array + length (arrays_made made.now.level)) }
    ensures cause { IsOkOrShort result }
{
    let (written, next_array) = next_counts(old, made)?;
    let (_, _, tree) = memory.sealed_parts();
    let (versions, changes, updates) = memory.sealed_counts();
    let parents = parents_of(alloc, tree, versions)?;
    let marks = memory.sealed_marks(alloc)?;
    let levels = next_levels(alloc, made, old.levels.as_slice())?;
    Ok(Manifest {
        changes,
        updates,
        written,
        compacted: old.compacted,
        next_array,
        parents,
        marks,
        levels,
    })
}

/// Refuses a manifest that has no spelling, or one that is too long for a chain: no store has such a manifest.
fn check_writable(m: &Manifest) -> Result<(), Unfit>
    ensures ok { OnOk result (IsTrue (is_lawful_manifest newest_format (manifest_of m.now))
        × (length (manifest_bytes newest_format (manifest_of m.now)) ≤ 4290772992)) }
    ensures cause { OnErr result (IsTrue (is_lawful_manifest newest_format (manifest_of m.now))
        → length (manifest_bytes newest_format (manifest_of m.now)) ≤ 4290772992 → ⊥) }
{
    if !is_writable(m, NEWEST_FORMAT) {
        return Err(Unfit);
    }
    Ok(())
}

/// Computes the manifest after a promotion, and writes it: its first block, its length in bytes and its blocks are answered,
/// too. After an error the space is as it was. `Unfit`: no store has such a manifest. Other errors are those of `write_next`,
/// and want of memory.
fn write_next_manifest<D: Disk>(
    alloc: Global,
    old: &Manifest,
    memory: &Memory,
    made: &Made,
    space: &mut Space,
    disk: &mut D,
) -> Result<(Manifest, u32, u32, Extents), Obstacle>
    requires len { made.now.entries ≡ min (entries_if_any made.now.level) (2 ^ 64 - 1) }
    requires room { 1 ≤ space.old.first }
    ensures ok { IfOk result (λ r. IsSome (D.view disk.old).content → (g : Image)
        → Exposes (D.view disk.new) g → (new : Contents)
        → IsWrittenTo r.1 r.2 r.3 (manifest_of r.0) new → HasManifest g new) }
    ensures found { IfOk result (λ r. manifest_of r.0
        ≡ manifest_after (manifest_of old.now) memory.now made.now.target made.now.level) }
    ensures room { IfOk result (λ r. IsMarked space.old r.3 space.new) }
    ensures fits { IfOk result (λ r. (space.old.first ≤ r.1) × (r.1 < 4294967295)
        × (38 ≤ r.2) × IsTrue (is_lawful_manifest newest_format (manifest_of r.0))) }
    ensures err { OnErr result (SameBlocks space.old space.new) }
    ensures none { IsErrOf result obstacle.Unfit → MayBeWritten (manifest_after
        (manifest_of old.now) memory.now made.now.target made.now.level)
        → HasFewFree space.old (2 ^ 20) }
    ensures images { TearsBlocks (is_free space.old) (D.view disk.old) (D.view disk.new) }
    ensures cause { HasCause Device (D.faults disk.old) (D.faults disk.new) result }
    ensures damaged { (b : ℕ) → IsErrOf result (Damaged b) → ⊥ }
    ensures reads { D.reads disk.new ≡ D.reads disk.old }
{
    let m = next_manifest(alloc, old, memory, made)?;
    check_writable(&m)?;
    let (first, length, chain) = write_next(alloc, disk, space, &m)?;
    Ok((m, first, length, chain))
}

/// The next contents of a store, as far as they are written: what was promoted, the manifest, and its first block, its length
/// in bytes and its blocks.
#[derive(Drop)]
pub(crate) struct Computed {
    pub(crate) made: Made,
    pub(crate) manifest: Manifest,
    pub(crate) first: u32,
    pub(crate) length: u32,
    pub(crate) chain: Extents,
}

/// Writes the manifest that names what a promotion made, and the deeper levels: all of the next contents but their superblock
/// is written then. Nothing is written but free blocks, so the old contents stand as they did, whatever comes of it. After an
/// error the space is as it was. Errors are those of `write_next`, and want of memory; `Unfit` never comes where the store
/// stands.
pub(crate) fn compute_next<D: Disk>(
    alloc: Global,
    old: &Manifest,
    memory: &Memory,
    made: Made,
    space: &mut Space,
    disk: &mut D,
) -> Result<Computed, Obstacle>
    requires fits { (1 ≤ space.old.first) × (1 ≤ made.target)
        × (made.entries ≡ min (entries_if_any made.level) (2 ^ 64 - 1)) }
    ensures ok { IfOk result (λ r. (x : Contents) (log : Log) (others : List Extent)
        → MayCompute (D.view disk.old) space.old memory.now log x made.target made.level
        made.filters others
        → x.chained.manifest ≡ manifest_of old.now
        → IsComputedBy (D.view disk.new) space.new x memory.now log
        r.made.target r.made.level r.first r.length r.chain others r.made.filters) }
    ensures found { IfOk result (λ r. manifest_of r.manifest
        ≡ manifest_after (manifest_of old.now) memory.now r.made.target r.made.level) }
    ensures disk { IfOk result (λ r. WritesManifest (D.view disk.old) (D.view disk.new)
        r.first r.length
        (record { manifest = manifest_of r.manifest; blocks = blocks_of r.chain })) }
    ensures room { IfOk result (λ r. IsMarked space.old r.chain space.new) }
    ensures fits { IfOk result (λ r. (space.old.first ≤ r.first) × (r.first < 4294967295)
        × (38 ≤ r.length)
        × IsTrue (is_lawful_manifest newest_format (manifest_of r.manifest))
        × (r.made ≡ made)) }
    ensures err { IsErrOf result obstacle.Unfit
        → space.old.first + used_count space.old + 2 ^ 30
        < 4294967295 + length (blocks_of (extents_of (arrays_made made.level)))
        → (x : Contents) (log : Log) (others : List Extent)
        → MayCompute (D.view disk.old) space.old memory.now log x made.target made.level
        made.filters others
        → x.chained.manifest ≡ manifest_of old.now → ⊥ }
    ensures images { TearsBlocks (is_free space.old) (D.view disk.old) (D.view disk.new) }
    ensures cause { HasCause Device (D.faults disk.old) (D.faults disk.new) result }
    ensures damaged { (b : ℕ) → IsErrOf result (Damaged b) → ⊥ }
    ensures reads { D.reads disk.new ≡ D.reads disk.old }
{
    let (manifest, first, length, chain) = write_next_manifest(
        alloc, old, memory, &made, space, disk,
    )?;
    Ok(Computed {
        made,
        manifest,
        first,
        length,
        chain,
    })
}
