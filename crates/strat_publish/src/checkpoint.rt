//! The checkpoint at the end of a promotion: what it made is named by a new manifest, and that becomes the store's.

ghost use Rattle.std.specs.List.{list_all};
ghost use Rattle.std.specs.Prelude.{◌≡◌, ◌<◌, ◌≤◌, ℕ, ◌+◌, ◌-◌, ◌^◌, [], ◌∷◌, length, min, nat_le, is_some, true, None, IfOk, OnOk, OnErr, IsErrOf, IsTrue, ◌⊎◌};
ghost use Rattle.strat_array.specs.Kept.{Blocks};
ghost use Rattle.def_crash.specs.Blocks.{TearsBlocks, AgreeOn};
ghost use Rattle.def_crash.specs.Faults.{CountsFaults, HasCause};
ghost use Rattle.def_crash.specs.Image.{Image};
ghost use Rattle.def_crash.specs.Moments.{Exposes, Since, Passes};
ghost use Rattle.def_crash.specs.Trail.{Trail};
ghost use Rattle.def_bytes.specs.Arrays.{blocks_of};
ghost use Rattle.def_bytes.specs.Layout as places;
ghost use Rattle.def_bytes.specs.Manifest.{is_lawful_manifest};
ghost use Rattle.def_bytes.specs.SuperBlock.{IsLawful};
ghost use Rattle.strat_gate.specs.SuperView.{super_of};
ghost use Rattle.strat_manifest.specs.ManifestView.{manifest_of};
ghost use Rattle.strat_promote.specs.Job.{blocks_listed};
ghost use Rattle.strat_promote.specs.Promotions.{entries_if_any, has_ended, level_of, target_of};
ghost use Rattle.strat_promote.specs.declared.obstacle.Obstacle.TheVariants as obstacle;
ghost use Rattle.strat_promote.specs.declared.obstacle.Obstacle.TheVariants.{Device, Damaged};
ghost use Rattle.def_meaning.specs.StateTable.{table_of};
ghost use Rattle.def_publish.specs.Contents.{Contents, contents_state};
ghost use Rattle.def_publish.specs.Next.{AreNewArrays, arrays_made};
ghost use Rattle.def_publish.specs.Occupied.{arrays_in};
ghost use Rattle.def_publish.specs.Standing.{ReadsAs, ShowsTable, ContentsStand};
ghost use Rattle.def_state.specs.State.{IsPaid};
ghost use Rattle.strat_publish.specs.Outcomes.{IsPublishedAs, IsOkOrShort, RanShort};
ghost use Rattle.strat_memory.specs.Filters.{filters_after};
ghost use Rattle.strat_memory.specs.Held.{IsConsistent, IsOnDisk, StandsWith, arrays_held};
ghost use Rattle.strat_cursor.specs.Cursors.{retired_all};
ghost use Rattle.strat_memory.specs.Memory.{IsReadyFrom};
ghost use Rattle.strat_memory.specs.Paying.{ArePaidSince};
ghost use Rattle.strat_publish.specs.Counting.{CountsWritten};
ghost use Rattle.strat_publish.specs.Publishing.{IsComputed, LaysSuperblock, WritesManifest, descs_to, is_in_front, manifest_after};
ghost use Rattle.strat_memory.specs.Admitting.{chained_of, IsAdmitted};
ghost use Rattle.strat_memory.specs.RecoveredFields.{held_of, open_of};
ghost use Rattle.strat_publish.specs.Promoting.{HasMade, StandsEnded, StandsMade};
ghost use Rattle.strat_publish.specs.Settling.{super_after, held_next, ArePublishedTo, HaveOldOrNext, IsInstalled, KeepsPublished, MayBeAdmitted, MayFollow, StandApart, WritesBeside, IsReadied};
ghost use Rattle.def_bytes.specs.Layout.{newest_format};

use crate::lay::lay_next;
use crate::made::{Made, take_made};
use crate::next_manifest::{Computed, compute_next};
use def_bytes::NEWEST_FORMAT;
use std::alloc::Global;
use std::mem;
use strat_base::{ArrayDesc, Arrays, Failed, LevelDesc, NoMemory};
use strat_disk::Disk;
use strat_extent::Space;
use strat_gate::SuperBlock;
use strat_manifest::LevelList;
use strat_memory::admitting::{Published, admit};
use strat_memory::filters::LevelFilters;
use strat_memory::memory::Memory;
use strat_memory::open_store::{OpenStore, Promoting};
use strat_promote::obstacle::{Obstacle, Unfit};

/// The superblock after one, with this manifest, unless no number is left for its generation: no store comes so far.
fn next_super(old: &SuperBlock, first: u32, length: u32) -> Result<SuperBlock, Unfit>
    requires kept { IsLawful (super_of old.now) }
    requires fits { (places.first_free old.now.mem ≤ first) × (first < 4294967295) × (38 ≤ length) }
    ensures ok { IfOk result (λ sb. super_of sb ≡ super_after (super_of old.now) first length) }
    ensures kept { IfOk result (λ sb. IsLawful (super_of sb)) }
    ensures cause { OnErr result (2 ^ 64 ≤ (super_of old.now).generation + 1) }
{
    let Some(generation) = old.generation.checked_add(1) else {
        return Err(Unfit);
    };
    Ok(SuperBlock {
        format: NEWEST_FORMAT,
        generation,
        manifest: first,
        length,
        region: 1 - old.region,
        mem: old.mem,
        changes_max: old.changes_max,
        versions_max: old.versions_max,
    })
}

/// Computes the next contents of a store but for their superblock, from what a promotion made: nothing is written but blocks
/// that are free beside what it holds. Errors are those of `compute_next`; `Unfit` never comes where the store stands.
fn compute_beside<D: Disk>(
    alloc: Global,
    held: &OpenStore,
    made: Made,
    space: &mut Space,
    disk: &mut D,
) -> Result<Computed, Obstacle>
    requires kept { (cached : Blocks) → IsConsistent (held_of held.now cached)
        × HasMade (held_of held.now cached) space.old made.target made.level }
    requires len { (held.now.sb.mem ≤ length held.now.journal.list)
        × (made.entries ≡ min (entries_if_any made.level) (2 ^ 64 - 1)) }
    ensures ok { IfOk result (λ r. (x : Contents) (cached : Blocks)
        → StandsMade (D.view disk.old) (held_of held.now cached) x space.old made.target made.level
        made.filters
        → IsReadied (D.view disk.new) (held_of held.now cached) x
        (super_after (super_of held.now.sb) r.first r.length)
        (record { manifest = manifest_of r.manifest; blocks = blocks_of r.chain })
        (filters_after held.now.filters r.made.target r.made.filters)
        × AreNewArrays held.now.published.manifest.next_array (arrays_made r.made.level)) }
    ensures room { IfOk result (λ r. (cached : Blocks)
        → StandApart r.made.target (held_of held.now cached)
        (record { manifest = manifest_of r.manifest; blocks = blocks_of r.chain })) }
    ensures found { IfOk result (λ r. manifest_of r.manifest ≡ manifest_after
        (manifest_of held.now.published.manifest) held.now.memory r.made.target r.made.level) }
    ensures disk { IfOk result (λ r. WritesManifest (D.view disk.old) (D.view disk.new)
        r.first r.length
        (record { manifest = manifest_of r.manifest; blocks = blocks_of r.chain })) }
    ensures fits { IfOk result (λ r. (places.first_free held.now.sb.mem ≤ r.first)
        × (r.first < 4294967295) × (38 ≤ r.length)
        × IsTrue (is_lawful_manifest newest_format (manifest_of r.manifest))
        × (r.made ≡ made)) }
    ensures err { IsErrOf result obstacle.Unfit → (x : Contents) (cached : Blocks)
        → StandsMade (D.view disk.old) (held_of held.now cached) x space.old made.target made.level
        made.filters → ⊥ }
    ensures images { (cached : Blocks)
        → WritesBeside (D.view disk.old) (D.view disk.new) (held_of held.now cached) }
    ensures cause { HasCause Device (D.faults disk.old) (D.faults disk.new) result }
    ensures damaged { (b : ℕ) → IsErrOf result (Damaged b) → ⊥ }
    ensures reads { D.reads disk.new ≡ D.reads disk.old }
{
    compute_next(
        alloc,
        &held.published.manifest,
        &held.memory,
        made,
        space,
        disk,
    )
}

/// What takes the place of a store's superblock and of what its last checkpoint left, the number of the level that was
/// filled, and the filters of its arrays.
#[derive(Drop)]
struct NextContents {
    sb: SuperBlock,
    published: Published,
    target: usize,
    filters: LevelFilters,
}

/// Whether each of these arrays has a number from one on.
fn are_numbered_from(arrays: &[ArrayDesc], next_array: u64) -> bool
    ensures ok { result ≡ list_all (λ a. nat_le next_array a.id) arrays.now }
{
    for array in arrays {
        if array.id < next_array {
            return false;
        }
    }
    true
}

/// Whether each array that a promotion made has a number from one on. O(arrays).
fn has_new_numbers(made: &Made, next_array: u64) -> bool
    ensures ok { result ≡ list_all (λ a. nat_le next_array a.id) (arrays_made made.now.level) }
{
    match &made.level {
        Some(level) => are_numbered_from(level.arrays.as_slice(), next_array),
        None => true,
    }
}

/// The next superblock, and the manifest that it leads to, tested as recovery tests them. `Unfit`: recovery would refuse
/// them, an array's number is not new, or no generation is left.
fn admit_next(alloc: Global, held: &OpenStore, computed: Computed) -> Result<NextContents, Obstacle>
    requires kept { IsLawful (super_of held.now.sb)
        × IsTrue (is_lawful_manifest newest_format (manifest_of computed.manifest)) }
    requires fits { (places.first_free held.now.sb.mem ≤ computed.first)
        × (computed.first < 4294967295) × (38 ≤ computed.length) }
    ensures ok { IfOk result (λ next.
        (super_of next.sb ≡ super_after (super_of held.now.sb) computed.first computed.length)
        × IsLawful (super_of next.sb) × (next.target ≡ computed.made.target)) }
    ensures found { IfOk result (λ next. chained_of next.published
        ≡ record { manifest = manifest_of computed.manifest; blocks = blocks_of computed.chain }) }
    ensures filters { IfOk result (λ next. next.filters ≡ computed.made.filters) }
    ensures kept { IfOk result (λ next. IsAdmitted (super_of next.sb) next.published) }
    ensures same { IfOk result (λ next. IsTrue (list_all
        (λ a. nat_le held.now.published.manifest.next_array a.id)
        (arrays_made computed.made.level))) }
    ensures err { IsErrOf result obstacle.Unfit → MayBeAdmitted (super_of held.now.sb)
        (manifest_of held.now.published.manifest) computed.made.level
        (super_after (super_of held.now.sb) computed.first computed.length)
        (record { manifest = manifest_of computed.manifest; blocks = blocks_of computed.chain })
        → ⊥ }
    ensures cause { IsOkOrShort result }
{
    if !has_new_numbers(&computed.made, held.published.manifest.next_array) {
        return Err(Obstacle::Unfit);
    }
    let sb = next_super(&held.sb, computed.first, computed.length)?;
    match admit(alloc, &sb, computed.manifest, computed.chain)? {
        Some(published) => Ok(NextContents {
            sb,
            published,
            target: computed.made.target,
            filters: computed.made.filters,
        }),
        None => Err(Obstacle::Unfit),
    }
}

/// Writes the next contents of a store but for their superblock beside what it holds, and tests what their manifest
/// says. Errors are those of `compute_beside`, and want of memory; `Unfit` never comes where the store stands.
fn prepare_next<D: Disk>(
    alloc: Global,
    held: &OpenStore,
    made: Made,
    space: &mut Space,
    disk: &mut D,
) -> Result<NextContents, Obstacle>
    requires kept { (cached : Blocks) → IsConsistent (held_of held.now cached)
        × HasMade (held_of held.now cached) space.old made.target made.level }
    requires len { (held.now.sb.mem ≤ length held.now.journal.list)
        × (made.entries ≡ min (entries_if_any made.level) (2 ^ 64 - 1)) }
    ensures ok { IfOk result (λ next. (x : Contents) (cached : Blocks)
        → StandsMade (D.view disk.old) (held_of held.now cached) x space.old made.target made.level
        made.filters
        → IsReadied (D.view disk.new) (held_of held.now cached) x (super_of next.sb)
        (chained_of next.published)
        (filters_after held.now.filters next.target next.filters)) }
    ensures fits { IfOk result (λ next. (cached : Blocks)
        → MayFollow (held_of held.now cached) (super_of next.sb) (chained_of next.published)) }
    ensures found { IfOk result (λ next. ArePublishedTo next.target (super_of held.now.sb)
        (manifest_of held.now.published.manifest) held.now.memory (super_of next.sb)
        (manifest_of next.published.manifest)) }
    ensures disk { IfOk result (λ next. WritesManifest (D.view disk.old) (D.view disk.new)
        next.sb.manifest next.sb.length (chained_of next.published)) }
    ensures kept { IfOk result (λ next. IsAdmitted (super_of next.sb) next.published
        × ((cached : Blocks)
        → StandApart next.target (held_of held.now cached) (chained_of next.published))
        × (1 ≤ next.target) × (next.target ≤ 22)) }
    ensures err { IsErrOf result obstacle.Unfit → (x : Contents) (cached : Blocks)
        → StandsMade (D.view disk.old) (held_of held.now cached) x space.old made.target made.level
        made.filters → ⊥ }
    ensures images { (cached : Blocks)
        → WritesBeside (D.view disk.old) (D.view disk.new) (held_of held.now cached) }
    ensures cause { HasCause Device (D.faults disk.old) (D.faults disk.new) result }
    ensures damaged { (b : ℕ) → IsErrOf result (Damaged b) → ⊥ }
    ensures reads { D.reads disk.new ≡ D.reads disk.old }
{
    let computed = compute_beside(alloc, held, made, space, disk)?;
    let next = admit_next(alloc, held, computed)?;
    Ok(next)
}

/// How many arrays levels have, or 2^64 - 1 where there are more.
fn count_arrays(levels: &[LevelDesc]) -> usize
    ensures ok { result ≡ min (length (arrays_in levels.now)) (2 ^ 64 - 1) }
{
    let mut n = 0usize;
    for level in levels {
        n = n.saturating_add(level.arrays.len());
    }
    n
}

/// Takes the memory that a checkpoint needs beside its promotion, and seals level 0, if that is not sealed: room for all
/// arrays of these levels among those that are kept, which stays for the next time, and a new level 0. The only error is
/// want of memory, before anything is sealed.
pub(crate) fn seal_for_next(
    alloc: Global,
    memory: &mut Memory,
    mem: u32,
    levels: &[LevelDesc],
) -> Result<(), NoMemory>
    requires fits { (4 ≤ mem) × (mem ≤ 4096) }
    requires len { length (arrays_in levels.now) < 2 ^ 64 }
    ensures ok { OnOk result (IsTrue (is_some memory.new.sealed)
        × (length memory.new.cursors.retired + length (arrays_in levels.now)
        ≤ memory.new.cursors.room)) }
    ensures same { IsReadyFrom mem memory.old memory.new }
{
    memory.reserve_retired(count_arrays(levels))?;
    if memory.is_sealed() {
        return Ok(());
    }
    let marks = memory.marks(alloc)?;
    memory.prepare(alloc, mem)?;
    memory.seal(marks);
    Ok(())
}

/// Keeps those of these arrays that a cursor names. O(arrays * arrays of all cursors), and no memory.
fn retire_arrays(memory: &mut Memory, mut arrays: Arrays)
    requires room { length memory.old.cursors.retired + length arrays ≤ memory.old.cursors.room }
    ensures ok { memory.new ≡ record memory.old {
      cursors = retired_all arrays memory.old.cursors;
    } }
    ensures len { length memory.new.cursors.retired
        ≤ length memory.old.cursors.retired + length arrays }
{
    while let Some(desc) = arrays.pop() {
        memory.retire(desc);
    }
}

/// Keeps those arrays of the levels down to a number that a cursor names. O(arrays * arrays of all cursors), and no memory.
fn retire_levels(memory: &mut Memory, mut levels: LevelList, target: usize)
    requires room { length memory.old.cursors.retired + length (arrays_in levels)
        ≤ memory.old.cursors.room }
    ensures ok { memory.new ≡ record memory.old {
      cursors = retired_all (arrays_in (descs_to target levels)) memory.old.cursors;
    } }
{
    while let Some(level) = levels.pop() {
        if level.number as usize <= target {
            retire_arrays(memory, level.arrays);
        }
    }
}

/// Lays the superblock of what a store made ready, which then takes the place of what it holds. At most five syncs, and
/// no memory.
fn install<D: Disk>(
    alloc: Global,
    held: &mut OpenStore,
    next: NextContents,
    disk: &mut D,
) -> Result<(), Failed>
    requires fits { (held.old.slot ≤ 1) × (held.old.journal.active ≤ 1)
        × IsLawful (super_of next.sb) × (1 ≤ next.target) × (next.target ≤ 22) }
    requires room { length held.old.memory.cursors.retired
        + length (arrays_in (manifest_of held.old.published.manifest).levels)
        ≤ held.old.memory.cursors.room }
    requires same { (next.sb.mem ≡ held.old.sb.mem) × (held.old.promoting ≡ None) }
    ensures ok { OnOk result ((cached : Blocks) → held_of held.new cached
        ≡ held_next (held_of held.old cached) next.target (super_of next.sb)
        (chained_of next.published) next.published.levels next.filters) }
    ensures kept { OnOk result ((x y : Contents) → IsComputed (D.view disk.old) (1 - held.old.slot)
        (super_of next.sb) held.old.journal x y → ContentsStand (D.view disk.new) y) }
    ensures trail { (x y : Contents) → IsComputed (D.view disk.old) (1 - held.old.slot)
        (super_of next.sb) held.old.journal x y → Trail ShowsTable (D.view disk.new)
        (D.view disk.old).moment (table_of (contents_state x) ∷ []) 0
        × (IsPaid (contents_state x) → IsPaid (contents_state y)
        → ArePaidSince (D.view disk.new) (D.view disk.old).moment)
        × ((c : Image) → Since (D.view disk.new) (D.view disk.old).moment c
        → ReadsAs c x ⊎ ReadsAs c y) }
    ensures disk { OnOk result (LaysSuperblock (D.view disk.old) (D.view disk.new)
        held.old.journal.mem (1 - held.old.slot) (super_of next.sb)) }
    ensures err { OnErr result ((held.new.memory ≡ held.old.memory)
        × (held.new.promoting ≡ held.old.promoting) × ((cached : Blocks)
        → KeepsPublished (held_of held.old cached) (held_of held.new cached))) }
    ensures same { held.new.sb.mem ≡ held.old.sb.mem }
    ensures images { TearsBlocks (is_in_front held.old.journal.mem)
        (D.view disk.old) (D.view disk.new) }
    ensures time { Passes (D.view disk.old) (D.view disk.new) }
    ensures cause { CountsFaults (D.faults disk.old) (D.faults disk.new) result }
{
    lay_next(disk, 1 - held.slot, &next.sb, &mut held.journal)?;
    held.slot = 1 - held.slot;
    held.sb = next.sb;
    let left = mem::replace(&mut held.published, next.published);
    held.memory.forget_sealed();
    retire_levels(&mut held.memory, left.manifest.levels, next.target);
    held.filters.replace(alloc, next.target, next.filters);
    Ok(())
}

/// Publishes what a promotion made that has ended: a new manifest names it, and a new superblock makes that the store's. The
/// journal has then what was behind the full region, and nothing is sealed. It writes each block of the manifest once, and
/// syncs five times at most. All memory is taken before the superblock is laid; without it the store is as it was, but that
/// what was made is given up. `Unfit` never comes where the store stands. After `Device` only recovery can tell which contents
/// the disk holds; both mean the same table.
pub(crate) fn publish_made<D: Disk>(
    alloc: Global,
    held: &mut OpenStore,
    promoting: Promoting,
    disk: &mut D,
) -> Result<(), Obstacle>
    requires kept { ((cached : Blocks) → IsConsistent (held_of held.old cached)
        × HasMade (held_of held.old cached) promoting.space (target_of promoting.promotion)
        (level_of promoting.promotion))
        × (has_ended promoting.promotion ≡ true) × (held.old.promoting ≡ None)
        × (held.old.sb.mem ≤ length held.old.journal.list)
        × IsTrue (is_some held.old.memory.sealed)
        × (length held.old.memory.cursors.retired
        + length (arrays_in (manifest_of held.old.published.manifest).levels)
        ≤ held.old.memory.cursors.room) }
    ensures ok { OnOk result ((x : Contents) (cached : Blocks)
        → StandsEnded (D.view disk.old) (held_of held.old cached) x (open_of promoting)
        → IsPublishedAs (D.view disk.new) x (held_of held.new cached)
        × CountsWritten (manifest_of held.old.published.manifest)
        (manifest_of held.new.published.manifest)) }
    ensures found { OnOk result ((cached : Blocks)
        → IsInstalled (held_of held.old cached) (held_of held.new cached)) }
    ensures disk { (IsErrOf result Device → ⊥) → (cached : Blocks)
        → IsOnDisk (D.view disk.old) (held_of held.old cached)
        → IsOnDisk (D.view disk.new) (held_of held.new cached) }
    ensures trail { (x : Contents) (cached : Blocks)
        → StandsEnded (D.view disk.old) (held_of held.old cached) x (open_of promoting)
        → Trail ShowsTable (D.view disk.new) (D.view disk.old).moment
        (table_of (contents_state x) ∷ []) 0
        × (IsPaid (contents_state x) → ArePaidSince (D.view disk.new) (D.view disk.old).moment)
        × HaveOldOrNext (D.view disk.new) (D.view disk.old).moment held.old.slot
        (super_of held.old.sb) }
    ensures kept { OnOk result ((cached : Blocks) → IsConsistent (held_of held.new cached))
        × (RanShort result → (x : Contents) (cached : Blocks)
        → StandsWith (D.view disk.old) (held_of held.old cached) x
        → StandsWith (D.view disk.new) (held_of held.new cached) x) }
    ensures same { (held.new.sb.mem ≡ held.old.sb.mem)
        × (RanShort result → held.new ≡ held.old)
        × OnErr result ((held.new.memory ≡ held.old.memory)
        × (held.new.promoting ≡ None) × ((cached : Blocks)
        → KeepsPublished (held_of held.old cached) (held_of held.new cached))) }
    ensures err { IsErrOf result obstacle.Unfit → (x : Contents) (cached : Blocks)
        → StandsEnded (D.view disk.old) (held_of held.old cached) x (open_of promoting) → ⊥ }
    ensures time { Passes (D.view disk.old) (D.view disk.new)
        × ((f g : Image) → Exposes (D.view disk.old) f → Exposes (D.view disk.new) g
        → AgreeOn (blocks_listed (arrays_held held.old.memory held.old.published.levels)) f g) }
    ensures cause { HasCause Device (D.faults disk.old) (D.faults disk.new) result }
    ensures damaged { (b : ℕ) → IsErrOf result (Damaged b) → ⊥ }
{
    let mut space = promoting.space;
    let made = take_made(
        alloc,
        promoting.promotion,
        held.published.manifest.next_array,
    );
    let next = prepare_next(alloc, held, made, &mut space, disk)?;
    install(alloc, held, next, disk)?;
    Ok(())
}
