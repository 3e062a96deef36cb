//! What versions see of a level's leads, and which of its arrays have strays.

ghost use Rattle.std.specs.List.{Contains, list_all};
ghost use Rattle.std.specs.Prelude.{◌≡◌, ◌<◌, ◌≤◌, ◌^◌, ℕ, nat_lt, false, List, [], ◌∷◌, ◌++◌, Some, length, map, sum_by, IfOk, OnOk, IsErrOf, IsTrue};
ghost use Rattle.strat_array.specs.Within.{AreWithin};
ghost use Rattle.strat_base.specs.Entries.{Entry};
ghost use Rattle.strat_base.specs.declared.descriptors.ArrayDesc.{ArrayDesc as Desc};
ghost use Rattle.strat_base.specs.declared.failures.Trouble.TheVariants.{Damaged, Device};
ghost use Rattle.def_crash.specs.Faults.{HasCause, ReadsAtMost};
ghost use Rattle.def_crash.specs.Image.{Image};
ghost use Rattle.def_crash.specs.Moments.{Exposes, OnlyReads};
ghost use Rattle.def_promote.specs.Merging.{MergesTo};
ghost use Rattle.def_recovery.specs.Opened.{level_on};
ghost use Rattle.def_split.specs.Groups.{grouped_entries};
ghost use Rattle.def_state.specs.Level.{Level};
ghost use Rattle.def_check.specs.Told.{MayBeCounted};
ghost use Rattle.strat_merge.specs.MergerFields.{runs_merged, views_of};
ghost use Rattle.strat_merge.specs.Reading.{ReadsRuns};
ghost use Rattle.strat_merge.specs.Runs.{lefts};
ghost use Rattle.strat_tree.specs.Preorder.{IsPreorder};
ghost use Rattle.strat_promote.specs.Job.{blocks_listed};
ghost use Rattle.strat_promote.specs.Opening.{IsBlamed};
ghost use Rattle.strat_check.specs.LevelPasses.{IsLevelPass, IsCountingLevel, IsLevelCounted};
ghost use Rattle.strat_check.specs.MarkedRuns.{marked_seen};
ghost use Rattle.strat_check.specs.Owners.{AreOwners};
ghost use Rattle.strat_check.specs.Strays.{IsCountedLevel};

use crate::level_runs::open_runs;
use crate::marked_group::{Merging, next_leads};
use crate::owners::owners_of;
use crate::sights::Sights;
use crate::stray_group::{StrayGroup, note_group};
use crate::strays::{Strays, no_strays};
use std::alloc::Global;
use strat_base::{ArrayDesc, LevelDesc, Trouble};
use strat_disk::Disk;
use strat_tree::Tree;

/// The runs of a level's arrays that are merged, the place of the array that has each version in its tag, and what was found
/// of each array.
#[derive(Drop)]
pub(crate) struct LevelPass {
    pub(crate) merging: Merging,
    pub(crate) owners: Vec<u32>,
    pub(crate) found: Vec<Strays>,
}

/// Takes the group of the least key that is left, adds the versions of its leads, and notes its strays. `false` where no
/// run has an entry left.
fn count_group<D: Disk>(
    alloc: Global,
    pass: &mut LevelPass,
    arrays: &[ArrayDesc],
    tree: &Tree,
    sights: &mut Sights,
    disk: &mut D,
) -> Result<bool, Trouble>
    requires kept { IsLevelPass (length tree.now.parents) (length arrays.now) pass.old }
    requires fits { (a : Desc) → Contains arrays.now a
        → IsTrue (list_all (λ v. nat_lt v (length tree.now.parents)) a.versions) }
    requires len { length sights.old.own ≡ length tree.now.parents }
    ensures kept { OnOk result
        (IsLevelPass (length tree.now.parents) (length arrays.now) pass.new) }
    ensures same { pass.new.owners.items ≡ pass.old.owners.items }
    ensures len { length sights.new.own ≡ length sights.old.own }
    ensures found { sights.new.order ≡ sights.old.order }
    ensures ok { IfOk result (λ more. IsTrue more → (f : Image) (runs : List (List Entry))
        → Exposes (D.view disk.old) f
        → AreOwners (map (λ a. a.versions) arrays.now) pass.old.owners.items
        → IsCountingLevel tree.now.parents (map (λ a. a.versions) arrays.now) runs
        (lefts f (views_of marked_seen pass.old.merging.merger)) pass.old.found.items sights.old
        → IsCountingLevel tree.now.parents (map (λ a. a.versions) arrays.now) runs
        (lefts f (views_of marked_seen pass.new.merging.merger)) pass.new.found.items sights.new) }
    ensures state { IfOk result (λ more. IsTrue more → (group : List Entry) × (0 < length group)
        × ((f : Image) (runs groups : List (List Entry)) → Exposes (D.view disk.old) f
        → MergesTo runs groups (lefts f (views_of marked_seen pass.old.merging.merger))
        → MergesTo runs (groups ++ group ∷ [])
        (lefts f (views_of marked_seen pass.new.merging.merger)))) }
    ensures none { IfOk result (λ more. more ≡ false → (f : Image) (runs : List (List Entry))
        → Exposes (D.view disk.old) f
        → IsCountingLevel tree.now.parents (map (λ a. a.versions) arrays.now) runs
        (lefts f (views_of marked_seen pass.old.merging.merger)) pass.old.found.items sights.old
        → IsLevelCounted tree.now.parents (map (λ a. a.versions) arrays.now) runs
        pass.new.found.items sights.new) }
    ensures reads { ReadsRuns marked_seen Device Damaged (D.view disk.old) (D.view disk.new)
        (D.faults disk.old) (D.faults disk.new) (D.reads disk.old) (D.reads disk.new)
        (runs_merged pass.old.merging.merger) (runs_merged pass.new.merging.merger) result }
{
    // For the proof: there are at most 16,384 versions.
    let _versions = tree.count();
    if !next_leads(&mut pass.merging, &pass.owners, disk)? {
        return Ok(false);
    }
    sights.add(&pass.merging.versions, tree);
    let group = StrayGroup {
        arena: &pass.merging.arena,
        items: pass.merging.group.items(),
        owners: &pass.owners,
    };
    note_group(alloc, &group, arrays, tree, &mut pass.found)?;
    Ok(true)
}

/// Takes all groups. `false` where there are more keys than a disk has entries.
fn count_groups<D: Disk>(
    alloc: Global,
    pass: &mut LevelPass,
    arrays: &[ArrayDesc],
    tree: &Tree,
    sights: &mut Sights,
    disk: &mut D,
) -> Result<bool, Trouble>
    requires kept { IsLevelPass (length tree.now.parents) (length arrays.now) pass.old }
    requires fits { (a : Desc) → Contains arrays.now a
        → IsTrue (list_all (λ v. nat_lt v (length tree.now.parents)) a.versions) }
    requires len { length sights.old.own ≡ length tree.now.parents }
    ensures kept { OnOk result
        (IsLevelPass (length tree.now.parents) (length arrays.now) pass.new) }
    ensures len { length sights.new.own ≡ length sights.old.own }
    ensures state { sights.new.order ≡ sights.old.order }
    ensures ok { IfOk result (λ all. IsTrue all → (f : Image) (runs : List (List Entry))
        → Exposes (D.view disk.old) f
        → AreOwners (map (λ a. a.versions) arrays.now) pass.old.owners.items
        → IsCountingLevel tree.now.parents (map (λ a. a.versions) arrays.now) runs
        (lefts f (views_of marked_seen pass.old.merging.merger)) pass.old.found.items sights.old
        → IsLevelCounted tree.now.parents (map (λ a. a.versions) arrays.now) runs
        pass.new.found.items sights.new) }
    ensures none { IfOk result (λ all. all ≡ false → (f : Image) (runs : List (List Entry))
        → Exposes (D.view disk.old) f
        → lefts f (views_of marked_seen pass.old.merging.merger) ≡ runs
        → 2 ^ 48 < length (grouped_entries runs)) }
    ensures reads { ReadsRuns marked_seen Device Damaged (D.view disk.old) (D.view disk.new)
        (D.faults disk.old) (D.faults disk.new) (D.reads disk.old) (D.reads disk.new)
        (runs_merged pass.old.merging.merger) (runs_merged pass.new.merging.merger) result }
{
    for _ in 0..u64::MAX {
        match count_group(alloc, pass, arrays, tree, sights, disk) {
            Ok(true) => {}
            Ok(false) => return Ok(true),
            Err(trouble) => return Err(trouble),
        }
    }
    Ok(false)
}

/// Goes through the arrays of a level key by key: afterwards the sights are those of its leads, and the answer is what was
/// found of each array. Each block is read once at most; for each entry O(log arrays) comparisons, and what it takes to
/// look at its group. Takes a block and a key for each array, 20 bytes a version, and what the entries of a key take.
///
/// `NoMemory` where there is none for them; `Device` only where the disk failed; `Damaged` names a block of an array
/// that is bad for it.
pub fn count_level<D: Disk>(
    alloc: Global,
    level: &LevelDesc,
    tree: &Tree,
    sights: &mut Sights,
    disk: &mut D,
) -> Result<Vec<Strays>, Trouble>
    requires fits { (a : Desc) → Contains level.now.arrays a → AreWithin a.extents }
    requires kept { (a : Desc) → Contains level.now.arrays a
        → IsTrue (list_all (λ v. nat_lt v (length tree.now.parents)) a.versions) }
    requires room { length level.now.arrays ≤ 16384 }
    requires len { (length sights.old.own ≡ length tree.now.parents)
        × IsPreorder (length tree.now.parents) tree.now.parents sights.old.order }
    ensures ok { IfOk result (λ found. (f : Image) (on : Level) → Exposes (D.view disk.old) f
        → level_on f level.now ≡ Some on → MayBeCounted on
        → on.horizon ≤ length tree.now.parents
        → sum_by (λ a. length a.content) on.arrays ≤ 2 ^ 48
        → IsCountedLevel tree.now.parents on found.items sights.new) }
    ensures found { IfOk result (λ found. length found.items ≡ length level.now.arrays) }
    ensures len { length sights.new.own ≡ length sights.old.own }
    ensures state { sights.new.order ≡ sights.old.order }
    ensures damaged { (b : ℕ) → IsErrOf result (Damaged b)
        → IsBlamed (D.view disk.old) level.now.arrays b }
    ensures same { OnlyReads (D.view disk.old) (D.view disk.new) }
    ensures cause { HasCause Device (D.faults disk.old) (D.faults disk.new) result }
    ensures reads { ReadsAtMost (length (blocks_listed level.now.arrays))
        (D.reads disk.old) (D.reads disk.new) }
{
    let versions = tree.count();
    let arrays = level.arrays.as_slice();
    sights.clear();
    let owners = owners_of(alloc, arrays, versions)?;
    let found = no_strays(alloc, arrays.len())?;
    let runs = open_runs(alloc, arrays, versions, disk)?;
    let merging = Merging::new(alloc, runs, versions)?;
    let mut pass = LevelPass {
        merging,
        owners,
        found,
    };
    if !count_groups(alloc, &mut pass, arrays, tree, sights, disk)? {
        return Err(Trouble::NoMemory);
    }
    sights.finish(tree);
    Ok(pass.found)
}
