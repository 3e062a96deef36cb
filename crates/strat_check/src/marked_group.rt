//! The next group of marked runs that are merged, and the versions of its leads.

ghost use Rattle.std.specs.Prelude.{◌≡◌, ◌*◌, ℕ, false, List, [], ◌∷◌, ◌++◌, length, map, IfOk, OnOk, IsTrue};
ghost use Rattle.strat_arena.specs.Items.{entries_of};
ghost use Rattle.strat_base.specs.Entries.{Entry};
ghost use Rattle.strat_base.specs.declared.failures.Trouble.TheVariants.{Damaged, Device};
ghost use Rattle.def_crash.specs.Image.{Image};
ghost use Rattle.def_crash.specs.Moments.{Exposes};
ghost use Rattle.def_promote.specs.Merging.{MergesTo, Merges};
ghost use Rattle.strat_live.specs.Counting.{are_below};
ghost use Rattle.strat_merge.specs.Gathered.{IsGroup, are_under};
ghost use Rattle.strat_merge.specs.MergerFields.{runs_merged, views_of};
ghost use Rattle.strat_merge.specs.Reading.{ReadsRuns};
ghost use Rattle.strat_merge.specs.Runs.{lefts};
ghost use Rattle.strat_check.specs.MarkedGroups.{IsMerging, leads_among, owned_versions};
ghost use Rattle.strat_check.specs.MarkedRuns.{marked_seen};

use crate::marked_run::{MarkedRun, PLACES};
use std::alloc::Global;
use strat_arena::{Arena, Item};
use strat_base::{NoMemory, Trouble, Version};
use strat_disk::Disk;
use strat_merge::{GroupBuf, Merger};

/// Marked runs that are merged, the group of the key at hand, and the versions of its leads, the greatest first.
#[derive(Drop)]
pub(crate) struct Merging {
    pub(crate) merger: Merger<MarkedRun>,
    pub(crate) arena: Arena,
    pub(crate) group: GroupBuf,
    pub(crate) versions: Vec<Version>,
}

impl Merging {
    /// These runs, of which nothing was taken, with room for the leads of any group. O(versions).
    pub(crate) fn new(
        alloc: Global,
        runs: Vec<MarkedRun>,
        versions: u32,
    ) -> Result<Merging, NoMemory>
        requires room { IsTrue (are_under (16384 * versions) (map marked_seen runs.items)) }
        ensures kept { IfOk result (λ m. IsMerging versions m) }
        ensures ok { IfOk result (λ m. runs_merged m.merger ≡ runs.items) }
    {
        let group = GroupBuf::new(alloc, versions)?;
        let leads = Vec::with_capacity(alloc, versions as usize)?;
        let merger = Merger::new(alloc, runs)?;
        Ok(Merging {
            merger,
            arena: Arena::new(alloc),
            group,
            versions: leads,
        })
    }
}

/// Takes the versions of the items that are of the runs that own them, by a table of the places that own each version.
/// O(items).
fn take_leads(items: &[Item], owners: &[u32], versions: &mut Vec<Version>) -> Result<(), NoMemory>
    requires fits { IsTrue (are_below (16384 * length owners.now) items.now) }
    ensures ok { OnOk result (versions.new.items ≡ leads_among owners.now items.now) }
{
    versions.clear();
    for item in items {
        let version = item.version / PLACES;
        if owners[version as usize] == item.version % PLACES {
            versions.push(version)?;
        }
    }
    Ok(())
}

/// Takes the group of the least key that is left, with the entries of all runs, and the versions of its leads: of each
/// version that of the run whose place owns it, by a table of these places. `false` where no run has an entry left.
pub(crate) fn next_leads<D: Disk>(
    merging: &mut Merging,
    owners: &[u32],
    disk: &mut D,
) -> Result<bool, Trouble>
    requires kept { IsMerging (length owners.now) merging.old }
    ensures kept { OnOk result (IsMerging (length owners.now) merging.new) }
    ensures found { IfOk result (λ more. IsTrue more → (key : List ℕ) × IsGroup
        (views_of marked_seen merging.old.merger) (views_of marked_seen merging.new.merger)
        merging.new.arena.pairs merging.new.group key) }
    ensures state { IfOk result (λ more. IsTrue more → merging.new.versions.items
        ≡ owned_versions owners.now (entries_of merging.new.arena.pairs merging.new.group)) }
    ensures ok { IfOk result (λ more. IsTrue more → (f : Image) (runs groups : List (List Entry))
        → Exposes (D.view disk.old) f
        → MergesTo runs groups (lefts f (views_of marked_seen merging.old.merger))
        → MergesTo runs (groups ++ entries_of merging.new.arena.pairs merging.new.group ∷ [])
        (lefts f (views_of marked_seen merging.new.merger))) }
    ensures none { IfOk result (λ more. more ≡ false
        → (f : Image) (runs groups : List (List Entry))
        → MergesTo runs groups (lefts f (views_of marked_seen merging.old.merger))
        → Merges runs groups) }
    ensures reads { ReadsRuns marked_seen Device Damaged (D.view disk.old) (D.view disk.new)
        (D.faults disk.old) (D.faults disk.new) (D.reads disk.old) (D.reads disk.new)
        (runs_merged merging.old.merger) (runs_merged merging.new.merger) result }
{
    if !merging
        .merger
        .next_group::<D>(disk, &mut merging.arena, &mut merging.group)?
    {
        return Ok(false);
    }
    take_leads(merging.group.items(), owners, &mut merging.versions)?;
    Ok(true)
}
