//! One level of a store that is checked: its leads and its strays, then its arrays, then its own rules.

ghost use Rattle.std.specs.List.{list_all, Contains};
ghost use Rattle.std.specs.Prelude.{◌≡◌, ◌++◌, ◌∷◌, [], ◌+◌, ◌-◌, ◌*◌, ◌^◌, ℕ, List, length, min, nat_lt, ◌≤◌, Some, IfOk, IsErrOf, IsTrue};
ghost use Rattle.def_bytes.specs.Arrays.{blocks_of};
ghost use Rattle.def_crash.specs.Faults.{HasCause, ReadsAtMost};
ghost use Rattle.def_crash.specs.Image.{Image};
ghost use Rattle.def_crash.specs.Moments.{Exposes, OnlyReads};
ghost use Rattle.def_recovery.specs.Opened.{array_on, level_on};
ghost use Rattle.def_state.specs.Level.{TaggedArray, Level};
ghost use Rattle.def_state.specs.State.{State, versions_of};
ghost use Rattle.strat_array.specs.Within.{AreWithin};
ghost use Rattle.strat_base.specs.Entries.{Entry};
ghost use Rattle.strat_base.specs.declared.descriptors.ArrayDesc.{ArrayDesc};
ghost use Rattle.strat_base.specs.declared.failures.Trouble.TheVariants as trouble;
ghost use Rattle.strat_tree.specs.Preorder.{IsPreorder};
ghost use Rattle.strat_promote.specs.Job.{blocks_listed, IsBadInput};
ghost use Rattle.strat_promote.specs.Leads.{misfit_in};
ghost use Rattle.strat_check.specs.ArrayNumbers.{IsArrayTold};
ghost use Rattle.strat_check.specs.Fit.{IsFitLevel};
ghost use Rattle.strat_check.specs.LevelNumbers.{IsLevelToldFrom};
ghost use Rattle.strat_check.specs.Places.{NoArrayPlaces, KeepsArray, KeepsLevel};
ghost use Rattle.strat_check.specs.Walked.{IsArrayLooked, AreArraysLooked, AreArraysTold, HaveRoomFor, AreFirstChildren, IsNextLevel, IsFound};

use crate::array_count::count_array;
use crate::array_rules::tell_array;
use crate::children::lower_by_leads;
use crate::level_count::count_level;
use crate::level_rules::{has_room, is_tagged};
use crate::places::{ArrayPlaces, ArrayTold, LevelTold, Places};
use crate::scan::Scan;
use crate::sights::Sights;
use crate::strays::Strays;
use std::alloc::Global;
use strat_base::{ArrayDesc, LevelDesc, NoMemory, Trouble};
use strat_disk::Disk;
use strat_tree::Tree;

/// What was found of some arrays of a level: the first breaches of their rules, and how many leads they have.
#[derive(Clone, Copy)]
pub struct ArraysTold {
    pub places: ArrayPlaces,
    pub leads: u64,
}

/// What was found of the levels so far: the first breaches of their rules, the least living child of a version that has an
/// update in the journal or a lead in one of them, the least horizon, and how many leads they have.
#[derive(Clone, Copy)]
pub struct Findings {
    pub places: Places,
    pub lowest: u32,
    pub horizon: u32,
    pub leads: u64,
}

/// The tables of a check: what is counted of a level and of one array at a time, and the least living child of each version.
#[derive(Drop)]
pub struct Tables {
    pub leads: Sights,
    pub array: Sights,
    pub first: Vec<u32>,
}

impl ArraysTold {
    /// No array yet. O(1).
    fn new() -> ArraysTold
        ensures ok { NoArrayPlaces result.places × (result.leads ≡ 0) }
    {
        ArraysTold {
            places: ArrayPlaces::new(),
            leads: 0,
        }
    }

    /// What was found with one more array. O(1).
    fn with(self, level: u8, array: u64, told: ArrayTold) -> ArraysTold
        ensures ok { KeepsArray self.places result.places level array told }
        ensures len { result.leads ≡ min (self.leads + told.leads) (2 ^ 64 - 1) }
    {
        ArraysTold {
            places: self.places.with(level, array, told),
            leads: self.leads.saturating_add(told.leads),
        }
    }
}

impl Findings {
    /// What was found with one more level. O(1).
    fn with(self, level: &LevelDesc, told: LevelTold, arrays: ArraysTold, lowest: u32) -> Findings
        ensures ok { KeepsLevel self.places result.places level.now.number told arrays.places }
        ensures found { (result.lowest ≡ lowest)
            × (result.horizon ≡ min self.horizon level.now.horizon) }
        ensures len { result.leads ≡ min (self.leads + arrays.leads) (2 ^ 64 - 1) }
    {
        Findings {
            places: self.places.with(level.number, told, arrays.places),
            lowest,
            horizon: self.horizon.min(level.horizon),
            leads: self.leads.saturating_add(arrays.leads),
        }
    }
}

/// Counts an array and tells its rules: one read of each of its blocks. Device: the disk counted a fault. Damaged: a block
/// holds no entries, or none that come after those before it.
fn tell_one<D: Disk>(
    alloc: Global,
    desc: &ArrayDesc,
    scan: Scan,
    strays: Strays,
    tree: &Tree,
    leads: &Sights,
    array: &mut Sights,
    disk: &mut D,
) -> Result<ArrayTold, Trouble>
    requires fits { AreWithin desc.now.extents }
    requires kept { IsTrue (list_all (λ v. nat_lt v (length tree.now.parents)) desc.now.versions) }
    requires len { (length leads.now.own ≡ length tree.now.parents)
        × (length array.old.own ≡ length tree.now.parents)
        × IsPreorder (length tree.now.parents) tree.now.parents array.old.order }
    ensures ok { IfOk result (λ told. (f : Image) (s : State) (on : Level) (a : TaggedArray)
        (groups : List (List Entry)) → Exposes (D.view disk.old) f
        → versions_of s ≡ tree.now.parents → array_on f desc.now ≡ Some a
        → IsArrayLooked s on a groups scan strays leads.now → IsArrayTold s on a told) }
    ensures len { length array.new.own ≡ length array.old.own }
    ensures state { array.new.order ≡ array.old.order }
    ensures damaged { (b : ℕ) → IsErrOf result (trouble.Damaged b) → (f : Image)
        → Exposes (D.view disk.old) f → misfit_in f desc.now ≡ Some b }
    ensures same { OnlyReads (D.view disk.old) (D.view disk.new) }
    ensures cause { HasCause trouble.Device (D.faults disk.old) (D.faults disk.new) result }
    ensures reads { ReadsAtMost (length (blocks_of desc.now.extents))
        (D.reads disk.old) (D.reads disk.new) }
{
    count_array(alloc, desc, tree, array, disk)?;
    Ok(tell_array(desc, scan, strays, array, leads))
}

/// Tells the rules of the arrays of a level, one after the other: one read of each of their blocks.
fn tell_arrays<D: Disk>(
    alloc: Global,
    level: &LevelDesc,
    scans: &[Scan],
    strays: &[Strays],
    tree: &Tree,
    leads: &Sights,
    array: &mut Sights,
    disk: &mut D,
) -> Result<ArraysTold, Trouble>
    requires fits { (a : ArrayDesc) → Contains level.now.arrays a → AreWithin a.extents }
    requires kept { (a : ArrayDesc) → Contains level.now.arrays a
        → IsTrue (list_all (λ v. nat_lt v (length tree.now.parents)) a.versions) }
    requires len { (length leads.now.own ≡ length tree.now.parents)
        × (length array.old.own ≡ length tree.now.parents)
        × IsPreorder (length tree.now.parents) tree.now.parents array.old.order }
    requires room { (length scans.now ≡ length level.now.arrays)
        × (length strays.now ≡ length level.now.arrays) }
    ensures ok { IfOk result (λ told. (f : Image) (s : State) (on : Level)
        (groups : List (List Entry)) → Exposes (D.view disk.old) f
        → versions_of s ≡ tree.now.parents → level_on f level.now ≡ Some on
        → AreArraysLooked s on groups scans.now strays.now leads.now
        → AreArraysTold s on on.arrays told) }
    ensures len { length array.new.own ≡ length array.old.own }
    ensures state { array.new.order ≡ array.old.order }
    ensures damaged { (b : ℕ) → IsErrOf result (trouble.Damaged b) → (f : Image)
        → Exposes (D.view disk.old) f → IsBadInput f level.now.arrays b }
    ensures same { OnlyReads (D.view disk.old) (D.view disk.new) }
    ensures cause { HasCause trouble.Device (D.faults disk.old) (D.faults disk.new) result }
    ensures reads { ReadsAtMost (length (blocks_listed level.now.arrays))
        (D.reads disk.old) (D.reads disk.new) }
{
    let mut told = ArraysTold::new();
    let descs = level.arrays.as_slice();
    for i in 0..descs.len() {
        let desc = &descs[i];
        let one = tell_one(alloc, desc, scans[i], strays[i], tree, leads, array, disk)?;
        told = told.with(level.number, desc.id, one);
    }
    Ok(told)
}

/// Tells the rules of a level itself, of so many leads. The only error is want of memory.
fn tell_itself(
    alloc: Global,
    level: &LevelDesc,
    mem: u32,
    leads: &Sights,
    count: u64,
    before: Findings,
) -> Result<LevelTold, NoMemory>
    requires fits { level.now.number ≤ 22 }
    requires len { level.now.horizon ≤ length leads.now.own }
    requires room { IsTrue (list_all
        (λ a. list_all (λ v. nat_lt v level.now.horizon) a.versions) level.now.arrays) }
    ensures ok { IfOk result (λ told. IsLevelToldFrom level.now mem leads.now count before told) }
{
    Ok(LevelTold {
        is_tagged: is_tagged(alloc, level, leads)?,
        has_room: has_room(count, mem, level.number),
        is_old: level.horizon <= before.horizon,
        is_settled: level.horizon <= before.lowest,
    })
}

/// Tells the rules of a level and of its arrays: two reads of each of their blocks. Device: the disk counted a fault. Damaged: a
/// block of one of its arrays holds no entries, or none that come after those before it.
pub fn tell_level<D: Disk>(
    alloc: Global,
    level: &LevelDesc,
    scans: &[Scan],
    mem: u32,
    tree: &Tree,
    tables: &mut Tables,
    before: Findings,
    disk: &mut D,
) -> Result<Findings, Trouble>
    requires fits { (a : ArrayDesc) → Contains level.now.arrays a → AreWithin a.extents }
    requires kept { IsFitLevel (length tree.now.parents) level.now }
    requires len { HaveRoomFor tree.now.parents tables.old }
    requires room { length scans.now ≡ length level.now.arrays }
    ensures ok { IfOk result (λ after. (f : Image) (s : State) (on : Level) (done rest : List Level)
        → Exposes (D.view disk.old) f → versions_of s ≡ tree.now.parents → s.mem ≡ mem
        → AreFirstChildren s tables.old.first.items → level_on f level.now ≡ Some on
        → IsNextLevel s done rest on scans.now → IsFound s done before
        → IsFound s (done ++ on ∷ []) after) }
    ensures room { HaveRoomFor tree.now.parents tables.new }
    ensures kept { tables.new.first ≡ tables.old.first }
    ensures damaged { (b : ℕ) → IsErrOf result (trouble.Damaged b) → (f : Image)
        → Exposes (D.view disk.old) f → IsBadInput f level.now.arrays b }
    ensures same { OnlyReads (D.view disk.old) (D.view disk.new) }
    ensures cause { HasCause trouble.Device (D.faults disk.old) (D.faults disk.new) result }
    ensures reads { ReadsAtMost (2 * length (blocks_listed level.now.arrays))
        (D.reads disk.old) (D.reads disk.new) }
{
    let strays = count_level(alloc, level, tree, &mut tables.leads, disk)?;
    let arrays = tell_arrays(
        alloc,
        level,
        scans,
        &strays,
        tree,
        &tables.leads,
        &mut tables.array,
        disk,
    )?;
    let told = tell_itself(alloc, level, mem, &tables.leads, arrays.leads, before)?;
    let lowest = lower_by_leads(before.lowest, &tables.first, &tables.leads, tree.count());
    Ok(before.with(level, told, arrays, lowest))
}
