//! The arrays of a store that is checked, from the shallowest level on: all of them are scanned before any level is counted.

ghost use Rattle.std.specs.List.{Contains, find, list_all, slice_get};
ghost use Rattle.std.specs.Option.{option_or};
ghost use Rattle.std.specs.Prelude.{◌≡◌, ◌*◌, ◌++◌, ◌∷◌, [], ℕ, None, OnOk, length, map, nat_le, Some, Ok, Err, IfOk, IsErrOf, IsTrue};
ghost use Rattle.def_bytes.specs.Arrays.{all_some};
ghost use Rattle.def_check.specs.Checked.{is_unread, check_head};
ghost use Rattle.def_crash.specs.Faults.{HasCause, ReadsAtMost};
ghost use Rattle.def_crash.specs.Image.{Image};
ghost use Rattle.def_crash.specs.Moments.{Exposes, OnlyReads};
ghost use Rattle.def_publish.specs.Occupied.{arrays_in};
ghost use Rattle.def_recovery.specs.Head.{descriptors, head_versions};
ghost use Rattle.def_recovery.specs.Opened.{level_on};
ghost use Rattle.def_recovery.specs.Opening.{recover, state_of};
ghost use Rattle.def_state.specs.Breach.{breach, breaches, array_breaches};
ghost use Rattle.def_state.specs.Sound.{has_ascending_entries};
ghost use Rattle.def_state.specs.State.{State, versions_of};
ghost use Rattle.strat_array.specs.Within.{AreWithin};
ghost use Rattle.strat_base.specs.declared.descriptors.ArrayDesc.{ArrayDesc};
ghost use Rattle.strat_base.specs.declared.failures.Trouble.TheVariants as trouble;
ghost use Rattle.strat_promote.specs.Job.{blocks_listed, IsBadInput};
ghost use Rattle.strat_check.specs.Fit.{is_fit_level};
ghost use Rattle.strat_check.specs.Places.{place_of, first_place, first_unless};
ghost use Rattle.strat_check.specs.StoreScans.{scans_of, HaveScans, IsScannedLevel, AreScannedLevels};
ghost use Rattle.strat_check.specs.Walked.{HaveRoomFor, AreFirstChildren, MayBeTold, IsFound};

use crate::children::{first_children, lower_by_zeros};
use crate::fit::are_fit;
use crate::level_walk::{Findings, Tables, tell_level};
use crate::places::{Broken, Places, kept};
use crate::scan::{Scan, scan_array};
use crate::sights::Sights;
use std::alloc::Global;
use strat_base::{LevelDesc, Listing, NoMemory, Trouble};
use strat_disk::Disk;
use strat_open::Reading;
use strat_tree::Tree;

/// What scans tell: the first array whose entries do not ascend, if there is one, and what was told of each.
#[derive(Drop)]
pub struct LevelScans {
    pub unordered: Option<Broken>,
    pub scans: Listing<Scan>,
}

/// The same of the arrays of all levels.
#[derive(Drop)]
pub struct StoreScans {
    pub unordered: Option<Broken>,
    pub levels: Vec<Listing<Scan>>,
}

impl LevelScans {
    /// No array yet, behind those of earlier levels. O(1).
    fn new(alloc: Global, unordered: Option<Broken>) -> LevelScans
        ensures ok { (result.scans ≡ []) × (result.unordered ≡ unordered) }
    {
        LevelScans {
            unordered,
            scans: Listing::new(alloc),
        }
    }

    /// One more array. The only error is want of memory. O(1) on average.
    fn add(&mut self, scan: Scan, level: u8, array: u64) -> Result<(), NoMemory>
        ensures ok { OnOk result (self.new.scans ≡ self.old.scans ++ scan ∷ []) }
        ensures found { OnOk result (place_of self.new.unordered ≡ option_or
            (place_of self.old.unordered) (first_unless scan.ascends (breach 109 level array))) }
    {
        let broken = Broken {
            rule: b'm',
            level,
            array,
        };
        self.unordered = kept(self.unordered, scan.ascends, broken);
        match self.scans.push(scan) {
            Ok(()) => Ok(()),
            Err(_) => Err(NoMemory),
        }
    }
}

impl StoreScans {
    /// No level yet. O(1).
    fn new(alloc: Global) -> StoreScans
        ensures ok { (result.levels.items ≡ []) × (result.unordered ≡ None) }
    {
        StoreScans {
            unordered: None,
            levels: Vec::new(alloc),
        }
    }

    /// One more level, scanned behind these. The only error is want of memory. O(1) on average.
    fn add(&mut self, next: LevelScans) -> Result<(), NoMemory>
        ensures ok { OnOk result
            (self.new.levels.items ≡ self.old.levels.items ++ next.scans ∷ []) }
        ensures found { OnOk result (self.new.unordered ≡ next.unordered) }
    {
        self.unordered = next.unordered;
        self.levels.push(next.scans)?;
        Ok(())
    }
}

/// Scans the arrays of a level: one read of each of their blocks. Device: the disk counted a fault. Damaged: this block is the
/// first of all that is no block of entries.
fn scan_level<D: Disk>(
    alloc: Global,
    level: &LevelDesc,
    versions: u32,
    unordered: Option<Broken>,
    disk: &mut D,
) -> Result<LevelScans, Trouble>
    requires fits { (a : ArrayDesc) → Contains level.now.arrays a → AreWithin a.extents }
    ensures ok { IfOk result (λ r. (f : Image) → Exposes (D.view disk.old) f
        → IsScannedLevel f versions level.now unordered r) }
    ensures len { IfOk result (λ r. length r.scans ≡ length level.now.arrays) }
    ensures damaged { (b : ℕ) → IsErrOf result (trouble.Damaged b) → (f : Image)
        → Exposes (D.view disk.old) f
        → find (is_unread f) (blocks_listed level.now.arrays) ≡ Some b }
    ensures same { OnlyReads (D.view disk.old) (D.view disk.new) }
    ensures cause { HasCause trouble.Device (D.faults disk.old) (D.faults disk.new) result }
    ensures reads { ReadsAtMost (length (blocks_listed level.now.arrays))
        (D.reads disk.old) (D.reads disk.new) }
{
    let mut found = LevelScans::new(alloc, unordered);
    let descs = level.arrays.as_slice();
    for i in 0..descs.len() {
        let desc = &descs[i];
        let scan = scan_array(alloc, desc, versions, disk)?;
        found.add(scan, level.number, desc.id)?;
    }
    Ok(found)
}

/// Scans the arrays of all levels: one read of each of their blocks. Errors as of `scan_level`.
fn scan_levels<D: Disk>(
    alloc: Global,
    levels: &[LevelDesc],
    versions: u32,
    disk: &mut D,
) -> Result<StoreScans, Trouble>
    requires fits { (a : ArrayDesc) → Contains (arrays_in levels.now) a → AreWithin a.extents }
    ensures ok { IfOk result (λ r. (f : Image) → Exposes (D.view disk.old) f
        → AreScannedLevels f versions levels.now r) }
    ensures kept { IfOk result (λ r. HaveScans levels.now r.levels.items) }
    ensures damaged { (b : ℕ) → IsErrOf result (trouble.Damaged b) → (f : Image)
        → Exposes (D.view disk.old) f
        → find (is_unread f) (blocks_listed (arrays_in levels.now)) ≡ Some b }
    ensures same { OnlyReads (D.view disk.old) (D.view disk.new) }
    ensures cause { HasCause trouble.Device (D.faults disk.old) (D.faults disk.new) result }
    ensures reads { ReadsAtMost (length (blocks_listed (arrays_in levels.now)))
        (D.reads disk.old) (D.reads disk.new) }
{
    let mut found = StoreScans::new(alloc);
    for i in 0..levels.len() {
        let next = scan_level(alloc, &levels[i], versions, found.unordered, disk)?;
        found.add(next)?;
    }
    Ok(found)
}

/// What is found before any level: the least living child of a version with an update in the journal. Takes 116 bytes a
/// version; the only error is want of memory. O(versions + items of level 0 and of a sealed one).
fn begin(alloc: Global, store: &Reading) -> Result<(Tables, Findings), NoMemory>
    ensures ok { IfOk result (λ r. (f : Image) (s : State) → state_of f store.now ≡ Some s
        → recover f ≡ Ok (Some store.now)
        → AreFirstChildren s r.0.first.items × IsFound s [] r.1) }
    ensures room { IfOk result (λ r. HaveRoomFor (head_versions store.now) r.0) }
{
    let tree = store.tree();
    let first = first_children(alloc, tree)?;
    let (zero, sealed, _pool) = store.zeros();
    let lowest = lower_by_zeros(tree.count(), &first, zero, sealed);
    let leads = Sights::new(alloc, tree)?;
    let array = Sights::new(alloc, tree)?;
    let found = Findings {
        places: Places::new(),
        lowest,
        horizon: tree.count(),
        leads: 0,
    };
    Ok((
        Tables {
            leads,
            array,
            first,
        },
        found,
    ))
}

/// Tells the rules of all levels: two reads of each block of their arrays. Errors as of `tell_level`.
fn tell_levels<D: Disk>(
    alloc: Global,
    levels: &[LevelDesc],
    scans: &[Listing<Scan>],
    mem: u32,
    tree: &Tree,
    tables: &mut Tables,
    begin: Findings,
    disk: &mut D,
) -> Result<Findings, Trouble>
    requires fits { (a : ArrayDesc) → Contains (arrays_in levels.now) a → AreWithin a.extents }
    requires kept { IsTrue (list_all (is_fit_level (length tree.now.parents)) levels.now) }
    requires len { HaveRoomFor tree.now.parents tables.old }
    requires room { HaveScans levels.now scans.now }
    ensures ok { IfOk result (λ found. (f : Image) (s : State) → Exposes (D.view disk.old) f
        → versions_of s ≡ tree.now.parents → s.mem ≡ mem
        → AreFirstChildren s tables.old.first.items
        → all_some (level_on f) levels.now ≡ Some s.levels → MayBeTold s
        → scans.now ≡ map (scans_of (length (versions_of s))) s.levels → IsFound s [] begin
        → IsFound s s.levels found) }
    ensures damaged { (b : ℕ) → IsErrOf result (trouble.Damaged b) → (f : Image)
        → Exposes (D.view disk.old) f → IsBadInput f (arrays_in levels.now) b }
    ensures same { OnlyReads (D.view disk.old) (D.view disk.new) }
    ensures cause { HasCause trouble.Device (D.faults disk.old) (D.faults disk.new) result }
    ensures reads { ReadsAtMost (2 * length (blocks_listed (arrays_in levels.now)))
        (D.reads disk.old) (D.reads disk.new) }
{
    let mut found = begin;
    for i in 0..levels.len() {
        found = tell_level(
            alloc,
            &levels[i],
            scans[i].as_slice(),
            mem,
            tree,
            tables,
            found,
            disk,
        )?;
    }
    Ok(found)
}

/// The first breach of all: that of the levels, or that there are more leads than updates. O(1).
fn conclude(found: Findings, updates: u32) -> Option<Broken>
    ensures ok { place_of result ≡ option_or (first_place found.places)
        (first_unless (nat_le found.leads updates) (breach 108 0 0)) }
{
    let few = found.leads <= u64::from(updates);
    let broken = Broken {
        rule: b'l',
        level: 0,
        array: 0,
    };
    kept(found.places.first(), few, broken)
}

/// Tells the levels of a store whose arrays ascend, and the first breach of all.
fn tell_store<D: Disk>(
    alloc: Global,
    store: &Reading,
    scans: &[Listing<Scan>],
    disk: &mut D,
) -> Result<Option<Broken>, Trouble>
    requires fits { (a : ArrayDesc) → Contains (descriptors store.now.manifest) a
        → AreWithin a.extents }
    requires kept { IsTrue (list_all (is_fit_level (length (head_versions store.now)))
        store.now.manifest.levels) }
    requires room { HaveScans store.now.manifest.levels scans.now }
    ensures ok { IfOk result (λ broken. (f : Image) (s : State) → Exposes (D.view disk.old) f
        → recover f ≡ Ok (Some store.now) → state_of f store.now ≡ Some s → MayBeTold s
        → array_breaches s 109 (λ level a. has_ascending_entries a) ≡ []
        → scans.now ≡ map (scans_of (length (versions_of s))) s.levels
        → place_of broken ≡ slice_get (breaches s) 0) }
    ensures damaged { (b : ℕ) → IsErrOf result (trouble.Damaged b) → (f : Image)
        → Exposes (D.view disk.old) f → IsBadInput f (descriptors store.now.manifest) b }
    ensures same { OnlyReads (D.view disk.old) (D.view disk.new) }
    ensures cause { HasCause trouble.Device (D.faults disk.old) (D.faults disk.new) result }
    ensures reads { ReadsAtMost (2 * length (blocks_listed (descriptors store.now.manifest)))
        (D.reads disk.old) (D.reads disk.new) }
{
    let (mut tables, begun) = begin(alloc, store)?;
    let manifest = store.manifest();
    let found = tell_levels(
        alloc,
        manifest.levels.as_slice(),
        scans,
        store.superblock().mem,
        store.tree(),
        &mut tables,
        begun,
        disk,
    )?;
    Ok(conclude(found, manifest.updates))
}

/// Checks a store that was read: three reads of each block of its arrays. `None` where it is sound, else the first breach.
/// Device: the disk counted a fault. Damaged: this block of an array is the first that is no block of entries.
pub fn check_store<D: Disk>(
    alloc: Global,
    store: &Reading,
    disk: &mut D,
) -> Result<Option<Broken>, Trouble>
    ensures ok { IfOk result (λ broken. (f : Image) → Exposes (D.view disk.old) f
        → recover f ≡ Ok (Some store.now)
        → (s : State) × (state_of f store.now ≡ Some s)
        × (place_of broken ≡ slice_get (breaches s) 0)) }
    ensures damaged { (b : ℕ) → IsErrOf result (trouble.Damaged b) → (f : Image)
        → Exposes (D.view disk.old) f → recover f ≡ Ok (Some store.now)
        → check_head f (Some store.now) ≡ Err b }
    ensures same { OnlyReads (D.view disk.old) (D.view disk.new) }
    ensures cause { HasCause trouble.Device (D.faults disk.old) (D.faults disk.new) result }
    ensures reads { ReadsAtMost 100663296 (D.reads disk.old) (D.reads disk.new)
        × ReadsAtMost (3 * length (blocks_listed (descriptors store.now.manifest)))
        (D.reads disk.old) (D.reads disk.new) }
{
    let levels = store.manifest().levels.as_slice();
    if !are_fit(levels, store.versions()) {
        // No manifest that recovery finds is so.
        return Err(Trouble::Damaged {
            block: store.superblock().manifest,
        });
    }
    let scanned = scan_levels(alloc, levels, store.versions(), disk)?;
    if scanned.unordered.is_some() {
        return Ok(scanned.unordered);
    }
    tell_store(alloc, store, &scanned.levels, disk)
}
