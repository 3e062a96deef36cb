//! An array that is gone through by itself, entry by entry: the versions of each key are added to sights.

ghost use Rattle.std.specs.List.{list_all};
ghost use Rattle.std.specs.Ordering.{is_lt};
ghost use Rattle.std.specs.Prelude.{◌≡◌, ◌<◌, ◌≤◌, ◌^◌, ℕ, nat_lt, false, List, [], ◌∷◌, ◌++◌, length, IfOk, OnOk, IsSome, IsTrue};
ghost use Rattle.strat_base.specs.Entries.{Entry as TheEntry, is_of};
ghost use Rattle.strat_base.specs.EntryView.{entry_of};
ghost use Rattle.strat_base.specs.Order.{descends, entry_cmp};
ghost use Rattle.strat_base.specs.declared.failures.Fault.TheVariants as fault;
ghost use Rattle.strat_base.specs.declared.failures.Trouble.TheVariants.{Damaged, Device};
ghost use Rattle.def_crash.specs.Image.{Image};
ghost use Rattle.def_crash.specs.Moments.{Exposes};
ghost use Rattle.strat_merge.specs.Reading.{ReadsRuns};
ghost use Rattle.strat_merge.specs.Runs.{Advances};
ghost use Rattle.strat_check.specs.KeyWalks.{gathered, AreVersions, MayJoin, IsAtHand, IsWalking};
ghost use Rattle.strat_check.specs.MarkedRuns.{unmarked_seen};
ghost use Rattle.strat_check.specs.Sightings.{versions_added, IsSighting, IsSighted};

use crate::marked_run::MarkedRun;
use crate::sights::Sights;
use std::alloc::Global;
use strat_base::{Entry, Fault, NoMemory, Trouble, Version};
use strat_disk::Disk;
use strat_tree::Tree;

/// A key, and the versions of those of its entries that were met, the greatest first.
#[derive(Drop)]
pub(crate) struct KeyVersions {
    pub(crate) key: Vec<u8>,
    pub(crate) versions: Vec<Version>,
}

impl KeyVersions {
    /// No key yet. O(1), and no memory is taken.
    pub(crate) fn new(alloc: Global) -> KeyVersions
        ensures ok { (result.key.items ≡ []) × (result.versions.items ≡ []) }
    {
        KeyVersions {
            key: Vec::new(alloc),
            versions: Vec::new(alloc),
        }
    }

    /// Whether an entry is of the key at hand. O(bytes of the key).
    fn has(&self, e: &Entry<'_>) -> bool
        ensures ok { result ≡ is_of self.now.key.items (entry_of e.now) }
    {
        e.key == self.key.as_slice()
    }

    /// Begins with an entry's key, of which no version was met yet. O(bytes of the key).
    fn begin(&mut self, e: &Entry<'_>) -> Result<(), NoMemory>
        ensures ok { OnOk result ((self.new.key.items ≡ (entry_of e.now).key)
            × (self.new.versions.items ≡ [])) }
    {
        self.key.clear();
        self.key.extend_from_slice(e.key)?;
        self.versions.clear();
        Ok(())
    }
}

/// Adds the versions of a key to sights, if there are any.
fn add_gathered(versions: &[Version], tree: &Tree, sights: &mut Sights)
    requires kept { IsTrue (descends versions.now) }
    requires fits { IsTrue (list_all (λ v. nat_lt v (length tree.now.parents)) versions.now) }
    requires len { length sights.old.own ≡ length tree.now.parents }
    ensures ok { (groups : List (List ℕ)) → IsSighting tree.now.parents groups sights.old
        → versions_added (groups ++ gathered versions.now) ≤ 2 ^ 48
        → IsSighting tree.now.parents (groups ++ gathered versions.now) sights.new }
    ensures len { length sights.new.own ≡ length sights.old.own }
    ensures same { sights.new.order ≡ sights.old.order }
{
    if !versions.is_empty() {
        sights.add(versions, tree);
    }
}

/// Has an entry's key at hand: the versions of another key are added to the sights.
fn turn(
    group: &mut KeyVersions,
    e: &Entry<'_>,
    tree: &Tree,
    sights: &mut Sights,
) -> Result<(), NoMemory>
    requires kept { AreVersions (length tree.now.parents) group.old }
    requires fits { MayJoin (entry_of e.now) group.old }
    requires len { length sights.old.own ≡ length tree.now.parents }
    ensures kept { OnOk result (AreVersions (length tree.now.parents) group.new) }
    ensures state { OnOk result
        (IsTrue (list_all (λ v. nat_lt (entry_of e.now).version v) group.new.versions.items)) }
    ensures found { OnOk result (group.new.key.items ≡ (entry_of e.now).key) }
    ensures ok { OnOk result ((all : List (List ℕ)) (left : List TheEntry)
        → versions_added all ≤ 2 ^ 48
        → IsWalking tree.now.parents all (entry_of e.now ∷ left) group.old sights.old
        → IsWalking tree.now.parents all (entry_of e.now ∷ left) group.new sights.new) }
    ensures len { length sights.new.own ≡ length sights.old.own }
    ensures same { sights.new.order ≡ sights.old.order }
{
    if group.has(e) {
        return Ok(());
    }
    add_gathered(&group.versions, tree, sights);
    group.begin(e)
}

/// Adds an entry to those of the key at hand. The only error is want of memory.
fn gather(
    group: &mut KeyVersions,
    e: &Entry<'_>,
    tree: &Tree,
    sights: &mut Sights,
) -> Result<(), NoMemory>
    requires kept { AreVersions (length tree.now.parents) group.old }
    requires found { MayJoin (entry_of e.now) group.old }
    requires fits { (entry_of e.now).version < length tree.now.parents }
    requires len { length sights.old.own ≡ length tree.now.parents }
    ensures kept { OnOk result (AreVersions (length tree.now.parents) group.new) }
    ensures state { OnOk result ((d : TheEntry) → IsTrue (is_lt (entry_cmp (entry_of e.now).key
        (entry_of e.now).version d.key d.version)) → MayJoin d group.new) }
    ensures ok { OnOk result ((all : List (List ℕ)) (left : List TheEntry)
        → versions_added all ≤ 2 ^ 48
        → IsWalking tree.now.parents all (entry_of e.now ∷ left) group.old sights.old
        → IsWalking tree.now.parents all left group.new sights.new) }
    ensures len { length sights.new.own ≡ length sights.old.own }
    ensures same { sights.new.order ≡ sights.old.order }
{
    turn(group, e, tree, sights)?;
    group.versions.push(e.version)?;
    Ok(())
}

/// Passes over the first entry of a run. The fault is the disk's, or names a block that is bad for the run.
fn step<D: Disk>(run: &mut MarkedRun, disk: &mut D) -> Result<(), Fault>
    requires { IsSome (unmarked_seen run.old).first }
    ensures ok { OnOk result
        (Advances (D.view disk.old) (unmarked_seen run.old) (unmarked_seen run.new)) }
    ensures reads { ReadsRuns unmarked_seen fault.Device fault.Damaged (D.view disk.old)
        (D.view disk.new) (D.faults disk.old) (D.faults disk.new) (D.reads disk.old)
        (D.reads disk.new) (run.old ∷ []) (run.new ∷ []) result }
{
    run.pass(disk)
}

/// The same, with its fault as a trouble.
fn pass_entry<D: Disk>(run: &mut MarkedRun, disk: &mut D) -> Result<(), Trouble>
    requires { IsSome (unmarked_seen run.old).first }
    ensures ok { OnOk result
        (Advances (D.view disk.old) (unmarked_seen run.old) (unmarked_seen run.new)) }
    ensures reads { ReadsRuns unmarked_seen Device Damaged (D.view disk.old) (D.view disk.new)
        (D.faults disk.old) (D.faults disk.new) (D.reads disk.old) (D.reads disk.new)
        (run.old ∷ []) (run.new ∷ []) result }
{
    match step(run, disk) {
        Ok(()) => Ok(()),
        Err(fault) => Err(Trouble::from(fault)),
    }
}

/// Takes the first entry that a run has left, to those of its key. `false` where it has none.
fn take_entry<D: Disk>(
    run: &mut MarkedRun,
    group: &mut KeyVersions,
    tree: &Tree,
    sights: &mut Sights,
    disk: &mut D,
) -> Result<bool, Trouble>
    requires kept { IsAtHand (length tree.now.parents) run.old group.old }
    requires len { length sights.old.own ≡ length tree.now.parents }
    ensures kept { OnOk result (IsAtHand (length tree.now.parents) run.new group.new) }
    ensures ok { IfOk result (λ more. IsTrue more → (f : Image) (all : List (List ℕ))
        → Exposes (D.view disk.old) f → versions_added all ≤ 2 ^ 48
        → IsWalking tree.now.parents all ((unmarked_seen run.old).left f) group.old sights.old
        → IsWalking tree.now.parents all ((unmarked_seen run.new).left f) group.new sights.new) }
    ensures end { IfOk result (λ more. IsTrue more → (f : Image) → Exposes (D.view disk.old) f
        → length ((unmarked_seen run.new).left f) < length ((unmarked_seen run.old).left f)) }
    ensures none { IfOk result (λ more. more ≡ false
        → (f : Image) → (unmarked_seen run.new).left f ≡ []) }
    ensures same { IfOk result (λ more. more ≡ false → (run.new ≡ run.old)
        × (group.new ≡ group.old) × (sights.new ≡ sights.old)) }
    ensures len { length sights.new.own ≡ length sights.old.own }
    ensures state { sights.new.order ≡ sights.old.order }
    ensures reads { ReadsRuns unmarked_seen Device Damaged (D.view disk.old) (D.view disk.new)
        (D.faults disk.old) (D.faults disk.new) (D.reads disk.old) (D.reads disk.new)
        (run.old ∷ []) (run.new ∷ []) result }
{
    let Some(e) = run.first() else {
        return Ok(false);
    };
    gather(group, &e, tree, sights)?;
    pass_entry(run, disk)?;
    Ok(true)
}

/// Adds the versions of all keys that a run has left to sights, and sums up what each version sees. `false` where there are
/// more entries than a disk has.
pub(crate) fn walk<D: Disk>(
    run: &mut MarkedRun,
    group: &mut KeyVersions,
    tree: &Tree,
    sights: &mut Sights,
    disk: &mut D,
) -> Result<bool, Trouble>
    requires kept { IsAtHand (length tree.now.parents) run.old group.old }
    requires len { length sights.old.own ≡ length tree.now.parents }
    ensures ok { IfOk result (λ whole. IsTrue whole → (f : Image) (all : List (List ℕ))
        → Exposes (D.view disk.old) f → versions_added all ≤ 2 ^ 48
        → IsWalking tree.now.parents all ((unmarked_seen run.old).left f) group.old sights.old
        → IsSighted tree.now.parents all sights.new) }
    ensures none { IfOk result (λ whole. whole ≡ false → (f : Image) → Exposes (D.view disk.old) f
        → 2 ^ 48 < length ((unmarked_seen run.old).left f)) }
    ensures len { length sights.new.own ≡ length sights.old.own }
    ensures same { sights.new.order ≡ sights.old.order }
    ensures reads { ReadsRuns unmarked_seen Device Damaged (D.view disk.old) (D.view disk.new)
        (D.faults disk.old) (D.faults disk.new) (D.reads disk.old) (D.reads disk.new)
        (run.old ∷ []) (run.new ∷ []) result }
{
    for _ in 0..u64::MAX {
        if !take_entry(run, group, tree, sights, disk)? {
            add_gathered(&group.versions, tree, sights);
            sights.finish(tree);
            return Ok(true);
        }
    }
    Ok(false)
}
