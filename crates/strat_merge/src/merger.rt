//! Runs merged into groups.

ghost use Rattle.std.specs.Prelude.{◌≡◌, ◌<◌, ℕ, List, [], map, length, true, false, Some, None, IsSome, slice_get, IfOk, OnOk, OnErr, IfSome, IfNone, IsTrue};
ghost use Rattle.strat_base.specs.Entries.{Entry as KeyEntry, is_of};
ghost use Rattle.strat_base.specs.EntryBytes.{fits_fields};
ghost use Rattle.strat_base.specs.declared.failures.Fault.TheVariants as fault;
ghost use Rattle.strat_base.specs.declared.failures.Trouble.TheVariants.{Damaged, Device};
ghost use Rattle.def_crash.specs.Faults.{one_more};
ghost use Rattle.def_crash.specs.Image.{Image};
ghost use Rattle.def_crash.specs.Moments.{Exposes};
ghost use Rattle.strat_merge.specs.Bracket.{IsTournament};
ghost use Rattle.strat_merge.specs.Gathered.{IsGroup, TakesNext, CountsTaken, with_next, Leads, LeadsAside, PassesOne};
ghost use Rattle.strat_arena.specs.Items.{entries_of, have_pairs};
ghost use Rattle.strat_merge.specs.Reading.{ReadsRuns};
ghost use Rattle.strat_merge.specs.Runs.{RunView, head_at, lefts, NoneLeft};

use crate::bracket::{any_left, leader, new_bracket, play_all, replay};
use crate::collect::{begins_with, collect, key_of_group};
use crate::group::GroupBuf;
use crate::run::Run;
use crate::runs::contest_of;
use std::alloc::Global;
use strat_arena::Arena;
use strat_base::{Fault, NoMemory, Trouble};
use strat_disk::Disk;

/// Runs that are merged, the newest first, and which of them has the least entry.
#[derive(Drop)]
pub struct Merger<R> {
    runs: Vec<R>,
    winners: Vec<usize>,
    consumed: u64,
}

/// Passes over the first entry of a run.
fn advance_at<D: Disk, R: Run<D>>(runs: &mut Vec<R>, run: usize, disk: &mut D) -> Result<(), Fault>
    requires fits { run < length runs.old.items }
    requires found { IsSome (head_at (map R.view runs.old.items) run) }
    ensures ok { OnOk result (PassesOne (D.view disk.old) (map R.view runs.old.items)
        (map R.view runs.new.items) run) }
    ensures reads { ReadsRuns R.view fault.Device fault.Damaged (D.view disk.old)
        (D.view disk.new) (D.faults disk.old) (D.faults disk.new) (D.reads disk.old)
        (D.reads disk.new) runs.old.items runs.new.items result }
{
    runs[run].advance(disk)
}

/// Passes over the first entry of a run, counts it, and plays the nodes above the run's leaf again.
fn pass<D: Disk, R: Run<D>>(merger: &mut Merger<R>, run: usize, disk: &mut D) -> Result<(), Trouble>
    requires kept { IsTournament (map R.view merger.old.runs.items) merger.old.winners.items }
    requires fits { run < length merger.old.runs.items }
    requires found { IsSome (head_at (map R.view merger.old.runs.items) run) }
    ensures ok { OnOk result (PassesOne (D.view disk.old) (map R.view merger.old.runs.items)
        (map R.view merger.new.runs.items) run) }
    ensures kept { OnOk result
        (IsTournament (map R.view merger.new.runs.items) merger.new.winners.items) }
    ensures state { OnOk result (merger.new.consumed ≡ one_more merger.old.consumed) }
    ensures reads { ReadsRuns R.view Device Damaged (D.view disk.old) (D.view disk.new)
        (D.faults disk.old) (D.faults disk.new) (D.reads disk.old) (D.reads disk.new)
        merger.old.runs.items merger.new.runs.items result }
{
    match advance_at::<D, R>(&mut merger.runs, run, disk) {
        Ok(()) => {
            let leaf = merger.runs.len() + run;
            replay(&contest_of::<D, R>(&merger.runs), &mut merger.winners, leaf);
            merger.consumed = merger.consumed.saturating_add(1);
            Ok(())
        }
        Err(fault) => Err(Trouble::from(fault)),
    }
}

/// The run whose first entry stands first of all, if it has a key.
fn leader_of_key<D: Disk, R: Run<D>>(runs: &[R], winners: &[usize], key: &[u8]) -> Option<usize>
    requires kept { IsTournament (map R.view runs.now) winners.now }
    ensures fits { IfSome result (λ w. w < length runs.now) }
    ensures found { IfSome result (λ w. (e : KeyEntry) × (Leads (map R.view runs.now) w e
        × IsTrue (is_of key.now e))) }
    ensures none { IfNone result (LeadsAside (map R.view runs.now) key.now) }
{
    let run = leader(&contest_of::<D, R>(runs), winners)?;
    if begins_with::<D, R>(runs, run, key) {
        Some(run)
    } else {
        None
    }
}

/// Takes the first entry of a run for a group of its key, and passes over it.
fn take<D: Disk, R: Run<D>>(
    merger: &mut Merger<R>,
    run: usize,
    disk: &mut D,
    arena: &mut Arena,
    group: &mut GroupBuf,
) -> Result<(), Trouble>
    requires kept { IsTournament (map R.view merger.old.runs.items) merger.old.winners.items }
    requires found { (run < length merger.old.runs.items)
        × IsSome (head_at (map R.view merger.old.runs.items) run) }
    requires room { (length arena.old.pairs ≡ length group.old)
        × IsTrue (have_pairs arena.old.pairs group.old) }
    ensures ok { OnOk result (PassesOne (D.view disk.old) (map R.view merger.old.runs.items)
        (map R.view merger.new.runs.items) run) }
    ensures found { OnOk result ((e : KeyEntry)
        → head_at (map R.view merger.old.runs.items) run ≡ Some e
        → entries_of arena.new.pairs group.new
        ≡ with_next (entries_of arena.old.pairs group.old) e) }
    ensures kept { OnOk result
        (IsTournament (map R.view merger.new.runs.items) merger.new.winners.items) }
    ensures len { OnOk result (length arena.new.pairs ≡ length group.new) }
    ensures room { OnOk result (IsTrue (have_pairs arena.new.pairs group.new)) }
    ensures state { OnOk result (merger.new.consumed ≡ one_more merger.old.consumed) }
    ensures fits { (e : KeyEntry) → head_at (map R.view merger.old.runs.items) run ≡ Some e
        → IsTrue (fits_fields e) }
    ensures end { (e : KeyEntry) (v : RunView)
        → head_at (map R.view merger.old.runs.items) run ≡ Some e
        → slice_get (map R.view merger.old.runs.items) run ≡ Some v → e.version < v.versions }
    ensures reads { ReadsRuns R.view Device Damaged (D.view disk.old) (D.view disk.new)
        (D.faults disk.old) (D.faults disk.new) (D.reads disk.old) (D.reads disk.new)
        merger.old.runs.items merger.new.runs.items result }
{
    match collect::<D, R>(&merger.runs, run, arena, group) {
        Ok(()) => pass::<D, R>(merger, run, disk),
        Err(NoMemory) => Err(Trouble::NoMemory),
    }
}

/// Gathers the entries of the least key into an empty arena and an empty group.
fn gather<D: Disk, R: Run<D>>(
    merger: &mut Merger<R>,
    disk: &mut D,
    arena: &mut Arena,
    group: &mut GroupBuf,
) -> Result<bool, Trouble>
    requires kept { IsTournament (map R.view merger.old.runs.items) merger.old.winners.items }
    requires none { (arena.old.pairs ≡ []) × (group.old ≡ []) }
    ensures kept { OnOk result
        (IsTournament (map R.view merger.new.runs.items) merger.new.winners.items) }
    ensures found { IfOk result (λ more. IsTrue more → (key : List ℕ)
        × IsGroup (map R.view merger.old.runs.items) (map R.view merger.new.runs.items)
        arena.new.pairs group.new key) }
    ensures ok { IfOk result (λ more. IsTrue more → (c : Image)
        → Exposes (D.view disk.old) c → TakesNext (lefts c (map R.view merger.old.runs.items))
        (lefts c (map R.view merger.new.runs.items)) (entries_of arena.new.pairs group.new)) }
    ensures none { IfOk result (λ more. more ≡ false
        → NoneLeft (map R.view merger.old.runs.items)
        × (merger.new.runs.items ≡ merger.old.runs.items)
        × (group.new ≡ []) × (arena.new.pairs ≡ [])) }
    ensures len { OnOk result ((c : Image) → Exposes (D.view disk.old) c
        → CountsTaken (lefts c (map R.view merger.old.runs.items))
        (lefts c (map R.view merger.new.runs.items)) merger.old.consumed merger.new.consumed) }
    ensures reads { ReadsRuns R.view Device Damaged (D.view disk.old) (D.view disk.new)
        (D.faults disk.old) (D.faults disk.new) (D.reads disk.old) (D.reads disk.new)
        merger.old.runs.items merger.new.runs.items result }
{
    // For the proof: the count fits in 64 bits.
    let _consumed = merger.consumed;
    let Some(first) = leader(&contest_of::<D, R>(&merger.runs), &merger.winners) else {
        return Ok(false);
    };
    let mut next = Some(first);
    while let Some(run) = next {
        if let Err(trouble) = take::<D, R>(merger, run, disk, arena, group) {
            return Err(trouble);
        }
        let key = key_of_group(arena, group);
        next = leader_of_key::<D, R>(&merger.runs, &merger.winners, key);
    }
    Ok(true)
}

impl<R> Merger<R> {
    ghost use Rattle.strat_merge.specs.MergerFields.{runs_merged, views_of, consumed_of, IsUnspent};

    /// A merger of these runs, the newest first. It takes no memory yet.
    pub fn new(alloc: Global, runs: Vec<R>) -> Result<Merger<R>, NoMemory>
        ensures ok { IfOk result (λ m. runs_merged m ≡ runs.items) }
        ensures len { IfOk result (λ m. consumed_of m ≡ 0) }
        ensures kept { IfOk result (λ m. (view : R → RunView) → IsUnspent view m) }
    {
        Ok(Merger {
            runs,
            winners: Vec::new(alloc),
            consumed: 0,
        })
    }

    /// How many entries were taken from the runs. O(1).
    pub fn consumed(&self) -> u64
        ensures ok { result ≡ consumed_of self.now }
    {
        self.consumed
    }

    /// Whether some run has an entry left. O(runs), and nothing is read.
    pub fn has_left<D: Disk>(&self) -> bool
    where
        R: Run<D>,
        ensures ok { result ≡ false → NoneLeft (views_of R.view self.now) }
        ensures found { result ≡ true
            → (i : ℕ) × IsSome (head_at (views_of R.view self.now) i) }
    {
        any_left(&contest_of::<D, R>(&self.runs))
    }

    /// Gathers the entries of the least key that is left: of each version once, the newest run's. The arena and
    /// the group then have these alone. `true` where there are such entries, and `false` exactly where no
    /// run has one left. For each entry that is taken O(log runs) comparisons of keys, and what its run
    /// reads; each that stays is copied once. The first call also plays all runs, in O(runs).
    ///
    /// `NoMemory` where the arena or the group has to grow and cannot; `Device` only where the disk
    /// failed; `Damaged` names a block of a run that is bad for it. After an error the merger is spent.
    pub fn next_group<D: Disk>(
        &mut self,
        disk: &mut D,
        arena: &mut Arena,
        group: &mut GroupBuf,
    ) -> Result<bool, Trouble>
    where
        R: Run<D>,
        requires kept { IsUnspent R.view self.old }
        ensures kept { OnOk result (IsUnspent R.view self.new) }
        ensures found { IfOk result (λ more. IsTrue more → (key : List ℕ) × IsGroup
            (views_of R.view self.old) (views_of R.view self.new) arena.new.pairs group.new key) }
        ensures ok { IfOk result (λ more. IsTrue more → (c : Image)
            → Exposes (D.view disk.old) c → TakesNext (lefts c (views_of R.view self.old))
            (lefts c (views_of R.view self.new)) (entries_of arena.new.pairs group.new)) }
        ensures none { IfOk result (λ more. more ≡ false → NoneLeft (views_of R.view self.old)
            × (runs_merged self.new ≡ runs_merged self.old)
            × (group.new ≡ []) × (arena.new.pairs ≡ [])) }
        ensures len { OnOk result ((c : Image) → Exposes (D.view disk.old) c
            → CountsTaken (lefts c (views_of R.view self.old))
            (lefts c (views_of R.view self.new)) (consumed_of self.old) (consumed_of self.new)) }
        ensures reads { ReadsRuns R.view Device Damaged (D.view disk.old) (D.view disk.new)
            (D.faults disk.old) (D.faults disk.new) (D.reads disk.old) (D.reads disk.new)
            (runs_merged self.old) (runs_merged self.new) result }
    {
        arena.clear();
        group.clear();
        match self.begin::<D>() {
            Ok(()) => gather::<D, R>(self, disk, arena, group),
            Err(NoMemory) => Err(Trouble::NoMemory),
        }
    }

    /// Plays all runs, if that wasn't done yet.
    fn begin<D: Disk>(&mut self) -> Result<(), NoMemory>
    where
        R: Run<D>,
        requires kept { IsUnspent R.view self.old }
        ensures ok { OnOk result (IsTournament (views_of R.view self.new) self.new.winners.items) }
        ensures same { (self.new.runs ≡ self.old.runs)
            × (self.new.consumed ≡ self.old.consumed) }
    {
        if self.winners.is_empty() {
            let alloc = *self.winners.allocator();
            let mut winners = new_bracket(alloc, self.runs.len())?;
            play_all(&contest_of::<D, R>(&self.runs), &mut winners);
            self.winners = winners;
        }
        Ok(())
    }
}
