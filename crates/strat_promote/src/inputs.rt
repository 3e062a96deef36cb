//! The runs of a pass are opened: level 0, and the arrays of the levels down to its target.

ghost use Rattle.std.specs.List.{list_all};
ghost use Rattle.std.specs.Prelude.{◌≡◌, ◌≤◌, ◌+◌, ℕ, List, [], ◌∷◌, length, map, nat_lt, IfOk, OnOk, OnErr, IsErrOf, IsTrue, Contains};
ghost use Rattle.strat_base.specs.declared.failures.Trouble.TheVariants.{Damaged, Device};
ghost use Rattle.def_crash.specs.Faults.{HasCause, ReadsAtMost};
ghost use Rattle.def_crash.specs.Image.{Image};
ghost use Rattle.def_crash.specs.Moments.{Exposes, OnlyReads};
ghost use Rattle.strat_level.specs.Levels.{level_numbered};
ghost use Rattle.strat_level.specs.Memtable.{entries_held, ListStands};
ghost use Rattle.strat_merge.specs.Gathered.{are_under};
ghost use Rattle.strat_merge.specs.Runs.{lefts, blocks_left, IsBadFor};
ghost use Rattle.strat_promote.specs.InputFields.{input_seen};
ghost use Rattle.strat_promote.specs.Job.{arrays_to, blocks_listed, AreReadable, IsBadInput};
ghost use Rattle.strat_promote.specs.Leads.{leads_in};
ghost use Rattle.strat_promote.specs.Opening.{arrays_if_any, OpensRuns, IsBlamed};

use crate::input::Input;
use crate::lead_run::LeadRun;
use crate::zero_copy::ZeroRun;
use std::alloc::Global;
use strat_arena::ArenaPool;
use strat_base::{ArrayDesc, NoMemory, Trouble};
use strat_disk::Disk;
use strat_level::{Levels, ZeroView};

/// Opens the run of an array, and puts it behind others.
fn open_array<D: Disk>(
    alloc: Global,
    desc: &ArrayDesc,
    horizon: u32,
    disk: &mut D,
    runs: &mut Vec<Input>,
) -> Result<(), Trouble>
    requires fits { AreReadable horizon (desc.now ∷ []) }
    ensures ok { OnOk result (OpensRuns horizon (D.view disk.old) (desc.now ∷ [])
        (map input_seen runs.old.items) (map input_seen runs.new.items)
        (D.reads disk.old) (D.reads disk.new)) }
    ensures same { OnlyReads (D.view disk.old) (D.view disk.new) }
    ensures cause { HasCause Device (D.faults disk.old) (D.faults disk.new) result }
    ensures damaged { (b : ℕ) → IsErrOf result (Damaged b)
        → IsBlamed (D.view disk.old) (desc.now ∷ []) b }
    ensures err { OnErr result (ReadsAtMost (length (blocks_listed (desc.now ∷ [])))
        (D.reads disk.old) (D.reads disk.new)) }
{
    let run = LeadRun::open(alloc, disk, desc, horizon)?;
    runs.push(Input::Leads(run))?;
    Ok(())
}

/// Opens the runs of arrays one after another, and puts them behind others.
fn open_arrays<D: Disk>(
    alloc: Global,
    arrays: &[ArrayDesc],
    horizon: u32,
    disk: &mut D,
    runs: &mut Vec<Input>,
) -> Result<(), Trouble>
    requires fits { AreReadable horizon arrays.now }
    ensures ok { OnOk result (OpensRuns horizon (D.view disk.old) arrays.now
        (map input_seen runs.old.items) (map input_seen runs.new.items)
        (D.reads disk.old) (D.reads disk.new)) }
    ensures same { OnlyReads (D.view disk.old) (D.view disk.new) }
    ensures cause { HasCause Device (D.faults disk.old) (D.faults disk.new) result }
    ensures damaged { (b : ℕ) → IsErrOf result (Damaged b)
        → IsBlamed (D.view disk.old) arrays.now b }
    ensures err { OnErr result (ReadsAtMost (length (blocks_listed arrays.now))
        (D.reads disk.old) (D.reads disk.new)) }
{
    for i in 0..arrays.len() {
        open_array(alloc, &arrays[i], horizon, disk, runs)?;
    }
    Ok(())
}

/// Opens the runs of the arrays of a level, if there is one.
fn open_level<D: Disk>(
    alloc: Global,
    levels: &Levels,
    number: usize,
    horizon: u32,
    disk: &mut D,
    runs: &mut Vec<Input>,
) -> Result<(), Trouble>
    requires fits { AreReadable horizon (arrays_if_any (level_numbered levels.now number)) }
    ensures ok { OnOk result (OpensRuns horizon (D.view disk.old)
        (arrays_if_any (level_numbered levels.now number))
        (map input_seen runs.old.items) (map input_seen runs.new.items)
        (D.reads disk.old) (D.reads disk.new)) }
    ensures same { OnlyReads (D.view disk.old) (D.view disk.new) }
    ensures cause { HasCause Device (D.faults disk.old) (D.faults disk.new) result }
    ensures damaged { (b : ℕ) → IsErrOf result (Damaged b)
        → IsBlamed (D.view disk.old) (arrays_if_any (level_numbered levels.now number)) b }
    ensures err { OnErr result
        (ReadsAtMost (length (blocks_listed (arrays_if_any (level_numbered levels.now number))))
        (D.reads disk.old) (D.reads disk.new)) }
{
    match levels.get(number) {
        Some(level) => open_arrays(alloc, level.desc().arrays.as_slice(), horizon, disk, runs),
        None => Ok(()),
    }
}

/// Opens the runs of the arrays of the levels from 1 to a target, and puts them behind others.
fn open_levels<D: Disk>(
    alloc: Global,
    levels: &Levels,
    target: usize,
    horizon: u32,
    disk: &mut D,
    runs: &mut Vec<Input>,
) -> Result<(), Trouble>
    requires fits { AreReadable horizon (arrays_to levels.now target) × (target ≤ 22) }
    ensures ok { OnOk result (OpensRuns horizon (D.view disk.old) (arrays_to levels.now target)
        (map input_seen runs.old.items) (map input_seen runs.new.items)
        (D.reads disk.old) (D.reads disk.new)) }
    ensures same { OnlyReads (D.view disk.old) (D.view disk.new) }
    ensures cause { HasCause Device (D.faults disk.old) (D.faults disk.new) result }
    ensures damaged { (b : ℕ) → IsErrOf result (Damaged b)
        → IsBlamed (D.view disk.old) (arrays_to levels.now target) b }
    ensures err { OnErr result (ReadsAtMost (length (blocks_listed (arrays_to levels.now target)))
        (D.reads disk.old) (D.reads disk.new)) }
{
    for done in 0..target {
        open_level(alloc, levels, done + 1, horizon, disk, runs)?;
    }
    Ok(())
}

/// The run of level 0 alone.
fn open_zero(
    alloc: Global,
    zero: &ZeroView,
    pool: &ArenaPool,
    horizon: u32,
) -> Result<Vec<Input>, NoMemory>
    requires kept { ListStands pool.now zero.now }
    requires room { IsTrue (list_all (λ e. nat_lt e.version horizon)
        (entries_held pool.now zero.now)) }
    ensures ok { IfOk result (λ runs. (f : Image) → lefts f (map input_seen runs.items)
        ≡ entries_held pool.now zero.now ∷ []) }
    ensures found { IfOk result (λ runs. IsTrue (are_under horizon (map input_seen runs.items))
        × (blocks_left (map input_seen runs.items) ≡ [])) }
    ensures none { IfOk result (λ runs. (f : Image) (b : ℕ)
        → IsBadFor (map input_seen runs.items) f b → ⊥) }
{
    let mut runs = Vec::new(alloc);
    runs.push(Input::Zero(ZeroRun::new(alloc, zero, pool, horizon)?))?;
    Ok(runs)
}

/// The runs of a pass: level 0, and then the arrays of the levels from 1 to a target, the shallowest level first. Of each
/// array the blocks up to its first lead are read. Takes a copy of level 0, and for each array a block and copies of its
/// extents and its tag.
///
/// `NoMemory` where there is none for them; `Device` only where the disk failed; `Damaged` names a block of an array
/// that is bad for it.
pub(crate) fn open_inputs<D: Disk>(
    alloc: Global,
    zero: &ZeroView,
    levels: &Levels,
    pool: &ArenaPool,
    target: usize,
    horizon: u32,
    disk: &mut D,
) -> Result<Vec<Input>, Trouble>
    requires kept { ListStands pool.now zero.now }
    requires room { IsTrue (list_all (λ e. nat_lt e.version horizon)
        (entries_held pool.now zero.now)) }
    requires fits { AreReadable horizon (arrays_to levels.now target) × (target ≤ 22) }
    ensures ok { IfOk result (λ runs. (f : Image) → Exposes (D.view disk.old) f
        → lefts f (map input_seen runs.items)
        ≡ entries_held pool.now zero.now ∷ map (leads_in f) (arrays_to levels.now target)) }
    ensures found { IfOk result (λ runs.
        IsTrue (are_under horizon (map input_seen runs.items))) }
    ensures kept { IfOk result (λ runs. (f : Image) (b : ℕ) → Exposes (D.view disk.old) f
        → IsBadFor (map input_seen runs.items) f b
        → IsBadInput f (arrays_to levels.now target) b) }
    ensures same { OnlyReads (D.view disk.old) (D.view disk.new) }
    ensures cause { HasCause Device (D.faults disk.old) (D.faults disk.new) result }
    ensures damaged { (b : ℕ) → IsErrOf result (Damaged b)
        → IsBlamed (D.view disk.old) (arrays_to levels.now target) b }
    ensures reads { IfOk result (λ runs. (D.reads disk.old ≤ D.reads disk.new)
        × (D.reads disk.new + length (blocks_left (map input_seen runs.items))
        ≤ D.reads disk.old + length (blocks_listed (arrays_to levels.now target)))
        × ((b : ℕ) → Contains (blocks_left (map input_seen runs.items)) b
        → Contains (blocks_listed (arrays_to levels.now target)) b)) }
    ensures err { OnErr result (ReadsAtMost (length (blocks_listed (arrays_to levels.now target)))
        (D.reads disk.old) (D.reads disk.new)) }
{
    let mut runs = open_zero(alloc, zero, pool, horizon)?;
    open_levels(alloc, levels, target, horizon, disk, &mut runs)?;
    Ok(runs)
}
