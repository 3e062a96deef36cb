//! The runs of a level's arrays are opened.

ghost use Rattle.std.specs.List.{Contains};
ghost use Rattle.std.specs.Prelude.{◌≡◌, ◌<◌, ◌≤◌, ℕ, map, length, Some, IfOk, OnOk, OnErr, IsErrOf};
ghost use Rattle.strat_array.specs.Within.{AreWithin};
ghost use Rattle.strat_base.specs.declared.descriptors.ArrayDesc.{ArrayDesc as Desc};
ghost use Rattle.strat_base.specs.declared.failures.Trouble.TheVariants.{Damaged, Device};
ghost use Rattle.def_crash.specs.Faults.{HasCause, ReadsAtMost};
ghost use Rattle.def_bytes.specs.Arrays.{blocks_of};
ghost use Rattle.def_crash.specs.Image.{Image};
ghost use Rattle.def_crash.specs.Moments.{Exposes, OnlyReads};
ghost use Rattle.strat_promote.specs.Job.{blocks_listed};
ghost use Rattle.strat_promote.specs.Leads.{misfit_in};
ghost use Rattle.strat_promote.specs.Opening.{IsBlamed};
ghost use Rattle.strat_check.specs.LevelRuns.{OpensRun, AreLevelRuns};
ghost use Rattle.strat_check.specs.MarkedRuns.{marked_seen};

use crate::marked_run::MarkedRun;
use std::alloc::Global;
use strat_base::{ArrayDesc, Trouble};
use strat_disk::Disk;

/// Opens the run of an array, and puts it behind others.
fn open_run<D: Disk>(
    alloc: Global,
    desc: &ArrayDesc,
    place: u32,
    versions: u32,
    disk: &mut D,
    runs: &mut Vec<MarkedRun>,
) -> Result<(), Trouble>
    requires fits { AreWithin desc.now.extents }
    requires room { (place < 16384) × (versions ≤ 16384) }
    ensures ok { OnOk result (OpensRun versions (D.view disk.old) place desc.now
        (map marked_seen runs.old.items) (map marked_seen runs.new.items)
        (D.reads disk.old) (D.reads disk.new)) }
    ensures same { OnlyReads (D.view disk.old) (D.view disk.new) }
    ensures cause { HasCause Device (D.faults disk.old) (D.faults disk.new) result }
    ensures damaged { (b : ℕ) → IsErrOf result (Damaged b)
        → Contains (blocks_of desc.now.extents) b
        × ((f : Image) → Exposes (D.view disk.old) f → misfit_in f desc.now ≡ Some b) }
    ensures err { OnErr result (ReadsAtMost (length (blocks_of desc.now.extents))
        (D.reads disk.old) (D.reads disk.new)) }
{
    let run = MarkedRun::open(alloc, disk, desc, place, versions)?;
    runs.push(run)?;
    Ok(())
}

/// The runs of a level's arrays over the entries of versions below a number, each marked with its place. Of each array the
/// blocks up to its first entry of such a version are read. Takes for each array a block, a key and a copy of its extents.
///
/// `NoMemory` where there is none for them; `Device` only where the disk failed; `Damaged` names a block of an array
/// that is bad for it.
pub(crate) fn open_runs<D: Disk>(
    alloc: Global,
    arrays: &[ArrayDesc],
    versions: u32,
    disk: &mut D,
) -> Result<Vec<MarkedRun>, Trouble>
    requires fits { (a : Desc) → Contains arrays.now a → AreWithin a.extents }
    requires room { (length arrays.now ≤ 16384) × (versions ≤ 16384) }
    ensures ok { IfOk result (λ runs. AreLevelRuns versions (D.view disk.old) arrays.now
        (map marked_seen runs.items) (D.reads disk.old) (D.reads disk.new)) }
    ensures same { OnlyReads (D.view disk.old) (D.view disk.new) }
    ensures cause { HasCause Device (D.faults disk.old) (D.faults disk.new) result }
    ensures damaged { (b : ℕ) → IsErrOf result (Damaged b)
        → IsBlamed (D.view disk.old) arrays.now b }
    ensures err { OnErr result (ReadsAtMost (length (blocks_listed arrays.now))
        (D.reads disk.old) (D.reads disk.new)) }
{
    let mut runs = Vec::new(alloc);
    for i in 0..arrays.len() {
        open_run(alloc, &arrays[i], i as u32, versions, disk, &mut runs)?;
    }
    Ok(runs)
}
