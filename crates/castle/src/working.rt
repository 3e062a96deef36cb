//! Carrying out a workload on a new store.

ghost use Rattle.std.specs.Prelude.{◌≡◌, ◌≢◌, ℕ, List, Option};
ghost use Rattle.def_crash.specs.Image.{Image};
ghost use Rattle.def_crash.specs.Faults.{Rose};
ghost use Rattle.def_crash.specs.Moments.{Exposes, Passes};
ghost use Rattle.strat_report.specs.Reporting.{IsSilent};
ghost use Rattle.strat_loop.specs.Session.{EndHasCause};
ghost use Rattle.strat_loop.specs.World.{world};
ghost use Rattle.castle.specs.Working.{EndsWorkload, LeavesWorkload, SendsSummary};

use crate::program::BUDGET;
use std::alloc::Global;
use strat_base::limits::{CHANGES_MAX, VERSIONS_MAX};
use strat_disk::Disk;
use strat_io::Sink;
use strat_model::Ended;
use strat_report::write_summary;
use strat_serve::{GenSource, NullSink, serve};
use strat_store::{FormatFault, format};

/// Changes per journal region of a workload's store.
const MEM: u32 = 64;

/// Makes a new store, and serves a workload of so many changes to it, drawn from a seed.
fn serve_workload<D: Disk>(alloc: Global, disk: &mut D, seed: u64, count: u32) -> Ended
    ensures ok { (f : Image) → Exposes (D.view disk.old) f
        → LeavesWorkload seed count result (D.view disk.old) (D.view disk.new) }
    ensures end { EndsWorkload result }
    ensures none { result ≢ Ended.Sink }
    ensures time { Passes (D.view disk.old) (D.view disk.new) }
    ensures cause { result ≡ Ended.Device → Rose (D.faults disk.old) (D.faults disk.new) }
    ensures faults { result ≢ Ended.Device → D.faults disk.new ≡ D.faults disk.old }
{
    match format(alloc, disk, 2, MEM, CHANGES_MAX, VERSIONS_MAX) {
        Ok(()) => {}
        Err(FormatFault::NoMemory) => return Ended::NoMemory,
        Err(FormatFault::Device) => return Ended::Device,
    }
    let mut frames = GenSource::new(seed, count);
    let mut replies = NullSink::new();
    serve(alloc, &mut frames, &mut replies, disk, BUDGET)
}

/// Makes a new store, serves a workload to it, and writes the summary of what that left. Where the
/// serving does not end with the workload nothing is written.
pub fn run_workload<K: Sink, D: Disk>(
    alloc: Global,
    sink: &mut K,
    disk: &mut D,
    seed: u64,
    count: u32,
) -> Ended
    ensures ok { (f : Image) → Exposes (D.view disk.old) f
        → LeavesWorkload seed count result (D.view disk.old) (D.view disk.new) }
    ensures end { EndsWorkload result }
    ensures found { SendsSummary result seed count (D.view disk.new)
        (K.held sink.old) (K.held sink.new) }
    ensures same { IsSilent result → sink.new ≡ sink.old }
    ensures time { Passes (D.view disk.old) (D.view disk.new) }
    ensures cause { (left : Option (List ℕ)) (source_faults : ℕ) → EndHasCause result
        (world left source_faults (K.held sink.old) (K.faults sink.old)
        (D.view disk.old) (D.faults disk.old))
        (world left source_faults (K.held sink.new) (K.faults sink.new)
        (D.view disk.new) (D.faults disk.new)) }
{
    match serve_workload(alloc, disk, seed, count) {
        Ended::Done => write_summary(alloc, disk, sink, seed, count),
        ended => ended,
    }
}
