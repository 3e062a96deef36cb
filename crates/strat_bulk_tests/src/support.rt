//! New stores in memory, served with frames, and what is exported of them.

ghost use Rattle.def_bytes.specs.SuperBlock.{AreLimits};

use std::alloc::Global;
use strat_base::Version;
use strat_bulk::export_pairs;
use strat_disk::{Disk, MemDisk};
use strat_io::{MemSink, MemSource, Sink};
use strat_model::Ended;
use strat_serve::serve;
use strat_store::{Store, format};

/// What a run may read here.
const BUDGET: u64 = 100_000;

/// A disk with a new store of these limits, which has counted no call.
pub fn new_store(alloc: Global, mem: u32, changes: u32, versions: u32) -> Option<MemDisk>
    requires { AreLimits mem changes versions }
{
    let mut disk = MemDisk::new(alloc, &[]).ok()?;
    if format(alloc, &mut disk, 2, mem, changes, versions).is_err() {
        return None;
    }
    disk.crash(0).ok()
}

/// How a run over a disk ends that is given these frames.
pub fn run<D: Disk>(alloc: Global, disk: &mut D, frames: &[u8]) -> Option<Ended> {
    let mut source = MemSource::new(alloc, frames, &[], 4096).ok()?;
    let mut sink = MemSink::new(alloc, &[], 4096).ok()?;
    Some(serve(alloc, &mut source, &mut sink, disk, BUDGET))
}

/// How an export of the store on a disk ends, whose opening may fail.
pub fn export<K: Sink, D: Disk>(
    alloc: Global,
    sink: &mut K,
    disk: &mut D,
    version: Version,
) -> Ended {
    match Store::attach(alloc, disk) {
        Ok(store) => export_pairs(alloc, &store, sink, disk, version),
        Err(fault) => Ended::from(fault),
    }
}

/// Whether an export writes these bytes and ends so.
pub fn exports<D: Disk>(
    alloc: Global,
    disk: &mut D,
    version: Version,
    bytes: &[u8],
    ended: Ended,
) -> bool {
    let Ok(mut sink) = MemSink::new(alloc, &[], 4096) else {
        return false;
    };
    let how = export(alloc, &mut sink, disk, version);
    how == ended && sink.bytes() == bytes
}
