//! New stores in memory, served with frames, and what is written of them.

ghost use Rattle.std.specs.Prelude.{◌≤◌};
ghost use Rattle.def_bytes.specs.SuperBlock.{AreLimits};

use std::alloc::Global;
use strat_disk::{Disk, MemDisk};
use strat_gate::newest;
use strat_io::{MemSink, MemSource};
use strat_model::Ended;
use strat_report::{write_check, write_levels, write_summary};
use strat_serve::serve;
use strat_store::format;

/// What a run may read here.
const BUDGET: u64 = 100_000;

/// A disk with a new store of a format and these limits, which has counted no call.
fn store_of_format(
    alloc: Global,
    number: u16,
    mem: u32,
    changes: u32,
    versions: u32,
) -> Option<MemDisk>
    requires fits { (1 ≤ number) × (number ≤ 2) × AreLimits mem changes versions }
{
    let mut disk = MemDisk::new(alloc, &[]).ok()?;
    if format(alloc, &mut disk, number, mem, changes, versions).is_err() {
        return None;
    }
    disk.crash(0).ok()
}

/// A disk with a new store of these limits, which has counted no call.
pub fn new_store(alloc: Global, mem: u32, changes: u32, versions: u32) -> Option<MemDisk>
    requires { AreLimits mem changes versions }
{
    store_of_format(alloc, 2, mem, changes, versions)
}

/// A disk with a small store, which takes four changes before it publishes.
pub fn small_store(alloc: Global) -> Option<MemDisk> {
    new_store(alloc, 4, 100, 10)
}

/// The same in format 1, as builds before format 2 made it.
pub fn old_store(alloc: Global) -> Option<MemDisk> {
    store_of_format(alloc, 1, 4, 100, 10)
}

/// The format that the newest superblock on a disk says.
pub fn format_of(disk: &mut MemDisk) -> Option<u16> {
    match newest(disk) {
        Ok(Some((_, sb))) => Some(sb.format),
        _ => None,
    }
}

/// How a run over a disk ends that is given these frames.
pub fn run<D: Disk>(alloc: Global, disk: &mut D, frames: &[u8]) -> Option<Ended> {
    let mut source = MemSource::new(alloc, frames, &[], 4096).ok()?;
    let mut sink = MemSink::new(alloc, &[], 4096).ok()?;
    Some(serve(alloc, &mut source, &mut sink, disk, BUDGET))
}

/// How a report of the levels ends, and the sink that it filled.
fn levels<D: Disk>(alloc: Global, disk: &mut D) -> Option<(Ended, MemSink)> {
    let mut sink = MemSink::new(alloc, &[], 4096).ok()?;
    let how = write_levels(alloc, disk, &mut sink);
    Some((how, sink))
}

/// Whether a report of the levels writes this text and ends so.
pub fn tells_levels<D: Disk>(alloc: Global, disk: &mut D, text: &[u8], ended: Ended) -> bool {
    match levels(alloc, disk) {
        Some((how, sink)) => how == ended && sink.bytes() == text,
        None => false,
    }
}

/// How a check ends, and the sink that it filled.
fn check<D: Disk>(alloc: Global, disk: &mut D) -> Option<(Ended, MemSink)> {
    let mut sink = MemSink::new(alloc, &[], 4096).ok()?;
    let how = write_check(alloc, disk, &mut sink);
    Some((how, sink))
}

/// Whether a check writes this text and ends so.
pub fn tells_check<D: Disk>(alloc: Global, disk: &mut D, text: &[u8], ended: Ended) -> bool {
    match check(alloc, disk) {
        Some((how, sink)) => how == ended && sink.bytes() == text,
        None => false,
    }
}

/// How a summary ends, and the sink that it filled.
fn summary<D: Disk>(
    alloc: Global,
    disk: &mut D,
    seed: u64,
    count: u32,
) -> Option<(Ended, MemSink)> {
    let mut sink = MemSink::new(alloc, &[], 4096).ok()?;
    let how = write_summary(alloc, disk, &mut sink, seed, count);
    Some((how, sink))
}

/// Whether a summary of a workload with these arguments writes this text and ends so.
pub fn tells_summary<D: Disk>(
    alloc: Global,
    disk: &mut D,
    seed: u64,
    count: u32,
    text: &[u8],
    ended: Ended,
) -> bool {
    match summary(alloc, disk, seed, count) {
        Some((how, sink)) => how == ended && sink.bytes() == text,
        None => false,
    }
}
