//! New stores in memory, leaders and followers over them, and what these send.

use std::alloc::Global;
use strat_disk::{Disk, MemDisk};
use strat_follow::{follow, lead};
use strat_io::{MemSink, MemSource};
use strat_model::Ended;
use strat_store::format;

/// Puts `a` = `1` to `e` = `5`, under tags 1 to 5.
pub const PUTS: &[u8] = b"\x00\x00\x00\x0f\x00\x00\x00\x01\x01\x00\x00\x00\x00\x00\x01a\x00\x011\
\x00\x00\x00\x0f\x00\x00\x00\x02\x01\x00\x00\x00\x00\x00\x01b\x00\x012\
\x00\x00\x00\x0f\x00\x00\x00\x03\x01\x00\x00\x00\x00\x00\x01c\x00\x013\
\x00\x00\x00\x0f\x00\x00\x00\x04\x01\x00\x00\x00\x00\x00\x01d\x00\x014\
\x00\x00\x00\x0f\x00\x00\x00\x05\x01\x00\x00\x00\x00\x00\x01e\x00\x015";
/// The frames of these as changes with their numbers, of 18 bytes each.
pub const CHANGES: &[u8] = b"\x00\x00\x00\x0e\x00\x00\x00\x00\x01\x00\x00\x00\x00\x01a\x00\x011\
\x00\x00\x00\x0e\x00\x00\x00\x01\x01\x00\x00\x00\x00\x01b\x00\x012\
\x00\x00\x00\x0e\x00\x00\x00\x02\x01\x00\x00\x00\x00\x01c\x00\x013\
\x00\x00\x00\x0e\x00\x00\x00\x03\x01\x00\x00\x00\x00\x01d\x00\x014\
\x00\x00\x00\x0e\x00\x00\x00\x04\x01\x00\x00\x00\x00\x01e\x00\x015";
/// What a run may read here.
const BUDGET: u64 = 100_000;

/// A disk with a new store whose journal regions take four changes, which has counted no call.
pub fn small_store(alloc: Global) -> Option<MemDisk> {
    let mut disk = MemDisk::new(alloc, &[]).ok()?;
    if format(alloc, &mut disk, 2, 4, 100, 10).is_err() {
        return None;
    }
    disk.crash(0).ok()
}

/// How a follower ends that is given these bytes, and the sink that it fills.
pub fn follow_all<D: Disk>(alloc: Global, disk: &mut D, input: &[u8]) -> Option<(Ended, MemSink)> {
    let mut source = MemSource::new(alloc, input, &[], 4096).ok()?;
    let mut sink = MemSink::new(alloc, &[], 4096).ok()?;
    let how = follow(alloc, &mut source, &mut sink, disk, BUDGET);
    Some((how, sink))
}

/// The same of a leader.
pub fn lead_all<D: Disk>(alloc: Global, disk: &mut D, input: &[u8]) -> Option<(Ended, MemSink)> {
    let mut source = MemSource::new(alloc, input, &[], 4096).ok()?;
    let mut sink = MemSink::new(alloc, &[], 4096).ok()?;
    let how = lead(alloc, &mut source, &mut sink, disk, BUDGET);
    Some((how, sink))
}

/// Whether a follower that is given these bytes sends those and ends so.
pub fn answers<D: Disk>(
    alloc: Global,
    disk: &mut D,
    input: &[u8],
    output: &[u8],
    ended: Ended,
) -> bool {
    match follow_all(alloc, disk, input) {
        Some((how, sink)) => how == ended && sink.bytes() == output,
        None => false,
    }
}

/// The same of a leader.
pub fn sends<D: Disk>(
    alloc: Global,
    disk: &mut D,
    input: &[u8],
    output: &[u8],
    ended: Ended,
) -> bool {
    match lead_all(alloc, disk, input) {
        Some((how, sink)) => how == ended && sink.bytes() == output,
        None => false,
    }
}

/// How many receipts have this status.
pub fn count_status(receipts: &[u8], status: u8) -> usize {
    receipts
        .chunks(14)
        .filter(|receipt| receipt.get(8) == Some(&status))
        .count()
}
