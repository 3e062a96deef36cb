//! Disks that are no store, are damaged or fail, and sinks that fail.

use crate::rows::{OF_NONE, OF_THIRTEEN, THIRTEEN_PUTS};
use crate::support::{run, small_store, tells_check, tells_levels, tells_summary};
use std::alloc::Global;
use strat_disk::{FuseDisk, MemDisk};
use strat_io::MemSink;
use strat_model::Ended;
use strat_report::write_levels;

#[test]
fn no_store_is_told_of(rt: HostRuntime) {
    let Ok(mut disk) = MemDisk::new(rt.alloc(), &[]) else {
        assert!(rt; false);
        return;
    };
    assert!(rt; tells_levels(rt.alloc(), &mut disk, b"", Ended::NotAStore));
    assert!(rt; tells_summary(rt.alloc(), &mut disk, 1, 2, b"", Ended::NotAStore));
    assert!(rt; tells_check(rt.alloc(), &mut disk, b"", Ended::NotAStore));
}

/// Sets a byte of a disk that is as long as that.
fn alter(disk: &mut MemDisk, at: u64, byte: u8) -> bool {
    if at >= disk.bytes().len() as u64 {
        return false;
    }
    disk.alter(at, byte);
    true
}

/// Whether a store whose manifest's block names another one is told of as damaged in block 6, and not summed up.
fn tells_damage(alloc: Global, disk: &mut MemDisk) -> bool {
    let ended = Ended::Damaged { block: 6 };
    alter(disk, 24576, 1)
        && tells_levels(alloc, disk, b"damaged block 6\n", ended)
        && tells_check(alloc, disk, b"damaged block 6\n", ended)
        && tells_summary(alloc, disk, 1, 2, b"", ended)
}

#[test]
fn a_damaged_manifest_is_told_of(rt: HostRuntime) {
    let Some(mut disk) = small_store(rt.alloc()) else {
        assert!(rt; false);
        return;
    };
    assert!(rt; tells_damage(rt.alloc(), &mut disk));
}

/// Whether the first gate of the region that is not active, which an opening would shut, is left open by a report.
fn leaves_gate(alloc: Global, disk: &mut MemDisk) -> bool {
    alter(disk, 16384, 0xa7)
        && tells_levels(alloc, disk, OF_NONE, Ended::Done)
        && disk.bytes().len() > 16384
        && disk.bytes()[16384] == 0xa7
}

#[test]
fn an_open_gate_is_left_open(rt: HostRuntime) {
    let Some(mut disk) = small_store(rt.alloc()) else {
        assert!(rt; false);
        return;
    };
    assert!(rt; leaves_gate(rt.alloc(), &mut disk));
}

/// A store of thirteen puts.
fn thirteen(alloc: Global) -> Option<MemDisk> {
    let mut disk = small_store(alloc)?;
    (run(alloc, &mut disk, THIRTEEN_PUTS) == Some(Ended::Done)).then_some(disk)
}

/// Whether a report is whole after so many calls of the disk; where the next one fails nothing is written.
fn is_whole_after(alloc: Global, store: &MemDisk, calls: u64) -> Option<bool> {
    let mut whole = FuseDisk::new(store.crash(0).ok()?, calls);
    if tells_levels(alloc, &mut whole, OF_THIRTEEN, Ended::Done) {
        return Some(true);
    }
    let mut stopped = FuseDisk::new(store.crash(0).ok()?, calls);
    tells_levels(alloc, &mut stopped, b"", Ended::Device).then_some(false)
}

/// Whether a check is whole after so many calls of the disk; where the next one fails nothing is written.
fn is_checked_after(alloc: Global, store: &MemDisk, calls: u64) -> Option<bool> {
    let mut whole = FuseDisk::new(store.crash(0).ok()?, calls);
    if tells_check(alloc, &mut whole, b"sound\n", Ended::Done) {
        return Some(true);
    }
    let mut stopped = FuseDisk::new(store.crash(0).ok()?, calls);
    tells_check(alloc, &mut stopped, b"", Ended::Device).then_some(false)
}

/// How many calls of the disk a report makes, or a check, where it is not whole after fewer.
fn calls_of(alloc: Global, store: &MemDisk, checks: bool) -> Option<u64> {
    for calls in 0..100 {
        let whole = if checks {
            is_checked_after(alloc, store, calls)?
        } else {
            is_whole_after(alloc, store, calls)?
        };
        if whole {
            return Some(calls);
        }
    }
    None
}

#[test]
fn a_failing_disk_leaves_nothing_written(rt: HostRuntime) {
    let Some(disk) = thirteen(rt.alloc()) else {
        assert!(rt; false);
        return;
    };
    assert!(rt; matches!(calls_of(rt.alloc(), &disk, false), Some(4..=20)));
    assert!(rt; matches!(calls_of(rt.alloc(), &disk, true), Some(7..=30)));
}

/// Whether a sink that takes one byte a call and fails at the call of this number holds the bytes before it.
fn holds_front(alloc: Global, disk: &mut MemDisk, call: usize) -> bool {
    let Ok(mut sink) = MemSink::new(alloc, &[call as u64], 1) else {
        return false;
    };
    let how = write_levels(alloc, disk, &mut sink);
    call >= 1
        && call <= OF_THIRTEEN.len()
        && how == Ended::Sink
        && sink.bytes() == &OF_THIRTEEN[..call - 1]
}

/// Whether a sink that fails at any one call holds the bytes before it.
fn holds_fronts(alloc: Global, disk: &mut MemDisk) -> bool {
    for call in 1..=OF_THIRTEEN.len() {
        if !holds_front(alloc, disk, call) {
            return false;
        }
    }
    true
}

#[test]
fn a_failing_sink_holds_the_front(rt: HostRuntime) {
    let Some(mut disk) = thirteen(rt.alloc()) else {
        assert!(rt; false);
        return;
    };
    assert!(rt; holds_fronts(rt.alloc(), &mut disk));
}
