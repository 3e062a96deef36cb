//! Disks that are no store, are damaged or fail, and sinks that fail.

use crate::rows::THIRTEEN_PUTS;
use crate::support::{export, exports, new_store, run};
use std::alloc::Global;
use strat_disk::{FuseDisk, MemDisk};
use strat_io::MemSink;
use strat_model::Ended;

#[test]
fn no_store_is_told_of(rt: HostRuntime) {
    let Ok(mut disk) = MemDisk::new(rt.alloc(), &[]) else {
        assert!(rt; false);
        return;
    };
    assert!(rt; exports(rt.alloc(), &mut disk, 0, b"", Ended::NotAStore));
}

/// A store of thirteen puts: eight in one array, and five in the journal, of which one is behind a full region.
fn thirteen(alloc: Global) -> Option<MemDisk> {
    let mut disk = new_store(alloc, 4, 100, 10)?;
    (run(alloc, &mut disk, THIRTEEN_PUTS) == Some(Ended::Done)).then_some(disk)
}

/// Whether an export that failed wrote the front of what the store has.
fn wrote_front(how: Ended, bytes: &[u8]) -> bool {
    how == Ended::Device
        && bytes.len() <= THIRTEEN_PUTS.len()
        && bytes == &THIRTEEN_PUTS[..bytes.len()]
}

/// Whether an export is whole after so many calls of the disk; where the next one fails a front is written.
fn is_whole_after(alloc: Global, store: &MemDisk, calls: u64) -> Option<bool> {
    let mut disk = FuseDisk::new(store.crash(0).ok()?, calls);
    let mut sink = MemSink::new(alloc, &[], 4096).ok()?;
    let how = export(alloc, &mut sink, &mut disk, 0);
    if how == Ended::Done && sink.bytes() == THIRTEEN_PUTS {
        return Some(true);
    }
    wrote_front(how, sink.bytes()).then_some(false)
}

/// How many calls of the disk an export makes, where it is not whole after fewer.
fn calls_of(alloc: Global, store: &MemDisk) -> Option<u64> {
    for calls in 0..100 {
        if is_whole_after(alloc, store, calls)? {
            return Some(calls);
        }
    }
    None
}

#[test]
fn a_failing_disk_leaves_a_front(rt: HostRuntime) {
    let Some(disk) = thirteen(rt.alloc()) else {
        assert!(rt; false);
        return;
    };
    assert!(rt; matches!(calls_of(rt.alloc(), &disk), Some(5..=20)));
}

/// Whether a sink that takes one byte a call and fails at the call of this number holds the bytes before it.
fn holds_front(alloc: Global, disk: &mut MemDisk, call: usize) -> bool {
    let Ok(mut sink) = MemSink::new(alloc, &[call as u64], 1) else {
        return false;
    };
    let how = export(alloc, &mut sink, disk, 0);
    call >= 1
        && call <= THIRTEEN_PUTS.len()
        && how == Ended::Sink
        && sink.bytes() == &THIRTEEN_PUTS[..call - 1]
}

/// Whether a sink that fails at any one call holds the bytes before it.
fn holds_fronts(alloc: Global, disk: &mut MemDisk) -> bool {
    for call in 1..=THIRTEEN_PUTS.len() {
        if !holds_front(alloc, disk, call) {
            return false;
        }
    }
    true
}

#[test]
fn a_failing_sink_holds_the_front(rt: HostRuntime) {
    let Some(mut disk) = thirteen(rt.alloc()) else {
        assert!(rt; false);
        return;
    };
    assert!(rt; holds_fronts(rt.alloc(), &mut disk));
}
