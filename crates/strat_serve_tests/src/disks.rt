//! What runs find and leave on disks that fail and crash.

use crate::support::{
    GETS, PUT, PUTS, calls_of, gives, is_done, left_by, puts_on, run_in_pieces, small_store,
};
use std::alloc::Global;
use strat_disk::{FuseDisk, MemDisk};
use strat_io::{MemSink, MemSource};
use strat_model::Ended;
use strat_serve::serve;

/// How many calls an opening makes.
fn calls_to_open(alloc: Global, store: &MemDisk) -> Option<u64> {
    calls_of(alloc, store, b"")
}

/// Whether looking up what is in a journal makes no call of its disk, no sync among them, but those of the opening.
fn looks_make_no_call(alloc: Global, disk: &mut MemDisk) -> bool {
    is_done(alloc, disk, PUTS) && calls_of(alloc, disk, GETS) == calls_to_open(alloc, disk)
}

#[test]
fn a_look_up_of_the_journal_makes_no_call(rt: HostRuntime) {
    let Some(mut disk) = small_store(rt.alloc()) else {
        assert!(rt; false);
        return;
    };
    assert!(rt; looks_make_no_call(rt.alloc(), &mut disk));
}

/// How many of the replies to puts say that one was done.
fn done_in(replies: &[u8]) -> usize {
    replies
        .chunks(9)
        .filter(|reply| reply.last() == Some(&0))
        .count()
}

/// Whether each crash, and none, leaves at least so many of the four puts.
fn leaves_at_least(alloc: Global, disk: &mut MemDisk, done: usize) -> bool {
    let crashed = (0..3).all(|choice| left_by(alloc, disk, choice).is_some_and(|puts| done
        <= puts));
    // served as it was left, it has what a crash after the opening leaves
    let kept = puts_on(alloc, disk);
    crashed && kept.is_some_and(|puts| done <= puts) && left_by(alloc, disk, 2) == kept
}

/// Serves the four puts one by one on a disk that fails after so many calls, and says how that ends, where every crash leaves
/// each put that was acknowledged.
fn put_behind_fuse(alloc: Global, store: &MemDisk, calls: u64) -> Option<Ended> {
    let mut disk = FuseDisk::new(store.crash(0).ok()?, calls);
    let (how, sink) = run_in_pieces(alloc, &mut disk, PUTS, 19)?;
    let done = done_in(sink.bytes());
    let mut disk = disk.into_inner();
    leaves_at_least(alloc, &mut disk, done).then_some(how)
}

/// How many calls four puts may be stopped after; each of those ends with the device's fault, and the next does not.
fn stops(alloc: Global, store: &MemDisk) -> Option<u64> {
    for calls in 0..60 {
        match put_behind_fuse(alloc, store, calls)? {
            Ended::Device => {}
            Ended::Done => return Some(calls),
            _ => return None,
        }
    }
    None
}

// A put that comes alone makes two writes and two syncs.
#[test]
fn a_crash_leaves_every_acknowledged_put(rt: HostRuntime) {
    let Some(store) = small_store(rt.alloc()) else {
        assert!(rt; false);
        return;
    };
    let opening = calls_to_open(rt.alloc(), &store).unwrap_or(0);
    assert!(rt; opening > 0 && opening < 40);
    assert!(rt; stops(rt.alloc(), &store) == opening.checked_add(16));
}

/// Whether a put on a disk that fails after so many calls is answered so, and the run ends with its fault.
fn fails_after(alloc: Global, store: &MemDisk, calls: u64, output: &[u8]) -> bool {
    match store.crash(0) {
        Ok(disk) => {
            let mut disk = FuseDisk::new(disk, calls);
            gives(alloc, &mut disk, PUT, output, Ended::Device)
        }
        Err(_) => false,
    }
}

/// Whether a sink that cannot take the news of the device's fault hides it.
fn hides(alloc: Global, store: &MemDisk, calls: u64) -> bool {
    let (Ok(disk), Ok(mut source), Ok(mut sink)) = (
        store.crash(0),
        MemSource::new(alloc, PUT, &[], 4096),
        MemSink::new(alloc, &[1], 4096),
    ) else {
        return false;
    };
    let mut disk = FuseDisk::new(disk, calls);
    serve(alloc, &mut source, &mut sink, &mut disk, 100) == Ended::Sink && sink.bytes().is_empty()
}

#[test]
fn a_failing_device_is_told_of(rt: HostRuntime) {
    let Some(store) = small_store(rt.alloc()) else {
        assert!(rt; false);
        return;
    };
    let opening = calls_to_open(rt.alloc(), &store).unwrap_or(0);
    assert!(rt; opening > 0);
    for calls in 0..opening {
        assert!(rt; fails_after(rt.alloc(), &store, calls, b""));
    }
    assert!(rt;
        fails_after(
            rt.alloc(),
            &store,
            opening,
            b"\x00\x00\x00\x05\x00\x00\x00\x01!"
        )
    );
    assert!(rt; hides(rt.alloc(), &store, opening));
}
