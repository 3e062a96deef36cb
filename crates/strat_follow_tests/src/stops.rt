//! Leaders and followers whose disk fails at each call in turn, crashes, and is served again.

use crate::support::{CHANGES, PUTS, count_status, follow_all, lead_all, small_store};
use std::alloc::Global;
use strat_disk::{Disk, FuseDisk, MemDisk};
use strat_model::Ended;

/// Whether a run ended with its input, or as the device failed.
fn is_usual(how: &Ended) -> bool {
    matches!(how, Ended::Done | Ended::Device)
}

/// How many of the five changes a store has that takes the others of them, if it does.
fn catches_up<D: Disk>(alloc: Global, disk: &mut D) -> Option<usize> {
    let (how, receipts) = follow_all(alloc, disk, CHANGES)?;
    let (old, taken) = (
        count_status(receipts.bytes(), 1),
        count_status(receipts.bytes(), 0),
    );
    (how == Ended::Done && old <= 5 && taken == 5 - old).then_some(old)
}

/// Whether each crash of a follower's disk leaves a prefix with so many changes at least, which takes the others.
fn has_prefix(alloc: Global, disk: &MemDisk, taken: usize) -> bool {
    for choice in 0..3 {
        let Ok(mut after) = disk.crash(choice) else {
            return false;
        };
        match catches_up(alloc, &mut after) {
            Some(has) if has >= taken => {}
            _ => return false,
        }
    }
    true
}

/// How many changes a follower answers as taken whose disk fails after so many calls, where each crash then has these.
fn follower_stopped(alloc: Global, store: &MemDisk, calls: u64) -> Option<usize> {
    let mut fuse = FuseDisk::new(store.crash(0).ok()?, calls);
    let (how, receipts) = follow_all(alloc, &mut fuse, CHANGES)?;
    let taken = count_status(receipts.bytes(), 0);
    let disk = fuse.into_inner();
    (is_usual(&how) && has_prefix(alloc, &disk, taken)).then_some(taken)
}

/// After how many calls a follower takes all five, where each stop leaves a prefix with those that it took.
fn follower_stops(alloc: Global, store: &MemDisk) -> Option<u64> {
    for calls in 0..200 {
        if follower_stopped(alloc, store, calls)? == 5 {
            return Some(calls);
        }
    }
    None
}

#[test]
fn a_follower_keeps_what_it_took(rt: HostRuntime) {
    let Some(store) = small_store(rt.alloc()) else {
        assert!(rt; false);
        return;
    };
    assert!(rt; follower_stops(rt.alloc(), &store).is_some_and(|calls| calls > 10));
}

/// Whether a follower reads these bytes and none of it comes too early.
fn reads_on<D: Disk>(alloc: Global, disk: &mut D, frames: &[u8]) -> bool {
    match follow_all(alloc, disk, frames) {
        Some((how, receipts)) => { how == Ended::Done && count_status(receipts.bytes(), 2) == 0 }
        None => false,
    }
}

/// How many changes a leader sends whose disk fails after so many calls, where a follower that reads this and what the leader
/// sends after a crash finds no gap.
fn leader_stopped(alloc: Global, store: &MemDisk, calls: u64) -> Option<usize> {
    let mut fuse = FuseDisk::new(store.crash(0).ok()?, calls);
    let (how, first) = lead_all(alloc, &mut fuse, PUTS)?;
    let mut after = fuse.into_inner().crash(0).ok()?;
    let (again, second) = lead_all(alloc, &mut after, b"")?;
    let mut follower = store.crash(0).ok()?;
    let follows = reads_on(alloc, &mut follower, first.bytes())
        && reads_on(alloc, &mut follower, second.bytes());
    (is_usual(&how) && again == Ended::Done && follows).then_some(first.bytes().len() / 18)
}

/// After how many calls a leader sends all five, where no stop leaves a gap.
fn leader_stops(alloc: Global, store: &MemDisk) -> Option<u64> {
    for calls in 0..200 {
        if leader_stopped(alloc, store, calls)? == 5 {
            return Some(calls);
        }
    }
    None
}

#[test]
fn a_leader_leaves_no_gap(rt: HostRuntime) {
    let Some(store) = small_store(rt.alloc()) else {
        assert!(rt; false);
        return;
    };
    assert!(rt; leader_stops(rt.alloc(), &store).is_some_and(|calls| calls > 10));
}
