//! A disk that an earlier run or an opening failed on, opened and served again: as it is, or after a crash.

use crate::stops::has_prefix;
use crate::support::{PUTS, calls_of, gives, run, small_store};
use crate::worked::{plan, run_stopped};
use std::alloc::Global;
use strat_disk::{FuseDisk, MemDisk};
use strat_model::Ended;
use strat_store::{AttachFault, Store};

/// Asks for `a` under tag 11, and for `c` under tag 13.
const GETS: &[u8] = b"\x00\x00\x00\x0c\x00\x00\x00\x0b\x03\x00\x00\x00\x00\x00\x01a\
\x00\x00\x00\x0c\x00\x00\x00\x0d\x03\x00\x00\x00\x00\x00\x01c";
/// The replies where both were put, and where neither was.
const FOUND: &[u8] = b"\x00\x00\x00\x08\x00\x00\x00\x0b\x01\x00\x011\
\x00\x00\x00\x08\x00\x00\x00\x0d\x01\x00\x013";

const ABSENT: &[u8] = b"\x00\x00\x00\x05\x00\x00\x00\x0b\x02\
\x00\x00\x00\x05\x00\x00\x00\x0d\x02";

/// Whether a disk whose last call failed, of those that make three puts durable together, has both of two of them or neither
/// when it is served again as it is.
fn is_served_again(alloc: Global, store: &MemDisk, calls: u64) -> Option<bool> {
    let mut fuse = FuseDisk::new(store.crash(0).ok()?, calls);
    let fault = b"\x00\x00\x00\x05\x00\x00\x00\x01!";
    let told = gives(alloc, &mut fuse, &PUTS[..57], fault, Ended::Device);
    let mut disk = fuse.into_inner();
    let (how, sink) = run(alloc, &mut disk, GETS)?;
    Some(told && how == Ended::Done && (sink.bytes() == FOUND || sink.bytes() == ABSENT))
}

#[test]
fn a_disk_that_failed_is_served_as_it_is(rt: HostRuntime) {
    let Some(store) = small_store(rt.alloc()) else {
        assert!(rt; false);
        return;
    };
    let opening = calls_of(rt.alloc(), &store, b"").unwrap_or(0);
    assert!(rt; opening > 0 && opening < 40);
    assert!(rt; is_served_again(rt.alloc(), &store, opening.saturating_add(3)) == Some(true));
}

/// A disk as it is, for choice 3, or as a crash of this choice leaves it.
fn left(disk: MemDisk, choice: u64) -> Option<MemDisk> {
    match choice % 4 {
        0 => disk.crash(0).ok(),
        1 => disk.crash(1).ok(),
        2 => disk.crash(2).ok(),
        _ => Some(disk),
    }
}

/// What an opening leaves of a disk that fails after so many calls, and whether it was done.
fn opened(alloc: Global, disk: MemDisk, calls: u64) -> Option<(MemDisk, bool)> {
    let mut fuse = FuseDisk::new(disk, calls);
    let is_done = match Store::attach(alloc, &mut fuse) {
        Ok(_) => true,
        Err(AttachFault::Device) => false,
        Err(_) => return None,
    };
    Some((fuse.into_inner(), is_done))
}

/// Whether a disk, as it is or after a crash, has the table after a prefix of the changes with all that were acknowledged.
fn keeps(alloc: Global, disk: MemDisk, choice: u64, done: u32) -> bool {
    match left(disk, choice) {
        Some(mut disk) => has_prefix(alloc, &mut disk, plan(4), done, false) == Some(true),
        None => false,
    }
}

/// How many calls an opening of what a crash left may be stopped after, where each leaves such a table.
fn openings(alloc: Global, disk: &MemDisk, choice: u8, done: u32) -> Option<u64> {
    for calls in 0u64..40 {
        let (disk, is_done) = opened(alloc, disk.crash(choice).ok()?, calls)?;
        if !keeps(alloc, disk, calls.saturating_add(u64::from(choice)), done) {
            return None;
        }
        if is_done {
            return Some(calls);
        }
    }
    None
}

/// How many calls an opening may be stopped after of what an opening left that was stopped after so many; and whether that
/// one was done.
fn second_openings(
    alloc: Global,
    disk: &MemDisk,
    choice: u8,
    done: u32,
    first: u64,
) -> Option<(u64, bool)> {
    for calls in 0u64..40 {
        let (disk, is_first) = opened(alloc, disk.crash(choice).ok()?, first)?;
        let between = calls.saturating_add(first);
        let (disk, is_done) = opened(alloc, left(disk, between)?, calls)?;
        if !keeps(alloc, disk, between.saturating_add(calls), done) {
            return None;
        }
        if is_done {
            return Some((calls, is_first));
        }
    }
    None
}

/// How many stops of two openings, one after the other, each leave such a table.
fn pairs_of_openings(alloc: Global, disk: &MemDisk, choice: u8, done: u32) -> Option<u64> {
    let mut stops = 0u64;
    for first in 0u64..40 {
        let (calls, is_first) = second_openings(alloc, disk, choice, done, first)?;
        stops = stops.saturating_add(calls);
        if is_first {
            return Some(stops);
        }
    }
    None
}

/// Whether each crash of a disk leaves such a table after an opening that is stopped at each of its calls.
fn are_opened(alloc: Global, disk: &MemDisk, done: u32) -> bool {
    (0..3).all(|choice| openings(alloc, disk, choice, done).is_some_and(|stops| stops > 3))
}

/// Whether each does after two such openings, one after the other.
fn are_opened_twice(alloc: Global, disk: &MemDisk, done: u32) -> bool {
    (0..3).all(|choice| pairs_of_openings(alloc, disk, choice, done).is_some_and(|stops| stops > 9))
}

/// Whether it is so of what a run leaves that is stopped after each of its first 40 calls, amid an opening, a batch or a
/// checkpoint; of two openings if it is asked for.
fn stops_are_opened(alloc: Global, store: &MemDisk, twice: bool) -> Option<bool> {
    for calls in 0u64..40 {
        let (how, done, disk) = run_stopped(alloc, store, 0, 0, calls, 4096)?;
        let opened = if twice {
            are_opened_twice(alloc, &disk, done)
        } else {
            are_opened(alloc, &disk, done)
        };
        if how != Ended::Device || !opened {
            return Some(false);
        }
    }
    Some(true)
}

#[test]
fn an_opening_may_stop_after_a_stop(rt: HostRuntime) {
    let Some(store) = small_store(rt.alloc()) else {
        assert!(rt; false);
        return;
    };
    assert!(rt; stops_are_opened(rt.alloc(), &store, false) == Some(true));
}

#[test]
fn an_opening_may_stop_after_a_stopped_opening(rt: HostRuntime) {
    let Some(store) = small_store(rt.alloc()) else {
        assert!(rt; false);
        return;
    };
    assert!(rt; stops_are_opened(rt.alloc(), &store, true) == Some(true));
}
