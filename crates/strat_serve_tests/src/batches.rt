//! Changes that come together: what they cost, and what a device leaves that fails at them.

use crate::support::{PUTS, calls_of, gives, left_by, small_store};
use std::alloc::Global;
use strat_disk::{FuseDisk, MemDisk};
use strat_model::Ended;

/// Clones version 0, drops version 1, and puts `a` = `1` at version 0, under tags 1 to 3.
const DROP_BETWEEN: &[u8] = b"\x00\x00\x00\x09\x00\x00\x00\x01\x04\x00\x00\x00\x00\
\x00\x00\x00\x09\x00\x00\x00\x02\x0b\x00\x00\x00\x01\
\x00\x00\x00\x0f\x00\x00\x00\x03\x01\x00\x00\x00\x00\x00\x01a\x00\x011";
/// The replies to these: the new version is 1, done, done.
const ALL_MADE: &[u8] = b"\x00\x00\x00\x09\x00\x00\x00\x01\x04\x00\x00\x00\x01\
\x00\x00\x00\x05\x00\x00\x00\x02\x00\
\x00\x00\x00\x05\x00\x00\x00\x03\x00";
/// Clones version 0, drops version 1, asks for `a` there, puts it there, and drops version 0, under tags 1 to 5.
const AT_DROPPED: &[u8] = b"\x00\x00\x00\x09\x00\x00\x00\x01\x04\x00\x00\x00\x00\
\x00\x00\x00\x09\x00\x00\x00\x02\x0b\x00\x00\x00\x01\
\x00\x00\x00\x0c\x00\x00\x00\x03\x03\x00\x00\x00\x01\x00\x01a\
\x00\x00\x00\x0f\x00\x00\x00\x04\x01\x00\x00\x00\x01\x00\x01a\x00\x011\
\x00\x00\x00\x09\x00\x00\x00\x05\x0b\x00\x00\x00\x00";
/// The replies to these: the new version is 1, done, unknown version twice, and the root.
const ALL_TOLD: &[u8] = b"\x00\x00\x00\x09\x00\x00\x00\x01\x04\x00\x00\x00\x01\
\x00\x00\x00\x05\x00\x00\x00\x02\x00\
\x00\x00\x00\x05\x00\x00\x00\x03\x10\
\x00\x00\x00\x05\x00\x00\x00\x04\x10\
\x00\x00\x00\x05\x00\x00\x00\x05\x1b";

/// The first three of the four puts.
fn three_puts() -> &'static [u8] {
    &PUTS[..57]
}

/// Whether three puts in one piece, on a disk that fails after so many calls, are answered by one fault under the first one's
/// tag; and each crash then leaves none of them, or all where it may.
fn fail_together(alloc: Global, store: &MemDisk, calls: u64, all: bool) -> bool {
    let Ok(disk) = store.crash(0) else {
        return false;
    };
    let mut disk = FuseDisk::new(disk, calls);
    let fault = b"\x00\x00\x00\x05\x00\x00\x00\x01!";
    let told = gives(alloc, &mut disk, three_puts(), fault, Ended::Device);
    let disk = disk.into_inner();
    told && (0..3).all(|choice| match left_by(alloc, &disk, choice) {
        Some(0) => true,
        Some(3) => all,
        _ => false,
    })
}

// A batch makes two writes and two syncs, whatever the number of its changes.
#[test]
fn three_puts_in_one_piece_fail_together(rt: HostRuntime) {
    let Some(store) = small_store(rt.alloc()) else {
        assert!(rt; false);
        return;
    };
    let opening = calls_of(rt.alloc(), &store, b"").unwrap_or(0);
    assert!(rt; opening > 0 && opening < 40);
    assert!(rt; calls_of(rt.alloc(), &store, three_puts()) == opening.checked_add(4));
    assert!(rt; fail_together(rt.alloc(), &store, opening, false));
    assert!(rt; fail_together(rt.alloc(), &store, opening.saturating_add(3), true));
}

/// Whether a run over a fresh copy of a store that is given these bytes in one piece sends those.
fn gives_together(alloc: Global, store: &MemDisk, input: &[u8], output: &[u8]) -> bool {
    match store.crash(0) {
        Ok(mut disk) => gives(alloc, &mut disk, input, output, Ended::Done),
        Err(_) => false,
    }
}

// The put waits for the drop in its own batch, and both are durable together.
#[test]
fn a_drop_is_in_a_batch_with_what_it_allows(rt: HostRuntime) {
    let Some(store) = small_store(rt.alloc()) else {
        assert!(rt; false);
        return;
    };
    let opening = calls_of(rt.alloc(), &store, b"").unwrap_or(0);
    assert!(rt; opening > 0);
    assert!(rt; calls_of(rt.alloc(), &store, DROP_BETWEEN) == opening.checked_add(4));
    assert!(rt; gives_together(rt.alloc(), &store, DROP_BETWEEN, ALL_MADE));
}

#[test]
fn a_version_is_unknown_to_what_comes_with_its_drop(rt: HostRuntime) {
    let Some(store) = small_store(rt.alloc()) else {
        assert!(rt; false);
        return;
    };
    assert!(rt; gives_together(rt.alloc(), &store, AT_DROPPED, ALL_TOLD));
}
