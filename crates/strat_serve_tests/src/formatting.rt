//! A new store on a disk that fails and crashes.

ghost use Rattle.std.specs.Prelude.{◌≤◌};

use crate::support::{gives, left_by, old_store, small_store};
use std::alloc::Global;
use strat_disk::{FuseDisk, MemDisk};
use strat_model::Ended;
use strat_store::{FormatFault, format};

/// What a new store of format 1 begins with, whose manifest has 29 bytes, and whose limits are 4, 100 and 10.
const OLD_SLOT: &[u8] = b"\xa7STRATBT1\x00\x01\x00\x00\x00\x00\x00\x00\x00\x01\x00\x00\x00\x06\
\x00\x00\x00\x1d\x00\x00\x00\x00\x04\x00\x00\x00\x64\x00\x00\x00\x0a";
/// The same in format 2, in which it has 38.
const NEW_SLOT: &[u8] = b"\xa7STRATBT1\x00\x02\x00\x00\x00\x00\x00\x00\x00\x01\x00\x00\x00\x06\
\x00\x00\x00\x26\x00\x00\x00\x00\x04\x00\x00\x00\x64\x00\x00\x00\x0a";

/// Whether a crash of this choice leaves no store, or a new one; the new one where formatting was done.
fn leaves_none_or_new(alloc: Global, disk: &MemDisk, choice: u8, is_done: bool) -> bool {
    let Ok(mut after) = disk.crash(choice) else {
        return false;
    };
    if gives(alloc, &mut after, b"", b"", Ended::NotAStore) {
        return !is_done;
    }
    left_by(alloc, disk, choice) == Some(0)
}

/// Formats an empty disk that fails after so many calls, and says whether it was done, where each crash leaves no store or
/// a new one.
fn format_behind_fuse(alloc: Global, number: u16, calls: u64) -> Option<bool>
    requires fits { (1 ≤ number) × (number ≤ 2) }
{
    let mut disk = FuseDisk::new(MemDisk::new(alloc, &[]).ok()?, calls);
    let is_done = match format(alloc, &mut disk, number, 4, 100, 10) {
        Ok(()) => true,
        Err(FormatFault::Device) => false,
        Err(FormatFault::NoMemory) => return None,
    };
    let disk = disk.into_inner();
    let leaves = (0..3).all(|choice| leaves_none_or_new(alloc, &disk, choice, is_done));
    leaves.then_some(is_done)
}

/// After how many calls it is done, where each stop leaves no store or a new one.
fn formatting_calls(alloc: Global, number: u16) -> Option<u64>
    requires fits { (1 ≤ number) × (number ≤ 2) }
{
    for calls in 0..40 {
        if format_behind_fuse(alloc, number, calls)? {
            return Some(calls);
        }
    }
    None
}

#[test]
fn a_stopped_formatting_leaves_no_store_or_a_new_one(rt: HostRuntime) {
    assert!(rt; formatting_calls(rt.alloc(), 1).is_some_and(|calls| calls > 3));
    assert!(rt; formatting_calls(rt.alloc(), 2).is_some_and(|calls| calls > 3));
}

/// Whether a disk begins with these bytes.
fn begins_with(disk: Option<MemDisk>, bytes: &[u8]) -> bool {
    match disk {
        Some(disk) => disk.bytes().starts_with(bytes),
        None => false,
    }
}

#[test]
fn the_first_slot_has_the_format(rt: HostRuntime) {
    assert!(rt; begins_with(old_store(rt.alloc()), OLD_SLOT));
    assert!(rt; begins_with(small_store(rt.alloc()), NEW_SLOT));
}
