//! What is written of stores that were served.

use crate::support::{
    format_of, new_store, old_store, run, small_store, tells_check, tells_levels, tells_summary,
};
use std::alloc::Global;
use strat_disk::MemDisk;
use strat_model::Ended;

/// Puts `k01` to `k13` at version 0.
pub const THIRTEEN_PUTS: &[u8] = b"\
\x00\x00\x00\x11\x00\x00\x00\x01\x01\x00\x00\x00\x00\x00\x03k01\x00\x011\
\x00\x00\x00\x11\x00\x00\x00\x02\x01\x00\x00\x00\x00\x00\x03k02\x00\x011\
\x00\x00\x00\x11\x00\x00\x00\x03\x01\x00\x00\x00\x00\x00\x03k03\x00\x011\
\x00\x00\x00\x11\x00\x00\x00\x04\x01\x00\x00\x00\x00\x00\x03k04\x00\x011\
\x00\x00\x00\x11\x00\x00\x00\x05\x01\x00\x00\x00\x00\x00\x03k05\x00\x011\
\x00\x00\x00\x11\x00\x00\x00\x06\x01\x00\x00\x00\x00\x00\x03k06\x00\x011\
\x00\x00\x00\x11\x00\x00\x00\x07\x01\x00\x00\x00\x00\x00\x03k07\x00\x011\
\x00\x00\x00\x11\x00\x00\x00\x08\x01\x00\x00\x00\x00\x00\x03k08\x00\x011\
\x00\x00\x00\x11\x00\x00\x00\x09\x01\x00\x00\x00\x00\x00\x03k09\x00\x011\
\x00\x00\x00\x11\x00\x00\x00\x0a\x01\x00\x00\x00\x00\x00\x03k10\x00\x011\
\x00\x00\x00\x11\x00\x00\x00\x0b\x01\x00\x00\x00\x00\x00\x03k11\x00\x011\
\x00\x00\x00\x11\x00\x00\x00\x0c\x01\x00\x00\x00\x00\x00\x03k12\x00\x011\
\x00\x00\x00\x11\x00\x00\x00\x0d\x01\x00\x00\x00\x00\x00\x03k13\x00\x011";
/// The report after these.
pub const OF_THIRTEEN: &[u8] = b"\
store generation 3 mem 4 changes 13 of 100 versions 1 of 10\n\
journal changes 5 updates 5\n\
level 1 horizon 1 leads 8 entries 8\n\
array 2 density 8/8 lead 8/8 versions 0\n\
stored 13 updates 13 written 12\n";
/// Puts `a` thirteen times.
const ONE_KEY: &[u8] = b"\
\x00\x00\x00\x0f\x00\x00\x00\x01\x01\x00\x00\x00\x00\x00\x01a\x00\x011\
\x00\x00\x00\x0f\x00\x00\x00\x02\x01\x00\x00\x00\x00\x00\x01a\x00\x011\
\x00\x00\x00\x0f\x00\x00\x00\x03\x01\x00\x00\x00\x00\x00\x01a\x00\x011\
\x00\x00\x00\x0f\x00\x00\x00\x04\x01\x00\x00\x00\x00\x00\x01a\x00\x011\
\x00\x00\x00\x0f\x00\x00\x00\x05\x01\x00\x00\x00\x00\x00\x01a\x00\x011\
\x00\x00\x00\x0f\x00\x00\x00\x06\x01\x00\x00\x00\x00\x00\x01a\x00\x011\
\x00\x00\x00\x0f\x00\x00\x00\x07\x01\x00\x00\x00\x00\x00\x01a\x00\x011\
\x00\x00\x00\x0f\x00\x00\x00\x08\x01\x00\x00\x00\x00\x00\x01a\x00\x011\
\x00\x00\x00\x0f\x00\x00\x00\x09\x01\x00\x00\x00\x00\x00\x01a\x00\x011\
\x00\x00\x00\x0f\x00\x00\x00\x0a\x01\x00\x00\x00\x00\x00\x01a\x00\x011\
\x00\x00\x00\x0f\x00\x00\x00\x0b\x01\x00\x00\x00\x00\x00\x01a\x00\x011\
\x00\x00\x00\x0f\x00\x00\x00\x0c\x01\x00\x00\x00\x00\x00\x01a\x00\x011\
\x00\x00\x00\x0f\x00\x00\x00\x0d\x01\x00\x00\x00\x00\x00\x01a\x00\x011";
/// The report after these.
const OF_ONE_KEY: &[u8] = b"\
store generation 3 mem 4 changes 13 of 100 versions 1 of 10\n\
journal changes 5 updates 5\n\
level 1 horizon 1 leads 1 entries 1\n\
array 2 density 1/1 lead 1/1 versions 0\n\
stored 6 updates 13 written 2\n";
/// A line of clones, with `a` at version 1 and `b` twice at version 3.
const LINE: &[u8] = b"\
\x00\x00\x00\x09\x00\x00\x00\x01\x04\x00\x00\x00\x00\
\x00\x00\x00\x0f\x00\x00\x00\x02\x01\x00\x00\x00\x01\x00\x01a\x00\x011\
\x00\x00\x00\x09\x00\x00\x00\x03\x04\x00\x00\x00\x01\
\x00\x00\x00\x09\x00\x00\x00\x04\x04\x00\x00\x00\x02\
\x00\x00\x00\x0f\x00\x00\x00\x05\x01\x00\x00\x00\x03\x00\x01b\x00\x011\
\x00\x00\x00\x0f\x00\x00\x00\x06\x01\x00\x00\x00\x03\x00\x01b\x00\x011";
/// The report after these.
const OF_LINE: &[u8] = b"\
store generation 2 mem 4 changes 6 of 100 versions 4 of 10\n\
journal changes 2 updates 2\n\
level 1 horizon 4 leads 1 entries 1\n\
array 1 density 1/1 lead 1/1 versions 1-3\n\
stored 3 updates 3 written 1\n";
/// Two keys at version 0, of which three versions are made that get a key each; then another of version 1, four times.
const FAN: &[u8] = b"\
\x00\x00\x00\x0f\x00\x00\x00\x01\x01\x00\x00\x00\x00\x00\x01a\x00\x011\
\x00\x00\x00\x0f\x00\x00\x00\x02\x01\x00\x00\x00\x00\x00\x01b\x00\x011\
\x00\x00\x00\x09\x00\x00\x00\x03\x04\x00\x00\x00\x00\
\x00\x00\x00\x09\x00\x00\x00\x04\x04\x00\x00\x00\x00\
\x00\x00\x00\x09\x00\x00\x00\x05\x04\x00\x00\x00\x00\
\x00\x00\x00\x0f\x00\x00\x00\x06\x01\x00\x00\x00\x01\x00\x01c\x00\x011\
\x00\x00\x00\x0f\x00\x00\x00\x07\x01\x00\x00\x00\x02\x00\x01c\x00\x011\
\x00\x00\x00\x0f\x00\x00\x00\x08\x01\x00\x00\x00\x03\x00\x01c\x00\x011\
\x00\x00\x00\x0f\x00\x00\x00\x09\x01\x00\x00\x00\x01\x00\x01d\x00\x011\
\x00\x00\x00\x0f\x00\x00\x00\x0a\x01\x00\x00\x00\x01\x00\x01d\x00\x011\
\x00\x00\x00\x0f\x00\x00\x00\x0b\x01\x00\x00\x00\x01\x00\x01d\x00\x011\
\x00\x00\x00\x0f\x00\x00\x00\x0c\x01\x00\x00\x00\x01\x00\x01d\x00\x011";
/// The report after these.
const OF_FAN: &[u8] = b"\
store generation 2 mem 8 changes 12 of 100 versions 4 of 10\n\
journal changes 4 updates 4\n\
level 1 horizon 4 leads 5 entries 7\n\
array 1 density 2/3 lead 3/3 versions 0-1\n\
array 2 density 3/4 lead 2/4 versions 2-3\n\
stored 11 updates 9 written 7\n";
/// A key that is deleted at version 1, and a key at its child, twice.
const HIDDEN: &[u8] = b"\
\x00\x00\x00\x0f\x00\x00\x00\x01\x01\x00\x00\x00\x00\x00\x01a\x00\x011\
\x00\x00\x00\x09\x00\x00\x00\x02\x04\x00\x00\x00\x00\
\x00\x00\x00\x0c\x00\x00\x00\x03\x02\x00\x00\x00\x01\x00\x01a\
\x00\x00\x00\x09\x00\x00\x00\x04\x04\x00\x00\x00\x01\
\x00\x00\x00\x0f\x00\x00\x00\x05\x01\x00\x00\x00\x02\x00\x01z\x00\x011\
\x00\x00\x00\x0f\x00\x00\x00\x06\x01\x00\x00\x00\x02\x00\x01z\x00\x011";
/// The report after these.
const OF_HIDDEN: &[u8] = b"\
store generation 2 mem 4 changes 6 of 100 versions 3 of 10\n\
journal changes 2 updates 2\n\
level 1 horizon 3 leads 2 entries 3\n\
array 1 density 1/1 lead 1/1 versions 0\n\
array 2 density 1/2 lead 1/2 versions 1-2\n\
stored 5 updates 4 written 3\n";
/// Deletes `x`, which was never put, and puts five keys.
const UNUSED: &[u8] = b"\
\x00\x00\x00\x0c\x00\x00\x00\x01\x02\x00\x00\x00\x00\x00\x01x\
\x00\x00\x00\x0f\x00\x00\x00\x02\x01\x00\x00\x00\x00\x00\x01a\x00\x011\
\x00\x00\x00\x0f\x00\x00\x00\x03\x01\x00\x00\x00\x00\x00\x01b\x00\x011\
\x00\x00\x00\x0f\x00\x00\x00\x04\x01\x00\x00\x00\x00\x00\x01c\x00\x011\
\x00\x00\x00\x0f\x00\x00\x00\x05\x01\x00\x00\x00\x00\x00\x01d\x00\x011\
\x00\x00\x00\x0f\x00\x00\x00\x06\x01\x00\x00\x00\x00\x00\x01e\x00\x011";
/// The report after these.
const OF_UNUSED: &[u8] = b"\
store generation 2 mem 4 changes 6 of 100 versions 1 of 10\n\
journal changes 2 updates 2\n\
level 1 horizon 1 leads 3 entries 3\n\
array 1 density 3/3 lead 3/3 versions 0\n\
stored 5 updates 6 written 3\n";
/// Two settings, and two clones of them with a change each.
const SETTINGS: &[u8] = b"\
\x00\x00\x00\x1b\x00\x00\x00\x01\x01\x00\x00\x00\x00\x00\x0buser/1/name\x00\x03Ann\
\x00\x00\x00\x1b\x00\x00\x00\x02\x01\x00\x00\x00\x00\x00\x0buser/2/name\x00\x03Bob\
\x00\x00\x00\x09\x00\x00\x00\x03\x04\x00\x00\x00\x00\
\x00\x00\x00\x09\x00\x00\x00\x04\x04\x00\x00\x00\x00\
\x00\x00\x00\x1b\x00\x00\x00\x05\x01\x00\x00\x00\x01\x00\x0buser/2/name\x00\x03Rob\
\x00\x00\x00\x16\x00\x00\x00\x06\x02\x00\x00\x00\x02\x00\x0buser/1/name";
/// The report after these.
const OF_SETTINGS: &[u8] = b"\
store generation 1 mem 64 changes 6 of 100000 versions 3 of 100\n\
journal changes 6 updates 4\n\
stored 4 updates 4 written 0\n";
/// A key at version 0, another at its child, which is dropped, and a third at version 0.
const DROPPED: &[u8] = b"\
\x00\x00\x00\x0f\x00\x00\x00\x01\x01\x00\x00\x00\x00\x00\x01a\x00\x011\
\x00\x00\x00\x09\x00\x00\x00\x02\x04\x00\x00\x00\x00\
\x00\x00\x00\x0f\x00\x00\x00\x03\x01\x00\x00\x00\x01\x00\x01b\x00\x012\
\x00\x00\x00\x09\x00\x00\x00\x04\x0b\x00\x00\x00\x01\
\x00\x00\x00\x0f\x00\x00\x00\x05\x01\x00\x00\x00\x00\x00\x01c\x00\x013";
/// The report after these.
const OF_DROPPED: &[u8] = b"\
store generation 1 mem 8 changes 5 of 100 versions 2 of 10\n\
journal changes 5 updates 3\n\
stored 3 updates 3 written 0\n";
/// Two keys at version 0 and one at its child; then the child is dropped, and version 0 gets another key.
const THAWED: &[u8] = b"\
\x00\x00\x00\x0f\x00\x00\x00\x01\x01\x00\x00\x00\x00\x00\x01a\x00\x011\
\x00\x00\x00\x0f\x00\x00\x00\x02\x01\x00\x00\x00\x00\x00\x01b\x00\x011\
\x00\x00\x00\x09\x00\x00\x00\x03\x04\x00\x00\x00\x00\
\x00\x00\x00\x0f\x00\x00\x00\x04\x01\x00\x00\x00\x01\x00\x01c\x00\x011\
\x00\x00\x00\x09\x00\x00\x00\x05\x0b\x00\x00\x00\x01\
\x00\x00\x00\x0f\x00\x00\x00\x06\x01\x00\x00\x00\x00\x00\x01d\x00\x011";
/// The report after these. The child is below the horizon of level 1, and its parent has an update in the journal.
const OF_THAWED: &[u8] = b"\
store generation 2 mem 4 changes 6 of 100 versions 2 of 10\n\
journal changes 2 updates 1\n\
level 1 horizon 2 leads 3 entries 3\n\
array 1 density 2/3 lead 3/3 versions 0-1\n\
stored 4 updates 4 written 3\n";
/// Four more keys at version 0, to be served after these.
const MORE_THAWED: &[u8] = b"\
\x00\x00\x00\x0f\x00\x00\x00\x07\x01\x00\x00\x00\x00\x00\x01e\x00\x011\
\x00\x00\x00\x0f\x00\x00\x00\x08\x01\x00\x00\x00\x00\x00\x01f\x00\x011\
\x00\x00\x00\x0f\x00\x00\x00\x09\x01\x00\x00\x00\x00\x00\x01g\x00\x011\
\x00\x00\x00\x0f\x00\x00\x00\x0a\x01\x00\x00\x00\x00\x00\x01h\x00\x011";
/// The report after all of them. Now the manifest has the drop.
const OF_MORE_THAWED: &[u8] = b"\
store generation 3 mem 4 changes 10 of 100 versions 2 of 10\n\
journal changes 2 updates 2\n\
level 1 horizon 2 leads 6 entries 6\n\
array 2 density 5/6 lead 6/6 versions 0-1\n\
stored 8 updates 8 written 9\n";
/// The report of a small store that is new.
pub const OF_NONE: &[u8] = b"\
store generation 1 mem 4 changes 0 of 100 versions 1 of 10\n\
journal changes 0 updates 0\n\
stored 0 updates 0 written 0\n";
/// The summary of a workload of no changes.
const SUMMARY_OF_NONE: &[u8] = b"\
workload seed 1 changes 0\n\
versions 1 updates 0 clones 0\n\
levels 0 arrays 0 stored 0 written 0\n\
density none\n";
/// The summary of the fan, as if a workload had made it.
const SUMMARY_OF_FAN: &[u8] = b"\
workload seed 18446744073709551615 changes 12\n\
versions 4 updates 9 clones 3\n\
levels 1 arrays 2 stored 11 written 7\n\
density 2/3\n";

/// Whether a store that was served these frames is reported so, and is sound.
fn row(alloc: Global, store: Option<MemDisk>, frames: &[u8], text: &[u8]) -> bool {
    match store {
        Some(mut disk) => {
            run(alloc, &mut disk, frames) == Some(Ended::Done)
                && tells_levels(alloc, &mut disk, text, Ended::Done)
                && tells_check(alloc, &mut disk, b"sound\n", Ended::Done)
        }
        None => false,
    }
}

#[test]
fn small_stores_are_reported(rt: HostRuntime) {
    for (frames, text) in [
        (&THIRTEEN_PUTS[..0], OF_NONE),
        (THIRTEEN_PUTS, OF_THIRTEEN),
        (ONE_KEY, OF_ONE_KEY),
        (LINE, OF_LINE),
        (HIDDEN, OF_HIDDEN),
        (UNUSED, OF_UNUSED),
    ] {
        assert!(rt; row(rt.alloc(), small_store(rt.alloc()), frames, text));
    }
}

#[test]
fn two_arrays_are_reported(rt: HostRuntime) {
    assert!(rt; row(rt.alloc(), new_store(rt.alloc(), 8, 100, 10), FAN, OF_FAN));
}

#[test]
fn a_store_before_any_publication_is_reported(rt: HostRuntime) {
    assert!(rt;
        row(
            rt.alloc(),
            new_store(rt.alloc(), 64, 100_000, 100),
            SETTINGS,
            OF_SETTINGS
        )
    );
}

#[test]
fn a_drop_is_reported(rt: HostRuntime) {
    assert!(rt;
        row(
            rt.alloc(),
            new_store(rt.alloc(), 8, 100, 10),
            DROPPED,
            OF_DROPPED
        )
    );
}

/// Whether version 0 may be changed again after its child was dropped, also when the drop is in the manifest.
fn thaws(alloc: Global, store: Option<MemDisk>) -> bool {
    match store {
        Some(mut disk) => {
            run(alloc, &mut disk, THAWED) == Some(Ended::Done)
                && tells_levels(alloc, &mut disk, OF_THAWED, Ended::Done)
                && tells_check(alloc, &mut disk, b"sound\n", Ended::Done)
                && row(alloc, Some(disk), MORE_THAWED, OF_MORE_THAWED)
        }
        None => false,
    }
}

#[test]
fn a_parent_of_a_dropped_version_is_sound(rt: HostRuntime) {
    assert!(rt; thaws(rt.alloc(), small_store(rt.alloc())));
}

/// Whether a store that was served these frames is summed up so.
fn summed(
    alloc: Global,
    store: Option<MemDisk>,
    frames: &[u8],
    seed: u64,
    count: u32,
    text: &[u8],
) -> bool {
    match store {
        Some(mut disk) => {
            run(alloc, &mut disk, frames) == Some(Ended::Done)
                && tells_summary(alloc, &mut disk, seed, count, text, Ended::Done)
        }
        None => false,
    }
}

#[test]
fn workloads_are_summed_up(rt: HostRuntime) {
    assert!(rt;
        summed(
            rt.alloc(),
            new_store(rt.alloc(), 64, 16_777_216, 16_384),
            b"",
            1,
            0,
            SUMMARY_OF_NONE
        )
    );
    assert!(rt;
        summed(
            rt.alloc(),
            new_store(rt.alloc(), 8, 100, 10),
            FAN,
            18_446_744_073_709_551_615,
            12,
            SUMMARY_OF_FAN
        )
    );
}

/// Whether a store of format 1 is reported as one of format 2 is, and is of format 2 after thirteen puts.
fn moves_on(alloc: Global, store: Option<MemDisk>) -> bool {
    match store {
        Some(mut disk) => {
            tells_levels(alloc, &mut disk, OF_NONE, Ended::Done)
                && tells_check(alloc, &mut disk, b"sound\n", Ended::Done)
                && format_of(&mut disk) == Some(1)
                && row(alloc, disk.crash(0).ok(), ONE_KEY, OF_ONE_KEY)
                && run(alloc, &mut disk, ONE_KEY) == Some(Ended::Done)
                && format_of(&mut disk) == Some(2)
        }
        None => false,
    }
}

#[test]
fn old_stores_are_reported_and_move_on(rt: HostRuntime) {
    assert!(rt; moves_on(rt.alloc(), old_store(rt.alloc())));
}
