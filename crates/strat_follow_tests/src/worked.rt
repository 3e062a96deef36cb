//! The worked frames, and what a leader sends read by a follower.

use crate::support::{
    CHANGES, PUTS, answers, count_status, follow_all, lead_all, sends, small_store,
};
use std::alloc::Global;
use strat_disk::MemDisk;
use strat_model::Ended;

/// The first put of a store, twice, one with number 2, and two bytes that are no change.
const FRAMES: &[u8] = b"\x00\x00\x00\x0e\x00\x00\x00\x00\x01\x00\x00\x00\x00\x01a\x00\x011\
\x00\x00\x00\x0e\x00\x00\x00\x00\x01\x00\x00\x00\x00\x01a\x00\x011\
\x00\x00\x00\x0e\x00\x00\x00\x02\x01\x00\x00\x00\x00\x01a\x00\x011\
\x00\x00\x00\x02\xaa\xbb";
/// Taken, old, too early, and malformed; the next number is 1.
const RECEIPTS: &[u8] = b"\x00\x00\x00\x0a\x00\x00\x00\x00\x00\x00\x00\x00\x01\x00\
\x00\x00\x00\x0a\x00\x00\x00\x00\x01\x00\x00\x00\x01\x00\
\x00\x00\x00\x0a\x00\x00\x00\x02\x02\x00\x00\x00\x01\x00\
\x00\x00\x00\x0a\x00\x00\x00\x00\x03\x00\x00\x00\x01\x00";
/// Puts `a` = `1` and asks for it.
const PUT_AND_GET: &[u8] = b"\x00\x00\x00\x0f\x00\x00\x00\x07\x01\x00\x00\x00\x00\x00\x01a\x00\x011\
\x00\x00\x00\x0c\x00\x00\x00\x08\x03\x00\x00\x00\x00\x00\x01a";
/// A put at a version that is not there, and a drop of version 0, as the first changes.
const REFUSED: &[u8] = b"\x00\x00\x00\x0e\x00\x00\x00\x00\x01\x00\x00\x00\x09\x01a\x00\x011\
\x00\x00\x00\x09\x00\x00\x00\x00\x04\x00\x00\x00\x00";
/// Both are refused, one as of an unknown version, one as of the root.
const REFUSALS: &[u8] = b"\x00\x00\x00\x0a\x00\x00\x00\x00\x04\x00\x00\x00\x00\x10\
\x00\x00\x00\x0a\x00\x00\x00\x00\x04\x00\x00\x00\x00\x1b";
/// Clones version 0, and drops version 1.
const CLONE_AND_DROP: &[u8] = b"\x00\x00\x00\x09\x00\x00\x00\x07\x04\x00\x00\x00\x00\
\x00\x00\x00\x09\x00\x00\x00\x08\x0b\x00\x00\x00\x01";
/// The frames of these two changes.
const DROPPED: &[u8] = b"\x00\x00\x00\x09\x00\x00\x00\x00\x03\x00\x00\x00\x00\
\x00\x00\x00\x09\x00\x00\x00\x01\x04\x00\x00\x00\x01";
/// Behind them a put at the version that was dropped.
const PUT_AT_DROPPED: &[u8] = b"\x00\x00\x00\x0e\x00\x00\x00\x02\x01\x00\x00\x00\x01\x01a\x00\x011";
/// Two changes that were taken; the next number is 2.
const TWO_TAKEN: &[u8] = b"\x00\x00\x00\x0a\x00\x00\x00\x00\x00\x00\x00\x00\x01\x00\
\x00\x00\x00\x0a\x00\x00\x00\x01\x00\x00\x00\x00\x02\x00";
/// One that is refused, as of an unknown version.
const NO_LONGER_THERE: &[u8] = b"\x00\x00\x00\x0a\x00\x00\x00\x02\x04\x00\x00\x00\x02\x10";

#[test]
fn a_follower_answers_by_the_number(rt: HostRuntime) {
    let Some(mut disk) = small_store(rt.alloc()) else {
        assert!(rt; false);
        return;
    };
    assert!(rt; answers(rt.alloc(), &mut disk, FRAMES, RECEIPTS, Ended::Done));
}

#[test]
fn a_follower_refuses_as_its_table_does(rt: HostRuntime) {
    let Some(mut disk) = small_store(rt.alloc()) else {
        assert!(rt; false);
        return;
    };
    assert!(rt; answers(rt.alloc(), &mut disk, REFUSED, REFUSALS, Ended::Done));
}

/// Whether a leader sends a clone and a drop, and a follower takes both and knows the dropped version no more.
fn drops_are_followed(alloc: Global, leader: &mut MemDisk, follower: &mut MemDisk) -> bool {
    sends(alloc, leader, CLONE_AND_DROP, DROPPED, Ended::Done)
        && sends(alloc, leader, b"", DROPPED, Ended::Done)
        && answers(alloc, follower, DROPPED, TWO_TAKEN, Ended::Done)
        && answers(
            alloc,
            follower,
            PUT_AT_DROPPED,
            NO_LONGER_THERE,
            Ended::Done,
        )
}

#[test]
fn a_follower_drops_what_its_leader_drops(rt: HostRuntime) {
    let (Some(mut leader), Some(mut follower)) = (small_store(rt.alloc()), small_store(rt.alloc()))
    else {
        assert!(rt; false);
        return;
    };
    assert!(rt; drops_are_followed(rt.alloc(), &mut leader, &mut follower));
}

/// Whether a leader sends the change of a put and nothing for a get, and the change again as it starts anew.
fn sends_its_change(alloc: Global, disk: &mut MemDisk) -> bool {
    sends(alloc, disk, PUT_AND_GET, &CHANGES[..18], Ended::Done)
        && sends(alloc, disk, b"", &CHANGES[..18], Ended::Done)
}

#[test]
fn a_leader_sends_its_changes_alone(rt: HostRuntime) {
    let Some(mut disk) = small_store(rt.alloc()) else {
        assert!(rt; false);
        return;
    };
    assert!(rt; sends_its_change(rt.alloc(), &mut disk));
}

/// Whether a follower takes what a leader sent, and knows all of what that sends as it starts anew: five changes, four of which
/// fill the active region of the leader's journal.
fn follows_leader(alloc: Global, leader: &mut MemDisk, follower: &mut MemDisk) -> Option<bool> {
    let (_, first) = lead_all(alloc, leader, PUTS)?;
    let (_, again) = lead_all(alloc, leader, b"")?;
    let (_, receipts) = follow_all(alloc, follower, first.bytes())?;
    let (_, known) = follow_all(alloc, follower, again.bytes())?;
    Some(
        first.bytes() == CHANGES
            && again.bytes() == CHANGES
            && count_status(receipts.bytes(), 0) == 5
            && count_status(known.bytes(), 1) == 5,
    )
}

#[test]
fn a_follower_takes_what_a_leader_sends(rt: HostRuntime) {
    let (Some(mut leader), Some(mut follower)) = (small_store(rt.alloc()), small_store(rt.alloc()))
    else {
        assert!(rt; false);
        return;
    };
    assert!(rt; follows_leader(rt.alloc(), &mut leader, &mut follower) == Some(true));
}
