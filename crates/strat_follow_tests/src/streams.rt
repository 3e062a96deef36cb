//! Leaders and followers whose source or sink fails at each call in turn, and frames that are too long.

ghost use Rattle.std.specs.Prelude.{◌<◌, ◌≤◌};

use crate::support::{CHANGES, PUTS, answers, lead_all, sends, small_store};
use std::alloc::Global;
use strat_disk::MemDisk;
use strat_follow::{follow, lead};
use strat_io::{MemSink, MemSource};
use strat_model::Ended;

/// A length above the largest.
const LONG: &[u8] = b"\x00\x00\x08\x01";

/// How a follower ends that reads a frame a call, where one call of its source fails and one of its sink, 0 for none, and how
/// many bytes the sink has.
fn follow_failing(
    alloc: Global,
    disk: &mut MemDisk,
    read: u64,
    write: u64,
) -> Option<(Ended, usize)> {
    let mut source = MemSource::new(alloc, CHANGES, &[read], 18).ok()?;
    let mut sink = MemSink::new(alloc, &[write], 4096).ok()?;
    let how = follow(alloc, &mut source, &mut sink, disk, 1000);
    Some((how, sink.bytes().len()))
}

/// The same of a leader.
fn lead_failing(
    alloc: Global,
    disk: &mut MemDisk,
    read: u64,
    write: u64,
) -> Option<(Ended, usize)> {
    let mut source = MemSource::new(alloc, PUTS, &[read], 19).ok()?;
    let mut sink = MemSink::new(alloc, &[write], 4096).ok()?;
    let how = lead(alloc, &mut source, &mut sink, disk, 1000);
    Some((how, sink.bytes().len()))
}

/// Whether a follower and a leader end so where this call of the source or the sink fails, and have sent what came before it.
fn ends_before(alloc: Global, store: &MemDisk, call: u64) -> Option<bool>
    requires { (0 < call) × (call ≤ 5) }
{
    let done = (call - 1) as usize;
    let follow_read = follow_failing(alloc, &mut store.crash(0).ok()?, call, 0)?;
    let follow_write = follow_failing(alloc, &mut store.crash(0).ok()?, 0, call)?;
    let lead_read = lead_failing(alloc, &mut store.crash(0).ok()?, call, 0)?;
    let lead_write = lead_failing(alloc, &mut store.crash(0).ok()?, 0, call)?;
    Some(
        follow_read == (Ended::Source, 14 * done)
            && follow_write == (Ended::Sink, 14 * done)
            && lead_read == (Ended::Source, 18 * done)
            && lead_write == (Ended::Sink, 18 * done),
    )
}

/// Whether it is so with each of the first five calls.
fn each_ends(alloc: Global, store: &MemDisk) -> bool {
    for call in 1..6 {
        if ends_before(alloc, store, call) != Some(true) {
            return false;
        }
    }
    true
}

#[test]
fn a_stream_that_fails_ends_the_run(rt: HostRuntime) {
    let Some(store) = small_store(rt.alloc()) else {
        assert!(rt; false);
        return;
    };
    assert!(rt; each_ends(rt.alloc(), &store));
}

/// Whether a leader whose journal has two changes stops at the second write, before it reads, and sends both as it starts anew.
fn stops_at_journal(alloc: Global, disk: &mut MemDisk) -> Option<bool> {
    lead_all(alloc, disk, &PUTS[..38])?;
    let stopped = lead_failing(alloc, disk, 1, 2)?;
    Some(stopped == (Ended::Sink, 18) && sends(alloc, disk, b"", &CHANGES[..36], Ended::Done))
}

#[test]
fn a_leader_stops_at_its_journal(rt: HostRuntime) {
    let Some(mut disk) = small_store(rt.alloc()) else {
        assert!(rt; false);
        return;
    };
    assert!(rt; stops_at_journal(rt.alloc(), &mut disk) == Some(true));
}

/// Whether a leader that gets five puts at once, over a journal of four changes, writes the frames of the first four
/// before the fifth begins to empty that: its first write fails, and one that starts anew has these four to send.
fn sends_what_was_waiting(alloc: Global, disk: &mut MemDisk) -> Option<bool> {
    let mut source = MemSource::new(alloc, PUTS, &[], 4096).ok()?;
    let mut sink = MemSink::new(alloc, &[1], 4096).ok()?;
    let how = lead(alloc, &mut source, &mut sink, disk, 1000);
    let stopped = how == Ended::Sink && sink.bytes().is_empty();
    Some(stopped && sends(alloc, disk, b"", &CHANGES[..72], Ended::Done))
}

#[test]
fn a_leader_that_is_cut_off_has_its_frames_in_the_journal(rt: HostRuntime) {
    let Some(mut disk) = small_store(rt.alloc()) else {
        assert!(rt; false);
        return;
    };
    assert!(rt; sends_what_was_waiting(rt.alloc(), &mut disk) == Some(true));
}

#[test]
fn a_frame_that_is_too_long_gets_no_answer(rt: HostRuntime) {
    let Some(mut disk) = small_store(rt.alloc()) else {
        assert!(rt; false);
        return;
    };
    assert!(rt; answers(rt.alloc(), &mut disk, LONG, b"", Ended::FrameTooLong));
    assert!(rt; sends(rt.alloc(), &mut disk, LONG, b"", Ended::FrameTooLong));
}
