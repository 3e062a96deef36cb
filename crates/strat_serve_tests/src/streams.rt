//! A stream of frames from sources that fail, into sinks that fail, and within a budget.

use crate::support::small_store;
use std::alloc::Global;
use strat_disk::MemDisk;
use strat_io::{MemSink, MemSource};
use strat_model::Ended;
use strat_serve::serve;

/// Puts `a` = `1` at version 0 under tag 7, and asks for `a` and `b` under tags 8 and 9.
const STREAM: &[u8] = b"\x00\x00\x00\x0f\x00\x00\x00\x07\x01\x00\x00\x00\x00\x00\x01a\x00\x011\
\x00\x00\x00\x0c\x00\x00\x00\x08\x03\x00\x00\x00\x00\x00\x01a\
\x00\x00\x00\x0c\x00\x00\x00\x09\x03\x00\x00\x00\x00\x00\x01b";
/// Where the frames of the stream end.
const FRAMES: [usize; 3] = [19, 35, 51];
/// Its replies: done, found with `1`, and absent.
const REPLIES: &[u8] = b"\x00\x00\x00\x05\x00\x00\x00\x07\x00\
\x00\x00\x00\x08\x00\x00\x00\x08\x01\x00\x011\
\x00\x00\x00\x05\x00\x00\x00\x09\x02";
/// Where these end.
const ENDS: [usize; 4] = [0, 9, 21, 30];

/// Whether a source over a fresh copy of a store fills a sink with these bytes, and the run ends so.
fn serves(
    alloc: Global,
    store: &MemDisk,
    source: &mut MemSource,
    output: &[u8],
    ended: Ended,
) -> bool {
    let (Ok(mut disk), Ok(mut sink)) = (store.crash(0), MemSink::new(alloc, &[], 4096)) else {
        return false;
    };
    serve(alloc, source, &mut sink, &mut disk, 100) == ended && sink.bytes() == output
}

/// Whether a source that gives five bytes a call and fails at this one leaves the replies to whole frames.
fn fails_reading(alloc: Global, store: &MemDisk, call: u64) -> bool {
    let read = 5 * (call as usize).min(100).saturating_sub(1);
    let whole = FRAMES.iter().filter(|end| **end <= read).count();
    match (MemSource::new(alloc, STREAM, &[call], 5), ENDS.get(whole)) {
        (Ok(mut source), Some(sent)) if *sent <= 30 => {
            serves(alloc, store, &mut source, &REPLIES[..*sent], Ended::Source)
        }
        _ => false,
    }
}

#[test]
fn a_failing_source_ends_the_run_after_whole_frames(rt: HostRuntime) {
    let Some(store) = small_store(rt.alloc()) else {
        assert!(rt; false);
        return;
    };
    for call in 1..=12 {
        assert!(rt; fails_reading(rt.alloc(), &store, call));
    }
}

/// Whether a sink that takes four bytes a call and fails at this one has just these bytes when the run ends.
fn fails_writing(alloc: Global, store: &MemDisk, input: &[u8], call: u64, sent: &[u8]) -> bool {
    let (Ok(mut disk), Ok(mut source), Ok(mut sink)) = (
        store.crash(0),
        MemSource::new(alloc, input, &[], 4096),
        MemSink::new(alloc, &[call], 4),
    ) else {
        return false;
    };
    serve(alloc, &mut source, &mut sink, &mut disk, 100) == Ended::Sink && sink.bytes() == sent
}

// The replies leave together, and such a sink takes them in eight calls.
#[test]
fn a_failing_sink_ends_the_run_within_a_reply(rt: HostRuntime) {
    let Some(store) = small_store(rt.alloc()) else {
        assert!(rt; false);
        return;
    };
    for (call, sent) in [
        (1, 0),
        (2, 4),
        (3, 8),
        (4, 12),
        (5, 16),
        (6, 20),
        (7, 24),
        (8, 28),
    ] {
        assert!(rt; fails_writing(rt.alloc(), &store, STREAM, call, &REPLIES[..sent]));
    }
    assert!(rt;
        fails_writing(
            rt.alloc(),
            &store,
            b"\x00\x00\x08\x01",
            2,
            b"\x00\x00\x00\x05"
        )
    );
}

/// Whether a run that may read four bytes, three a call, sends these and ends so.
fn is_bounded(alloc: Global, store: &MemDisk, input: &[u8], output: &[u8], ended: Ended) -> bool {
    let (Ok(mut disk), Ok(mut source), Ok(mut sink)) = (
        store.crash(0),
        MemSource::new(alloc, input, &[], 3),
        MemSink::new(alloc, &[], 4096),
    ) else {
        return false;
    };
    serve(alloc, &mut source, &mut sink, &mut disk, 4) == ended && sink.bytes() == output
}

#[test]
fn the_budget_ends_the_run_after_whole_frames(rt: HostRuntime) {
    let Some(store) = small_store(rt.alloc()) else {
        assert!(rt; false);
        return;
    };
    let malformed = b"\x00\x00\x00\x05\x00\x00\x00\x00\x16";
    let too_long = b"\x00\x00\x00\x05\x00\x00\x00\x00\x1a";
    assert!(rt;
        is_bounded(
            rt.alloc(),
            &store,
            b"\x00\x00\x00\x00\xff\xff",
            malformed,
            Ended::Budget
        )
    );
    assert!(rt;
        is_bounded(
            rt.alloc(),
            &store,
            b"\x00\x00\x08\x01",
            too_long,
            Ended::FrameTooLong
        )
    );
    assert!(rt;
        is_bounded(
            rt.alloc(),
            &store,
            b"\x00\x00\x00\x09more",
            b"",
            Ended::Budget
        )
    );
    assert!(rt; is_bounded(rt.alloc(), &store, b"\x00\x00", b"", Ended::Truncated));
}

#[test]
fn each_end_has_its_status(rt: HostRuntime) {
    for (ended, status) in [
        (Ended::Done, 0),
        (Ended::Usage, 1),
        (Ended::NotAStore, 2),
        (Ended::FrameTooLong, 3),
        (Ended::Truncated, 4),
        (Ended::Device, 5),
        (Ended::Source, 6),
        (Ended::Sink, 7),
        (Ended::NoMemory, 8),
        (Ended::Damaged { block: 6 }, 9),
        (Ended::Budget, 10),
        (Ended::Unsound, 11),
        (Ended::UnknownVersion, 12),
    ] {
        assert!(rt; ended.status() == status);
    }
}
