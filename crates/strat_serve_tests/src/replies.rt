//! Replies to frames that come together: in how many writes they leave, and what a sink has that fails amid them.

ghost use Rattle.std.specs.Prelude.{◌<◌};

use crate::support::{puts_on, small_store};
use std::alloc::Global;
use strat_disk::MemDisk;
use strat_io::{MemSink, MemSource};
use strat_model::Ended;
use strat_serve::serve;

/// Asks for `a` sixteen times, under tags 1 to 16.
const SIXTEEN_GETS: &[u8] = b"\
\x00\x00\x00\x0c\x00\x00\x00\x01\x03\x00\x00\x00\x00\x00\x01a\
\x00\x00\x00\x0c\x00\x00\x00\x02\x03\x00\x00\x00\x00\x00\x01a\
\x00\x00\x00\x0c\x00\x00\x00\x03\x03\x00\x00\x00\x00\x00\x01a\
\x00\x00\x00\x0c\x00\x00\x00\x04\x03\x00\x00\x00\x00\x00\x01a\
\x00\x00\x00\x0c\x00\x00\x00\x05\x03\x00\x00\x00\x00\x00\x01a\
\x00\x00\x00\x0c\x00\x00\x00\x06\x03\x00\x00\x00\x00\x00\x01a\
\x00\x00\x00\x0c\x00\x00\x00\x07\x03\x00\x00\x00\x00\x00\x01a\
\x00\x00\x00\x0c\x00\x00\x00\x08\x03\x00\x00\x00\x00\x00\x01a\
\x00\x00\x00\x0c\x00\x00\x00\x09\x03\x00\x00\x00\x00\x00\x01a\
\x00\x00\x00\x0c\x00\x00\x00\x0a\x03\x00\x00\x00\x00\x00\x01a\
\x00\x00\x00\x0c\x00\x00\x00\x0b\x03\x00\x00\x00\x00\x00\x01a\
\x00\x00\x00\x0c\x00\x00\x00\x0c\x03\x00\x00\x00\x00\x00\x01a\
\x00\x00\x00\x0c\x00\x00\x00\x0d\x03\x00\x00\x00\x00\x00\x01a\
\x00\x00\x00\x0c\x00\x00\x00\x0e\x03\x00\x00\x00\x00\x00\x01a\
\x00\x00\x00\x0c\x00\x00\x00\x0f\x03\x00\x00\x00\x00\x00\x01a\
\x00\x00\x00\x0c\x00\x00\x00\x10\x03\x00\x00\x00\x00\x00\x01a";
/// Puts `a` = `1`, asks for it, puts `b` = `2`, and asks for that, under tags 1 to 4.
const IN_TURN: &[u8] = b"\x00\x00\x00\x0f\x00\x00\x00\x01\x01\x00\x00\x00\x00\x00\x01a\x00\x011\
\x00\x00\x00\x0c\x00\x00\x00\x02\x03\x00\x00\x00\x00\x00\x01a\
\x00\x00\x00\x0f\x00\x00\x00\x03\x01\x00\x00\x00\x00\x00\x01b\x00\x012\
\x00\x00\x00\x0c\x00\x00\x00\x04\x03\x00\x00\x00\x00\x00\x01b";
/// The replies to these: done, found with `1`, done, and found with `2`.
const TOLD: &[u8] = b"\x00\x00\x00\x05\x00\x00\x00\x01\x00\
\x00\x00\x00\x08\x00\x00\x00\x02\x01\x00\x011\
\x00\x00\x00\x05\x00\x00\x00\x03\x00\
\x00\x00\x00\x08\x00\x00\x00\x04\x01\x00\x012";

/// How a run over a disk ends that is given these bytes in one piece, into a sink that takes so many bytes a call and fails at
/// this one, and the sink.
fn run_into(
    alloc: Global,
    disk: &mut MemDisk,
    input: &[u8],
    most: usize,
    call: u64,
) -> Option<(Ended, MemSink)>
    requires { 0 < most }
{
    let mut source = MemSource::new(alloc, input, &[], 4096).ok()?;
    let mut sink = MemSink::new(alloc, &[call], most).ok()?;
    let how = serve(alloc, &mut source, &mut sink, disk, 1000);
    Some((how, sink))
}

/// Whether a run over a fresh copy of a store ends so, into a sink that takes all at once and fails at this call, and sends so
/// many bytes.
fn sends(
    alloc: Global,
    store: &MemDisk,
    input: &[u8],
    call: u64,
    ended: Ended,
    len: usize,
) -> bool {
    let Ok(mut disk) = store.crash(0) else {
        return false;
    };
    match run_into(alloc, &mut disk, input, 4096, call) {
        Some((how, sink)) => how == ended && sink.bytes().len() == len,
        None => false,
    }
}

// Where the second write would fail there is none.
#[test]
fn sixteen_gets_in_one_piece_leave_in_one_write(rt: HostRuntime) {
    let Some(store) = small_store(rt.alloc()) else {
        assert!(rt; false);
        return;
    };
    assert!(rt; sends(rt.alloc(), &store, SIXTEEN_GETS, 1, Ended::Sink, 0));
    assert!(rt; sends(rt.alloc(), &store, SIXTEEN_GETS, 2, Ended::Done, 144));
}

/// Whether a sink that takes four bytes a call and fails at this one has the front of the replies to puts and gets in turn, and
/// the store both puts.
fn fails_amid(alloc: Global, store: &MemDisk, call: u64, sent: usize) -> bool {
    let Ok(mut disk) = store.crash(0) else {
        return false;
    };
    if sent > TOLD.len() {
        return false;
    }
    let told = match run_into(alloc, &mut disk, IN_TURN, 4, call) {
        Some((how, sink)) => how == Ended::Sink && sink.bytes() == &TOLD[..sent],
        None => false,
    };
    told && puts_on(alloc, &mut disk) == Some(2)
}

#[test]
fn puts_and_gets_in_turn_leave_in_one_write(rt: HostRuntime) {
    let Some(store) = small_store(rt.alloc()) else {
        assert!(rt; false);
        return;
    };
    assert!(rt; sends(rt.alloc(), &store, IN_TURN, 2, Ended::Done, 42));
    for (call, sent) in [
        (1, 0),
        (2, 4),
        (3, 8),
        (4, 12),
        (5, 16),
        (6, 20),
        (7, 24),
        (8, 28),
        (9, 32),
        (10, 36),
        (11, 40),
    ] {
        assert!(rt; fails_amid(rt.alloc(), &store, call, sent));
    }
}
