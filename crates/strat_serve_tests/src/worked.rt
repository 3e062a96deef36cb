//! A worked stream: fourteen changes, which fill the journal three times and empty it twice, with a cursor that is opened, paged
//! through and closed among them. Each call of its source, its sink and its disk fails in turn, and its bytes are cut at each place.

use crate::scripts::Script;
use crate::stops::{Plan, Run, has_prefix};
use crate::support::{run_in_pieces, small_store};
use std::alloc::Global;
use strat_disk::{Disk, FuseDisk, MemDisk};
use strat_io::{MemSink, MemSource};
use strat_model::Ended;
use strat_serve::serve;

/// Puts `a` and `b`, opens a cursor, overwrites `a`, deletes `b`, puts `c`, asks the cursor for two pages, closes it twice, and
/// puts `d` to `l`.
pub const WORKED: &[u8] = b"\
\x00\x00\x00\x0f\x00\x00\x00\x0b\x01\x00\x00\x00\x00\x00\x01a\x00\x011\
\x00\x00\x00\x0f\x00\x00\x00\x0c\x01\x00\x00\x00\x00\x00\x01b\x00\x012\
\x00\x00\x00\x0d\x00\x00\x00\x01\x07\x00\x00\x00\x00\x00\x00\x00\x00\
\x00\x00\x00\x0f\x00\x00\x00\x0d\x01\x00\x00\x00\x00\x00\x01a\x00\x019\
\x00\x00\x00\x0c\x00\x00\x00\x0e\x02\x00\x00\x00\x00\x00\x01b\
\x00\x00\x00\x0f\x00\x00\x00\x0f\x01\x00\x00\x00\x00\x00\x01c\x00\x013\
\x00\x00\x00\x0f\x00\x00\x00\x02\x08\x00\x00\x00\x00\x00\x00\x00\x01\x01\x00\
\x00\x00\x00\x0f\x00\x00\x00\x03\x08\x00\x00\x00\x00\x00\x00\x00\x01\x01\x00\
\x00\x00\x00\x0d\x00\x00\x00\x04\x09\x00\x00\x00\x00\x00\x00\x00\x01\
\x00\x00\x00\x0d\x00\x00\x00\x05\x09\x00\x00\x00\x00\x00\x00\x00\x01\
\x00\x00\x00\x0f\x00\x00\x00\x10\x01\x00\x00\x00\x00\x00\x01d\x00\x011\
\x00\x00\x00\x0f\x00\x00\x00\x11\x01\x00\x00\x00\x00\x00\x01e\x00\x011\
\x00\x00\x00\x0f\x00\x00\x00\x12\x01\x00\x00\x00\x00\x00\x01f\x00\x011\
\x00\x00\x00\x0f\x00\x00\x00\x13\x01\x00\x00\x00\x00\x00\x01g\x00\x011\
\x00\x00\x00\x0f\x00\x00\x00\x14\x01\x00\x00\x00\x00\x00\x01h\x00\x011\
\x00\x00\x00\x0f\x00\x00\x00\x15\x01\x00\x00\x00\x00\x00\x01i\x00\x011\
\x00\x00\x00\x0f\x00\x00\x00\x16\x01\x00\x00\x00\x00\x00\x01j\x00\x011\
\x00\x00\x00\x0f\x00\x00\x00\x17\x01\x00\x00\x00\x00\x00\x01k\x00\x011\
\x00\x00\x00\x0f\x00\x00\x00\x18\x01\x00\x00\x00\x00\x00\x01l\x00\x011";
/// The replies to these.
const REPLIES: &[u8] = b"\
\x00\x00\x00\x05\x00\x00\x00\x0b\x00\
\x00\x00\x00\x05\x00\x00\x00\x0c\x00\
\x00\x00\x00\x0d\x00\x00\x00\x01\x06\x00\x00\x00\x00\x00\x00\x00\x01\
\x00\x00\x00\x05\x00\x00\x00\x0d\x00\
\x00\x00\x00\x05\x00\x00\x00\x0e\x00\
\x00\x00\x00\x05\x00\x00\x00\x0f\x00\
\x00\x00\x00\x14\x00\x00\x00\x02\x03\x00\x00\x02\x00\x01a\x00\x011\x00\x01b\x00\x012\
\x00\x00\x00\x08\x00\x00\x00\x03\x03\x00\x00\x00\
\x00\x00\x00\x05\x00\x00\x00\x04\x00\
\x00\x00\x00\x05\x00\x00\x00\x05\x12\
\x00\x00\x00\x05\x00\x00\x00\x10\x00\
\x00\x00\x00\x05\x00\x00\x00\x11\x00\
\x00\x00\x00\x05\x00\x00\x00\x12\x00\
\x00\x00\x00\x05\x00\x00\x00\x13\x00\
\x00\x00\x00\x05\x00\x00\x00\x14\x00\
\x00\x00\x00\x05\x00\x00\x00\x15\x00\
\x00\x00\x00\x05\x00\x00\x00\x16\x00\
\x00\x00\x00\x05\x00\x00\x00\x17\x00\
\x00\x00\x00\x05\x00\x00\x00\x18\x00";
/// Where each frame ends, and its reply; nothing at first.
const ENDS: [(usize, usize); 20] = [
    (0, 0),
    (19, 9),
    (38, 18),
    (55, 35),
    (74, 44),
    (90, 53),
    (109, 62),
    (128, 86),
    (147, 98),
    (164, 107),
    (181, 116),
    (200, 125),
    (219, 134),
    (238, 143),
    (257, 152),
    (276, 161),
    (295, 170),
    (314, 179),
    (333, 188),
    (352, 197),
];
/// Where the replies to the changes begin.
const CHANGES: [usize; 14] = [
    0, 9, 35, 44, 53, 116, 125, 134, 143, 152, 161, 170, 179, 188,
];
/// What a run may read here.
const BUDGET: u64 = 100_000;

/// The changes of the stream, of which so many at most are made and not acknowledged: four become durable together, and the
/// replies to sixteen wait for a sink.
pub(crate) fn plan(batch: u32) -> Plan {
    Plan {
        run: Run::Changes,
        script: Script::Worked,
        most: 14,
        look: Script::LookWorked,
        looks: 12,
        batch,
    }
}

/// How many changes a sink acknowledges that has a front of the replies, and behind it the device's fault where that ended the
/// run at a command.
fn acknowledged(sent: &[u8], how: &Ended) -> Option<u32> {
    let told = match how {
        Ended::Device if !sent.is_empty() && sent.last() != Some(&0x21) => return None,
        Ended::Device => sent.len().saturating_sub(9),
        _ => sent.len(),
    };
    if told > sent.len() || told > REPLIES.len() || sent[..told] != REPLIES[..told] {
        return None;
    }
    let begun = CHANGES.iter().filter(|start| **start < told).count();
    Some(begun.min(14) as u32)
}

/// How a run over a disk ends whose source fails at one call and whose sink at another, 0 for none, and what the sink has.
fn run_failing<D: Disk>(
    alloc: Global,
    disk: &mut D,
    reads: u64,
    writes: u64,
    piece: usize,
) -> Option<(Ended, MemSink)> {
    let mut source = MemSource::new(alloc, WORKED, &[reads], piece.max(1)).ok()?;
    let mut sink = MemSink::new(alloc, &[writes], 7).ok()?;
    let how = serve(alloc, &mut source, &mut sink, disk, BUDGET);
    Some((how, sink))
}

/// Serves the stream on a copy of a store's disk that fails after so many calls: how that ends, how many changes are
/// acknowledged, and the disk.
pub fn run_stopped(
    alloc: Global,
    store: &MemDisk,
    reads: u64,
    writes: u64,
    calls: u64,
    piece: usize,
) -> Option<(Ended, u32, MemDisk)> {
    let mut fuse = FuseDisk::new(store.crash(0).ok()?, calls);
    let (how, sink) = run_failing(alloc, &mut fuse, reads, writes, piece)?;
    let done = acknowledged(sink.bytes(), &how)?;
    Some((how, done, fuse.into_inner()))
}

/// Whether a crash of this choice leaves the table after a prefix of the changes with all that were acknowledged, and so many
/// more at most, and a run goes on from it.
fn leaves(alloc: Global, disk: &MemDisk, choice: u8, done: u32, more: u32) -> bool {
    match disk.crash(choice) {
        Ok(mut after) => has_prefix(alloc, &mut after, plan(more), done, true) == Some(true),
        Err(_) => false,
    }
}

/// Whether each crash does, and the disk as it is.
fn leaves_table(alloc: Global, disk: &mut MemDisk, done: u32, more: u32) -> bool {
    (0..3).all(|choice| leaves(alloc, disk, choice, done, more))
        && has_prefix(alloc, disk, plan(more), done, true) == Some(true)
}

/// What fails at one of its calls.
#[derive(Clone, Copy)]
enum Part {
    Source,
    Sink,
    Device,
}

/// How a run ends where this part fails at this call, if such a table is left then.
fn fails_at(alloc: Global, store: &MemDisk, part: Part, call: u64, piece: usize) -> Option<Ended> {
    let (reads, writes, calls, more) = match part {
        Part::Source => (call, 0, 100_000, 4),
        Part::Sink => (0, call, 100_000, 16),
        Part::Device => (0, 0, call.saturating_sub(1), 4),
    };
    let (how, done, mut disk) = run_stopped(alloc, store, reads, writes, calls, piece)?;
    leaves_table(alloc, &mut disk, done, more).then_some(how)
}

/// The first call at which this part does not fail, as the run has ended; at each one before that, it ends so.
fn calls_failed(
    alloc: Global,
    store: &MemDisk,
    part: Part,
    fault: Ended,
    piece: usize,
) -> Option<u64> {
    for call in 1..400 {
        let how = fails_at(alloc, store, part, call, piece)?;
        if how == Ended::Done {
            return Some(call);
        }
        if how != fault {
            return None;
        }
    }
    None
}

// 352 bytes are read in 19 pieces or in one, and then comes the end.
#[test]
fn each_read_of_the_source_fails(rt: HostRuntime) {
    let Some(store) = small_store(rt.alloc()) else {
        assert!(rt; false);
        return;
    };
    for (piece, calls) in [(19, 21), (4096, 3)] {
        assert!(rt;
            calls_failed(rt.alloc(), &store, Part::Source, Ended::Source, piece) == Some(calls)
        );
    }
}

// The sink takes seven bytes a call, so 29 calls at the least.
#[test]
fn each_write_of_the_sink_fails(rt: HostRuntime) {
    let Some(store) = small_store(rt.alloc()) else {
        assert!(rt; false);
        return;
    };
    for piece in [19, 4096] {
        let calls = calls_failed(rt.alloc(), &store, Part::Sink, Ended::Sink, piece);
        assert!(rt; calls.is_some_and(|calls| calls > 29));
    }
}

#[test]
fn each_call_of_the_disk_fails(rt: HostRuntime) {
    let Some(store) = small_store(rt.alloc()) else {
        assert!(rt; false);
        return;
    };
    for piece in [19, 4096] {
        let calls = calls_failed(rt.alloc(), &store, Part::Device, Ended::Device, piece);
        assert!(rt; calls.is_some_and(|calls| calls > 40));
    }
}

/// Where the whole frames among the first so many bytes end, and the replies to them.
fn whole(len: usize) -> Option<(usize, usize)> {
    let frames = ENDS.iter().filter(|ends| ends.0 <= len).count();
    ENDS.get(frames.saturating_sub(1)).copied()
}

/// Whether the first so many bytes of the stream, so many at a time, give the replies to its whole frames, and the run ends so.
fn is_cut(alloc: Global, store: &MemDisk, len: usize, piece: usize) -> bool {
    let (Ok(mut disk), Some((end, sent))) = (store.crash(0), whole(len)) else {
        return false;
    };
    if len > WORKED.len() || sent > REPLIES.len() {
        return false;
    }
    let ended = if end == len {
        Ended::Done
    } else {
        Ended::Truncated
    };
    match run_in_pieces(alloc, &mut disk, &WORKED[..len], piece.max(1)) {
        Some((how, sink)) => how == ended && sink.bytes() == &REPLIES[..sent],
        None => false,
    }
}

/// Whether it is so of each front of the stream.
fn is_cut_anywhere(alloc: Global, store: &MemDisk, piece: usize) -> bool {
    for len in 0..WORKED.len() + 1 {
        if !is_cut(alloc, store, len, piece) {
            return false;
        }
    }
    true
}

#[test]
fn a_stream_may_be_cut_anywhere(rt: HostRuntime) {
    let Some(store) = small_store(rt.alloc()) else {
        assert!(rt; false);
        return;
    };
    for piece in [1, 7, 4096] {
        assert!(rt; is_cut_anywhere(rt.alloc(), &store, piece));
    }
}
