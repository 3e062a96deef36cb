//! New stores in memory, and runs over them.

ghost use Rattle.std.specs.Prelude.{◌<◌, ◌≤◌};
ghost use Rattle.def_bytes.specs.SuperBlock.{AreLimits};

use std::alloc::Global;
use strat_disk::{Disk, MemDisk};
use strat_io::{MemSink, MemSource};
use strat_model::Ended;
use strat_serve::serve;
use strat_store::format;

/// Puts `a` = `1` to `d` = `4`, under tags 1 to 4.
pub const PUTS: &[u8] = b"\x00\x00\x00\x0f\x00\x00\x00\x01\x01\x00\x00\x00\x00\x00\x01a\x00\x011\
\x00\x00\x00\x0f\x00\x00\x00\x02\x01\x00\x00\x00\x00\x00\x01b\x00\x012\
\x00\x00\x00\x0f\x00\x00\x00\x03\x01\x00\x00\x00\x00\x00\x01c\x00\x013\
\x00\x00\x00\x0f\x00\x00\x00\x04\x01\x00\x00\x00\x00\x00\x01d\x00\x014";
/// The first of them alone.
pub const PUT: &[u8] = b"\x00\x00\x00\x0f\x00\x00\x00\x01\x01\x00\x00\x00\x00\x00\x01a\x00\x011";
/// Asks for `a` to `d`, under tags 11 to 14.
pub const GETS: &[u8] = b"\x00\x00\x00\x0c\x00\x00\x00\x0b\x03\x00\x00\x00\x00\x00\x01a\
\x00\x00\x00\x0c\x00\x00\x00\x0c\x03\x00\x00\x00\x00\x00\x01b\
\x00\x00\x00\x0c\x00\x00\x00\x0d\x03\x00\x00\x00\x00\x00\x01c\
\x00\x00\x00\x0c\x00\x00\x00\x0e\x03\x00\x00\x00\x00\x00\x01d";
/// The replies to these where each key was put; 12 bytes each.
pub const FOUND: &[u8] = b"\x00\x00\x00\x08\x00\x00\x00\x0b\x01\x00\x011\
\x00\x00\x00\x08\x00\x00\x00\x0c\x01\x00\x012\
\x00\x00\x00\x08\x00\x00\x00\x0d\x01\x00\x013\
\x00\x00\x00\x08\x00\x00\x00\x0e\x01\x00\x014";
/// The replies to these where none was; 9 bytes each.
pub const ABSENT: &[u8] = b"\x00\x00\x00\x05\x00\x00\x00\x0b\x02\
\x00\x00\x00\x05\x00\x00\x00\x0c\x02\
\x00\x00\x00\x05\x00\x00\x00\x0d\x02\
\x00\x00\x00\x05\x00\x00\x00\x0e\x02";
/// Puts `k01` to `k13` at version 0.
pub const THIRTEEN_PUTS: &[u8] = b"\
\x00\x00\x00\x11\x00\x00\x00\x01\x01\x00\x00\x00\x00\x00\x03k01\x00\x011\
\x00\x00\x00\x11\x00\x00\x00\x02\x01\x00\x00\x00\x00\x00\x03k02\x00\x011\
\x00\x00\x00\x11\x00\x00\x00\x03\x01\x00\x00\x00\x00\x00\x03k03\x00\x011\
\x00\x00\x00\x11\x00\x00\x00\x04\x01\x00\x00\x00\x00\x00\x03k04\x00\x011\
\x00\x00\x00\x11\x00\x00\x00\x05\x01\x00\x00\x00\x00\x00\x03k05\x00\x011\
\x00\x00\x00\x11\x00\x00\x00\x06\x01\x00\x00\x00\x00\x00\x03k06\x00\x011\
\x00\x00\x00\x11\x00\x00\x00\x07\x01\x00\x00\x00\x00\x00\x03k07\x00\x011\
\x00\x00\x00\x11\x00\x00\x00\x08\x01\x00\x00\x00\x00\x00\x03k08\x00\x011\
\x00\x00\x00\x11\x00\x00\x00\x09\x01\x00\x00\x00\x00\x00\x03k09\x00\x011\
\x00\x00\x00\x11\x00\x00\x00\x0a\x01\x00\x00\x00\x00\x00\x03k10\x00\x011\
\x00\x00\x00\x11\x00\x00\x00\x0b\x01\x00\x00\x00\x00\x00\x03k11\x00\x011\
\x00\x00\x00\x11\x00\x00\x00\x0c\x01\x00\x00\x00\x00\x00\x03k12\x00\x011\
\x00\x00\x00\x11\x00\x00\x00\x0d\x01\x00\x00\x00\x00\x00\x03k13\x00\x011";
/// What a run may read here.
const BUDGET: u64 = 100_000;

/// A disk with a new store of a format and these limits, which has counted no call.
fn store_of_format(
    alloc: Global,
    number: u16,
    mem: u32,
    changes: u32,
    versions: u32,
) -> Option<MemDisk>
    requires fits { (1 ≤ number) × (number ≤ 2) × AreLimits mem changes versions }
{
    let mut disk = MemDisk::new(alloc, &[]).ok()?;
    if format(alloc, &mut disk, number, mem, changes, versions).is_err() {
        return None;
    }
    disk.crash(0).ok()
}

/// A disk with a new store of these limits, which has counted no call.
pub fn new_store(alloc: Global, mem: u32, changes: u32, versions: u32) -> Option<MemDisk>
    requires { AreLimits mem changes versions }
{
    store_of_format(alloc, 2, mem, changes, versions)
}

/// A disk with a small store, which takes four changes.
pub fn small_store(alloc: Global) -> Option<MemDisk> {
    new_store(alloc, 4, 100, 10)
}

/// The same in format 1, as builds before format 2 made it.
pub fn old_store(alloc: Global) -> Option<MemDisk> {
    store_of_format(alloc, 1, 4, 100, 10)
}

/// How a run over a disk ends that is given these bytes, so many at a time, and the sink that it fills.
pub fn run_in_pieces<D: Disk>(
    alloc: Global,
    disk: &mut D,
    input: &[u8],
    piece: usize,
) -> Option<(Ended, MemSink)>
    requires { 0 < piece }
{
    let mut source = MemSource::new(alloc, input, &[], piece).ok()?;
    let mut sink = MemSink::new(alloc, &[], 4096).ok()?;
    let how = serve(alloc, &mut source, &mut sink, disk, BUDGET);
    Some((how, sink))
}

/// The same, given all of them at once.
pub fn run<D: Disk>(alloc: Global, disk: &mut D, input: &[u8]) -> Option<(Ended, MemSink)> {
    run_in_pieces(alloc, disk, input, 4096)
}

/// How many calls of a store's disk a run makes that is given these bytes.
pub fn calls_of(alloc: Global, store: &MemDisk, input: &[u8]) -> Option<u64> {
    let mut disk = store.crash(0).ok()?;
    run(alloc, &mut disk, input)?;
    Some(disk.calls())
}

/// Whether a run that is given these bytes sends those and ends so.
pub fn gives<D: Disk>(
    alloc: Global,
    disk: &mut D,
    input: &[u8],
    output: &[u8],
    ended: Ended,
) -> bool {
    match run(alloc, disk, input) {
        Some((how, sink)) => how == ended && sink.bytes() == output,
        None => false,
    }
}

/// Whether a run that is given these bytes ends where they do.
pub fn is_done<D: Disk>(alloc: Global, disk: &mut D, input: &[u8]) -> bool {
    match run(alloc, disk, input) {
        Some((how, _)) => how == Ended::Done,
        None => false,
    }
}

/// Whether replies to the four gets say that just the first so many keys are there.
fn tells(replies: &[u8], puts: usize) -> bool {
    if puts > 4 {
        return false;
    }
    let (found, absent) = (12 * puts, 9 * puts);
    replies.len() == found + 36 - absent
        && replies[..found] == FOUND[..found]
        && replies[found..] == ABSENT[absent..]
}

/// How many of the four puts a disk has, where it has a prefix of them and nothing else that is asked for.
pub fn puts_on<D: Disk>(alloc: Global, disk: &mut D) -> Option<usize> {
    let (how, sink) = run(alloc, disk, GETS)?;
    if how != Ended::Done {
        return None;
    }
    (0..=4).find(|puts| tells(sink.bytes(), *puts))
}

/// How many of the four puts a crash of this choice leaves.
pub fn left_by(alloc: Global, disk: &MemDisk, choice: u8) -> Option<usize> {
    let mut after = disk.crash(choice).ok()?;
    puts_on(alloc, &mut after)
}
