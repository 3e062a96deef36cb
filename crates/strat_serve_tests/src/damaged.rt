//! A store whose only array is damaged behind its back, in block 6.

use crate::scripts::{Script, block_blamed, command, told};
use crate::support::{THIRTEEN_PUTS, is_done, small_store};
use std::alloc::Global;
use strat_base::PairBuf;
use strat_disk::MemDisk;
use strat_io::{MemSink, MemSource};
use strat_model::{Command, Ended};
use strat_serve::serve;
use strat_store::Store;

/// Asks for `k01` at version 0, under tag 1.
const GET: &[u8] = b"\x00\x00\x00\x0e\x00\x00\x00\x01\x03\x00\x00\x00\x00\x00\x03k01";
/// Its reply where block 6 is damaged.
const DAMAGED: &[u8] = b"\x00\x00\x00\x09\x00\x00\x00\x01\x22\x00\x00\x00\x06";

/// A store of thirteen puts, of which eight are in block 6.
fn thirteen(alloc: Global) -> Option<MemDisk> {
    let mut disk = small_store(alloc)?;
    is_done(alloc, &mut disk, THIRTEEN_PUTS).then_some(disk)
}

/// Sets how many entries block 6 says that it has, where it is there.
fn say_entries(disk: &mut MemDisk, entries: u8) -> bool {
    if disk.bytes().len() < 24578 {
        return false;
    }
    disk.alter(24576, 0);
    disk.alter(24577, entries);
    true
}

/// Whether an open store names the block that was altered behind its back, and is spent: for a get, a scan, and a cursor.
fn is_blamed(alloc: Global, disk: &mut MemDisk) -> Option<bool> {
    let get = command(Script::LookThirteen, 0);
    let scan = Command::Scan {
        version: 0,
        lo: b"k01",
        hi: b"k02",
        limit: 1,
    };
    let open = Command::OpenCursor {
        version: 0,
        lo: b"",
        hi: b"",
    };
    let next = Command::NextPairs {
        cursor: 1,
        limit: 1,
    };
    Some(
        say_entries(disk, 0)
            && blames_block_6(alloc, disk, &Command::Stat, &get)?
            && blames_block_6(alloc, disk, &Command::Stat, &scan)?
            && blames_block_6(alloc, disk, &open, &next)?,
    )
}

/// Whether a store that is opened and takes one command names block 6 as it is asked for another, and is spent.
fn blames_block_6(
    alloc: Global,
    disk: &mut MemDisk,
    first: &Command<'_>,
    second: &Command<'_>,
) -> Option<bool> {
    let mut store = Store::attach(alloc, disk).ok()?;
    let mut out = PairBuf::new(alloc).ok()?;
    let taken = told(&mut store, disk, &mut out, first);
    let blamed = block_blamed(&mut store, disk, &mut out, second);
    Some(taken.is_some() && blamed == Some(6) && store.is_spent())
}

#[test]
fn an_open_store_blames_the_block(rt: HostRuntime) {
    let Some(mut disk) = thirteen(rt.alloc()) else {
        assert!(rt; false);
        return;
    };
    assert!(rt; is_blamed(rt.alloc(), &mut disk) == Some(true));
}

/// Whether a block that was read before is taken from the cache, whatever stands on the disk.
fn is_cached(alloc: Global, disk: &mut MemDisk) -> Option<bool> {
    let mut store = Store::attach(alloc, disk).ok()?;
    let mut out = PairBuf::new(alloc).ok()?;
    let get = command(Script::LookThirteen, 0);
    Some(
        block_blamed(&mut store, disk, &mut out, &get).is_none()
            && say_entries(disk, 0)
            && block_blamed(&mut store, disk, &mut out, &get).is_none()
            && !store.is_spent(),
    )
}

#[test]
fn a_cached_block_is_not_read_again(rt: HostRuntime) {
    let Some(mut disk) = thirteen(rt.alloc()) else {
        assert!(rt; false);
        return;
    };
    assert!(rt; is_cached(rt.alloc(), &mut disk) == Some(true));
}

/// Whether a sink that cannot take the news of the damaged block hides it.
fn is_hidden(alloc: Global, disk: &mut MemDisk) -> bool {
    let (Ok(mut source), Ok(mut sink)) = (
        MemSource::new(alloc, GET, &[], 4096),
        MemSink::new(alloc, &[2], 6),
    ) else {
        return false;
    };
    say_entries(disk, 0)
        && serve(alloc, &mut source, &mut sink, disk, 100) == Ended::Sink
        && sink.bytes() == &DAMAGED[..6]
}

#[test]
fn a_failing_sink_hides_the_damaged_block(rt: HostRuntime) {
    let Some(mut disk) = thirteen(rt.alloc()) else {
        assert!(rt; false);
        return;
    };
    assert!(rt; is_hidden(rt.alloc(), &mut disk));
}
