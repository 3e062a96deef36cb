//! What the program does for its arguments, over a source, a sink and a disk in memory.

use crate::arguments::path_of;
use crate::program::{run, status_text};
use std::alloc::Global;
use std::test::Fail;
use strat_disk::{Disk, FuseDisk, MemDisk};
use strat_io::{MemSink, MemSource};

/// Puts `a` = `1` at version 0 under tag 7.
const PUT: &[u8] = b"\x00\x00\x00\x0f\x00\x00\x00\x07\x01\x00\x00\x00\x00\x00\x01a\x00\x011";

/// Asks for `a` to `d`, under tags 11 to 14.
const GETS: &[u8] = b"\x00\x00\x00\x0c\x00\x00\x00\x0b\x03\x00\x00\x00\x00\x00\x01a\
\x00\x00\x00\x0c\x00\x00\x00\x0c\x03\x00\x00\x00\x00\x00\x01b\
\x00\x00\x00\x0c\x00\x00\x00\x0d\x03\x00\x00\x00\x00\x00\x01c\
\x00\x00\x00\x0c\x00\x00\x00\x0e\x03\x00\x00\x00\x00\x00\x01d";
/// The replies to these where none was put.
const ABSENT: &[u8] = b"\x00\x00\x00\x05\x00\x00\x00\x0b\x02\
\x00\x00\x00\x05\x00\x00\x00\x0c\x02\
\x00\x00\x00\x05\x00\x00\x00\x0d\x02\
\x00\x00\x00\x05\x00\x00\x00\x0e\x02";

/// The program's arguments.
fn arguments(alloc: Global, texts: &[&str]) -> Option<Vec<String>> {
    let mut arguments = Vec::new(alloc);
    for text in texts {
        arguments.push(String::from_str(alloc, text).ok()?).ok()?;
    }
    Some(arguments)
}

/// The arguments of making a small store, and the line that says that it was made.
const FORMAT: [&str; 5] = ["format", "f", "4", "100", "10"];

const LINE: &[u8] = b"format 2 mem 4 changes 100 versions 10\n";

/// The status that these arguments end with.
fn status_of<D: Disk>(
    alloc: Global,
    disk: &mut D,
    texts: &[&str],
    source: &mut MemSource,
    sink: &mut MemSink,
) -> Option<u8> {
    let arguments = arguments(alloc, texts)?;
    Some(run(alloc, &arguments, source, sink, disk))
}

/// Whether these arguments end with this status and send just these bytes, where a source has some
/// and neither source nor sink fails but at calls that are listed.
fn ends<D: Disk>(
    alloc: Global,
    disk: &mut D,
    texts: &[&str],
    failing: (&[u64], &[u64]),
    status: u8,
    output: &[u8],
) -> bool {
    let (Ok(mut source), Ok(mut sink)) = (
        MemSource::new(alloc, PUT, failing.0, 4096),
        MemSink::new(alloc, failing.1, 4096),
    ) else {
        return false;
    };
    status_of(alloc, disk, texts, &mut source, &mut sink) == Some(status) && sink.bytes() == output
}

/// Whether serving a disk ends with this status and sends just these bytes.
fn serves(alloc: Global, disk: &mut MemDisk, status: u8, output: &[u8]) -> bool {
    ends(alloc, disk, &["serve", "f"], (&[], &[]), status, output)
}

/// Whether formatting a disk reads no source, whose first call would fail, and sends its line.
fn formats(alloc: Global, disk: &mut MemDisk) -> bool {
    ends(alloc, disk, &FORMAT, (&[1], &[]), 0, LINE)
}

#[test]
fn stores_are_made_and_served(rt: HostRuntime) -> Result<(), Fail> {
    let mut disk = MemDisk::new(rt.alloc(), &[])?;
    assert!(rt; serves(rt.alloc(), &mut disk, 2, b""));
    assert!(rt; formats(rt.alloc(), &mut disk));
    assert!(rt;
        serves(
            rt.alloc(),
            &mut disk,
            0,
            b"\x00\x00\x00\x05\x00\x00\x00\x07\x00"
        )
    );
    assert!(rt; ends(rt.alloc(), &mut disk, &["serve", "f"], (&[1], &[]), 6, b""));
    assert!(rt; ends(rt.alloc(), &mut disk, &FORMAT, (&[], &[1]), 7, b""));
    Ok(())
}

/// The change of that put as the first of a store, and a receipt for the put's own frame, which is none of a change.
const CHANGE: &[u8] = b"\x00\x00\x00\x0e\x00\x00\x00\x00\x01\x00\x00\x00\x00\x01a\x00\x011";

const RECEIPT: &[u8] = b"\x00\x00\x00\x0a\x00\x00\x00\x07\x03\x00\x00\x00\x01\x00";

#[test]
fn changes_are_sent_and_received(rt: HostRuntime) -> Result<(), Fail> {
    let mut disk = MemDisk::new(rt.alloc(), &[])?;
    assert!(rt; formats(rt.alloc(), &mut disk));
    assert!(rt; ends(rt.alloc(), &mut disk, &["lead", "f"], (&[], &[]), 0, CHANGE));
    assert!(rt;
        ends(
            rt.alloc(),
            &mut disk,
            &["follow", "f"],
            (&[], &[]),
            0,
            RECEIPT
        )
    );
    Ok(())
}

/// What a new store's levels are.
const NO_LEVELS: &[u8] = b"store generation 1 mem 4 changes 0 of 100 versions 1 of 10\n\
journal changes 0 updates 0\n\
stored 0 updates 0 written 0\n";

#[test]
fn levels_are_of_a_store(rt: HostRuntime) -> Result<(), Fail> {
    let mut disk = MemDisk::new(rt.alloc(), &[])?;
    assert!(rt;
        ends(
            rt.alloc(),
            &mut disk,
            &["levels", "f"],
            (&[1], &[1]),
            2,
            b""
        )
    );
    assert!(rt; formats(rt.alloc(), &mut disk));
    assert!(rt;
        ends(
            rt.alloc(),
            &mut disk,
            &["levels", "f"],
            (&[1], &[]),
            0,
            NO_LEVELS
        )
    );
    Ok(())
}

#[test]
fn a_new_store_is_sound(rt: HostRuntime) -> Result<(), Fail> {
    let mut disk = MemDisk::new(rt.alloc(), &[])?;
    let words = ["check", "f"];
    assert!(rt; ends(rt.alloc(), &mut disk, &words, (&[1], &[1]), 2, b""));
    assert!(rt; formats(rt.alloc(), &mut disk));
    assert!(rt; ends(rt.alloc(), &mut disk, &words, (&[1], &[]), 0, b"sound\n"));
    assert!(rt; ends(rt.alloc(), &mut disk, &words, (&[1], &[1]), 7, b""));
    Ok(())
}

/// The summary of a workload of no change.
const NOTHING: &[u8] = b"workload seed 1 changes 0\n\
versions 1 updates 0 clones 0\n\
levels 0 arrays 0 stored 0 written 0\n\
density none\n";

#[test]
fn workloads_are_summed_up(rt: HostRuntime) -> Result<(), Fail> {
    let mut disk = MemDisk::new(rt.alloc(), &[])?;
    let words = ["workload", "f", "1", "0"];
    assert!(rt; ends(rt.alloc(), &mut disk, &words, (&[1], &[]), 0, NOTHING));
    assert!(rt; ends(rt.alloc(), &mut disk, &words, (&[1], &[1]), 7, b""));
    Ok(())
}

/// Whether a sink that takes six bytes a call and fails at its second has the front of the line.
fn cuts_the_line(alloc: Global, disk: &mut MemDisk) -> bool {
    let (Ok(mut source), Ok(mut sink)) = (
        MemSource::new(alloc, b"", &[1], 1),
        MemSink::new(alloc, &[2], 6),
    ) else {
        return false;
    };
    status_of(alloc, disk, &FORMAT, &mut source, &mut sink) == Some(7)
        && sink.bytes() == b"format".as_slice()
}

/// Whether a store is served that has no `a` to `d`, asked for under tags 11 to 14.
fn has_no_key(alloc: Global, disk: &mut MemDisk) -> bool {
    let (Ok(mut source), Ok(mut sink)) = (
        MemSource::new(alloc, GETS, &[], 4096),
        MemSink::new(alloc, &[], 4096),
    ) else {
        return false;
    };
    status_of(alloc, disk, &["serve", "f"], &mut source, &mut sink) == Some(0)
        && sink.bytes() == ABSENT
}

#[test]
fn a_line_that_is_cut_off_tells_of_a_new_store(rt: HostRuntime) -> Result<(), Fail> {
    let mut disk = MemDisk::new(rt.alloc(), &[])?;
    assert!(rt; cuts_the_line(rt.alloc(), &mut disk));
    assert!(rt; has_no_key(rt.alloc(), &mut disk));
    Ok(())
}

/// Whether formatting an empty disk that fails after so many calls has this status and sends just
/// these bytes.
fn fails_after(alloc: Global, calls: u64, status: u8, output: &[u8]) -> bool {
    let Ok(disk) = MemDisk::new(alloc, &[]) else {
        return false;
    };
    let mut disk = FuseDisk::new(disk, calls);
    ends(alloc, &mut disk, &FORMAT, (&[1], &[]), status, output)
}

#[test]
fn a_formatting_that_fails_sends_no_line(rt: HostRuntime) -> Result<(), Fail> {
    let mut disk = MemDisk::new(rt.alloc(), &[])?;
    assert!(rt; formats(rt.alloc(), &mut disk));
    let all = disk.calls();
    assert!(rt; all > 4 && all < 40);
    for calls in 0..all {
        assert!(rt; fails_after(rt.alloc(), calls, 5, b""));
    }
    assert!(rt; fails_after(rt.alloc(), all, 0, LINE));
    Ok(())
}

/// Whether arguments name no subcommand, and touch neither source nor sink nor disk, whose first
/// calls would fail.
fn is_refused(alloc: Global, texts: &[&str]) -> bool {
    let (Ok(mut disk), Some(arguments)) = (MemDisk::new(alloc, &[1]), arguments(alloc, texts))
    else {
        return false;
    };
    ends(alloc, &mut disk, texts, (&[1], &[1]), 1, b"")
        && disk.calls() == 0
        && path_of(&arguments).is_none()
}

#[test]
fn other_arguments_are_refused(rt: HostRuntime) {
    let rows: [&[&str]; 16] = [
        &[],
        &["serve"],
        &["serve", ""],
        &["serve", "store.bin", "now"],
        &["levels", ""],
        &["levels", "store.bin", "now"],
        &["check", ""],
        &["check", "store.bin", "now"],
        &["workload", "store.bin"],
        &["workload", "store.bin", "1"],
        &["workload", "", "1", "0"],
        &["workload", "store.bin", "1", "0", "0"],
        &["format"],
        &["format", "f", "4", "100"],
        &["format", "", "4", "100", "10"],
        &["format", "f", "4", "100", "10", "11"],
    ];
    for row in rows {
        assert!(rt; is_refused(rt.alloc(), row));
    }
}

#[test]
fn numbers_out_of_range_are_refused(rt: HostRuntime) {
    let rows: [&[&str]; 14] = [
        &["format", "f", "3", "100", "10"],
        &["format", "f", "04", "100", "10"],
        &["format", "f", "+4", "100", "10"],
        &["format", "f", "4097", "100", "10"],
        &["format", "f", "4", "0", "10"],
        &["format", "f", "4", "16777217", "10"],
        &["format", "f", "4", "100", "16385"],
        &["format", "f", "4", "100", ""],
        &["format", "f", "4294967300", "100", "10"],
        &["workload", "f", "01", "0"],
        &["workload", "f", "18446744073709551616", "0"],
        &["workload", "f", "1", "00"],
        &["workload", "f", "1", "1000001"],
        &["workload", "f", "-1", "0"],
    ];
    for row in rows {
        assert!(rt; is_refused(rt.alloc(), row));
    }
}

/// Whether the file of arguments is this one.
fn names(alloc: Global, texts: &[&str], path: &str) -> bool {
    match arguments(alloc, texts) {
        Some(arguments) => path_of(&arguments) == Some(path),
        None => false,
    }
}

#[test]
fn arguments_name_a_file(rt: HostRuntime) {
    assert!(rt; names(rt.alloc(), &["serve", "store.bin"], "store.bin"));
    assert!(rt; names(rt.alloc(), &["levels", "store.bin"], "store.bin"));
    assert!(rt;
        names(
            rt.alloc(),
            &["workload", "f", "18446744073709551615", "1000000"],
            "f"
        )
    );
    assert!(rt;
        names(
            rt.alloc(),
            &["format", "f", "4096", "16777216", "16384"],
            "f"
        )
    );
}

#[test]
fn each_status_has_its_text(rt: HostRuntime) {
    let texts = [
        "done",
        "usage: castle format FILE M C V, serve FILE, levels FILE, check FILE, workload FILE SEED COUNT, lead FILE, follow FILE, export FILE VERSION",
        "not a store",
        "frame too long",
        "truncated input",
        "device fault",
        "source fault",
        "sink fault",
        "no memory",
        "damaged",
        "byte budget",
        "unsound",
        "unknown version",
        "unknown status",
    ];
    for (status, text) in (0..).zip(texts) {
        assert!(rt; status_text(status) == text);
    }
}
