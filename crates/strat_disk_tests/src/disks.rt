//! Worked crashes of a disk in memory, a disk behind a fuse, and a disk in a file.

ghost use Rattle.std.specs.Prelude.{◌≤◌};

use std::fs;
use std::os::unix::fs::FileExt;
use std::rt::Files;
use std::test::Fail;
use strat_base::Failed;
use strat_disk::{Disk, FileDisk, FuseDisk, MemDisk, write_through};

/// Writes, reads behind the end and syncs, through the trait alone.
fn store<D: Disk>(disk: &mut D, at: u64, bytes: &[u8; 3], into: &mut [u8; 5]) -> Result<(), Failed>
    requires { at ≤ 100 }
{
    disk.write_at(at, bytes)?;
    disk.read_at(at, into)?;
    disk.sync()
}

/// Whether these bytes are stored at the end of a disk, and read with zeros behind them.
fn stores<D: Disk>(disk: &mut D, at: u64, bytes: &[u8; 3]) -> bool
    requires { at ≤ 100 }
{
    let mut into = [9; 5];
    store(disk, at, bytes, &mut into).is_ok() && into == [bytes[0], bytes[1], bytes[2], 0, 0]
}

/// Whether a read gives these bytes.
fn gives<D: Disk>(disk: &mut D, at: u64, want: [u8; 5]) -> bool
    requires { at ≤ 100 }
{
    let mut into = [9; 5];
    disk.read_at(at, &mut into).is_ok() && into == want
}

/// Whether a crash of this choice leaves these bytes, and a disk that counts no call.
fn leaves(disk: &MemDisk, choice: u8, want: &[u8]) -> bool {
    match disk.crash(choice) {
        Ok(after) => after.bytes() == want && after.calls() == 0,
        Err(_) => false,
    }
}

/// Whether a crash after a sync leaves these bytes.
fn settles(disk: &mut MemDisk, want: &[u8]) -> bool {
    disk.sync().is_ok() && leaves(disk, 0, want)
}

/// Whether bytes at 2 are stored, and others written over them that are not synced.
fn writes_over(disk: &mut MemDisk) -> bool {
    stores(disk, 2, &[1, 2, 3])
        && disk.write_at(3, &[7, 8, 9]).is_ok()
        && disk.bytes() == [0, 0, 1, 7, 8, 9].as_slice()
}

#[test]
fn a_crash_leaves_old_bytes_or_new_or_others(rt: HostRuntime) -> Result<(), Fail> {
    let mut disk = MemDisk::new(rt.alloc(), &[])?;
    assert!(rt; writes_over(&mut disk));
    for (choice, left) in [
        (0, [0, 0, 1, 2, 3, 0]),
        (1, [0, 0, 1, 7, 8, 9]),
        (2, [0, 0, 1, 0xa7, 0xa7, 0xa7]),
    ] {
        assert!(rt; leaves(&disk, choice, &left));
    }
    assert!(rt; settles(&mut disk, &[0, 0, 1, 7, 8, 9]));
    assert!(rt; disk.calls() == 5 && disk.reads() == 1);
    Ok(())
}

/// A call on a disk.
#[derive(Clone, Copy)]
enum Call {
    Read,
    Write(u8),
    Sync,
}

/// Whether a call on the first byte is a success.
fn succeeds(disk: &mut MemDisk, call: Call) -> bool {
    let called = match call {
        Call::Read => disk.read_at(0, &mut [9]),
        Call::Write(byte) => disk.write_at(0, &[byte]),
        Call::Sync => disk.sync(),
    };
    called.is_ok()
}

#[test]
fn the_calls_named_fail_and_no_others(rt: HostRuntime) -> Result<(), Fail> {
    let mut disk = MemDisk::new(rt.alloc(), &[1, 3, 5])?;
    for (call, want) in [
        (Call::Write(1), false),
        (Call::Write(2), true),
        (Call::Sync, false),
    ] {
        assert!(rt; succeeds(&mut disk, call) == want);
    }
    assert!(rt; leaves(&disk, 0, &[0]));
    assert!(rt; succeeds(&mut disk, Call::Sync) && !succeeds(&mut disk, Call::Read));
    assert!(rt; gives(&mut disk, 0, [2, 0, 0, 0, 0]));
    assert!(rt; disk.calls() == 6 && disk.reads() == 2);
    Ok(())
}

/// Whether two bytes are written for good and two others over them, of which the second is then altered.
fn alters_written(disk: &mut MemDisk) -> bool {
    if write_through(disk, 0, &[1, 2]).is_err() || disk.write_at(0, &[3, 4]).is_err() {
        return false;
    }
    if disk.bytes().len() != 2 {
        return false;
    }
    disk.alter(1, 9);
    true
}

#[test]
fn an_altered_byte_is_in_every_image(rt: HostRuntime) -> Result<(), Fail> {
    let mut disk = MemDisk::new(rt.alloc(), &[])?;
    assert!(rt; alters_written(&mut disk));
    for (choice, left) in [(0, [1, 9]), (1, [3, 9]), (2, [0xa7, 9])] {
        assert!(rt; leaves(&disk, choice, &left));
    }
    assert!(rt; settles(&mut disk, &[3, 9]));
    Ok(())
}

/// Whether a store behind a fuse of so many calls is done where three reach the disk, and how many do.
fn is_fused(disk: MemDisk, calls: u64, done: u64) -> bool {
    let mut fuse = FuseDisk::new(disk, calls);
    let stored = stores(&mut fuse, 0, &[1, 2, 3]);
    stored == (calls > 2) && fuse.into_inner().calls() == done
}

#[test]
fn a_fuse_passes_its_calls(rt: HostRuntime) -> Result<(), Fail> {
    for (calls, done) in [(0, 0), (1, 1), (2, 2), (3, 3), (9, 3)] {
        assert!(rt; is_fused(MemDisk::new(rt.alloc(), &[])?, calls, done));
    }
    Ok(())
}

/// Whether a new file takes bytes.
fn is_made<R: Files>(rt: &R, name: &str) -> bool
where
    R::File: FileExt,
{
    stores(&mut FileDisk::new(rt, name), 4, &[1, 2, 3])
}

/// Whether a second opening reads what the first wrote, and zeros far behind it, and writes over it.
fn is_opened_again<R: Files>(rt: &R, name: &str) -> bool
where
    R::File: FileExt,
{
    let mut disk = FileDisk::new(rt, name);
    gives(&mut disk, 2, [0, 0, 1, 2, 3])
        && gives(&mut disk, 90, [0; 5])
        && stores(&mut disk, 5, &[7, 8, 9])
}

#[test]
fn a_file_is_a_disk(rt: HostRuntime) -> Result<(), Fail> {
    let name = "a_file_is_a_disk.bin";
    let _ = fs::remove_file(&rt, name);
    assert!(rt; is_made(&rt, name));
    assert!(rt; is_opened_again(&rt, name));
    let bytes = fs::read(&rt, name)?;
    assert!(rt; bytes.as_slice() == [0, 0, 0, 0, 1, 7, 8, 9].as_slice());
    fs::remove_file(&rt, name)?;
    Ok(())
}

/// Whether each call fails.
fn fails<D: Disk>(disk: &mut D) -> bool {
    disk.read_at(0, &mut [0]).is_err() && disk.write_at(0, &[0]).is_err() && disk.sync().is_err()
}

#[test]
fn a_folder_is_no_file(rt: HostRuntime) {
    assert!(rt; fails(&mut FileDisk::new(&rt, ".")));
}

#[test]
fn a_file_in_no_folder_fails(rt: HostRuntime) {
    assert!(rt; FileDisk::new(&rt, "nowhere/at_all").sync().is_err());
}
