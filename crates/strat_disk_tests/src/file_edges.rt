//! A disk in a file over a made-up system, which counts its calls and fails the one that it is told to fail.

use std::alloc::Allocator;
use std::cell::Cell;
use std::fs::{Metadata, OpenFile, OpenOptions};
use std::io;
use std::io::{ErrorKind, Read, Seek, SeekFrom, Write};
use std::os::unix::fs::FileExt;
use std::rt::Files;
use strat_disk::{Disk, FileDisk};

/// How a made-up system behaves.
#[derive(Clone, Copy)]
struct Manner {
    /// The call that fails, from 1 on; 0 for none.
    failing: u64,
    /// How it fails.
    kind: ErrorKind,
    /// How each sync of a folder ends.
    folder: Option<ErrorKind>,
    /// Whether the path is a symbolic link.
    is_link: bool,
}

/// A system with one file of three bytes, and what was asked of it.
#[derive(Drop)]
struct System {
    manner: Manner,
    bytes: Cell<[u8; 3]>,
    calls: Cell<u64>,
    file_syncs: Cell<u64>,
    folder_syncs: Cell<u64>,
}

impl System {
    fn new(manner: Manner) -> System {
        System {
            manner,
            bytes: Cell::new([0; 3]),
            calls: Cell::new(0),
            file_syncs: Cell::new(0),
            folder_syncs: Cell::new(0),
        }
    }

    /// Counts a call, and fails it where it is the one that is to fail.
    fn call(&self) -> io::Result<()> {
        rise(&self.calls);
        if self.calls.get() == self.manner.failing {
            return Err(self.manner.kind.into());
        }
        Ok(())
    }
}

fn rise(count: &Cell<u64>) {
    count.set(count.get().saturating_add(1));
}

/// An open file, or an open folder, of a made-up system. A read or a write moves one byte, and has to name its offset.
#[derive(Drop)]
struct Opened<'a> {
    system: &'a System,
}

impl FileExt for Opened<'_> {
    fn read_at(&self, buf: &mut [u8], offset: u64) -> io::Result<usize> {
        self.system.call()?;
        let bytes = self.system.bytes.get();
        if buf.is_empty() || offset >= bytes.len() as u64 {
            return Ok(0);
        }
        buf[0] = bytes[offset as usize];
        Ok(1)
    }

    fn write_at(&self, buf: &[u8], offset: u64) -> io::Result<usize> {
        self.system.call()?;
        let mut bytes = self.system.bytes.get();
        if buf.is_empty() || offset >= bytes.len() as u64 {
            return Ok(0);
        }
        bytes[offset as usize] = buf[0];
        self.system.bytes.set(bytes);
        Ok(1)
    }
}

impl Read for Opened<'_> {
    fn read(&mut self, _buf: &mut [u8]) -> io::Result<usize> {
        Err(ErrorKind::Unsupported.into())
    }
}

impl Write for Opened<'_> {
    fn write(&mut self, _buf: &[u8]) -> io::Result<usize> {
        Err(ErrorKind::Unsupported.into())
    }

    fn flush(&mut self) -> io::Result<()> {
        Err(ErrorKind::Unsupported.into())
    }
}

impl Seek for Opened<'_> {
    fn seek(&mut self, _to: SeekFrom) -> io::Result<u64> {
        Err(ErrorKind::Unsupported.into())
    }
}

impl OpenFile for Opened<'_> {
    fn metadata(&self) -> io::Result<Metadata> {
        Err(ErrorKind::Unsupported.into())
    }

    fn set_len(&self, _size: u64) -> io::Result<()> {
        Err(ErrorKind::Unsupported.into())
    }

    fn sync_all(&self) -> io::Result<()> {
        rise(&self.system.folder_syncs);
        self.system.call()?;
        match self.system.manner.folder {
            Some(kind) => Err(kind.into()),
            None => Ok(()),
        }
    }

    fn sync_data(&self) -> io::Result<()> {
        rise(&self.system.file_syncs);
        self.system.call()
    }
}

/// The handle of a made-up system.
#[derive(Drop)]
struct Handle<'a> {
    system: &'a System,
}

/// A folder's list of names, which is empty.
#[derive(Drop)]
struct NoNames;

impl Read for NoNames {
    fn read(&mut self, _buf: &mut [u8]) -> io::Result<usize> {
        Ok(0)
    }
}

impl<'a> Files for Handle<'a> {
    type File = Opened<'a>;

    type Dir = NoNames;

    fn open_file(&self, how: &OpenOptions, _path: &str) -> io::Result<Opened<'a>> {
        how.check()?;
        self.system.call()?;
        Ok(Opened {
            system: self.system,
        })
    }

    fn open_dir(&self, _path: &str) -> io::Result<NoNames> {
        Err(ErrorKind::Unsupported.into())
    }

    fn metadata(&self, _path: &str) -> io::Result<Metadata> {
        Err(ErrorKind::Unsupported.into())
    }

    fn symlink_metadata(&self, _path: &str) -> io::Result<Metadata> {
        self.system.call()?;
        if self.system.manner.is_link {
            Ok(Metadata::of_symlink(1))
        } else {
            Ok(Metadata::of_file(3))
        }
    }

    fn copy(&self, _from: &str, _to: &str) -> io::Result<u64> {
        Err(ErrorKind::Unsupported.into())
    }

    fn rename(&self, _from: &str, _to: &str) -> io::Result<()> {
        Err(ErrorKind::Unsupported.into())
    }

    fn remove_file(&self, _path: &str) -> io::Result<()> {
        Err(ErrorKind::Unsupported.into())
    }

    fn create_dir(&self, _path: &str) -> io::Result<()> {
        Err(ErrorKind::Unsupported.into())
    }

    fn remove_dir(&self, _path: &str) -> io::Result<()> {
        Err(ErrorKind::Unsupported.into())
    }

    fn remove_dir_all<B: Allocator>(&self, _alloc: B, _path: &str) -> io::Result<()> {
        Err(ErrorKind::Unsupported.into())
    }
}

/// Whether each of a write of three bytes, a read of them with two behind the end, and three syncs succeeds. A write
/// or a read that reached or gave other bytes counts as failed.
fn tried<D: Disk>(disk: &mut D) -> [bool; 5] {
    let wrote = disk.write_at(0, &[1, 2, 3]).is_ok();
    let mut into = [9; 5];
    let read = disk.read_at(0, &mut into).is_ok() && (!wrote || into == [1, 2, 3, 0, 0]);
    let first = disk.sync().is_ok();
    let second = disk.sync().is_ok();
    let third = disk.sync().is_ok();
    [wrote, read, first, second, third]
}

/// Whether the five calls on a disk over such a system succeed as wanted, with so many syncs of the file and of the
/// folder.
fn goes(manner: Manner, want: [bool; 5], file_syncs: u64, folder_syncs: u64) -> bool {
    let system = System::new(manner);
    let handle = Handle { system: &system };
    let mut disk = FileDisk::new(&handle, "folder/file");
    tried(&mut disk) == want
        && system.file_syncs.get() == file_syncs
        && system.folder_syncs.get() == folder_syncs
}

const SOUND: Manner = Manner {
    failing: 0,
    kind: ErrorKind::Other,
    folder: None,
    is_link: false,
};

const ALL: [bool; 5] = [true; 5];

/// The first sync of the run fails, and so does each later one.
const NO_SYNC: [bool; 5] = [true, true, false, false, false];

#[test]
fn each_sync_reaches_the_file_and_the_first_its_folder(rt: HostRuntime) {
    assert!(rt; goes(SOUND, ALL, 3, 1));
}

/// What succeeds where one call of the system fails, and how many syncs of the file and of the folder are asked for.
/// The calls are: open, three writes; three reads, a read at the end; a sync, a look at the path, open the folder, its
/// sync; a sync; a sync.
fn wanted(failing: u64) -> ([bool; 5], u64, u64) {
    match failing {
        1..=4 => ([false, true, true, true, true], 3, 1),
        5..=8 => ([true, false, true, true, true], 3, 1),
        9..=11 => (NO_SYNC, 1, 0),
        12 => (NO_SYNC, 1, 1),
        13 => ([true, true, true, false, false], 2, 1),
        14 => ([true, true, true, true, false], 3, 1),
        _ => (ALL, 3, 1),
    }
}

#[test]
fn one_call_that_fails_is_one_fault_and_after_a_sync_it_lasts(rt: HostRuntime) {
    for failing in 1..=15 {
        let (want, file_syncs, folder_syncs) = wanted(failing);
        assert!(rt; goes(Manner { failing, ..SOUND }, want, file_syncs, folder_syncs));
    }
}

#[test]
fn a_transfer_or_a_sync_that_is_interrupted_is_done_again(rt: HostRuntime) {
    for (failing, file_syncs, folder_syncs) in [
        (2, 3, 1),
        (4, 3, 1),
        (5, 3, 1),
        (8, 3, 1),
        (9, 4, 1),
        (12, 3, 2),
        (14, 4, 1),
    ] {
        let manner = Manner {
            failing,
            kind: ErrorKind::Interrupted,
            ..SOUND
        };
        assert!(rt; goes(manner, ALL, file_syncs, folder_syncs));
    }
}

#[test]
fn a_file_that_is_absent_is_created(rt: HostRuntime) {
    let manner = Manner {
        failing: 1,
        kind: ErrorKind::NotFound,
        ..SOUND
    };
    assert!(rt; goes(manner, ALL, 3, 1));
}

#[test]
fn a_folder_that_cannot_be_synced_is_a_fault_but_where_no_system_could(rt: HostRuntime) {
    for (kind, want, file_syncs) in [
        (ErrorKind::Unsupported, ALL, 3),
        (ErrorKind::InvalidInput, ALL, 3),
        (ErrorKind::PermissionDenied, NO_SYNC, 1),
        (ErrorKind::StorageFull, NO_SYNC, 1),
    ] {
        let manner = Manner {
            folder: Some(kind),
            ..SOUND
        };
        assert!(rt; goes(manner, want, file_syncs, 1));
    }
}

#[test]
fn a_symbolic_link_is_never_synced(rt: HostRuntime) {
    let manner = Manner {
        is_link: true,
        ..SOUND
    };
    assert!(rt; goes(manner, NO_SYNC, 1, 0));
}
