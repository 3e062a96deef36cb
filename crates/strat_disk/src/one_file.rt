//! One file, opened when it is first used.
use std::fs::{OpenFile, OpenOptions};
use std::io;
use std::io::ErrorKind;
use std::os::unix::fs::FileExt;
use std::path::Path;
use std::rt::Files;

/// A file by its path.
#[derive(Drop)]
pub struct OneFile<'a, R: Files> {
    rt: &'a R,
    path: &'a str,
    file: Option<R::File>,
    folder_synced: bool,
    sync_failed: bool,
}

impl<'a, R: Files> OneFile<'a, R>
where
    R::File: FileExt,
{
    /// The file of this path. Nothing is touched yet.
    pub fn new(rt: &'a R, path: &'a str) -> OneFile<'a, R> {
        OneFile {
            rt,
            path,
            file: None,
            folder_synced: false,
            sync_failed: false,
        }
    }

    /// Fills `into` from this offset on, and what lies after the file's end with zeros.
    pub fn read(&mut self, at: u64, into: &mut [u8]) -> io::Result<()> {
        self.open()?;
        match &self.file {
            Some(file) => read_from(file, at, into),
            None => Err(ErrorKind::NotFound.into()),
        }
    }

    /// Writes all of these bytes from this offset on.
    pub fn write(&mut self, at: u64, bytes: &[u8]) -> io::Result<()> {
        self.open()?;
        match &self.file {
            Some(file) => file.write_all_at(bytes, at),
            None => Err(ErrorKind::NotFound.into()),
        }
    }

    /// Syncs the file's bytes, and the first time also the folder that names it: whoever made the file, and
    /// however long ago, may have failed to.
    pub fn sync(&mut self) -> io::Result<()> {
        // A sync that failed may have lost what it was to keep, and the next one would not say so.
        if self.sync_failed {
            return Err(ErrorKind::Other.into());
        }
        self.sync_failed = true;
        self.open()?;
        match &self.file {
            Some(file) => sync_data(file)?,
            None => return Err(ErrorKind::NotFound.into()),
        }
        if !self.folder_synced {
            sync_folder(self.rt, self.path)?;
            self.folder_synced = true;
        }
        self.sync_failed = false;
        Ok(())
    }

    fn open(&mut self) -> io::Result<()> {
        if self.file.is_some() {
            return Ok(());
        }
        match open_existing(self.rt, self.path) {
            Ok(file) => self.file = Some(file),
            Err(e) if e.kind() == ErrorKind::NotFound => {
                self.file = Some(create(self.rt, self.path)?);
            }
            Err(e) => return Err(e),
        }
        Ok(())
    }
}

fn open_existing<R: Files>(rt: &R, path: &str) -> io::Result<R::File> {
    OpenOptions::new().read(true).write(true).open(rt, path)
}

fn create<R: Files>(rt: &R, path: &str) -> io::Result<R::File> {
    OpenOptions::new()
        .read(true)
        .write(true)
        .create(true)
        .open(rt, path)
}

fn read_from<F: FileExt>(file: &F, at: u64, into: &mut [u8]) -> io::Result<()> {
    let mut done = 0;
    for _ in 0..u64::MAX {
        if done == into.len() {
            break;
        }
        match file.read_at(&mut into[done..], at.saturating_add(done as u64)) {
            Ok(0) => break,
            Ok(n) => done += n,
            Err(e) if e.kind() == ErrorKind::Interrupted => {}
            Err(e) => return Err(e),
        }
    }
    into[done..].fill(0);
    Ok(())
}

fn sync_data<F: OpenFile>(file: &F) -> io::Result<()> {
    for _ in 0..u64::MAX {
        match file.sync_data() {
            Err(e) if e.kind() == ErrorKind::Interrupted => {}
            done => return done,
        }
    }
    Err(ErrorKind::Interrupted.into())
}

/// Syncs the folder in which the file has its name. Where the system has no such operation for this folder there is
/// nothing to be waited for.
fn sync_folder<R: Files>(rt: &R, path: &str) -> io::Result<()> {
    // The folder of a symbolic link is not the one that names the file.
    if rt.symlink_metadata(path)?.is_symlink() {
        return Err(ErrorKind::InvalidFilename.into());
    }
    let folder = OpenOptions::new().read(true).open(rt, folder_of(path))?;
    match sync_all(&folder) {
        Err(e) if is_no_operation(e.kind()) => Ok(()),
        done => done,
    }
}

fn folder_of(path: &str) -> Path<'_> {
    match Path::new(path).parent() {
        Some(folder) if folder != Path::new("") => folder,
        _ => Path::new("."),
    }
}

fn sync_all<F: OpenFile>(folder: &F) -> io::Result<()> {
    for _ in 0..u64::MAX {
        match folder.sync_all() {
            Err(e) if e.kind() == ErrorKind::Interrupted => {}
            done => return done,
        }
    }
    Err(ErrorKind::Interrupted.into())
}

/// Whether this is how a system says that a file or folder of this kind cannot be synced at all.
fn is_no_operation(kind: ErrorKind) -> bool {
    kind == ErrorKind::Unsupported || kind == ErrorKind::InvalidInput
}
