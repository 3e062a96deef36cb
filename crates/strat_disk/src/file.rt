//! A disk in one file. What the file holds is trusted and not proved.
ghost use Rattle.std.specs.Prelude.{◌≡◌, OnErr};
ghost use Rattle.def_crash.specs.Faults.{CountsFaults, one_more};
ghost use Rattle.strat_disk.specs.Hidden.{hidden};

use crate::disk::Disk;
use crate::faults::fault;
use crate::one_file::OneFile;
use std::io;
use std::marker::Model;
use std::os::unix::fs::FileExt;
use std::rt::Files;
use strat_base::Failed;

/// One file, by its path, that is opened at the first call and created where it is absent.
///
/// A read or a write is one transfer at its offset. The first sync also syncs the folder that names the file, so that a
/// new file is still there after a power loss, and fails where the path is a symbolic link, which does not name that
/// folder; after a sync that failed each one fails. It exposes no content, and is seen as its count of faults.
#[derive(Drop)]
pub struct FileDisk<'a, R: Files> {
    file: OneFile<'a, R>,
    faults: u64,
}

impl<'a, R: Files> Model for FileDisk<'a, R> {
    ghost use Rattle.std.specs.Prelude.{ℕ};

    ghost Value = { ℕ };

    ghost view = { λ d. d.faults };
}

impl<'a, R: Files> FileDisk<'a, R>
where
    R::File: FileExt,
{
    /// The file of this path, which has not failed. Nothing is touched yet.
    pub fn new(rt: &'a R, path: &'a str) -> FileDisk<'a, R>
        ensures { result ≡ 0 }
    {
        FileDisk {
            file: OneFile::new(rt, path),
            faults: 0,
        }
    }
}

/// What a call of the file comes to: a failure is counted as one fault, whatever the file was doing.
fn counted(done: io::Result<()>, faults: &mut u64) -> Result<(), Failed>
    ensures faults { OnErr result (faults.new ≡ one_more faults.old) }
    ensures cause { CountsFaults faults.old faults.new result }
{
    match done {
        Ok(()) => Ok(()),
        Err(_) => Err(fault(faults)),
    }
}

impl<R: Files> Disk for FileDisk<'_, R>
where
    R::File: FileExt,
{
    ghost view = { λ d. hidden };

    ghost faults = { λ d. d };

    ghost reads = { λ d. 0 };

    fn read_at(&mut self, at: u64, into: &mut [u8]) -> Result<(), Failed> {
        let done = self.file.read(at, into);
        counted(done, &mut self.faults)
    }

    #[tactic(auto, using(crate::proofs::HiddenLemmas::tears_hidden))]
    fn write_at(&mut self, at: u64, bytes: &[u8]) -> Result<(), Failed> {
        let done = self.file.write(at, bytes);
        counted(done, &mut self.faults)
    }

    fn sync(&mut self) -> Result<(), Failed> {
        let done = self.file.sync();
        counted(done, &mut self.faults)
    }

    ghost leaves_content = { λ d. tt };

    ghost leaves_bytes = { λ d m c left. left };
}
