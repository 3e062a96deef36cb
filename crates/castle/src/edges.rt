//! Which files the program opens, over a made-up machine that keeps an account of what it is asked for.

use crate::start;
use std::alloc::{Allocator, Global};
use std::cell::Cell;
use std::env::FillError;
use std::fmt::Display;
use std::fs::{Metadata, OpenFile, OpenOptions};
use std::io;
use std::io::{BufRead, ErrorKind, Lines, Read, Seek, SeekFrom, Write};
use std::os::unix::fs::FileExt;
use std::path::PathBuf;
use std::rt::{Env, Files};

/// What the machine was asked for, a letter each, the first 64 of them: `d` to open a folder, `l` and `t` the files `link`
/// and `target`, `?` another one; `w` to write into a file, `s` to sync it, `f` to sync a folder.
#[derive(Drop)]
struct Account {
    letters: Cell<[u8; 64]>,
    len: Cell<usize>,
}

impl Account {
    fn new() -> Account {
        Account {
            letters: Cell::new([0; 64]),
            len: Cell::new(0),
        }
    }

    /// Adds a letter.
    fn add(&self, letter: u8) {
        let mut letters = self.letters.get();
        let len = self.len.get();
        if len >= letters.len() {
            return;
        }
        letters[len] = letter;
        self.letters.set(letters);
        self.len.set(len + 1);
    }

    /// Whether these letters were added, and no others.
    fn is(&self, letters: &[u8]) -> bool {
        let all = self.letters.get();
        match all.get(..self.len.get()) {
            Some(had) => had == letters,
            None => false,
        }
    }
}

/// A machine whose files are empty, take all bytes and keep none, and whose standard input is at its end.
#[derive(Drop)]
struct Machine<'a> {
    alloc: Global,
    /// The program's arguments.
    words: &'a [&'a str],
    /// Where the symbolic link `link` leads, where there is one.
    link: Option<&'a str>,
    account: &'a Account,
}

impl Alloc for Machine<'_> {
    type A = Global;

    fn alloc(&self) -> Global {
        self.alloc
    }
}

impl Env for Machine<'_> {
    fn arg(&self, i: usize, buf: &mut [u8]) -> Result<usize, FillError> {
        let word = if i == 0 {
            "castle"
        } else {
            match self.words.get(i - 1) {
                Some(word) => *word,
                None => return Err(FillError::NotPresent),
            }
        };
        let bytes = word.as_bytes();
        if bytes.len() > buf.len() {
            return Err(FillError::TooLong);
        }
        buf[..bytes.len()].copy_from_slice(bytes);
        Ok(bytes.len())
    }

    fn var(&self, _name: &str, _buf: &mut [u8]) -> Result<usize, FillError> {
        Err(FillError::NotPresent)
    }

    fn var_at(&self, _i: usize, _buf: &mut [u8]) -> Result<usize, FillError> {
        Err(FillError::NotPresent)
    }
}

impl Print for Machine<'_> {
    fn print<D: Display + Drop>(&self, _value: D) -> io::Result<()> {
        Ok(())
    }

    fn println<D: Display + Drop>(&self, _value: D) -> io::Result<()> {
        Ok(())
    }

    fn write_all(&self, _bytes: &[u8]) -> io::Result<()> {
        Ok(())
    }

    fn write_some(&self, bytes: &[u8]) -> io::Result<usize> {
        Ok(bytes.len())
    }
}

/// Input that is at its end.
#[derive(Drop)]
struct AtEnd;

impl Read for AtEnd {
    fn read(&mut self, _buf: &mut [u8]) -> io::Result<usize> {
        Ok(0)
    }
}

impl BufRead for AtEnd {
    fn fill_buf(&mut self) -> io::Result<&[u8]> {
        Err(ErrorKind::Unsupported.into())
    }

    fn consume(&mut self, _amount: usize) {}
}

impl Input for Machine<'_> {
    type Reader = AtEnd;

    fn read_line<A: Allocator + Clone>(&self, _buf: &mut String<A>) -> io::Result<usize> {
        Ok(0)
    }

    fn lines<A: Allocator>(&self, alloc: A) -> Lines<AtEnd, A> {
        self.reader().lines(alloc)
    }

    fn reader(&self) -> AtEnd {
        AtEnd
    }
}

/// An open file, or an open folder.
#[derive(Drop)]
struct Opened<'a> {
    account: &'a Account,
}

impl FileExt for Opened<'_> {
    fn read_at(&self, _buf: &mut [u8], _offset: u64) -> io::Result<usize> {
        Ok(0)
    }

    fn write_at(&self, buf: &[u8], _offset: u64) -> io::Result<usize> {
        self.account.add(b'w');
        Ok(buf.len())
    }
}

impl Read for Opened<'_> {
    fn read(&mut self, _buf: &mut [u8]) -> io::Result<usize> {
        Err(ErrorKind::Unsupported.into())
    }
}

impl Write for Opened<'_> {
    fn write(&mut self, _buf: &[u8]) -> io::Result<usize> {
        Err(ErrorKind::Unsupported.into())
    }

    fn flush(&mut self) -> io::Result<()> {
        Err(ErrorKind::Unsupported.into())
    }
}

impl Seek for Opened<'_> {
    fn seek(&mut self, _to: SeekFrom) -> io::Result<u64> {
        Err(ErrorKind::Unsupported.into())
    }
}

impl OpenFile for Opened<'_> {
    fn metadata(&self) -> io::Result<Metadata> {
        Err(ErrorKind::Unsupported.into())
    }

    fn set_len(&self, _size: u64) -> io::Result<()> {
        Err(ErrorKind::Unsupported.into())
    }

    fn sync_all(&self) -> io::Result<()> {
        self.account.add(b'f');
        Ok(())
    }

    fn sync_data(&self) -> io::Result<()> {
        self.account.add(b's');
        Ok(())
    }
}

/// The letter of a path that is opened.
fn letter_of(path: &str) -> u8 {
    if path == "/" || path == "." {
        b'd'
    } else if path == "link" {
        b'l'
    } else if path == "target" {
        b't'
    } else {
        b'?'
    }
}

impl<'a> Files for Machine<'a> {
    type File = Opened<'a>;

    type Dir = AtEnd;

    fn open_file(&self, how: &OpenOptions, path: &str) -> io::Result<Opened<'a>> {
        how.check()?;
        self.account.add(letter_of(path));
        Ok(Opened {
            account: self.account,
        })
    }

    fn open_dir(&self, _path: &str) -> io::Result<AtEnd> {
        Err(ErrorKind::Unsupported.into())
    }

    fn metadata(&self, _path: &str) -> io::Result<Metadata> {
        Err(ErrorKind::Unsupported.into())
    }

    fn symlink_metadata(&self, path: &str) -> io::Result<Metadata> {
        if path == "link" && self.link.is_some() {
            Ok(Metadata::of_symlink(1))
        } else {
            Ok(Metadata::of_file(0))
        }
    }

    fn copy(&self, _from: &str, _to: &str) -> io::Result<u64> {
        Err(ErrorKind::Unsupported.into())
    }

    fn rename(&self, _from: &str, _to: &str) -> io::Result<()> {
        Err(ErrorKind::Unsupported.into())
    }

    fn remove_file(&self, _path: &str) -> io::Result<()> {
        Err(ErrorKind::Unsupported.into())
    }

    fn create_dir(&self, _path: &str) -> io::Result<()> {
        Err(ErrorKind::Unsupported.into())
    }

    fn remove_dir(&self, _path: &str) -> io::Result<()> {
        Err(ErrorKind::Unsupported.into())
    }

    fn remove_dir_all<B: Allocator>(&self, _alloc: B, _path: &str) -> io::Result<()> {
        Err(ErrorKind::Unsupported.into())
    }

    fn read_link<B: Allocator>(&self, alloc: B, path: &str) -> io::Result<PathBuf<B>> {
        match self.link {
            Some(to) if path == "link" => {
                PathBuf::from_str(alloc, to).map_err(|_| ErrorKind::OutOfMemory.into())
            }
            _ => Err(ErrorKind::InvalidInput.into()),
        }
    }
}

/// Whether the program ends so for these arguments, where `link` leads there, and asks for just this.
fn asks(alloc: Global, words: &[&str], link: Option<&str>, status: u8, letters: &[u8]) -> bool {
    let account = Account::new();
    let machine = Machine {
        alloc,
        words,
        link,
        account: &account,
    };
    start(&machine) == status && account.is(letters)
}

/// An opening of an empty file: three folders, the file, and the first sync with that of the file's folder.
const OPENED: &[u8] = b"dddtsdf";

#[test]
fn the_file_that_is_named_is_opened_behind_three_folders(rt: HostRuntime) {
    assert!(rt; asks(rt.alloc(), &["serve", "target"], None, 2, OPENED));
    assert!(rt; asks(rt.alloc(), &["levels", "target"], None, 2, OPENED));
}

#[test]
fn a_link_is_followed_to_its_file_and_is_never_opened(rt: HostRuntime) {
    assert!(rt; asks(rt.alloc(), &["serve", "link"], Some("target"), 2, OPENED));
    assert!(rt; asks(rt.alloc(), &["serve", "link"], Some("link"), 5, b"ddd"));
}

#[test]
fn words_that_name_no_file_open_none(rt: HostRuntime) {
    assert!(rt; asks(rt.alloc(), &["serve"], None, 1, b""));
    assert!(rt; asks(rt.alloc(), &[], None, 1, b""));
}

#[test]
fn each_write_of_a_formatting_is_synced_before_the_next(rt: HostRuntime) {
    let words = ["format", "target", "4", "100", "10"];
    assert!(rt; asks(rt.alloc(), &words, None, 0, b"dddtwsdfwsws"));
}
