//! The standard streams over a made-up runtime, whose calls are interrupted, fail, or move few bytes.

use std::alloc::Allocator;
use std::cell::Cell;
use std::fmt::Display;
use std::io;
use std::io::{BufRead, ErrorKind, Lines, Read};
use strat_io::{Sink, Source, StdSink, StdSource, put_all};

/// How a made-up runtime behaves. A call that is neither interrupted nor fails moves one byte.
#[derive(Clone, Copy)]
struct Manner {
    /// How many calls are interrupted, from the first on.
    interrupted: u64,
    /// The call that fails, from 1 on; 0 for none.
    failing: u64,
    /// How it fails.
    kind: ErrorKind,
}

const SOUND: Manner = Manner {
    interrupted: 0,
    failing: 0,
    kind: ErrorKind::Other,
};

/// A made-up runtime, how many calls came, and the bytes that it took.
#[derive(Drop)]
struct Console {
    manner: Manner,
    calls: Cell<u64>,
    taken: Cell<[u8; 8]>,
    len: Cell<usize>,
}

/// Counts a call, and says how it fails, where it does.
fn call(manner: Manner, calls: &Cell<u64>) -> io::Result<()> {
    calls.set(calls.get().saturating_add(1));
    if calls.get() <= manner.interrupted {
        return Err(ErrorKind::Interrupted.into());
    }
    if calls.get() == manner.failing {
        return Err(manner.kind.into());
    }
    Ok(())
}

impl Console {
    fn new(manner: Manner) -> Console {
        Console {
            manner,
            calls: Cell::new(0),
            taken: Cell::new([0; 8]),
            len: Cell::new(0),
        }
    }
}

fn unsupported() -> io::Error {
    ErrorKind::Unsupported.into()
}

impl Print for Console {
    fn print<D: Display + Drop>(&self, _value: D) -> io::Result<()> {
        Err(unsupported())
    }

    fn println<D: Display + Drop>(&self, _value: D) -> io::Result<()> {
        Err(unsupported())
    }

    fn write_all(&self, _bytes: &[u8]) -> io::Result<()> {
        Err(unsupported())
    }

    fn write_some(&self, bytes: &[u8]) -> io::Result<usize> {
        call(self.manner, &self.calls)?;
        let mut taken = self.taken.get();
        let len = self.len.get();
        if bytes.is_empty() || len >= taken.len() {
            return Ok(0);
        }
        taken[len] = bytes[0];
        self.taken.set(taken);
        self.len.set(len + 1);
        Ok(1)
    }
}

/// A reader of the letters , each of them `a`.
#[derive(Drop)]
struct Letters {
    manner: Manner,
    calls: Cell<u64>,
}

impl Read for Letters {
    fn read(&mut self, buf: &mut [u8]) -> io::Result<usize> {
        call(self.manner, &self.calls)?;
        if buf.is_empty() {
            return Ok(0);
        }
        buf[0] = b'a';
        Ok(1)
    }
}

impl BufRead for Letters {
    fn fill_buf(&mut self) -> io::Result<&[u8]> {
        Err(unsupported())
    }

    fn consume(&mut self, _amount: usize) {}
}

impl Input for Console {
    type Reader = Letters;

    fn read_line<A: Allocator + Clone>(&self, _buf: &mut String<A>) -> io::Result<usize> {
        Err(unsupported())
    }

    fn lines<A: Allocator>(&self, alloc: A) -> Lines<Letters, A> {
        self.reader().lines(alloc)
    }

    fn reader(&self) -> Letters {
        Letters {
            manner: self.manner,
            calls: Cell::new(0),
        }
    }
}

/// Whether all of eight letters is put, or is not, in so many calls, and what was taken of them.
fn puts(manner: Manner, want: bool, calls: u64, taken: &[u8; 8]) -> bool {
    let console = Console::new(manner);
    let mut sink = StdSink::new(&console);
    put_all(&mut sink, b"abcdefgh").is_ok() == want
        && console.calls.get() == calls
        && console.taken.get() == *taken
}

#[test]
fn output_that_takes_little_or_is_interrupted_gets_all(rt: HostRuntime) {
    for (interrupted, calls) in [(0, 8), (1, 9), (15, 23)] {
        let manner = Manner {
            interrupted,
            ..SOUND
        };
        assert!(rt; puts(manner, true, calls, b"abcdefgh"));
    }
    let manner = Manner {
        interrupted: 16,
        ..SOUND
    };
    assert!(rt; puts(manner, false, 16, &[0; 8]));
}

#[test]
fn output_that_fails_is_a_fault_at_once_and_gets_no_more(rt: HostRuntime) {
    for (failing, kind, taken) in [
        (1, ErrorKind::BrokenPipe, b"\0\0\0\0\0\0\0\0"),
        (2, ErrorKind::WouldBlock, b"a\0\0\0\0\0\0\0"),
        (8, ErrorKind::StorageFull, b"abcdefg\0"),
    ] {
        let manner = Manner {
            failing,
            kind,
            ..SOUND
        };
        assert!(rt; puts(manner, false, failing, taken));
    }
}

/// Whether a read answers so, and one after it gives a letter.
fn reads(manner: Manner, want: Option<usize>) -> bool {
    let console = Console::new(manner);
    let mut source = StdSource::new(&console);
    let mut into = [0; 4];
    let first = source.read(&mut into).ok();
    let second = source.read(&mut into).ok();
    first == want && second == Some(1) && into == [b'a', 0, 0, 0]
}

#[test]
fn input_that_is_interrupted_is_read_and_input_that_fails_is_a_fault(rt: HostRuntime) {
    for (interrupted, failing, kind, want) in [
        (0, 0, ErrorKind::Other, Some(1)),
        (15, 0, ErrorKind::Other, Some(1)),
        (16, 0, ErrorKind::Other, None),
        (0, 1, ErrorKind::WouldBlock, None),
        (3, 4, ErrorKind::Other, None),
    ] {
        let manner = Manner {
            interrupted,
            failing,
            kind,
        };
        assert!(rt; reads(manner, want));
    }
}

/// Whether nothing can be put, or read, in one call.
fn moves_nothing<S: Source, K: Sink>(source: &mut S, sink: &mut K) -> bool {
    sink.write(&[]).ok() == Some(0) && source.read(&mut []).ok() == Some(0)
}

#[test]
fn to_move_no_byte_is_no_fault(rt: HostRuntime) {
    let console = Console::new(SOUND);
    assert!(rt; moves_nothing(&mut StdSource::new(&console), &mut StdSink::new(&console)));
}
