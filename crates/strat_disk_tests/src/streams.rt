//! Sources and sinks in memory, and the adapters over a runtime that works and over one that fails.

use std::alloc::Allocator;
use std::fmt::Display;
use std::io;
use std::io::{BufRead, ErrorKind, Lines, Read};
use std::test::Fail;
use strat_io::{MemSink, MemSource, Sink, Source, StdSink, StdSource, put_all};

/// Whether one read through the bound answers so many bytes, of which this is the first; `None` is a failure.
fn reads<S: Source>(source: &mut S, want: Option<usize>, first: u8) -> bool {
    let mut into = [0; 4];
    let got = source.read(&mut into).ok();
    got == want && (got.unwrap_or(0) == 0 || into[0] == first)
}

/// Whether one write through the bound takes so many bytes; `None` is a failure.
fn writes<K: Sink>(sink: &mut K, piece: &[u8], want: Option<usize>) -> bool {
    sink.write(piece).ok() == want
}

#[test]
fn a_source_gives_pieces_and_fails_at_the_calls_named(rt: HostRuntime) -> Result<(), Fail> {
    let mut source = MemSource::new(rt.alloc(), b"abcde", &[1, 3], 2)?;
    for (want, first) in [
        (None, b'?'),
        (Some(2), b'a'),
        (None, b'?'),
        (Some(2), b'c'),
        (Some(1), b'e'),
        (Some(0), b'?'),
    ] {
        assert!(rt; reads(&mut source, want, first));
    }
    Ok(())
}

/// Whether a sink takes all of these bytes or fails, and what it holds then.
fn puts(sink: &mut MemSink, bytes: &[u8], taken: bool, held: &[u8]) -> bool {
    put_all(sink, bytes).is_ok() == taken && sink.bytes() == held
}

#[test]
fn a_sink_takes_pieces_and_fails_at_the_calls_named(rt: HostRuntime) -> Result<(), Fail> {
    let mut sink = MemSink::new(rt.alloc(), &[2], 3)?;
    assert!(rt; puts(&mut sink, b"hello", false, b"hel"));
    assert!(rt; puts(&mut sink, b"p me", true, b"help me"));
    assert!(rt; writes(&mut sink, b"!", Some(1)));
    Ok(())
}

/// Whether a sink takes all of such a piece at once, and holds it.
fn takes(sink: &mut MemSink, piece: &[u8]) -> bool {
    writes(sink, piece, Some(piece.len())) && sink.bytes() == piece
}

// The largest reply, with its length.
#[test]
fn a_sink_takes_the_largest_piece(rt: HostRuntime) -> Result<(), Fail> {
    let piece = vec![in rt.alloc(); 7u8; 328460]?;
    let mut sink = MemSink::new(rt.alloc(), &[], usize::MAX)?;
    assert!(rt; takes(&mut sink, &piece));
    Ok(())
}

/// A runtime whose output is closed, or takes nothing, and whose input fails.
#[derive(Drop)]
struct Broken {
    takes_nothing: bool,
}

fn closed() -> io::Error {
    io::Error::new(ErrorKind::BrokenPipe, "closed")
}

impl Print for Broken {
    fn print<D: Display + Drop>(&self, _value: D) -> io::Result<()> {
        Err(closed())
    }

    fn println<D: Display + Drop>(&self, _value: D) -> io::Result<()> {
        Err(closed())
    }

    fn write_all(&self, _bytes: &[u8]) -> io::Result<()> {
        Err(closed())
    }

    fn write_some(&self, _bytes: &[u8]) -> io::Result<usize> {
        if self.takes_nothing {
            Ok(0)
        } else {
            Err(closed())
        }
    }
}

/// A reader that always fails, or is interrupted at each try.
#[derive(Drop)]
struct NoReader;

impl Read for NoReader {
    fn read(&mut self, _buf: &mut [u8]) -> io::Result<usize> {
        Err(io::Error::new(ErrorKind::Interrupted, "a signal"))
    }
}

impl BufRead for NoReader {
    fn fill_buf(&mut self) -> io::Result<&[u8]> {
        Err(closed())
    }

    fn consume(&mut self, _amount: usize) {}
}

impl Input for Broken {
    type Reader = NoReader;

    fn read_line<A: Allocator + Clone>(&self, _buf: &mut String<A>) -> io::Result<usize> {
        Err(closed())
    }

    fn lines<A: Allocator>(&self, alloc: A) -> Lines<NoReader, A> {
        NoReader.lines(alloc)
    }

    fn reader(&self) -> NoReader {
        NoReader
    }
}

/// Whether a write over a broken runtime is a fault.
fn broken_output_fails(takes_nothing: bool) -> bool {
    let broken = Broken { takes_nothing };
    let mut sink = StdSink::new(&broken);
    writes(&mut sink, b"x", None)
}

/// Whether a read over a broken runtime is a fault.
fn broken_input_fails() -> bool {
    let broken = Broken {
        takes_nothing: true,
    };
    let mut source = StdSource::new(&broken);
    reads(&mut source, None, b'?')
}

#[test]
fn streams_that_fail_or_take_nothing_are_faults(rt: HostRuntime) {
    assert!(rt; broken_output_fails(false));
    assert!(rt; broken_output_fails(true));
    assert!(rt; broken_input_fails());
}

#[test]
fn standard_output_is_reached(rt: HostRuntime) {
    let mut sink = StdSink::new(&rt);
    assert!(rt; writes(&mut sink, b"to standard output\n", Some(19)));
}

#[test]
fn standard_input_is_reached(rt: HostRuntime) {
    let mut source = StdSource::new(&rt);
    assert!(rt; source.read(&mut []).ok() == Some(0));
}
