//! The standard streams as a source and a sink. What they give and take is outside of every proof: this
//! file is a trusted edge.

ghost use Rattle.std.specs.Prelude.{◌≡◌};

use crate::sink::Sink;
use crate::source::Source;
use std::io;
use std::io::{ErrorKind, Input, Print, Read, Write};
use std::marker::{Model, PhantomData};
use strat_base::Failed;

/// How often a call that a signal interrupted is tried before it counts as failed.
const TRIES: u32 = 16;

/// Standard input. It is a trusted edge: it exposes none of its bytes, and is seen as its count of
/// faults. It reads no further ahead than it is asked to, so what it has not given is left to others.
#[derive(Drop)]
pub struct StdSource<'a, R: Input> {
    reader: R::Reader,
    rt: PhantomData<&'a R>,
    faults: u64,
}

impl<'a, R: Input> Model for StdSource<'a, R> {
    ghost use Rattle.std.specs.Prelude.{ℕ};

    ghost Value = { ℕ };

    ghost view = { λ s. s.faults };
}

impl<'a, R: Input> StdSource<'a, R> {
    /// The standard input of this runtime.
    pub fn new(rt: &'a R) -> StdSource<'a, R>
        ensures { result ≡ 0 }
    {
        StdSource {
            reader: rt.reader(),
            rt: PhantomData,
            faults: 0,
        }
    }
}

impl<R: Input> Source for StdSource<'_, R> {
    ghost use Rattle.std.specs.Prelude.{None};

    ghost left = { λ _. None };

    ghost faults = { λ s. s };

    fn read(&mut self, into: &mut [u8]) -> Result<usize, Failed> {
        for _ in 0..TRIES {
            match self.reader.read(into) {
                Ok(n) => return Ok(n),
                Err(e) if e.kind() == ErrorKind::Interrupted => {}
                Err(_) => break,
            }
        }
        self.faults = self.faults.saturating_add(1);
        Err(Failed)
    }
}

/// Standard output. It is a trusted edge: it exposes none of its bytes, and is seen as its count of
/// faults. Nothing is buffered: each call hands its piece to the system before it returns.
#[derive(Drop)]
pub struct StdSink<'a, R: Print> {
    rt: &'a R,
    faults: u64,
}

impl<'a, R: Print> Model for StdSink<'a, R> {
    ghost use Rattle.std.specs.Prelude.{ℕ};

    ghost Value = { ℕ };

    ghost view = { λ s. s.faults };
}

impl<'a, R: Print> StdSink<'a, R> {
    /// The standard output of this runtime.
    pub fn new(rt: &'a R) -> StdSink<'a, R>
        ensures { result ≡ 0 }
    {
        StdSink { rt, faults: 0 }
    }
}

impl<R: Print> Sink for StdSink<'_, R> {
    ghost use Rattle.std.specs.Prelude.{None};

    ghost held = { λ _. None };

    ghost faults = { λ s. s };

    fn write(&mut self, piece: &[u8]) -> Result<usize, Failed> {
        for _ in 0..TRIES {
            match io::writer(self.rt).write(piece) {
                Ok(0) if !piece.is_empty() => break,
                Ok(n) => return Ok(n),
                Err(e) if e.kind() == ErrorKind::Interrupted => {}
                Err(_) => break,
            }
        }
        self.faults = self.faults.saturating_add(1);
        Err(Failed)
    }
}
