//! A source and a sink in memory, for tests. They fail at listed calls.

ghost use Rattle.std.specs.Prelude.{◌≡◌, ◌≤◌, ◌<◌, ◌+◌, ◌↔◌, ℕ, List, [], length, take, min, Option, IsErr, IfOk, OnErr, IsTrue, Contains, if◌then◌else◌};
ghost use Rattle.def_crash.specs.Faults.{CountsFaults, one_more};
ghost use Rattle.strat_io.specs.Streams.{Gives, Appends};

use crate::sink::Sink;
use crate::source::Source;
use std::alloc::Global;
use std::marker::Model;
use strat_base::{Failed, NoMemory};

/// Which calls of an object fail, and how many were made and failed so far.
#[derive(Drop)]
struct Calls {
    failing: Vec<u64>,
    made: u64,
    faults: u64,
}

impl Calls {
    fn new(alloc: Global, failing: &[u64]) -> Result<Calls, NoMemory>
        ensures ok { IfOk result (λ c. (c.failing.items ≡ failing.now) × (c.made ≡ 0)) }
        ensures faults { IfOk result (λ c. c.faults ≡ 0) }
    {
        Ok(Calls {
            failing: failing.to_vec(alloc)?,
            made: 0,
            faults: 0,
        })
    }

    /// Counts one more call, and says whether it is to fail.
    fn next_fails(&mut self) -> bool
        ensures found { IsTrue result ↔ Contains self.old.failing.items self.new.made }
        ensures same { self.new ≡ record self.old { made = one_more self.old.made } }
    {
        self.made = self.made.saturating_add(1);
        self.failing.contains(&self.made)
    }

    /// Counts one more failure.
    fn fail(&mut self) -> Failed
        ensures same { self.new ≡ record self.old { faults = one_more self.old.faults } }
        ensures faults { self.old.faults ≤ self.new.faults }
    {
        self.faults = self.faults.saturating_add(1);
        Failed
    }
}

/// A source that gives bytes of memory, at most so many a call, and fails at the calls that are listed by
/// number, from 1. It is seen as a `Playback`.
#[derive(Drop)]
pub struct MemSource {
    bytes: Vec<u8>,
    at: usize,
    piece: usize,
    calls: Calls,
}

impl Model for MemSource {
    ghost use Rattle.std.specs.Prelude.{◌≤◌, ◌<◌, length, drop, vec_len};
    ghost use Rattle.strat_io.specs.Memory.{Playback};

    ghost Value = { Playback };

    ghost view = { λ s. record {
      left = drop s.at s.bytes.items;
      piece = s.piece;
      failing = s.calls.failing.items;
      calls = s.calls.made;
      faults = s.calls.faults;
    } };

    ghost invariant = { λ s. (s.at ≤ length s.bytes.items) × (0 < s.piece) };
}

impl MemSource {
    /// Copies the bytes and the numbers. A call of number 2^64 - 1 or later counts as that number.
    pub fn new(
        alloc: Global,
        bytes: &[u8],
        failing: &[u64],
        piece: usize,
    ) -> Result<MemSource, NoMemory>
        requires { 0 < piece }
        ensures { IfOk result (λ s. s ≡ record {
          left = bytes.now;
          piece = piece;
          failing = failing.now;
          calls = 0;
          faults = 0;
        }) }
    {
        let calls = Calls::new(alloc, failing)?;
        Ok(MemSource {
            bytes: bytes.to_vec(alloc)?,
            at: 0,
            piece,
            calls,
        })
    }
}

/// Copies the first `n` bytes of `from` to the front of `into`.
fn copy_front(into: &mut [u8], from: &[u8], n: usize)
    requires room { n ≤ length into.old }
    requires fits { n ≤ length from.now }
    ensures { take n into.new ≡ take n from.now }
{
    into[..n].copy_from_slice(&from[..n]);
}

impl Source for MemSource {
    ghost use Rattle.std.specs.Prelude.{Some};

    ghost left = { λ s. Some s.left };

    ghost faults = { λ s. s.faults };

    fn read(&mut self, into: &mut [u8]) -> Result<usize, Failed>
        ensures fits { IfOk result (λ n. n ≤ length into.new) }
        ensures ok { IfOk result (λ n. Gives (Some self.old.left) (Some self.new.left) into.new n) }
        ensures err { OnErr result (self.new.left ≡ self.old.left) }
        ensures cause { CountsFaults self.old.faults self.new.faults result }
        ensures len { IfOk result
            (λ n. n ≡ min (min self.old.piece (length into.old)) (length self.old.left)) }
        // It fails exactly at the listed calls, and each failure is one more fault.
        ensures faults { (IsErr result ↔ Contains self.old.failing self.new.calls)
            × OnErr result (self.new.faults ≡ one_more self.old.faults) }
        ensures same { self.new ≡ record self.old {
          left = self.new.left;
          calls = one_more self.old.calls;
          faults = self.new.faults;
        } }
    {
        if self.calls.next_fails() {
            return Err(self.calls.fail());
        }
        let left = self.bytes.len() - self.at;
        let n = self.piece.min(into.len()).min(left);
        copy_front(into, &self.bytes[self.at..], n);
        self.at += n;
        Ok(n)
    }
}

/// A sink that keeps what it is given in memory, and takes at most so many bytes a call. It fails at the
/// calls that are listed by number, from 1, and out of memory. It is seen as a `Recording`.
#[derive(Drop)]
pub struct MemSink {
    bytes: Vec<u8>,
    most: usize,
    calls: Calls,
}

impl Model for MemSink {
    ghost use Rattle.std.specs.Prelude.{◌<◌};
    ghost use Rattle.strat_io.specs.Memory.{Recording};

    ghost Value = { Recording };

    ghost view = { λ s. record {
      held = s.bytes.items;
      most = s.most;
      failing = s.calls.failing.items;
      calls = s.calls.made;
      faults = s.calls.faults;
    } };

    ghost invariant = { λ s. 0 < s.most };
}

impl MemSink {
    /// An empty sink. A call of number 2^64 - 1 or later counts as that number.
    pub fn new(alloc: Global, failing: &[u64], most: usize) -> Result<MemSink, NoMemory>
        requires { 0 < most }
        ensures { IfOk result (λ s. s ≡ record {
          held = [];
          most = most;
          failing = failing.now;
          calls = 0;
          faults = 0;
        }) }
    {
        Ok(MemSink {
            bytes: Vec::new(alloc),
            most,
            calls: Calls::new(alloc, failing)?,
        })
    }

    /// The bytes that it took so far.
    pub fn bytes(&self) -> &[u8]
        ensures { result.now ≡ self.now.held }
    {
        &self.bytes
    }
}

impl Sink for MemSink {
    ghost use Rattle.std.specs.Prelude.{Some};

    ghost held = { λ s. Some s.held };

    ghost faults = { λ s. s.faults };

    fn write(&mut self, piece: &[u8]) -> Result<usize, Failed>
        ensures fits { IfOk result (λ n. n ≤ length piece.now) }
        ensures none { IfOk result (λ n. 0 < length piece.now → 0 < n) }
        ensures ok { IfOk result
            (λ n. Appends (Some self.old.held) (Some self.new.held) (take n piece.now)) }
        ensures err { OnErr result (self.new.held ≡ self.old.held) }
        ensures cause { CountsFaults self.old.faults self.new.faults result }
        ensures len { IfOk result (λ n. n ≡ min self.old.most (length piece.now)) }
        // It fails at the listed calls and out of memory, and each failure is one more fault.
        ensures faults { (Contains self.old.failing self.new.calls → IsErr result)
            × OnErr result (self.new.faults ≡ one_more self.old.faults) }
        ensures same { self.new ≡ record self.old {
          held = self.new.held;
          calls = one_more self.old.calls;
          faults = self.new.faults;
        } }
    {
        if self.calls.next_fails() {
            return Err(self.calls.fail());
        }
        let n = self.most.min(piece.len());
        if self.bytes.extend_from_slice(&piece[..n]).is_err() {
            return Err(self.calls.fail());
        }
        Ok(n)
    }
}
