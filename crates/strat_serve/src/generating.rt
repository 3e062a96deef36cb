//! A source whose bytes are made as they are read, and a sink that keeps nothing.

ghost use Rattle.std.specs.Prelude.{◌≡◌, ◌+◌, ◌-◌, ◌≤◌, ◌<◌, ℕ, length, take, min, List, Option, IsOk, IfOk, OnErr};
ghost use Rattle.def_crash.specs.Faults.{CountsFaults};
ghost use Rattle.strat_io.specs.Streams.{Gives, Appends};
ghost use Rattle.strat_serve.specs.Generated.{workload_bytes, bytes_left, IsGenerating};

use crate::drawing::{VERSIONS, draw_change};
use crate::framing::{FRAME_MAX, write_frame};
use arrayvec::ArrayVec;
use std::marker::Model;
use strat_base::Failed;
use strat_io::{Sink, Source};

/// What a source of a workload keeps: the generator's state, the versions' parents, how many changes
/// were drawn and how many there are, and the last one's frame with how many of its bytes were given.
#[derive(Drop)]
struct Frames {
    state: u64,
    parents: ArrayVec<Option<u32>, VERSIONS>,
    drawn: u32,
    count: u32,
    frame: ArrayVec<u8, FRAME_MAX>,
    given: usize,
}

impl Frames {
    /// Before the first draw.
    fn new(seed: u64, count: u32) -> Frames
        ensures ok { bytes_left result.count result.drawn result.state result.parents.items
            result.frame.items result.given ≡ workload_bytes seed count }
        ensures kept { IsGenerating result.count result.drawn result.parents.items
            result.frame.items result.given }
    {
        let mut parents = ArrayVec::new();
        parents.push(None);
        Frames {
            state: seed,
            parents,
            drawn: 0,
            count,
            frame: ArrayVec::new(),
            given: 0,
        }
    }

    /// Draws the next change where the last frame was given whole, if there is a next one.
    fn refill(&mut self)
        requires { IsGenerating self.old.count self.old.drawn self.old.parents.items
            self.old.frame.items self.old.given }
        ensures ok { bytes_left self.new.count self.new.drawn self.new.state self.new.parents.items
            self.new.frame.items self.new.given
            ≡ bytes_left self.old.count self.old.drawn self.old.state self.old.parents.items
            self.old.frame.items self.old.given }
        ensures end { self.new.given ≡ length self.new.frame.items
            → self.new.drawn ≡ self.new.count }
        ensures kept { IsGenerating self.new.count self.new.drawn self.new.parents.items
            self.new.frame.items self.new.given }
    {
        if self.given < self.frame.len() || self.drawn == self.count {
            return;
        }
        self.drawn += 1;
        let pick = draw_change(&mut self.state, &mut self.parents);
        write_frame(&mut self.frame, self.drawn, pick);
        self.given = 0;
    }
}

/// Copies as many of these bytes as there is room for to the front of `into`.
fn copy_front(into: &mut [u8], from: &[u8]) -> usize
    ensures len { result ≡ min (length from.now) (length into.old) }
    ensures ok { take result into.new ≡ take result from.now }
    ensures same { length into.new ≡ length into.old }
{
    let n = from.len().min(into.len());
    into[..n].copy_from_slice(&from[..n]);
    n
}

/// A source that gives the frames of a workload, and never fails. It draws each change when its frame
/// is read, takes no memory, and gives at most one frame a call. It is seen as the bytes left.
#[derive(Drop)]
pub struct GenSource {
    frames: Frames,
}

impl Model for GenSource {
    ghost use Rattle.std.specs.Prelude.{List, ℕ};
    ghost use Rattle.strat_serve.specs.Generated.{bytes_left, IsGenerating};

    ghost Value = { List ℕ };

    ghost view = { λ s. bytes_left s.frames.count s.frames.drawn s.frames.state
        s.frames.parents.items s.frames.frame.items s.frames.given };

    ghost invariant = { λ s. IsGenerating s.frames.count s.frames.drawn s.frames.parents.items
        s.frames.frame.items s.frames.given };
}

impl GenSource {
    /// The source of a workload of so many changes.
    pub fn new(seed: u64, count: u32) -> GenSource
        ensures { result ≡ workload_bytes seed count }
    {
        GenSource {
            frames: Frames::new(seed, count),
        }
    }
}

impl Source for GenSource {
    ghost use Rattle.std.specs.Prelude.{Some};

    ghost left = { λ s. Some s };

    // It never fails.
    ghost faults = { λ _. 0 };

    fn read(&mut self, into: &mut [u8]) -> Result<usize, Failed>
        ensures fits { IfOk result (λ n. n ≤ length into.new) }
        ensures ok { IfOk result (λ n. Gives (Some self.old) (Some self.new) into.new n) }
        ensures err { OnErr result (self.new ≡ self.old) }
        ensures cause { CountsFaults 0 0 result }
        ensures found { IsOk result }
    {
        self.frames.refill();
        let n = copy_front(into, &self.frames.frame.as_slice()[self.frames.given..]);
        self.frames.given += n;
        Ok(n)
    }
}

/// A sink that takes all and keeps nothing. It never fails, and exposes none of what it took.
#[derive(Clone, Copy)]
pub struct NullSink;

impl NullSink {
    /// A sink that keeps nothing.
    pub fn new() -> NullSink {
        NullSink
    }
}

impl Sink for NullSink {
    ghost use Rattle.std.specs.Prelude.{None};

    ghost held = { λ _. None };

    // It never fails.
    ghost faults = { λ _. 0 };

    fn write(&mut self, piece: &[u8]) -> Result<usize, Failed>
        ensures fits { IfOk result (λ n. n ≤ length piece.now) }
        ensures none { IfOk result (λ n. 0 < length piece.now → 0 < n) }
        ensures ok { IfOk result (λ n. Appends None None (take n piece.now)) }
        ensures err { OnErr result (◌≡◌ {A = Option (List ℕ)} None None) }
        ensures cause { CountsFaults 0 0 result }
        ensures len { IfOk result (λ n. n ≡ length piece.now) }
        ensures found { IsOk result }
    {
        Ok(piece.len())
    }
}
