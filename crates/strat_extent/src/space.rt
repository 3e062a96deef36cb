//! Which blocks of a file are used: the lowest free ones are taken, and blocks are given back.

ghost use Rattle.std.specs.Prelude.{◌≡◌, ℕ, ◌+◌, ◌-◌, ◌<◌, ◌≤◌, ◌^◌, ◌↔◌, true, false, List, [], ◌∷◌, ◌++◌, MatchBool, IfOk, OnOk, OnErr};
ghost use Rattle.strat_base.specs.declared.descriptors.Extent.{Extent as TheExtent};
ghost use Rattle.strat_extent.specs.Blocks.{AreRuns, times_in, total_len, is_used, uses, used_count};
ghost use Rattle.strat_extent.specs.Gap.{IsInHole};
ghost use Rattle.strat_extent.specs.Change.{IsMarked, SameBlocks, CanMark, CanGive, AreLowest};

use crate::holes::{cut_hole, hole_of, join_run, open_run, place_of, put_run, reserve_for};
use std::alloc::Global;
use std::collections::VecDeque;
use std::marker::Model;
use strat_base::{Extent, Extents, NoMemory};

/// The blocks of a file that are used: from `first` on and below `end`, but for those in holes. It
/// has room for as many holes as there are used blocks, so that blocks can be given back in any order.
#[derive(Drop)]
pub struct Space {
    first: u32,
    end: u32,
    used: u32,
    holes: VecDeque<Extent>,
}

impl Model for Space {
    ghost use Rattle.strat_extent.specs.Blocks.{SpaceView};

    ghost Value = { SpaceView };

    ghost use Rattle.strat_extent.specs.Fields.{space_of, IsSpace};

    ghost view = { space_of };

    ghost invariant = { IsSpace };
}

impl Space {
    /// A space whose blocks are numbered from `first` on, none of them used. It takes no memory.
    pub fn new(alloc: Global, first: u32) -> Space
        ensures ok { (b : ℕ) → is_used result b ≡ false }
        ensures found { result.first ≡ first }
        ensures len { used_count result ≡ 0 }
    {
        Space {
            first,
            end: first,
            used: 0,
            holes: VecDeque::new(alloc),
        }
    }

    /// How many blocks may still be taken. O(1).
    pub fn free(&self) -> u32
        ensures ok { result ≡ 4294967295 - self.now.first - used_count self.now }
        ensures len { (xs : List TheExtent) → ((b : ℕ) → uses self.now b ≤ times_in xs b)
            → 4294967295 ≤ self.now.first + total_len xs + result }
    {
        u32::MAX - self.first - self.used
    }

    /// One past the greatest block that is used, or the first block where none is. O(1).
    pub fn end(&self) -> u32
        ensures ok { (b : ℕ) → is_used self.now b ≡ true → b < result }
        ensures found { self.now.first < result → is_used self.now (result - 1) ≡ true }
        ensures fits { self.now.first ≤ result }
        ensures kept { AreRuns self.now.first self.now.holes self.now.end }
    {
        self.end
    }

    /// Takes a run out of a hole.
    fn mark_in_hole(&mut self, i: usize, run: Extent) -> Result<bool, NoMemory>
        requires fits { (0 < run.len) × (run.start + run.len < 2 ^ 32) }
        requires found { IsInHole self.old.holes i run }
        ensures ok { IfOk result (λ marked. (marked ≡ true)
            × IsMarked self.old (run ∷ []) self.new) }
        ensures err { OnErr result (self.new ≡ self.old) }
    {
        let used = self.used + run.len;
        reserve_for(&mut self.holes, used as usize)?;
        cut_hole(&mut self.holes, i, run);
        self.used = used;
        Ok(true)
    }

    /// Makes a run at or above the end used, and a hole of what is left out below it.
    fn mark_above(&mut self, run: Extent) -> Result<bool, NoMemory>
        requires fits { (0 < run.len) × (run.start + run.len < 2 ^ 32) }
        requires found { self.old.end ≤ run.start }
        ensures ok { IfOk result (λ marked. (marked ≡ true)
            × IsMarked self.old (run ∷ []) self.new) }
        ensures err { OnErr result (self.new ≡ self.old) }
    {
        let used = self.used + run.len;
        reserve_for(&mut self.holes, used as usize)?;
        let at = self.holes.len();
        let below = Extent {
            start: self.end,
            len: run.start - self.end,
        };
        put_run(&mut self.holes, at, below);
        self.end = run.start + run.len;
        self.used = used;
        Ok(true)
    }

    /// Makes a run of blocks used and answers true, where all of them are free; else it changes nothing
    /// and answers false. O(log holes), and the shorter side of the holes moves.
    fn mark_run(&mut self, run: Extent) -> Result<bool, NoMemory>
        ensures ok { IfOk result (λ marked. MatchBool marked
            (IsMarked self.old (run ∷ []) self.new) (self.new ≡ self.old)) }
        ensures cause { IfOk result (λ marked. (marked ≡ true) ↔ CanMark self.old (run ∷ [])) }
        ensures err { OnErr result (self.new ≡ self.old) }
    {
        if run.len == 0 {
            return Ok(true);
        }
        if run.start < self.first {
            return Ok(false);
        }
        let Some(_) = run.start.checked_add(run.len) else {
            return Ok(false);
        };
        if run.start >= self.end {
            return self.mark_above(run);
        }
        match hole_of(&self.holes, run) {
            Some(i) => self.mark_in_hole(i, run),
            None => Ok(false),
        }
    }

    /// Makes a run of used blocks free. It takes no memory.
    fn give_run(&mut self, run: Extent)
        requires { CanGive self.old (run ∷ []) }
        ensures ok { IsMarked self.new (run ∷ []) self.old }
    {
        if run.len == 0 {
            return;
        }
        let at = place_of(&self.holes, run.start);
        let (place, joined) = join_run(&mut self.holes, at, run);
        self.end = open_run(&mut self.holes, self.end, place, joined);
        self.used -= run.len;
    }

    /// Makes runs of used blocks free. It takes no memory.
    fn give_runs(&mut self, runs: &[Extent])
        requires { CanGive self.old runs.now }
        ensures ok { IsMarked self.new runs.now self.old }
    {
        for run in runs {
            self.give_run(*run);
        }
    }

    /// Makes the blocks of all these extents used and answers true, where all are free and none stands
    /// twice; else it changes nothing and answers false. An extent of no blocks changes nothing. What it
    /// has no memory for is undone. O(log holes) an extent, and the shorter side of the holes moves.
    pub fn mark(&mut self, extents: &Extents) -> Result<bool, NoMemory>
        ensures ok { IfOk result (λ marked. MatchBool marked
            (IsMarked self.old extents.now self.new) (SameBlocks self.old self.new)) }
        ensures cause { IfOk result (λ marked. (marked ≡ true) ↔ CanMark self.old extents.now) }
        ensures err { OnErr result (SameBlocks self.old self.new) }
    {
        let runs = extents.as_slice();
        for i in 0..runs.len() {
            let marked = match self.mark_run(runs[i]) {
                Ok(marked) => marked,
                Err(failed) => {
                    self.give_runs(&runs[..i]);
                    return Err(failed);
                }
            };
            if !marked {
                self.give_runs(&runs[..i]);
                return Ok(false);
            }
        }
        Ok(true)
    }

    /// The lowest free blocks that stand in a row, at most so many.
    fn lowest(&self, most: u32) -> Extent
        requires { (1 ≤ most) × (used_count self.now + most ≤ 4294967295 - self.now.first) }
        ensures fits { (1 ≤ result.len) × (result.len ≤ most) }
        ensures ok { CanMark self.now (result ∷ []) }
        ensures found { (b : ℕ) → self.now.first ≤ b → b < result.start
            → is_used self.now b ≡ true }
        ensures end { result.len < most → is_used self.now (result.start + result.len) ≡ true }
    {
        match self.holes.front() {
            Some(hole) => Extent {
                start: hole.start,
                len: hole.len.min(most),
            },
            None => Extent {
                start: self.end,
                len: most,
            },
        }
    }

    /// Makes a free run used and adds it to those that were taken.
    fn take_run(&mut self, run: Extent, taken: &mut Extents) -> Result<(), NoMemory>
        requires { CanMark self.old (run ∷ []) }
        ensures ok { OnOk result (IsMarked self.old (run ∷ []) self.new
            × (taken.new ≡ taken.old ++ run ∷ [])) }
        ensures err { OnErr result (SameBlocks self.old self.new × (taken.new ≡ taken.old)) }
    {
        let _ = self.mark_run(run)?;
        match taken.push(run) {
            Ok(()) => Ok(()),
            Err((failed, _)) => {
                self.give_run(run);
                Err(failed)
            }
        }
    }

    /// Takes the n lowest free blocks, as ascending extents that don't touch. What it has no memory for
    /// is undone. O(log holes) an extent taken: each is taken off the first hole or above the end.
    pub fn take(&mut self, n: u32) -> Result<Extents, NoMemory>
        requires fits { (1 ≤ n) × (used_count self.old + n ≤ 4294967295 - self.old.first) }
        ensures ok { IfOk result (λ taken. IsMarked self.old taken self.new) }
        ensures len { IfOk result (λ taken. total_len taken ≡ n) }
        ensures found { IfOk result (λ taken. AreLowest taken self.new) }
        ensures kept { IfOk result (λ taken. AreRuns self.old.first taken (2 ^ 32)) }
        ensures err { OnErr result (SameBlocks self.old self.new) }
    {
        let mut taken = Extents::new(*self.holes.allocator());
        let mut left = n;
        while left > 0 {
            let run = self.lowest(left);
            match self.take_run(run, &mut taken) {
                Ok(()) => left -= run.len,
                Err(failed) => {
                    self.give_runs(taken.as_slice());
                    return Err(failed);
                }
            }
        }
        Ok(taken)
    }

    /// Makes the blocks of extents free, where all of them are used and none stands twice. It takes no
    /// memory: the room was made when the blocks became used. An extent of no blocks changes nothing.
    /// O(log holes) an extent, and the shorter side of the holes moves.
    pub fn give(&mut self, extents: &Extents)
        requires found { CanGive self.old extents.now }
        ensures ok { IsMarked self.new extents.now self.old }
    {
        self.give_runs(extents.as_slice());
    }
}
