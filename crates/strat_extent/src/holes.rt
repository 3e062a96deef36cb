//! Runs of free blocks, ascending, between two of which there is a block that is used.

ghost use Rattle.std.specs.Prelude.{◌≡◌, ℕ, ◌+◌, ◌<◌, ◌≤◌, ◌^◌, ◌∷◌, ◌==◌, OnOk, IfSome, IfNone};
ghost use Rattle.std.specs.VecDeque.{deque_len, deque_capacity};
ghost use Rattle.strat_extent.specs.Blocks.{AreRuns, inside, times_in, total_len};
ghost use Rattle.strat_extent.specs.Gap.{IsHolePlace, IsGap, IsInHole, HasUsedBlock};

use std::collections::VecDeque;
use strat_base::{Extent, NoMemory};

/// Makes room for so many holes in all.
pub(crate) fn reserve_for(holes: &mut VecDeque<Extent>, wanted: usize) -> Result<(), NoMemory>
    ensures same { (holes.new.items ≡ holes.old.items)
        × (deque_len holes.new ≡ deque_len holes.old) }
    ensures room { deque_capacity holes.old ≤ deque_capacity holes.new }
    ensures ok { OnOk result (wanted ≤ deque_capacity holes.new) }
{
    let missing = wanted.saturating_sub(holes.len());
    holes.reserve(missing)?;
    Ok(())
}

/// How many holes start at or below a block. O(log holes) comparisons.
pub(crate) fn place_of(holes: &VecDeque<Extent>, block: u32) -> usize
    ensures ok { (low high : ℕ) → AreRuns low holes.now.items high
        → IsHolePlace holes.now.items block result }
    ensures len { result ≤ deque_len holes.now }
{
    holes.partition_point(|hole| hole.start <= block)
}

/// Puts a run into a place, unless it is empty. The shorter side of the holes moves.
#[tactic(auto, using(crate::proofs::CountLemmas::times_insert, crate::proofs::CountLemmas::total_insert))]
pub(crate) fn put_run(holes: &mut VecDeque<Extent>, at: usize, run: Extent)
    requires fits { at ≤ deque_len holes.old }
    requires room { deque_len holes.old < deque_capacity holes.old }
    ensures ok { (low from high : ℕ) → low ≤ run.start → from ≤ run.start
        → run.start + run.len < high
        → IsGap low holes.old.items at from (run.start + run.len + 1) high
        → IsGap low holes.new.items at from run.start high }
    ensures found { (b : ℕ) → times_in holes.new.items b ≡ times_in (run ∷ holes.old.items) b }
    ensures len { total_len holes.new.items ≡ total_len (run ∷ holes.old.items) }
    ensures room { deque_capacity holes.old ≤ deque_capacity holes.new }
    ensures fits { (at ≤ deque_len holes.new) × (deque_len holes.new ≤ deque_len holes.old + 1) }
{
    if run.len > 0 {
        if let Err(_) = holes.insert(at, run) {
            unreachable!()
        }
    }
}

/// Takes the hole out that begins where a run ends, if there is one, and answers the two as one.
fn join_above(holes: &mut VecDeque<Extent>, at: usize, run: Extent) -> Extent
    requires fits { (at ≤ deque_len holes.old) × (run.start + run.len < 2 ^ 32) }
    requires kept { AreRuns 0 holes.old.items (2 ^ 32) }
    ensures ok { (low from high : ℕ) → run.start + run.len ≤ high
        → IsGap low holes.old.items at from (run.start + run.len) high
        → IsGap low holes.new.items at from (result.start + result.len + 1) high
        × (result.start + result.len ≤ high) }
    ensures same { result.start ≡ run.start }
    ensures found { (b : ℕ) → times_in (result ∷ holes.new.items) b
        ≡ times_in (run ∷ holes.old.items) b }
    ensures len { total_len (result ∷ holes.new.items) ≡ total_len (run ∷ holes.old.items) }
    ensures room { deque_capacity holes.new ≡ deque_capacity holes.old }
    ensures fits { (at ≤ deque_len holes.new) × (deque_len holes.new ≤ deque_len holes.old)
        × (run.len ≤ result.len) × (result.start + result.len < 2 ^ 32) }
{
    if at < holes.len() && holes[at].start == run.start + run.len {
        if let Some(above) = holes.remove(at) {
            return Extent {
                start: run.start,
                len: run.len + above.len,
            };
        }
    }
    run
}

/// Whether a run ends just before a block.
fn ends_at(run: &Extent, block: u32) -> bool
    requires { run.now.start + run.now.len < 2 ^ 32 }
    ensures ok { result ≡ (run.now.start + run.now.len == block) }
{
    run.start + run.len == block
}

/// Takes the hole out that ends where a run begins, if there is one, and answers the two as one and
/// their place.
fn join_below(holes: &mut VecDeque<Extent>, at: usize, run: Extent) -> (usize, Extent)
    requires fits { (at ≤ deque_len holes.old) × (run.start + run.len < 2 ^ 32) }
    requires kept { AreRuns 0 holes.old.items (2 ^ 32) }
    ensures ok { (low to high : ℕ) → low ≤ run.start
        → IsGap low holes.old.items at (run.start + 1) to high
        → IsGap low holes.new.items result.0 result.1.start to high × (low ≤ result.1.start) }
    ensures same { result.1.start + result.1.len ≡ run.start + run.len }
    ensures found { (b : ℕ) → times_in (result.1 ∷ holes.new.items) b
        ≡ times_in (run ∷ holes.old.items) b }
    ensures len { total_len (result.1 ∷ holes.new.items) ≡ total_len (run ∷ holes.old.items) }
    ensures room { deque_capacity holes.new ≡ deque_capacity holes.old }
    ensures fits { (result.0 ≤ deque_len holes.new) × (deque_len holes.new ≤ deque_len holes.old)
        × (run.len ≤ result.1.len) }
{
    if at > 0 && ends_at(&holes[at - 1], run.start) {
        if let Some(below) = holes.remove(at - 1) {
            let joined = Extent {
                start: below.start,
                len: below.len + run.len,
            };
            return (at - 1, joined);
        }
    }
    (at, run)
}

/// Takes the holes out that a run touches, and answers all of them as one run and its place.
pub(crate) fn join_run(holes: &mut VecDeque<Extent>, at: usize, run: Extent) -> (usize, Extent)
    requires fits { (at ≤ deque_len holes.old) × (run.start + run.len < 2 ^ 32) × (0 < run.len) }
    requires kept { IsGap 0 holes.old.items at (run.start + 1) (run.start + run.len) (2 ^ 32) }
    ensures ok { (low high : ℕ) → low ≤ run.start → run.start + run.len ≤ high
        → IsGap low holes.old.items at (run.start + 1) (run.start + run.len) high
        → IsGap low holes.new.items result.0 result.1.start
        (result.1.start + result.1.len + 1) high
        × (low ≤ result.1.start) × (result.1.start + result.1.len ≤ high) }
    ensures found { (b : ℕ) → times_in (result.1 ∷ holes.new.items) b
        ≡ times_in (run ∷ holes.old.items) b }
    ensures len { total_len (result.1 ∷ holes.new.items) ≡ total_len (run ∷ holes.old.items) }
    ensures room { deque_capacity holes.new ≡ deque_capacity holes.old }
    ensures fits { (result.0 ≤ deque_len holes.new) × (0 < result.1.len) }
{
    let upper = join_above(holes, at, run);
    join_below(holes, at, upper)
}

/// Which hole has each block of a run.
pub(crate) fn hole_of(holes: &VecDeque<Extent>, run: Extent) -> Option<usize>
    requires fits { (0 < run.len) × (run.start + run.len < 2 ^ 32) }
    requires kept { AreRuns 0 holes.now.items (2 ^ 32) }
    ensures found { IfSome result (λ i. IsInHole holes.now.items i run) }
    ensures none { IfNone result ((low high : ℕ) → low ≤ run.start → run.start < high
        → AreRuns low holes.now.items high → HasUsedBlock low holes.now.items high run) }
{
    let at = place_of(holes, run.start);
    if at == 0 {
        return None;
    }
    let hole = holes[at - 1];
    if run.start + run.len <= hole.start + hole.len {
        Some(at - 1)
    } else {
        None
    }
}

/// Takes a run out of a hole that has it, so that up to two holes are left of it.
pub(crate) fn cut_hole(holes: &mut VecDeque<Extent>, i: usize, run: Extent)
    requires fits { (0 < run.len) × (run.start + run.len < 2 ^ 32) }
    requires kept { AreRuns 0 holes.old.items (2 ^ 32) }
    requires found { IsInHole holes.old.items i run }
    requires room { deque_len holes.old < deque_capacity holes.old }
    ensures ok { (low high : ℕ) → AreRuns low holes.old.items high
        → AreRuns low holes.new.items high }
    ensures found { (b : ℕ) → times_in (run ∷ holes.new.items) b ≡ times_in holes.old.items b }
    ensures len { total_len (run ∷ holes.new.items) ≡ total_len holes.old.items }
    ensures room { deque_capacity holes.old ≤ deque_capacity holes.new }
{
    if let Some(hole) = holes.remove(i) {
        let stop = run.start + run.len;
        let above = Extent {
            start: stop,
            len: hole.start + hole.len - stop,
        };
        let below = Extent {
            start: hole.start,
            len: run.start - hole.start,
        };
        put_run(holes, i, above);
        put_run(holes, i, below);
    }
}

/// Puts a run into a place of holes below an end, or lowers the end where the run reaches it.
pub(crate) fn open_run(holes: &mut VecDeque<Extent>, end: u32, at: usize, run: Extent) -> u32
    requires fits { (at ≤ deque_len holes.old) × (0 < run.len) × (run.start + run.len ≤ end) }
    requires room { run.start + run.len < end → deque_len holes.old < deque_capacity holes.old }
    ensures ok { (low : ℕ) → low ≤ run.start
        → IsGap low holes.old.items at run.start (run.start + run.len + 1) end
        → AreRuns low holes.new.items result × (low ≤ result) }
    ensures found { (b : ℕ) → times_in holes.new.items b + inside result end b
        ≡ times_in (run ∷ holes.old.items) b }
    ensures len { total_len holes.new.items + end ≡ total_len (run ∷ holes.old.items) + result }
    ensures fits { result ≤ end }
    ensures room { deque_capacity holes.old ≤ deque_capacity holes.new }
{
    if run.start + run.len == end {
        return run.start;
    }
    put_run(holes, at, run);
    end
}
