//! A tournament, in which the contender whose first entry stands first of all wins. After a contender has
//! passed over an entry only the nodes above its leaf are played again.

ghost use Rattle.std.specs.Prelude.{◌≡◌, ◌≤◌, ◌<◌, ℕ, ◌+◌, ◌*◌, ◌/◌, List, length, slice_index, slice_set, IfOk, IfSome, IfNone, None, IsSome, is_some, true, false};
ghost use Rattle.strat_merge.specs.Bracket.{is_ahead, winner_of, IsBracket, IsTournament, IsPlayed, PlayedBeside};
ghost use Rattle.strat_merge.specs.Runs.{RunView, head_at, NoneLeft};

use std::alloc::Global;
use strat_base::NoMemory;

/// Contenders of a tournament, by their numbers.
pub trait Contest {
    /// What a tournament sees of them.
    ghost contenders: { Self → List RunView };

    /// Their first entries are at hand.
    ghost is_ready: { Self → Type 0 };

    /// How many there are. O(1).
    fn count(&self) -> usize
        requires kept { is_ready self.now }
        ensures ok { result ≡ length (contenders self.now) };

    /// Whether one has an entry left. O(1).
    fn has_left(&self, contender: usize) -> bool
        requires kept { is_ready self.now }
        requires fits { contender < length (contenders self.now) }
        ensures ok { result ≡ is_some (head_at (contenders self.now) contender) };

    /// Whether one is ahead of another. A comparison of entries where they lie.
    fn precedes(&self, a: usize, b: usize) -> bool
        requires kept { is_ready self.now }
        requires fits { (a < length (contenders self.now)) × (b < length (contenders self.now)) }
        ensures ok { result ≡ is_ahead (head_at (contenders self.now) a) a
            (head_at (contenders self.now) b) b };
}

/// A bracket of so many contenders, of which no node but the leaves is played yet. O(contenders).
pub fn new_bracket(alloc: Global, contenders: usize) -> Result<Vec<usize>, NoMemory>
    ensures ok { IfOk result (λ w. IsBracket contenders w.items) }
{
    let Some(nodes) = contenders.checked_mul(2) else {
        return Err(NoMemory);
    };
    let mut winners = Vec::with_capacity(alloc, nodes)?;
    for k in 0..nodes {
        winners.push_reserved(k.saturating_sub(contenders));
    }
    Ok(winners)
}

/// Plays one node: the winner of the two below it takes its place.
fn play<C: Contest>(contest: &C, winners: &mut [usize], k: usize)
    requires kept { C.is_ready contest.now }
    requires fits { (1 ≤ k) × (k < length (C.contenders contest.now)) }
    requires found { IsBracket (length (C.contenders contest.now)) winners.old }
    ensures ok { winners.new ≡ slice_set winners.old k (winner_of (C.contenders contest.now)
        (slice_index winners.old (2 * k)) (slice_index winners.old (2 * k + 1))) }
    ensures kept { IsBracket (length (C.contenders contest.now)) winners.new }
{
    let a = winners[2 * k];
    let b = winners[2 * k + 1];
    winners[k] = if contest.precedes(b, a) { b } else { a };
}

/// Plays all nodes, the deepest first. O(contenders) comparisons of entries.
pub fn play_all<C: Contest>(contest: &C, winners: &mut [usize])
    requires kept { C.is_ready contest.now }
    requires found { IsBracket (length (C.contenders contest.now)) winners.old }
    ensures ok { IsTournament (C.contenders contest.now) winners.new }
{
    let mut k = contest.count();
    while k > 1 {
        k -= 1;
        play(contest, winners, k);
    }
}

/// Plays the nodes above a node, the nearest first. O(log contenders) comparisons of entries.
pub fn replay<C: Contest>(contest: &C, winners: &mut [usize], node: usize)
    requires kept { C.is_ready contest.now }
    requires found { IsBracket (length (C.contenders contest.now)) winners.old }
    requires fits { node < 2 * length (C.contenders contest.now) }
    requires same { PlayedBeside (C.contenders contest.now) winners.old (node / 2) }
    ensures ok { IsTournament (C.contenders contest.now) winners.new }
{
    let mut k = node / 2;
    while k > 0 {
        play(contest, winners, k);
        k /= 2;
    }
}

/// Whether some contender has an entry left. O(contenders).
pub fn any_left<C: Contest>(contest: &C) -> bool
    requires kept { C.is_ready contest.now }
    ensures ok { result ≡ false → NoneLeft (C.contenders contest.now) }
    ensures found { result ≡ true → (i : ℕ) × IsSome (head_at (C.contenders contest.now) i) }
{
    for contender in 0..contest.count() {
        if contest.has_left(contender) {
            return true;
        }
    }
    false
}

/// The contender whose first entry stands first of all, or `None` where none has one. O(1).
pub fn leader<C: Contest>(contest: &C, winners: &[usize]) -> Option<usize>
    requires kept { C.is_ready contest.now }
    requires found { IsTournament (C.contenders contest.now) winners.now }
    ensures found { IfSome result (λ w. (w < length (C.contenders contest.now))
        × IsSome (head_at (C.contenders contest.now) w)) }
    ensures ok { IfSome result (λ w. (i : ℕ)
        → is_ahead (head_at (C.contenders contest.now) i) i
        (head_at (C.contenders contest.now) w) w ≡ false) }
    ensures none { IfNone result ((i : ℕ) → head_at (C.contenders contest.now) i ≡ None) }
{
    if contest.count() == 0 {
        return None;
    }
    let winner = winners[1];
    if contest.has_left(winner) {
        Some(winner)
    } else {
        None
    }
}
