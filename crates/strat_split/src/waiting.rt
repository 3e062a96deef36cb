//! The parts that wait to be dealt, the greatest first, so that the least is taken from the end.

ghost use Rattle.std.specs.Prelude.{◌≡◌, ◌<◌, ◌≤◌, ℕ, ◌==◌, ◌||◌, Bool, length, false, slice_index, vec_len, vec_capacity};
ghost use Rattle.strat_split.specs.Waiting.{IsListed, IsWaitingPlace};

/// Puts a part that does not wait among those that do. O(log parts) comparisons, and a move of 4 bytes
/// for each lesser part that waits.
pub(crate) fn put(waiting: &mut Vec<u32>, q: u32)
    requires room { vec_len waiting.old < vec_capacity waiting.old }
    ensures ok { (test : ℕ → Bool) → test q ≡ false → IsListed test waiting.old.items
        → IsListed (λ r. test r || r == q) waiting.new.items }
    ensures room { vec_capacity waiting.old ≤ vec_capacity waiting.new }
{
    let at = place_for(waiting, q);
    let _ = waiting.insert(at, q);
}

/// The place of the first part that waits and is not greater, or how many wait.
fn place_for(waiting: &[u32], q: u32) -> usize
    ensures len { result ≤ length waiting.now }
    ensures ok { (test : ℕ → Bool) → test q ≡ false → IsListed test waiting.now
        → IsWaitingPlace q waiting.now result }
{
    waiting.partition_point(|r| *r > q)
}
