//! Chains of the places in a list that have the same label.

ghost use Rattle.std.specs.Prelude.{◌≡◌, ◌<◌, ◌≤◌, ℕ, ◌+◌, List, length, slice_index};
ghost use Rattle.strat_split.specs.Chains.{IsLinked};

/// Puts a place before those that have its label, if that label has a chain. O(1).
pub(crate) fn link_place(
    label: u32,
    firsts: &mut [Option<u32>],
    nexts: &mut [Option<u32>],
    i: usize,
)
    requires fits { i < length nexts.old }
    requires room { i ≤ 4294967295 }
    ensures ok { (labels : List ℕ) → i < length labels → slice_index labels i ≡ label
        → IsLinked labels firsts.old nexts.old (i + 1) → IsLinked labels firsts.new nexts.new i }
{
    let label = label as usize;
    if label < firsts.len() {
        nexts[i] = firsts[label];
        firsts[label] = Some(i as u32);
    }
}
