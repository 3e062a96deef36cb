//! Laws of the words in which a space is described. Each is the contract of a function that does nothing.

ghost use Rattle.std.specs.Prelude.{◌≡◌, ℕ, ◌<◌, ◌≤◌, ◌-◌, false, ◌||◌, nat_lt, ◌==◌, List, length};
ghost use Rattle.std.specs.List.{count_by, range_with_len};
ghost use Rattle.strat_base.specs.declared.descriptors.Extent.{Extent};
ghost use Rattle.strat_extent.specs.Blocks.{SpaceView, AreRuns, times_in, total_len, is_used, uses, used_count};
ghost use Rattle.strat_extent.specs.Change.{IsMarked};
ghost use Rattle.def_bytes.specs.Arrays.{blocks_of};

/// A block stands in extents as often as in the list of their blocks, and that list is as long as they
/// are together.
pub fn blocks_are_those_of_the_list()
    ensures ok { (xs : List Extent) (b : ℕ)
        → times_in xs b ≡ count_by (λ a. a == b) (blocks_of xs) }
    ensures len { (xs : List Extent) → total_len xs ≡ length (blocks_of xs) }
{}

/// Where blocks were marked, those are used that were used and those that were marked, and none was
/// both.
pub fn marked_blocks_are_used_too()
    ensures ok { (before after : SpaceView) (xs : List Extent) → IsMarked before xs after → (b : ℕ)
        → is_used after b ≡ is_used before b || nat_lt 0 (times_in xs b) }
    ensures none { (before after : SpaceView) (xs : List Extent) → IsMarked before xs after
        → (b : ℕ) → 0 < times_in xs b → is_used before b ≡ false }
{}

/// The count of used blocks is that of the blocks which `is_used` tells, wherever the holes are runs
/// from the first block on and below the end, as they are in every space.
pub fn used_blocks_are_counted()
    ensures { (s : SpaceView) → AreRuns s.first s.holes s.end → s.first ≤ s.end
        → used_count s ≡ count_by (λ b. is_used s b) (range_with_len s.first (s.end - s.first)) }
{}

/// No more blocks are used than extents have together in which each block that is used stands.
pub fn used_blocks_are_no_more_than_those_of_extents()
    ensures { (s : SpaceView) (xs : List Extent) → AreRuns s.first s.holes s.end
        → s.first ≤ s.end → ((b : ℕ) → uses s b ≤ times_in xs b)
        → used_count s ≤ total_len xs }
{}
