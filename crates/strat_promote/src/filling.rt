//! The second pass: the groups are written into the arrays of the parts that take them.

ghost use Rattle.std.specs.List.{list_all, slice_get};
ghost use Rattle.std.specs.Ordering.{is_lt};
ghost use Rattle.std.specs.Prelude.{◌≡◌, ◌<◌, ◌≤◌, ◌⊎◌, ◌+◌, ◌^◌, ℕ, List, length, true, false, Some, IfOk, OnOk, IsErrOf, IsTrue, MatchResult};
ghost use Rattle.strat_arena.specs.Items.{entries_of};
ghost use Rattle.strat_array.specs.Progress.{ArrayProgress};
ghost use Rattle.strat_base.specs.Entries.{Entry as KeyEntry, is_of};
ghost use Rattle.strat_base.specs.Order.{key_cmp};
ghost use Rattle.strat_base.specs.Tree.{Parents};
ghost use Rattle.def_crash.specs.Blocks.{TearsBlocks};
ghost use Rattle.def_crash.specs.Image.{Image};
ghost use Rattle.def_crash.specs.Moments.{Exposes};
ghost use Rattle.strat_extent.specs.Blocks.{is_free, used_count};
ghost use Rattle.strat_promote.specs.Closing.{AreAllUsed, all_extents};
ghost use Rattle.strat_promote.specs.Filled.{AreReadyFor, IsDealable, IsFilling, SameFilling, DealsOut};
ghost use Rattle.strat_promote.specs.Obstacles.{MeetsObstacle};
ghost use Rattle.strat_promote.specs.Spaces.{HasFewFree, TakesMore};
ghost use Rattle.strat_promote.specs.declared.obstacle.Obstacle.TheVariants as obstacle;
ghost use Rattle.strat_split.specs.Dealing.{IsSplitFor};

use crate::obstacle::Obstacle;
use crate::push::push_part;
use strat_arena::{Arena, Item};
use strat_array::ArrayWriter;
use strat_disk::Disk;
use strat_extent::Space;
use strat_split::parts::Plan;
use strat_split::{Dealer, Hanging};
use strat_tree::Tree;

/// A plan, and the arrays of its parts as far as they are written.
#[derive(Drop)]
pub(crate) struct Filling {
    pub(crate) plan: Plan,
    pub(crate) hanging: Hanging,
    pub(crate) dealer: Dealer,
    pub(crate) writers: Vec<ArrayWriter>,
}

/// Adds the items of a key to the arrays of the parts that take them. O(items that are taken), each with what its array
/// and the dealer ask.
pub(crate) fn deal_out<D: Disk>(
    filling: &mut Filling,
    arena: &Arena,
    items: &[Item],
    tree: &Tree,
    space: &mut Space,
    disk: &mut D,
) -> Result<(), Obstacle>
    requires kept { IsFilling (length filling.old.plan.part_of) filling.old
        × AreAllUsed space.old filling.old.writers.items }
    requires fits { IsDealable (length filling.old.plan.part_of) tree.now.parents
        arena.now.pairs items.now filling.old.writers.items }
    ensures ok { OnOk result ((parents : Parents)
        → IsSplitFor tree.now.parents parents filling.old.plan items.now
        → DealsOut (D.view disk.old) (D.view disk.new) parents filling.old.plan arena.now.pairs
        items.now filling.old.writers.items filling.new.writers.items) }
    ensures kept { OnOk result (IsFilling (length filling.old.plan.part_of) filling.new) }
    ensures state { OnOk result ((key later : List ℕ)
        → IsTrue (list_all (is_of key) (entries_of arena.now.pairs items.now))
        → AreReadyFor key filling.old.writers.items → IsTrue (is_lt (key_cmp key later))
        → AreReadyFor later filling.new.writers.items) }
    ensures fits { IsErrOf result obstacle.Unfit → ((q : ℕ) × ((w : ArrayProgress)
        × (slice_get filling.old.writers.items q ≡ Some w) × (33554432 ≤ w.count + 16384)))
        ⊎ HasFewFree space.old (2 ^ 28) }
    ensures used { used_count space.new ≤ used_count space.old + 2 ^ 28 }
    ensures found { AreAllUsed space.new filling.new.writers.items }
    ensures room { TakesMore space.old space.new
        (all_extents filling.old.writers.items) (all_extents filling.new.writers.items) }
    ensures same { TearsBlocks (is_free space.old) (D.view disk.old) (D.view disk.new)
        × SameFilling filling.old filling.new }
    ensures cause { MatchResult result (λ _. D.faults disk.new ≡ D.faults disk.old)
        (λ e. MeetsObstacle e (D.faults disk.old) (D.faults disk.new)) }
    ensures reads { D.reads disk.new ≡ D.reads disk.old }
{
    filling.dealer.begin(items, &filling.plan)?;
    while let Some(part) = filling
        .dealer
        .next_part(items, tree, &filling.plan, &filling.hanging)
    {
        push_part(
            &mut filling.writers,
            part,
            arena,
            filling.dealer.taken(),
            space,
            disk,
        )?;
    }
    Ok(())
}
