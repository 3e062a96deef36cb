//! Which items of one key the array of a part takes.

ghost use Rattle.std.specs.Prelude.{◌≡◌, ◌<◌, ◌==◌, length, slice_index_or, IsTrue};
ghost use Rattle.strat_arena.specs.declared.items.Item.{Item};
ghost use Rattle.strat_live.specs.Counting.{are_below};
ghost use Rattle.strat_live.specs.Group.{is_descending, is_live_item};
ghost use Rattle.def_split.specs.Plan.{part_of};
ghost use Rattle.strat_split.specs.PlanSeen.{plan_seen};
ghost use Rattle.strat_split.specs.Taken.{is_inherited_item, is_taken_item};

use crate::parts::Plan;
use strat_arena::Item;
use strat_base::Version;
use strat_live::live_in;
use strat_tree::Tree;

/// Whether a part takes item i of a group: the item is a lead of the part, or the one that is live where
/// the part hangs. O(1) for a lead, and else the time of `live_in` in the group.
pub fn takes(plan: &Plan, group: &[Item], tree: &Tree, part: u32, i: usize) -> bool
    requires kept { IsTrue (is_descending group.now) }
    requires fits { (part < length plan.now.parts) × (i < length group.now) }
    requires len { IsTrue (are_below (length plan.now.part_of) group.now) }
    requires found { IsTrue (are_below (length tree.now.parents) group.now) }
    ensures ok { (d : Item) → result ≡ is_taken_item tree.now.parents (plan_seen plan.now)
        group.now part (slice_index_or group.now i d) }
{
    is_lead(plan, part, group[i].version)
        || is_inherited(plan.parts.get(part as usize).above, group, tree, i)
}

/// Whether a version is in a part.
fn is_lead(plan: &Plan, part: u32, v: Version) -> bool
    requires { v < length plan.now.part_of }
    ensures ok { result ≡ (part_of (plan_seen plan.now) v == part) }
{
    *plan.part_of.get(v as usize) == part
}

/// Whether item i of a group is live where a part hangs.
fn is_inherited(above: Option<Version>, group: &[Item], tree: &Tree, i: usize) -> bool
    requires kept { IsTrue (is_descending group.now) }
    requires fits { i < length group.now }
    requires found { IsTrue (are_below (length tree.now.parents) group.now) }
    ensures ok { (d : Item) → result ≡ is_inherited_item tree.now.parents group.now above
        (slice_index_or group.now i d) }
{
    match above {
        Some(p) => is_live_at(group, tree, p, i),
        None => false,
    }
}

/// Whether item i of a group is live at a version, whatever number that is.
fn is_live_at(group: &[Item], tree: &Tree, v: Version, i: usize) -> bool
    requires kept { IsTrue (is_descending group.now) }
    requires fits { i < length group.now }
    requires found { IsTrue (are_below (length tree.now.parents) group.now) }
    ensures ok { (d : Item) → result ≡ is_live_item tree.now.parents group.now v
        (slice_index_or group.now i d) }
{
    if v >= tree.count() {
        return false;
    }
    match live_in(group, tree, v) {
        Some(at) => at == i,
        None => false,
    }
}
