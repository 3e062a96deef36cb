//! The look-up among the items of one key.

ghost use Rattle.std.specs.List.{position, position_or_len};
ghost use Rattle.std.specs.Prelude.{◌≡◌, ◌<◌, ◌≤◌, nat_le, length, IfSome, IsTrue};
ghost use Rattle.strat_base.specs.Tree.{is_ancestor};
ghost use Rattle.strat_live.specs.Group.{is_descending, is_live_item};

use strat_arena::Item;
use strat_base::Version;
use strat_tree::Tree;

/// The place of the item of v or of its nearest ancestor with one, among the items of one key with the
/// greatest version first. O(log items) comparisons, and then O(log versions_max) for each item of v or
/// a version below it until one is found.
pub fn live_in(group: &[Item], tree: &Tree, v: Version) -> Option<usize>
    requires kept { IsTrue (is_descending group.now) }
    requires fits { v < length tree.now.parents }
    ensures ok { result ≡ position (is_live_item tree.now.parents group.now v) group.now }
{
    first_on_path(group, tree, v)
}

/// The place of the first item of v or an ancestor of it. Those of versions above v are passed over.
fn first_on_path(group: &[Item], tree: &Tree, v: Version) -> Option<usize>
    requires kept { IsTrue (is_descending group.now) }
    requires fits { v < length tree.now.parents }
    ensures ok { result
        ≡ position (λ item. is_ancestor tree.now.parents item.version v) group.now }
{
    // For the proof: the parents are a tree.
    let _ = tree.count();
    let above = count_above(group, v);
    match position_on_path(&group[above..], tree, v) {
        Some(i) => Some(above + i),
        None => None,
    }
}

/// How many items have a version above v. O(log items) comparisons.
fn count_above(group: &[Item], v: Version) -> usize
    requires kept { IsTrue (is_descending group.now) }
    ensures ok { result ≡ position_or_len (λ item. nat_le item.version v) group.now }
    ensures len { result ≤ length group.now }
{
    group.partition_point(|item| item.version > v)
}

/// The place of the first item of v or an ancestor of it, by a look at each.
fn position_on_path(group: &[Item], tree: &Tree, v: Version) -> Option<usize>
    requires fits { v < length tree.now.parents }
    ensures ok { result
        ≡ position (λ item. is_ancestor tree.now.parents item.version v) group.now }
    ensures len { IfSome result (λ i. i < length group.now) }
{
    group
        .iter()
        .position(|item| is_on_path(tree, item.version, v))
}

/// Whether u is v or an ancestor of v, whatever number u is.
#[tactic(auto, using(crate::proofs::GroupLemmas::past_is_off))]
fn is_on_path(tree: &Tree, u: Version, v: Version) -> bool
    requires fits { v < length tree.now.parents }
    ensures ok { result ≡ is_ancestor tree.now.parents u v }
{
    u < tree.count() && tree.is_ancestor(u, v)
}
