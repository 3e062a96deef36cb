//! Thinning: items at dropped versions go, and so do those that repeat what their versions' parents see.

ghost use Rattle.std.specs.List.{list_all};
ghost use Rattle.std.specs.Prelude.{◌≡◌, ◌<◌, ◌≤◌, ℕ, Bool, List, take, length, IsTrue};
ghost use Rattle.strat_arena.specs.declared.items.Item.{Item as Kept};
ghost use Rattle.strat_arena.specs.Items.{entries_of, have_pairs};
ghost use Rattle.strat_base.specs.Entries.{is_of, is_same_value};
ghost use Rattle.strat_live.specs.Counting.{are_below};
ghost use Rattle.strat_live.specs.Group.{is_descending};
ghost use Rattle.strat_merge.specs.Thinning.{item_says, said_at, is_told, told_items};
ghost use Rattle.def_promote.specs.Thin.{thinned};

use crate::group::GroupBuf;
use strat_arena::{Arena, Item};
use strat_base::Version;
use strat_live::live_in;
use strat_tree::Tree;

/// Whether two items say the same of their key: both that it is gone, or both the same value.
fn say_the_same(item: &Item, other: &Item, arena: &Arena) -> bool
    requires room { (item.now.slot.0 < length arena.now.pairs)
        × (other.now.slot.0 < length arena.now.pairs) }
    ensures ok { result
        ≡ is_same_value
        (item_says arena.now.pairs item.now)
        (item_says arena.now.pairs other.now) }
{
    if item.gone {
        return other.gone;
    }
    if other.gone {
        return false;
    }
    arena.value(item.slot) == arena.value(other.slot)
}

/// Whether an item says what the item that is live at a version says, or that the key is gone where none is.
fn repeats(item: &Item, later: &[Item], arena: &Arena, tree: &Tree, v: Version) -> bool
    requires kept { IsTrue (is_descending later.now) }
    requires fits { v < length tree.now.parents }
    requires room { (item.now.slot.0 < length arena.now.pairs)
        × IsTrue (have_pairs arena.now.pairs later.now) }
    ensures ok { result
        ≡ is_same_value
        (item_says arena.now.pairs item.now)
        (said_at tree.now.parents arena.now.pairs later.now v) }
{
    match live_in(later, tree, v) {
        Some(i) => say_the_same(item, &later[i], arena),
        None => item.gone,
    }
}

/// Whether an item tells something, by the items behind it.
fn is_told(item: &Item, later: &[Item], arena: &Arena, tree: &Tree) -> bool
    requires kept { IsTrue (is_descending later.now) }
    requires fits { item.now.version < length tree.now.parents }
    requires room { (item.now.slot.0 < length arena.now.pairs)
        × IsTrue (have_pairs arena.now.pairs later.now) }
    ensures ok { result
        ≡ is_told tree.now.parents tree.now.marks arena.now.pairs item.now later.now }
{
    if tree.is_dead(item.version) {
        return false;
    }
    // For the proof: the parents are a tree.
    let _ = tree.count();
    match tree.parent(item.version) {
        Some(p) => !repeats(item, later, arena, tree, p),
        None => !item.gone,
    }
}

/// Moves the items that tell something to the front, and answers how many they are. Each is judged by
/// those behind it, which are still in their places.
pub(crate) fn keep_told(items: &mut [Item], arena: &Arena, tree: &Tree) -> usize
    requires kept { IsTrue (is_descending items.old) }
    requires fits { IsTrue (are_below (length tree.now.parents) items.old) }
    requires room { IsTrue (have_pairs arena.now.pairs items.old) }
    ensures ok { take result items.new
        ≡ told_items tree.now.parents tree.now.marks arena.now.pairs items.old }
    ensures len { result ≤ length items.old }
{
    let mut kept = 0;
    for i in 0..items.len() {
        let item = items[i];
        if is_told(&item, &items[i + 1..], arena, tree) {
            items[kept] = item;
            kept += 1;
        }
    }
    kept
}

/// Drops three kinds of items: each at a version that was dropped, each mark that a key is gone if the
/// version's parent sees no value of the key or there is none, and each value that the parent sees too. They
/// are judged by the group as it is given. Takes no memory. O(items), and for each item what `live_in` takes
/// at its version's parent, and one comparison of values.
pub fn thin(group: &mut GroupBuf, arena: &Arena, tree: &Tree)
    requires kept { IsTrue (is_descending group.old) }
    requires fits { IsTrue (are_below (length tree.now.parents) group.old) }
    requires room { IsTrue (have_pairs arena.now.pairs group.old) }
    ensures ok { group.new
        ≡ told_items tree.now.parents tree.now.marks arena.now.pairs group.old }
    ensures found { (key : List ℕ)
        → IsTrue (list_all (is_of key) (entries_of arena.now.pairs group.old))
        → entries_of arena.now.pairs group.new
        ≡ thinned tree.now.parents tree.now.marks (entries_of arena.now.pairs group.old) }
    ensures kept { IsTrue (is_descending group.new) }
    ensures same { (p : Kept → Bool) → IsTrue (list_all p group.old)
        → IsTrue (list_all p group.new) }
{
    // For the proof: the parents are a tree.
    let _ = tree.count();
    group.keep_told(arena, tree);
}
