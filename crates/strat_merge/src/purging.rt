//! Purging: marks that a key is gone are dropped where nothing lies deeper and no version above sees a
//! value.

ghost use Rattle.std.specs.List.{list_all};
ghost use Rattle.std.specs.Prelude.{◌≡◌, ◌<◌, ◌≤◌, ℕ, Bool, List, take, length, IsTrue};
ghost use Rattle.strat_arena.specs.ArenaView.{KeyValue};
ghost use Rattle.strat_arena.specs.declared.items.Item.{Item as Kept};
ghost use Rattle.strat_base.specs.Entries.{is_of};
ghost use Rattle.strat_live.specs.Counting.{are_below};
ghost use Rattle.strat_live.specs.Group.{is_descending};
ghost use Rattle.strat_arena.specs.Items.{entries_of};
ghost use Rattle.strat_merge.specs.Keeping.{is_put_at, is_kept, kept_items};
ghost use Rattle.def_promote.specs.Purge.{purged};

use crate::group::GroupBuf;
use strat_arena::Item;
use strat_base::Version;
use strat_live::live_in;
use strat_tree::Tree;

/// Whether the item that is live at a version has a value.
fn has_value(items: &[Item], tree: &Tree, v: Version) -> bool
    requires kept { IsTrue (is_descending items.now) }
    requires fits { v < length tree.now.parents }
    ensures ok { result ≡ is_put_at tree.now.parents items.now v }
{
    match live_in(items, tree, v) {
        Some(i) => !items[i].gone,
        None => false,
    }
}

/// Whether an item says something, by the items behind it.
fn is_needed(item: &Item, later: &[Item], tree: &Tree) -> bool
    requires kept { IsTrue (is_descending later.now) }
    requires fits { item.now.version < length tree.now.parents }
    ensures ok { result ≡ is_kept tree.now.parents item.now later.now }
{
    if !item.gone {
        return true;
    }
    // For the proof: the parents are a tree.
    let _ = tree.count();
    match tree.parent(item.version) {
        Some(p) => has_value(later, tree, p),
        None => false,
    }
}

/// Moves the items that say something to the front, and answers how many they are. Each is judged by
/// those behind it, which are still in their places.
pub(crate) fn keep_needed(items: &mut [Item], tree: &Tree) -> usize
    requires kept { IsTrue (is_descending items.old) }
    requires fits { IsTrue (are_below (length tree.now.parents) items.old) }
    ensures ok { take result items.new ≡ kept_items tree.now.parents items.old }
    ensures len { result ≤ length items.old }
{
    let mut kept = 0;
    for i in 0..items.len() {
        let item = items[i];
        if is_needed(&item, &items[i + 1..], tree) {
            items[kept] = item;
            kept += 1;
        }
    }
    kept
}

/// Drops each mark that a key is gone whose version has no parent, or whose version's parent sees no value
/// of the key. It is judged by the group as it is given. O(items), and for each mark O(log items)
/// comparisons and O(log versions_max) for each item of its parent's version or a version below it, until
/// one is found on the parent's path.
pub fn purge(group: &mut GroupBuf, tree: &Tree)
    requires kept { IsTrue (is_descending group.old) }
    requires fits { IsTrue (are_below (length tree.now.parents) group.old) }
    ensures ok { group.new ≡ kept_items tree.now.parents group.old }
    ensures found { (pairs : List KeyValue) (key : List ℕ)
        → IsTrue (list_all (is_of key) (entries_of pairs group.old))
        → entries_of pairs group.new ≡ purged tree.now.parents (entries_of pairs group.old) }
    ensures kept { IsTrue (is_descending group.new) }
    ensures same { (p : Kept → Bool) → IsTrue (list_all p group.old)
        → IsTrue (list_all p group.new) }
{
    // For the proof: the parents are a tree.
    let _ = tree.count();
    group.keep(tree);
}
