//! The items of one key in a worked tree: version 0 has the children 1 and 4, version 1 has 2 and 3, and
//! 5 and 6 are in a row under 3.

ghost use Rattle.std.specs.Prelude.{◌≡◌, ◌<◌, length, IfOk, IsTrue};
ghost use Rattle.strat_live.specs.Group.{is_descending};

use std::alloc::Global;
use std::process::Abort;
use std::test::Fail;
use strat_arena::{Item, Slot};
use strat_base::{NoMemory, Version};
use strat_live::live_in;
use strat_tree::Tree;

fn worked(alloc: Global) -> Result<Tree, NoMemory>
    ensures len { IfOk result (λ t. length t.parents ≡ 7) }
{
    let mut tree = Tree::new(alloc, 7)?;
    tree.add_child(0);
    tree.add_child(1);
    tree.add_child(1);
    tree.add_child(0);
    tree.add_child(3);
    tree.add_child(5);
    Ok(tree)
}

fn item(version: Version, gone: bool) -> Item
    ensures { result.version ≡ version }
{
    Item {
        slot: Slot(0),
        version,
        gone,
    }
}

/// Whether the live item at a version has this place.
fn is_live_at(tree: &Tree, group: &[Item], v: Version, place: Option<usize>) -> bool
    requires { IsTrue (is_descending group.now) }
{
    v < tree.count() && live_in(group, tree, v) == place
}

#[test]
fn the_nearest_ancestor_is_live(rt: HostRuntime) -> Result<(), Fail> {
    let tree = worked(rt.alloc())?;
    let group = [
        item(6, false),
        item(4, false),
        item(2, true),
        item(1, false),
    ];
    for (v, place) in [
        (0, None),
        (1, Some(3)),
        (2, Some(2)),
        (3, Some(3)),
        (4, Some(1)),
        (5, Some(3)),
        (6, Some(0)),
    ] {
        assert!(rt; is_live_at(&tree, &group, v, place));
    }
    Ok(())
}

#[test]
fn no_item_is_live_in_an_empty_group(rt: HostRuntime) -> Result<(), Fail> {
    let tree = worked(rt.alloc())?;
    assert!(rt; is_live_at(&tree, &[], 6, None));
    Ok(())
}
