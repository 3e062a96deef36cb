//! Levels in memory: made of descriptors, refused where tags overlap, set and taken, and asked for the
//! array of a version. And which level is filled.

ghost use Rattle.std.specs.Prelude.{◌≡◌, ◌≤◌, ◌<◌, ◌++◌, ◌∷◌, [], length, IfSome, IsSome};
ghost use Rattle.strat_level.specs.Levels.{desc_leads};

use std::alloc::Global;
use std::process::Abort;
use std::test::Fail;
use strat_base::{ArrayDesc, Arrays, Extents, LevelDesc, Version, Versions};
use strat_level::{Level, LevelFault, Levels, target};
use strat_tree::Tree;

/// The level that is filled where M is 4, level 0 has 4 leads, and levels 1 and 2 have these.
fn filled_with(first: u32, second: u32) -> usize
    requires { (first ≤ 100) × (second ≤ 100) }
{
    let leads = [
        4, first, second, 0, 0, 0, 0, 0, 0, 0, 0, 0, 0, 0, 0, 0, 0, 0, 0, 0, 0, 0, 0,
    ];
    target(&leads, 4)
}

#[test]
fn the_first_level_with_room_is_filled(rt: HostRuntime) -> Result<(), Fail> {
    assert!(rt; filled_with(4, 0) == 1);
    assert!(rt; filled_with(8, 0) == 2);
    assert!(rt; filled_with(8, 12) == 3);
    Ok(())
}

/// A descriptor of an array with this number, as many leads, and this tag.
fn array(alloc: Global, id: u32, tag: &[Version]) -> Option<ArrayDesc>
    ensures { IfSome result (λ a. a.leads ≡ id) }
{
    let mut versions = Versions::new(alloc);
    versions.extend(tag).ok()?;
    Some(ArrayDesc {
        id: id as u64,
        entries: id,
        leads: id,
        least: 1,
        extents: Extents::new(alloc),
        versions,
    })
}

/// A descriptor of a level whose arrays 1 and 2 have these tags.
fn described(alloc: Global, first: &[Version], second: &[Version]) -> Option<LevelDesc>
    ensures { IfSome result (λ d. (d.horizon ≡ 4) × (desc_leads d ≡ 3)) }
{
    let one = array(alloc, 1, first)?;
    let two = array(alloc, 2, second)?;
    let mut arrays = Arrays::new(alloc);
    arrays.push(one).ok()?;
    arrays.push(two).ok()?;
    Some(LevelDesc {
        number: 1,
        horizon: 4,
        arrays,
    })
}

/// Versions 0 to 5: a chain down to 3, with 4 below 0 and 5 below 3.
fn tree_of_six(alloc: Global) -> Option<Tree>
    ensures { IfSome result (λ t. length t.parents ≡ 6) }
{
    let mut tree = Tree::new(alloc, 6).ok()?;
    tree.add_child(0);
    tree.add_child(1);
    tree.add_child(2);
    tree.add_child(0);
    tree.add_child(3);
    Some(tree)
}

/// The number of the array in level 1 for v.
fn number_for(levels: &Levels, tree: &Tree, v: Version) -> Option<u64>
    requires { v < length tree.now.parents }
{
    Some(levels.array_for(tree, 1, v)?.id)
}

/// The arrays for versions 1, 3, 4 and 5, where level 1 has two with these tags.
fn numbers(alloc: Global, first: &[Version], second: &[Version]) -> Option<[Option<u64>; 4]> {
    let tree = tree_of_six(alloc)?;
    let level = Level::new(alloc, described(alloc, first, second)?).ok()?;
    let mut levels = Levels::new();
    levels.set(1, Some(level));
    Some([
        number_for(&levels, &tree, 1),
        number_for(&levels, &tree, 3),
        number_for(&levels, &tree, 4),
        number_for(&levels, &tree, 5),
    ])
}

#[test]
fn the_array_of_the_nearest_ancestor_is_asked(rt: HostRuntime) -> Result<(), Fail> {
    assert!(rt;
        numbers(rt.alloc(), &[0, 1], &[2, 3]) == Some([Some(1), Some(2), Some(1), Some(2)])
    );
    Ok(())
}

#[test]
fn tags_need_no_order_and_may_leave_versions_out(rt: HostRuntime) -> Result<(), Fail> {
    assert!(rt; numbers(rt.alloc(), &[3, 0, 3], &[2]) == Some([None, Some(1), Some(1), Some(1)]));
    Ok(())
}

/// The version that stands in two tags, and how many arrays the descriptor has that comes back.
fn overlap(alloc: Global, first: &[Version], second: &[Version]) -> Option<(Version, usize)> {
    match Level::new(alloc, described(alloc, first, second)?) {
        Err((LevelFault::Overlap { version }, desc)) => Some((version, desc.arrays.len())),
        _ => None,
    }
}

#[test]
fn an_overlap_is_named(rt: HostRuntime) -> Result<(), Fail> {
    assert!(rt; overlap(rt.alloc(), &[0, 1], &[2, 1]) == Some((1, 2)));
    assert!(rt; overlap(rt.alloc(), &[0, 1], &[2, 3]) == None);
    Ok(())
}

/// A level whose number of leads is n.
fn level_with(alloc: Global, n: u32) -> Option<Level> {
    let one = array(alloc, n, &[n])?;
    let mut arrays = Arrays::new(alloc);
    arrays.push(one).ok()?;
    Level::new(
        alloc,
        LevelDesc {
            number: 1,
            horizon: 30,
            arrays,
        },
    )
    .ok()
}

/// Levels 1 to 22, level n with n leads. None where some was not empty before.
fn all_levels(alloc: Global) -> Option<Levels> {
    let mut levels = Levels::new();
    for n in 1..23 {
        if levels.set(n, Some(level_with(alloc, n as u32)?)).is_some() {
            return None;
        }
    }
    Some(levels)
}

/// Takes level n, and says whether it had n leads before and none afterwards.
fn is_taken(levels: &mut Levels, n: usize) -> bool
    requires { (1 ≤ n) × (n ≤ 22) }
{
    let before = levels.leads(n);
    levels.set(n, None).is_some() && before as usize == n && levels.leads(n) == 0
}

/// Whether each of 22 levels is set and taken as it should be.
fn are_set_and_taken(alloc: Global) -> Option<bool> {
    let mut levels = all_levels(alloc)?;
    for n in 1..23 {
        if !is_taken(&mut levels, n) {
            return Some(false);
        }
    }
    Some(true)
}

#[test]
fn each_level_is_set_and_taken(rt: HostRuntime) -> Result<(), Fail> {
    assert!(rt; are_set_and_taken(rt.alloc()) == Some(true));
    Ok(())
}
