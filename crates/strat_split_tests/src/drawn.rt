//! Counts and splits of drawn keys in trees of several shapes, against slow scans from parent to parent.

ghost use Rattle.std.specs.Prelude.{◌≡◌, ◌<◌, ◌≤◌, ◌+◌, length, IfOk, OnOk, IsTrue};
ghost use Rattle.strat_live.specs.Counting.{are_below};
ghost use Rattle.strat_live.specs.Group.{is_descending};
ghost use Rattle.strat_split_tests.specs.Groups.{IsGroupFrom};

use crate::trees::{Shape, grown, item};
use std::alloc::Global;
use std::process::Abort;
use std::test::Fail;
use strat_arena::Item;
use strat_base::{NoMemory, Version};
use strat_live::Counts;
use strat_split::parts::{IN_NO_PART, Part, Plan};
use strat_split::{Hanging, plan, takes};
use strat_tree::Tree;

/// Whether a key has an item at a version: key 0 has one at each, of another key about one in four has.
fn has(key: u32, v: Version) -> bool {
    let mixed = key
        .wrapping_mul(2_654_435_761)
        .wrapping_add(v)
        .wrapping_mul(2_246_822_519);
    key == 0 || (mixed >> 13) % 4 == 0
}

/// The items of a key, the greatest version first.
pub(crate) fn group_of(alloc: Global, key: u32, versions: u32) -> Result<Vec<Item>, NoMemory>
    ensures kept { IfOk result (λ group. IsGroupFrom 0 versions group.items) }
{
    let mut group = Vec::new(alloc);
    let mut v = versions;
    while v > 0 {
        v -= 1;
        push_item(&mut group, key, v, versions)?;
    }
    Ok(group)
}

/// Adds the item of a key at a version below all others, if it has one.
fn push_item(group: &mut Vec<Item>, key: u32, v: Version, versions: u32) -> Result<(), NoMemory>
    requires { IsGroupFrom (v + 1) versions group.old.items }
    ensures kept { OnOk result (IsGroupFrom v versions group.new.items) }
{
    if has(key, v) {
        group.push(item(v))?;
    }
    Ok(())
}

/// Counts over so many keys.
pub(crate) fn counted(
    alloc: Global,
    tree: &Tree,
    versions: u32,
    keys: u32,
) -> Result<Counts, NoMemory>
    requires fits { (versions ≤ length tree.now.parents) × (versions ≤ 64) × (keys ≤ 1000) }
    ensures len { IfOk result (λ counts. length counts.own ≡ versions) }
{
    let mut counts = Counts::new(alloc, versions)?;
    for key in 0..keys {
        let group = group_of(alloc, key, versions)?;
        counts.add(&group, tree);
    }
    counts.finish(tree);
    Ok(counts)
}

/// The parent of a version, if there is such a version and it has one.
fn parent(tree: &Tree, v: Version) -> Option<Version> {
    if v < tree.count() {
        tree.parent(v)
    } else {
        None
    }
}

/// Whether a walk from a version meets an item of a key.
fn walk_sees(tree: &Tree, key: u32, v: Version) -> bool {
    let mut at = v;
    for _ in 0..tree.count() {
        if has(key, at) {
            return true;
        }
        match parent(tree, at) {
            Some(p) => at = p,
            None => return false,
        }
    }
    false
}

/// How many keys have an item at a version.
fn own_slowly(v: Version, keys: u32) -> u32 {
    let mut n: u32 = 0;
    for key in 0..keys {
        n = n.wrapping_add(has(key, v) as u32);
    }
    n
}

/// How many keys have an item live at a version.
fn live_slowly(tree: &Tree, v: Version, keys: u32) -> u32 {
    let mut n: u32 = 0;
    for key in 0..keys {
        n = n.wrapping_add(walk_sees(tree, key, v) as u32);
    }
    n
}

/// Whether the counts are those of the scans.
fn counts_agree(tree: &Tree, counts: &Counts, versions: u32, keys: u32) -> bool
    requires { versions ≤ length counts.now.own }
{
    for v in 0..versions {
        if counts.own(v) != own_slowly(v, keys) || counts.live(v) != live_slowly(tree, v, keys) {
            return false;
        }
    }
    true
}

/// The number of the part of a version.
fn label(plan: &Plan, v: Version) -> u32 {
    if (v as usize) < plan.part_of.len() {
        *plan.part_of.get(v as usize)
    } else {
        IN_NO_PART
    }
}

/// Whether a version is in a part as it must be: dense there, its parent in the part or above it.
fn is_well_placed(tree: &Tree, plan: &Plan, v: Version, keys: u32) -> bool {
    let q = label(plan, v);
    let live = live_slowly(tree, v, keys);
    if q as usize >= plan.parts.len() {
        return q == IN_NO_PART && live == 0;
    }
    let part = plan.parts.get(q as usize);
    let hangs = match parent(tree, v) {
        Some(p) => label(plan, p) == q || part.above == Some(p),
        None => part.above.is_none(),
    };
    hangs && part.entries <= live.wrapping_mul(3) && part.least <= live
}

/// The leads of a part and the least number of live keys of its versions, by a scan of all versions.
fn scanned(tree: &Tree, plan: &Plan, q: u32, keys: u32) -> (u32, u32) {
    let mut leads: u32 = 0;
    let mut least = u32::MAX;
    for v in 0..tree.count() {
        if label(plan, v) == q {
            leads = leads.wrapping_add(own_slowly(v, keys));
            least = least.min(live_slowly(tree, v, keys));
        }
    }
    (leads, least)
}

/// Whether a part's numbers are those of its versions.
fn is_well_counted(tree: &Tree, plan: &Plan, q: u32, part: &Part, keys: u32) -> bool {
    let (leads, least) = scanned(tree, plan, q, keys);
    let inherited = match part.above {
        Some(p) => live_slowly(tree, p, keys),
        None => 0,
    };
    part.leads == leads
        && part.least == least
        && part.entries == leads.wrapping_add(inherited)
        && part.entries >= 1
        && part.entries <= leads.wrapping_mul(2)
}

/// How many of a key's items a part takes.
fn taken(plan: &Plan, group: &[Item], tree: &Tree, q: u32) -> u32
    requires kept { IsTrue (is_descending group.now) }
    requires fits { q < length plan.now.parts }
    requires len { length plan.now.part_of ≡ length tree.now.parents }
    requires found { IsTrue (are_below (length tree.now.parents) group.now) }
{
    let mut n: u32 = 0;
    for i in 0..group.len() {
        n = n.wrapping_add(takes(plan, group, tree, q, i) as u32);
    }
    n
}

/// How many items a part takes.
fn taken_of_all(alloc: Global, plan: &Plan, tree: &Tree, q: u32, keys: u32) -> Result<u32, NoMemory>
    requires fits { q < length plan.now.parts }
    requires len { length plan.now.part_of ≡ length tree.now.parents }
{
    let mut n: u32 = 0;
    for key in 0..keys {
        let group = group_of(alloc, key, tree.count())?;
        n = n.wrapping_add(taken(plan, &group, tree, q));
    }
    Ok(n)
}

/// Whether each version, and each part, is as it must be.
fn is_well_split(alloc: Global, tree: &Tree, plan: &Plan, keys: u32) -> Result<bool, NoMemory>
    requires len { length plan.now.part_of ≡ length tree.now.parents }
{
    for v in 0..tree.count() {
        if !is_well_placed(tree, plan, v, keys) {
            return Ok(false);
        }
    }
    are_well_filled(alloc, tree, plan, keys)
}

/// Whether each part has as many entries as items that it takes.
fn are_well_filled(alloc: Global, tree: &Tree, plan: &Plan, keys: u32) -> Result<bool, NoMemory>
    requires len { length plan.now.part_of ≡ length tree.now.parents }
{
    for q in 0..tree.count() {
        if q as usize >= plan.parts.len() {
            return Ok(true);
        }
        let part = plan.parts.get(q as usize);
        let all = taken_of_all(alloc, plan, tree, q, keys)?;
        if all != part.entries || !is_well_counted(tree, plan, q, part, keys) {
            return Ok(false);
        }
    }
    Ok(plan.parts.len() <= tree.count() as usize)
}

/// Whether parts are numbered in the order in which their first versions come.
fn is_well_numbered(plan: &Plan) -> bool {
    let mut met: u32 = 0;
    for q in plan.part_of.as_slice() {
        if *q == met {
            met = met.wrapping_add(1);
        } else if *q > met && *q != IN_NO_PART {
            return false;
        }
    }
    met as usize == plan.parts.len()
}

/// How many parts hang from a part, along its chain.
fn hung(hanging: &Hanging, part: u32) -> u32
    requires { part < length hanging.now }
{
    let mut n: u32 = 0;
    let mut at = hanging.first_below(part);
    while let Some(q) = at {
        n = n.wrapping_add(1);
        at = hanging.next_beside(q);
    }
    n
}

/// How many parts hang from a part, by a scan of all parts.
fn hung_slowly(plan: &Plan, part: u32) -> u32 {
    let mut n: u32 = 0;
    for other in plan.parts.as_slice() {
        if let Some(p) = other.above {
            n = n.wrapping_add((label(plan, p) == part) as u32);
        }
    }
    n
}

/// Whether each chain of parts has as many as a scan finds.
fn is_well_hung(alloc: Global, plan: &Plan) -> Result<bool, NoMemory>
    requires { length plan.now.parts ≤ 64 }
{
    let hanging = Hanging::new(alloc, plan)?;
    for part in 0..plan.parts.len() as u32 {
        if hung(&hanging, part) != hung_slowly(plan, part) {
            return Ok(false);
        }
    }
    Ok(true)
}

/// Whether counts and split of so many keys agree with scans in a tree of so many versions.
fn agrees(alloc: Global, shape: Shape, versions: u32, keys: u32) -> Result<bool, NoMemory>
    requires { (1 ≤ versions) × (versions ≤ 64) × (keys ≤ 1000) }
{
    let tree = grown(alloc, shape, versions)?;
    let counts = counted(alloc, &tree, versions, keys)?;
    let made = plan(alloc, &tree, &counts, versions)?;
    Ok(
        counts_agree(&tree, &counts, versions, keys)
            && is_well_numbered(&made)
            && is_well_split(alloc, &tree, &made, keys)?
            && is_well_hung(alloc, &made)?,
    )
}

#[test]
fn a_chain_is_split_as_scans_say(rt: HostRuntime) -> Result<(), Fail> {
    assert!(rt; agrees(rt.alloc(), Shape::Chain, 40, 60)?);
    Ok(())
}

#[test]
fn a_star_is_split_as_scans_say(rt: HostRuntime) -> Result<(), Fail> {
    assert!(rt; agrees(rt.alloc(), Shape::Star, 40, 60)?);
    Ok(())
}

#[test]
fn a_comb_is_split_as_scans_say(rt: HostRuntime) -> Result<(), Fail> {
    assert!(rt; agrees(rt.alloc(), Shape::Comb, 40, 60)?);
    Ok(())
}

#[test]
fn a_drawn_tree_is_split_as_scans_say(rt: HostRuntime) -> Result<(), Fail> {
    assert!(rt; agrees(rt.alloc(), Shape::Mixed, 50, 40)?);
    Ok(())
}

#[test]
fn few_keys_are_split_as_scans_say(rt: HostRuntime) -> Result<(), Fail> {
    assert!(rt; agrees(rt.alloc(), Shape::Mixed, 64, 2)?);
    Ok(())
}
