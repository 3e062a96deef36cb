//! Drawn keys dealt out to the parts of a split, against `takes` for each part and each item.

ghost use Rattle.std.specs.Prelude.{◌≡◌, ◌<◌, ◌≤◌, length, IfOk, OnOk, IsTrue};
ghost use Rattle.strat_live.specs.Counting.{are_below};
ghost use Rattle.strat_live.specs.Group.{is_descending};
ghost use Rattle.strat_split.specs.Dealing.{IsDealing};
ghost use Rattle.strat_split.specs.Hanging.{carriers_of};

use crate::drawn::{counted, group_of};
use crate::trees::{Shape, grown};
use std::alloc::Global;
use std::process::Abort;
use std::test::Fail;
use strat_arena::Item;
use strat_base::NoMemory;
use strat_split::parts::Plan;
use strat_split::{Dealer, Hanging, plan, takes};
use strat_tree::Tree;

/// Whether a part takes these items and no other.
fn takes_just(plan: &Plan, group: &[Item], tree: &Tree, q: u32, taken: &[Item]) -> bool
    requires kept { IsTrue (is_descending group.now) }
    requires fits { q < length plan.now.parts }
    requires len { IsTrue (are_below (length plan.now.part_of) group.now) }
    requires found { IsTrue (are_below (length tree.now.parents) group.now) }
{
    let mut n: usize = 0;
    for i in 0..group.len() {
        if takes(plan, group, tree, q, i) {
            match taken.get(n) {
                Some(item) if item.version == group[i].version => n = n.wrapping_add(1),
                _ => return false,
            }
        }
    }
    n == taken.len()
}

/// Whether the parts from one up to another take nothing.
fn take_nothing(plan: &Plan, group: &[Item], tree: &Tree, from: u32, end: u32) -> bool
    requires kept { IsTrue (is_descending group.now) }
    requires fits { end ≤ length plan.now.parts }
    requires len { IsTrue (are_below (length plan.now.part_of) group.now) }
    requires found { IsTrue (are_below (length tree.now.parents) group.now) }
{
    for q in from..end {
        if !takes_just(plan, group, tree, q, &[]) {
            return false;
        }
    }
    true
}

/// Whether each part is dealt what `takes` says.
fn is_well_dealt(
    dealer: &mut Dealer,
    group: &[Item],
    tree: &Tree,
    plan: &Plan,
    hanging: &Hanging,
) -> bool
    requires kept { IsDealing tree.now.parents plan.now group.now dealer.old }
    requires same { hanging.now ≡ carriers_of plan.now.part_of plan.now.parts }
    requires fits { length plan.now.parts ≤ 64 }
    ensures len { length dealer.new.heads ≡ length dealer.old.heads }
{
    let mut from: u32 = 0;
    while let Some(q) = dealer.next_part(group, tree, plan, hanging) {
        if !take_nothing(plan, group, tree, from, q)
            || !takes_just(plan, group, tree, q, dealer.taken())
        {
            return false;
        }
        from = q.wrapping_add(1);
    }
    take_nothing(plan, group, tree, from, plan.parts.len() as u32)
}

/// Deals the first part of a key, and drops the others.
fn drop_some(
    dealer: &mut Dealer,
    group: &[Item],
    tree: &Tree,
    plan: &Plan,
    hanging: &Hanging,
) -> Result<(), NoMemory>
    requires kept { IsTrue (is_descending group.now) }
    requires len { length dealer.old.heads ≡ length plan.now.parts }
    requires fits { IsTrue (are_below (length plan.now.part_of) group.now) }
    requires found { IsTrue (are_below (length tree.now.parents) group.now) }
    requires room { length group.now ≤ 64 }
    requires same { hanging.now ≡ carriers_of plan.now.part_of plan.now.parts }
    ensures len { OnOk result (length dealer.new.heads ≡ length dealer.old.heads) }
{
    dealer.begin(group, plan)?;
    let _ = dealer.next_part(group, tree, plan, hanging);
    Ok(())
}

/// Whether the items of a key are well dealt, after some of those of another were dropped.
fn deals_key(
    alloc: Global,
    dealer: &mut Dealer,
    key: u32,
    tree: &Tree,
    plan: &Plan,
    hanging: &Hanging,
) -> Result<bool, NoMemory>
    requires len { length dealer.old.heads ≡ length plan.now.parts }
    requires fits { (length plan.now.part_of ≡ length tree.now.parents)
        × (length tree.now.parents ≤ 64) × (length plan.now.parts ≤ 64) }
    requires same { hanging.now ≡ carriers_of plan.now.part_of plan.now.parts }
    ensures len { OnOk result (length dealer.new.heads ≡ length dealer.old.heads) }
{
    let other = group_of(alloc, key / 2, tree.count())?;
    drop_some(dealer, &other, tree, plan, hanging)?;
    let group = group_of(alloc, key, tree.count())?;
    dealer.begin(&group, plan)?;
    Ok(is_well_dealt(dealer, &group, tree, plan, hanging))
}

/// Whether so many keys in a tree of so many versions are well dealt out to the parts of their split.
fn deals(alloc: Global, shape: Shape, versions: u32, keys: u32) -> Result<bool, NoMemory>
    requires { (1 ≤ versions) × (versions ≤ 64) × (keys ≤ 1000) }
{
    let tree = grown(alloc, shape, versions)?;
    let counts = counted(alloc, &tree, versions, keys)?;
    let made = plan(alloc, &tree, &counts, versions)?;
    let hanging = Hanging::new(alloc, &made)?;
    let mut dealer = Dealer::new(alloc, made.parts.len())?;
    for key in 0..keys {
        if !deals_key(alloc, &mut dealer, key, &tree, &made, &hanging)? {
            return Ok(false);
        }
    }
    Ok(true)
}

#[test]
fn keys_in_a_chain_are_dealt_as_parts_take_them(rt: HostRuntime) -> Result<(), Fail> {
    assert!(rt; deals(rt.alloc(), Shape::Chain, 40, 60)?);
    Ok(())
}

#[test]
fn keys_in_a_star_are_dealt_as_parts_take_them(rt: HostRuntime) -> Result<(), Fail> {
    assert!(rt; deals(rt.alloc(), Shape::Star, 40, 60)?);
    Ok(())
}

#[test]
fn keys_in_a_comb_are_dealt_as_parts_take_them(rt: HostRuntime) -> Result<(), Fail> {
    assert!(rt; deals(rt.alloc(), Shape::Comb, 40, 60)?);
    Ok(())
}

#[test]
fn keys_in_a_drawn_tree_are_dealt_as_parts_take_them(rt: HostRuntime) -> Result<(), Fail> {
    assert!(rt; deals(rt.alloc(), Shape::Mixed, 64, 40)?);
    Ok(())
}

#[test]
fn few_keys_are_dealt_as_parts_take_them(rt: HostRuntime) -> Result<(), Fail> {
    assert!(rt; deals(rt.alloc(), Shape::Mixed, 64, 2)?);
    Ok(())
}
