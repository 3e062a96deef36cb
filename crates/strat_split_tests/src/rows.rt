//! Splits of small trees that were worked out by hand.

ghost use Rattle.std.specs.Prelude.{◌≡◌, ◌<◌, ◌≤◌, ◌+◌, length, IfOk};
ghost use Rattle.strat_live.specs.Tallies.{items_counted};

use crate::trees::{Shape, grown, item};
use std::alloc::Global;
use std::process::Abort;
use std::test::Fail;
use strat_base::{NoMemory, Version};
use strat_live::Counts;
use strat_split::parts::{IN_NO_PART, Part, Plan};
use strat_split::plan;
use strat_tree::Tree;

/// Adds so many keys, each with one item at a version.
fn add_keys(counts: &mut Counts, tree: &Tree, v: Version, keys: u32)
    requires fits { v < length counts.old.own }
    requires len { length counts.old.own ≤ length tree.now.parents }
    requires room { items_counted counts.old + keys ≤ 16777216 }
    ensures len { length counts.new.own ≡ length counts.old.own }
    ensures room { items_counted counts.new ≡ items_counted counts.old + keys }
{
    for _ in 0..keys {
        counts.add(&[item(v)], tree);
    }
}

/// The split of the first versions of a star that has some more, of which version 0 has some keys and
/// each child others.
fn star(alloc: Global, horizon: u32, more: u32, top: u32, each: u32) -> Result<Plan, NoMemory>
    requires { (1 ≤ horizon) × (horizon + more ≤ 16384) × (top ≤ 1000) × (each ≤ 1000) }
{
    let tree = grown(alloc, Shape::Star, horizon + more)?;
    let mut counts = Counts::new(alloc, horizon)?;
    add_keys(&mut counts, &tree, 0, top);
    for v in 1..horizon {
        add_keys(&mut counts, &tree, v, each);
    }
    counts.finish(&tree);
    plan(alloc, &tree, &counts, horizon)
}

/// Whether a plan has this part under this number.
fn has_part(plan: &Plan, q: usize, part: Part) -> bool {
    if q >= plan.parts.len() {
        return false;
    }
    let found = plan.parts.get(q);
    found.above == part.above
        && found.leads == part.leads
        && found.entries == part.entries
        && found.least == part.least
}

/// Whether the versions from one up to another are in a part, and no more are split.
fn are_in(plan: &Plan, from: usize, end: usize, part: u32) -> bool {
    for v in from..end {
        if v >= plan.part_of.len() || *plan.part_of.get(v) != part {
            return false;
        }
    }
    true
}

/// A part below version 0.
fn below_zero(leads: u32, entries: u32, least: u32) -> Part {
    Part {
        above: Some(0),
        leads,
        entries,
        least,
    }
}

/// A part below none.
fn top(leads: u32, entries: u32, least: u32) -> Part {
    Part {
        above: None,
        leads,
        entries,
        least,
    }
}

#[test]
fn a_child_with_more_keys_is_a_part(rt: HostRuntime) -> Result<(), Fail> {
    let plan = star(rt.alloc(), 2, 0, 1, 3)?;
    assert!(rt; has_part(&plan, 0, top(1, 1, 1)) && has_part(&plan, 1, below_zero(3, 4, 4)));
    assert!(rt; plan.parts.len() == 2 && are_in(&plan, 0, 1, 0) && are_in(&plan, 1, 2, 1));
    Ok(())
}

#[test]
fn version_0_without_keys_is_in_no_part_below_a_horizon(rt: HostRuntime) -> Result<(), Fail> {
    let plan = star(rt.alloc(), 2, 7, 0, 1)?;
    assert!(rt; plan.parts.len() == 1 && has_part(&plan, 0, below_zero(1, 1, 1)));
    assert!(rt; are_in(&plan, 0, 1, IN_NO_PART) && are_in(&plan, 1, 2, 0));
    assert!(rt; plan.part_of.len() == 2);
    Ok(())
}

/// Whether a thousand children with a key each are in ten parts of a hundred, beside version 0.
fn are_in_tens(plan: &Plan) -> bool {
    for n in 1..11 {
        let from = 100 * n - 99;
        if !has_part(plan, n, below_zero(100, 200, 101))
            || !are_in(plan, from, from + 100, n as u32)
        {
            return false;
        }
    }
    plan.parts.len() == 11 && plan.part_of.len() == 1001
}

#[test]
fn a_thousand_children_are_ten_parts(rt: HostRuntime) -> Result<(), Fail> {
    let plan = star(rt.alloc(), 1001, 0, 100, 1)?;
    assert!(rt; has_part(&plan, 0, top(100, 100, 100)) && are_in(&plan, 0, 1, 0));
    assert!(rt; are_in_tens(&plan));
    Ok(())
}
