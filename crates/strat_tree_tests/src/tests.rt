//! Trees of several shapes. What a tree answers of each version, and of each pair of versions, is
//! compared with a walk from parent to parent.

ghost use Rattle.std.specs.Prelude.{◌≡◌, ◌<◌, ◌≤◌, length, IfOk};

use std::alloc::Global;
use std::process::Abort;
use std::test::Fail;
use strat_base::{NoMemory, Version};
use strat_tree::{Preorder, Tree};

#[derive(Clone, Copy)]
enum Shape {
    /// Each version is the child of the one before it.
    Chain,
    /// Each version is a child of version 0.
    Star,
    /// A chain of odd versions, each of which has an even child beside the next.
    Comb,
    /// The parent is drawn by a multiplication of the number.
    Mixed,
}

/// The parent of version v in a tree of this shape.
fn parent_in(shape: Shape, v: Version) -> Version
    requires { 1 ≤ v }
    ensures { result < v }
{
    match shape {
        Shape::Chain => v - 1,
        Shape::Star => 0,
        Shape::Comb => {
            if v % 2 == 0 {
                v - 1
            } else {
                v.saturating_sub(2)
            }
        }
        Shape::Mixed => (v.wrapping_mul(2_654_435_761) >> 8) % v,
    }
}

/// A tree of this shape with so many versions.
fn grown(alloc: Global, shape: Shape, versions: u32) -> Result<Tree, NoMemory>
    requires { (1 ≤ versions) × (versions ≤ 16384) }
    ensures len { IfOk result (λ t. length t.parents ≡ versions) }
{
    let mut tree = Tree::new(alloc, versions)?;
    for v in 1..versions {
        tree.add_child(parent_in(shape, v));
    }
    Ok(tree)
}

/// The parent of a version, if there is such a version and it has one.
fn parent(tree: &Tree, v: Version) -> Option<Version> {
    if v < tree.count() {
        tree.parent(v)
    } else {
        None
    }
}

/// The first version numbered below h on a walk from v.
fn walk_below(tree: &Tree, v: Version, h: u32) -> Version {
    let mut at = v;
    for _ in 0..v {
        if at >= h {
            at = parent(tree, at).unwrap_or(at);
        }
    }
    at
}

/// Whether a walk from v comes past u.
fn walk_passes(tree: &Tree, u: Version, v: Version) -> bool {
    let mut at = v;
    for _ in 0..v {
        if at == u {
            return true;
        }
        at = parent(tree, at).unwrap_or(at);
    }
    at == u
}

/// How many steps a walk from v takes.
fn walk_length(tree: &Tree, v: Version) -> u32 {
    let mut at = v;
    for steps in 0..v {
        match parent(tree, at) {
            None => return steps,
            Some(p) => at = p,
        }
    }
    v
}

/// Whether the tree answers for each u what a walk from v does.
fn has_ancestors_of_walk(tree: &Tree, v: Version) -> bool
    requires { v < length tree.now.parents }
{
    for u in 0..tree.count() {
        if tree.is_ancestor(u, v) != walk_passes(tree, u, v) {
            return false;
        }
    }
    true
}

/// Whether the tree finds below each horizon what a walk from v does.
fn has_below_of_walk(tree: &Tree, v: Version) -> bool
    requires { v < length tree.now.parents }
{
    for h in 0..tree.count() {
        if tree.below(v, h + 1) != walk_below(tree, v, h + 1) {
            return false;
        }
    }
    true
}

/// Whether some version has v as its parent.
fn is_some_parent(tree: &Tree, v: Version) -> bool {
    tree.parents().iter().any(|parent| *parent == Some(v))
}

/// Whether the tree answers of v what walks do.
fn agrees_at(tree: &Tree, v: Version) -> bool
    requires { v < length tree.now.parents }
{
    tree.depth(v) == walk_length(tree, v)
        && tree.has_child(v) == is_some_parent(tree, v)
        && has_ancestors_of_walk(tree, v)
        && has_below_of_walk(tree, v)
}

/// The first version of which the tree answers another thing than walks do.
fn first_difference(tree: &Tree) -> Option<Version> {
    for v in 0..tree.count() {
        if !agrees_at(tree, v) {
            return Some(v);
        }
    }
    None
}

/// Trees of this shape answer what walks do.
fn try_shape(rt: &impl Abort, alloc: Global, shape: Shape) -> Result<(), Fail> {
    for versions in [1, 2, 17, 200] {
        let tree = grown(alloc, shape, versions)?;
        assert_eq!(rt; first_difference(&tree), None);
    }
    Ok(())
}

#[test]
fn a_chain_answers_what_walks_do(rt: HostRuntime) -> Result<(), Fail> {
    try_shape(&rt, rt.alloc(), Shape::Chain)
}

#[test]
fn a_star_answers_what_walks_do(rt: HostRuntime) -> Result<(), Fail> {
    try_shape(&rt, rt.alloc(), Shape::Star)
}

#[test]
fn a_comb_answers_what_walks_do(rt: HostRuntime) -> Result<(), Fail> {
    try_shape(&rt, rt.alloc(), Shape::Comb)
}

#[test]
fn a_mixed_tree_answers_what_walks_do(rt: HostRuntime) -> Result<(), Fail> {
    try_shape(&rt, rt.alloc(), Shape::Mixed)
}

/// A version, a horizon, and what a tree must answer of them.
#[derive(Clone, Copy)]
struct Wanted {
    version: Version,
    depth: u32,
    has_child: bool,
    horizon: u32,
    below: Version,
}

fn row(version: Version, depth: u32, has_child: bool, horizon: u32, below: Version) -> Wanted {
    Wanted {
        version,
        depth,
        has_child,
        horizon,
        below,
    }
}

/// Whether the tree answers what is wanted.
fn answers(tree: &Tree, wanted: Wanted) -> bool {
    wanted.version < tree.count()
        && 1 <= wanted.horizon
        && tree.depth(wanted.version) == wanted.depth
        && tree.has_child(wanted.version) == wanted.has_child
        && tree.below(wanted.version, wanted.horizon) == wanted.below
}

/// Whether the tree says that u is on the path of v.
fn is_on_path(tree: &Tree, u: Version, v: Version) -> bool {
    u < tree.count() && v < tree.count() && tree.is_ancestor(u, v)
}

/// Version 0 has the children 1 and 4, version 1 has 2 and 3, and 5 and 6 are in a row under 3.
fn worked(alloc: Global) -> Result<Tree, NoMemory>
    ensures len { IfOk result (λ t. length t.parents ≡ 7) }
{
    let mut tree = Tree::new(alloc, 7)?;
    tree.add_child(0);
    tree.add_child(1);
    tree.add_child(1);
    tree.add_child(0);
    tree.add_child(3);
    tree.add_child(5);
    Ok(tree)
}

#[test]
fn a_worked_tree_answers_each_row(rt: HostRuntime) -> Result<(), Fail> {
    let tree = worked(rt.alloc())?;
    for wanted in [
        row(0, 0, true, 1, 0),
        row(1, 1, true, 2, 1),
        row(2, 2, false, 2, 1),
        row(3, 2, true, 3, 1),
        row(4, 1, false, 4, 0),
        row(5, 3, true, 4, 3),
        row(6, 4, false, 7, 6),
        row(6, 4, false, 6, 5),
        row(6, 4, false, 5, 3),
        row(6, 4, false, 3, 1),
        row(6, 4, false, 1, 0),
    ] {
        assert!(rt; answers(&tree, wanted));
    }
    Ok(())
}

#[test]
fn a_worked_tree_has_its_paths(rt: HostRuntime) -> Result<(), Fail> {
    let tree = worked(rt.alloc())?;
    for (u, v, wanted) in [
        (0, 6, true),
        (1, 6, true),
        (2, 6, false),
        (3, 6, true),
        (4, 6, false),
        (6, 6, true),
        (6, 3, false),
        (3, 4, false),
    ] {
        assert!(rt; is_on_path(&tree, u, v) == wanted);
    }
    Ok(())
}

#[test]
fn a_full_chain_answers_each_row(rt: HostRuntime) -> Result<(), Fail> {
    let tree = grown(rt.alloc(), Shape::Chain, 16384)?;
    for wanted in [
        row(16383, 16383, false, 16384, 16383),
        row(16383, 16383, false, 16383, 16382),
        row(16383, 16383, false, 8192, 8191),
        row(16383, 16383, false, 1, 0),
        row(16382, 16382, true, 8193, 8192),
        row(8192, 8192, true, 8192, 8191),
        row(8192, 8192, true, 1, 0),
    ] {
        assert!(rt; answers(&tree, wanted));
    }
    Ok(())
}

#[test]
fn a_full_chain_is_one_path(rt: HostRuntime) -> Result<(), Fail> {
    let tree = grown(rt.alloc(), Shape::Chain, 16384)?;
    for (u, v, wanted) in [
        (0, 16383, true),
        (1, 16383, true),
        (8191, 16383, true),
        (16383, 16383, true),
        (16383, 16382, false),
        (8192, 8191, false),
    ] {
        assert!(rt; is_on_path(&tree, u, v) == wanted);
    }
    Ok(())
}

/// Drops a version where that may be, and answers whether it was.
fn try_drop(tree: &mut Tree, v: Version) -> bool {
    if v < 1 || v >= tree.count() || tree.is_dead(v) || tree.has_living_child(v) {
        return false;
    }
    tree.mark_dead(v);
    true
}

/// Whether a version is there, is dropped or not, and has a living child or none, as it must be.
fn is_marked(tree: &Tree, v: Version, dead: bool, has_living_child: bool) -> bool {
    v < tree.count() && tree.is_dead(v) == dead && tree.has_living_child(v) == has_living_child
}

#[test]
fn versions_are_dropped_after_their_children(rt: HostRuntime) -> Result<(), Fail> {
    let mut tree = worked(rt.alloc())?;
    for (v, wanted) in [
        (0, false),
        (3, false),
        (5, false),
        (6, true),
        (6, false),
        (5, true),
        (3, true),
        (1, false),
        (2, true),
        (1, true),
        (7, false),
        (4, true),
        (0, false),
    ] {
        assert!(rt; try_drop(&mut tree, v) == wanted);
    }
    Ok(())
}

#[test]
fn a_worked_tree_has_its_marks(rt: HostRuntime) -> Result<(), Fail> {
    let mut tree = worked(rt.alloc())?;
    for v in [6, 5, 2, 4] {
        try_drop(&mut tree, v);
    }
    for (v, dead, has_living_child) in [
        (0, false, true),
        (1, false, true),
        (2, true, false),
        (3, false, false),
        (4, true, false),
        (5, true, false),
        (6, true, false),
    ] {
        assert!(rt; is_marked(&tree, v, dead, has_living_child));
    }
    Ok(())
}

/// Version 1 is dropped, and then version 0 has another child.
fn replaced(alloc: Global) -> Result<Tree, NoMemory>
    ensures len { IfOk result (λ t. length t.parents ≡ 3) }
{
    let mut tree = Tree::new(alloc, 3)?;
    tree.add_child(0);
    tree.mark_dead(1);
    tree.add_child(0);
    Ok(tree)
}

#[test]
fn a_child_after_a_drop_lives(rt: HostRuntime) -> Result<(), Fail> {
    let tree = replaced(rt.alloc())?;
    for (v, dead, has_living_child) in [(0, false, true), (1, true, false), (2, false, false)] {
        assert!(rt; is_marked(&tree, v, dead, has_living_child));
    }
    Ok(())
}

/// The versions of a tree in order.
fn order_of(alloc: Global, tree: &Tree) -> Result<Preorder, NoMemory>
    ensures len { IfOk result (λ order. length order.starts ≡ length tree.now.parents) }
{
    let mut order = Preorder::new(alloc, tree.count())?;
    order.number(tree);
    Ok(order)
}

/// Whether v has one of the numbers of u and its descendants.
fn spans(order: &Preorder, u: Version, v: Version) -> bool
    requires { (u < length order.now.starts) × (v < length order.now.starts) }
{
    order.start(u) <= order.start(v) && order.start(v) < order.end(u)
}

/// Whether the order tells the ancestors of v as the tree does.
fn tells_ancestors(order: &Preorder, tree: &Tree, v: Version) -> bool
    requires fits { v < length tree.now.parents }
    requires len { length order.now.starts ≡ length tree.now.parents }
{
    for u in 0..tree.count() {
        if spans(order, u, v) != tree.is_ancestor(u, v) {
            return false;
        }
    }
    true
}

/// The first version whose ancestors the order tells otherwise than the tree.
fn first_misplaced(order: &Preorder, tree: &Tree) -> Option<Version>
    requires { length order.now.starts ≡ length tree.now.parents }
{
    for v in 0..tree.count() {
        if !tells_ancestors(order, tree, v) {
            return Some(v);
        }
    }
    None
}

/// The order of a tree of this shape tells ancestors as the tree does.
fn try_order(rt: &impl Abort, alloc: Global, shape: Shape, versions: u32) -> Result<(), Fail>
    requires { (1 ≤ versions) × (versions ≤ 16384) }
{
    let tree = grown(alloc, shape, versions)?;
    let order = order_of(alloc, &tree)?;
    assert!(rt; first_misplaced(&order, &tree) == None);
    Ok(())
}

#[test]
fn orders_tell_ancestors_as_trees_do(rt: HostRuntime) -> Result<(), Fail> {
    for shape in [Shape::Chain, Shape::Star, Shape::Comb, Shape::Mixed] {
        for versions in [1, 2, 17, 200] {
            try_order(&rt, rt.alloc(), shape, versions)?;
        }
    }
    Ok(())
}

/// Whether a version has these numbers.
fn is_placed(order: &Preorder, tree: &Tree, v: Version, start: u32, end: u32) -> bool
    requires { length order.now.starts ≡ length tree.now.parents }
{
    v < tree.count() && order.start(v) == start && order.end(v) == end
}

#[test]
fn a_worked_tree_has_its_order(rt: HostRuntime) -> Result<(), Fail> {
    let tree = worked(rt.alloc())?;
    let order = order_of(rt.alloc(), &tree)?;
    for (v, start, end) in [
        (0, 0, 7),
        (1, 1, 6),
        (2, 2, 3),
        (3, 3, 6),
        (4, 6, 7),
        (5, 4, 6),
        (6, 5, 6),
    ] {
        assert!(rt; is_placed(&order, &tree, v, start, end));
    }
    Ok(())
}
