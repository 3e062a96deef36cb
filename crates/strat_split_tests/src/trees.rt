//! Trees of several shapes, and items of one key.

ghost use Rattle.std.specs.Prelude.{◌≡◌, ◌<◌, ◌≤◌, length, IfOk};

use std::alloc::Global;
use strat_arena::{Item, Slot};
use strat_base::{NoMemory, Version};
use strat_tree::Tree;

#[derive(Clone, Copy)]
pub enum Shape {
    /// Each version is the child of the one before it.
    Chain,
    /// Each version is a child of version 0.
    Star,
    /// A chain of even versions, each of which has an odd child.
    Comb,
    /// The parent is drawn by a multiplication of the number.
    Mixed,
}

/// The parent of version v in a tree of this shape.
fn parent_in(shape: Shape, v: Version) -> Version
    requires { 1 ≤ v }
    ensures { result < v }
{
    match shape {
        Shape::Chain => v - 1,
        Shape::Star => 0,
        Shape::Comb => (v - 1) - (v - 1) % 2,
        Shape::Mixed => (v.wrapping_mul(2_654_435_761) >> 8) % v,
    }
}

/// A tree of this shape with so many versions.
pub fn grown(alloc: Global, shape: Shape, versions: u32) -> Result<Tree, NoMemory>
    requires { (1 ≤ versions) × (versions ≤ 16384) }
    ensures len { IfOk result (λ t. length t.parents ≡ versions) }
{
    let mut tree = Tree::new(alloc, versions)?;
    for v in 1..versions {
        tree.add_child(parent_in(shape, v));
    }
    Ok(tree)
}

/// An item at a version.
pub fn item(version: Version) -> Item
    ensures { result.version ≡ version }
{
    Item {
        slot: Slot(0),
        version,
        gone: version % 3 == 2,
    }
}
