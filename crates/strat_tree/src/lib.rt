//! The tree of a store's versions, in which the ancestor of a version below a horizon is found in a
//! few jumps, and an order of versions in which ancestors are told by two comparisons.
#![tactic(auto)]

mod preorder;
mod tree;

pub use preorder::Preorder;
pub use tree::Tree;
