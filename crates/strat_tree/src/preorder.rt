//! The versions of a tree in an order in which each is followed at once by its descendants.

ghost use Rattle.std.specs.Prelude.{◌≡◌, ◌<◌, ◌≤◌, ◌+◌, ℕ, length, slice_index, Some, IfOk};
ghost use Rattle.strat_base.specs.Tree.{Parents, parent_of, IsTree};
ghost use Rattle.strat_tree.specs.Preorder.{IsPreorder, OrdersFirst, spans};
ghost use Rattle.strat_tree.specs.Intervals.{passed_up, first_left, AreSizes, AreIntervals};

use crate::tree::Tree;
use std::alloc::Global;
use std::marker::Model;
use strat_base::{NoMemory, Version};

/// An order of the versions below a number in which a version and its descendants have the numbers
/// from its start to below its end. So u is v or an ancestor of v exactly where the start of v is one
/// of the numbers from the start of u to below the end of u.
#[derive(Drop)]
pub struct Preorder {
    starts: Vec<u32>,
    ends: Vec<u32>,
}

impl Model for Preorder {
    ghost use Rattle.strat_tree.specs.Preorder.{Numbering};

    ghost Value = { Numbering };

    ghost use Rattle.strat_tree.specs.PreorderFields.{numbering_of, AreNumbered};

    ghost view = { numbering_of };

    ghost invariant = { AreNumbered };
}

impl Preorder {
    /// Room for an order of so many versions, 8 bytes each. No other call takes memory. Where it is
    /// short, none stays taken. The order is that of a tree once `number` was called. O(versions).
    pub fn new(alloc: Global, versions: u32) -> Result<Preorder, NoMemory>
        ensures len { IfOk result (λ order. length order.starts ≡ versions) }
    {
        let starts = vec![in alloc; 0; versions as usize]?;
        let ends = vec![in alloc; 0; versions as usize]?;
        Ok(Preorder { starts, ends })
    }

    /// Puts the versions in the order of a tree, which holds also for each tree that gives them the
    /// same parents. O(versions): sizes from the greatest version down, then starts from version 0 up.
    pub fn number(&mut self, tree: &Tree)
        requires len { length self.old.starts ≤ length tree.now.parents }
        ensures ok { (parents : Parents)
            → ((v : ℕ) → v < length self.old.starts
            → parent_of parents v ≡ parent_of tree.now.parents v)
            → IsPreorder (length self.old.starts) parents self.new }
        ensures len { length self.new.starts ≡ length self.old.starts }
    {
        // For the proof: the parents are a tree.
        let _ = tree.count();
        put_in_order(&mut self.starts, &mut self.ends, tree.parents());
    }

    /// Puts the first versions in the order of their parents, and leaves the numbers of the others as they
    /// come. O(parents).
    pub fn number_first(&mut self, parents: &[Option<Version>])
        requires kept { IsTree parents.now }
        requires fits { length parents.now ≤ 16384 }
        requires room { length parents.now ≤ length self.old.starts }
        ensures ok { OrdersFirst (length parents.now) parents.now self.new }
        ensures len { length self.new.starts ≡ length self.old.starts }
    {
        put_first_in_order(&mut self.starts, &mut self.ends, parents);
    }

    /// The number of a version. O(1).
    pub fn start(&self, v: Version) -> u32
        requires { v < length self.now.starts }
        ensures ok { result ≡ slice_index self.now.starts v }
    {
        self.starts[v as usize]
    }

    /// The number after that of a version's last descendant. O(1).
    pub fn end(&self, v: Version) -> u32
        requires { v < length self.now.starts }
        ensures ok { result ≡ slice_index self.now.ends v }
    {
        self.ends[v as usize]
    }

    /// Whether a version is one of those from u's number on that u and its descendants have: two
    /// comparisons. O(1).
    #[inline(always)]
    pub fn spans(&self, u: Version, v: Version) -> bool
        requires { (u < length self.now.starts) × (v < length self.now.starts) }
        ensures ok { result ≡ spans self.now u v }
    {
        let at = self.start(v);
        self.start(u) <= at && at < self.end(u)
    }
}

/// Gives each version of a tree its interval, in the fronts of lists that may be longer.
fn put_first_in_order(starts: &mut [u32], ends: &mut [u32], parents: &[Option<Version>])
    requires kept { IsTree parents.now }
    requires fits { length parents.now ≤ 16384 }
    requires len { length starts.old ≡ length ends.old }
    requires room { length parents.now ≤ length ends.old }
    ensures ok { AreIntervals parents.now (length parents.now)
        (λ v. slice_index starts.new v) (λ v. slice_index ends.new v) }
{
    let n = parents.len();
    put_in_order(&mut starts[..n], &mut ends[..n], parents);
}

/// The parent of a version.
fn parent_at(parents: &[Option<Version>], v: usize) -> Option<Version>
    requires { v < length parents.now }
    ensures ok { result ≡ parent_of parents.now v }
{
    parents[v]
}

/// Gives each version its interval in a tree.
fn put_in_order(starts: &mut [u32], ends: &mut [u32], parents: &[Option<Version>])
    requires kept { IsTree parents.now }
    requires room { length parents.now ≤ 16384 }
    requires len { length starts.old ≡ length ends.old }
    requires fits { length ends.old ≤ length parents.now }
    ensures ok { AreIntervals parents.now (length ends.old)
        (λ v. slice_index starts.new v) (λ v. slice_index ends.new v) }
{
    ends.fill(1);
    add_sizes(ends, parents);
    lay_out(starts, ends, parents);
}

/// Adds up how many versions each version and its descendants are, from the greatest down.
fn add_sizes(sizes: &mut [u32], parents: &[Option<Version>])
    requires kept { IsTree parents.now }
    requires fits { length parents.now ≤ 16384 }
    requires same { (v : ℕ) → v < length sizes.old → slice_index sizes.old v ≡ 1 }
    requires len { length sizes.old ≤ length parents.now }
    ensures ok { AreSizes parents.now (length sizes.old) (λ v. slice_index sizes.new v) }
{
    let mut v = sizes.len();
    while v > 1 {
        v -= 1;
        pass_up(sizes, parent_at(parents, v), v);
    }
}

/// Gives each version its interval out of what its parent's has left: it takes the numbers of its size,
/// and its children begin behind the first of them. An end stands where the next child begins, and
/// after the last child where the interval ends.
fn lay_out(starts: &mut [u32], ends: &mut [u32], parents: &[Option<Version>])
    requires kept { IsTree parents.now }
    requires room { length parents.now ≤ 16384 }
    requires found { AreSizes parents.now (length ends.old) (λ v. slice_index ends.old v) }
    requires len { length starts.old ≡ length ends.old }
    requires fits { length ends.old ≤ length parents.now }
    ensures ok { AreIntervals parents.now (length ends.old)
        (λ v. slice_index starts.new v) (λ v. slice_index ends.new v) }
{
    for v in 0..ends.len() {
        let start = pass_up(ends, parent_at(parents, v), v);
        starts[v] = start;
        ends[v] = start + 1;
    }
}

/// Adds a version's size to what stands at its parent, and answers what stood there.
fn pass_up(sizes: &mut [u32], parent: Option<Version>, v: usize) -> u32
    requires fits { v < length sizes.old }
    requires kept { (p : ℕ) → parent ≡ Some p → p < length sizes.old }
    requires room { (p : ℕ) → parent ≡ Some p
        → slice_index sizes.old p + slice_index sizes.old v ≤ 16384 }
    ensures ok { sizes.new ≡ passed_up sizes.old parent v }
    ensures found { result ≡ first_left sizes.old parent }
{
    let Some(p) = parent else {
        return 0;
    };
    let before = sizes[p as usize];
    sizes[p as usize] = before + sizes[v];
    before
}
