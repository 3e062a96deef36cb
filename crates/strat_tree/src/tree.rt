//! The tree of a store's versions. Each version has, beside its parent, its depth, whether it has a
//! child, whether it was dropped, how many children of it were not, and the ancestors at 1, 2, 4, ..
//! 8,192 steps above it.

ghost use Rattle.std.specs.Prelude.{◌≡◌, ◌<◌, ◌≤◌, ◌+◌, ◌^◌, ℕ, [], ◌∷◌, ◌++◌, false, true, length, slice_set, Some, None, IfOk};
ghost use Rattle.strat_base.specs.Tree.{parent_of, depth, has_child, is_ancestor, below, with_child, IsTree};
ghost use Rattle.strat_base.specs.Marks.{is_dropped, has_living_child, ArePruned};
ghost use Rattle.strat_tree.specs.Jumps.{IsChildRow};

use crate::preorder::Preorder;
use std::alloc::Global;
use std::marker::Model;
use strat_base::{NoMemory, Version};

/// Jumps of a version. The path of one of 2^14 versions has fewer than 2^14 steps.
const JUMPS: usize = 14;

/// The first jump that leads past version 0 from this depth: the search for an ancestor begins below it.
fn jumps_over(depth: u32) -> usize
    requires { depth < 16384 }
    ensures ok { (result ≤ 14) × (depth < 2 ^ result) }
{
    let mut i = 0;
    let mut reach: u32 = 1;
    while i < JUMPS && reach <= depth {
        reach *= 2;
        i += 1;
    }
    i
}

/// The versions of a store: version 0, and others that were each made as a child of an earlier one.
/// Jump `i` of a version leads `2^i` steps up its path, and to version 0 where the path is shorter.
/// The order is of the first `numbered` versions.
#[derive(Drop)]
pub struct Tree {
    versions_max: u32,
    parents: Vec<Option<Version>>,
    depths: Vec<u32>,
    inner: Vec<bool>,
    jumps: Vec<[Version; JUMPS]>,
    dropped: Vec<bool>,
    living: Vec<u32>,
    order: Preorder,
    numbered: u32,
}

impl Model for Tree {
    ghost use Rattle.strat_tree.specs.TreeView.{TreeView};

    ghost Value = { TreeView };

    ghost use Rattle.strat_tree.specs.TreeFields.{tree_of, IsIndexed};

    ghost view = { tree_of };

    ghost invariant = { IsIndexed };
}

impl Tree {
    /// A tree of version 0 alone. Takes memory for all versions that there may be, about 83 bytes
    /// each, and no other call takes any. Where memory is short, none stays taken.
    #[tactic(auto, using(strat_base::proofs::PrunedLemmas::none_dropped))]
    pub fn new(alloc: Global, versions_max: u32) -> Result<Tree, NoMemory>
        requires { (1 ≤ versions_max) × (versions_max ≤ 16384) }
        ensures ok { IfOk result (λ t. t ≡ record {
          parents = None ∷ [];
          marks = false ∷ [];
          versions_max = versions_max;
        }) }
        ensures kept { IfOk result (λ t. IsTree t.parents) }
        ensures none { IfOk result (λ t. (v : ℕ) → is_dropped t.marks v ≡ false) }
    {
        let room = versions_max as usize;
        let mut parents = Vec::with_capacity(alloc, room)?;
        let mut depths = Vec::with_capacity(alloc, room)?;
        let mut inner = Vec::with_capacity(alloc, room)?;
        let mut jumps = Vec::with_capacity(alloc, room)?;
        let mut dropped = Vec::with_capacity(alloc, room)?;
        let mut living = Vec::with_capacity(alloc, room)?;
        let order = Preorder::new(alloc, versions_max)?;
        parents.push_reserved(None);
        depths.push_reserved(0);
        inner.push_reserved(false);
        jumps.push_reserved([0; JUMPS]);
        dropped.push_reserved(false);
        living.push_reserved(0);
        Ok(Tree {
            versions_max,
            parents,
            depths,
            inner,
            jumps,
            dropped,
            living,
            order,
            numbered: 0,
        })
    }

    /// How many versions there are. O(1).
    pub fn count(&self) -> u32
        ensures ok { result ≡ length self.now.parents }
        ensures kept { IsTree self.now.parents }
        ensures len { 1 ≤ result }
        ensures room { result ≤ self.now.versions_max }
        ensures fits { self.now.versions_max ≤ 16384 }
    {
        self.parents.len() as u32
    }

    /// The parent of each version, by its number. O(1).
    pub fn parents(&self) -> &[Option<Version>]
        ensures ok { result.now ≡ self.now.parents }
        ensures kept { IsTree self.now.parents }
    {
        &self.parents
    }

    /// The parent of a version. O(1).
    pub fn parent(&self, v: Version) -> Option<Version>
        requires { v < length self.now.parents }
        ensures ok { result ≡ parent_of self.now.parents v }
    {
        self.parents[v as usize]
    }

    /// How many ancestors a version has. O(1).
    pub fn depth(&self, v: Version) -> u32
        requires { v < length self.now.parents }
        ensures ok { result ≡ depth self.now.parents v }
    {
        self.depths[v as usize]
    }

    /// Whether some version has this one as its parent. O(1).
    pub fn has_child(&self, v: Version) -> bool
        requires { v < length self.now.parents }
        ensures ok { result ≡ has_child self.now.parents v }
    {
        self.inner[v as usize]
    }

    /// Whether a version that was not dropped has this one as its parent. O(1).
    pub fn has_living_child(&self, v: Version) -> bool
        requires { v < length self.now.parents }
        ensures ok { result ≡ has_living_child self.now.parents self.now.marks v }
    {
        self.living[v as usize] != 0
    }

    /// Whether a version was dropped. Version 0 never is, and below one that was all are. O(1).
    pub fn is_dead(&self, v: Version) -> bool
        requires { v < length self.now.parents }
        ensures ok { result ≡ is_dropped self.now.marks v }
        ensures kept { ArePruned self.now.parents self.now.marks }
    {
        self.dropped[v as usize]
    }

    /// The parent of a version other than 0, which has one.
    fn parent_made(&self, v: Version) -> Version
        requires { (1 ≤ v) × (v < length self.now.parents) }
        ensures ok { parent_of self.now.parents v ≡ Some result }
    {
        match self.parents[v as usize] {
            Some(parent) => parent,
            None => 0,
        }
    }

    /// Drops a version that no other living one was made from. It takes no memory and cannot fail. O(1).
    pub fn mark_dead(&mut self, v: Version)
        requires fits { (1 ≤ v) × (v < length self.old.parents) }
        requires kept { is_dropped self.old.marks v ≡ false }
        requires none { has_living_child self.old.parents self.old.marks v ≡ false }
        ensures ok { self.new ≡ record self.old { marks = slice_set self.old.marks v true } }
        ensures kept { ArePruned self.new.parents self.new.marks }
    {
        let parent = self.parent_made(v);
        self.living[parent as usize] -= 1;
        self.dropped[v as usize] = true;
    }

    /// Whether u is v or an ancestor of v. O(1) where both were there when the versions were last numbered:
    /// two comparisons. Else O(log depth): up to 15 steps.
    pub fn is_ancestor(&self, u: Version, v: Version) -> bool
        requires { (u < length self.now.parents) × (v < length self.now.parents) }
        ensures ok { result ≡ is_ancestor self.now.parents u v }
    {
        // For the proof: what every tree keeps.
        let _ = &self.parents;
        if u < self.numbered && v < self.numbered {
            return self.order.spans(u, v);
        }
        self.below(v, u + 1) == u
    }

    /// Numbers all versions that there are, so that two comparisons tell whether one of them is an
    /// ancestor of another; versions made later are told by jumps until the next call. It takes no
    /// memory. O(versions), so it is called after an opening and at each checkpoint.
    pub fn number(&mut self)
        ensures ok { self.new ≡ self.old }
    {
        self.order.number_first(&self.parents);
        self.numbered = self.parents.len() as u32;
    }

    /// The nearest of v and its ancestors that is numbered below h. O(log depth): a parent has a smaller number than its
    /// child, so each jump that stays at or above h is taken, from the longest that v is deep enough for, and one step after
    /// them is below h.
    pub fn below(&self, v: Version, h: u32) -> Version
        requires { (v < length self.now.parents) × (1 ≤ h) }
        ensures ok { result ≡ below self.now.parents v h }
    {
        let jumps = &self.jumps;
        if v < h {
            return v;
        }
        let mut at = v;
        let mut i = jumps_over(self.depth(v));
        while i > 0 {
            i -= 1;
            let next = jumps[at as usize][i];
            if next >= h {
                at = next;
            }
        }
        jumps[at as usize][0]
    }

    /// The jumps of a child of p: each is two of the jump before it.
    fn child_row(&self, p: Version) -> [Version; JUMPS]
        requires { p < length self.now.parents }
        ensures ok { IsChildRow self.now.parents p result }
    {
        let mut row = [p; JUMPS];
        for i in 1..JUMPS {
            row[i] = self.jumps[row[i - 1] as usize][i - 1];
        }
        row
    }

    /// Adds a version, a child of p, which was not dropped, and answers its number. It takes no memory and cannot fail.
    /// O(log versions_max): 14 jumps are filled.
    #[tactic(auto, using(strat_base::proofs::PrunedLemmas::mark_kept))]
    pub fn add_child(&mut self, p: Version) -> Version
        requires fits { p < length self.old.parents }
        requires room { length self.old.parents < self.old.versions_max }
        requires kept { is_dropped self.old.marks p ≡ false }
        ensures found { result ≡ length self.old.parents }
        ensures ok { self.new ≡ record self.old {
          parents = with_child self.old.parents p;
          marks = self.old.marks ++ false ∷ [];
        } }
        ensures same { (v : ℕ) → is_dropped self.new.marks v ≡ is_dropped self.old.marks v }
        ensures len { length self.new.parents ≡ length self.old.parents + 1 }
        ensures kept { IsTree self.new.parents }
    {
        let child = self.parents.len() as u32;
        let depth = self.depths[p as usize] + 1;
        let row = self.child_row(p);
        let siblings = self.living[p as usize];
        self.parents.push_reserved(Some(p));
        self.depths.push_reserved(depth);
        self.inner[p as usize] = true;
        self.inner.push_reserved(false);
        self.jumps.push_reserved(row);
        self.dropped.push_reserved(false);
        self.living[p as usize] = siblings + 1;
        self.living.push_reserved(0);
        child
    }
}
