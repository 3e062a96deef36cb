//! Counts, at each version, of items and of the keys that have an item live there.

ghost use Rattle.std.specs.Prelude.{◌≡◌, ◌<◌, ◌≤◌, ◌+◌, ℕ, true, List, [], ◌∷◌, ◌++◌, length, replicate, slice_index, sum, vec_capacity, IfOk, IsTrue};
ghost use Rattle.std.specs.Option.{option_map_or};
ghost use Rattle.strat_arena.specs.declared.items.Item.{Item};
ghost use Rattle.strat_base.specs.Tree.{Parents, parent_of, IsTree};
ghost use Rattle.strat_live.specs.Counting.{item_versions, are_below, tallied, IsTally, IsCount, SameParents, AreAdded, AreSummed};
ghost use Rattle.def_state.specs.Counted.{own_at, keys_at};
ghost use Rattle.strat_live.specs.Group.{is_descending};
ghost use Rattle.strat_live.specs.Tallies.{items_counted};
ghost use Rattle.strat_live.specs.Tops.{interval_of};
ghost use Rattle.strat_tree.specs.Preorder.{IsPreorder};

use crate::tops::{Interval, begins};
use std::alloc::Global;
use std::marker::Model;
use strat_arena::Item;
use strat_base::{NoMemory, Version};
use strat_tree::{Preorder, Tree};

/// For each version below a number, how many items were added at it and, once `finish` was called, how
/// many keys have an item live at it.
#[derive(Drop)]
pub struct Counts {
    own: Vec<u32>,
    begun: Vec<u32>,
    live: Vec<u32>,
    order: Preorder,
    is_numbered: bool,
    tops: Vec<Interval>,
}

impl Model for Counts {
    ghost use Rattle.strat_live.specs.Tallies.{Tallies};

    ghost Value = { Tallies };

    ghost use Rattle.strat_live.specs.CountFields.{tallies_of, AreTallied};

    ghost view = { tallies_of };

    ghost invariant = { AreTallied };
}

impl Counts {
    /// Counts of no items, for the versions below a number. Takes 28 bytes for each version, and no
    /// other call takes memory. Where it is short, none stays taken. O(versions).
    pub fn new(alloc: Global, versions: u32) -> Result<Counts, NoMemory>
        ensures ok { IfOk result (λ counts. (parents : Parents) → IsTally parents [] counts) }
        ensures len { IfOk result (λ counts. length counts.own ≡ versions) }
        ensures room { IfOk result (λ counts. items_counted counts ≡ 0) }
    {
        let own = zeros(alloc, versions)?;
        let begun = zeros(alloc, versions)?;
        let live = zeros(alloc, versions)?;
        let order = Preorder::new(alloc, versions)?;
        let tops = Vec::with_capacity(alloc, versions as usize)?;
        Ok(Counts {
            own,
            begun,
            live,
            order,
            is_numbered: false,
            tops,
        })
    }

    /// Adds the items of one more key, with the greatest version first. For each item O(log items)
    /// comparisons, and a move of 8 bytes for each item that has none above it and a greater number in
    /// the order of versions; that is none where children were made after the descendants of their older
    /// siblings. The first call also puts the versions in order: O(versions).
    pub fn add(&mut self, group: &[Item], tree: &Tree)
        requires kept { IsTrue (is_descending group.now) }
        requires fits { IsTrue (are_below (length self.old.own) group.now) }
        requires len { length self.old.own ≤ length tree.now.parents }
        requires room { items_counted self.old + length group.now ≤ 16777216 }
        ensures ok { (parents : Parents) (groups : List (List ℕ))
            → SameParents (length self.old.own) parents tree.now.parents
            → IsTally parents groups self.old
            → IsTally parents (groups ++ item_versions group.now ∷ []) self.new }
        ensures len { length self.new.own ≡ length self.old.own }
        ensures room { items_counted self.new ≡ items_counted self.old + length group.now }
    {
        // For the proof: the parents are a tree.
        let _ = tree.count();
        number_once(&mut self.order, &mut self.is_numbered, tree);
        add_own(&mut self.own, group);
        add_begun(&mut self.begun, group, &self.order, &mut self.tops);
    }

    /// Counts the keys live at each version. O(versions).
    pub fn finish(&mut self, tree: &Tree)
        requires len { length self.old.own ≤ length tree.now.parents }
        ensures ok { (parents : Parents) (groups : List (List ℕ))
            → SameParents (length self.old.own) parents tree.now.parents
            → IsTally parents groups self.old → IsCount parents groups self.new }
        ensures same { self.new ≡ record self.old { live = self.new.live } }
    {
        sum_down(&self.begun, &mut self.live, tree.parents());
    }

    /// How many items a version has. O(1).
    pub fn own(&self, v: Version) -> u32
        requires { v < length self.now.own }
        ensures ok { result ≡ slice_index self.now.own v }
        ensures found { (parents : Parents) (groups : List (List ℕ))
            → IsTally parents groups self.now → result ≡ own_at groups v }
        ensures fits { result ≤ 16777216 }
    {
        self.own[v as usize]
    }

    /// How many items each version has, by its number. O(1).
    pub fn own_counts(&self) -> &[u32]
        ensures ok { result.now ≡ self.now.own }
        ensures fits { (v : ℕ) → slice_index result.now v ≤ 16777216 }
    {
        &self.own
    }

    /// How many keys have an item live at each version, by its number, if `finish` was the last change.
    /// O(1).
    pub fn live_counts(&self) -> &[u32]
        ensures ok { result.now ≡ self.now.live }
        ensures len { length result.now ≡ length self.now.own }
        ensures fits { (v : ℕ) → slice_index result.now v ≤ 16777216 }
    {
        &self.live
    }

    /// How many keys have an item live at a version, if `finish` was the last change. O(1).
    pub fn live(&self, v: Version) -> u32
        requires { v < length self.now.own }
        ensures ok { result ≡ slice_index self.now.live v }
        ensures found { (parents : Parents) (groups : List (List ℕ))
            → IsCount parents groups self.now → result ≡ keys_at parents groups v }
        ensures fits { result ≤ 16777216 }
    {
        self.live[v as usize]
    }
}

/// A list of so many zeros.
fn zeros(alloc: Global, n: u32) -> Result<Vec<u32>, NoMemory>
    ensures ok { IfOk result (λ list. list.items ≡ replicate n 0) }
{
    let list = vec![in alloc; 0; n as usize]?;
    Ok(list)
}

/// Counts each item at its version.
fn add_own(own: &mut [u32], group: &[Item])
    requires fits { IsTrue (are_below (length own.old) group.now) }
    requires room { sum own.old + length group.now ≤ 16777216 }
    ensures ok { own.new ≡ tallied own.old (item_versions group.now) }
{
    for item in group {
        own[item.version as usize] += 1;
    }
}

/// Numbers the versions at the first call.
fn number_once(order: &mut Preorder, is_numbered: &mut bool, tree: &Tree)
    requires len { length order.old.starts ≤ length tree.now.parents }
    ensures ok { is_numbered.new ≡ true }
    ensures kept { (parents : Parents)
        → SameParents (length order.old.starts) parents tree.now.parents
        → (is_numbered.old ≡ true
        → IsPreorder (length order.old.starts) parents order.old)
        → IsPreorder (length order.old.starts) parents order.new }
    ensures len { length order.new.starts ≡ length order.old.starts }
{
    if !*is_numbered {
        order.number(tree);
        *is_numbered = true;
    }
}

/// Counts each item at its version that has no other of the group above it.
fn add_begun(begun: &mut [u32], group: &[Item], order: &Preorder, tops: &mut Vec<Interval>)
    requires kept { IsTrue (is_descending group.now) }
    requires fits { IsTrue (are_below (length begun.old) group.now) }
    requires len { length order.now.starts ≡ length begun.old }
    requires room { sum begun.old + length group.now ≤ 16777216 }
    requires end { length begun.old ≤ vec_capacity tops.old }
    ensures ok { (parents : Parents) → IsTree parents
        → IsPreorder (length begun.old) parents order.now
        → AreAdded parents (item_versions group.now) begun.old begun.new }
    ensures room { sum begun.new ≤ sum begun.old + length group.now }
    ensures kept { vec_capacity tops.old ≤ vec_capacity tops.new }
{
    tops.clear();
    begin_each(begun, group, order, tops);
}

/// Goes through a group from its least version up, with the intervals of those items that have none
/// above them.
fn begin_each(begun: &mut [u32], group: &[Item], order: &Preorder, tops: &mut Vec<Interval>)
    requires kept { IsTrue (is_descending group.now) }
    requires fits { IsTrue (are_below (length begun.old) group.now) }
    requires len { length order.now.starts ≡ length begun.old }
    requires room { sum begun.old + length group.now ≤ 16777216 }
    requires end { length begun.old ≤ vec_capacity tops.old }
    requires none { tops.old.items ≡ [] }
    ensures ok { (parents : Parents) → IsTree parents
        → IsPreorder (length begun.old) parents order.now
        → AreAdded parents (item_versions group.now) begun.old begun.new }
    ensures room { sum begun.new ≤ sum begun.old + length group.now }
    ensures kept { vec_capacity tops.old ≤ vec_capacity tops.new }
{
    let mut i = group.len();
    while i > 0 {
        i -= 1;
        let v = group[i].version;
        if begins(tops, interval_in(order, v)) {
            begun[v as usize] += 1;
        }
    }
}

/// The interval of a version.
fn interval_in(order: &Preorder, v: Version) -> Interval
    requires { v < length order.now.starts }
    ensures ok { result ≡ interval_of order.now v }
{
    Interval {
        start: order.start(v),
        end: order.end(v),
    }
}

/// Adds up what begins at each version and what its parent sees.
fn sum_down(begun: &[u32], live: &mut [u32], parents: &[Option<Version>])
    requires kept { IsTree parents.now }
    requires len { length live.old ≡ length begun.now }
    requires fits { length begun.now ≤ length parents.now }
    requires room { sum begun.now ≤ 16777216 }
    ensures ok { AreSummed parents.now begun.now live.new (length begun.now) }
{
    for v in 0..begun.len() {
        live[v] = begun[v] + live_above(live, parents, v);
    }
}

/// The count at the parent of a version, or 0 where it has none.
fn live_above(live: &[u32], parents: &[Option<Version>], v: usize) -> u32
    requires kept { IsTree parents.now }
    requires len { v ≤ length live.now }
    requires fits { v < length parents.now }
    ensures ok { result
        ≡ option_map_or (λ p. slice_index live.now p) (parent_of parents.now v) 0 }
{
    match parents[v] {
        Some(p) => live[p as usize],
        None => 0,
    }
}
