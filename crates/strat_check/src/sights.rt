//! What each version sees of keys: how many, and what their entries weigh. An entry weighs one more than its
//! version.

ghost use Rattle.std.specs.Prelude.{◌≡◌, ◌<◌, ◌≤◌, ◌+◌, ◌^◌, ℕ, suc, nat_lt, ◌==◌, if◌then◌else◌, List, [], ◌∷◌, ◌++◌, length, replicate, slice_index, sum_by, count_by, vec_capacity, IfOk, IsTrue};
ghost use Rattle.std.specs.List.{list_all};
ghost use Rattle.strat_base.specs.Order.{descends};
ghost use Rattle.strat_base.specs.Tree.{Parents, parent_of, IsTree};
ghost use Rattle.def_state.specs.Counted.{own_at, keys_at};
ghost use Rattle.def_check.specs.Weights.{nearest_sum};
ghost use Rattle.strat_tree.specs.Preorder.{IsPreorder};
ghost use Rattle.strat_check.specs.Sightings.{versions_added, weight_lost, IsSighting, IsSighted};
ghost use Rattle.strat_check.specs.Bares.{are_bare_below};
ghost use Rattle.strat_check.specs.Sums.{HaveGrown, AreWeighed, AreSumsOf, sum_above};

use crate::bare::{Bare, count_from, replace};
use std::alloc::Global;
use std::marker::Model;
use strat_base::{NoMemory, Version};
use strat_tree::{Preorder, Tree};

/// For each version below a number, how many entries were added at it, what these hide of the entries that its
/// parent sees, and once `finish` was called, how many keys it sees and what the entries weigh that it sees.
/// The numbers are of 64 bits and stand still at their end.
#[derive(Drop)]
pub struct Sights {
    own: Vec<u64>,
    hidden: Vec<u64>,
    hidden_weight: Vec<u64>,
    seen: Vec<u64>,
    weight: Vec<u64>,
    order: Preorder,
    bare: Vec<Bare>,
}

impl Model for Sights {
    ghost use Rattle.strat_check.specs.Sightings.{Sightings};

    ghost Value = { Sightings };

    ghost use Rattle.strat_check.specs.SightFields.{sightings_of, AreSights};

    ghost view = { sightings_of };

    ghost invariant = { AreSights };
}

impl Sights {
    /// Sights of no keys, for the versions of a tree, which are put in order here. Takes 56 bytes for each version, and no
    /// other call takes memory. Where it is short, none stays taken. O(versions).
    pub fn new(alloc: Global, tree: &Tree) -> Result<Sights, NoMemory>
        ensures ok { IfOk result (λ s. IsSighting tree.now.parents [] s) }
        ensures len { IfOk result (λ s. length s.own ≡ length tree.now.parents) }
        ensures kept { IfOk result
            (λ s. IsPreorder (length tree.now.parents) tree.now.parents s.order) }
    {
        let versions = tree.count();
        let own = zeros(alloc, versions)?;
        let hidden = zeros(alloc, versions)?;
        let hidden_weight = zeros(alloc, versions)?;
        let seen = zeros(alloc, versions)?;
        let weight = zeros(alloc, versions)?;
        let mut order = Preorder::new(alloc, versions)?;
        order.number(tree);
        let bare = Vec::with_capacity(alloc, versions as usize)?;
        Ok(Sights {
            own,
            hidden,
            hidden_weight,
            seen,
            weight,
            order,
            bare,
        })
    }

    /// Forgets all keys. The order of the versions stays. O(versions).
    pub fn clear(&mut self)
        ensures ok { (parents : Parents) → length self.old.own ≡ length parents
            → IsPreorder (length parents) parents self.old.order → IsSighting parents [] self.new }
        ensures len { length self.new.own ≡ length self.old.own }
        ensures state { self.new.order ≡ self.old.order }
    {
        self.own.fill(0);
        self.hidden.fill(0);
        self.hidden_weight.fill(0);
    }

    /// Adds the versions of one more key's entries, the greatest first. For each version O(log versions)
    /// comparisons, and a move of 8 bytes for each one that nothing hides yet and that has a smaller number in the
    /// order of versions; that is none where children were made after the descendants of their older siblings.
    pub fn add(&mut self, versions: &[Version], tree: &Tree)
        requires kept { IsTrue (descends versions.now) }
        requires fits { IsTrue (list_all (λ v. nat_lt v (length self.old.own)) versions.now) }
        requires len { length self.old.own ≡ length tree.now.parents }
        ensures ok { (groups : List (List ℕ)) → IsSighting tree.now.parents groups self.old
            → versions_added (groups ++ versions.now ∷ []) ≤ 2 ^ 48
            → IsSighting tree.now.parents (groups ++ versions.now ∷ []) self.new }
        ensures len { length self.new.own ≡ length self.old.own }
        ensures state { self.new.order ≡ self.old.order }
    {
        // For the proof: the parents are a tree.
        let _ = tree.count();
        add_own(&mut self.own, versions);
        self.bare.clear();
        hide_each(
            &mut self.hidden,
            &mut self.hidden_weight,
            versions,
            &self.order,
            &mut self.bare,
        );
    }

    /// Sums up what each version sees. O(versions).
    pub fn finish(&mut self, tree: &Tree)
        requires len { length self.old.own ≡ length tree.now.parents }
        ensures ok { (groups : List (List ℕ)) → IsSighting tree.now.parents groups self.old
            → versions_added groups ≤ 2 ^ 48 → IsSighted tree.now.parents groups self.new }
        ensures len { length self.new.own ≡ length self.old.own }
        ensures same { self.new
            ≡ record self.old { seen = self.new.seen; weight = self.new.weight } }
    {
        // For the proof: the parents are a tree of few versions.
        let _ = tree.count();
        self.seen.copy_from_slice(&self.own);
        sum_down(&mut self.seen, &self.hidden, tree.parents());
        weigh(&mut self.weight, &self.own);
        sum_down(&mut self.weight, &self.hidden_weight, tree.parents());
    }

    /// How many entries a version has. O(1).
    pub fn own(&self, v: Version) -> u64
        requires { v < length self.now.own }
        ensures ok { result ≡ slice_index self.now.own v }
        ensures found { (parents : Parents) (groups : List (List ℕ))
            → IsSighted parents groups self.now → result ≡ own_at groups v }
    {
        self.own[v as usize]
    }

    /// How many keys a version sees, if `finish` was the last change. O(1).
    pub fn seen(&self, v: Version) -> u64
        requires { v < length self.now.own }
        ensures ok { result ≡ slice_index self.now.seen v }
        ensures found { (parents : Parents) (groups : List (List ℕ))
            → IsSighted parents groups self.now → result ≡ keys_at parents groups v }
    {
        self.seen[v as usize]
    }

    /// What the entries weigh that a version sees, if `finish` was the last change. O(1).
    pub fn weight(&self, v: Version) -> u64
        requires { v < length self.now.own }
        ensures ok { result ≡ slice_index self.now.weight v }
        ensures found { (parents : Parents) (groups : List (List ℕ))
            → IsSighted parents groups self.now → result ≡ nearest_sum parents groups v }
    {
        self.weight[v as usize]
    }
}

/// A list of so many zeros.
fn zeros(alloc: Global, n: u32) -> Result<Vec<u64>, NoMemory>
    ensures ok { IfOk result (λ list. list.items ≡ replicate n 0) }
{
    let list = vec![in alloc; 0; n as usize]?;
    Ok(list)
}

/// Adds to the number of a version.
fn grow(numbers: &mut [u64], v: Version, by: u64)
    requires fits { v < length numbers.old }
    ensures ok { HaveGrown (λ w. if v == w then by else 0) numbers.old numbers.new }
{
    let v = v as usize;
    numbers[v] = numbers[v].saturating_add(by);
}

/// Counts each entry at its version.
fn add_own(own: &mut [u64], versions: &[Version])
    requires fits { IsTrue (list_all (λ v. nat_lt v (length own.old)) versions.now) }
    ensures ok { HaveGrown (λ v. count_by (λ u. u == v) versions.now) own.old own.new }
{
    for v in versions {
        grow(own, *v, 1);
    }
}

/// Adds to the number of each of these versions.
fn grow_each(numbers: &mut [u64], bare: &[Bare], by: u64)
    requires fits { IsTrue (are_bare_below (length numbers.old) bare.now) }
    ensures ok { HaveGrown (λ v. sum_by (λ b. if b.version == v then by else 0) bare.now)
        numbers.old numbers.new }
{
    for b in bare {
        grow(numbers, b.version, by);
    }
}

/// Goes through the versions of a key from the greatest down, with those so far that nothing hides yet. The next
/// one hides those of them that are below it, and takes their place.
fn hide_each(
    hidden: &mut [u64],
    weights: &mut [u64],
    versions: &[Version],
    order: &Preorder,
    bare: &mut Vec<Bare>,
)
    requires kept { IsTrue (descends versions.now) }
    requires fits { IsTrue (list_all (λ v. nat_lt v (length hidden.old)) versions.now) }
    requires len { length weights.old ≡ length hidden.old }
    requires same { length order.now.starts ≡ length hidden.old }
    requires room { length hidden.old ≤ vec_capacity bare.old }
    requires none { bare.old.items ≡ [] }
    ensures ok { (parents : Parents) → IsTree parents
        → IsPreorder (length hidden.old) parents order.now
        → HaveGrown (λ v. weight_lost parents (λ u. 1) v versions.now) hidden.old hidden.new }
    ensures state { (parents : Parents) → IsTree parents
        → IsPreorder (length hidden.old) parents order.now
        → HaveGrown (λ v. weight_lost parents suc v versions.now) weights.old weights.new }
    ensures kept { vec_capacity bare.old ≤ vec_capacity bare.new }
{
    for u in versions {
        let u = *u;
        let start = order.start(u);
        let from = count_from(bare, order.end(u));
        let to = from + count_from(&bare[from..], start);
        grow_each(hidden, &bare[from..to], 1);
        grow_each(weights, &bare[from..to], u as u64 + 1);
        replace(bare, from, to, Bare { start, version: u });
    }
}

/// Weighs the entries that each version has.
fn weigh(weights: &mut [u64], own: &[u64])
    requires len { length weights.old ≡ length own.now }
    ensures ok { AreWeighed own.now weights.new (length own.now) }
{
    for v in 0..own.len() {
        weights[v] = own[v].saturating_mul(v as u64 + 1);
    }
}

/// Adds to what each version gains what its parent has, and takes away what it loses.
fn sum_down(sums: &mut [u64], lost: &[u64], parents: &[Option<Version>])
    requires kept { IsTree parents.now }
    requires len { length lost.now ≡ length sums.old }
    requires fits { length sums.old ≤ length parents.now }
    ensures ok { AreSumsOf parents.now sums.old lost.now sums.new (length sums.old) }
{
    for v in 0..sums.len() {
        let sum = at_parent(sums, parents, v).saturating_add(sums[v]);
        sums[v] = sum.saturating_sub(lost[v]);
    }
}

/// The number at the parent of a version, or 0 where it has none.
fn at_parent(sums: &[u64], parents: &[Option<Version>], v: usize) -> u64
    requires kept { IsTree parents.now }
    requires len { v ≤ length sums.now }
    requires fits { v < length parents.now }
    ensures ok { result ≡ sum_above parents.now sums.now v }
{
    match parents[v] {
        Some(p) => sums[p as usize],
        None => 0,
    }
}
