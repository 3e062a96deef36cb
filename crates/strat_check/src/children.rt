//! The least living children of versions, by which it is told whether one of some versions has a living child below a horizon:
//! exactly if the least of these children is below it.

ghost use Rattle.std.specs.List.{fold, range_with_len};
ghost use Rattle.std.specs.Prelude.{◌≡◌, ◌<◌, ◌≤◌, ℕ, if◌then◌else◌, length, min, option_map, slice_index_or, IfOk};
ghost use Rattle.strat_base.specs.Tree.{IsTree};
ghost use Rattle.strat_check.specs.Children.{first_from, lowered_to_child, lowered_by_items, lowered_by_own, lowered_by_zeros};
ghost use Rattle.strat_tree.specs.Living.{is_living_child};

use crate::sights::Sights;
use std::alloc::Global;
use strat_arena::Item;
use strat_base::{NoMemory, Version};
use strat_level::ZeroView;
use strat_tree::Tree;

/// Notes a version at its parent, if it is living and has one. O(1).
#[tactic(auto, using(crate::proofs::ChildLemmas::dropped_passed, crate::proofs::ChildLemmas::root_passed, crate::proofs::ChildLemmas::child_noted))]
fn note_child(first: &mut [u32], tree: &Tree, c: Version)
    requires kept { IsTree tree.now.parents }
    requires fits { c < length tree.now.parents }
    requires len { length first.old ≡ length tree.now.parents }
    ensures ok { (v : ℕ) → v < length tree.now.parents
        → slice_index_or first.new v (length tree.now.parents)
        ≡ (if is_living_child tree.now.parents tree.now.marks v c then c
        else slice_index_or first.old v (length tree.now.parents)) }
    ensures len { length first.new ≡ length tree.now.parents }
{
    if tree.is_dead(c) {
        return;
    }
    if let Some(parent) = tree.parent(c) {
        first[parent as usize] = c;
    }
}

/// Notes each living version at its parent, the greatest first, so that the least living child of each is left.
fn note_children(first: &mut [u32], tree: &Tree)
    requires len { length first.old ≡ length tree.now.parents }
    requires none { (v : ℕ) → v < length tree.now.parents
        → slice_index_or first.old v (length tree.now.parents) ≡ length tree.now.parents }
    ensures ok { (v : ℕ) → v < length tree.now.parents
        → slice_index_or first.new v (length tree.now.parents)
        ≡ first_from tree.now.parents tree.now.marks 0 v }
    ensures len { length first.new ≡ length tree.now.parents }
{
    let mut c = tree.count();
    while c > 0 {
        c -= 1;
        note_child(first, tree, c);
    }
}

/// The least living child of each version, or the number of versions where it has none. Takes 4 bytes a version; the only error
/// is want of memory. O(versions).
pub fn first_children(alloc: Global, tree: &Tree) -> Result<Vec<u32>, NoMemory>
    ensures ok { IfOk result (λ first. (v : ℕ) → v < length tree.now.parents
        → slice_index_or first.items v (length tree.now.parents)
        ≡ first_from tree.now.parents tree.now.marks 0 v) }
    ensures len { IfOk result (λ first. length first.items ≡ length tree.now.parents) }
{
    let versions = tree.count();
    let mut first = vec![in alloc; versions; versions as usize]?;
    note_children(&mut first, tree);
    Ok(first)
}

/// The lesser of a number and the least living child of a version. O(1).
fn lower(lowest: u32, first: &[u32], v: Version) -> u32
    ensures ok { result ≡ lowered_to_child first.now lowest v }
{
    match first.get(v as usize) {
        Some(child) if *child < lowest => *child,
        _ => lowest,
    }
}

/// The least of a number and the least living children of the versions of items. O(items).
fn lower_by_items(lowest: u32, first: &[u32], items: &[Item]) -> u32
    ensures ok { result ≡ lowered_by_items first.now lowest items.now }
{
    let mut least = lowest;
    for item in items {
        least = lower(least, first, item.version);
    }
    least
}

/// The least of a number and the least living children of the versions of level 0's items, and of those of the sealed one,
/// where there is one. O(items).
pub fn lower_by_zeros(lowest: u32, first: &[u32], zero: &ZeroView, sealed: Option<&ZeroView>) -> u32
    ensures ok { result ≡ lowered_by_zeros first.now lowest zero.now
        (option_map (λ z. z.now) sealed.entry) }
{
    if let Some(sealed) = sealed {
        let least = lower_by_items(lowest, first, sealed.items());
        return lower_by_items(least, first, zero.items());
    }
    lower_by_items(lowest, first, zero.items())
}

/// The lesser of a number and the least living child of a version, if it has leads. O(1).
fn lower_by_own(lowest: u32, first: &[u32], leads: &Sights, v: Version) -> u32
    requires fits { v < length leads.now.own }
    ensures ok { result ≡ lowered_by_own leads.now.own first.now lowest v }
{
    if leads.own(v) == 0 {
        lowest
    } else {
        lower(lowest, first, v)
    }
}

/// The least of a number and the least living children of the versions that have leads. O(versions).
pub fn lower_by_leads(lowest: u32, first: &[u32], leads: &Sights, versions: u32) -> u32
    requires fits { versions ≤ length leads.now.own }
    ensures ok { result
        ≡ fold (lowered_by_own leads.now.own first.now) lowest (range_with_len 0 versions) }
{
    let mut least = lowest;
    for v in 0..versions {
        least = lower_by_own(least, first, leads, v);
    }
    least
}
