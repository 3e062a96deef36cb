//! The entries of a group that are no leads.

ghost use Rattle.std.specs.List.{Contains, list_any, list_all};
ghost use Rattle.std.specs.Prelude.{◌≡◌, ◌<◌, ◌≤◌, ℕ, List, ◌++◌, ◌∷◌, [], ◌/◌, ◌%◌, ◌==◌, ◌||◌, nat_lt, not, length, map, slice_index_or, IfOk, IfSome, IfNone, OnOk, IsTrue};
ghost use Rattle.strat_arena.specs.Items.{entry_of_item, entries_of, have_pairs};
ghost use Rattle.strat_arena.specs.declared.items.Item.{Item as Kept};
ghost use Rattle.strat_base.specs.Entries.{is_of, is_same_value, holds_entry};
ghost use Rattle.strat_base.specs.EntryView.{val_of};
ghost use Rattle.strat_base.specs.declared.descriptors.ArrayDesc.{ArrayDesc as Desc};
ghost use Rattle.def_state.specs.Live.{live};
ghost use Rattle.def_check.specs.Marked.{is_from_run, unmarked};
ghost use Rattle.strat_live.specs.Group.{is_descending};
ghost use Rattle.strat_check.specs.MarkedGroups.{is_owned};
ghost use Rattle.strat_check.specs.StrayGroups.{group_entries, group_leads, IsStrayGroup, unmarked_item, items_told, is_stray, noted, with_answer, AreAllAsked};
ghost use Rattle.strat_check.specs.Strays.{has_live_stray, strays_at, AreNoted};

use crate::marked_run::PLACES;
use crate::strays::{Strays, is_due, note, settle};
use std::alloc::Global;
use strat_arena::{Arena, Item};
use strat_base::{ArrayDesc, NoMemory, Val, Version};
use strat_live::live_in;
use strat_tree::Tree;

/// A group of entries that are marked with the places of their arrays, and for each version the place of the array that has
/// it in its tag.
#[derive(Clone, Copy)]
pub(crate) struct StrayGroup<'a> {
    pub(crate) arena: &'a Arena,
    pub(crate) items: &'a [Item],
    pub(crate) owners: &'a [u32],
}

/// How many items have a version above this one. O(log items) comparisons.
fn count_above(items: &[Item], version: u32) -> usize
    requires kept { IsTrue (is_descending items.now) }
    ensures ok { (k : ℕ) (d : Kept) → k < result
        → version < (slice_index_or items.now k d).version }
    ensures end { (k : ℕ) (d : Kept) → result ≤ k → k < length items.now
        → (slice_index_or items.now k d).version ≤ version }
    ensures len { result ≤ length items.now }
{
    items.partition_point(|item| item.version > version)
}

/// The place of the item of a version, if there is one. O(log items) comparisons.
fn position_of(items: &[Item], version: u32) -> Option<usize>
    requires kept { IsTrue (is_descending items.now) }
    ensures found { IfSome result (λ i. (i < length items.now)
        × ((d : Kept) → (slice_index_or items.now i d).version ≡ version)) }
    ensures none { IfNone result ((k : ℕ) (d : Kept) → k < length items.now
        → (slice_index_or items.now k d).version ≡ version → ⊥) }
{
    let at = count_above(items, version);
    if at < items.len() && items[at].version == version {
        Some(at)
    } else {
        None
    }
}

/// Whether two entries of a key say the same. O(bytes of a value).
fn is_same_val(a: Val<'_>, b: Val<'_>) -> bool
    ensures ok { result ≡ is_same_value (val_of a.entry) (val_of b.entry) }
{
    match (a, b) {
        (Val::Gone, Val::Gone) => true,
        (Val::Put(x), Val::Put(y)) => x == y,
        _ => false,
    }
}

/// Whether an item without a mark, of the group's key, is one of the group's leads. O(log items) comparisons, and one of
/// values.
fn is_lead(g: &StrayGroup<'_>, item: &Item) -> bool
    requires kept { IsStrayGroup g.now }
    requires fits { (item.now.slot.0 < length g.now.arena.now.pairs)
        × (item.now.version < length g.now.owners.now) }
    ensures ok { (key : List ℕ) → IsTrue (list_all (is_of key) (group_entries g.now))
        → IsTrue (is_of key (entry_of_item g.now.arena.now.pairs item.now))
        → result ≡ holds_entry (group_leads g.now)
        (entry_of_item g.now.arena.now.pairs item.now) }
{
    let place = g.owners[item.version as usize];
    if place >= PLACES {
        return false;
    }
    match position_of(g.items, item.version * PLACES + place) {
        Some(at) => is_same_val(g.arena.entry(*item).val, g.arena.entry(g.items[at]).val),
        None => false,
    }
}

/// An item without its mark.
fn unmark(item: &Item) -> Item
    ensures ok { result ≡ unmarked_item item.now }
{
    Item {
        slot: item.slot,
        version: item.version / PLACES,
        gone: item.gone,
    }
}

/// Whether an item is of the array that has its version in its tag. O(1).
fn is_owned(g: &StrayGroup<'_>, item: &Item) -> bool
    requires kept { IsStrayGroup g.now }
    requires found { Contains g.now.items.now item.now }
    ensures ok { result
        ≡ is_owned g.now.owners.now (entry_of_item g.now.arena.now.pairs item.now) }
{
    g.owners[(item.version / PLACES) as usize] == item.version % PLACES
}

/// Whether an item says what one of the group's leads says. O(1) where it is a lead itself, and else as `is_lead`.
fn says_lead(g: &StrayGroup<'_>, item: &Item) -> bool
    requires kept { IsStrayGroup g.now }
    requires found { Contains g.now.items.now item.now }
    ensures ok { result ≡ holds_entry (group_leads g.now)
        (unmarked (entry_of_item g.now.arena.now.pairs item.now)) }
{
    if is_owned(g, item) {
        return true;
    }
    is_lead(g, &unmark(item))
}

/// Notes of the array of an item whether the item is a stray.
fn note_item(g: &StrayGroup<'_>, item: &Item, found: &mut [Strays])
    requires kept { IsStrayGroup g.now }
    requires found { Contains g.now.items.now item.now }
    ensures ok { (i : ℕ) → i < length found.old → strays_at found.new i ≡ noted (is_stray
        (group_leads g.now) i (entry_of_item g.now.arena.now.pairs item.now))
        (strays_at found.old i) }
    ensures len { length found.new ≡ length found.old }
{
    if !says_lead(g, item) {
        note(found, item.version % PLACES);
    }
}

/// Notes of each array whether it has a stray in a group.
fn note_all(g: &StrayGroup<'_>, found: &mut [Strays])
    requires kept { IsStrayGroup g.now }
    ensures ok { (i : ℕ) → i < length found.old → strays_at found.new i ≡ noted (list_any
        (is_stray (group_leads g.now) i) (group_entries g.now)) (strays_at found.old i) }
    ensures len { length found.new ≡ length found.old }
{
    for item in g.items {
        note_item(g, item, found);
    }
}

/// Adds an item without its mark, if it is of the array at a place.
fn push_told(told: &mut Vec<Item>, item: &Item, place: u32) -> Result<(), NoMemory>
    ensures ok { OnOk result (told.new.items
        ≡ told.old.items ++ items_told place (item.now ∷ [])) }
{
    if item.version % PLACES == place {
        told.push(unmark(item))?;
    }
    Ok(())
}

/// The items of the array at a place, without their marks. O(items).
fn told_items(alloc: Global, items: &[Item], place: u32) -> Result<Vec<Item>, NoMemory>
    ensures ok { IfOk result (λ told. told.items ≡ items_told place items.now) }
{
    let mut told = Vec::new(alloc);
    for item in items {
        push_told(&mut told, item, place)?;
    }
    Ok(told)
}

/// Whether the item of an array that is live at a version is a stray.
fn is_stray_at(g: &StrayGroup<'_>, told: &[Item], tree: &Tree, v: Version) -> bool
    requires kept { IsStrayGroup g.now }
    requires found { (place : ℕ) × (told.now ≡ items_told place g.now.items.now) }
    requires fits { v < length tree.now.parents }
    ensures ok { result ≡ not (list_all (holds_entry (group_leads g.now))
        (live tree.now.parents (entries_of g.now.arena.now.pairs told.now) v)) }
{
    // For the proof: the parents are a tree.
    let _ = tree.count();
    match live_in(told, tree, v) {
        Some(at) => !is_lead(g, &told[at]),
        None => false,
    }
}

/// Whether a stray of an array is live at a version of a tag.
fn is_any_live(g: &StrayGroup<'_>, told: &[Item], tag: &[Version], tree: &Tree) -> bool
    requires kept { IsStrayGroup g.now }
    requires found { (place : ℕ) × (told.now ≡ items_told place g.now.items.now) }
    requires fits { IsTrue (list_all (λ v. nat_lt v (length tree.now.parents)) tag.now) }
    ensures ok { result ≡ not (list_all (λ v. list_all (holds_entry (group_leads g.now))
        (live tree.now.parents (entries_of g.now.arena.now.pairs told.now) v)) tag.now) }
{
    for v in tag {
        if is_stray_at(g, told, tree, *v) {
            return true;
        }
    }
    false
}

/// Whether a stray of the array at a place is live at a version of its tag. O(items), and for each version of the tag a
/// look-up among them. Takes a copy of the array's items.
fn has_live_stray(
    alloc: Global,
    g: &StrayGroup<'_>,
    place: u32,
    tag: &[Version],
    tree: &Tree,
) -> Result<bool, NoMemory>
    requires kept { IsStrayGroup g.now }
    requires fits { IsTrue (list_all (λ v. nat_lt v (length tree.now.parents)) tag.now) }
    ensures ok { IfOk result (λ lives. lives ≡ has_live_stray tree.now.parents
        (is_owned g.now.owners.now) tag.now place (group_entries g.now)) }
{
    let told = told_items(alloc, g.items, place)?;
    Ok(is_any_live(g, &told, tag, tree))
}

/// The same, and it is not asked again where a stray of the array is live by an earlier key.
fn lives_by_now(
    alloc: Global,
    g: &StrayGroup<'_>,
    place: u32,
    tag: &[Version],
    tree: &Tree,
    found: &[Strays],
) -> Result<bool, NoMemory>
    requires kept { IsStrayGroup g.now }
    requires fits { IsTrue (list_all (λ v. nat_lt v (length tree.now.parents)) tag.now) }
    requires room { place < length found.now }
    ensures ok { IfOk result (λ lives. ((strays_at found.now place).is_live || lives)
        ≡ ((strays_at found.now place).is_live || has_live_stray tree.now.parents
        (is_owned g.now.owners.now) tag.now place (group_entries g.now))) }
{
    if found[place as usize].is_live {
        return Ok(true);
    }
    has_live_stray(alloc, g, place, tag, tree)
}

/// Asks, where it is due, whether a stray of an item's array is live.
fn settle_item(
    alloc: Global,
    g: &StrayGroup<'_>,
    item: &Item,
    arrays: &[ArrayDesc],
    tree: &Tree,
    found: &mut [Strays],
) -> Result<(), NoMemory>
    requires kept { IsStrayGroup g.now }
    requires fits { (a : Desc) → Contains arrays.now a
        → IsTrue (list_all (λ v. nat_lt v (length tree.now.parents)) a.versions) }
    requires len { length found.old ≡ length arrays.now }
    ensures ok { OnOk result ((i : ℕ) → i < length found.old → strays_at found.new i
        ≡ with_answer (is_from_run i (entry_of_item g.now.arena.now.pairs item.now))
        (has_live_stray tree.now.parents (is_owned g.now.owners.now)
        (slice_index_or (map (λ a. a.versions) arrays.now) i []) i (group_entries g.now))
        (strays_at found.old i)) }
    ensures len { length found.new ≡ length found.old }
{
    let place = item.version % PLACES;
    if is_due(found, place) {
        let tag = arrays[place as usize].versions.as_slice();
        let lives = lives_by_now(alloc, g, place, tag, tree, found)?;
        settle(found, place, lives);
    }
    Ok(())
}

/// Asks of each array, where it is due, whether a stray of it is live.
fn settle_all(
    alloc: Global,
    g: &StrayGroup<'_>,
    arrays: &[ArrayDesc],
    tree: &Tree,
    found: &mut [Strays],
) -> Result<(), NoMemory>
    requires kept { IsStrayGroup g.now }
    requires fits { (a : Desc) → Contains arrays.now a
        → IsTrue (list_all (λ v. nat_lt v (length tree.now.parents)) a.versions) }
    requires len { length found.old ≡ length arrays.now }
    ensures ok { OnOk result ((i : ℕ) → i < length found.old → strays_at found.new i
        ≡ with_answer (list_any (is_from_run i) (group_entries g.now))
        (has_live_stray tree.now.parents (is_owned g.now.owners.now)
        (slice_index_or (map (λ a. a.versions) arrays.now) i []) i (group_entries g.now))
        (strays_at found.old i)) }
    ensures len { length found.new ≡ length found.old }
{
    for item in g.items {
        settle_item(alloc, g, item, arrays, tree, found)?;
    }
    Ok(())
}

/// Notes of each array whether it has a stray in a group, and whether one is live at a version of its tag. O(items), and for
/// each that is no lead O(log items) comparisons. For an array with a stray also O(items), and for each version of its tag O(log versions)
/// for each of its items at most.
pub(crate) fn note_group(
    alloc: Global,
    g: &StrayGroup<'_>,
    arrays: &[ArrayDesc],
    tree: &Tree,
    found: &mut [Strays],
) -> Result<(), NoMemory>
    requires kept { IsStrayGroup g.now }
    requires state { AreAllAsked found.old }
    requires fits { (a : Desc) → Contains arrays.now a
        → IsTrue (list_all (λ v. nat_lt v (length tree.now.parents)) a.versions) }
    requires len { length found.old ≡ length arrays.now }
    ensures ok { OnOk result (AreNoted tree.now.parents (is_owned g.now.owners.now)
        (map (λ a. a.versions) arrays.now) (group_entries g.now) found.old found.new) }
    ensures state { OnOk result (AreAllAsked found.new) }
    ensures len { length found.new ≡ length found.old }
{
    note_all(g, found);
    settle_all(alloc, g, arrays, tree, found)
}
