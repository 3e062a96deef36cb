//! The items of level 0 as of one moment.

ghost use Rattle.std.specs.List.{find, insert, slice_get};
ghost use Rattle.std.specs.Option.{option_copied};
ghost use Rattle.std.specs.Prelude.{◌≡◌, ◌<◌, ◌≤◌, ◌+◌, length, slice_set, slice_index_or, option_and_then, ◌-◌, ◌^◌, IfSome, IfOk, IfErr, OnOk, OnErr, IsTrue, MatchResult, vec_capacity, if◌then◌else◌, ◌==◌};
ghost use Rattle.strat_arena.specs.ArenaView.{no_arena};
ghost use Rattle.strat_arena.specs.PoolView.{arena_at, shares_at, count_shared, SameBeside};
ghost use Rattle.strat_base.specs.Entries.{Entry as KeyEntry, is_of};
ghost use Rattle.strat_base.specs.EntryBytes.{fits_fields};
ghost use Rattle.strat_base.specs.EntryView.{entry_of};
ghost use Rattle.strat_level.specs.Memtable.{entries_held, ListStands};
ghost use Rattle.strat_level.specs.Places.{IsStart};
ghost use Rattle.def_state.specs.Live.{live};

use crate::search::{key_range, start_of};
use std::marker::Model;
use strat_arena::{ArenaPool, Item};
use strat_base::{Entry, NoMemory, Version};
use strat_live::live_in;
use strat_tree::Tree;

/// Items in the order of their entries, at most one for each key and version. Their keys and values
/// lie in an arena of a pool.
#[derive(Drop)]
pub struct ZeroView {
    arena: u32,
    items: Vec<Item>,
}

impl Model for ZeroView {
    ghost use Rattle.strat_level.specs.Memtable.{ItemList};

    ghost Value = { ItemList };

    ghost use Rattle.strat_level.specs.ViewFields.{list_seen};

    ghost view = { list_seen };
}

impl ZeroView {
    /// These items in an arena.
    pub(crate) fn new(arena: u32, items: Vec<Item>) -> ZeroView
        ensures ok { result
            ≡ record { arena = arena; items = items.items; capacity = vec_capacity items } }
    {
        ZeroView { arena, items }
    }

    /// The items, by key, and of one key the greatest version first. O(1).
    pub fn items(&self) -> &[Item]
        ensures ok { result.now ≡ self.now.items }
    {
        &self.items
    }

    /// The number of the arena of the items. O(1).
    pub fn arena(&self) -> u32
        ensures ok { result ≡ self.now.arena }
    {
        self.arena
    }

    /// The place of the item of a key that is live at v. O(log items) comparisons of keys, and
    /// O(log versions_max) for each item of the key at v or an older version until one is found.
    pub fn find(&self, pool: &ArenaPool, tree: &Tree, key: &[u8], v: Version) -> Option<usize>
        requires kept { ListStands pool.now self.now }
        requires fits { v < length tree.now.parents }
        ensures found { IfSome result (λ i. i < length self.now.items) }
        ensures ok { option_and_then (λ i. slice_get (entries_held pool.now self.now) i) result
            ≡ find (is_of key.now) (live tree.now.parents (entries_held pool.now self.now) v) }
    {
        // For the proof: the parents are a tree.
        let _versions = tree.count();
        let (from, to) = key_range(pool, self.arena, &self.items, key, v);
        let place = live_in(&self.items[from..to], tree, v)?;
        Some(from + place)
    }

    /// The place of the first item of a key or of one after it, or how many items there are. O(log items)
    /// comparisons of keys.
    pub fn seek(&self, pool: &ArenaPool, key: &[u8]) -> usize
        requires kept { ListStands pool.now self.now }
        ensures ok { IsStart (entries_held pool.now self.now) key.now 4294967295 result }
    {
        start_of(pool, self.arena, &self.items, key, u32::MAX)
    }

    /// What the item at a place says of its key: its value, or `None` where the key is gone. O(1).
    pub fn value<'a>(&self, pool: &'a ArenaPool, place: usize) -> Option<&'a [u8]>
        requires kept { ListStands pool.now self.now }
        requires fits { place < length self.now.items }
        ensures ok { (d : KeyEntry) → option_copied result
            ≡ (slice_index_or (entries_held pool.now self.now) place d).value }
    {
        let item = self.items[place];
        if item.gone {
            None
        } else {
            Some(pool.value(self.arena, item.slot))
        }
    }

    /// The entry at a place. O(1).
    pub fn entry<'a>(&self, pool: &'a ArenaPool, place: usize) -> Entry<'a>
        requires kept { ListStands pool.now self.now }
        requires fits { place < length self.now.items }
        ensures ok { (d : KeyEntry)
            → entry_of result ≡ slice_index_or (entries_held pool.now self.now) place d }
        ensures fits { IsTrue (fits_fields (entry_of result)) }
    {
        pool.entry(self.arena, self.items[place])
    }

    /// An equal list that shares the arena. After want of memory all is as before. O(items), 12 bytes for
    /// each.
    pub fn snapshot(&self, pool: &mut ArenaPool) -> Result<ZeroView, NoMemory>
        requires kept { ListStands pool.old self.now }
        requires room { shares_at pool.old self.now.arena < 2 ^ 32 - 1 }
        ensures ok { IfOk result (λ v. (v.arena ≡ self.now.arena) × (v.items ≡ self.now.items)) }
        ensures found { OnOk result (shares_at pool.new self.now.arena
            ≡ shares_at pool.old self.now.arena + 1) }
        ensures kept { OnOk result (arena_at pool.new self.now.arena
            ≡ arena_at pool.old self.now.arena) }
        ensures same { OnOk result (SameBeside pool.old pool.new self.now.arena) }
        ensures len { count_shared pool.new ≡ count_shared pool.old }
        ensures err { OnErr result (pool.new ≡ pool.old) }
    {
        let items = Vec::from_slice(*self.items.allocator(), &self.items)?;
        pool.share(self.arena);
        Ok(ZeroView::new(self.arena, items))
    }

    /// Gives the share in the arena back.
    pub fn release(self, pool: &mut ArenaPool)
        requires { ListStands pool.old self }
        ensures ok { shares_at pool.new self.arena + 1 ≡ shares_at pool.old self.arena }
        ensures kept { 0 < shares_at pool.new self.arena
            → arena_at pool.new self.arena ≡ arena_at pool.old self.arena }
        ensures none { shares_at pool.new self.arena ≡ 0
            → arena_at pool.new self.arena ≡ no_arena }
        ensures len { count_shared pool.new + 1 ≡ count_shared pool.old
            + (if shares_at pool.new self.arena == 0 then 0 else 1) }
        ensures same { SameBeside pool.old pool.new self.arena }
    {
        pool.release(self.arena);
    }

    /// Puts an item at the place where its key and version were found, or in between where they
    /// belong. It takes no memory.
    pub(crate) fn put_at(&mut self, place: Result<usize, usize>, item: Item)
        requires fits { MatchResult place (λ i. i < length self.old.items)
            (λ i. i ≤ length self.old.items) }
        requires room { length self.old.items < self.old.capacity }
        ensures ok { IfOk place (λ i. self.new.items ≡ slice_set self.old.items i item) }
        ensures err { IfErr place (λ i. self.new.items ≡ insert self.old.items i item) }
        ensures len { length self.new.items ≤ length self.old.items + 1 }
        ensures room { self.old.capacity ≤ self.new.capacity }
        ensures same { self.new.arena ≡ self.old.arena }
    {
        match place {
            Ok(i) => self.items[i] = item,
            Err(i) => self.items.insert(i, item).unwrap(),
        }
    }
}
