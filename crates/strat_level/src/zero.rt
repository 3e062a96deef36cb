//! Level 0, which takes each change of the journal as an entry.

ghost use Rattle.std.specs.List.{find, slice_get};
ghost use Rattle.std.specs.Option.{option_copied};
ghost use Rattle.std.specs.Prelude.{slice_index_or, ◌≡◌, ◌<◌, ◌≤◌, ◌+◌, ◌-◌, ◌^◌, [], length, option_and_then, IfOk, IfSome, OnOk, OnErr, IsTrue, if◌then◌else◌, ◌==◌};
ghost use Rattle.strat_arena.specs.ArenaView.{no_arena};
ghost use Rattle.strat_arena.specs.PoolView.{arena_at, shares_at, count_shared, SameBeside};
ghost use Rattle.strat_base.specs.Entries.{Entry, is_of};
ghost use Rattle.strat_base.specs.EntryBytes.{fits_fields, is_markable};
ghost use Rattle.strat_base.specs.EntryView.{val_of};
ghost use Rattle.strat_arena.specs.Items.{said_by};
ghost use Rattle.strat_level.specs.Memtable.{ItemList, entries_held, ListStands, MemtableStands};
ghost use Rattle.def_state.specs.Live.{live};
ghost use Rattle.def_state.specs.Setting.{set_entry};

use crate::search::place_of;
use crate::view::ZeroView;
use std::alloc::Global;
use std::marker::Model;
use strat_arena::{ArenaPool, Item};
use strat_base::limits::{KEY_MAX, VALUE_MAX};
use strat_base::{NoMemory, Val, Version};
use strat_tree::Tree;

/// Bytes of the largest pair.
const PAIR_MAX: u32 = (KEY_MAX + VALUE_MAX) as u32;

/// The entries of the journal in memory, the latest of each key and version, and room for more.
#[derive(Drop)]
pub struct Zero {
    list: ZeroView,
    spare: u32,
}

impl Model for Zero {
    ghost use Rattle.strat_level.specs.Memtable.{Memtable};

    ghost Value = { Memtable };

    ghost use Rattle.strat_level.specs.ZeroFields.{memtable_seen, HasItemRoom};

    ghost view = { memtable_seen };

    ghost invariant = { HasItemRoom };
}

/// What of a value goes into the arena, and whether its key is gone.
fn stored(val: Val<'_>) -> (&[u8], bool)
    ensures ok { said_by result.1 result.0.now ≡ val_of val.entry }
    ensures fits { IsTrue (is_markable (val_of val.entry)) → length result.0.now ≤ 1024 }
{
    match val {
        Val::Gone => (&[], true),
        Val::Put(value) => (value, false),
    }
}

impl Zero {
    /// Level 0 without entries, with an arena of its own in the pool and room for `mem` puts of the
    /// largest pairs, 1,323 bytes for each. No later call takes memory.
    pub fn new(alloc: Global, pool: &mut ArenaPool, mem: u32) -> Result<Zero, NoMemory>
        requires fits { (4 ≤ mem) × (mem ≤ 4096) }
        requires room { count_shared pool.old < 2 ^ 32 - 1 }
        ensures ok { IfOk result (λ z. (z.list.items ≡ []) × (z.spare ≡ mem)) }
        ensures kept { IfOk result (λ z. MemtableStands pool.new z) }
        ensures found { IfOk result (λ z. (shares_at pool.old z.list.arena ≡ 0)
            × (shares_at pool.new z.list.arena ≡ 1)) }
        ensures same { IfOk result (λ z. SameBeside pool.old pool.new z.list.arena) }
        ensures len { OnOk result (count_shared pool.new ≡ count_shared pool.old + 1) }
        ensures err { OnErr result (pool.new ≡ pool.old) }
    {
        let items = Vec::with_capacity(alloc, mem as usize)?;
        let arena = pool.start(mem, mem * PAIR_MAX)?;
        Ok(Zero {
            list: ZeroView::new(arena, items),
            spare: mem,
        })
    }

    /// Sets the entry of a key and a version. It takes no memory and cannot fail. O(log items)
    /// comparisons of keys, and the items behind the place move by one.
    pub fn put(&mut self, pool: &mut ArenaPool, version: Version, key: &[u8], val: Val<'_>)
        requires kept { MemtableStands pool.old self.old }
        requires room { 1 ≤ self.old.spare }
        requires fits { IsTrue (fits_fields (record {
          key = key.now;
          version = version;
          value = val_of val;
        })) }
        ensures ok { entries_held pool.new self.new.list ≡ set_entry
            (record { key = key.now; version = version; value = val_of val.entry })
            (entries_held pool.old self.old.list) }
        ensures room { self.new.spare + 1 ≡ self.old.spare }
        ensures kept { MemtableStands pool.new self.new }
        ensures found { (self.new.list.arena ≡ self.old.list.arena)
            × (shares_at pool.new self.new.list.arena ≡ shares_at pool.old self.old.list.arena) }
        ensures same { SameBeside pool.old pool.new self.old.list.arena
            × ((list : ItemList) → ListStands pool.old list → ListStands pool.new list
            × (entries_held pool.new list ≡ entries_held pool.old list)) }
        ensures len { count_shared pool.new ≡ count_shared pool.old }
    {
        let arena = self.list.arena();
        let (value, gone) = stored(val);
        let place = place_of(pool, arena, self.list.items(), key, version);
        let slot = pool.push(arena, key, value);
        self.list.put_at(
            place,
            Item {
                slot,
                version,
                gone,
            },
        );
        self.spare -= 1;
    }

    /// The items, by key, and of one key the greatest version first. O(1).
    pub fn items(&self) -> &[Item]
        ensures ok { result.now ≡ self.now.list.items }
    {
        self.list.items()
    }

    /// The number of the arena of the items. O(1).
    pub fn arena(&self) -> u32
        ensures ok { result ≡ self.now.list.arena }
    {
        self.list.arena()
    }

    /// For how many more puts there is room. O(1).
    pub fn spare(&self) -> u32
        ensures ok { result ≡ self.now.spare }
    {
        self.spare
    }

    /// The place of the item of a key that is live at v, as `ZeroView::find` finds it.
    pub fn find(&self, pool: &ArenaPool, tree: &Tree, key: &[u8], v: Version) -> Option<usize>
        requires kept { ListStands pool.now self.now.list }
        requires fits { v < length tree.now.parents }
        ensures found { IfSome result (λ i. i < length self.now.list.items) }
        ensures ok { option_and_then (λ i. slice_get (entries_held pool.now self.now.list) i) result
            ≡ find (is_of key.now)
            (live tree.now.parents (entries_held pool.now self.now.list) v) }
    {
        self.list.find(pool, tree, key, v)
    }

    /// What the item at a place says of its key: its value, or `None` where the key is gone. O(1).
    pub fn value<'a>(&self, pool: &'a ArenaPool, place: usize) -> Option<&'a [u8]>
        requires kept { ListStands pool.now self.now.list }
        requires fits { place < length self.now.list.items }
        ensures ok { (d : Entry) → option_copied result
            ≡ (slice_index_or (entries_held pool.now self.now.list) place d).value }
    {
        self.list.value(pool, place)
    }

    /// The items alone, for a reader. O(1).
    pub fn view(&self) -> &ZeroView
        ensures ok { result.now ≡ self.now.list }
    {
        &self.list
    }

    /// The items as they are now, for a reader of this moment: they share the arena, and later puts leave
    /// them as they are. After want of memory all is as before. O(items), 12 bytes for each.
    pub fn snapshot(&self, pool: &mut ArenaPool) -> Result<ZeroView, NoMemory>
        requires kept { ListStands pool.old self.now.list }
        requires room { shares_at pool.old self.now.list.arena < 2 ^ 32 - 1 }
        ensures ok { IfOk result (λ v. (v.arena ≡ self.now.list.arena)
            × (v.items ≡ self.now.list.items)) }
        ensures found { OnOk result (shares_at pool.new self.now.list.arena
            ≡ shares_at pool.old self.now.list.arena + 1) }
        ensures kept { OnOk result (arena_at pool.new self.now.list.arena
            ≡ arena_at pool.old self.now.list.arena) }
        ensures same { OnOk result (SameBeside pool.old pool.new self.now.list.arena) }
        ensures len { count_shared pool.new ≡ count_shared pool.old }
        ensures err { OnErr result (pool.new ≡ pool.old) }
    {
        self.list.snapshot(pool)
    }

    /// Gives the share in the arena back.
    pub fn release(self, pool: &mut ArenaPool)
        requires { ListStands pool.old self.list }
        ensures ok { shares_at pool.new self.list.arena + 1 ≡ shares_at pool.old self.list.arena }
        ensures kept { 0 < shares_at pool.new self.list.arena
            → arena_at pool.new self.list.arena ≡ arena_at pool.old self.list.arena }
        ensures none { shares_at pool.new self.list.arena ≡ 0
            → arena_at pool.new self.list.arena ≡ no_arena }
        ensures len { count_shared pool.new + 1 ≡ count_shared pool.old
            + (if shares_at pool.new self.list.arena == 0 then 0 else 1) }
        ensures same { SameBeside pool.old pool.new self.list.arena }
    {
        self.list.release(pool)
    }
}
