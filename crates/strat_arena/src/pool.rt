//! Arenas by their numbers, each of which lives as long as somebody has a share in it.

ghost use Rattle.std.specs.Prelude.{◌≡◌, ℕ, ◌+◌, ◌-◌, ◌<◌, ◌≤◌, ◌^◌, [], ◌∷◌, ◌++◌, length, slice_index_or, IfOk, OnOk, OnErr, if◌then◌else◌, ◌==◌};
ghost use Rattle.strat_arena.specs.ArenaView.{KeyValue, ArenaView, no_arena};
ghost use Rattle.strat_arena.specs.Items.{entry_of_item};
ghost use Rattle.strat_base.specs.EntryView.{entry_of};

use crate::arena::Arena;
use crate::items::{Item, Slot};
use std::alloc::Global;
use std::marker::Model;
use strat_base::{Entry, NoMemory};

/// An arena of a pool, and how many shares in it there are. One without shares is empty and without
/// room, and its number may be given to another.
#[derive(Drop)]
pub struct PoolEntry {
    arena: Arena,
    shares: u32,
}

/// Arenas by their numbers.
#[derive(Drop)]
pub struct ArenaPool {
    alloc: Global,
    entries: Vec<PoolEntry>,
}

impl Model for ArenaPool {
    ghost use Rattle.std.specs.Prelude.{List};
    ghost use Rattle.strat_arena.specs.declared.pool.PoolEntry.{PoolEntry};

    ghost Value = { List PoolEntry };

    ghost view = { λ p. p.entries.items };
}

ghost use Rattle.strat_arena.specs.PoolView.{arena_at, shares_at, count_shared, is_shared, SameBeside};

/// The first number without shares, or the number of entries. O(entries).
fn first_vacant(entries: &[PoolEntry]) -> usize
    ensures ok { result ≤ length entries.now }
    ensures none { shares_at entries.now result ≡ 0 }
    ensures fits { result ≤ count_shared entries.now }
{
    for n in 0..entries.len() {
        if entries[n].shares == 0 {
            return n;
        }
    }
    entries.len()
}

impl ArenaPool {
    /// A pool without arenas. It takes no memory.
    pub fn new(alloc: Global) -> ArenaPool
        ensures ok { result ≡ [] }
    {
        ArenaPool {
            alloc,
            entries: Vec::new(alloc),
        }
    }

    /// Makes an arena with room for so many pairs, of so many bytes together, and answers its number.
    /// It has one share. O(numbers).
    pub fn start(&mut self, pairs: u32, bytes: u32) -> Result<u32, NoMemory>
        requires fits { count_shared self.old < 2 ^ 32 - 1 }
        ensures found { IfOk result (λ n. shares_at self.old n ≡ 0) }
        ensures ok { IfOk result (λ n. shares_at self.new n ≡ 1) }
        ensures none { IfOk result (λ n. (arena_at self.new n).pairs ≡ []) }
        ensures room { IfOk result (λ n. (pairs ≤ (arena_at self.new n).spare_pairs)
            × (bytes ≤ (arena_at self.new n).spare_bytes)) }
        ensures same { IfOk result (λ n. SameBeside self.old self.new n) }
        ensures len { OnOk result (count_shared self.new ≡ count_shared self.old + 1) }
        ensures err { OnErr result (self.new ≡ self.old) }
    {
        let mut arena = Arena::new(self.alloc);
        arena.reserve(pairs, bytes)?;
        let n = first_vacant(&self.entries);
        let entry = PoolEntry { arena, shares: 1 };
        if n < self.entries.len() {
            self.entries[n] = entry;
        } else {
            self.entries.push(entry)?;
        }
        Ok(n as u32)
    }

    /// Adds a share. O(1).
    pub fn share(&mut self, n: u32)
        requires found { 0 < shares_at self.old n }
        requires fits { shares_at self.old n < 2 ^ 32 - 1 }
        ensures ok { shares_at self.new n ≡ shares_at self.old n + 1 }
        ensures kept { arena_at self.new n ≡ arena_at self.old n }
        ensures same { SameBeside self.old self.new n }
        ensures len { count_shared self.new ≡ count_shared self.old }
    {
        self.entries[n as usize].shares += 1;
    }

    /// Takes a share away. With the last one the arena goes and gives its memory back.
    pub fn release(&mut self, n: u32)
        requires found { 0 < shares_at self.old n }
        ensures ok { shares_at self.new n + 1 ≡ shares_at self.old n }
        ensures kept { 0 < shares_at self.new n → arena_at self.new n ≡ arena_at self.old n }
        ensures none { shares_at self.new n ≡ 0 → arena_at self.new n ≡ no_arena }
        ensures same { SameBeside self.old self.new n }
        ensures len { count_shared self.new + 1
            ≡ count_shared self.old + (if shares_at self.new n == 0 then 0 else 1) }
    {
        let alloc = self.alloc;
        let entry = &mut self.entries[n as usize];
        entry.shares -= 1;
        if entry.shares == 0 {
            entry.arena = Arena::new(alloc);
        }
    }

    /// Adds a pair at the end of an arena, as `Arena::push` does.
    pub fn push(&mut self, n: u32, key: &[u8], value: &[u8]) -> Slot
        requires found { 0 < shares_at self.old n }
        requires room { 0 < (arena_at self.old n).spare_pairs }
        requires fits { length key.now + length value.now ≤ (arena_at self.old n).spare_bytes }
        ensures found { result.0 ≡ length (arena_at self.old n).pairs }
        ensures ok { (arena_at self.new n).pairs
            ≡ (arena_at self.old n).pairs ++ record { key = key.now; value = value.now } ∷ [] }
        ensures len { length (arena_at self.new n).pairs
            ≡ length (arena_at self.old n).pairs + 1 }
        ensures room { (arena_at self.new n).spare_pairs + 1 ≡ (arena_at self.old n).spare_pairs }
        ensures fits { (arena_at self.new n).spare_bytes + (length key.now + length value.now)
            ≡ (arena_at self.old n).spare_bytes }
        ensures kept { (shares_at self.new n ≡ shares_at self.old n)
            × (count_shared self.new ≡ count_shared self.old) }
        ensures same { SameBeside self.old self.new n }
    {
        self.entries[n as usize].arena.push(key, value)
    }

    /// The key of a pair in an arena. O(1).
    pub fn key(&self, n: u32, s: Slot) -> &[u8]
        requires found { 0 < shares_at self.now n }
        requires fits { s.0 < length (arena_at self.now n).pairs }
        ensures { (d : KeyValue)
            → result.now ≡ (slice_index_or (arena_at self.now n).pairs s.0 d).key }
    {
        self.entries[n as usize].arena.key(s)
    }

    /// The value of a pair in an arena. O(1).
    pub fn value(&self, n: u32, s: Slot) -> &[u8]
        requires found { 0 < shares_at self.now n }
        requires fits { s.0 < length (arena_at self.now n).pairs }
        ensures { (d : KeyValue)
            → result.now ≡ (slice_index_or (arena_at self.now n).pairs s.0 d).value }
    {
        self.entries[n as usize].arena.value(s)
    }

    /// The entry of an item in an arena. O(1).
    pub fn entry(&self, n: u32, item: Item) -> Entry<'_>
        requires found { 0 < shares_at self.now n }
        requires fits { item.slot.0 < length (arena_at self.now n).pairs }
        ensures { entry_of result ≡ entry_of_item (arena_at self.now n).pairs item }
    {
        self.entries[n as usize].arena.entry(item)
    }
}
