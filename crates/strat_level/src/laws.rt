//! Laws of lists in a pool. Each is the contract of a function that does nothing.

ghost use Rattle.std.specs.Prelude.{◌≡◌, ℕ, ◌<◌, List};
ghost use Rattle.strat_arena.specs.PoolView.{arena_at, shares_at};
ghost use Rattle.strat_arena.specs.declared.pool.PoolEntry.{PoolEntry};
ghost use Rattle.strat_level.specs.Memtable.{ItemList, Memtable, entries_held, ListStands, MemtableStands};

/// A list stands in a pool, and reads as before, as long as its arena stays as it was and has a share,
/// whatever becomes of other arenas and of the number of shares.
pub fn lists_stand_while_their_arenas_do()
    ensures ok { (old new : List PoolEntry) (list : ItemList)
        → arena_at new list.arena ≡ arena_at old list.arena → 0 < shares_at new list.arena
        → ListStands old list
        → ListStands new list × (entries_held new list ≡ entries_held old list) }
    ensures kept { (old new : List PoolEntry) (zero : Memtable)
        → arena_at new zero.list.arena ≡ arena_at old zero.list.arena
        → 0 < shares_at new zero.list.arena → MemtableStands old zero → MemtableStands new zero }
{}
