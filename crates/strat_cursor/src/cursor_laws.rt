//! Laws of open cursors as they lie in a pool, and of what any cursors need to go on. Each is the contract of a function
//! that does nothing.

ghost use Rattle.std.specs.Prelude.{◌≡◌, ◌<◌, ◌≤◌, ◌+◌, ◌*◌, ◌==◌, ℕ, Bool, List, length, count_by, Option, Some, ◌⊎◌, Contains};
ghost use Rattle.strat_arena.specs.PoolView.{arena_at, count_shared, shares_at};
ghost use Rattle.strat_arena.specs.declared.pool.PoolEntry.{PoolEntry};
ghost use Rattle.strat_array.specs.Kept.{Blocks, IsBlockRead};
ghost use Rattle.strat_base.specs.Entries.{Entry};
ghost use Rattle.strat_base.specs.Tree.{Parents, with_child, IsTree};
ghost use Rattle.strat_base.specs.declared.descriptors.ArrayDesc.{ArrayDesc};
ghost use Rattle.strat_base.specs.declared.descriptors.LevelDesc.{LevelDesc};
ghost use Rattle.def_crash.specs.Blocks.{AgreeOn};
ghost use Rattle.def_crash.specs.Image.{Image};
ghost use Rattle.def_bytes.specs.Arrays.{blocks_of};
ghost use Rattle.strat_level.specs.Memtable.{ItemList, entries_held, ListStands};
ghost use Rattle.strat_model.specs.Pairs.{Pairs};
ghost use Rattle.strat_cursor.specs.Cursors.{CursorOver, OpenCursor, MayGoOn, arrays_named, moved_at, without_cursor};
ghost use Rattle.strat_cursor.specs.Held.{opened_held};
ghost use Rattle.strat_cursor.specs.Looking.{AreInOrder, HaveOwnIds, AreCachedFrom, arrays_there, arrays_asked};
ghost use Rattle.strat_cursor.specs.Pins.{ArePinned, shares_of};

/// Cursors may go on, and read the same entries, where each list that stood in the pool stands and reads as before, as
/// after a put, and so where each arena that they share stays, as after releases and starts of others.
pub fn cursors_stand_while_their_lists_do()
    ensures ok { (old new : List PoolEntry) (parents : Parents) (cursors : List OpenCursor)
        → ((list : ItemList) → ListStands old list
        → ListStands new list × (entries_held new list ≡ entries_held old list))
        → ((n : ℕ) → shares_of cursors n ≤ shares_at new n) → ArePinned old parents cursors
        → ArePinned new parents cursors × (opened_held new cursors ≡ opened_held old cursors) }
    ensures kept { (old new : List PoolEntry) (parents : Parents) (cursors : List OpenCursor)
        → ((n : ℕ) → 0 < shares_of cursors n → arena_at new n ≡ arena_at old n)
        → ((n : ℕ) → shares_of cursors n ≤ shares_at new n) → ArePinned old parents cursors
        → ArePinned new parents cursors × (opened_held new cursors ≡ opened_held old cursors) }
{}

/// Cursors may go on as the tree gets a child.
pub fn cursors_stand_while_the_tree_grows()
    ensures kept { (parents : Parents) (p : ℕ) (pool : List PoolEntry) (cursors : List OpenCursor)
        → IsTree parents → p < length parents → ArePinned pool parents cursors
        → ArePinned pool (with_child parents p) cursors }
{}

/// A cursor has two shares at most, and there are as many arenas as have shares, at most.
pub fn cursors_hold_few_arenas()
    ensures fits { (cursors : List OpenCursor) (n : ℕ) → shares_of cursors n ≤ 2 * length cursors }
    ensures len { (pool : List PoolEntry) (own : List ℕ) (cursors : List OpenCursor)
        → ((n : ℕ) → shares_at pool n ≤ count_by (λ a. a == n) own + shares_of cursors n)
        → count_shared pool ≤ length own + 2 * length cursors }
{}

/// A cursor may go on in images that have the same bytes in the blocks of its arrays, and when more arrays were numbered.
pub fn a_cursor_goes_on_where_blocks_stay<L>()
    ensures same { (f g : Image) (next : ℕ) (c : CursorOver L) (cached : Blocks)
        → ((a : ArrayDesc) → Contains c.arrays a → AgreeOn (blocks_of a.extents) f g)
        → MayGoOn f next c cached → MayGoOn g next c cached }
    ensures fits { (f : Image) (next later : ℕ) (c : CursorOver L) (cached : Blocks)
        → next ≤ later → MayGoOn f next c cached → MayGoOn f later c cached }
{}

/// A cursor may go on after blocks of other arrays came into the cache, where an array's number says which it is.
pub fn cursors_go_on_beside_look_ups<L>()
    ensures kept { (f : Image) (next : ℕ) (c : CursorOver L) (others : List ArrayDesc)
        (old new : Blocks) → MayGoOn f next c old
        → ((k : ℕ × ℕ) (x : List Entry) → Contains new.entries (k, x)
        → Contains old.entries (k, x) ⊎ ((b : ArrayDesc) × Contains others b
        × IsBlockRead (Some f) b.id (blocks_of b.extents) k x))
        → ((b : ArrayDesc) → Contains others b → b.id < next)
        → ((a b : ArrayDesc) → Contains c.arrays a → Contains others b → b.id ≡ a.id → b ≡ a)
        → MayGoOn f next c new }
{}

/// A page and a close of one cursor leave what all cursors need to go on, and no arrays are named that were not.
pub fn cursors_go_on_after_others_did<L>()
    ensures kept { (f : Image) (next : ℕ) (cached : Blocks) (n : ℕ) (more : Bool) (told : Pairs)
        (cursors : List (CursorOver L))
        → ((c : CursorOver L) → Contains cursors c → MayGoOn f next c cached)
        → (c : CursorOver L) → Contains (moved_at n more told cursors) c
        → MayGoOn f next c cached }
    ensures end { (f : Image) (next : ℕ) (cached : Blocks) (n : ℕ) (cursors : List (CursorOver L))
        → ((c : CursorOver L) → Contains cursors c → MayGoOn f next c cached)
        → (c : CursorOver L) → Contains (without_cursor n cursors) c → MayGoOn f next c cached }
    ensures same { (n : ℕ) (more : Bool) (told : Pairs) (cursors : List (CursorOver L))
        → arrays_named (moved_at n more told cursors) ≡ arrays_named cursors }
    ensures found { (n : ℕ) (cursors : List (CursorOver L)) (a : ArrayDesc)
        → Contains (arrays_named (without_cursor n cursors)) a
        → Contains (arrays_named cursors) a }
{}

/// A cursor may go on at its start where a look-up in the levels may be made.
pub fn a_started_cursor_may_go_on<L>()
    ensures kept { (f : Image) (next : ℕ) (parents : Parents) (levels : List (Option LevelDesc))
        (v : ℕ) (c : CursorOver L) (cached : Blocks)
        → c.arrays ≡ arrays_asked parents levels v
        → AreInOrder f (arrays_there levels) → HaveOwnIds (arrays_there levels)
        → AreCachedFrom f next (arrays_there levels) cached → MayGoOn f next c cached }
{}
