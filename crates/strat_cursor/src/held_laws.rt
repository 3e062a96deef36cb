//! Laws of open cursors as a store is seen, whose lists are of entries, and of the arrays that are kept for cursors. Each
//! is the contract of a function that does nothing.

ghost use Rattle.std.specs.List.{list_any};
ghost use Rattle.std.specs.Prelude.{◌≡◌, ◌<◌, ◌+◌, ◌==◌, ◌++◌, ◌∷◌, ℕ, Bool, true, false, not, List, [], length, filter, Option, Some, option_map, ◌⊎◌, Contains};
ghost use Rattle.strat_arena.specs.declared.pool.PoolEntry.{PoolEntry};
ghost use Rattle.strat_base.specs.Entries.{Entry};
ghost use Rattle.strat_base.specs.Tree.{Parents, with_child, IsTree};
ghost use Rattle.strat_base.specs.declared.descriptors.ArrayDesc.{ArrayDesc};
ghost use Rattle.def_crash.specs.Blocks.{AgreeOn};
ghost use Rattle.def_crash.specs.Image.{Image};
ghost use Rattle.def_bytes.specs.Arrays.{blocks_of};
ghost use Rattle.strat_level.specs.Memtable.{Memtable, entries_held};
ghost use Rattle.strat_model.specs.Pairs.{Pairs, range};
ghost use Rattle.strat_model.specs.Step.{advanced, next_pairs, refuses};
ghost use Rattle.strat_model.specs.Table.{Cursor, Table};
ghost use Rattle.strat_model.specs.declared.replies.Refusal.TheVariants as why;
ghost use Rattle.strat_model.specs.declared.replies.Reply.TheVariants as reply;
ghost use Rattle.strat_cursor.specs.Cursors.{CursorOver, CursorsOver, CursorsView, OpenCursor, IsMapPinned, TellsNext, arrays_named, closed_at, is_array_named, is_opened, moved_at, retired_all, retired_by, without_cursor};
ghost use Rattle.strat_cursor.specs.Held.{HeldCursor, AreRowsOf, IsMapHeld, cursor_held, cursors_held, opened_held};
ghost use Rattle.strat_cursor.specs.Looking.{HaveOwnIds};
ghost use Rattle.strat_cursor.specs.Pins.{ArePinned, IsStarted, SharesFollow};
ghost use Rattle.strat_cursor.specs.Ranges.{IsMapSeen};

/// Look-ups find a map, whatever they go through: some pairs are those that lists of level 0 and arrays have in an image at
/// a version, and so those that a cursor reads. What is said of a page for each such map is thus said of one.
pub fn look_ups_find_a_map()
    ensures ok { (f : Image) (parents : Parents) (zeros : List (List Entry))
        (arrays : List ArrayDesc) (v : ℕ) → (m : Pairs) × IsMapSeen f parents zeros arrays v m }
    ensures found { (f : Image) (parents : Parents) (c : HeldCursor)
        → (m : Pairs) × IsMapHeld f parents c m }
{}

/// What open cursors do is what a table does with its own: as many are there, a number is one of them in both, the page
/// of one and the pairs that it has left are the table's, and a closed one is gone from both.
pub fn cursors_do_as_a_table_says()
    ensures len { (f : Image) (parents : Parents) (cursors : List HeldCursor) (rows : List Cursor)
        → AreRowsOf f parents cursors rows → length rows ≡ length cursors }
    ensures found { (f : Image) (parents : Parents) (cursors : List HeldCursor)
        (rows : List Cursor) (n : ℕ) → AreRowsOf f parents cursors rows
        → list_any (λ row. row.number == n) rows ≡ is_opened n cursors }
    ensures none { (f : Image) (parents : Parents) (cursors : List HeldCursor) (t : Table)
        (n limit : ℕ) → AreRowsOf f parents cursors t.cursors → is_opened n cursors ≡ false
        → next_pairs t n limit ≡ refuses t why.UnknownCursor }
    ensures ok { (f : Image) (parents : Parents) (cursors : List HeldCursor) (t : Table)
        (n limit : ℕ) (told : Pairs) (more : Bool)
        → AreRowsOf f parents cursors t.cursors → is_opened n cursors ≡ true
        → ((c : HeldCursor) → Contains cursors c → c.number ≡ n → (m : Pairs)
        → IsMapHeld f parents c m → TellsNext m c limit told more)
        → (next_pairs t n limit ≡ record {
          answer = record { reply = reply.Pairs more; pairs = told };
          table = record t { cursors = advanced t.cursors n limit };
        }) × AreRowsOf f parents (moved_at n more told cursors) (advanced t.cursors n limit) }
    ensures end { (f : Image) (parents : Parents) (cursors : List HeldCursor) (rows : List Cursor)
        (n : ℕ) → AreRowsOf f parents cursors rows
        → AreRowsOf f parents (without_cursor n cursors)
        (filter (λ row. not (row.number == n)) rows) }
{}

/// A started cursor is the table's next one: it has the range left of the map that it reads.
pub fn a_started_cursor_has_its_range_left()
    ensures ok { (f : Image) (parents : Parents) (cursors : List HeldCursor) (rows : List Cursor)
        (c : HeldCursor) (lo : List ℕ) (m : Pairs) → AreRowsOf f parents cursors rows
        → c.from ≡ Some lo → IsMapHeld f parents c m
        → AreRowsOf f parents (cursors ++ c ∷ [])
        (rows ++ record { number = c.number; left = range m lo c.hi } ∷ []) }
{}

/// Cursors have the same pairs left in images that have the same bytes in the blocks of their arrays, and as the tree
/// gets a child.
pub fn cursors_have_the_same_left()
    ensures same { (f g : Image) (parents : Parents) (cursors : List HeldCursor)
        (rows : List Cursor) → ((a : ArrayDesc) → Contains (arrays_named cursors) a
        → AgreeOn (blocks_of a.extents) f g)
        → AreRowsOf f parents cursors rows → AreRowsOf g parents cursors rows }
    ensures kept { (parents : Parents) (p : ℕ) (f : Image) (cursors : List HeldCursor)
        (rows : List Cursor) → IsTree parents → p < length parents
        → ((c : HeldCursor) → Contains cursors c → c.version < length parents)
        → AreRowsOf f parents cursors rows → AreRowsOf f (with_child parents p) cursors rows }
{}

/// Cursors are held as they lie in their pool: what is said of these is so of those.
pub fn cursors_are_held_as_they_lie()
    ensures ok { (pool : List PoolEntry) (n : ℕ) (more : Bool) (told : Pairs)
        (cursors : List OpenCursor) → opened_held pool (moved_at n more told cursors)
        ≡ moved_at n more told (opened_held pool cursors) }
    ensures found { (pool : List PoolEntry) (n : ℕ) (cursors : List OpenCursor)
        → is_opened n (opened_held pool cursors) ≡ is_opened n cursors }
    ensures same { (pool : List PoolEntry) (cursors : List OpenCursor)
        → arrays_named (opened_held pool cursors) ≡ arrays_named cursors }
    ensures kept { (pool : List PoolEntry) (a : ArrayDesc) (c : CursorsView)
        → cursors_held pool (retired_by a c) ≡ retired_by a (cursors_held pool c) }
    ensures reads { (f : Image) (parents : Parents) (pool : List PoolEntry) (c : OpenCursor)
        (m : Pairs) → IsMapHeld f parents (cursor_held pool c) m
        → IsMapPinned f parents pool c m }
{}

/// Cursors are held as they were but for the one that was started, which reads what level 0 was, or for the one that
/// was closed.
pub fn cursors_are_held_as_others_come_and_go()
    ensures ok { (parents : Parents) (before after : List PoolEntry) (old new : CursorsView) (v : ℕ)
        (lo hi : List ℕ) (zero : Memtable) (sealed : Option Memtable) (arrays : List ArrayDesc)
        → ArePinned before parents old.opened → ArePinned after parents new.opened
        → SharesFollow before after old.opened new.opened
        → IsStarted old new v lo hi zero sealed arrays
        → cursors_held after new ≡ record (cursors_held before old) {
          opened = opened_held before old.opened ++ record {
            number = old.next;
            version = v;
            zero = entries_held before zero.list;
            sealed = option_map (λ z. entries_held before z.list) sealed;
            arrays = arrays;
            from = Some lo;
            hi = hi;
          } ∷ [];
          next = old.next + 1;
        } }
    ensures end { (parents : Parents) (before after : List PoolEntry) (c : CursorsView) (n : ℕ)
        → ArePinned before parents c.opened → ArePinned after parents (without_cursor n c.opened)
        → SharesFollow before after c.opened (without_cursor n c.opened)
        → cursors_held after (closed_at n c) ≡ closed_at n (cursors_held before c) }
{}

/// An array that a cursor names is named by its number.
pub fn named_arrays_are_named_by_number<L>()
    ensures found { (cursors : List (CursorOver L)) (a : ArrayDesc)
        → Contains (arrays_named cursors) a → is_array_named cursors a.id ≡ true }
{}

/// As arrays leave the levels those that cursors name are kept, beside all that were kept before. They have their own
/// numbers where all of these had, and the cursors are as before.
pub fn retired_arrays_are_kept_for_cursors<L>()
    ensures cause { (c : CursorsOver L) (arrays : List ArrayDesc) (a : ArrayDesc)
        → Contains (retired_all arrays c).retired a → Contains c.retired a ⊎ Contains arrays a }
    ensures found { (c : CursorsOver L) (arrays : List ArrayDesc) (a : ArrayDesc)
        → is_array_named c.opened a.id ≡ true → Contains arrays a
        → Contains (retired_all arrays c).retired a }
    ensures kept { (c : CursorsOver L) (arrays : List ArrayDesc) (a : ArrayDesc)
        → Contains c.retired a → Contains (retired_all arrays c).retired a }
    ensures same { (c : CursorsOver L) (arrays : List ArrayDesc)
        → ((retired_all arrays c).opened ≡ c.opened) × ((retired_all arrays c).next ≡ c.next)
        × ((retired_all arrays c).room ≡ c.room) }
    ensures fits { (c : CursorsOver L) (arrays rest : List ArrayDesc)
        → HaveOwnIds (rest ++ (arrays ++ c.retired))
        → HaveOwnIds (rest ++ (retired_all arrays c).retired) }
{}

/// A close leaves no array kept that was not, and each that another cursor names. They have their own numbers where all
/// of these had.
pub fn a_close_keeps_what_others_name<L>()
    ensures cause { (c : CursorsOver L) (n : ℕ) (a : ArrayDesc)
        → Contains (closed_at n c).retired a → Contains c.retired a }
    ensures kept { (c : CursorsOver L) (n : ℕ) (a : ArrayDesc)
        → Contains (arrays_named (without_cursor n c.opened)) a → Contains c.retired a
        → Contains (closed_at n c).retired a }
    ensures fits { (c : CursorsOver L) (n : ℕ) (rest : List ArrayDesc)
        → HaveOwnIds (rest ++ c.retired) → HaveOwnIds (rest ++ (closed_at n c).retired) }
{}
