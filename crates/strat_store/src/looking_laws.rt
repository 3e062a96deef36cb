//! Laws of look-ups through the levels of a store. Each is the contract of a function that does nothing.

ghost use Rattle.std.specs.Option.{option_or};
ghost use Rattle.std.specs.List.{list_any};
ghost use Rattle.std.specs.Prelude.{◌≡◌, ◌<◌, ℕ, Bool, List, [], length, true, false, Contains, Option, Some, option_and_then, IsTrue};
ghost use Rattle.strat_base.specs.Entries.{Entry, is_of};
ghost use Rattle.strat_base.specs.Tree.{Parents};
ghost use Rattle.strat_base.specs.declared.descriptors.ArrayDesc.{ArrayDesc};
ghost use Rattle.strat_base.specs.declared.descriptors.LevelDesc.{LevelDesc};
ghost use Rattle.def_crash.specs.Image.{Image};
ghost use Rattle.strat_model.specs.Answer.{Answer};
ghost use Rattle.strat_model.specs.Pairs.{Pairs, range, value_of};
ghost use Rattle.strat_model.specs.Request.{NextPairs, Scan};
ghost use Rattle.strat_model.specs.Step.{page, pairs_at};
ghost use Rattle.def_bytes.specs.Arrays.{blocks_of, entries_on};
ghost use Rattle.def_crash.specs.Moments.{Exposes};
ghost use Rattle.def_publish.specs.Contents.{Contents};
ghost use Rattle.def_recovery.specs.Asked.{asked, on_disk};
ghost use Rattle.def_recovery.specs.Head.{Head, descriptors};
ghost use Rattle.def_recovery.specs.Opening.{state_of};
ghost use Rattle.def_meaning.specs.StateTable.{table_of};
ghost use Rattle.def_state.specs.LookUp.{looked_up};
ghost use Rattle.def_state.specs.Reading.{level_zero, live_of};
ghost use Rattle.def_state.specs.Sound.{IsSound};
ghost use Rattle.def_state.specs.State.{State, versions_of, is_living};
ghost use Rattle.strat_cursor.specs.Cursors.{MayGoOn, pairs_left};
ghost use Rattle.strat_cursor.specs.Held.{HeldCursor, IsMapHeld};
ghost use Rattle.strat_cursor.specs.Looking.{AreInOrder, asked_of_level};
ghost use Rattle.strat_filter.specs.Bits.{may_hold};
ghost use Rattle.strat_filter.specs.Keys.{IsFilterOf};
ghost use Rattle.strat_memory.specs.Filters.{AreFiltersOf, LevelFilters, filter_refuses};
ghost use Rattle.strat_memory.specs.Held.{Held, IsConsistent, StandsWith};
ghost use Rattle.strat_memory.specs.Memory.{lists_in_memory, has_version};
ghost use Rattle.strat_store.specs.Filtering.{KeepsFilter, arrays_unrefused, asked_filtered};
ghost use Rattle.strat_store.specs.Ranging.{AreReadAs, IsMapAsked, TellsFrom};

use def_crash::laws::Viewed;

/// A store whose state is sound answers as its table does: with what level 0 says of a key, or else with what is looked
/// up in the levels that an image has. Its arrays are in order in that image.
pub fn a_store_answers_from_its_levels()
    ensures ok { (c : Image) (h : Head) (s : State) (v : ℕ) (key : List ℕ) → state_of c h ≡ Some s
        → IsSound s → v < length (versions_of s) → IsTrue (is_living s v)
        → option_and_then (λ e. e.value)
        (option_or (live_of (versions_of s) (level_zero s) v key)
        (looked_up (on_disk c) (versions_of s) [] h.manifest.levels v key))
        ≡ value_of (pairs_at (table_of s) v) key }
    ensures kept { (c : Image) (h : Head) (s : State) → state_of c h ≡ Some s → IsSound s
        → AreInOrder c (descriptors h.manifest) }
{}

/// There is a map for what is told of scans and pages, whatever the arrays hold: of each version some pairs are those that
/// look-ups through level 0 and the levels find, and a scan of a version whose arrays can be read tells a page of these, a
/// page of a cursor the next of what it has left.
pub fn a_scan_and_a_page_tell_of_a_map()
    ensures found { (f : Image) (parents : Parents) (zeros : List (List Entry))
        (levels : List (Option LevelDesc)) (v : ℕ)
        → (m : Pairs) × IsMapAsked f parents zeros levels v m }
    ensures ok { (f : Image) (s : Held) (v limit : ℕ) (lo hi : List ℕ) (answer : Answer)
        → TellsFrom f s (Scan v lo hi limit) answer → has_version s.memory v ≡ true
        → AreReadAs f s v
        → (m : Pairs) × IsMapAsked f s.memory.parents (lists_in_memory s.memory) s.levels v m
        × (answer ≡ page (range m lo hi) limit) }
    ensures end { (f : Image) (s : Held) (c : HeldCursor) (limit : ℕ) (answer : Answer)
        → TellsFrom f s (NextPairs c.number limit) answer → Contains s.memory.cursors.opened c
        → MayGoOn f s.chained.manifest.next_array c s.cached
        → (m : Pairs) × IsMapHeld f s.memory.parents c m
        × (answer ≡ page (pairs_left m c) limit) }
{}

/// A filter of the keys of entries refuses none of them. If the filters of a state's arrays are of their keys, a get that asks
/// them finds what one finds that asks none.
pub fn a_get_that_asks_filters_finds_the_same()
    ensures key { (bits : List Bool) (entries : List Entry) (key : List ℕ)
        → IsFilterOf bits entries → may_hold bits key ≡ false
        → list_any (is_of key) entries ≡ false }
    ensures same { (c : Image) (h : Head) (s : State) (filters : List LevelFilters)
        (parents : Parents) (zeros : List (List Entry)) (v : ℕ) (key : List ℕ)
        → state_of c h ≡ Some s → AreFiltersOf s.levels filters
        → asked_filtered c filters parents zeros h.manifest.levels v key
        ≡ asked c parents zeros h.manifest.levels v key }
{}

/// A get reads no array whose filter refuses its key: each that it may read is asked in some level, and does not refuse the key.
/// If all that are asked refuse it, it reads none.
pub fn a_get_reads_no_array_that_refuses()
    ensures found { (filters : List LevelFilters) (parents : Parents)
        (levels : List (Option LevelDesc)) (v : ℕ) (key : List ℕ) (a : ArrayDesc)
        → Contains (arrays_unrefused filters parents levels v key) a
        → (number : ℕ) × (asked_of_level parents levels number v ≡ Some a)
        × (filter_refuses filters number a.id key ≡ false) }
    ensures none { (filters : List LevelFilters) (parents : Parents)
        (levels : List (Option LevelDesc)) (v : ℕ) (key : List ℕ)
        → ((number : ℕ) (a : ArrayDesc) → asked_of_level parents levels number v ≡ Some a
        → filter_refuses filters number a.id key ≡ true)
        → arrays_unrefused filters parents levels v key ≡ [] }
{}

/// A filter that a store keeps of an array is of exactly the keys that the array has on the disk, if the store stands on it.
pub fn a_kept_filter_is_of_its_array<D: Viewed>()
    ensures ok { (d : D) (s : Held) (x : Contents) (f : Image) (id : ℕ) (entries : List Entry)
        → IsConsistent s → StandsWith (D.view d) s x → Exposes (D.view d) f
        → (keeps : KeepsFilter s.filters s.levels id)
        → entries_on f (blocks_of keeps.1.array.extents) ≡ Some entries
        → IsFilterOf keeps.1.bits entries }
{}
