//! Laws of the items of one key. Each is the contract of a function that does nothing.

ghost use Rattle.std.specs.List.{list_all};
ghost use Rattle.std.specs.Prelude.{◌≡◌, ℕ, ◌+◌, ◌≤◌, List, map, Some, None, IsTrue};
ghost use Rattle.strat_arena.specs.declared.items.Item.{Item};
ghost use Rattle.strat_base.specs.Entries.{Entry, is_of};
ghost use Rattle.strat_base.specs.Tree.{Parents, parent_of, IsTree};
ghost use Rattle.strat_base.specs.Order.{descends};
ghost use Rattle.def_state.specs.Counted.{own_at, keys_at};
ghost use Rattle.strat_live.specs.Group.{is_live_item};
ghost use Rattle.def_state.specs.Live.{is_live};

/// An item of a key is live among those of its key exactly where its entry is live among theirs,
/// whatever values they stand for. Nothing is asked of other items.
pub fn items_are_live_as_their_entries()
    ensures { (parents : Parents) (items : List Item) (key : List ℕ) (entry : Item → Entry)
        → IsTrue (list_all (λ item. is_of key (entry item)) items)
        → ((item : Item) → (entry item).version ≡ item.version) → (v : ℕ) (item : Item)
        → IsTrue (is_of key (entry item))
        → is_live parents (map entry items) v (entry item) ≡ is_live_item parents items v item }
{}

/// No fewer keys are live at a version than at its parent.
pub fn live_keys_never_fall_on_the_way_down()
    ensures { (parents : Parents) (groups : List (List ℕ)) (v p : ℕ) → IsTree parents
        → parent_of parents v ≡ Some p
        → keys_at parents groups p ≤ keys_at parents groups v }
{}

/// At most so many more as the version has items.
pub fn live_keys_grow_by_own_items()
    ensures { (parents : Parents) (groups : List (List ℕ)) (v p : ℕ) → IsTree parents
        → parent_of parents v ≡ Some p
        → keys_at parents groups v ≤ keys_at parents groups p + own_at groups v }
{}

/// At a root at most so many keys are live as it has items.
pub fn a_root_sees_its_own_keys()
    ensures { (parents : Parents) (groups : List (List ℕ)) (v : ℕ) → IsTree parents
        → parent_of parents v ≡ None
        → keys_at parents groups v ≤ own_at groups v }
{}

/// Each item of a version is live there, of each key one.
pub fn own_items_are_live()
    ensures { (parents : Parents) (groups : List (List ℕ)) (v : ℕ) → IsTree parents
        → IsTrue (list_all descends groups)
        → own_at groups v ≤ keys_at parents groups v }
{}
