//! Laws of what parts take. Each is the contract of a function that does nothing.

ghost use Rattle.std.specs.List.{list_all, Contains};
ghost use Rattle.std.specs.Prelude.{◌≡◌, ◌<◌, ℕ, List, length, map, filter, IsTrue};
ghost use Rattle.strat_arena.specs.declared.items.Item.{Item};
ghost use Rattle.strat_base.specs.Entries.{Entry, is_of};
ghost use Rattle.strat_base.specs.Tree.{Parents, IsTree};
ghost use Rattle.strat_live.specs.Counting.{SameParents, item_versions};
ghost use Rattle.strat_live.specs.Group.{is_descending, is_live_item};
ghost use Rattle.def_split.specs.Plan.{Plan, horizon_of, part_of, IsSplit};
ghost use Rattle.def_split.specs.Planned.{is_taken};
ghost use Rattle.strat_split.specs.Dealing.{IsSplitFor};
ghost use Rattle.strat_split.specs.PlanSeen.{plan_seen};
ghost use Rattle.strat_split.specs.Taken.{is_taken_item};
ghost use Rattle.strat_split.specs.declared.parts.Plan.{Plan as PlanHere};
ghost use Rattle.def_state.specs.Counted.{own_at, keys_at};

/// What is live at a version of a part is taken by the part. So a part that hangs below a version of
/// another takes nothing over that the other does not take.
pub fn what_is_live_in_a_part_is_taken()
    ensures { (parents : Parents) (own live : ℕ → ℕ) (plan : Plan) (items : List Item) (v : ℕ)
        (item : Item) → IsTree parents → IsSplit parents own live plan → v < horizon_of plan
        → part_of plan v < length plan.parts
        → IsTrue (is_live_item parents items v item)
        → IsTrue (is_taken_item parents plan items (part_of plan v) item) }
{}

/// A part takes the same items in each tree that gives the versions of the plan the same parents. So a
/// tree may grow between a plan and the calls of `takes`.
pub fn a_part_takes_the_same_in_a_tree_that_grew()
    ensures { (parents others : Parents) (own live : ℕ → ℕ) (plan : Plan) (items : List Item)
        (q : ℕ) (item : Item) → IsTree parents → SameParents (horizon_of plan) others parents
        → IsSplit parents own live plan → q < length plan.parts
        → is_taken_item others plan items q item ≡ is_taken_item parents plan items q item }
{}

/// What a part takes of the items of one key, as entries, is what it takes of their entries.
pub fn a_part_takes_of_a_group_what_it_takes_of_its_entries()
    ensures { (parents : Parents) (plan : Plan) (items : List Item) (q : ℕ) (key : List ℕ)
        (entry : Item → Entry) → IsTrue (list_all (λ item. is_of key (entry item)) items)
        → ((item : Item) → (entry item).version ≡ item.version)
        → filter (is_taken parents plan (map entry items) q) (map entry items)
        ≡ map entry (filter (is_taken_item parents plan items q) items) }
{}

/// At a version of a part the item that is live among those of a group is the one that is live among those
/// that the part takes. So a part that hangs below this version needs these alone.
pub fn what_is_live_in_a_part_is_found_among_what_it_takes()
    ensures { (parents : Parents) (own live : ℕ → ℕ) (plan : Plan) (items : List Item) (v : ℕ)
        (item : Item) → IsTree parents → IsSplit parents own live plan
        → IsTrue (is_descending items) → v < horizon_of plan
        → part_of plan v < length plan.parts
        → is_live_item parents
        (filter (is_taken_item parents plan items (part_of plan v)) items) v item
        ≡ is_live_item parents items v item }
{}

/// A split by counts is one for the items of each key that was counted.
pub fn a_split_serves_each_key_that_was_counted()
    ensures { (tree parents : Parents) (groups : List (List ℕ)) (plan : PlanHere)
        (items : List Item) → IsTree parents
        → SameParents (length plan.part_of) parents tree
        → IsSplit parents (own_at groups) (keys_at parents groups) (plan_seen plan)
        → Contains groups (item_versions items) → IsSplitFor tree parents plan items }
{}
