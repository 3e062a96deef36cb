//! Laws of the numbers by which the rules of a level are told. Each is the contract of a function that does nothing.

ghost use Rattle.std.specs.List.{list_all, Contains};
ghost use Rattle.std.specs.Prelude.{◌≡◌, ◌≤◌, ℕ, List, length, map};
ghost use Rattle.def_check.specs.Marked.{marked_runs, leads_of_marked, kept_below};
ghost use Rattle.def_promote.specs.Merging.{Merges};
ghost use Rattle.strat_base.specs.Entries.{Entry, holds_entry};
ghost use Rattle.strat_base.specs.Tree.{Parents, IsTree};
ghost use Rattle.def_split.specs.Groups.{grouped_entries};
ghost use Rattle.def_state.specs.Level.{TaggedArray, Level, own_leads, has_live_tagged, agrees, is_dense, is_drawn, least_live};
ghost use Rattle.def_check.specs.Told.{MayBeCounted, AreLeadsOf, AreContentOf, tags_seen, weighs_as, sees_third, least_seen};

/// Where the arrays of a level ascend and its tags are disjoint, its rules are told by what versions see of its merged leads and
/// of each array, counted and weighed key by key.
pub fn rules_are_told_by_numbers()
    ensures tagged { (parents : Parents) (level : Level) (groups : List (List Entry))
        → IsTree parents → MayBeCounted level → AreLeadsOf level groups
        → has_live_tagged parents level ≡ tags_seen parents level groups }
    ensures agreeing { (parents : Parents) (level : Level) (a : TaggedArray)
        (groups mine : List (List Entry)) → IsTree parents → MayBeCounted level
        → AreLeadsOf level groups → Contains level.arrays a → AreContentOf a mine
        → agrees parents level a ≡ weighs_as parents groups a mine }
    ensures dense { (parents : Parents) (level : Level) (a : TaggedArray)
        (groups mine : List (List Entry)) → IsTree parents → MayBeCounted level
        → AreLeadsOf level groups → Contains level.arrays a → AreContentOf a mine
        → is_dense parents a ≡ sees_third parents a mine }
    ensures drawn { (parents : Parents) (level : Level) (a : TaggedArray)
        (groups mine : List (List Entry)) → IsTree parents → MayBeCounted level
        → AreLeadsOf level groups → Contains level.arrays a → AreContentOf a mine
        → is_drawn level a ≡ list_all (holds_entry (grouped_entries groups)) a.content }
    ensures described { (parents : Parents) (level : Level) (a : TaggedArray)
        (groups mine : List (List Entry)) → IsTree parents → MayBeCounted level
        → AreLeadsOf level groups → Contains level.arrays a → AreContentOf a mine
        → least_live parents a ≡ least_seen parents a mine }
{}

/// The leads of a level's arrays, merged, are the groups of the level.
pub fn merged_leads_are_those_of_a_level()
    ensures { (level : Level) (groups : List (List Entry)) → MayBeCounted level
        → Merges (map own_leads level.arrays) groups → AreLeadsOf level groups }
{}

/// All entries of a level's arrays of versions below a number that is no less than the horizon, marked with the places of these and
/// merged, tell the groups of the level: those whose version is in the tag at their place.
pub fn marked_leads_are_those_of_a_level()
    ensures { (level : Level) (n : ℕ) (groups : List (List Entry)) → MayBeCounted level
        → level.horizon ≤ n → length level.arrays ≤ 16384
        → Merges (marked_runs 0 (map (λ a. a.content) (map (kept_below n) level.arrays))) groups
        → AreLeadsOf level (leads_of_marked (map (λ a. a.tag) level.arrays) groups) }
{}
