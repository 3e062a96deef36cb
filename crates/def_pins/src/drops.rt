//! Tables of which a version was dropped, and the states that mean them. Each is the contract of a function that does
//! nothing.

#![tactic(auto, unfolding(strat_base::specs::Tree::climb))]

ghost use Rattle.std.specs.Prelude.{◌≡◌, ℕ, [], ◌∷◌, true, false, None, Some};
ghost use Rattle.strat_base.specs.Change as change;
ghost use Rattle.strat_base.specs.Samples.{says};
ghost use Rattle.strat_model.specs.Answer.{plain};
ghost use Rattle.strat_model.specs.Kept.{IsTable, updated};
ghost use Rattle.strat_model.specs.Request.{Put, Delete, Get, Clone, Scan, Info, OpenCursor, NextPairs, Stat, DropVersion};
ghost use Rattle.strat_model.specs.Step.{step, drop_version, refuses, replies_with, has_row, is_frozen};
ghost use Rattle.strat_model.specs.Table.{Table, fresh, marks_in};
ghost use Rattle.strat_model.specs.declared.replies.Refusal.TheVariants as why;
ghost use Rattle.strat_model.specs.declared.replies.Reply.TheVariants as reply;
ghost use Rattle.def_recovery.specs.Head.{head_of, head_marks};
ghost use Rattle.def_recovery.specs.Opened.{state_on};
ghost use Rattle.def_meaning.specs.StateTable.{table_of, request_for, answer_for};
ghost use Rattle.def_meaning.specs.TableOver.{rows_from, rows_over};
ghost use Rattle.def_state.specs.State.{map_at};
ghost use Rattle.def_state.specs.Worked.{fan, lately_dropped};
ghost use Rattle.def_pins.specs.Drops.{with_a_child, with_a_grandchild, with_a_drop, with_two_children, row_of, dropped_row};
ghost use Rattle.def_pins.specs.Formats.{after_a_drop};
ghost use Rattle.def_pins.specs.States.{drop_of_three};

/// A drop empties one row and is one more change, and no update. Cursors stay, also those over the version.
pub fn drops_change_one_row()
    ensures ok { drop_version with_a_child 1
        ≡ record { answer = plain reply.Done; table = with_a_drop } }
    ensures version { updated (DropVersion 3) ≡ Some 3 }
{}

/// Version 0 is refused as the root, though each child of it was dropped, and before a living child or too many changes are
/// told. Then comes a living child, and then too many changes. A version that was dropped, or not made, is unknown, whatever
/// else there is.
pub fn further_drops_are_refused()
    ensures root { (drop_version with_a_drop 0 ≡ refuses with_a_drop why.Root)
        × (drop_version with_a_child 0 ≡ refuses with_a_child why.Root) }
    ensures first { drop_version (fresh 0 9) 0 ≡ refuses (fresh 0 9) why.Root }
    ensures frozen { (drop_version with_a_grandchild 1 ≡ refuses with_a_grandchild why.Frozen)
        × (drop_version (record with_a_grandchild { changes_max = 4 }) 1
        ≡ refuses (record with_a_grandchild { changes_max = 4 }) why.Frozen) }
    ensures changes { drop_version (record with_a_child { changes_max = 4 }) 1
        ≡ refuses (record with_a_child { changes_max = 4 }) why.ChangeLimit }
    ensures again { drop_version with_a_drop 1 ≡ refuses with_a_drop why.UnknownVersion }
    ensures unknown { drop_version with_a_drop 2 ≡ refuses with_a_drop why.UnknownVersion }
    ensures full { drop_version (record with_a_drop { changes_max = 5 }) 1
        ≡ refuses (record with_a_drop { changes_max = 5 }) why.UnknownVersion }
{}

/// Each command that names a version that was dropped is refused, as if it had not been made.
pub fn dropped_versions_are_unknown()
    ensures put { step with_a_drop (Put 1 (98 ∷ []) [])
        ≡ refuses with_a_drop why.UnknownVersion }
    ensures delete { step with_a_drop (Delete 1 (98 ∷ []))
        ≡ refuses with_a_drop why.UnknownVersion }
    ensures get { step with_a_drop (Get 1 (98 ∷ [])) ≡ refuses with_a_drop why.UnknownVersion }
    ensures clone { step with_a_drop (Clone 1) ≡ refuses with_a_drop why.UnknownVersion }
    ensures scan { step with_a_drop (Scan 1 [] [] 1) ≡ refuses with_a_drop why.UnknownVersion }
    ensures info { step with_a_drop (Info 1) ≡ refuses with_a_drop why.UnknownVersion }
    ensures open { step with_a_drop (OpenCursor 1 [] [])
        ≡ refuses with_a_drop why.UnknownVersion }
{}

/// A version whose one child was dropped is not frozen and takes an update. The dropped one counts among the versions, and
/// its number is not given again. A cursor over it goes on.
pub fn parents_of_dropped_versions_take_updates()
    ensures frozen { (is_frozen with_a_child 0 ≡ true) × (is_frozen with_a_drop 0 ≡ false) }
    ensures put { step with_a_drop (Put 0 (97 ∷ []) (50 ∷ [])) ≡ record {
      answer = plain reply.Done;
      table = record with_a_drop {
        rows = row_of None ((97 ∷ [], 50 ∷ []) ∷ []) ∷ dropped_row (Some 0) ∷ [];
        updates = 4;
        changes = 6;
      };
    } }
    ensures info { step with_a_drop (Info 0)
        ≡ replies_with with_a_drop (plain (reply.Info None 0 false)) }
    ensures stat { step with_a_drop Stat ≡ replies_with with_a_drop (plain (reply.Stat 2 3 5 1)) }
    ensures clone { (step with_a_drop (Clone 0)).answer ≡ plain (reply.Made 2) }
    ensures limit { step (record with_a_drop { versions_max = 2 }) (Clone 0)
        ≡ refuses (record with_a_drop { versions_max = 2 }) why.VersionLimit }
    ensures next { (step with_a_drop (NextPairs 1 1)).answer
        ≡ record { reply = reply.Pairs false; pairs = (98 ∷ [], 49 ∷ []) ∷ [] } }
{}

/// Of two children one was dropped: it has no row, and its parent is frozen by the other.
pub fn rows_are_those_not_dropped()
    ensures marks { marks_in with_two_children ≡ false ∷ true ∷ false ∷ [] }
    ensures rows { (has_row with_two_children 1 ≡ false) × (has_row with_two_children 2 ≡ true)
        × (has_row with_two_children 3 ≡ false) }
    ensures frozen { (is_frozen with_two_children 0 ≡ true)
        × (is_frozen with_two_children 2 ≡ false) }
{}

/// A table with a version that was dropped is one, unless that has pairs or a living child, or is version 0. The command to
/// drop one asks for just that.
pub fn tables_may_have_dropped_versions()
    ensures step { (t : Table) (v : ℕ) → step t (DropVersion v) ≡ drop_version t v }
    ensures table { IsTable with_a_drop }
    ensures pairs { ¬ IsTable (record with_a_drop {
      rows = row_of None [] ∷ record (dropped_row (Some 0)) { pairs = (98 ∷ [], []) ∷ [] } ∷ [];
    }) }
    ensures child { ¬ IsTable (record with_a_drop {
      rows = row_of None [] ∷ dropped_row (Some 0) ∷ row_of (Some 1) [] ∷ [];
    }) }
    ensures root { ¬ IsTable (record with_a_drop { rows = dropped_row None ∷ [] }) }
{}

/// The rows of versions have their marks, by their numbers. Over entries a living version has what its ancestors have too,
/// and a dropped one nothing.
pub fn rows_have_the_marks_of_their_versions()
    ensures ok { rows_from (λ v. []) (false ∷ true ∷ []) 0 (None ∷ Some 0 ∷ Some 0 ∷ [])
        ≡ row_of None [] ∷ dropped_row (Some 0) ∷ row_of (Some 0) [] ∷ [] }
    ensures from { rows_from (λ v. []) (false ∷ true ∷ []) 1 (None ∷ Some 0 ∷ [])
        ≡ dropped_row None ∷ row_of (Some 0) [] ∷ [] }
    ensures over { rows_over (None ∷ Some 0 ∷ Some 0 ∷ []) (false ∷ true ∷ false ∷ [])
        (says 98 1 50 ∷ says 97 0 49 ∷ [])
        ≡ row_of None ((97 ∷ [], 49 ∷ []) ∷ []) ∷ dropped_row (Some 0)
        ∷ row_of (Some 0) ((97 ∷ [], 49 ∷ []) ∷ []) ∷ [] }
    ensures living { rows_over (None ∷ Some 0 ∷ []) (false ∷ false ∷ [])
        (says 98 1 50 ∷ says 97 0 49 ∷ [])
        ≡ row_of None ((97 ∷ [], 49 ∷ []) ∷ [])
        ∷ row_of (Some 0) ((97 ∷ [], 49 ∷ []) ∷ (98 ∷ [], 50 ∷ []) ∷ []) ∷ [] }
{}

/// A state means a table without what was dropped, in its journal or before.
pub fn states_mean_tables_without_dropped_maps()
    ensures journal { (table_of lately_dropped).rows
        ≡ row_of None (map_at lately_dropped 0) ∷ dropped_row (Some 0) ∷ [] }
    ensures before { (table_of drop_of_three).rows
        ≡ row_of None (map_at fan 0) ∷ row_of (Some 0) (map_at fan 1)
        ∷ row_of (Some 0) (map_at fan 2) ∷ dropped_row (Some 0) ∷ [] }
    ensures step { step (table_of (record lately_dropped { journal = [] })) (DropVersion 1)
        ≡ record { answer = plain reply.Done; table = table_of lately_dropped } }
    ensures rows { (has_row (table_of lately_dropped) 1 ≡ false)
        × (is_frozen (table_of lately_dropped) 0 ≡ false)
        × (is_frozen (table_of (record lately_dropped { journal = [] })) 0 ≡ true) }
    ensures request { request_for (change.DropVersion 2) ≡ DropVersion 2 }
    ensures answer { answer_for fan (change.DropVersion 2) ≡ plain reply.Done }
{}

/// What was dropped and compacted stands in the manifest of a state, and is read from there.
pub fn marks_are_of_the_manifest()
    ensures state { state_on (λ i. 0) 4 9 9 (after_a_drop 5) [] ≡ Some (record lately_dropped {
      changes_max = 9;
      versions_max = 9;
      marks = false ∷ true ∷ [];
      changes = 0;
      updates = 0;
      written = 0;
      compacted = 5;
      next_array = 1;
      levels = [];
      journal = [];
    }) }
    ensures head { ((head_of 1 (record drop_of_three { compacted = 5 })).manifest.compacted ≡ 5)
        × ((head_of 1 drop_of_three).manifest.marks ≡ false ∷ false ∷ false ∷ true ∷ []) }
    ensures after { head_marks (head_of 1 lately_dropped) ≡ false ∷ true ∷ [] }
{}
