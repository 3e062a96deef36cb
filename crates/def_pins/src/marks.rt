//! Which versions were dropped, and what a tree whose versions bear such marks accepts. Each is the contract of a
//! function that does nothing.

#![tactic(auto, unfolding(strat_base::specs::Tree::climb))]

ghost use Rattle.std.specs.Prelude.{◌≡◌, List, [], ◌∷◌, ◌&&◌, true, false, None, Some};
ghost use Rattle.std.specs.List.{list_all};
ghost use Rattle.strat_base.specs.Change.{Change, Put, Delete, Clone, DropVersion};
ghost use Rattle.strat_base.specs.Marks.{Marks, is_dropped, has_living_child, are_pruned, none_dropped};
ghost use Rattle.strat_base.specs.Tree.{Parents};
ghost use Rattle.def_state.specs.Broken.{lead_above_frozen};
ghost use Rattle.def_state.specs.Sound.{is_there, takes_updates, is_droppable, is_accepted, are_accepted, is_above_frozen};
ghost use Rattle.def_state.specs.State.{marks_after, marks_of, is_living, map_at, tree_after};
ghost use Rattle.def_state.specs.Worked.{fan};
ghost use Rattle.def_pins.specs.States.{two_children, drop_of_three};

/// A version with a mark that is set was dropped. One without a mark was not.
pub fn marks_tell_which_versions_were_dropped()
    ensures set { (is_dropped (false ∷ true ∷ []) 0 ≡ false)
        × (is_dropped (false ∷ true ∷ []) 1 ≡ true) }
    ensures past { is_dropped (false ∷ true ∷ []) 2 ≡ false }
    ensures none { (none_dropped (false ∷ false ∷ []) ≡ true)
        × (none_dropped (true ∷ false ∷ []) ≡ false)
        × (none_dropped (false ∷ true ∷ []) ≡ false) }
{}

/// A child that was not dropped is a living one, be it the first version or the last, and whatever became of another.
pub fn living_children_are_found()
    ensures last { has_living_child two_children (false ∷ true ∷ false ∷ []) 0 ≡ true }
    ensures first { (has_living_child two_children (false ∷ false ∷ true ∷ []) 0 ≡ true)
        × (has_living_child (Some 0 ∷ []) (false ∷ []) 0 ≡ true) }
    ensures none { (has_living_child two_children (false ∷ true ∷ true ∷ []) 0 ≡ false)
        × (has_living_child two_children (false ∷ false ∷ false ∷ []) 1 ≡ false) }
{}

/// Below a dropped version all are dropped; version 0 is living; there are as many marks as versions.
pub fn trees_are_pruned_from_their_leaves()
    ensures ok { (are_pruned (None ∷ Some 0 ∷ Some 1 ∷ []) (false ∷ false ∷ true ∷ []) ≡ true)
        × (are_pruned (None ∷ Some 0 ∷ Some 1 ∷ []) (false ∷ true ∷ true ∷ []) ≡ true) }
    ensures below { are_pruned (None ∷ Some 0 ∷ Some 1 ∷ []) (false ∷ true ∷ false ∷ [])
        ≡ false }
    ensures root { are_pruned (None ∷ []) (true ∷ []) ≡ false }
    ensures first { are_pruned (Some 1 ∷ None ∷ []) (false ∷ true ∷ []) ≡ false }
    ensures length { (are_pruned (None ∷ Some 0 ∷ []) (false ∷ []) ≡ false)
        × (are_pruned (None ∷ Some 0 ∷ []) (false ∷ false ∷ false ∷ []) ≡ false) }
{}

/// A version that was made and not dropped is there. It takes updates unless it has a living child.
pub fn dropped_versions_take_no_updates()
    ensures there { (is_there two_children (false ∷ true ∷ false ∷ []) 0 ≡ true)
        × (is_there two_children (false ∷ true ∷ false ∷ []) 1 ≡ false)
        × (is_there two_children (false ∷ true ∷ false ∷ []) 2 ≡ true)
        × (is_there two_children (false ∷ true ∷ false ∷ []) 3 ≡ false) }
    ensures child { (takes_updates two_children (false ∷ true ∷ false ∷ []) 0 ≡ false)
        × (takes_updates two_children (false ∷ true ∷ true ∷ []) 0 ≡ true) }
    ensures leaf { (takes_updates two_children (false ∷ true ∷ false ∷ []) 1 ≡ false)
        × (takes_updates two_children (false ∷ true ∷ false ∷ []) 2 ≡ true)
        × (takes_updates two_children (false ∷ true ∷ false ∷ []) 3 ≡ false) }
{}

/// A version that takes updates may be dropped if one more change may be made; version 0 never.
pub fn open_versions_may_be_dropped()
    ensures ok { is_droppable 5 two_children (false ∷ true ∷ false ∷ []) 4 2 ≡ true }
    ensures changes { is_droppable 5 two_children (false ∷ true ∷ false ∷ []) 5 2 ≡ false }
    ensures dropped { is_droppable 5 two_children (false ∷ true ∷ false ∷ []) 4 1 ≡ false }
    ensures frozen { is_droppable 5 (None ∷ Some 0 ∷ Some 1 ∷ []) (false ∷ false ∷ false ∷ []) 4 1
        ≡ false }
    ensures root { is_droppable 5 two_children (false ∷ true ∷ true ∷ []) 4 0 ≡ false }
{}

/// A clone is not dropped, whatever became of others. A drop sets one mark, and an update none.
pub fn changes_set_one_mark()
    ensures clone { marks_after (false ∷ true ∷ []) (Clone 1) ≡ false ∷ true ∷ false ∷ [] }
    ensures drop { marks_after (false ∷ false ∷ false ∷ []) (DropVersion 1)
        ≡ false ∷ true ∷ false ∷ [] }
    ensures same { (marks_after (false ∷ true ∷ []) (Put 0 [] []) ≡ false ∷ true ∷ [])
        × (marks_after (false ∷ true ∷ []) (Delete 0 []) ≡ false ∷ true ∷ []) }
{}

/// Updates and clones of a dropped version are refused, and its parent takes updates again. Each change finds the tree and the
/// marks that the one before it left.
pub fn marks_decide_what_is_accepted()
    ensures put { (is_accepted 9 9 two_children (false ∷ true ∷ true ∷ []) 4 (Put 0 [] []) ≡ true)
        × (is_accepted 9 9 two_children (false ∷ true ∷ false ∷ []) 4 (Put 0 [] []) ≡ false)
        × (is_accepted 9 9 two_children (false ∷ true ∷ false ∷ []) 4 (Put 1 [] []) ≡ false) }
    ensures delete { (is_accepted 9 9 two_children (false ∷ true ∷ true ∷ []) 4 (Delete 0 [])
        ≡ true)
        × (is_accepted 9 9 two_children (false ∷ true ∷ false ∷ []) 4 (Delete 0 []) ≡ false)
        × (is_accepted 9 9 two_children (false ∷ true ∷ false ∷ []) 4 (Delete 1 []) ≡ false) }
    ensures clone { (is_accepted 9 9 two_children (false ∷ true ∷ false ∷ []) 4 (Clone 0) ≡ true)
        × (is_accepted 9 9 two_children (false ∷ true ∷ false ∷ []) 4 (Clone 1) ≡ false) }
    ensures turn { (parents : Parents) (marks : Marks) (change : Change) (journal : List Change)
        → are_accepted 9 9 parents marks 4 (change ∷ journal)
        ≡ (is_accepted 9 9 parents marks 4 change
        && are_accepted 9 9 (tree_after parents change) (marks_after marks change) 5 journal) }
{}

/// A drop is accepted of a version that may be dropped, however many versions there are: of none that has a living child, was
/// dropped or was not made, of version 0 never, and not past the most changes.
pub fn drops_of_open_versions_are_accepted()
    ensures ok { (is_accepted 5 3 two_children (false ∷ true ∷ false ∷ []) 4 (DropVersion 2) ≡ true)
        × (is_accepted 5 3 (None ∷ Some 0 ∷ Some 1 ∷ []) (false ∷ false ∷ true ∷ []) 4
        (DropVersion 1) ≡ true) }
    ensures frozen { is_accepted 5 3 (None ∷ Some 0 ∷ Some 1 ∷ []) (false ∷ false ∷ false ∷ []) 4
        (DropVersion 1) ≡ false }
    ensures dropped { is_accepted 5 3 two_children (false ∷ true ∷ false ∷ []) 4 (DropVersion 1)
        ≡ false }
    ensures unknown { is_accepted 5 3 two_children (false ∷ true ∷ false ∷ []) 4 (DropVersion 3)
        ≡ false }
    ensures root { (is_accepted 5 3 two_children (false ∷ true ∷ true ∷ []) 4 (DropVersion 0)
        ≡ false)
        × (is_accepted 5 3 (None ∷ []) (false ∷ []) 4 (DropVersion 0) ≡ false) }
    ensures changes { is_accepted 5 3 two_children (false ∷ true ∷ false ∷ []) 5 (DropVersion 2)
        ≡ false }
{}

/// After a drop the version is unknown to each later change, and its parent takes updates and may be dropped itself.
pub fn changes_after_a_drop_find_it_done()
    ensures parent { (are_accepted 9 9 (None ∷ []) (false ∷ []) 0
        (Clone 0 ∷ DropVersion 1 ∷ Put 0 [] [] ∷ Delete 0 [] ∷ Clone 0 ∷ []) ≡ true)
        × (are_accepted 9 9 (None ∷ []) (false ∷ []) 0
        (Clone 0 ∷ Clone 1 ∷ DropVersion 2 ∷ Put 1 [] [] ∷ DropVersion 1 ∷ []) ≡ true) }
    ensures update { (are_accepted 9 9 (None ∷ []) (false ∷ []) 0
        (Clone 0 ∷ DropVersion 1 ∷ Put 1 [] [] ∷ []) ≡ false)
        × (are_accepted 9 9 (None ∷ []) (false ∷ []) 0
        (Clone 0 ∷ DropVersion 1 ∷ Delete 1 [] ∷ []) ≡ false) }
    ensures clone { are_accepted 9 9 (None ∷ []) (false ∷ []) 0
        (Clone 0 ∷ DropVersion 1 ∷ Clone 1 ∷ []) ≡ false }
    ensures again { are_accepted 9 9 (None ∷ []) (false ∷ []) 0
        (Clone 0 ∷ DropVersion 1 ∷ DropVersion 1 ∷ []) ≡ false }
    ensures frozen { are_accepted 9 9 (None ∷ []) (false ∷ []) 0
        (Clone 0 ∷ Clone 1 ∷ DropVersion 1 ∷ []) ≡ false }
    ensures versions { (are_accepted 9 2 (None ∷ []) (false ∷ []) 0
        (Clone 0 ∷ DropVersion 1 ∷ []) ≡ true)
        × (are_accepted 9 2 (None ∷ []) (false ∷ []) 0 (Clone 0 ∷ DropVersion 1 ∷ Clone 0 ∷ [])
        ≡ false) }
{}

/// A version that the manifest or the journal says was dropped has no map. The others keep theirs, its parent too. One
/// without a mark was not dropped.
pub fn dropped_versions_have_no_map()
    ensures before { (map_at drop_of_three 3 ≡ []) × (is_living drop_of_three 3 ≡ false) }
    ensures others { (map_at drop_of_three 0 ≡ map_at fan 0)
        × (map_at drop_of_three 2 ≡ map_at fan 2) }
    ensures journal { marks_of (record drop_of_three { journal = DropVersion 1 ∷ Clone 0 ∷ [] })
        ≡ false ∷ true ∷ false ∷ true ∷ false ∷ [] }
    ensures after { (is_living (record drop_of_three { journal = DropVersion 1 ∷ [] }) 1 ≡ false)
        × (map_at (record drop_of_three { journal = DropVersion 1 ∷ [] }) 1 ≡ []) }
    ensures past { is_living drop_of_three 9 ≡ true }
{}

/// A version whose one child below the horizon was dropped may have leads in shallower levels, and updates in the journal.
pub fn dropped_children_freeze_nothing()
    ensures living { list_all (is_above_frozen lead_above_frozen) lead_above_frozen.levels
        ≡ false }
    ensures dropped { list_all
        (is_above_frozen (record lead_above_frozen { marks = false ∷ true ∷ [] }))
        lead_above_frozen.levels ≡ true }
    ensures journal { (list_all
        (is_above_frozen (record fan { journal = Put 0 [] [] ∷ [] })) fan.levels ≡ false)
        × (list_all (is_above_frozen (record fan {
          marks = false ∷ true ∷ true ∷ false ∷ [];
          journal = Put 0 [] [] ∷ [];
        })) fan.levels ≡ false)
        × (list_all (is_above_frozen (record fan {
          journal = DropVersion 1 ∷ DropVersion 3 ∷ DropVersion 2 ∷ Put 0 [] [] ∷ [];
        })) fan.levels ≡ true) }
{}
