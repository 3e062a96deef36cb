//! Open cursors, and the arrays that are kept for them.

ghost use Rattle.std.specs.Prelude.{◌≡◌, [], ◌∷◌, Some, None, true, false};
ghost use Rattle.strat_cursor.specs.Cursors.{arrays_named, closed_at, goes_on, is_array_named, is_opened, moved_at, pairs_left, retired_all, retired_by, without_cursor};
ghost use Rattle.strat_store_pins.specs.Examples.{array, cursor, cursors};

/// A page goes on at the least key behind the last one told, where it was where nothing was told, and nowhere at its end.
pub fn a_page_goes_on_behind_the_last_key()
    ensures more { goes_on (Some []) true ((97 ∷ [], 49 ∷ []) ∷ (98 ∷ [], []) ∷ [])
        ≡ Some (98 ∷ 0 ∷ []) }
    ensures none { goes_on (Some (97 ∷ [])) true [] ≡ Some (97 ∷ []) }
    ensures end { (goes_on (Some []) false ((97 ∷ [], []) ∷ []) ≡ None)
        × (goes_on None true ((97 ∷ [], []) ∷ []) ≡ None) }
{}

/// What a cursor has left begins at its key, and is nothing where it has told all.
pub fn what_is_left_begins_at_the_key()
    ensures ok { pairs_left ((97 ∷ [], []) ∷ (98 ∷ [], []) ∷ []) (cursor 1 (Some (98 ∷ [])) [])
        ≡ (98 ∷ [], []) ∷ [] }
    ensures end { pairs_left ((97 ∷ [], []) ∷ []) (cursor 1 None []) ≡ [] }
{}

/// A page moves the cursor of its number, and no other one.
pub fn one_cursor_moves()
    ensures ok { moved_at 2 true ((97 ∷ [], []) ∷ [])
        (cursor 1 (Some []) [] ∷ cursor 2 (Some []) (array 5 ∷ []) ∷ [])
        ≡ cursor 1 (Some []) [] ∷ cursor 2 (Some (97 ∷ 0 ∷ [])) (array 5 ∷ []) ∷ [] }
    ensures end { moved_at 1 false [] (cursor 1 (Some []) [] ∷ cursor 2 (Some []) [] ∷ [])
        ≡ cursor 1 None [] ∷ cursor 2 (Some []) [] ∷ [] }
{}

/// A cursor is known by its number, and closing it leaves the others.
pub fn one_cursor_is_closed()
    ensures ok { without_cursor 1 (cursor 1 None [] ∷ cursor 2 None [] ∷ [])
        ≡ cursor 2 None [] ∷ [] }
    ensures found { (is_opened 2 (cursor 1 None [] ∷ cursor 2 None [] ∷ []) ≡ true)
        × (is_opened 3 (cursor 1 None [] ∷ cursor 2 None [] ∷ []) ≡ false) }
    ensures none { is_opened 1 (without_cursor 1 (cursor 1 None [] ∷ cursor 2 None [] ∷ []))
        ≡ false }
{}

/// The arrays of all cursors are named, and no others.
pub fn arrays_of_cursors_are_named()
    ensures ok { arrays_named (cursor 1 None (array 5 ∷ []) ∷ cursor 2 None (array 6 ∷ array 7 ∷ [])
        ∷ []) ≡ array 5 ∷ array 6 ∷ array 7 ∷ [] }
    ensures found { (is_array_named (cursor 1 None (array 5 ∷ array 6 ∷ []) ∷ []) 6 ≡ true)
        × (is_array_named (cursor 1 None (array 5 ∷ array 6 ∷ []) ∷ []) 7 ≡ false) }
{}

/// An array that leaves the levels is kept behind the others where a cursor names it, and else not.
#[tactic(auto, unfolding(strat_cursor::specs::Cursors::retired_all))]
pub fn arrays_are_kept_that_a_cursor_names()
    ensures ok { retired_by (array 5) (cursors (cursor 1 None (array 5 ∷ []) ∷ []) (array 4 ∷ []))
        ≡ cursors (cursor 1 None (array 5 ∷ []) ∷ []) (array 4 ∷ array 5 ∷ []) }
    ensures none { retired_by (array 6) (cursors (cursor 1 None (array 5 ∷ []) ∷ []) (array 4 ∷ []))
        ≡ cursors (cursor 1 None (array 5 ∷ []) ∷ []) (array 4 ∷ []) }
    ensures same { retired_all (array 5 ∷ array 6 ∷ array 7 ∷ [])
        (cursors (cursor 1 None (array 7 ∷ array 5 ∷ []) ∷ []) [])
        ≡ cursors (cursor 1 None (array 7 ∷ array 5 ∷ []) ∷ []) (array 7 ∷ array 5 ∷ []) }
{}

/// A closing lets go of the arrays that no other cursor names, and takes no number back.
pub fn a_closing_lets_go_of_what_no_other_names()
    ensures ok { closed_at 1 (cursors (cursor 1 None (array 5 ∷ array 6 ∷ [])
        ∷ cursor 2 None (array 6 ∷ []) ∷ []) (array 5 ∷ array 6 ∷ []))
        ≡ cursors (cursor 2 None (array 6 ∷ []) ∷ []) (array 6 ∷ []) }
    ensures end { closed_at 2 (cursors (cursor 2 None (array 6 ∷ []) ∷ []) (array 6 ∷ []))
        ≡ cursors [] [] }
{}
