//! Laws of what an export reads and writes. Each is the contract of a function that does nothing.

ghost use Rattle.std.specs.Prelude.{◌≡◌, ◌≤◌, ◌<◌, ◌*◌, ℕ, List, length, map, Contains, Some};
ghost use Rattle.strat_bulk.specs.Runs.{AreLawful, IsRunByTable};
ghost use Rattle.def_bulk.specs.Exporting.{put_bodies, sole_version};
ghost use Rattle.def_state.specs.Level.{Level, TaggedArray};
ghost use Rattle.def_state.specs.Live.{live};
ghost use Rattle.def_state.specs.LookUp.{array_asked, of_state};
ghost use Rattle.def_state.specs.Sound.{IsSound};
ghost use Rattle.def_state.specs.State.{State, versions_of};
ghost use Rattle.strat_model.specs.Kept.{IsMap};
ghost use Rattle.strat_model.specs.Pairs.{Pairs};
ghost use Rattle.strat_model.specs.Run.{Exchange, IsRun, Position};
ghost use Rattle.strat_model.specs.Table.{fresh};

use def_bulk::laws::an_export_gives_its_map;
use strat_frame::laws::bodies_have_one_command;

/// What an export writes, served on a new store that may make so many changes, makes the map that was exported: a run over its
/// bodies, each carried out as the table says, ends with a table whose only version has this map. Each such run is a run.
pub fn an_export_is_served_again()
    ensures end { (mem changes_max versions_max : ℕ) (m : Pairs) (xs : List Exchange)
        (start after : Position) → IsMap m → AreLawful m → length m ≤ changes_max
        → changes_max ≤ 16777216 → start.table ≡ fresh changes_max versions_max
        → map (λ x. x.body) xs ≡ put_bodies 1 m → IsRunByTable mem start xs after
        → after.table ≡ sole_version changes_max versions_max (length m) m }
    ensures kept { (mem : ℕ) (xs : List Exchange) (start after : Position)
        → IsRunByTable mem start xs after → IsRun mem start xs after }
{
    bodies_have_one_command();
    an_export_gives_its_map();
}

/// Of each level an export reads the array that is asked at its version. In a sound state that has at most three entries for
/// each that is live at the version.
pub fn an_array_that_is_read_is_a_third_live()
    ensures ok { (s : State) (level : Level) (a : TaggedArray) (v : ℕ) → IsSound s
        → Contains s.levels level → v < length (versions_of s)
        → array_asked of_state (versions_of s) level v ≡ Some a
        → length a.content ≤ 3 * length (live (versions_of s) a.content v) }
{}
