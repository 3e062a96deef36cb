//! Openings: of a disk whose images show different tables, and what a store holds that was opened. Examples, and facts of these
//! records, used once. Each is the contract of a function that does nothing.

ghost use Rattle.std.specs.Prelude.{◌≡◌, ◌≢◌, ◌<◌, ◌⊎◌, [], ◌∷◌, length, Some, Ok, false, replicate};
ghost use Rattle.def_crash.specs.Image.{Image, Outside};
ghost use Rattle.def_crash.specs.Moments.{Exposes, Images, Since};
ghost use Rattle.strat_cursor.specs.Held.{no_cursors};
ghost use Rattle.def_bytes.specs.Chained.{manifest_at};
ghost use Rattle.def_bytes.specs.Layout.{region_at, other_region, open_flag};
ghost use Rattle.def_bytes.specs.SuperBlock.{newest_in};
ghost use Rattle.strat_model.specs.Table.{Table};
ghost use Rattle.def_recovery.specs.Disks.{formatted};
ghost use Rattle.def_recovery.specs.Opening.{recover};
ghost use Rattle.def_publish.specs.Several.{EachShows, ShowsOneOf};
ghost use Rattle.def_publish.specs.Standing.{ShowsTable};
ghost use Rattle.def_publish.specs.Worked.{miscounted, prepared_disk, resting};
ghost use Rattle.strat_memory.specs.Filters.{no_filters};
ghost use Rattle.strat_memory.specs.Held.{Held, head_held};
ghost use Rattle.strat_open.specs.Following.{FollowsFrom, IsOpenedAs, StopsAtGate};
ghost use Rattle.strat_store_pins.specs.Examples.{between};

use def_crash::laws::Viewed;

/// A crash may leave a new store, or that with a full journal: each image shows a table, and not all of them one.
pub fn images_may_show_different_tables()
    ensures some { EachShows (between formatted prepared_disk) }
    ensures other { (t u : Table) → ShowsTable formatted t → ShowsTable prepared_disk u → t ≢ u }
{}

/// An image shows the table of one that a crash might have left if it is one of these, and not where it shows the table of another
/// one, or none.
pub fn an_image_shows_the_table_of_one_before()
    ensures ok { ShowsOneOf (between formatted prepared_disk) prepared_disk
        × ShowsOneOf (between formatted prepared_disk) formatted }
    ensures other { ¬ ShowsOneOf (resting formatted) prepared_disk }
    ensures none { ¬ ShowsOneOf (between formatted prepared_disk) miscounted }
{}

/// A store that was opened holds what recovery finds in the content, no cursor and no filter. No image on the way differs from those of before
/// and from the content in more than one gate.
pub fn a_store_that_was_opened_holds_what_recovery_finds<D: Viewed>()
    ensures found { (d e : D) (s : Held) (f : Image) → IsOpenedAs (D.view d) (D.view e) s
        → Exposes (D.view d) f → (recover f ≡ Ok (Some (head_held s)))
        × (newest_in f ≡ Ok (Some (s.slot, s.sb)))
        × (manifest_at s.sb.format f s.sb.manifest s.sb.length ≡ Ok s.chained) }
    ensures none { (d e : D) (s : Held) → IsOpenedAs (D.view d) (D.view e) s
        → (s.spent ≡ false) × (s.memory.cursors ≡ no_cursors) }
    ensures state { (d e : D) (s : Held) → IsOpenedAs (D.view d) (D.view e) s
        → s.filters ≡ replicate 22 no_filters }
    ensures images { (d e : D) (s : Held) (f c : Image) → IsOpenedAs (D.view d) (D.view e) s
        → Exposes (D.view d) f → Since (D.view e) (D.view d).moment c → Images (D.view d) c
        ⊎ Outside (region_at s.sb.mem (other_region s.sb.region)) 1 f c }
{}

/// After an opening a crash leaves the content but for one commit flag of the region that is not active. Where the active region
/// has room that flag is shut, whatever the content shows.
pub fn an_opening_leaves_the_content_but_for_a_shut_gate<D: Viewed>()
    ensures images { (d e : D) (s : Held) (f c : Image) → IsOpenedAs (D.view d) (D.view e) s
        → Exposes (D.view d) f → Images (D.view e) c
        → Outside (region_at s.sb.mem (other_region s.sb.region)) 1 f c }
    ensures none { (d e : D) (s : Held) (f c : Image) → IsOpenedAs (D.view d) (D.view e) s
        → Exposes (D.view d) f → Images (D.view e) c → length s.log.list < s.sb.mem
        → c (region_at s.sb.mem (other_region s.sb.region)) ≢ open_flag }
{}

/// An opening whose last step failed leaves the table of the content, and no image that differs in more than one gate.
pub fn an_opening_that_stopped_leaves_its_table<D: Viewed>()
    ensures same { (d e : D) (f : Image) (t : Table) → StopsAtGate (D.view d) (D.view e) f
        → ShowsTable f t → FollowsFrom (D.view d) (D.view e) f (t ∷ []) 0 }
    ensures images { (d e : D) (f c : Image) (stops : StopsAtGate (D.view d) (D.view e) f)
        → Since (D.view e) (D.view d).moment c → (newest_in f ≡ Ok (Some (stops.slot, stops.sb)))
        × (Images (D.view d) c
        ⊎ Outside (region_at stops.sb.mem (other_region stops.sb.region)) 1 f c) }
{}
