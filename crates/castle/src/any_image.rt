//! What a serving run comes to over a disk that crashed, or that an earlier run or opening failed on, as it is: each crash may
//! leave another table. The law is the contract of a function that does nothing.

ghost use Rattle.std.specs.Prelude.{◌≡◌, ◌⊎◌, ℕ, List, Some};
ghost use Rattle.def_crash.specs.Image.{Image};
ghost use Rattle.def_crash.specs.Moments.{Exposes, Images, Passes, Since};
ghost use Rattle.def_crash.specs.Trail.{At};
ghost use Rattle.strat_model.specs.Batch.{tables_continued};
ghost use Rattle.strat_model.specs.Table.{Table};
ghost use Rattle.def_publish.specs.Several.{EachShows, ShowsOneOf};
ghost use Rattle.def_publish.specs.Standing.{ShowsTable};
ghost use Rattle.strat_serve.specs.Tables.{AnswersAsTable, begins_at};
ghost use Rattle.strat_loop.specs.World.{Streams, beside};
ghost use Rattle.castle.specs.Arguments.{Serve};
ghost use Rattle.castle.specs.Outcomes.{Runs};

use def_crash::laws::Viewed;

/// Over a disk each of whose images shows a table, though not all of them one, a run that is asked to serve a file answers
/// as a run of the table that the content shows. What a crash leaves at each moment shows the table of an image that the disk
/// had at the start, or one of the run's: also where the device failed in the opening. So each image at the end shows a table,
/// and the disk may be served again as it is, whatever failed.
pub fn a_serving_run_may_begin_at_any_image<D: Viewed>()
    ensures trail { (path : List ℕ) (status : ℕ) (x y : Streams) (d e : D) (f : Image) (t : Table)
        (shows : ShowsTable f t) → Exposes (D.view d) f → EachShows (D.view d)
        → Runs (Some (Serve path)) 1099511627776 status (beside x (D.view d)) (beside y (D.view e))
        → (a : AnswersAsTable 1099511627776 shows.state.mem (begins_at f t shows) status x y)
        × ((c : Image) → Since (D.view e) (D.view d).moment c → ShowsOneOf (D.view d) c
        ⊎ ((i : ℕ) × At (tables_continued a.run a.continued.end) i (ShowsTable c))) }
    ensures again { (path : List ℕ) (status : ℕ) (x y : Streams) (d e : D) (f : Image) (t : Table)
        → ShowsTable f t → Exposes (D.view d) f → EachShows (D.view d)
        → Runs (Some (Serve path)) 1099511627776 status (beside x (D.view d)) (beside y (D.view e))
        → Passes (D.view d) (D.view e) → EachShows (D.view e) }
    ensures one { (d : D) (c : Image) → ShowsOneOf (D.view d) c → (t : Table) × ShowsTable c t
        × ((b : Image) × Images (D.view d) b × ShowsTable b t) }
{}
