//! What a run that exports a version comes to. The law is the contract of a function that does nothing.

ghost use Rattle.std.specs.Prelude.{◌≡◌, ◌≢◌, ◌<◌, ◌≤◌, ◌⊎◌, ℕ, List, ◌++◌, true, false, length, map, take, Ok, Err, None, Some};
ghost use Rattle.def_bulk.specs.Exporting.{exported, put_bodies, sole_version};
ghost use Rattle.def_crash.specs.Faults.{Rose};
ghost use Rattle.def_crash.specs.Image.{Image};
ghost use Rattle.def_crash.specs.Moments.{Exposes, Images, Since};
ghost use Rattle.def_publish.specs.Standing.{ShowsTable};
ghost use Rattle.def_recovery.specs.Head.{Head, head_versions, head_marks};
ghost use Rattle.def_recovery.specs.Opening.{recover};
ghost use Rattle.def_state.specs.Sound.{is_there};
ghost use Rattle.strat_io.specs.Streams.{Appends};
ghost use Rattle.strat_model.specs.Pairs.{Pairs};
ghost use Rattle.strat_model.specs.Step.{pairs_at};
ghost use Rattle.strat_model.specs.Run.{Exchange, Position};
ghost use Rattle.strat_model.specs.Table.{Table, fresh};
ghost use Rattle.strat_bulk.specs.Runs.{IsRunByTable};
ghost use Rattle.strat_loop.specs.World.{Streams, beside};
ghost use Rattle.castle.specs.Arguments.{Export};
ghost use Rattle.castle.specs.Exporting.{IsBadAt};
ghost use Rattle.castle.specs.Outcomes.{LeavesAlone, Runs};

use def_crash::laws::Viewed;
use strat_bulk::laws::an_export_is_served_again;

/// A run that exports a version of a store whose content shows a table writes the frames of that version's map, if it is done:
/// a put of each pair, the keys in order. If the device failed or a block is damaged, it wrote the frames of the first pairs;
/// if the sink failed, a front of these bytes. It says that there is no such version exactly if recovery finds none, or one
/// that was dropped. A crash meanwhile leaves a table that one before might have left. It ends for a cause, and where nothing
/// failed, done, without such a version, or for want of memory.
pub fn an_exporting_run_writes_the_map_of_its_version<D: Viewed>()
    ensures done { (path : List ℕ) (version status : ℕ) (x y : Streams) (d e : D) (f : Image)
        (t : Table) → ShowsTable f t → Exposes (D.view d) f
        → Runs (Some (Export path version)) 1099511627776 status
        (beside x (D.view d)) (beside y (D.view e)) → status ≡ 0
        → Appends x.held y.held (exported (pairs_at t version)) }
    ensures front { (path : List ℕ) (version status : ℕ) (x y : Streams) (d e : D) (f : Image)
        (t : Table) → ShowsTable f t → Exposes (D.view d) f
        → Runs (Some (Export path version)) 1099511627776 status
        (beside x (D.view d)) (beside y (D.view e)) → (status ≡ 5) ⊎ (status ≡ 9)
        → (told : Pairs) × (rest : Pairs) × (pairs_at t version ≡ told ++ rest)
        × Appends x.held y.held (exported told) }
    ensures sink { (path : List ℕ) (version status : ℕ) (x y : Streams) (d e : D) (f : Image)
        (t : Table) → ShowsTable f t → Exposes (D.view d) f
        → Runs (Some (Export path version)) 1099511627776 status
        (beside x (D.view d)) (beside y (D.view e)) → status ≡ 7
        → (told : Pairs) × (rest : Pairs) × (pairs_at t version ≡ told ++ rest)
        × (n : ℕ) × (n < length (exported told))
        × Appends x.held y.held (take n (exported told)) }
    ensures unknown { (path : List ℕ) (version status : ℕ) (x y : Streams) (d e : D) (f : Image)
        → Exposes (D.view d) f → Runs (Some (Export path version)) 1099511627776 status
        (beside x (D.view d)) (beside y (D.view e))
        → (status ≡ 12 → (head : Head) × (recover f ≡ Ok (Some head))
        × (is_there (head_versions head) (head_marks head) version ≡ false))
        × ((status ≡ 0) ⊎ (status ≡ 7) → (head : Head) × (recover f ≡ Ok (Some head))
        × (is_there (head_versions head) (head_marks head) version ≡ true)) }
    ensures none { (path : List ℕ) (version status : ℕ) (x y : Streams) (d e : D) (f : Image)
        → Exposes (D.view d) f → Runs (Some (Export path version)) 1099511627776 status
        (beside x (D.view d)) (beside y (D.view e)) → status ≡ 2 → recover f ≡ Ok None }
    ensures damaged { (path : List ℕ) (version status : ℕ) (x y : Streams) (d e : D) (f : Image)
        → Exposes (D.view d) f → Runs (Some (Export path version)) 1099511627776 status
        (beside x (D.view d)) (beside y (D.view e)) → status ≡ 9
        → (block : ℕ) × ((recover f ≡ Err block) ⊎ ((head : Head)
        × (recover f ≡ Ok (Some head)) × IsBadAt head version (D.view e) block)) }
    ensures left { (path : List ℕ) (version status : ℕ) (x y : Streams) (d e : D) (f c : Image)
        → Exposes (D.view d) f → Runs (Some (Export path version)) 1099511627776 status
        (beside x (D.view d)) (beside y (D.view e))
        → ((b : Image) → Images (D.view d) b → (t : Table) × ShowsTable b t)
        → Since (D.view e) (D.view d).moment c
        → (t : Table) × (b : Image) × ShowsTable c t × Images (D.view d) b × ShowsTable b t }
    ensures cause { (path : List ℕ) (version status : ℕ) (x y : Streams) (d e : D)
        → Runs (Some (Export path version)) 1099511627776 status
        (beside x (D.view d)) (beside y (D.view e))
        → ((status ≡ 0) ⊎ (status ≡ 2) ⊎ (status ≡ 5) ⊎ (status ≡ 7) ⊎ (status ≡ 8)
        ⊎ (status ≡ 9) ⊎ (status ≡ 12))
        × (status ≡ 5 → Rose x.disk_faults y.disk_faults)
        × (status ≡ 7 → Rose x.sink_faults y.sink_faults)
        × (y.source_faults ≡ x.source_faults)
        × (status ≢ 7 → y.sink_faults ≡ x.sink_faults)
        × (status ≢ 5 → y.disk_faults ≡ x.disk_faults) }
    ensures complete { (path : List ℕ) (version status : ℕ) (x y : Streams) (d e : D) (f : Image)
        (t : Table) → ShowsTable f t → Exposes (D.view d) f
        → Runs (Some (Export path version)) 1099511627776 status
        (beside x (D.view d)) (beside y (D.view e))
        → ¬ Rose x.source_faults y.source_faults → ¬ Rose x.sink_faults y.sink_faults
        → ¬ Rose x.disk_faults y.disk_faults → (status ≡ 0) ⊎ (status ≡ 12) ⊎ (status ≡ 8) }
    ensures same { (path : List ℕ) (version : ℕ) (d : D) (status a b i j m n : ℕ)
        → LeavesAlone (Some (Export path version)) (D.view d) status (a ≡ b) (i ≡ j) (m ≡ n)
        → (a ≡ b) × ((status ≡ 2) ⊎ (status ≡ 8) ⊎ (status ≡ 12) → i ≡ j) }
{}

/// What such a run wrote that was done makes the map again: a run over its bodies, each carried out as the table says, from a
/// new store that may make so many changes, ends with a table whose only version has this map.
pub fn what_an_export_wrote_makes_its_map_again<D: Viewed>()
    ensures end { (path : List ℕ) (version status : ℕ) (x y : Streams) (d e : D) (f : Image)
        (t : Table) (mem changes_max versions_max : ℕ) (xs : List Exchange) (start after : Position)
        → ShowsTable f t → Exposes (D.view d) f
        → Runs (Some (Export path version)) 1099511627776 status
        (beside x (D.view d)) (beside y (D.view e)) → status ≡ 0
        → length (pairs_at t version) ≤ changes_max → changes_max ≤ 16777216
        → start.table ≡ fresh changes_max versions_max
        → map (λ z. z.body) xs ≡ put_bodies 1 (pairs_at t version)
        → IsRunByTable mem start xs after
        → after.table ≡ sole_version changes_max versions_max (length (pairs_at t version))
        (pairs_at t version) }
{
    an_export_is_served_again();
}
