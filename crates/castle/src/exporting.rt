//! Exporting a version of a store.

ghost use Rattle.std.specs.Prelude.{◌≡◌, ◌⊎◌, ℕ, List, Option};
ghost use Rattle.def_crash.specs.Moments.{Passes};
ghost use Rattle.strat_model.specs.Ended.{status_of};
ghost use Rattle.strat_loop.specs.World.{world};
ghost use Rattle.castle.specs.Exporting.{ExportsVersion};

use std::alloc::Global;
use strat_base::Version;
use strat_bulk::export_pairs;
use strat_disk::Disk;
use strat_io::Sink;
use strat_model::Ended;
use strat_store::Store;

/// Opens the store on a disk, and writes the pairs of a version as frames of puts, as `export_pairs` does.
pub fn export_version<K: Sink, D: Disk>(
    alloc: Global,
    sink: &mut K,
    disk: &mut D,
    version: Version,
) -> Ended
    ensures ok { (left : Option (List ℕ)) (source_faults : ℕ) → ExportsVersion version result
        (world left source_faults (K.held sink.old) (K.faults sink.old)
        (D.view disk.old) (D.faults disk.old))
        (world left source_faults (K.held sink.new) (K.faults sink.new)
        (D.view disk.new) (D.faults disk.new)) }
    ensures same { (status_of result ≡ 2) ⊎ (status_of result ≡ 8) ⊎ (status_of result ≡ 12)
        → sink.new ≡ sink.old }
    ensures time { Passes (D.view disk.old) (D.view disk.new) }
{
    let store = match Store::attach(alloc, disk) {
        Ok(store) => store,
        Err(fault) => return Ended::from(fault),
    };
    export_pairs(alloc, &store, sink, disk, version)
}
