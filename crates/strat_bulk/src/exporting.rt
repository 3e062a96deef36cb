//! The export of a version.

ghost use Rattle.std.specs.Prelude.{◌≡◌, ℕ, true, false, ◌↔◌};
ghost use Rattle.def_crash.specs.Faults.{ReadsAtMost, Rose};
ghost use Rattle.def_crash.specs.Image.{Image};
ghost use Rattle.def_crash.specs.Moments.{Exposes, OnlyReads};
ghost use Rattle.def_meaning.specs.StateTable.{table_of};
ghost use Rattle.def_publish.specs.Contents.{Contents, contents_state};
ghost use Rattle.strat_cursor.specs.Looking.{NamesNoBlock, arrays_asked, blocks_of_arrays};
ghost use Rattle.strat_memory.specs.Held.{IsConsistent, StandsWith};
ghost use Rattle.strat_model.specs.Kept.{IsMap};
ghost use Rattle.strat_model.specs.Pairs.{Pairs};
ghost use Rattle.strat_model.specs.Step.{pairs_at};
ghost use Rattle.strat_model.specs.declared.ended.Ended.TheVariants as ended;
ghost use Rattle.strat_bulk.specs.Density.{AreThirdLive};
ghost use Rattle.strat_bulk.specs.Ending.{WritesPairs, AreTold, EndsExport, EndsStanding, IsUnbegun, ExportHasCause};
ghost use Rattle.strat_bulk.specs.Runs.{AreLawful};
ghost use Rattle.strat_memory.specs.Memory.{has_version};

use crate::pages::{Room, write_version};
use std::alloc::Global;
use strat_base::Version;
use strat_disk::Disk;
use strat_io::Sink;
use strat_model::Ended;
use strat_store::Store;
use strat_store::export_laws::a_version_is_read_from_its_arrays;

/// Writes the pairs of a version as frames of puts at version 0, their keys in order, with the tags 1, 2, 3 and so on: served
/// on a new store they make this map. It walks the memtable and the version's arrays at once, with one block of each, and
/// reads each block once.
///
/// Done: all of it was written. UnknownVersion: there is no such version, and nothing was written. NoMemory: nothing was
/// written or read; memory is taken before both, 1.4 MB and the descriptors of at most 22 arrays. Device: the disk counted a
/// fault, and the frames of the first pairs were written. Damaged: so was it, and this block of one of the version's arrays is
/// no block of entries. Sink: the sink counted a fault, and took a front of the bytes.
///
/// For each pair O(log levels) comparisons of keys and the copying of its bytes, and the same comparisons for each entry that
/// is passed over. One write for the frames of 256 pairs.
pub fn export_pairs<K: Sink, D: Disk>(
    alloc: Global,
    store: &Store,
    sink: &mut K,
    disk: &mut D,
    version: Version,
) -> Ended
    requires kept { IsConsistent store.now × (store.now.spent ≡ false) }
    ensures ok { (told : Pairs) × WritesPairs result (K.held sink.old) (K.held sink.new) told
        × AreLawful told × ((x : Contents) → StandsWith (D.view disk.old) store.now x
        → AreTold result told (pairs_at (table_of (contents_state x)) version)) }
    ensures kept { (x : Contents) → StandsWith (D.view disk.old) store.now x → result ≡ ended.Done
        → IsMap (pairs_at (table_of (contents_state x)) version) }
    ensures none { (result ≡ ended.UnknownVersion)
        ↔ (has_version store.now.memory version ≡ false) }
    ensures end { EndsExport result }
    ensures found { (x : Contents) → StandsWith (D.view disk.old) store.now x
        → ¬ Rose (D.faults disk.old) (D.faults disk.new)
        → ¬ Rose (K.faults sink.old) (K.faults sink.new) → EndsStanding result }
    ensures damaged { (b : ℕ) → result ≡ ended.Damaged b
        → NamesNoBlock (D.view disk.old).content
        (arrays_asked store.now.memory.parents store.now.levels version) b }
    ensures same { OnlyReads (D.view disk.old) (D.view disk.new)
        × (IsUnbegun result → (sink.new ≡ sink.old) × (disk.new ≡ disk.old)) }
    ensures cause { ExportHasCause result (D.faults disk.old) (D.faults disk.new)
        (K.faults sink.old) (K.faults sink.new) }
    ensures reads { ReadsAtMost
        (blocks_of_arrays (arrays_asked store.now.memory.parents store.now.levels version))
        (D.reads disk.old) (D.reads disk.new) }
    ensures fits { (x : Contents) (f : Image) → StandsWith (D.view disk.old) store.now x
        → Exposes (D.view disk.old) f → has_version store.now.memory version ≡ true
        → AreThirdLive f store.now.memory.parents version
        (arrays_asked store.now.memory.parents store.now.levels version) }
{
    if !store.known(version) {
        return Ended::UnknownVersion;
    }
    a_version_is_read_from_its_arrays::<D>();
    let Ok(room) = Room::new(alloc) else {
        return Ended::NoMemory;
    };
    let Ok(arrays) = store.picked(version) else {
        return Ended::NoMemory;
    };
    let view = store.view(&arrays);
    write_version(&view, version, room, sink, disk)
}
