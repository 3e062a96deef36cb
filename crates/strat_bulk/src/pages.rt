//! The pages of a walk, written as frames.

ghost use Rattle.std.specs.Prelude.{◌≡◌, ◌<◌, ℕ, [], length, IfOk};
ghost use Rattle.def_crash.specs.Faults.{ReadsAtMost};
ghost use Rattle.def_crash.specs.Image.{Image};
ghost use Rattle.def_crash.specs.Moments.{Exposes, OnlyReads};
ghost use Rattle.strat_cursor.specs.Looking.{AreInOrder, HaveOwnIds, NamesNoBlock, blocks_of_arrays};
ghost use Rattle.strat_cursor.specs.Ranges.{IsMapSeen};
ghost use Rattle.strat_cursor.specs.Views.{ViewStands, arrays_read, zeros_in};
ghost use Rattle.strat_cursor.specs.Walking.{IsWalk, HasPairsLeft, arrays_walked, reads_walked};
ghost use Rattle.strat_model.specs.Pairs.{Pairs};
ghost use Rattle.strat_model.specs.declared.ended.Ended.TheVariants as ended;
ghost use Rattle.strat_bulk.specs.Ending.{WritesPairs, AreTold, EndsWalk, ExportHasCause};
ghost use Rattle.strat_bulk.specs.Runs.{AreLawful};

use crate::framing::PutFrames;
use std::alloc::Global;
use strat_array::Cache;
use strat_base::{NoMemory, PairBuf, Version};
use strat_cursor::{ScanBuffers, View, Walk};
use strat_disk::Disk;
use strat_io::{Sink, put_all};
use strat_model::Ended;

/// Blocks that an export caches: each is asked for once.
const CACHED: usize = 1;

/// What an export works with: a block of each array, a page of pairs and the frames of these, 1.4 MB in all.
#[derive(Drop)]
pub struct Room {
    pub(crate) cache: Cache,
    pub(crate) scan: ScanBuffers,
    pub(crate) page: PairBuf,
    pub(crate) frames: PutFrames,
}

impl Room {
    /// All of it, which is taken here. The only error is want of memory.
    pub(crate) fn new(alloc: Global) -> Result<Room, NoMemory>
        ensures ok { IfOk result (λ room. (room.frames.tag ≡ 1) × (room.cache.entries ≡ [])) }
    {
        Ok(Room {
            cache: Cache::new(alloc, CACHED)?,
            scan: ScanBuffers::new(alloc)?,
            page: PairBuf::new(alloc)?,
            frames: PutFrames::new(alloc)?,
        })
    }
}

/// Writes what a walk has left as the frames of puts, with tags from 1 on: in one write for the frames of each page, or more
/// where the sink takes a part. Done: all of it. Device, Damaged: a front of it, of whole frames. Sink: a front of the bytes.
fn write_pages<K: Sink, D: Disk>(
    walk: &mut Walk<'_>,
    sink: &mut K,
    disk: &mut D,
    cache: &mut Cache,
    page: &mut PairBuf,
    frames: &mut PutFrames,
) -> Ended
    requires kept { IsWalk walk.old }
    requires none { frames.old.tag ≡ 1 }
    ensures ok { (told : Pairs) × WritesPairs result (K.held sink.old) (K.held sink.new) told
        × AreLawful told × ((f : Image) (m : Pairs) → Exposes (D.view disk.old) f
        → HasPairsLeft f cache.old walk.old m → AreTold result told m) }
    ensures end { EndsWalk result }
    ensures damaged { (b : ℕ) → result ≡ ended.Damaged b
        → NamesNoBlock (D.view disk.old).content (arrays_walked walk.old) b }
    ensures same { OnlyReads (D.view disk.old) (D.view disk.new) }
    ensures cause { ExportHasCause result (D.faults disk.old) (D.faults disk.new)
        (K.faults sink.old) (K.faults sink.new) }
    ensures reads { ReadsAtMost (reads_walked walk.old) (D.reads disk.old) (D.reads disk.new) }
{
    loop {
        let more = match walk.next_page(disk, cache, page) {
            Ok(more) => more,
            Err(fault) => return Ended::from(fault),
        };
        frames.frame_page(page);
        let Ok(()) = put_all(sink, frames.bytes()) else {
            return Ended::Sink;
        };
        if !more {
            return Ended::Done;
        }
    }
}

/// Writes all pairs that a view has at a version, as `write_pages` does. Each block of the version's arrays is read once.
pub(crate) fn write_version<K: Sink, D: Disk>(
    view: &View<'_>,
    version: Version,
    room: Room,
    sink: &mut K,
    disk: &mut D,
) -> Ended
    requires kept { ViewStands view.now }
    requires found { version < length view.now.tree.now.parents }
    requires none { (room.frames.tag ≡ 1) × (room.cache.entries ≡ []) }
    ensures ok { (told : Pairs) × WritesPairs result (K.held sink.old) (K.held sink.new) told
        × AreLawful told × ((f : Image) (m : Pairs) → Exposes (D.view disk.old) f
        → AreInOrder f (arrays_read view.now version) → HaveOwnIds (arrays_read view.now version)
        → IsMapSeen f view.now.tree.now.parents (zeros_in view.now)
        (arrays_read view.now version) version m → AreTold result told m) }
    ensures end { EndsWalk result }
    ensures damaged { (b : ℕ) → result ≡ ended.Damaged b
        → NamesNoBlock (D.view disk.old).content (arrays_read view.now version) b }
    ensures same { OnlyReads (D.view disk.old) (D.view disk.new) }
    ensures cause { ExportHasCause result (D.faults disk.old) (D.faults disk.new)
        (K.faults sink.old) (K.faults sink.new) }
    ensures reads { ReadsAtMost (blocks_of_arrays (arrays_read view.now version))
        (D.reads disk.old) (D.reads disk.new) }
{
    let Room {
        mut cache,
        scan,
        mut page,
        mut frames,
    } = room;
    let mut walk = match Walk::begin(disk, &mut cache, &*view, version, scan) {
        Ok(walk) => walk,
        Err(fault) => return Ended::from(fault),
    };
    write_pages(&mut walk, sink, disk, &mut cache, &mut page, &mut frames)
}
