//! A walk over all pairs of a version.

ghost use Rattle.std.specs.Prelude.{◌≡◌, ◌≤◌, ◌<◌, ℕ, ◌+◌, length, true, IfOk, IsErrOf};
ghost use Rattle.strat_base.specs.declared.failures.Fault.TheVariants.{Damaged, Device};
ghost use Rattle.def_crash.specs.Faults.{HasCause, ReadsAtMost};
ghost use Rattle.def_crash.specs.Image.{Image};
ghost use Rattle.def_crash.specs.Moments.{Exposes};
ghost use Rattle.strat_model.specs.Pairs.{Pairs};
ghost use Rattle.strat_cursor.specs.Looking.{LooksThrough, NamesNoBlock, blocks_of_arrays};
ghost use Rattle.strat_cursor.specs.Ranges.{FillsPage, IsMapSeen};
ghost use Rattle.strat_cursor.specs.Views.{ViewStands, IsReadable, arrays_read, zeros_in};
ghost use Rattle.strat_cursor.specs.Walking.{IsWalk, HasPairsLeft, GivesPage, arrays_walked, reads_walked, steps_walked};

use crate::picking::{Sources, pick};
use crate::query::Query;
use crate::scan_buffers::{ScanBuffers, SourcePosition};
use crate::scanning::{begin_contest, tell_all};
use crate::view::View;
use strat_array::Cache;
use strat_base::limits::PAIRS_MAX;
use strat_base::{Fault, PairBuf, Version};
use strat_disk::Disk;

/// A walk over all pairs of a version, their keys in order. Each block of the version's arrays is read once.
#[derive(Drop)]
pub struct Walk<'a> {
    pub(crate) view: &'a View<'a>,
    pub(crate) sources: Sources<'a>,
    pub(crate) version: Version,
    pub(crate) positions: Vec<SourcePosition>,
    pub(crate) winners: Vec<usize>,
    pub(crate) last: Vec<u8>,
}

impl<'a> Walk<'a> {
    /// A walk that stands at the first pair of a version, in the room that is passed. No search is made: of each of the
    /// version's arrays the blocks up to its first entry that is due are read.
    pub fn begin<D: Disk>(
        disk: &mut D,
        cache: &mut Cache,
        view: &'a View<'a>,
        version: Version,
        buffers: ScanBuffers,
    ) -> Result<Walk<'a>, Fault>
        requires kept { ViewStands view.now }
        requires found { version < length view.now.tree.now.parents }
        ensures ok { IfOk result (λ w. (f : Image) (next : ℕ) (m : Pairs)
            → Exposes (D.view disk.old) f → IsReadable f next view.now version cache.old
            → IsMapSeen f view.now.tree.now.parents (zeros_in view.now)
            (arrays_read view.now version) version m → HasPairsLeft f cache.new w m) }
        ensures kept { IfOk result (λ w. IsWalk w
            × (arrays_walked w ≡ arrays_read view.now version)) }
        ensures same { LooksThrough (D.view disk.old) (D.view disk.new)
            (arrays_read view.now version) cache.old cache.new }
        ensures damaged { (b : ℕ) → IsErrOf result (Damaged b)
            → NamesNoBlock (D.view disk.old).content (arrays_read view.now version) b }
        ensures cause { HasCause Device (D.faults disk.old) (D.faults disk.new) result }
        ensures reads { ReadsAtMost (blocks_of_arrays (arrays_read view.now version))
            (D.reads disk.old) (D.reads disk.new) }
        ensures room { IfOk result (λ w. D.reads disk.new + reads_walked w
            ≤ D.reads disk.old + blocks_of_arrays (arrays_read view.now version)) }
    {
        let sources = pick(view, version);
        let ScanBuffers {
            mut positions,
            mut winners,
            mut last,
        } = buffers;
        positions.truncate(sources.count);
        winners.truncate(2 * sources.count);
        last.clear();
        let query = Query {
            view: &*view,
            sources: &sources.places[..sources.count],
            version,
            lo: &[],
            hi: &[],
            limit: PAIRS_MAX,
        };
        begin_contest(disk, cache, &query, &mut positions, &mut winners)?;
        Ok(Walk {
            view,
            sources,
            version,
            positions,
            winners,
            last,
        })
    }

    /// Puts the next pairs into `out`, which is emptied first: 256 of them while others follow, which is answered. For each
    /// pair O(log sources) comparisons of keys, and as many for each entry passed over. It takes no memory but for blocks
    /// that are cached.
    pub fn next_page<D: Disk>(
        &mut self,
        disk: &mut D,
        cache: &mut Cache,
        out: &mut PairBuf,
    ) -> Result<bool, Fault>
        requires kept { IsWalk self.old }
        ensures ok { IfOk result (λ more. (f : Image) (m : Pairs) → Exposes (D.view disk.old) f
            → HasPairsLeft f cache.old self.old m → GivesPage f cache.new self.new m out.new more) }
        ensures kept { IfOk result (λ more. more ≡ true → IsWalk self.new) }
        ensures end { IfOk result (λ more. more ≡ true
            → steps_walked self.new < steps_walked self.old) }
        ensures len { IfOk result (λ more. FillsPage 256 (length out.new) more) }
        ensures same { LooksThrough (D.view disk.old) (D.view disk.new)
            (arrays_walked self.old) cache.old cache.new
            × (arrays_walked self.new ≡ arrays_walked self.old) }
        ensures damaged { (b : ℕ) → IsErrOf result (Damaged b)
            → NamesNoBlock (D.view disk.old).content (arrays_walked self.old) b }
        ensures cause { HasCause Device (D.faults disk.old) (D.faults disk.new) result }
        ensures reads { ReadsAtMost (reads_walked self.old) (D.reads disk.old) (D.reads disk.new) }
        ensures room { IfOk result (λ more. D.reads disk.new + reads_walked self.new
            ≤ D.reads disk.old + reads_walked self.old) }
    {
        out.clear();
        let view = self.view;
        let sources = self.sources;
        let query = Query {
            view: &*view,
            sources: &sources.places[..sources.count],
            version: self.version,
            lo: &[],
            hi: &[],
            limit: PAIRS_MAX,
        };
        tell_all(
            disk,
            cache,
            &query,
            &mut self.last,
            &mut self.positions,
            &mut self.winners,
            out,
        )
    }
}
