//! What a store over levels says of a range of a version.

ghost use Rattle.std.specs.Prelude.{◌≡◌, ◌≤◌, ℕ, [], true, false, None};
ghost use Rattle.strat_array.specs.Kept.{Blocks};
ghost use Rattle.def_crash.specs.Image.{Image};
ghost use Rattle.def_crash.specs.Moments.{Exposes};
ghost use Rattle.strat_cursor.specs.Looking.{arrays_there, AreInOrder, AreCachedFrom, LooksThrough, ReadsArrays, arrays_asked};
ghost use Rattle.def_bytes.specs.Arrays.{block_on};
ghost use Rattle.strat_model.specs.Answer.{as_told};
ghost use Rattle.strat_model.specs.Pairs.{Pairs, range};
ghost use Rattle.strat_model.specs.Request.{Scan};
ghost use Rattle.strat_model.specs.Step.{page};
ghost use Rattle.strat_model.specs.declared.replies.Refusal.TheVariants as why;
ghost use Rattle.strat_model.specs.declared.replies.Reply.TheVariants as reply;
ghost use Rattle.def_publish.specs.Contents.{Contents};
ghost use Rattle.strat_store.specs.Applying.{is_fault, IsLookedUp, FailsAsTold};
ghost use Rattle.strat_publish.specs.Outcomes.{IsDamagedIn};
ghost use Rattle.strat_memory.specs.Held.{IsConsistent, StandsWith};
ghost use Rattle.strat_memory.specs.Memory.{lists_in_memory, has_version};
ghost use Rattle.strat_store.specs.Ranging.{reply_of_scan, HasPairsFor, IsMapAsked, MayTellOfRange};
ghost use Rattle.strat_memory.specs.RecoveredFields.{held_of};

use strat_array::Cache;
use strat_base::{Fault, PairBuf, Version};
use strat_cursor::{Picked, ScanBuffers, View, scan};
use strat_disk::Disk;
use strat_memory::open_store::OpenStore;
use strat_model::{Refusal, Reply};

/// What is told of a range after a scan, or after the fault that ended it.
fn reply_of_scan(found: Result<bool, Fault>) -> Reply
    ensures ok { result ≡ reply_of_scan found }
{
    match found {
        Ok(more) => Reply::Pairs { more },
        Err(fault) => Reply::Refused(Refusal::from(fault)),
    }
}

/// The first pairs of a version from `lo` on and below `hi`, at most `limit` of them, which are put into `out`, and
/// whether others follow. Costs what `strat_cursor::scan` does, over level 0, a sealed one, and the array of each level
/// that is for the version, and takes no memory but for blocks that are cached. UnknownVersion: there is no such version,
/// and nothing was read. DeviceFault: the disk counted a fault. Damaged: this block of one of the arrays is no block of
/// entries.
pub(crate) fn scan_range<D: Disk>(
    held: &OpenStore,
    cache: &mut Cache,
    buffers: &mut ScanBuffers,
    disk: &mut D,
    version: Version,
    lo: &[u8],
    hi: &[u8],
    limit: u16,
    out: &mut PairBuf,
) -> Reply
    requires kept { (cached : Blocks) → IsConsistent (held_of held.now cached) }
    requires fits { (1 ≤ limit) × (limit ≤ 256) }
    requires room { out.old ≡ [] }
    ensures ok { (x : Contents) → StandsWith (D.view disk.old) (held_of held.now cache.old) x
        → IsLookedUp (D.view disk.new) (held_of held.now cache.new) x
        (Scan version lo.now hi.now limit) (as_told result out.new) }
    ensures found { (f : Image) (m : Pairs) → Exposes (D.view disk.old) f
        → AreInOrder f (arrays_asked held.now.memory.parents held.now.published.levels version)
        → AreCachedFrom f held.now.published.manifest.next_array
        (arrays_asked held.now.memory.parents held.now.published.levels version) cache.old
        → is_fault result ≡ false → has_version held.now.memory version ≡ true
        → IsMapAsked f held.now.memory.parents (lists_in_memory held.now.memory)
        held.now.published.levels version m
        → as_told result out.new ≡ page (range m lo.now hi.now) limit }
    ensures none { has_version held.now.memory version ≡ false
        → (result ≡ reply.Refused why.UnknownVersion) × (disk.new ≡ disk.old)
        × (out.new ≡ []) }
    ensures same { LooksThrough (D.view disk.old) (D.view disk.new)
        (arrays_there held.now.published.levels) cache.old cache.new }
    ensures cause { FailsAsTold (D.faults disk.old) (D.faults disk.new) result }
    ensures damaged { (b : ℕ) → result ≡ reply.Refused (why.Damaged b)
        → IsDamagedIn (D.view disk.old).content held.now.memory held.now.published.levels b
        × ((f : Image) → Exposes (D.view disk.old) f → block_on f b ≡ None) }
    ensures reads { ReadsArrays
        (arrays_asked held.now.memory.parents held.now.published.levels version)
        (D.reads disk.old) (D.reads disk.new) }
    ensures end { has_version held.now.memory version ≡ true → MayTellOfRange result }
    ensures len { HasPairsFor (Scan version lo.now hi.now limit) (as_told result out.new) }
{
    if !held.memory.has(version) {
        return Reply::Refused(Refusal::UnknownVersion);
    }
    let (zero, sealed, pool, tree) = held.memory.lists();
    let view = View {
        tree,
        pool,
        zero,
        sealed,
        levels: Picked::Live(&held.published.levels),
    };
    let found = scan(disk, cache, &view, version, lo, hi, limit, buffers, out);
    reply_of_scan(found)
}
