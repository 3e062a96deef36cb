//! What a store over levels says of a key at a version.

ghost use Rattle.std.specs.Prelude.{◌≡◌, ◌≢◌, ◌<◌, ℕ, [], length, true, false, None};
ghost use Rattle.strat_array.specs.Kept.{Blocks};
ghost use Rattle.def_crash.specs.Image.{Image};
ghost use Rattle.def_crash.specs.Moments.{Exposes};
ghost use Rattle.def_bytes.specs.Arrays.{block_on};
ghost use Rattle.strat_model.specs.Answer.{as_told};
ghost use Rattle.strat_model.specs.Request.{Get};
ghost use Rattle.strat_model.specs.Step.{found as answer_found};
ghost use Rattle.strat_model.specs.declared.replies.Refusal.TheVariants as why;
ghost use Rattle.strat_model.specs.declared.replies.Reply.TheVariants as reply;
ghost use Rattle.def_publish.specs.Contents.{Contents};
ghost use Rattle.strat_store.specs.Applying.{is_fault, IsLookedUp, FailsAsTold};
ghost use Rattle.strat_store.specs.Filtering.{arrays_unrefused, asked_filtered};
ghost use Rattle.strat_publish.specs.Outcomes.{IsDamagedIn};
ghost use Rattle.strat_store.specs.Getting.{reply_of_get, MayTellOfKey};
ghost use Rattle.strat_memory.specs.Held.{IsConsistent, StandsWith};
ghost use Rattle.strat_memory.specs.Memory.{lists_in_memory, has_version};
ghost use Rattle.strat_cursor.specs.Looking.{levels_there, arrays_there, AreInOrder, AreCachedFrom, LooksThrough, ReadsArrays, arrays_asked};
ghost use Rattle.strat_memory.specs.RecoveredFields.{held_of};

use crate::level_lookup::get_from_levels;
use strat_array::{Cache, Scratch, Seen};
use strat_base::{Fault, PairBuf, Version};
use strat_disk::Disk;
use strat_memory::open_store::OpenStore;
use strat_model::{Refusal, Reply};

/// What is told of a key after a look-up, or after the fault that ended it.
fn reply_of_get(found: Result<Seen, Fault>) -> Reply
    ensures ok { result ≡ reply_of_get found }
{
    match found {
        Ok(Seen::Put) => Reply::Found,
        Ok(Seen::Gone) => Reply::Absent,
        Ok(Seen::None) => Reply::Absent,
        Err(fault) => Reply::Refused(Refusal::from(fault)),
    }
}

/// What a store says of a key at a version; a value's pair is put into `out`, which has none. Level 0 is asked first,
/// then the sealed one where there is one, and then the levels, of each one array at most, until one says something: in
/// an array of fewer than 2^n blocks a search reads n + 4 of them at most, and each block is read once more at most. An
/// array whose filter refuses the key adds none to these reads. It takes no memory but for blocks that are cached.
/// UnknownVersion: there is no such version, and nothing was read. DeviceFault: the disk counted a fault. Damaged: this
/// block of one of the arrays is no block of entries.
pub(crate) fn get<D: Disk>(
    held: &OpenStore,
    cache: &mut Cache,
    scratch: &mut Scratch,
    disk: &mut D,
    version: Version,
    key: &[u8],
    out: &mut PairBuf,
) -> Reply
    requires kept { (cached : Blocks) → IsConsistent (held_of held.now cached) }
    requires room { out.old ≡ [] }
    ensures ok { (x : Contents) → StandsWith (D.view disk.old) (held_of held.now cache.old) x
        → IsLookedUp (D.view disk.new) (held_of held.now cache.new) x (Get version key.now)
        (as_told result out.new) }
    ensures found { (f : Image) → Exposes (D.view disk.old) f
        → AreInOrder f (arrays_asked held.now.memory.parents held.now.published.levels version)
        → AreCachedFrom f held.now.published.manifest.next_array
        (arrays_asked held.now.memory.parents held.now.published.levels version) cache.old
        → is_fault result ≡ false → has_version held.now.memory version ≡ true
        → as_told result out.new ≡ answer_found key.now (asked_filtered f held.now.filters
        held.now.memory.parents (lists_in_memory held.now.memory)
        (levels_there held.now.published.levels) version key.now) }
    ensures none { has_version held.now.memory version ≡ false
        → (result ≡ reply.Refused why.UnknownVersion) × (disk.new ≡ disk.old) }
    ensures same { LooksThrough (D.view disk.old) (D.view disk.new)
        (arrays_there held.now.published.levels) cache.old cache.new }
    ensures cause { FailsAsTold (D.faults disk.old) (D.faults disk.new) result }
    ensures damaged { (b : ℕ) → result ≡ reply.Refused (why.Damaged b)
        → IsDamagedIn (D.view disk.old).content held.now.memory held.now.published.levels b }
    ensures err { (b : ℕ) → result ≡ reply.Refused (why.Damaged b) → (f : Image)
        → Exposes (D.view disk.old) f → block_on f b ≡ None }
    ensures end { has_version held.now.memory version ≡ true → MayTellOfKey result }
    ensures len { (result ≡ reply.Found → length out.new ≡ 1)
        × (result ≢ reply.Found → out.new ≡ []) }
    ensures reads { ReadsArrays
        (arrays_unrefused held.now.filters held.now.memory.parents held.now.published.levels
        version key.now) (D.reads disk.old) (D.reads disk.new) }
{
    if !held.memory.has(version) {
        return Reply::Refused(Refusal::UnknownVersion);
    }
    match held.memory.find(key, version, out) {
        Seen::None => {
            let found = get_from_levels(disk, cache, held, key, version, scratch, out);
            reply_of_get(found)
        }
        seen => reply_of_get(Ok(seen)),
    }
}
