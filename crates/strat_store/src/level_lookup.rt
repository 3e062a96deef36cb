//! A look-up through the levels of a store: of each level one array is asked at most, until one says something. An array whose
//! filter refuses the key is skipped.

ghost use Rattle.std.specs.Option.{option_to_list};
ghost use Rattle.std.specs.Prelude.{◌≡◌, ◌<◌, ℕ, [], length, Some, Contains, IfOk, OnErr, IsErrOf};
ghost use Rattle.strat_array.specs.Told.{TellsFound, AddsPair};
ghost use Rattle.strat_base.specs.declared.descriptors.ArrayDesc.{ArrayDesc};
ghost use Rattle.strat_base.specs.declared.failures.Fault.TheVariants.{Damaged, Device};
ghost use Rattle.strat_base.specs.declared.limits.TheConstants.{PAIRS_MAX};
ghost use Rattle.def_crash.specs.Faults.{HasCause};
ghost use Rattle.def_crash.specs.Image.{Image};
ghost use Rattle.def_crash.specs.Moments.{Exposes};
ghost use Rattle.def_state.specs.LookUp.{looked_up};
ghost use Rattle.strat_cursor.specs.Looking.{levels_there, arrays_there, MayBeFound, AreInOrder, AreCachedFrom, LooksThrough, NamesNoBlock, HaveOwnIds, MayBeAsked, ReadsArrays, arrays_asked, asked_of_level, decides};
ghost use Rattle.strat_store.specs.Filtering.{AreNumberedByPlace, arrays_unrefused, filtered_says, on_disk_filtered, unrefused_of_level};

use strat_array::{Cache, Scratch, Seen, find};
use strat_base::limits::LEVELS;
use strat_base::{Fault, PairBuf, Version};
use strat_disk::Disk;
use strat_memory::open_store::OpenStore;

/// Whether an answer says something of a key.
fn decides(seen: Seen) -> bool
    ensures ok { result ≡ decides seen }
{
    match seen {
        Seen::None => false,
        Seen::Gone => true,
        Seen::Put => true,
    }
}

/// What the array of a level that is for a version says of a key: nothing if there is none, or if its filter refuses the key.
/// Then nothing is read.
fn ask_level<D: Disk>(
    disk: &mut D,
    cache: &mut Cache,
    held: &OpenStore,
    number: usize,
    key: &[u8],
    v: Version,
    scratch: &mut Scratch,
    out: &mut PairBuf,
) -> Result<Seen, Fault>
    requires fits { MayBeFound (arrays_there held.now.published.levels) }
    requires kept { v < length held.now.memory.parents }
    requires room { length out.old < PAIRS_MAX }
    ensures found { IfOk result (λ seen. (f : Image) → Exposes (D.view disk.old) f
        → ((a : ArrayDesc)
        → asked_of_level held.now.memory.parents held.now.published.levels number v ≡ Some a
        → MayBeAsked f cache.old a)
        → TellsFound (filtered_says f held.now.filters held.now.memory.parents number v key.now
        (asked_of_level held.now.memory.parents held.now.published.levels number v))
        key.now out.old out.new seen) }
    ensures err { OnErr result (out.new ≡ out.old) }
    ensures len { IfOk result (λ seen. AddsPair out.old out.new seen) }
    ensures same { LooksThrough (D.view disk.old) (D.view disk.new)
        (arrays_there held.now.published.levels) cache.old cache.new }
    ensures damaged { (b : ℕ) → IsErrOf result (Damaged b)
        → NamesNoBlock (D.view disk.old).content (arrays_there held.now.published.levels) b }
    ensures cause { HasCause Device (D.faults disk.old) (D.faults disk.new) result }
    ensures reads { ReadsArrays (option_to_list
        (unrefused_of_level held.now.filters held.now.memory.parents held.now.published.levels
        number v key.now)) (D.reads disk.old) (D.reads disk.new) }
{
    let (_, _, tree) = held.memory.parts();
    let Some(desc) = held.published.levels.array_for(tree, number, v) else {
        return Ok(Seen::None);
    };
    if held.filters.refuses(number, desc.id, key) {
        return Ok(Seen::None);
    }
    find(disk, cache, desc, tree, key, v, scratch, out)
}

/// The entry that is live for a key at a version in the first of levels 1 to 22 that says something of it: a value's
/// pair is added to `out`. If the arrays that are asked are in order, and are cached as they stand on the disk, the
/// answer is exactly that, but that an array whose filter refuses the key says nothing of it. In each level one array is
/// asked at most, by what `find` does. A level without an array for the version costs O(log versions_max) and no read, and one
/// whose array is refused O(key) more. It takes no memory but for blocks that are cached. Device: the disk counted a fault.
/// Damaged: this block of one of the arrays is no block of entries.
pub(crate) fn get_from_levels<D: Disk>(
    disk: &mut D,
    cache: &mut Cache,
    held: &OpenStore,
    key: &[u8],
    v: Version,
    scratch: &mut Scratch,
    out: &mut PairBuf,
) -> Result<Seen, Fault>
    requires fits { MayBeFound (arrays_there held.now.published.levels) }
    requires kept { v < length held.now.memory.parents }
    requires room { length out.old < PAIRS_MAX }
    ensures found { IfOk result (λ seen. (f : Image) (next : ℕ) → Exposes (D.view disk.old) f
        → AreInOrder f (arrays_asked held.now.memory.parents held.now.published.levels v)
        → HaveOwnIds (arrays_there held.now.published.levels)
        → AreNumberedByPlace held.now.published.levels
        → AreCachedFrom f next
        (arrays_asked held.now.memory.parents held.now.published.levels v) cache.old
        → TellsFound (looked_up (on_disk_filtered f held.now.filters) held.now.memory.parents []
        (levels_there held.now.published.levels) v key.now) key.now out.old out.new seen) }
    ensures err { OnErr result (out.new ≡ out.old) }
    ensures len { IfOk result (λ seen. AddsPair out.old out.new seen) }
    ensures same { LooksThrough (D.view disk.old) (D.view disk.new)
        (arrays_there held.now.published.levels) cache.old cache.new }
    ensures kept { (f : Image) (next : ℕ) → Exposes (D.view disk.old) f
        → ((a : ArrayDesc) → Contains (arrays_there held.now.published.levels) a → a.id < next)
        → HaveOwnIds (arrays_there held.now.published.levels)
        → AreCachedFrom f next (arrays_there held.now.published.levels) cache.old
        → AreCachedFrom f next (arrays_there held.now.published.levels) cache.new }
    ensures damaged { (b : ℕ) → IsErrOf result (Damaged b)
        → NamesNoBlock (D.view disk.old).content (arrays_there held.now.published.levels) b }
    ensures cause { HasCause Device (D.faults disk.old) (D.faults disk.new) result }
    ensures reads { ReadsArrays
        (arrays_unrefused held.now.filters held.now.memory.parents held.now.published.levels
        v key.now) (D.reads disk.old) (D.reads disk.new) }
{
    // For the proof: there are 22 levels.
    let _first = held.published.levels.get(1);
    for above in 0..LEVELS {
        let seen = ask_level(disk, cache, held, above + 1, key, v, scratch, out)?;
        if decides(seen) {
            return Ok(seen);
        }
    }
    Ok(Seen::None)
}
