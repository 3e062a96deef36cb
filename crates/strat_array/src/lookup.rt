//! The look-up of a key at a version in one array.

ghost use Rattle.std.specs.List.{find, list_all};
ghost use Rattle.std.specs.Prelude.{◌≡◌, ◌<◌, ◌+◌, ◌^◌, ℕ, List, length, None, IfOk, OnErr, IsErrOf, IsTrue};
ghost use Rattle.strat_base.specs.Entries.{Entry as TheEntry, is_ascending};
ghost use Rattle.strat_base.specs.EntryBytes.{fits_fields};
ghost use Rattle.strat_base.specs.EntryView.{entry_of};
ghost use Rattle.strat_base.specs.Tree.{is_ancestor};
ghost use Rattle.strat_base.specs.declared.failures.Fault.TheVariants.{Damaged, Device};
ghost use Rattle.strat_base.specs.declared.limits.TheConstants.{PAIRS_MAX};
ghost use Rattle.def_crash.specs.Faults.{HasCause, ReadsAtMost};
ghost use Rattle.def_bytes.specs.Arrays.{blocks_of};
ghost use Rattle.def_state.specs.Reading.{live_of};
ghost use Rattle.strat_array.specs.Told.{TellsFound, AddsPair, Judges, Tells};
ghost use Rattle.strat_array.specs.Kept.{Looks, ArrayStands};
ghost use Rattle.strat_array.specs.Left.{all_in, is_from};
ghost use Rattle.strat_array.specs.Steps.{blocks_ahead, left_from};
ghost use Rattle.strat_array.specs.Walk.{is_seen_at};
ghost use Rattle.strat_array.specs.Within.{AreWithin, IsNoBlock};

use crate::cache::Cache;
use crate::place::Place;
use crate::scratch::Scratch;
use crate::search::seek;
use crate::seen::Seen;
use crate::walk::first_place_from;
use strat_base::{ArrayDesc, Entry, Fault, PairBuf, Val, Version};
use strat_disk::Disk;
use strat_tree::Tree;

/// Says what an entry says, and adds the pair of a value.
fn tell(entry: &Entry<'_>, out: &mut PairBuf) -> Seen
    requires fits { IsTrue (fits_fields (entry_of entry.now)) }
    requires room { length out.old < PAIRS_MAX }
    ensures ok { Tells (entry_of entry.now) out.old out.new result }
{
    match entry.val {
        Val::Gone => Seen::Gone,
        Val::Put(value) => {
            out.push(entry.key, value);
            Seen::Put
        }
    }
}

/// Whether u is v or an ancestor of v, whatever number u is: a disk may say anything.
#[tactic(auto, using(crate::proofs::WalkLemmas::past_is_off))]
fn is_on_path(tree: &Tree, u: Version, v: Version) -> bool
    requires { v < length tree.now.parents }
    ensures ok { result ≡ is_ancestor tree.now.parents u v }
{
    u < tree.count() && tree.is_ancestor(u, v)
}

/// What an entry says of a key at a version, or `None` where the next one has to be asked.
fn judge(entry: &Entry<'_>, tree: &Tree, key: &[u8], v: Version, out: &mut PairBuf) -> Option<Seen>
    requires kept { v < length tree.now.parents }
    requires fits { IsTrue (fits_fields (entry_of entry.now)) }
    requires room { length out.old < PAIRS_MAX }
    ensures ok { Judges tree.now.parents key.now v (entry_of entry.now) out.old out.new result }
{
    if entry.key != key {
        return Some(Seen::None);
    }
    if !is_on_path(tree, entry.version, v) {
        return None;
    }
    Some(tell(entry, out))
}

/// What the first entry of a key from a place on says that is at a version or one of its ancestors.
fn live_from<D: Disk>(
    disk: &mut D,
    cache: &mut Cache,
    desc: &ArrayDesc,
    tree: &Tree,
    key: &[u8],
    v: Version,
    place: Place,
    scratch: &mut Scratch,
    out: &mut PairBuf,
) -> Result<Seen, Fault>
    requires fits { AreWithin desc.now.extents }
    requires kept { v < length tree.now.parents }
    requires room { length out.old < PAIRS_MAX }
    ensures found { IfOk result (λ seen. (lists : List (List TheEntry))
        → ArrayStands (D.view disk.old).content desc.now.id (blocks_of desc.now.extents)
        cache.old scratch.old lists
        → IsTrue (is_ascending (left_from lists place))
        → IsTrue (list_all (is_from key.now) (left_from lists place))
        → TellsFound (find (is_seen_at tree.now.parents key.now v) (left_from lists place))
        key.now out.old out.new seen) }
    ensures err { OnErr result (out.new ≡ out.old) }
    ensures len { IfOk result (λ seen. AddsPair out.old out.new seen) }
    ensures same { Looks (D.view disk.old) (D.view disk.new)
        desc.now.id (blocks_of desc.now.extents) cache.old cache.new scratch.old scratch.new }
    ensures damaged { (b : ℕ) → IsErrOf result (Damaged b)
        → IsNoBlock (D.view disk.old).content (blocks_of desc.now.extents) b }
    ensures cause { HasCause Device (D.faults disk.old) (D.faults disk.new) result }
    ensures reads { ReadsAtMost
        (blocks_ahead scratch.old desc.now.id (length (blocks_of desc.now.extents)) place)
        (D.reads disk.old) (D.reads disk.new) }
{
    let mut place = place;
    while let Some(at) = first_place_from(disk, cache, desc, place, scratch)? {
        let entry = scratch.entry(at.index);
        if let Some(seen) = judge(&entry, tree, key, v, out) {
            return Ok(seen);
        }
        place = at.next();
    }
    Ok(Seen::None)
}

/// The entry of an array that is live for a key at a version: a value's pair is added to `out`. Where each of the
/// array's blocks is one of entries, and they ascend, the answer is exactly that. O(log blocks) blocks are looked at,
/// each with O(extents) steps, then O(log entries) entries of one block, and then the entries of the key, the newest
/// first, until one is of the version or an ancestor of it. It takes no memory but for blocks that are cached, and
/// does without where there is none. Device: the disk counted a fault. Damaged: this block of the array is no block
/// of entries.
pub fn find<D: Disk>(
    disk: &mut D,
    cache: &mut Cache,
    desc: &ArrayDesc,
    tree: &Tree,
    key: &[u8],
    v: Version,
    scratch: &mut Scratch,
    out: &mut PairBuf,
) -> Result<Seen, Fault>
    requires fits { AreWithin desc.now.extents }
    requires kept { v < length tree.now.parents }
    requires room { length out.old < PAIRS_MAX }
    ensures found { IfOk result (λ seen. (lists : List (List TheEntry))
        → ArrayStands (D.view disk.old).content desc.now.id (blocks_of desc.now.extents)
        cache.old None lists
        → IsTrue (is_ascending (all_in lists))
        → TellsFound (live_of tree.now.parents (all_in lists) v key.now)
        key.now out.old out.new seen) }
    ensures err { OnErr result (out.new ≡ out.old) }
    ensures len { IfOk result (λ seen. AddsPair out.old out.new seen) }
    ensures same { Looks (D.view disk.old) (D.view disk.new)
        desc.now.id (blocks_of desc.now.extents) cache.old cache.new None scratch.new }
    ensures damaged { (b : ℕ) → IsErrOf result (Damaged b)
        → IsNoBlock (D.view disk.old).content (blocks_of desc.now.extents) b }
    ensures cause { HasCause Device (D.faults disk.old) (D.faults disk.new) result }
    ensures reads { (n : ℕ) → length (blocks_of desc.now.extents) < 2 ^ n
        → ReadsAtMost (n + 4 + length (blocks_of desc.now.extents))
        (D.reads disk.old) (D.reads disk.new) }
{
    // For the proof: the parents are a tree.
    let _versions = tree.count();
    let place = seek(disk, cache, desc, key, scratch)?;
    live_from(disk, cache, desc, tree, key, v, place, scratch, out)
}
