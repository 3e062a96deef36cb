//! What each version sees of an array, counted by itself.

ghost use Rattle.std.specs.Prelude.{◌≡◌, ℕ, false, List, [], length, Some, IfOk, OnOk, IsErrOf, IsTrue};
ghost use Rattle.strat_array.specs.Within.{AreWithin};
ghost use Rattle.strat_base.specs.Entries.{Entry, is_ascending};
ghost use Rattle.strat_base.specs.declared.failures.Trouble.TheVariants.{Damaged, Device};
ghost use Rattle.def_bytes.specs.Arrays.{blocks_of, entries_on};
ghost use Rattle.def_crash.specs.Faults.{HasCause, ReadsAtMost};
ghost use Rattle.def_crash.specs.Image.{Image};
ghost use Rattle.def_crash.specs.Moments.{Exposes, OnlyReads};
ghost use Rattle.strat_tree.specs.Preorder.{IsPreorder};
ghost use Rattle.strat_promote.specs.Leads.{misfit_in};
ghost use Rattle.strat_check.specs.ArrayCounts.{IsSightOf};
ghost use Rattle.strat_check.specs.Sightings.{IsSighting};

use crate::key_walk::{KeyVersions, walk};
use crate::marked_run::MarkedRun;
use crate::sights::Sights;
use std::alloc::Global;
use strat_base::{ArrayDesc, Trouble};
use strat_disk::Disk;
use strat_tree::Tree;

/// Adds the entries of an array, of versions below the number of versions, to sights of none, key by key, and sums up what
/// each version sees. Errors as of `count_array`.
fn count_entries<D: Disk>(
    alloc: Global,
    desc: &ArrayDesc,
    tree: &Tree,
    sights: &mut Sights,
    disk: &mut D,
) -> Result<bool, Trouble>
    requires fits { AreWithin desc.now.extents }
    requires len { length sights.old.own ≡ length tree.now.parents }
    ensures ok { IfOk result (λ whole. IsTrue whole → (f : Image) (content : List Entry)
        → Exposes (D.view disk.old) f → entries_on f (blocks_of desc.now.extents) ≡ Some content
        → IsTrue (is_ascending content) → IsSighting tree.now.parents [] sights.old
        → IsSightOf tree.now.parents content sights.new) }
    ensures none { IfOk result (λ whole. whole ≡ false → (f : Image) (content : List Entry)
        → Exposes (D.view disk.old) f → entries_on f (blocks_of desc.now.extents) ≡ Some content
        → IsTrue (is_ascending content) → ⊥) }
    ensures len { length sights.new.own ≡ length sights.old.own }
    ensures state { sights.new.order ≡ sights.old.order }
    ensures damaged { (b : ℕ) → IsErrOf result (Damaged b)
        → (f : Image) → Exposes (D.view disk.old) f → misfit_in f desc.now ≡ Some b }
    ensures same { OnlyReads (D.view disk.old) (D.view disk.new) }
    ensures cause { HasCause Device (D.faults disk.old) (D.faults disk.new) result }
    ensures reads { ReadsAtMost (length (blocks_of desc.now.extents))
        (D.reads disk.old) (D.reads disk.new) }
{
    let mut run = MarkedRun::open(alloc, disk, desc, 0, tree.count())?;
    let mut group = KeyVersions::new(alloc);
    walk(&mut run, &mut group, tree, sights, disk)
}

/// Counts what each version sees of an array, all of whose entries ascend: each block is read once, and no value is looked
/// at. O(versions), and for each entry O(log versions) comparisons. Takes a block, two keys and the versions of a key.
/// Device: the disk counted a fault. Damaged: this block of the array holds no entries, or none that come after those before
/// it.
pub fn count_array<D: Disk>(
    alloc: Global,
    desc: &ArrayDesc,
    tree: &Tree,
    sights: &mut Sights,
    disk: &mut D,
) -> Result<(), Trouble>
    requires fits { AreWithin desc.now.extents }
    requires len { (length sights.old.own ≡ length tree.now.parents)
        × IsPreorder (length tree.now.parents) tree.now.parents sights.old.order }
    ensures ok { OnOk result ((f : Image) (content : List Entry) → Exposes (D.view disk.old) f
        → entries_on f (blocks_of desc.now.extents) ≡ Some content
        → IsTrue (is_ascending content) → IsSightOf tree.now.parents content sights.new) }
    ensures len { length sights.new.own ≡ length sights.old.own }
    ensures state { sights.new.order ≡ sights.old.order }
    ensures damaged { (b : ℕ) → IsErrOf result (Damaged b)
        → (f : Image) → Exposes (D.view disk.old) f → misfit_in f desc.now ≡ Some b }
    ensures same { OnlyReads (D.view disk.old) (D.view disk.new) }
    ensures cause { HasCause Device (D.faults disk.old) (D.faults disk.new) result }
    ensures reads { ReadsAtMost (length (blocks_of desc.now.extents))
        (D.reads disk.old) (D.reads disk.new) }
{
    sights.clear();
    if count_entries(alloc, desc, tree, sights, disk)? {
        return Ok(());
    }
    // The blocks of an array have fewer entries, so this is not reached.
    Err(Trouble::NoMemory)
}
