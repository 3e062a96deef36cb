//! What a check answers.

ghost use Rattle.std.specs.Prelude.{◌≡◌, ◌≢◌, ◌⊎◌, Ok, Some};
ghost use Rattle.def_crash.specs.Faults.{ReadsAtMost, Rose};
ghost use Rattle.def_crash.specs.Image.{Image};
ghost use Rattle.def_crash.specs.Moments.{Exposes, OnlyReads};
ghost use Rattle.def_check.specs.Checked.{checked};
ghost use Rattle.def_recovery.specs.Head.{Head};
ghost use Rattle.def_recovery.specs.Opening.{recover};
ghost use Rattle.strat_check.specs.Verdicts.{verdict_for, verdict_unread, verdict_told, reads_of_check, IsRight, VerdictHasCause};
ghost use Rattle.strat_check.specs.declared.verdict.Verdict.TheVariants as verdict;

use crate::places::Broken;
use crate::store_walk::check_store;
use std::alloc::Global;
use strat_base::Trouble;
use strat_disk::Disk;
use strat_open::{AttachFault, read_store};

/// What a check of a disk answers.
#[derive(Clone, Copy, Debug, PartialEq, Eq)]
pub enum Verdict {
    /// The store is sound.
    Sound,
    /// A rule, by its letter, is the first that is broken, by this level and this array, or 0 where it is no single one.
    Unsound { rule: u8, level: u8, array: u64 },
    /// The disk holds no store.
    NotAStore,
    /// The device failed.
    Device,
    /// This block is damaged.
    Damaged { block: u32 },
    /// Memory ran out.
    NoMemory,
}

/// The verdict on a store that could not be read.
fn of_unread(fault: AttachFault) -> Verdict
    ensures ok { result ≡ verdict_unread fault }
{
    match fault {
        AttachFault::NotAStore => Verdict::NotAStore,
        AttachFault::Device => Verdict::Device,
        AttachFault::Damaged { block } => Verdict::Damaged { block },
        AttachFault::NoMemory => Verdict::NoMemory,
    }
}

/// The verdict on a store whose arrays were gone through, by the first breach, if there is one, or by what stopped it.
fn of_told(told: Result<Option<Broken>, Trouble>) -> Verdict
    ensures ok { result ≡ verdict_told told }
{
    match told {
        Ok(None) => Verdict::Sound,
        Ok(Some(Broken { rule, level, array })) => Verdict::Unsound { rule, level, array },
        Err(Trouble::NoMemory) => Verdict::NoMemory,
        Err(Trouble::Device) => Verdict::Device,
        Err(Trouble::Damaged { block }) => Verdict::Damaged { block },
    }
}

/// Checks the store on a disk, and leaves the disk as it is.
///
/// - Sound: the bytes read as a sound state. Unsound: as one that breaks this rule first, in the order m, a to l, the shallowest
///   level first, its arrays in the manifest's order.
/// - Damaged: the block that recovery refuses, or else the first block of an array that holds no entries.
/// - NotAStore: no slot is open with the text of a store. Device: the disk counted a fault. NoMemory: it may come at any time.
///
/// It reads what `read_store` reads, and each block of an array three times at most. It takes the memory of `read_store`,
/// 136 bytes for each version, 24 for each array, the entries of one key, and one block, a key and the extents for each
/// array of one level. The time is linear in the entries, times a logarithm of versions and arrays, and linear in the
/// versions for each array. If rule f is broken, each key with a stray costs as much as the tag of its array has versions,
/// times the entries of the key in that array.
pub fn check<D: Disk>(alloc: Global, disk: &mut D) -> Verdict
    ensures ok { IsRight (D.view disk.old) result }
    ensures found { ¬ Rose (D.faults disk.old) (D.faults disk.new)
        → (f : Image) → Exposes (D.view disk.old) f
        → (result ≡ verdict_for (checked f)) ⊎ (result ≡ verdict.NoMemory) }
    ensures same { OnlyReads (D.view disk.old) (D.view disk.new) }
    ensures cause { VerdictHasCause result (D.faults disk.old) (D.faults disk.new) }
    ensures reads { ReadsAtMost 101715479 (D.reads disk.old) (D.reads disk.new)
        × ((f : Image) (h : Head) → Exposes (D.view disk.old) f → recover f ≡ Ok (Some h)
        → result ≢ verdict.NoMemory → result ≢ verdict.Device
        → ReadsAtMost (reads_of_check h) (D.reads disk.old) (D.reads disk.new)) }
{
    let store = match read_store(alloc, disk) {
        Ok(store) => store,
        Err(fault) => return of_unread(fault),
    };
    let told = check_store(alloc, &store, disk);
    of_told(told)
}
