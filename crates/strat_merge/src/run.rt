//! A run of entries in order, which may lie on a disk.

ghost use Rattle.std.specs.List.{Contains};
ghost use Rattle.std.specs.Prelude.{◌≡◌, ◌<◌, ℕ, Some, option_map, IsSome, IfSome, IsErrOf, OnOk, IsTrue};
ghost use Rattle.strat_base.specs.EntryBytes.{fits_fields};
ghost use Rattle.strat_base.specs.EntryView.{entry_of};
ghost use Rattle.strat_base.specs.declared.failures.Fault.TheVariants.{Damaged, Device};
ghost use Rattle.def_crash.specs.Faults.{HasCause};
ghost use Rattle.def_crash.specs.Image.{Image};
ghost use Rattle.def_crash.specs.Moments.{Exposes, OnlyReads};
ghost use Rattle.strat_merge.specs.Runs.{RunView, IsEntryRun, Advances, ReadsFront};

use strat_base::{Entry, Fault};
use strat_disk::Disk;

/// Entries in strictly ascending order, of which the first is in memory. The others may lie on a disk,
/// in blocks that are read one after another; what is left stays the same while these blocks do,
/// whatever is written elsewhere.
pub trait Run<D: Disk> {
    /// What it has left, and the blocks that it has still to read.
    ghost view: { Self → RunView };

    /// The first entry that is left, or `None` at the end. O(1), and nothing is read.
    fn peek(&self) -> Option<Entry<'_>>
        ensures ok { option_map entry_of result ≡ (view self.now).first }
        ensures fits { IfSome result (λ e. IsTrue (fits_fields (entry_of e))) }
        ensures room { IfSome result (λ e. e.version < (view self.now).versions) };

    /// Passes over the first entry, and reads the block of the next where it is not at hand. `Device`
    /// comes only where the disk failed, and `Damaged` names a block that was still to be read and is bad.
    /// After an error the run is spent.
    fn advance(&mut self, disk: &mut D) -> Result<(), Fault>
        requires { IsSome (view self.old).first }
        ensures ok { OnOk result (Advances (D.view disk.old) (view self.old) (view self.new)) }
        ensures same { OnlyReads (D.view disk.old) (D.view disk.new) }
        ensures cause { HasCause Device (D.faults disk.old) (D.faults disk.new) result }
        ensures damaged { (b : ℕ) → IsErrOf result (Damaged b) → Contains (view self.old).blocks b }
        ensures err { (b : ℕ) → IsErrOf result (Damaged b) → (c : Image)
            → Exposes (D.view disk.old) c → (view self.old).misfit c ≡ Some b }
        ensures kept { (c : Image) (b : ℕ) → Exposes (D.view disk.old) c
            → (view self.new).misfit c ≡ Some b → (view self.old).misfit c ≡ Some b }
        ensures reads { ReadsFront (view self.old).blocks (view self.new).blocks
            (D.reads disk.old) (D.reads disk.new) };

    /// What holds of every run.
    ghost leaves_run: { (r : Self) → IsEntryRun (view r) };
}
