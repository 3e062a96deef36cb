//! Gates: a record counts only while the byte before it reads 0xa7. A gate is written alone, with a sync on either side.
ghost use Rattle.std.specs.Prelude.{◌≡◌, ◌≢◌, ◌≤◌, ◌<◌, ◌==◌, ℕ, ◌+◌, ◌^◌, [], ◌∷◌, Some, IfOk, OnOk};
ghost use Rattle.def_crash.specs.Faults.{CountsFaults, ReadsAtMost};
ghost use Rattle.def_crash.specs.Image.{Image};
ghost use Rattle.def_crash.specs.Moments.{Exposes, Passes, TearsOnly, KeepsImages, OnlyReads, WritesThrough};
ghost use Rattle.strat_gate.specs.Gates.{EndsShut};
ghost use Rattle.def_bytes.specs.Layout.{open_flag};

use def_bytes::OPEN;
use strat_base::Failed;
use strat_disk::{Disk, write_through};

/// Closes the gate at this byte: one write and one sync.
pub fn gate_shut<D: Disk>(disk: &mut D, at: u64) -> Result<(), Failed>
    requires { at < 2 ^ 44 }
    ensures ok { WritesThrough (D.view disk.old) (D.view disk.new) at (0 ∷ []) result }
    ensures cause { CountsFaults (D.faults disk.old) (D.faults disk.new) result }
    ensures reads { D.reads disk.new ≡ D.reads disk.old }
{
    write_through(disk, at, &[0])
}

/// Opens the gate at this byte: one write and one sync. What stands after it must be durable before.
pub fn gate_raise<D: Disk>(disk: &mut D, at: u64) -> Result<(), Failed>
    requires { at < 2 ^ 44 }
    ensures ok { WritesThrough (D.view disk.old) (D.view disk.new) at (open_flag ∷ []) result }
    ensures cause { CountsFaults (D.faults disk.old) (D.faults disk.new) result }
    ensures reads { D.reads disk.new ≡ D.reads disk.old }
{
    write_through(disk, at, &[OPEN])
}

/// Whether the gate at this byte is open: one read.
pub fn gate_up<D: Disk>(disk: &mut D, at: u64) -> Result<bool, Failed>
    requires { at < 2 ^ 44 }
    ensures ok { IfOk result (λ up. (f : Image) → Exposes (D.view disk.old) f
        → up ≡ (f at == open_flag)) }
    ensures same { OnlyReads (D.view disk.old) (D.view disk.new) }
    ensures cause { CountsFaults (D.faults disk.old) (D.faults disk.new) result }
    ensures reads { ReadsAtMost 1 (D.reads disk.old) (D.reads disk.new) }
{
    let mut byte = [0];
    disk.read_at(at, &mut byte)?;
    Ok(byte[0] == OPEN)
}

/// Closes the gate at this byte where it reads open, and writes nothing where it does not: a write over a closed gate
/// could leave it open after a crash.
pub fn gate_ensure_shut<D: Disk>(disk: &mut D, at: u64) -> Result<(), Failed>
    requires { at < 2 ^ 44 }
    ensures ok { OnOk result ((f : Image) → Exposes (D.view disk.old) f
        → EndsShut f at (D.view disk.old) (D.view disk.new)) }
    ensures same { (f : Image) → Exposes (D.view disk.old) f → f at ≢ open_flag
        → KeepsImages (D.view disk.old) (D.view disk.new) }
    ensures images { TearsOnly (D.view disk.old) (D.view disk.new) at 1 }
    ensures time { Passes (D.view disk.old) (D.view disk.new) }
    ensures cause { CountsFaults (D.faults disk.old) (D.faults disk.new) result }
    ensures reads { ReadsAtMost 1 (D.reads disk.old) (D.reads disk.new) }
{
    if gate_up(disk, at)? {
        gate_shut(disk, at)?;
    }
    Ok(())
}
