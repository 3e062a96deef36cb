//! Bytes that count all together, once the gate before them is open.

ghost use Rattle.std.specs.Prelude.{◌≡◌, ◌≤◌, ◌+◌, ◌^◌, length};
ghost use Rattle.def_crash.specs.Faults.{CountsFaults};
ghost use Rattle.def_crash.specs.Moments.{WritesThrough};
ghost use Rattle.strat_gate.specs.Raising.{Raises};

use crate::gate::gate_raise;
use strat_base::Failed;
use strat_disk::{Disk, write_through};

/// Writes bytes after a closed gate and, once they are durable, opens the gate: two writes and two syncs.
/// From then on the bytes count all together. After an error a crash may leave any bytes there, and the gate open
/// only where they all are.
pub fn gate_commit<D: Disk>(disk: &mut D, gate: u64, bytes: &[u8]) -> Result<(), Failed>
    requires { gate + 1 + length bytes.now ≤ 2 ^ 44 }
    ensures ok { Raises (D.view disk.old) (D.view disk.new) gate bytes.now result }
    ensures cause { CountsFaults (D.faults disk.old) (D.faults disk.new) result }
    ensures reads { D.reads disk.new ≡ D.reads disk.old }
{
    write_after(disk, gate, bytes)?;
    gate_raise(disk, gate)?;
    Ok(())
}

/// Writes bytes after a gate and syncs.
// For the proof: no proof file cites its steps, so wrong bodies of it are refused for what they do.
fn write_after<D: Disk>(disk: &mut D, gate: u64, bytes: &[u8]) -> Result<(), Failed>
    requires { gate + 1 + length bytes.now ≤ 2 ^ 44 }
    ensures ok { WritesThrough (D.view disk.old) (D.view disk.new) (gate + 1) bytes.now result }
    ensures cause { CountsFaults (D.faults disk.old) (D.faults disk.new) result }
    ensures reads { D.reads disk.new ≡ D.reads disk.old }
{
    write_through(disk, gate + 1, bytes)
}
