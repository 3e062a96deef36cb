//! Making a new store.

ghost use Rattle.std.specs.Prelude.{◌≡◌, ◌≢◌, ◌≤◌, OnOk, IsErrOf};
ghost use Rattle.def_crash.specs.Faults.{CountsFaults, HasCause};
ghost use Rattle.def_crash.specs.Image.{Image};
ghost use Rattle.def_crash.specs.Moments.{Exposes, Since, Passes};
ghost use Rattle.def_bytes.specs.SuperBlock.{AreLimits};
ghost use Rattle.strat_open.specs.declared.formatting.FormatFault.TheVariants as fault;
ghost use Rattle.strat_open.specs.Format.{IsNewDisk, IsBlank, IsShut, IsNoneOrNew, KeepsOthers};
ghost use Rattle.def_bytes.specs.Layout.{open_flag};

use crate::new_manifest::write_manifest;
use def_bytes::{first_free, region_at, shortest_manifest};
use std::alloc::Global;
use strat_base::Failed;
use strat_base::limits::BLOCK;
use strat_disk::Disk;
use strat_gate::{SuperBlock, gate_ensure_shut, lay};
use thiserror::Error;

/// Shuts both superblock slots and the first gates of both journal regions, where they read open.
fn shut_all<D: Disk>(disk: &mut D, mem: u32) -> Result<(), Failed>
    requires { mem ≤ 4096 }
    ensures ok { OnOk result ((f : Image) → Exposes (D.view disk.old) f
        → IsShut mem (D.view disk.new)) }
    ensures images { (f : Image) → Exposes (D.view disk.old) f → IsBlank (D.view disk.old)
        → (c : Image) → Since (D.view disk.new) (D.view disk.old).moment c
        → (c 0 ≢ open_flag) × (c 4096 ≢ open_flag) }
    ensures kept { KeepsOthers mem (D.view disk.old) (D.view disk.new) }
    ensures time { Passes (D.view disk.old) (D.view disk.new) }
    ensures cause { CountsFaults (D.faults disk.old) (D.faults disk.new) result }
{
    gate_ensure_shut(disk, 0)?;
    gate_ensure_shut(disk, BLOCK as u64)?;
    gate_ensure_shut(disk, region_at(mem, 0))?;
    gate_ensure_shut(disk, region_at(mem, 1))?;
    Ok(())
}

/// Why a store could not be made.
#[derive(Clone, Copy, Debug, PartialEq, Eq, Error)]
pub enum FormatFault {
    /// Memory ran out, before the disk was touched. So far no formatting takes memory.
    #[error("out of memory")]
    NoMemory,
    /// The disk failed.
    #[error("the device failed")]
    Device,
}

impl From<Failed> for FormatFault {
    ghost use Rattle.strat_open.specs.declared.formatting.FormatFault.TheVariants as fault;

    ghost from_gives = { λ _ e. e ≡ fault.Device };

    fn from(_: Failed) -> FormatFault {
        FormatFault::Device
    }
}

/// Makes a new store in a format, with so many changes per journal region, and so many changes and versions at
/// most, whatever the disk had: five reads at most, and eight writes at most, each with a sync. The
/// manifest of a new store fits a buffer on the stack, so no memory is taken. After an error
/// nothing is said of the disk until it is formatted again; but one whose two slots were shut is
/// then still no store, or the whole of the new one.
pub fn format<D: Disk>(
    _alloc: Global,
    disk: &mut D,
    format: u16,
    mem: u32,
    changes_max: u32,
    versions_max: u32,
) -> Result<(), FormatFault>
    requires fits { (1 ≤ format) × (format ≤ 2) × AreLimits mem changes_max versions_max }
    ensures ok { OnOk result ((f : Image) → Exposes (D.view disk.old) f
        → IsNewDisk format mem changes_max versions_max (D.view disk.new)) }
    ensures images { (f : Image) → Exposes (D.view disk.old) f → IsBlank (D.view disk.old)
        → (c : Image) → Since (D.view disk.new) (D.view disk.old).moment c
        → IsNoneOrNew format mem changes_max versions_max c }
    ensures kept { KeepsOthers mem (D.view disk.old) (D.view disk.new) }
    ensures same { IsErrOf result fault.NoMemory → disk.new ≡ disk.old }
    ensures time { Passes (D.view disk.old) (D.view disk.new) }
    ensures cause { HasCause fault.Device (D.faults disk.old) (D.faults disk.new) result }
{
    shut_all(disk, mem)?;
    write_manifest(disk, format, mem)?;
    let sb = SuperBlock {
        format,
        generation: 1,
        manifest: first_free(mem),
        length: shortest_manifest(format),
        region: 0,
        mem,
        changes_max,
        versions_max,
    };
    lay(disk, 0, &sb)?;
    Ok(())
}
