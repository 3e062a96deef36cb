//! Making a new store, and saying so.

ghost use Rattle.std.specs.Prelude.{◌≡◌, ◌≢◌, ℕ, List, Option, IfOk, string_bytes};
ghost use Rattle.def_bytes.specs.SuperBlock.{AreLimits};
ghost use Rattle.def_crash.specs.Image.{Image};
ghost use Rattle.def_crash.specs.Moments.{Exposes, Since, Passes};
ghost use Rattle.strat_open.specs.Format.{IsNewDisk, IsBlank, IsNoneOrNew, KeepsOthers};
ghost use Rattle.strat_loop.specs.Session.{EndHasCause};
ghost use Rattle.strat_loop.specs.World.{world};
ghost use Rattle.castle.specs.Outcomes.{SendsLine, Formats, format_text};

use std::alloc::{AllocError, Global};
use strat_base::Failed;
use strat_disk::Disk;
use strat_io::{Sink, put_all};
use strat_model::Ended;
use strat_store::{FormatFault, format};

/// The line that says what was made.
fn line_for(
    alloc: Global,
    mem: u32,
    changes_max: u32,
    versions_max: u32,
) -> Result<String, AllocError>
    ensures { IfOk result (λ s. string_bytes s ≡ format_text mem changes_max versions_max) }
{
    format!(in alloc; "format 2 mem {mem} changes {changes_max} versions {versions_max}\n")
}

/// Makes a new store in format 2 and says so. The memory for the line is taken before the disk is touched.
pub fn make_store<K: Sink, D: Disk>(
    alloc: Global,
    sink: &mut K,
    disk: &mut D,
    mem: u32,
    changes_max: u32,
    versions_max: u32,
) -> Ended
    requires fits { AreLimits mem changes_max versions_max }
    ensures ok { SendsLine result (K.held sink.old) (K.held sink.new)
        (format_text mem changes_max versions_max) }
    ensures found { Formats result → (f : Image) → Exposes (D.view disk.old) f
        → IsNewDisk 2 mem changes_max versions_max (D.view disk.new) }
    ensures images { (f : Image) → Exposes (D.view disk.old) f → IsBlank (D.view disk.old)
        → (c : Image) → Since (D.view disk.new) (D.view disk.old).moment c
        → IsNoneOrNew 2 mem changes_max versions_max c }
    ensures kept { KeepsOthers mem (D.view disk.old) (D.view disk.new) }
    ensures time { Passes (D.view disk.old) (D.view disk.new) }
    ensures cause { (left : Option (List ℕ)) (source_faults : ℕ) → EndHasCause result
        (world left source_faults (K.held sink.old) (K.faults sink.old)
        (D.view disk.old) (D.faults disk.old))
        (world left source_faults (K.held sink.new) (K.faults sink.new)
        (D.view disk.new) (D.faults disk.new)) }
    ensures faults { result ≢ Ended.Device → D.faults disk.new ≡ D.faults disk.old }
    ensures same { result ≡ Ended.NoMemory
        → (sink.new ≡ sink.old) × (disk.new ≡ disk.old) }
{
    let Ok(line) = line_for(alloc, mem, changes_max, versions_max) else {
        return Ended::NoMemory;
    };
    match format(alloc, disk, 2, mem, changes_max, versions_max) {
        Ok(()) => {}
        Err(FormatFault::NoMemory) => return Ended::NoMemory,
        Err(FormatFault::Device) => return Ended::Device,
    }
    match put_all(sink, line.as_bytes()) {
        Ok(()) => Ended::Done,
        Err(Failed) => Ended::Sink,
    }
}
