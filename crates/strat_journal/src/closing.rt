//! Closing a region before the journal goes on in the other one.

ghost use Rattle.std.specs.Prelude.{◌≡◌, ◌≢◌, ◌≤◌, ◌<◌, ℕ, List, length, Some, Ok, OnOk};
ghost use Rattle.def_crash.specs.Faults.{CountsFaults, ReadsAtMost};
ghost use Rattle.def_crash.specs.Image.{Image};
ghost use Rattle.def_bytes.specs.Layout as places;
ghost use Rattle.def_crash.specs.Moments.{Exposes, Images, Since, Passes, TearsOnly, KeepsImages, IsDurable};
ghost use Rattle.strat_gate.specs.Gates.{EndsShut};
ghost use Rattle.def_bytes.specs.Records.{Logged, journal_of};
ghost use Rattle.def_bytes.specs.Layout.{IsRegion, open_flag};

use def_bytes::region_at;
use strat_base::Failed;
use strat_disk::Disk;
use strat_gate::gate_ensure_shut;

/// Shuts a region's first gate where it reads open, and writes nothing where it does not: at most one read,
/// one write and one sync. The region should not be the active one.
pub fn close_region<D: Disk>(disk: &mut D, mem: u32, region: u8) -> Result<(), Failed>
    requires fits { (4 ≤ mem) × IsRegion mem region }
    ensures kept { (logged : List Logged) → length logged < mem
        → ((c : Image) → Images (D.view disk.old) c
        → journal_of c mem (places.other_region region) ≡ Ok logged)
        → (c : Image) → Since (D.view disk.new) (D.view disk.old).moment c
        → journal_of c mem (places.other_region region) ≡ Ok logged }
    ensures durable { OnOk result ((f : Image) → Exposes (D.view disk.old) f
        → IsDurable (D.view disk.old) → (c : Image) → Images (D.view disk.new) c
        → c (places.region_at mem region) ≢ open_flag) }
    ensures ok { OnOk result ((f : Image) → Exposes (D.view disk.old) f
        → EndsShut f (places.region_at mem region) (D.view disk.old) (D.view disk.new)) }
    ensures images { TearsOnly (D.view disk.old) (D.view disk.new) (places.region_at mem region) 1 }
    ensures same { (f : Image) → Exposes (D.view disk.old) f
        → f (places.region_at mem region) ≢ open_flag
        → KeepsImages (D.view disk.old) (D.view disk.new) }
    ensures time { Passes (D.view disk.old) (D.view disk.new) }
    ensures cause { CountsFaults (D.faults disk.old) (D.faults disk.new) result }
    ensures reads { ReadsAtMost 1 (D.reads disk.old) (D.reads disk.new) }
{
    gate_ensure_shut(disk, region_at(mem, region))?;
    Ok(())
}
