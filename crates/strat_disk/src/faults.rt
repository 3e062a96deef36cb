//! Counts of faults.
ghost use Rattle.std.specs.Prelude.{◌≡◌, ◌≤◌};
ghost use Rattle.def_crash.specs.Faults.{Rose, one_more};

use strat_base::Failed;

/// Counts a fault. The count stands still at the end of its type.
pub(crate) fn fault(faults: &mut u64) -> Failed
    ensures faults { (faults.new ≡ one_more faults.old) × Rose faults.old faults.new }
    ensures fits { faults.old ≤ faults.new }
{
    *faults = faults.saturating_add(1);
    Failed
}
