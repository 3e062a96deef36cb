//! The manifest of a new store, as formatting writes it: nothing was changed or written, the first array
//! will be number 1, there is one version, which is living, and no level.

ghost use Rattle.std.specs.Prelude.{◌≡◌, ◌≤◌, ◌*◌};
ghost use Rattle.def_crash.specs.Faults.{CountsFaults};
ghost use Rattle.def_crash.specs.Moments.{WritesThrough};
ghost use Rattle.def_bytes.specs.SuperBlock.{zeros};
ghost use Rattle.strat_open.specs.Format.{new_block};
ghost use Rattle.def_bytes.specs.Layout.{first_free};

use def_bytes::first_free;
use strat_base::limits::BLOCK;
use strat_base::{Failed, put_u32, put_u64};
use strat_disk::{Disk, write_through};
use strat_gate::SuperBlock;

/// Spells the manifest's block in format 1 into one of zeros.
fn spell_first(into: &mut [u8])
    requires { into.old ≡ zeros 4096 }
    ensures { into.new ≡ new_block 1 }
{
    put_u64(into, 20, 1);
    put_u32(into, 28, 1);
}

/// Spells the manifest's block in format 2 into one of zeros.
fn spell_second(into: &mut [u8])
    requires { into.old ≡ zeros 4096 }
    ensures { into.new ≡ new_block 2 }
{
    put_u64(into, 28, 1);
    put_u32(into, 36, 1);
}

/// Spells the manifest's block in a format into one of zeros.
fn spell(format: u16, into: &mut [u8])
    requires fits { (1 ≤ format) × (format ≤ 2) }
    requires none { into.old ≡ zeros 4096 }
    ensures ok { into.new ≡ new_block format }
{
    if format == 1 {
        spell_first(into);
    } else {
        spell_second(into);
    }
}

/// Writes the manifest of a new store into its block and syncs.
pub fn write_manifest<D: Disk>(disk: &mut D, format: u16, mem: u32) -> Result<(), Failed>
    requires fits { (1 ≤ format) × (format ≤ 2) × (mem ≤ 4096) }
    ensures ok { WritesThrough (D.view disk.old) (D.view disk.new)
        (4096 * first_free mem) (new_block format) result }
    ensures cause { CountsFaults (D.faults disk.old) (D.faults disk.new) result }
{
    let mut block = [0; BLOCK];
    spell(format, &mut block);
    write_through(disk, BLOCK as u64 * u64::from(first_free(mem)), &block)
}
