//! The two slots of a store's superblocks, blocks 0 and 1: the newest is read from them, and the next is laid into the other.
ghost use Rattle.std.specs.Prelude.{◌≡◌, ◌≤◌, ◌<◌, ◌*◌, ◌+◌, ◌^◌, ◌∷◌, ℕ, Some, IfSome, IfOk, IfErr, OnOk, length};
ghost use Rattle.def_crash.specs.Faults.{CountsFaults, HasCause, ReadsAtMost};
ghost use Rattle.def_crash.specs.Image.{Image, patch};
ghost use Rattle.def_crash.specs.Moments.{Exposes, Images, Since, Passes, TearsOnly, OnlyReads, IsDurable, WritesThrough};
ghost use Rattle.def_bytes.specs.SuperBlock.{IsLawful, body, slot_in, newer, verdict, newest_in};
ghost use Rattle.strat_base.specs.declared.failures.Fault.TheVariants.{Damaged, Device};
ghost use Rattle.strat_gate.specs.SuperView.{super_of, seen, slot_seen};
ghost use Rattle.strat_gate.specs.Laying.{LaysOver, OldOrNew};
ghost use Rattle.def_bytes.specs.Layout.{open_flag};

use crate::gate::{gate_ensure_shut, gate_raise};
use crate::superblock::{SuperBlock, is_in_range, parse, spell};
use strat_base::{Failed, Fault};
use strat_disk::{Disk, write_through};

/// The newest superblock with its slot, or nothing where no slot is open with the magic: two reads of 40 bytes.
/// Of two open slots the one of greater generation counts, at a tie the first; where its fields are out of range, its
/// block is damaged.
pub fn newest<D: Disk>(disk: &mut D) -> Result<Option<(u8, SuperBlock)>, Fault>
    ensures fits { IfOk result (λ r. IfSome r (λ x. (x.0 < 2) × IsLawful (super_of x.1))) }
    ensures found { IfOk result (λ r. (f : Image) → Exposes (D.view disk.old) f
        → newest_in f ≡ Ok (seen r)) }
    ensures damaged { IfErr result (λ e. (block : ℕ) → e ≡ Damaged block
        → (f : Image) → Exposes (D.view disk.old) f → newest_in f ≡ Err block) }
    ensures cause { HasCause Device (D.faults disk.old) (D.faults disk.new) result }
    ensures same { OnlyReads (D.view disk.old) (D.view disk.new) }
    ensures reads { ReadsAtMost 2 (D.reads disk.old) (D.reads disk.new) }
{
    let Ok(first) = read_slot(disk, 0) else {
        return Err(Fault::Device);
    };
    let Ok(second) = read_slot(disk, 4096) else {
        return Err(Fault::Device);
    };
    choose(first, second)
}

fn read_slot<D: Disk>(disk: &mut D, at: u64) -> Result<Option<SuperBlock>, Failed>
    requires { at ≤ 4096 }
    ensures ok { IfOk result (λ r. (f : Image) → Exposes (D.view disk.old) f
        → slot_in f at ≡ slot_seen r) }
    ensures same { OnlyReads (D.view disk.old) (D.view disk.new) }
    ensures cause { CountsFaults (D.faults disk.old) (D.faults disk.new) result }
    ensures reads { ReadsAtMost 1 (D.reads disk.old) (D.reads disk.new) }
{
    let mut bytes = [0; 40];
    disk.read_at(at, &mut bytes)?;
    Ok(parse(&bytes))
}

fn choose(
    first: Option<SuperBlock>,
    second: Option<SuperBlock>,
) -> Result<Option<(u8, SuperBlock)>, Fault>
    ensures fits { IfOk result (λ r. IfSome r (λ x. (x.0 < 2) × IsLawful (super_of x.1))) }
    ensures found { IfOk result (λ r. verdict (newer (slot_seen first) (slot_seen second))
        ≡ Ok (seen r)) }
    ensures damaged { IfErr result (λ e. (block : ℕ) × (e ≡ Damaged block)
        × (verdict (newer (slot_seen first) (slot_seen second)) ≡ Err block)) }
{
    let (slot, sb) = match (first, second) {
        (None, None) => return Ok(None),
        (Some(sb), None) => (0, sb),
        (None, Some(sb)) => (1, sb),
        (Some(sb), Some(other)) if sb.generation < other.generation => (1, other),
        (Some(sb), Some(_)) => (0, sb),
    };
    if !is_in_range(&sb) {
        return Err(Fault::Damaged {
            block: u32::from(slot),
        });
    }
    Ok(Some((slot, sb)))
}

/// Lays a superblock into a slot: three writes and three syncs at most. The slot should not be that of the newest, and
/// the generation should be greater than the newest's: then a crash at any moment leaves the newest as it was or this one.
pub fn lay<D: Disk>(disk: &mut D, slot: u8, sb: &SuperBlock) -> Result<(), Failed>
    requires fits { (slot < 2) × IsLawful (super_of sb.now) }
    ensures trail { (f : Image) → LaysOver (D.view disk.old) f slot (super_of sb.now)
        → (c : Image) → Since (D.view disk.new) (D.view disk.old).moment c
        → OldOrNew f slot (super_of sb.now) c }
    ensures found { (f : Image) → LaysOver (D.view disk.old) f slot (super_of sb.now)
        → OnOk result ((c : Image) → Images (D.view disk.new) c
        → newest_in c ≡ Ok (Some (slot, super_of sb.now))) }
    ensures ok { OnOk result ((f : Image) → Exposes (D.view disk.old) f
        → (D.view disk.new).content
        ≡ Some (patch f (4096 * slot) (open_flag ∷ body (super_of sb.now)))) }
    ensures durable { OnOk result (IsDurable (D.view disk.new)) }
    ensures images { TearsOnly (D.view disk.old) (D.view disk.new) (4096 * slot) 4096 }
    ensures time { Passes (D.view disk.old) (D.view disk.new) }
    ensures cause { CountsFaults (D.faults disk.old) (D.faults disk.new) result }
{
    let gate = 4096 * (slot as u64);
    gate_ensure_shut(disk, gate)?;
    write_body(disk, gate + 1, sb)?;
    gate_raise(disk, gate)?;
    Ok(())
}

fn write_body<D: Disk>(disk: &mut D, at: u64, sb: &SuperBlock) -> Result<(), Failed>
    requires { at ≤ 4097 }
    ensures ok { WritesThrough (D.view disk.old) (D.view disk.new)
        at (body (super_of sb.now)) result }
    ensures cause { CountsFaults (D.faults disk.old) (D.faults disk.new) result }
{
    let mut bytes = [0; 4095];
    spell(sb, &mut bytes);
    write_through(disk, at, &bytes)
}
