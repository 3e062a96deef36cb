//! The manifest on the disk, in a chain of blocks.

ghost use Rattle.std.specs.List.{list_all};
ghost use Rattle.std.specs.Prelude.{◌≡◌, ◌≤◌, ◌<◌, ◌+◌, ◌-◌, ◌==◌, ℕ, length, Some, None, Ok, Err, IsSome, IfOk, OnErr, IsErrOf, IsTrue};
ghost use Rattle.strat_base.specs.declared.failures.Trouble.TheVariants.{NoMemory, Device, Damaged};
ghost use Rattle.def_crash.specs.Blocks.{TearsBlocks};
ghost use Rattle.def_crash.specs.Faults.{HasCause, ReadsAtMost};
ghost use Rattle.def_crash.specs.Image.{Image};
ghost use Rattle.def_crash.specs.Moments.{Exposes, OnlyReads};
ghost use Rattle.strat_extent.specs.Blocks.{total_len, is_free, used_count};
ghost use Rattle.strat_extent.specs.Change.{IsMarked, SameBlocks, AreLowest};
ghost use Rattle.def_bytes.specs.Arrays.{blocks_of};
ghost use Rattle.def_bytes.specs.Chain.{chain_length};
ghost use Rattle.def_bytes.specs.Chained.{manifest_filled, manifest_at};
ghost use Rattle.def_bytes.specs.Layout.{shortest_manifest};
ghost use Rattle.def_bytes.specs.Manifest.{is_lawful_manifest, manifest_bytes};
ghost use Rattle.strat_manifest.specs.Chains.{IsStored};
ghost use Rattle.strat_manifest.specs.ManifestView.{are_marks, manifest_of};

use crate::chain::read_chain;
use crate::chain_write::write_chain;
use crate::manifest::{Manifest, ManifestFault};
use crate::parser::parse;
use crate::printer::print;
use std::alloc::Global;
use strat_base::{Extents, Trouble};
use strat_disk::Disk;
use strat_extent::Space;

/// Whether all of these bytes are 0.
fn are_zeros(bytes: &[u8]) -> bool
    ensures ok { result ≡ list_all (λ x. x == 0) bytes.now }
{
    bytes.iter().all(|byte| *byte == 0)
}

/// The manifest of which the first `n` of these bytes are the spelling in a format, where the others are zeros; else the
/// block is damaged.
fn parse_filled(
    alloc: Global,
    bytes: &[u8],
    n: usize,
    format: u16,
    block: u32,
) -> Result<Manifest, Trouble>
    requires len { n ≤ length bytes.now }
    ensures ok { IfOk result (λ m.
        manifest_filled format n bytes.now ≡ Some (manifest_of m)) }
    ensures kept { IfOk result (λ m. IsTrue (is_lawful_manifest format (manifest_of m))) }
    ensures found { IfOk result (λ m. IsTrue (are_marks m.marks)) }
    ensures damaged { (b : ℕ) → IsErrOf result (Damaged b) → (b ≡ block)
        × (manifest_filled format n bytes.now ≡ None) }
    ensures cause { IsErrOf result Device → ⊥ }
{
    if !are_zeros(&bytes[n..]) {
        return Err(Trouble::Damaged { block });
    }
    match parse(alloc, &bytes[..n], format) {
        Ok(manifest) => Ok(manifest),
        Err(ManifestFault::Refused) => Err(Trouble::Damaged { block }),
        Err(ManifestFault::NoMemory) => Err(Trouble::NoMemory),
    }
}

/// Reads the manifest of so many bytes in a format, 1 or 2, from the chain that begins with a block, and gives the chain's
/// blocks in its order, those that stand in a row as one extent. It reads each block once and parses their bytes in linear
/// time, and takes memory in proportion to the blocks that were read. Device: the disk counted a fault. Damaged: the block
/// with a wrong link, or the first where the bytes are refused.
pub fn read<D: Disk>(
    alloc: Global,
    disk: &mut D,
    first: u32,
    size: u32,
    format: u16,
) -> Result<(Manifest, Extents), Trouble>
    requires fits { first < 4294967295 }
    ensures ok { IfOk result (λ r. (f : Image) → Exposes (D.view disk.old) f
        → manifest_at format f first size
        ≡ Ok (record { manifest = manifest_of r.0; blocks = blocks_of r.1 })) }
    ensures kept { IfOk result (λ r. IsTrue (is_lawful_manifest format (manifest_of r.0))) }
    ensures found { IfOk result (λ r. IsTrue (are_marks r.0.marks)) }
    ensures damaged { (b : ℕ) → IsErrOf result (Damaged b) → (f : Image)
        → Exposes (D.view disk.old) f → manifest_at format f first size ≡ Err b }
    ensures same { OnlyReads (D.view disk.old) (D.view disk.new) }
    ensures cause { HasCause Device (D.faults disk.old) (D.faults disk.new) result }
    ensures reads { ReadsAtMost (chain_length size - 1 + 1) (D.reads disk.old) (D.reads disk.new) }
{
    let (bytes, blocks) = read_chain(alloc, disk, first, size)?;
    let manifest = parse_filled(alloc, &bytes, size as usize, format, first)?;
    Ok((manifest, blocks))
}

/// Writes a manifest in a format, 1 or 2, into a chain of the lowest free blocks, and gives its first block, its length in
/// bytes and its blocks: one write a block, and no sync. It prints in linear time and takes all memory before the first
/// write. After an error the blocks that were taken are free again. Device: the disk counted a fault. Damaged never comes.
pub fn write<D: Disk>(
    alloc: Global,
    disk: &mut D,
    space: &mut Space,
    m: &Manifest,
    format: u16,
) -> Result<(u32, u32, Extents), Trouble>
    requires kept { IsTrue (is_lawful_manifest format (manifest_of m.now)) }
    requires fits { (length (manifest_bytes format (manifest_of m.now)) ≤ 4290772992)
        × (1 ≤ space.old.first)
        × (used_count space.old + 1048576 ≤ 4294967295 - space.old.first) }
    ensures ok { IfOk result (λ r. IsSome (D.view disk.old).content → (g : Image)
        → Exposes (D.view disk.new) g
        → IsStored format g r.0 r.1 (manifest_of m.now) (blocks_of r.2)) }
    ensures found { IfOk result (λ r. IsMarked space.old r.2 space.new
        × AreLowest r.2 space.new × (total_len r.2 ≡ chain_length r.1)) }
    ensures len { IfOk result (λ r.
        r.1 ≡ length (manifest_bytes format (manifest_of m.now))) }
    ensures fits { IfOk result (λ r. (space.old.first ≤ r.0) × (r.0 < 4294967295)
        × (shortest_manifest format ≤ r.1)) }
    ensures images { TearsBlocks (is_free space.old) (D.view disk.old) (D.view disk.new) }
    ensures err { OnErr result (SameBlocks space.old space.new) }
    ensures same { IsErrOf result NoMemory → disk.new ≡ disk.old }
    ensures cause { HasCause Device (D.faults disk.old) (D.faults disk.new) result }
    ensures damaged { (b : ℕ) → IsErrOf result (Damaged b) → ⊥ }
    ensures reads { D.reads disk.new ≡ D.reads disk.old }
{
    let bytes = print(alloc, m, format)?;
    let (first, blocks) = write_chain(alloc, disk, space, &bytes)?;
    Ok((first, bytes.len() as u32, blocks))
}
