//! Superblocks and their bytes. After the gate of a slot's block stand, the highest byte of each number first:
//!
//! | Offset | Bytes | Field |
//! |---|---|---|
//! | 1 | 8 | the text `STRATBT1` |
//! | 9 | 2 | format, 1 or 2 |
//! | 11 | 8 | generation, at least 1 |
//! | 19 | 4 | first block of the manifest |
//! | 23 | 4 | length of the manifest in bytes, at least 29 in format 1 and 38 in format 2 |
//! | 27 | 1 | active journal region, 0 or 1 |
//! | 28 | 4 | changes per journal region |
//! | 32 | 4 | most changes of the store |
//! | 36 | 4 | most versions of the store |
//!
//! The bytes from 40 on are written as zeros and not read. Generation 1 with the manifest of 38 bytes in block 6,
//! and the limits 4, 100 and 10, is `a7 5354524154425431 0002 0000000000000001 00000006 00000026 00 00000004 00000064 0000000a`.
//! In format 1, where that manifest has 29 bytes, it is `a7 5354524154425431 0001 0000000000000001 00000006 0000001d 00 00000004
//! 00000064 0000000a`.

ghost use Rattle.std.specs.Prelude.{IsTrue, ◌≡◌, ◌≤◌, ◌<◌, ◌+◌, length, drop};
ghost use Rattle.strat_base.specs.Numbers.{be, number, placed};
ghost use Rattle.def_bytes.specs.SuperBlock.{IsLawful, zeros, body, slot_of, in_range};
ghost use Rattle.strat_gate.specs.SuperView.{super_of, slot_seen};

use def_bytes::{NEWEST_FORMAT, OPEN, first_free, shortest_manifest};
use strat_base::limits::{CHANGES_MAX, MEM_MAX, MEM_MIN, VERSIONS_MAX};
use strat_base::{get_u8, get_u16, get_u32, get_u64, put_u16, put_u32, put_u64};

/// What says where the rest of a store is.
#[derive(Clone, Copy, Debug, PartialEq, Eq)]
pub struct SuperBlock {
    /// The format that the store was written in, 1 or 2: its manifest is read in this format.
    pub format: u16,
    /// Rises by one with each superblock of a store, from 1 on.
    pub generation: u64,
    /// The manifest's first block.
    pub manifest: u32,
    /// The manifest's length in bytes.
    pub length: u32,
    /// The active journal region, 0 or 1.
    pub region: u8,
    /// Changes per journal region.
    pub mem: u32,
    /// Most changes in the life of the store.
    pub changes_max: u32,
    /// Most versions of the store.
    pub versions_max: u32,
}

/// The text `STRATBT1` as a number.
const MAGIC: u64 = 0x5354_5241_5442_5431;
/// The block 2^32 - 1 is never used.
const BLOCKS_END: u32 = 0xffff_ffff;

/// Encodes the fields into the bytes after a gate, which are zeros.
pub(crate) fn spell(sb: &SuperBlock, into: &mut [u8])
    requires len { length into.old ≡ 4095 }
    requires none { into.old ≡ zeros 4095 }
    ensures { into.new ≡ body (super_of sb.now) }
{
    put_u64(into, 0, MAGIC);
    put_u16(into, 8, sb.format);
    put_u64(into, 10, sb.generation);
    put_u32(into, 18, sb.manifest);
    put_u32(into, 22, sb.length);
    put_u8(into, 26, sb.region);
    put_u32(into, 27, sb.mem);
    put_u32(into, 31, sb.changes_max);
    put_u32(into, 35, sb.versions_max);
}

/// The fields in the first 40 bytes of a block, where the gate is open and the magic stands after it.
#[tactic(auto, unfolding(def_bytes::specs::SuperBlock::slot_of))]
pub(crate) fn parse(bytes: &[u8]) -> Option<SuperBlock>
    requires { length bytes.now ≡ 40 }
    ensures { slot_seen result ≡ slot_of bytes.now }
{
    if bytes[0] != OPEN || u64_at(bytes, 1) != MAGIC {
        return None;
    }
    Some(SuperBlock {
        format: u16_at(bytes, 9),
        generation: u64_at(bytes, 11),
        manifest: u32_at(bytes, 19),
        length: u32_at(bytes, 23),
        region: u8_at(bytes, 27),
        mem: u32_at(bytes, 28),
        changes_max: u32_at(bytes, 32),
        versions_max: u32_at(bytes, 36),
    })
}

/// Whether the format is known and each field is in its range.
pub(crate) fn is_in_range(sb: &SuperBlock) -> bool
    ensures ok { result ≡ in_range (super_of sb.now) }
    ensures fits { IsTrue result → IsLawful (super_of sb.now) }
{
    // so that the proof knows how large they may be
    let _generation = sb.generation;
    let _length = sb.length;
    each_is_in_range(sb)
}

/// Whether each field passes its tests.
fn each_is_in_range(sb: &SuperBlock) -> bool
    ensures ok { result ≡ in_range (super_of sb.now) }
{
    1 <= sb.format
        && sb.format <= NEWEST_FORMAT
        && 1 <= sb.generation
        && MEM_MIN <= sb.mem
        && sb.mem <= MEM_MAX
        && first_free(sb.mem) <= sb.manifest
        && sb.manifest < BLOCKS_END
        && shortest_manifest(sb.format) <= sb.length
        && sb.region <= 1
        && 1 <= sb.changes_max
        && sb.changes_max <= CHANGES_MAX
        && 1 <= sb.versions_max
        && sb.versions_max <= VERSIONS_MAX
}

fn put_u8(into: &mut [u8], at: usize, n: u8)
    requires { at < length into.old }
    ensures { into.new ≡ placed into.old at (be 1 n) }
{
    into[at] = n;
}

#[tactic(auto, unfolding(strat_base::specs::Numbers::number))]
fn u8_at(bytes: &[u8], at: usize) -> u8
    requires { at + 1 ≤ length bytes.now }
    ensures { result ≡ number 1 (drop at bytes.now) }
{
    get_u8(bytes, at).unwrap()
}

fn u16_at(bytes: &[u8], at: usize) -> u16
    requires { at + 2 ≤ length bytes.now }
    ensures { result ≡ number 2 (drop at bytes.now) }
{
    get_u16(bytes, at).unwrap()
}

fn u32_at(bytes: &[u8], at: usize) -> u32
    requires { at + 4 ≤ length bytes.now }
    ensures { result ≡ number 4 (drop at bytes.now) }
{
    get_u32(bytes, at).unwrap()
}

fn u64_at(bytes: &[u8], at: usize) -> u64
    requires { at + 8 ≤ length bytes.now }
    ensures { result ≡ number 8 (drop at bytes.now) }
{
    get_u64(bytes, at).unwrap()
}
