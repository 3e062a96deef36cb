//! Whether a manifest may be written: it has a spelling, and that is short enough for a chain. No size overflows on the way,
//! whatever the manifest is.

ghost use Rattle.std.specs.Prelude.{◌≡◌, ◌≤◌, ◌+◌, ◌-◌, ◌^◌, length, min, true, IsTrue};
ghost use Rattle.std.specs.List.{flat_map};
ghost use Rattle.def_bytes.specs.Manifest.{is_lawful_manifest, array_bytes, level_bytes, manifest_bytes};
ghost use Rattle.strat_manifest.specs.ManifestView.{only_size, manifest_of};

use crate::lawful::is_lawful;
use crate::manifest::Manifest;
use strat_base::{ArrayDesc, LevelDesc};

/// Most bytes of a chain of blocks, of which there are 2^20.
const MOST: u64 = 4_290_772_992;

/// How many bytes the descriptor of an array has.
#[tactic(auto, using(crate::proofs::PrintLemmas::array_size))]
fn array_size(a: &ArrayDesc) -> u64
    ensures ok { result ≡ min (length (array_bytes a.now)) (2 ^ 64 - 1) }
{
    let extents = (a.extents.len() as u64).saturating_mul(8);
    let versions = (a.versions.len() as u64).saturating_mul(4);
    extents.saturating_add(versions).saturating_add(28)
}

/// How many bytes the descriptors of arrays have.
#[tactic(auto, using(crate::proofs::PrintLemmas::joined_all, crate::proofs::PrintLemmas::size_next))]
fn arrays_size(arrays: &[ArrayDesc]) -> u64
    ensures ok { result ≡ min (length (flat_map array_bytes arrays.now)) (2 ^ 64 - 1) }
{
    let mut size: u64 = 0;
    for a in arrays {
        size = size.saturating_add(array_size(a));
    }
    size
}

/// How many bytes the descriptor of a level has.
#[tactic(auto, using(crate::proofs::PrintLemmas::level_size))]
fn level_size(level: &LevelDesc) -> u64
    ensures ok { result ≡ min (length (level_bytes level.now)) (2 ^ 64 - 1) }
{
    arrays_size(level.arrays.as_slice()).saturating_add(9)
}

/// How many bytes the descriptors of levels have.
#[tactic(auto, using(crate::proofs::PrintLemmas::joined_all, crate::proofs::PrintLemmas::size_next))]
fn levels_size(levels: &[LevelDesc]) -> u64
    ensures ok { result ≡ min (length (flat_map level_bytes levels.now)) (2 ^ 64 - 1) }
{
    let mut size: u64 = 0;
    for level in levels {
        size = size.saturating_add(level_size(level));
    }
    size
}

/// How many bytes of a manifest stand in format 2 alone.
fn marks_size(marks: usize, format: u16) -> u64
    ensures ok { result ≡ min (only_size format 8 + only_size format marks) (2 ^ 64 - 1) }
{
    if format == 2 {
        (marks as u64).saturating_add(8)
    } else {
        0
    }
}

/// How many bytes the spelling of a manifest in a format has.
#[tactic(auto, using(crate::proofs::PrintLemmas::size_in_memory))]
pub(crate) fn manifest_size(m: &Manifest, format: u16) -> u64
    ensures ok { result
        ≡ min (length (manifest_bytes format (manifest_of m.now))) (2 ^ 64 - 1) }
{
    let parents = (m.parents.len() as u64).saturating_mul(4);
    levels_size(m.levels.as_slice())
        .saturating_add(parents)
        .saturating_add(marks_size(m.marks.len(), format))
        .saturating_add(29)
}

/// Whether a manifest may be written in a format. One pass over it, O(size), with no memory taken.
pub fn is_writable(m: &Manifest, format: u16) -> bool
    ensures ok { result ≡ true → IsTrue (is_lawful_manifest format (manifest_of m.now))
        × (length (manifest_bytes format (manifest_of m.now)) ≤ 4290772992) }
    ensures none { IsTrue (is_lawful_manifest format (manifest_of m.now))
        → length (manifest_bytes format (manifest_of m.now)) ≤ 4290772992
        → result ≡ true }
{
    is_lawful(m, format) && manifest_size(m, format) <= MOST
}
