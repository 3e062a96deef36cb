//! The spelling of a manifest in either format, in memory of just its length.

ghost use Rattle.std.specs.Prelude.{◌≡◌, ◌+◌, ◌*◌, ◌^◌, ◌≤◌, ◌<◌, ◌++◌, length, vec_len, vec_capacity, IfOk, IsTrue};
ghost use Rattle.std.specs.List.{flat_map};
ghost use Rattle.strat_base.specs.Numbers.{be};
ghost use Rattle.def_bytes.specs.Manifest.{is_lawful_manifest, list_bytes, extent_bytes, array_bytes, level_bytes, mark_bytes, only, manifest_bytes, SpellsManifest};
ghost use Rattle.strat_manifest.specs.ManifestView.{is_set, marks_listed, only_size, manifest_of};

use crate::manifest::Manifest;
use crate::size::manifest_size;
use std::alloc::Global;
use strat_base::{ArrayDesc, Extent, LevelDesc, NoMemory};

/// Adds bytes at the end, for which there is room.
fn add(out: &mut Vec<u8>, bytes: &[u8])
    requires room { vec_len out.old + length bytes.now ≤ vec_capacity out.old }
    ensures ok { out.new.items ≡ out.old.items ++ bytes.now }
    ensures len { vec_len out.new ≡ vec_len out.old + length bytes.now }
    ensures room { vec_capacity out.old ≤ vec_capacity out.new }
{
    if let Err(_) = out.extend_from_slice(bytes) {
        unreachable!()
    }
}

/// Adds a number in one byte.
#[tactic(auto, unfolding(strat_base::specs::Numbers::be))]
fn add_u8(out: &mut Vec<u8>, n: u8)
    requires room { vec_len out.old + 1 ≤ vec_capacity out.old }
    ensures ok { out.new.items ≡ out.old.items ++ be 1 n }
    ensures len { vec_len out.new ≡ vec_len out.old + 1 }
    ensures room { vec_capacity out.old ≤ vec_capacity out.new }
{
    add(out, &n.to_be_bytes());
}

/// Adds a number in four bytes.
#[tactic(auto, unfolding(strat_base::specs::Numbers::be))]
fn add_u32(out: &mut Vec<u8>, n: u32)
    requires room { vec_len out.old + 4 ≤ vec_capacity out.old }
    ensures ok { out.new.items ≡ out.old.items ++ be 4 n }
    ensures len { vec_len out.new ≡ vec_len out.old + 4 }
    ensures room { vec_capacity out.old ≤ vec_capacity out.new }
{
    add(out, &n.to_be_bytes());
}

/// Adds a number in eight bytes.
#[tactic(auto, unfolding(strat_base::specs::Numbers::be))]
fn add_u64(out: &mut Vec<u8>, n: u64)
    requires room { vec_len out.old + 8 ≤ vec_capacity out.old }
    ensures ok { out.new.items ≡ out.old.items ++ be 8 n }
    ensures len { vec_len out.new ≡ vec_len out.old + 8 }
    ensures room { vec_capacity out.old ≤ vec_capacity out.new }
{
    add(out, &n.to_be_bytes());
}

/// Adds an extent.
fn add_extent(out: &mut Vec<u8>, x: &Extent)
    requires room { vec_len out.old + 8 ≤ vec_capacity out.old }
    ensures ok { out.new.items ≡ out.old.items ++ extent_bytes x.now }
    ensures len { vec_len out.new ≡ vec_len out.old + 8 }
    ensures room { vec_capacity out.old ≤ vec_capacity out.new }
{
    add_u32(out, x.start);
    add_u32(out, x.len);
}

/// Adds numbers in four bytes each.
#[tactic(auto, using(crate::proofs::PrintLemmas::joined_at, crate::proofs::PrintLemmas::joined_all, crate::proofs::PrintLemmas::numbers_size))]
fn add_numbers(out: &mut Vec<u8>, xs: &[u32])
    requires room { vec_len out.old + 4 * length xs.now ≤ vec_capacity out.old }
    ensures ok { out.new.items ≡ out.old.items ++ flat_map (be 4) xs.now }
    ensures len { vec_len out.new ≡ vec_len out.old + 4 * length xs.now }
    ensures room { vec_capacity out.old ≤ vec_capacity out.new }
{
    for x in xs {
        add_u32(out, *x);
    }
}

/// Adds extents.
#[tactic(auto, using(crate::proofs::PrintLemmas::joined_at, crate::proofs::PrintLemmas::joined_all, crate::proofs::PrintLemmas::extents_size))]
fn add_extents(out: &mut Vec<u8>, xs: &[Extent])
    requires room { vec_len out.old + 8 * length xs.now ≤ vec_capacity out.old }
    ensures ok { out.new.items ≡ out.old.items ++ flat_map extent_bytes xs.now }
    ensures len { vec_len out.new ≡ vec_len out.old + 8 * length xs.now }
    ensures room { vec_capacity out.old ≤ vec_capacity out.new }
{
    for x in xs {
        add_extent(out, x);
    }
}

/// Adds numbers after their count.
fn add_number_list(out: &mut Vec<u8>, xs: &[u32])
    requires room { vec_len out.old + (4 + 4 * length xs.now) ≤ vec_capacity out.old }
    requires fits { length xs.now < 2 ^ 32 }
    ensures ok { out.new.items ≡ out.old.items ++ list_bytes (be 4) xs.now }
    ensures len { vec_len out.new ≡ vec_len out.old + (4 + 4 * length xs.now) }
    ensures room { vec_capacity out.old ≤ vec_capacity out.new }
{
    add_u32(out, xs.len() as u32);
    add_numbers(out, xs);
}

/// Adds extents after their count.
fn add_extent_list(out: &mut Vec<u8>, xs: &[Extent])
    requires room { vec_len out.old + (4 + 8 * length xs.now) ≤ vec_capacity out.old }
    requires fits { length xs.now < 2 ^ 32 }
    ensures ok { out.new.items ≡ out.old.items ++ list_bytes extent_bytes xs.now }
    ensures len { vec_len out.new ≡ vec_len out.old + (4 + 8 * length xs.now) }
    ensures room { vec_capacity out.old ≤ vec_capacity out.new }
{
    add_u32(out, xs.len() as u32);
    add_extents(out, xs);
}

/// Adds the four numbers in front of an array's lists.
fn add_array_numbers(out: &mut Vec<u8>, a: &ArrayDesc)
    requires room { vec_len out.old + 20 ≤ vec_capacity out.old }
    ensures ok { out.new.items ≡ out.old.items ++ (be 8 a.now.id ++ (be 4 a.now.entries
        ++ (be 4 a.now.leads ++ be 4 a.now.least))) }
    ensures len { vec_len out.new ≡ vec_len out.old + 20 }
    ensures room { vec_capacity out.old ≤ vec_capacity out.new }
{
    add_u64(out, a.id);
    add_u32(out, a.entries);
    add_u32(out, a.leads);
    add_u32(out, a.least);
}

/// Adds the descriptor of an array.
#[tactic(auto, using(crate::proofs::PrintLemmas::array_size, crate::proofs::PrintLemmas::array_added))]
fn add_array(out: &mut Vec<u8>, a: &ArrayDesc)
    requires room { vec_len out.old + length (array_bytes a.now) ≤ vec_capacity out.old }
    requires fits { length (array_bytes a.now) < 2 ^ 32 }
    ensures ok { out.new.items ≡ out.old.items ++ array_bytes a.now }
    ensures len { vec_len out.new ≡ vec_len out.old + length (array_bytes a.now) }
    ensures room { vec_capacity out.old ≤ vec_capacity out.new }
{
    add_array_numbers(out, a);
    add_extent_list(out, a.extents.as_slice());
    add_number_list(out, a.versions.as_slice());
}

/// Adds the descriptors of arrays.
#[tactic(auto, using(crate::proofs::PrintLemmas::joined_on, crate::proofs::PrintLemmas::joined_all, crate::proofs::PrintLemmas::size_next))]
fn add_arrays(out: &mut Vec<u8>, arrays: &[ArrayDesc])
    requires room { vec_len out.old + length (flat_map array_bytes arrays.now)
        ≤ vec_capacity out.old }
    requires fits { length (flat_map array_bytes arrays.now) < 2 ^ 32 }
    ensures ok { out.new.items ≡ out.old.items ++ flat_map array_bytes arrays.now }
    ensures len { vec_len out.new
        ≡ vec_len out.old + length (flat_map array_bytes arrays.now) }
    ensures room { vec_capacity out.old ≤ vec_capacity out.new }
{
    for a in arrays {
        add_array(out, a);
    }
}

/// Adds the descriptor of a level.
#[tactic(auto, using(crate::proofs::PrintLemmas::level_size, crate::proofs::PrintLemmas::arrays_within, crate::proofs::PrintLemmas::level_added))]
fn add_level(out: &mut Vec<u8>, level: &LevelDesc)
    requires room { vec_len out.old + length (level_bytes level.now) ≤ vec_capacity out.old }
    requires fits { length (level_bytes level.now) < 2 ^ 32 }
    ensures ok { out.new.items ≡ out.old.items ++ level_bytes level.now }
    ensures len { vec_len out.new ≡ vec_len out.old + length (level_bytes level.now) }
    ensures room { vec_capacity out.old ≤ vec_capacity out.new }
{
    let arrays = level.arrays.as_slice();
    add_u8(out, level.number);
    add_u32(out, level.horizon);
    add_u32(out, arrays.len() as u32);
    add_arrays(out, arrays);
}

/// Adds the descriptors of levels.
#[tactic(auto, using(crate::proofs::PrintLemmas::joined_on, crate::proofs::PrintLemmas::joined_all, crate::proofs::PrintLemmas::size_next))]
fn add_levels(out: &mut Vec<u8>, levels: &[LevelDesc])
    requires room { vec_len out.old + length (flat_map level_bytes levels.now)
        ≤ vec_capacity out.old }
    requires fits { length (flat_map level_bytes levels.now) < 2 ^ 32 }
    ensures ok { out.new.items ≡ out.old.items ++ flat_map level_bytes levels.now }
    ensures len { vec_len out.new
        ≡ vec_len out.old + length (flat_map level_bytes levels.now) }
    ensures room { vec_capacity out.old ≤ vec_capacity out.new }
{
    for level in levels {
        add_level(out, level);
    }
}

/// Adds the entries compacted, which format 2 alone has.
fn add_compacted(out: &mut Vec<u8>, format: u16, compacted: u64)
    requires room { vec_len out.old + only_size format 8 ≤ vec_capacity out.old }
    ensures ok { out.new.items ≡ out.old.items ++ only format (be 8 compacted) }
    ensures len { vec_len out.new ≡ vec_len out.old + only_size format 8 }
    ensures room { vec_capacity out.old ≤ vec_capacity out.new }
{
    if format == 2 {
        add_u64(out, compacted);
    }
}

/// Adds the numbers in front of a manifest, up to the next array's.
fn add_counts(out: &mut Vec<u8>, format: u16, m: &Manifest)
    requires room { vec_len out.old + (24 + only_size format 8) ≤ vec_capacity out.old }
    ensures ok { out.new.items ≡ out.old.items ++ (be 4 m.now.changes ++ (be 4 m.now.updates
        ++ (be 8 m.now.written ++ (only format (be 8 m.now.compacted) ++ be 8 m.now.next_array)))) }
    ensures len { vec_len out.new ≡ vec_len out.old + (24 + only_size format 8) }
    ensures room { vec_capacity out.old ≤ vec_capacity out.new }
{
    add_u32(out, m.changes);
    add_u32(out, m.updates);
    add_u64(out, m.written);
    add_compacted(out, format, m.compacted);
    add_u64(out, m.next_array);
}

/// Adds the byte of a mark.
fn add_mark(out: &mut Vec<u8>, mark: u32)
    requires room { vec_len out.old + 1 ≤ vec_capacity out.old }
    ensures ok { out.new.items ≡ out.old.items ++ mark_bytes (is_set mark) }
    ensures len { vec_len out.new ≡ vec_len out.old + 1 }
    ensures room { vec_capacity out.old ≤ vec_capacity out.new }
{
    if mark == 1 {
        add_u8(out, 1);
    } else {
        add_u8(out, 0);
    }
}

/// Adds the bytes of marks.
#[tactic(auto, using(crate::proofs::PrintLemmas::joined_at, crate::proofs::MarkLemmas::marks_joined))]
fn add_marks(out: &mut Vec<u8>, marks: &[u32])
    requires room { vec_len out.old + length marks.now ≤ vec_capacity out.old }
    ensures ok { out.new.items ≡ out.old.items ++ flat_map mark_bytes (marks_listed marks.now) }
    ensures len { vec_len out.new ≡ vec_len out.old + length marks.now }
    ensures room { vec_capacity out.old ≤ vec_capacity out.new }
{
    for mark in marks {
        add_mark(out, *mark);
    }
}

/// Adds the bytes of marks, which format 2 alone has.
fn add_format_marks(out: &mut Vec<u8>, format: u16, marks: &[u32])
    requires room { vec_len out.old + only_size format (length marks.now)
        ≤ vec_capacity out.old }
    ensures ok { out.new.items
        ≡ out.old.items ++ only format (flat_map mark_bytes (marks_listed marks.now)) }
    ensures len { vec_len out.new ≡ vec_len out.old + only_size format (length marks.now) }
    ensures room { vec_capacity out.old ≤ vec_capacity out.new }
{
    if format == 2 {
        add_marks(out, marks);
    }
}

/// Adds a manifest.
#[tactic(auto, using(crate::proofs::PrintLemmas::size_in_memory))]
fn add_manifest(out: &mut Vec<u8>, format: u16, m: &Manifest)
    requires room { vec_len out.old + length (manifest_bytes format (manifest_of m.now))
        ≤ vec_capacity out.old }
    requires fits { (length (manifest_bytes format (manifest_of m.now)) < 2 ^ 32)
        × (length m.now.levels ≤ 255) }
    ensures ok { out.new.items ≡ out.old.items ++ manifest_bytes format (manifest_of m.now) }
{
    let parents = m.parents.as_slice();
    let levels = m.levels.as_slice();
    add_counts(out, format, m);
    add_u32(out, parents.len() as u32 + 1);
    add_numbers(out, parents);
    add_format_marks(out, format, m.marks.as_slice());
    add_u8(out, levels.len() as u8);
    add_levels(out, levels);
}

/// The spelling of a manifest in a format, 1 or 2, in a vector with room for just so many bytes. Format 1 has those with
/// no entry compacted and no version dropped. O(size); `NoMemory` where there is no memory for it.
pub fn print(alloc: Global, m: &Manifest, format: u16) -> Result<Vec<u8>, NoMemory>
    requires kept { IsTrue (is_lawful_manifest format (manifest_of m.now)) }
    requires fits { length (manifest_bytes format (manifest_of m.now)) ≤ 4290772992 }
    ensures ok { IfOk result (λ bytes. SpellsManifest format bytes.items (manifest_of m.now)) }
    ensures len { IfOk result (λ bytes. vec_len bytes
        ≡ length (manifest_bytes format (manifest_of m.now))) }
{
    let mut out = Vec::with_capacity(alloc, manifest_size(m, format) as usize)?;
    add_manifest(&mut out, format, m);
    Ok(out)
}
