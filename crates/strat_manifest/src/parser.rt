//! Reading a manifest. Memory is taken for each item as it is read, and never for a count that stands in the bytes.

ghost use Rattle.std.specs.Prelude.{◌≡◌, ◌==◌, ◌&&◌, length, ◌∷◌, [], ◌++◌, replicate, Some, None, OnOk, IfOk, IfErr, IsTrue};
ghost use Rattle.def_bytes.specs.Manifest.{read_number, read_items, read_only, read_extent, read_array, read_level, is_lawful_manifest, manifest_in, SpellsManifest};
ghost use Rattle.strat_manifest.specs.ManifestView.{manifest_of, are_marks};
ghost use Rattle.strat_manifest.specs.Reading.{Reads, read_head, read_marks, read_levels, read_behind};
ghost use Rattle.strat_manifest.specs.declared.manifest.ManifestFault.TheVariants as fault;

use crate::lawful::{are_marks, is_lawful};
use crate::manifest::{LevelList, Manifest, ManifestFault};
use crate::reader::Reader;
use std::alloc::Global;
use strat_base::limits::VERSIONS_MAX;
use strat_base::{ArrayDesc, Arrays, Extent, Extents, LevelDesc, Listing, Versions};

/// Adds an item to a list.
fn keep<T: Drop>(items: &mut Listing<T>, x: T) -> Result<(), ManifestFault>
    ensures ok { OnOk result (items.new ≡ items.old ++ x ∷ []) }
    ensures cause { IfErr result (λ e. e ≡ fault.NoMemory) }
{
    match items.push(x) {
        Ok(()) => Ok(()),
        Err(_) => Err(ManifestFault::NoMemory),
    }
}

/// Adds an extent to a list.
fn keep_extent(items: &mut Extents, x: Extent) -> Result<(), ManifestFault>
    ensures ok { OnOk result (items.new ≡ items.old ++ x ∷ []) }
    ensures cause { IfErr result (λ e. e ≡ fault.NoMemory) }
{
    match items.push(x) {
        Ok(()) => Ok(()),
        Err(_) => Err(ManifestFault::NoMemory),
    }
}

/// So many numbers of four bytes.
#[tactic(auto, using(crate::proofs::ItemLemmas::continued_none, crate::proofs::ItemLemmas::item_read, crate::proofs::ItemLemmas::item_missing, crate::proofs::ItemLemmas::items_read))]
fn take_numbers(
    alloc: Global,
    n: u32,
    reader: &mut Reader<'_>,
) -> Result<Listing<u32>, ManifestFault>
    ensures ok { Reads (read_items (read_number 4) n) reader.old result reader.new }
{
    let mut numbers = Listing::new(alloc);
    for _ in 0..n {
        let x = reader.take_u32()?;
        keep(&mut numbers, x)?;
    }
    Ok(numbers)
}

/// An extent.
#[tactic(auto, unfolding(def_bytes::specs::Manifest::read_extent))]
fn take_extent(reader: &mut Reader<'_>) -> Result<Extent, ManifestFault>
    ensures ok { Reads read_extent reader.old result reader.new }
{
    let start = reader.take_u32()?;
    let len = reader.take_u32()?;
    Ok(Extent { start, len })
}

/// So many extents.
#[tactic(auto, using(crate::proofs::ItemLemmas::continued_none, crate::proofs::ItemLemmas::item_read, crate::proofs::ItemLemmas::item_missing, crate::proofs::ItemLemmas::items_read))]
fn take_extents(alloc: Global, n: u32, reader: &mut Reader<'_>) -> Result<Extents, ManifestFault>
    ensures ok { Reads (read_items read_extent n) reader.old result reader.new }
{
    let mut extents = Extents::new(alloc);
    for _ in 0..n {
        let x = take_extent(reader)?;
        keep_extent(&mut extents, x)?;
    }
    Ok(extents)
}

/// The descriptor of an array.
#[tactic(auto, unfolding(def_bytes::specs::Manifest::read_array))]
fn take_array(alloc: Global, reader: &mut Reader<'_>) -> Result<ArrayDesc, ManifestFault>
    ensures ok { Reads read_array reader.old result reader.new }
{
    let id = reader.take_u64()?;
    let entries = reader.take_u32()?;
    let leads = reader.take_u32()?;
    let least = reader.take_u32()?;
    let count = reader.take_u32()?;
    let extents = take_extents(alloc, count, reader)?;
    let count = reader.take_u32()?;
    let versions = take_numbers(alloc, count, reader)?;
    Ok(ArrayDesc {
        id,
        entries,
        leads,
        least,
        extents,
        versions,
    })
}

/// So many descriptors of arrays.
#[tactic(auto, using(crate::proofs::ItemLemmas::continued_none, crate::proofs::ItemLemmas::item_read, crate::proofs::ItemLemmas::item_missing, crate::proofs::ItemLemmas::items_read))]
fn take_arrays(alloc: Global, n: u32, reader: &mut Reader<'_>) -> Result<Arrays, ManifestFault>
    ensures ok { Reads (read_items read_array n) reader.old result reader.new }
{
    let mut arrays = Listing::new(alloc);
    for _ in 0..n {
        let x = take_array(alloc, reader)?;
        keep(&mut arrays, x)?;
    }
    Ok(arrays)
}

/// The descriptor of a level.
#[tactic(auto, unfolding(def_bytes::specs::Manifest::read_level))]
fn take_level(alloc: Global, reader: &mut Reader<'_>) -> Result<LevelDesc, ManifestFault>
    ensures ok { Reads read_level reader.old result reader.new }
{
    let number = reader.take_u8()?;
    let horizon = reader.take_u32()?;
    let count = reader.take_u32()?;
    let arrays = take_arrays(alloc, count, reader)?;
    Ok(LevelDesc {
        number,
        horizon,
        arrays,
    })
}

/// So many descriptors of levels.
#[tactic(auto, using(crate::proofs::ItemLemmas::continued_none, crate::proofs::ItemLemmas::item_read, crate::proofs::ItemLemmas::item_missing, crate::proofs::ItemLemmas::items_read))]
fn take_levels(alloc: Global, n: u8, reader: &mut Reader<'_>) -> Result<LevelList, ManifestFault>
    ensures ok { Reads (read_items read_level n) reader.old result reader.new }
{
    let mut levels = Listing::new(alloc);
    for _ in 0..n {
        let x = take_level(alloc, reader)?;
        keep(&mut levels, x)?;
    }
    Ok(levels)
}

/// The entries compacted, which format 2 alone has.
#[tactic(auto, unfolding(def_bytes::specs::Manifest::read_only))]
fn take_compacted(format: u16, reader: &mut Reader<'_>) -> Result<u64, ManifestFault>
    ensures ok { Reads (read_only format (read_number 8) 0) reader.old result reader.new }
{
    if format == 2 {
        reader.take_u64()
    } else {
        Ok(0)
    }
}

/// The numbers in front of a manifest.
#[derive(Clone, Copy)]
struct Head {
    changes: u32,
    updates: u32,
    written: u64,
    compacted: u64,
    next_array: u64,
    versions: u32,
}

/// The numbers in front of a manifest in a format.
#[tactic(auto, unfolding(crate::specs::Reading::read_head))]
fn take_head(format: u16, reader: &mut Reader<'_>) -> Result<Head, ManifestFault>
    ensures ok { Reads (read_head format) reader.old result reader.new }
{
    let changes = reader.take_u32()?;
    let updates = reader.take_u32()?;
    let written = reader.take_u64()?;
    let compacted = take_compacted(format, reader)?;
    let next_array = reader.take_u64()?;
    let versions = reader.take_u32()?;
    Ok(Head {
        changes,
        updates,
        written,
        compacted,
        next_array,
        versions,
    })
}

/// So many numbers of one byte.
#[tactic(auto, using(crate::proofs::ItemLemmas::continued_none, crate::proofs::ItemLemmas::item_read, crate::proofs::ItemLemmas::item_missing, crate::proofs::ItemLemmas::items_read))]
fn take_bytes(alloc: Global, n: u32, reader: &mut Reader<'_>) -> Result<Versions, ManifestFault>
    ensures ok { Reads (read_items (read_number 1) n) reader.old result reader.new }
{
    let mut numbers = Listing::new(alloc);
    for _ in 0..n {
        let x = reader.take_u8()?;
        keep(&mut numbers, u32::from(x))?;
    }
    Ok(numbers)
}

/// So many zeros.
#[tactic(auto, using(crate::proofs::MarkLemmas::one_more_zero, crate::proofs::MarkLemmas::all_zeros))]
fn zeros(alloc: Global, n: u32) -> Result<Versions, ManifestFault>
    ensures ok { IfOk result (λ numbers. numbers ≡ replicate n 0) }
    ensures cause { IfErr result (λ e. e ≡ fault.NoMemory) }
{
    let mut numbers = Listing::new(alloc);
    for _ in 0..n {
        keep(&mut numbers, 0)?;
    }
    Ok(numbers)
}

/// The numbers of so many marks, which format 2 alone has. In format 1 no version was dropped.
#[tactic(auto, unfolding(def_bytes::specs::Manifest::read_only, crate::specs::Reading::read_marks))]
fn take_marks(
    alloc: Global,
    format: u16,
    n: u32,
    reader: &mut Reader<'_>,
) -> Result<Versions, ManifestFault>
    ensures ok { Reads (read_marks format n) reader.old result reader.new }
{
    if format == 2 {
        return take_bytes(alloc, n, reader);
    }
    zeros(alloc, n)
}

/// As many descriptors of levels as a byte in front of them says.
fn take_level_list(alloc: Global, reader: &mut Reader<'_>) -> Result<LevelList, ManifestFault>
    ensures ok { Reads read_levels reader.old result reader.new }
{
    let count = reader.take_u8()?;
    take_levels(alloc, count, reader)
}

/// The manifest in a format whose parents, marks and levels stand behind these numbers.
#[tactic(auto, unfolding(crate::specs::Reading::read_behind))]
fn take_behind(
    alloc: Global,
    format: u16,
    head: Head,
    reader: &mut Reader<'_>,
) -> Result<Manifest, ManifestFault>
    ensures ok { Reads (read_behind format head) reader.old result reader.new }
{
    let parents = take_numbers(alloc, head.versions.saturating_sub(1), reader)?;
    let marks = take_marks(alloc, format, head.versions, reader)?;
    let levels = take_level_list(alloc, reader)?;
    Ok(Manifest {
        changes: head.changes,
        updates: head.updates,
        written: head.written,
        compacted: head.compacted,
        next_array: head.next_array,
        parents,
        marks,
        levels,
    })
}

/// Whether a manifest has a spelling in a format, each mark was 0 or 1, and nothing is left behind it.
fn is_all(reader: &Reader<'_>, format: u16, manifest: &Manifest) -> bool
    ensures ok { result ≡ (length reader.now == 0 && are_marks manifest.now.marks
        && is_lawful_manifest format (manifest_of manifest.now)) }
{
    let has_marks = are_marks(manifest.marks.as_slice());
    let is_whole = reader.is_empty();
    is_whole && has_marks && is_lawful(manifest, format)
}

/// The manifest of which these bytes are the spelling in a format, 1 or 2. `Refused` where no manifest has this spelling,
/// and `NoMemory` where memory ran out. O(bytes), and the memory taken is in proportion to the bytes that
/// were read.
pub fn parse(alloc: Global, bytes: &[u8], format: u16) -> Result<Manifest, ManifestFault>
    ensures ok { IfOk result (λ m. manifest_in format bytes.now ≡ Some (manifest_of m)) }
    ensures found { IfOk result (λ m. SpellsManifest format bytes.now (manifest_of m)) }
    ensures kept { IfOk result (λ m. IsTrue (are_marks m.marks)) }
    ensures cause { IfErr result (λ e. e ≡ fault.Refused
        → manifest_in format bytes.now ≡ None) }
{
    let mut reader = Reader::new(bytes);
    let head = take_head(format, &mut reader)?;
    if head.versions == 0 || head.versions > VERSIONS_MAX {
        return Err(ManifestFault::Refused);
    }
    let manifest = take_behind(alloc, format, head, &mut reader)?;
    if !is_all(&reader, format, &manifest) {
        return Err(ManifestFault::Refused);
    }
    Ok(manifest)
}
