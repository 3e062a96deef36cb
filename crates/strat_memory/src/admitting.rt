//! Taking a manifest that was read into memory, where a store may have it.

ghost use Rattle.std.specs.List.{list_all};
ghost use Rattle.std.specs.Prelude.{◌≡◌, ◌≤◌, IfOk, IfSome, IfNone, IsTrue, false, nat_lt};
ghost use Rattle.def_bytes.specs.Arrays.{blocks_of};
ghost use Rattle.def_bytes.specs.Layout as places;
ghost use Rattle.def_bytes.specs.Manifest.{is_lawful_manifest};
ghost use Rattle.strat_gate.specs.SuperView.{super_of};
ghost use Rattle.strat_manifest.specs.ManifestView.{manifest_of};
ghost use Rattle.def_recovery.specs.Opening.{belongs};
ghost use Rattle.def_publish.specs.Contents.{Contents, named_blocks};
ghost use Rattle.strat_memory.specs.Belonging.{UsesJust};
ghost use Rattle.def_recovery.specs.Opening.{has_own_versions};
ghost use Rattle.strat_memory.specs.Held.{ArePlaced};
ghost use Rattle.strat_memory.specs.Admitting.{FitsInMemory, MayBePlaced, counts_belong, chained_of, IsAdmitted};
ghost use Rattle.def_bytes.specs.Layout.{newest_format};

use crate::belonging::{
    all_filled, has_few_leads, has_few_publications, has_low_tags, ids_are_distinct,
    space_if_blocks_distinct,
};
use crate::copying::copy_levels;
use std::alloc::Global;
use strat_base::{Extents, LevelDesc, NoMemory};
use strat_extent::Space;
use strat_gate::SuperBlock;
use strat_level::{Level, LevelFault, Levels};
use strat_manifest::{LevelList, Manifest};

/// What the last checkpoint of a store left, as it is kept in memory: the manifest, the blocks of its chain, and its
/// levels, each in the place of its number and with the index of its versions.
#[derive(Drop)]
pub struct Published {
    pub manifest: Manifest,
    pub chain: Extents,
    pub levels: Levels,
}

/// The level of a descriptor, or `None` where a version stands in two of its tags or is not below its horizon.
/// O(greatest version + lengths of all tags). The only error is want of memory.
#[tactic(auto, using(crate::proofs::TagLemmas::own_from, crate::proofs::TagLemmas::not_own_tags))]
fn level_if_tags_disjoint(alloc: Global, desc: LevelDesc) -> Result<Option<Level>, NoMemory>
    requires fits { FitsInMemory desc }
    ensures ok { IfOk result (λ own. IfSome own (λ level. (level ≡ desc)
        × IsTrue (has_own_versions desc))) }
    ensures none { IfOk result (λ own. IfNone own (has_own_versions desc ≡ false)) }
{
    if !has_low_tags(&desc) {
        return Ok(None);
    }
    match Level::new(alloc, desc) {
        Ok(level) => Ok(Some(level)),
        Err((LevelFault::Overlap { .. }, _)) => Ok(None),
        Err((LevelFault::NoMemory, _)) => Err(NoMemory),
    }
}

/// Levels in the places of their numbers, or `None` where one of them has not versions of its own. O(greatest version +
/// lengths of all tags) a level. The only error is want of memory.
fn place_levels(alloc: Global, listed: LevelList) -> Result<Option<Levels>, NoMemory>
    requires fits { MayBePlaced listed }
    ensures ok { IfOk result (λ placed. IfSome placed (λ levels. ArePlaced listed levels)) }
    ensures kept { IfOk result (λ placed. IfSome placed (λ levels.
        IsTrue (list_all has_own_versions listed))) }
    ensures none { IfOk result (λ placed. IfNone placed
        (list_all has_own_versions listed ≡ false)) }
{
    let mut left = listed;
    let mut levels = Levels::new();
    while let Some(desc) = left.pop() {
        let number = desc.number as usize;
        let Some(level) = level_if_tags_disjoint(alloc, desc)? else {
            return Ok(None);
        };
        levels.set(number, Some(level));
    }
    Ok(Some(levels))
}

/// Whether a store with this superblock may have a manifest of such counts and such arrays, each taken alone. O(extents of
/// all arrays).
#[tactic(auto, unfolding(def_bytes::specs::Manifest::all_pass))]
fn counts_are_plausible(sb: &SuperBlock, manifest: &Manifest) -> bool
    ensures ok { result ≡ counts_belong (super_of sb.now) (manifest_of manifest.now) }
{
    let levels = manifest.levels.as_slice();
    let has_few_versions = manifest.parents.len() < sb.versions_max as usize;
    let has_few_changes = manifest.changes <= sb.changes_max;
    let has_few_leads = has_few_leads(levels, manifest.updates);
    let is_filled = all_filled(levels);
    has_few_versions
        && has_few_changes
        && has_few_leads
        && is_filled
        && has_few_publications(
            sb.generation,
            manifest.changes,
            manifest.next_array,
            manifest.written,
            manifest.compacted,
        )
}

/// The space in which just the blocks of a manifest's chain and of its arrays are used, or `None` where a store with this
/// superblock may not have it, whatever the versions of its levels are. O((arrays + blocks in a row) log holes). The only
/// error is want of memory.
fn space_if_manifest_fits(
    alloc: Global,
    sb: &SuperBlock,
    manifest: &Manifest,
    chain: &Extents,
) -> Result<Option<Space>, NoMemory>
    requires fits { sb.now.mem ≤ 4096 }
    ensures ok { IfOk result (λ own. IfSome own (λ space. (x : Contents) → x.sb.mem ≡ sb.now.mem
        → x.chained ≡ record { manifest = manifest_of manifest.now; blocks = blocks_of chain.now }
        → UsesJust space (places.first_free sb.now.mem) (named_blocks x))) }
    ensures found { IfOk result (λ own. IfSome own (λ space.
        IsTrue (counts_belong (super_of sb.now) (manifest_of manifest.now)))) }
    ensures kept { IfOk result (λ own. IfSome own (λ space.
        IsTrue (list_all has_own_versions manifest.now.levels) → IsTrue (belongs (super_of sb.now)
        (record { manifest = manifest_of manifest.now; blocks = blocks_of chain.now })))) }
    ensures none { IfOk result (λ own. IfNone own (
        IsTrue (is_lawful_manifest newest_format (manifest_of manifest.now))
        → IsTrue (list_all (λ b. nat_lt b 4294967295) (blocks_of chain.now))
        → belongs (super_of sb.now)
        (record { manifest = manifest_of manifest.now; blocks = blocks_of chain.now }) ≡ false)) }
{
    if !counts_are_plausible(sb, manifest) {
        return Ok(None);
    }
    if !ids_are_distinct(alloc, manifest.levels.as_slice())? {
        return Ok(None);
    }
    space_if_blocks_distinct(alloc, sb.mem, chain, manifest.levels.as_slice())
}

/// A manifest, taken into memory with the blocks of its chain, or `None` where a store with this superblock may not have
/// it. Linear in the manifest, but for O(log) at each array, and memory for its levels twice and, while it runs, for its
/// blocks. The only error is want of memory.
pub fn admit(
    alloc: Global,
    sb: &SuperBlock,
    manifest: Manifest,
    chain: Extents,
) -> Result<Option<Published>, NoMemory>
    requires fits { sb.now.mem ≤ 4096 }
    requires kept { IsTrue (is_lawful_manifest newest_format (manifest_of manifest)) }
    ensures ok { IfOk result (λ own. IfSome own (λ p. chained_of p
        ≡ record { manifest = manifest_of manifest; blocks = blocks_of chain })) }
    ensures kept { IfOk result (λ own. IfSome own (λ p. IsAdmitted (super_of sb.now) p)) }
    ensures none { IfOk result (λ own. IfNone own (
        IsTrue (list_all (λ b. nat_lt b 4294967295) (blocks_of chain))
        → belongs (super_of sb.now)
        (record { manifest = manifest_of manifest; blocks = blocks_of chain }) ≡ false)) }
{
    let Some(_space) = space_if_manifest_fits(alloc, sb, &manifest, &chain)? else {
        return Ok(None);
    };
    let listed = copy_levels(alloc, manifest.levels.as_slice())?;
    let Some(levels) = place_levels(alloc, listed)? else {
        return Ok(None);
    };
    Ok(Some(Published {
        manifest,
        chain,
        levels,
    }))
}
