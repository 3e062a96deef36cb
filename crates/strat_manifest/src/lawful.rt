//! Tests of what a manifest with a spelling keeps: each is one pass over what it tests, and takes no memory.

ghost use Rattle.std.specs.Prelude.{◌≡◌, ◌&&◌, ◌||◌, ◌+◌, ◌^◌, ◌==◌, not, nat_le, nat_lt, map, [], ◌∷◌, None, Some};
ghost use Rattle.std.specs.List.{list_all};
ghost use Rattle.strat_base.specs.Marks as drops;
ghost use Rattle.def_bytes.specs.Manifest as rules;
ghost use Rattle.strat_manifest.specs.ManifestView as views;
ghost use Rattle.strat_manifest.specs.ManifestView.{manifest_of, marks_listed};
ghost use Rattle.strat_manifest.specs.Pruned as pruning;

use crate::manifest::Manifest;
use strat_base::limits::{LEVELS, VERSIONS_MAX};
use strat_base::{ArrayDesc, Extent, LevelDesc};

/// Whether numbers ascend strictly.
#[tactic(auto, using(crate::proofs::LawfulLemmas::rising_on, crate::proofs::LawfulLemmas::rising_broken, crate::proofs::LawfulLemmas::rising_over))]
fn rise(xs: &[u32]) -> bool
    ensures ok { result ≡ rules.is_rising xs.now }
{
    let mut left = xs;
    while left.len() >= 2 {
        if left[0] >= left[1] {
            return false;
        }
        left = &left[1..];
    }
    true
}

/// Whether an extent has a block, and ends at a block number.
fn is_lawful_extent(x: &Extent) -> bool
    ensures ok { result ≡ rules.is_lawful_extent x.now }
{
    x.len >= 1 && x.start.checked_add(x.len).is_some()
}

/// Whether an extent begins where another ends.
fn touches(x: &Extent, y: &Extent) -> bool
    ensures ok { result ≡ (x.now.start + x.now.len == y.now.start) }
{
    u64::from(x.start) + u64::from(x.len) == u64::from(y.start)
}

/// Whether no extent begins where the one before it ends.
#[tactic(auto, using(crate::proofs::LawfulLemmas::apart_on, crate::proofs::LawfulLemmas::apart_broken, crate::proofs::LawfulLemmas::apart_over))]
fn stand_apart(xs: &[Extent]) -> bool
    ensures ok { result ≡ rules.are_apart xs.now }
{
    let mut left = xs;
    while left.len() >= 2 {
        if touches(&left[0], &left[1]) {
            return false;
        }
        left = &left[1..];
    }
    true
}

/// Whether a number of items can be counted in four bytes, and is not 0.
fn can_be_counted(n: usize) -> bool
    ensures ok { result ≡ (nat_le 1 n && nat_lt n (2 ^ 32)) }
{
    n >= 1 && n <= u32::MAX as usize
}

/// Whether each extent has a block, and ends at a block number.
fn each_is_lawful(xs: &[Extent]) -> bool
    ensures ok { result ≡ list_all rules.is_lawful_extent xs.now }
{
    xs.iter().all(|x| is_lawful_extent(x))
}

/// Whether these may be the extents of an array.
fn are_lawful_extents(xs: &[Extent]) -> bool
    ensures ok { result ≡ (rules.is_counted xs.now
        && list_all rules.is_lawful_extent xs.now && rules.are_apart xs.now) }
{
    let is_counted = can_be_counted(xs.len());
    let is_lawful = each_is_lawful(xs);
    is_counted && is_lawful && stand_apart(xs)
}

/// Whether these may be the tag of an array.
fn are_lawful_versions(xs: &[u32]) -> bool
    ensures ok { result ≡ (rules.is_counted xs.now && list_all (λ v. nat_lt v (2 ^ 32)) xs.now
        && rules.is_rising xs.now) }
{
    can_be_counted(xs.len()) && rise(xs)
}

/// Whether the numbers of an array may be those of one that is numbered below the next.
#[tactic(auto, unfolding(def_bytes::specs::Manifest::all_pass))]
fn are_lawful_numbers(next_array: u64, a: &ArrayDesc) -> bool
    ensures ok { result ≡ rules.all_pass (nat_le 1 a.now.id ∷ nat_lt a.now.id next_array
        ∷ nat_le 1 a.now.entries ∷ nat_lt a.now.entries (2 ^ 32)
        ∷ nat_le a.now.leads a.now.entries ∷ nat_le a.now.least a.now.entries ∷ []) }
{
    let is_numbered = a.id >= 1 && a.id < next_array;
    let has_entries = a.entries >= 1;
    is_numbered && has_entries && a.leads <= a.entries && a.least <= a.entries
}

/// Whether an array is numbered below the next one, and has its extents and its tag as a spelling has them.
#[tactic(auto, unfolding(def_bytes::specs::Manifest::all_pass))]
fn is_lawful_array(next_array: u64, a: &ArrayDesc) -> bool
    ensures ok { result ≡ rules.is_lawful_array next_array a.now }
{
    let has_numbers = are_lawful_numbers(next_array, a);
    let has_extents = are_lawful_extents(a.extents.as_slice());
    let has_versions = are_lawful_versions(a.versions.as_slice());
    has_numbers && has_extents && has_versions
}

/// Whether each array is lawful.
fn each_array_is_lawful(next_array: u64, arrays: &[ArrayDesc]) -> bool
    ensures ok { result ≡ list_all (rules.is_lawful_array next_array) arrays.now }
{
    arrays.iter().all(|a| is_lawful_array(next_array, a))
}

/// The first version of an array's tag, or 0 where it has none.
fn first_version(a: &ArrayDesc) -> u32
    ensures ok { result ≡ rules.first_version a.now }
{
    match a.versions.as_slice().first() {
        Some(v) => *v,
        None => 0,
    }
}

/// Whether the first versions of arrays ascend strictly.
#[tactic(auto, using(crate::proofs::LawfulLemmas::mapped_on, crate::proofs::LawfulLemmas::mapped_broken, crate::proofs::LawfulLemmas::mapped_over))]
fn first_versions_rise(arrays: &[ArrayDesc]) -> bool
    ensures ok { result ≡ rules.is_rising (map rules.first_version arrays.now) }
{
    let mut left = arrays;
    while left.len() >= 2 {
        if first_version(&left[0]) >= first_version(&left[1]) {
            return false;
        }
        left = &left[1..];
    }
    true
}

/// Whether the numbers of levels ascend strictly.
#[tactic(auto, using(crate::proofs::LawfulLemmas::mapped_on, crate::proofs::LawfulLemmas::mapped_broken, crate::proofs::LawfulLemmas::mapped_over))]
fn numbers_rise(levels: &[LevelDesc]) -> bool
    ensures ok { result ≡ rules.is_rising (map (λ level. level.number) levels.now) }
{
    let mut left = levels;
    while left.len() >= 2 {
        if left[0].number >= left[1].number {
            return false;
        }
        left = &left[1..];
    }
    true
}

/// Whether a level is one of a store with so many versions.
#[tactic(auto, unfolding(def_bytes::specs::Manifest::all_pass))]
fn is_lawful_level(versions: u32, next_array: u64, level: &LevelDesc) -> bool
    ensures ok { result ≡ rules.is_lawful_level versions next_array level.now }
{
    let arrays = level.arrays.as_slice();
    let is_numbered = level.number >= 1 && level.number as usize <= LEVELS;
    let has_horizon = level.horizon >= 1 && level.horizon <= versions;
    let has_arrays = can_be_counted(arrays.len());
    let is_lawful = each_array_is_lawful(next_array, arrays);
    is_numbered && has_horizon && has_arrays && is_lawful && first_versions_rise(arrays)
}

/// Whether each level is lawful.
fn each_level_is_lawful(versions: u32, next_array: u64, levels: &[LevelDesc]) -> bool
    ensures ok { result ≡ list_all (rules.is_lawful_level versions next_array) levels.now }
{
    levels
        .iter()
        .all(|level| is_lawful_level(versions, next_array, level))
}

/// Whether each parent is older than its child, where the first child is version 1.
#[tactic(auto, using(crate::proofs::LawfulLemmas::older_on, crate::proofs::LawfulLemmas::older_broken, crate::proofs::LawfulLemmas::older_over))]
fn are_older(parents: &[u32]) -> bool
    ensures ok { result ≡ rules.are_older 1 parents.now }
{
    for (i, parent) in parents.iter().enumerate() {
        if *parent as usize > i {
            return false;
        }
    }
    true
}

/// Whether the numbers in front of a manifest may be those of one.
#[tactic(auto, unfolding(def_bytes::specs::Manifest::all_pass))]
fn are_lawful_counts(changes: u32, updates: u32, written: u64, next_array: u64) -> bool
    ensures ok { result ≡ rules.all_pass (nat_lt changes (2 ^ 32) ∷ nat_le updates changes
        ∷ nat_lt written (2 ^ 64) ∷ nat_le 1 next_array ∷ nat_lt next_array (2 ^ 64) ∷ []) }
{
    updates <= changes && next_array >= 1
}

/// Whether each number is that of a mark, 0 or 1.
pub(crate) fn are_marks(marks: &[u32]) -> bool
    ensures ok { result ≡ views.are_marks marks.now }
{
    marks.iter().all(|mark| *mark <= 1)
}

/// Whether no number is that of a mark which is set.
fn each_is_unset(marks: &[u32]) -> bool
    ensures ok { result ≡ list_all (λ n. not (n == 1)) marks.now }
{
    marks.iter().all(|mark| *mark != 1)
}

/// Whether no mark says that a version was dropped.
fn none_is_dropped(marks: &[u32]) -> bool
    ensures ok { result ≡ list_all not (marks_listed marks.now) }
{
    each_is_unset(marks)
}

/// Whether a format has these fields: format 1 has no entries compacted and no version dropped.
fn has_fields(format: u16, compacted: u64, marks: &[u32]) -> bool
    ensures ok { result ≡ ((format == 2)
        || ((format == 1) && (compacted == 0) && list_all not (marks_listed marks.now))) }
{
    let is_bare = compacted == 0 && none_is_dropped(marks);
    format == 2 || format == 1 && is_bare
}

/// Whether a version is marked as dropped.
#[tactic(auto, using(crate::proofs::MarkLemmas::mark_at, crate::proofs::MarkLemmas::mark_past))]
fn is_dropped(marks: &[u32], v: usize) -> bool
    ensures ok { result ≡ drops.is_dropped (marks_listed marks.now) v }
{
    if v < marks.len() {
        marks[v] == 1
    } else {
        false
    }
}

/// Whether a version was dropped if its parent was.
fn goes_with(marks: &[u32], parent: usize, v: usize) -> bool
    ensures ok { result ≡ (not (drops.is_dropped (marks_listed marks.now) parent)
        || drops.is_dropped (marks_listed marks.now) v) }
{
    !is_dropped(marks, parent) || is_dropped(marks, v)
}

/// Whether below a dropped version all were dropped, where the first parent is that of version 1.
#[tactic(auto, using(crate::proofs::MarkLemmas::below_on, crate::proofs::MarkLemmas::below_broken, crate::proofs::MarkLemmas::below_over))]
fn are_pruned_from(marks: &[u32], parents: &[u32]) -> bool
    ensures ok { result ≡ pruning.are_pruned_from (marks_listed marks.now) 1 parents.now }
{
    for (i, parent) in parents.iter().enumerate() {
        if !goes_with(marks, *parent as usize, i + 1) {
            return false;
        }
    }
    true
}

/// Whether each version has a mark, version 0 is living, and below a dropped version all were dropped.
#[tactic(auto, using(crate::proofs::MarkLemmas::pruned_is))]
fn are_pruned(parents: &[u32], marks: &[u32]) -> bool
    ensures ok { result ≡ drops.are_pruned (None ∷ map (λ p. Some p) parents.now)
        (marks_listed marks.now) }
{
    let has_marks = marks.len() == parents.len() + 1;
    let has_root = !is_dropped(marks, 0);
    has_marks && has_root && are_pruned_from(marks, parents)
}

/// Whether a manifest has a spelling in a format. One pass over it, O(size), with no memory taken.
#[tactic(auto, unfolding(def_bytes::specs::Manifest::all_pass))]
pub(crate) fn is_lawful(m: &Manifest, format: u16) -> bool
    ensures ok { result ≡ rules.is_lawful_manifest format (manifest_of m.now) }
{
    let parents = m.parents.as_slice();
    let marks = m.marks.as_slice();
    let levels = m.levels.as_slice();
    if parents.len() >= VERSIONS_MAX as usize || levels.len() > LEVELS {
        return false;
    }
    let versions = parents.len() as u32 + 1;
    let has_numbers = are_lawful_counts(m.changes, m.updates, m.written, m.next_array);
    let is_older = are_older(parents);
    let is_lawful = each_level_is_lawful(versions, m.next_array, levels);
    let has_fields = has_fields(format, m.compacted, marks);
    let is_pruned = are_pruned(parents, marks);
    has_numbers && is_older && is_lawful && numbers_rise(levels) && has_fields && is_pruned
}
