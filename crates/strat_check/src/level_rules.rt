//! The rules of a level, told from what was counted of its leads and from descriptors.

ghost use Rattle.std.specs.List.{flat_map, list_all, range_with_len};
ghost use Rattle.std.specs.Prelude.{◌≡◌, ◌≤◌, ◌<◌, ◌*◌, ◌^◌, nat_lt, nat_le, length, IfOk, IsTrue};
ghost use Rattle.strat_check.specs.LevelNumbers.{marked_with, marked_of, is_quiet};

use crate::sights::Sights;
use std::alloc::Global;
use strat_base::{ArrayDesc, LevelDesc, NoMemory, Version};

/// Marks the versions of a tag. O(tag).
fn mark_tag(marks: &mut [bool], tag: &[Version])
    requires fits { IsTrue (list_all (λ v. nat_lt v (length marks.old)) tag.now) }
    ensures ok { marks.new ≡ marked_with marks.old tag.now }
{
    for v in tag {
        marks[*v as usize] = true;
    }
}

/// Marks the versions of the tags of arrays. O(lengths of all tags).
fn mark_tags(marks: &mut [bool], arrays: &[ArrayDesc])
    requires fits { IsTrue (list_all (λ a. list_all (λ v. nat_lt v (length marks.old)) a.versions)
        arrays.now) }
    ensures ok { marks.new ≡ marked_with marks.old (flat_map (λ a. a.versions) arrays.now) }
{
    for array in arrays {
        mark_tag(marks, array.versions.as_slice());
    }
}

/// Whether a version is marked or sees no key. O(1).
fn is_quiet(marks: &[bool], sights: &Sights, v: Version) -> bool
    requires len { v < length marks.now }
    requires fits { v < length sights.now.own }
    ensures ok { result ≡ is_quiet marks.now sights.now v }
{
    marks[v as usize] || sights.seen(v) == 0
}

/// Whether each version below a horizon is marked or sees no key. O(horizon).
fn are_quiet(marks: &[bool], sights: &Sights, horizon: u32) -> bool
    requires len { length marks.now ≡ horizon }
    requires fits { horizon ≤ length sights.now.own }
    ensures ok { result
        ≡ list_all (is_quiet marks.now sights.now) (range_with_len 0 horizon) }
{
    for v in 0..horizon {
        if !is_quiet(marks, sights, v) {
            return false;
        }
    }
    true
}

/// b, of a level: each version below the horizon that sees a lead is in a tag. Takes a byte for each of these versions while it
/// runs; the only error is want of memory. O(horizon + lengths of all tags).
pub fn is_tagged(alloc: Global, level: &LevelDesc, sights: &Sights) -> Result<bool, NoMemory>
    requires fits { level.now.horizon ≤ length sights.now.own }
    requires room { IsTrue (list_all
        (λ a. list_all (λ v. nat_lt v level.now.horizon) a.versions) level.now.arrays) }
    ensures ok { IfOk result (λ told. told ≡ list_all
        (is_quiet (marked_of level.now.horizon level.now.arrays) sights.now)
        (range_with_len 0 level.now.horizon)) }
{
    let mut marks = vec![in alloc; false; level.horizon as usize]?;
    mark_tags(&mut marks, level.arrays.as_slice());
    Ok(are_quiet(&marks, sights, level.horizon))
}

/// h, of a level: so many leads have room in it. O(1).
pub fn has_room(leads: u64, mem: u32, number: u8) -> bool
    requires fits { number ≤ 22 }
    ensures ok { result ≡ nat_le leads (mem * 2 ^ number) }
{
    leads <= u64::from(mem).saturating_mul(1 << number)
}
