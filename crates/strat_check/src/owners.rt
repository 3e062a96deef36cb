//! Which array of a level has a version in its tag.

ghost use Rattle.std.specs.List.{Contains, list_all, flat_map};
ghost use Rattle.std.specs.Prelude.{◌≡◌, ◌<◌, ◌≤◌, ℕ, nat_lt, if◌then◌else◌, length, map, slice_index, IfOk, IsTrue};
ghost use Rattle.strat_base.specs.Entries.{is_tagged};
ghost use Rattle.strat_base.specs.declared.descriptors.ArrayDesc.{ArrayDesc as Desc};
ghost use Rattle.def_state.specs.Level.{is_distinct};
ghost use Rattle.strat_check.specs.Owners.{AreOwners};

use std::alloc::Global;
use strat_base::{ArrayDesc, NoMemory, Version};

/// What stands for no array: no place is as great.
const NONE: u32 = u32::MAX;

/// Notes a place at each version of a tag.
fn claim(owners: &mut [u32], tag: &[Version], place: u32)
    requires fits { IsTrue (list_all (λ v. nat_lt v (length owners.old)) tag.now) }
    ensures ok { (u : ℕ) → u < length owners.old → slice_index owners.new u
        ≡ (if is_tagged tag.now u then place else slice_index owners.old u) }
    ensures len { length owners.new ≡ length owners.old }
{
    for v in tag {
        owners[*v as usize] = place;
    }
}

/// For each version below a number, the place of the array in whose tag it is, or a number that is no place. Takes 4 bytes
/// a version. O(versions and tags).
pub(crate) fn owners_of(
    alloc: Global,
    arrays: &[ArrayDesc],
    versions: u32,
) -> Result<Vec<u32>, NoMemory>
    requires fits { (a : Desc) → Contains arrays.now a
        → IsTrue (list_all (λ v. nat_lt v versions) a.versions) }
    requires room { length arrays.now ≤ 16384 }
    ensures ok { IfOk result (λ owners. IsTrue (is_distinct (flat_map (λ a. a.versions) arrays.now))
        → AreOwners (map (λ a. a.versions) arrays.now) owners.items) }
    ensures len { IfOk result (λ owners. length owners.items ≡ versions) }
{
    let mut owners = vec![in alloc; NONE; versions as usize]?;
    for i in 0..arrays.len() {
        claim(&mut owners, arrays[i].versions.as_slice(), i as u32);
    }
    Ok(owners)
}
