//! An index over the versions of a level's tags.

ghost use Rattle.std.specs.Prelude.{◌≡◌, ◌<◌, ◌≤◌, ◌⊎◌, ℕ, length, if◌then◌else◌, ◌==◌, Some, IfOk, IfErr, OnOk, OnErr, IsSome};
ghost use Rattle.std.specs.List.{sum_by};
ghost use Rattle.strat_level.specs.Levels.{arrays_for, HaveDisjointTags};
ghost use Rattle.strat_level.specs.Index.{slot, AreSlotsBelow, IsIndexOf, IsTagAdded, IfOverlap, IsTaken};

use std::alloc::Global;
use strat_base::{ArrayDesc, NoMemory, Version};

/// Why a descriptor makes no level in memory.
#[derive(Clone, Copy, Debug, PartialEq, Eq)]
pub enum LevelFault {
    /// This version stands in the tags of two arrays.
    Overlap { version: Version },
    /// Memory ran out.
    NoMemory,
}

impl From<NoMemory> for LevelFault {
    ghost use Rattle.std.specs.Prelude.{◌≡◌};
    ghost use Rattle.strat_level.specs.declared.index.LevelFault.TheVariants as fault;

    ghost from_gives = { λ _ e. e ≡ fault.NoMemory };

    fn from(_: NoMemory) -> LevelFault {
        LevelFault::NoMemory
    }
}

/// Makes the index reach to a version, with no number at those that it did not reach to.
fn reach(index: &mut Vec<Option<u32>>, version: Version) -> Result<(), NoMemory>
    ensures ok { OnOk result ((v : ℕ) → slot index.new.items v ≡ slot index.old.items v) }
    ensures len { OnOk result (version < length index.new.items) }
    ensures err { OnErr result (index.new.items ≡ index.old.items) }
{
    let place = version as usize;
    if place >= index.len() {
        index.resize(place + 1, None)?;
    }
    Ok(())
}

/// Puts an array's number at a version. Refused where another number stands there.
fn put_number(index: &mut Vec<Option<u32>>, number: u32, version: Version) -> Result<(), LevelFault>
    ensures ok { OnOk result ((v : ℕ) → slot index.new.items v
        ≡ (if version == v then Some number else slot index.old.items v)) }
    ensures found { OnOk result ((slot index.old.items version ≡ None)
        ⊎ (slot index.old.items version ≡ Some number)) }
    ensures err { IfErr result (λ e. IfOverlap e (λ v. (v ≡ version)
        × (n : ℕ) × (slot index.old.items v ≡ Some n) × (¬ n ≡ number))) }
{
    reach(index, version)?;
    let place = version as usize;
    match index[place] {
        Some(other) if other != number => Err(LevelFault::Overlap { version }),
        _ => {
            index[place] = Some(number);
            Ok(())
        }
    }
}

/// Puts an array's number at each version of its tag. A version that stands in it twice is no fault.
fn add_tag(index: &mut Vec<Option<u32>>, number: u32, tag: &[Version]) -> Result<(), LevelFault>
    requires fits { AreSlotsBelow index.old.items number }
    ensures ok { OnOk result (IsTagAdded index.old.items index.new.items number tag.now) }
    ensures err { IfErr result (λ e. IfOverlap e (IsTaken index.old.items tag.now)) }
{
    for version in tag {
        put_number(index, number, *version)?;
    }
    Ok(())
}

/// The index of these arrays. It is as long as the greatest version in a tag plus one, with 8 bytes
/// for each. O(its length plus the lengths of all tags).
pub(crate) fn index_of(alloc: Global, arrays: &[ArrayDesc]) -> Result<Vec<Option<u32>>, LevelFault>
    ensures ok { IfOk result (λ index. IsIndexOf index.items arrays.now) }
    ensures kept { OnOk result (HaveDisjointTags arrays.now) }
    ensures err { IfErr result (λ e. IfOverlap e (λ v. 1 < arrays_for arrays.now v)) }
{
    let mut index = Vec::new(alloc);
    for i in 0..arrays.len() {
        // No memory holds 2^32 descriptors.
        let Ok(number) = u32::try_from(i) else {
            return Err(LevelFault::NoMemory);
        };
        add_tag(&mut index, number, arrays[i].versions.as_slice())?;
    }
    Ok(index)
}

/// The leads of all these arrays. O(arrays).
pub(crate) fn sum_of_leads(arrays: &[ArrayDesc]) -> u32
    requires { sum_by (λ a. a.leads) arrays.now ≤ 4294967295 }
    ensures ok { result ≡ sum_by (λ a. a.leads) arrays.now }
{
    let mut leads = 0;
    for array in arrays {
        leads += array.leads;
    }
    leads
}
