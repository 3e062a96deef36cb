//! Copies of the levels of a manifest.

ghost use Rattle.std.specs.Prelude.{◌≡◌, ◌++◌, ◌∷◌, [], IfOk, OnOk};

use std::alloc::Global;
use strat_base::{ArrayDesc, Arrays, LevelDesc, NoMemory};
use strat_manifest::LevelList;

/// Equal descriptors of arrays, in the time of copying their extents and tags.
fn copy_arrays(alloc: Global, arrays: &[ArrayDesc]) -> Result<Arrays, NoMemory>
    ensures ok { IfOk result (λ copy. copy ≡ arrays.now) }
{
    let mut copy = Arrays::new(alloc);
    for array in arrays {
        let one = array.try_clone()?;
        if let Err((failed, _)) = copy.push(one) {
            return Err(failed);
        }
    }
    Ok(copy)
}

/// An equal descriptor of a level.
fn copy_level(alloc: Global, level: &LevelDesc) -> Result<LevelDesc, NoMemory>
    ensures ok { IfOk result (λ copy. copy ≡ level.now) }
{
    let arrays = copy_arrays(alloc, level.arrays.as_slice())?;
    Ok(LevelDesc {
        number: level.number,
        horizon: level.horizon,
        arrays,
    })
}

/// Adds an equal descriptor of a level to a list.
pub fn add_copy(alloc: Global, levels: &mut LevelList, level: &LevelDesc) -> Result<(), NoMemory>
    ensures ok { OnOk result (levels.new ≡ levels.old ++ level.now ∷ []) }
{
    let copy = copy_level(alloc, level)?;
    if let Err((failed, _)) = levels.push(copy) {
        return Err(failed);
    }
    Ok(())
}

/// Equal descriptors of levels. O(size).
pub fn copy_levels(alloc: Global, levels: &[LevelDesc]) -> Result<LevelList, NoMemory>
    ensures ok { IfOk result (λ copy. copy ≡ levels.now) }
{
    let mut copy = LevelList::new(alloc);
    for level in levels {
        add_copy(alloc, &mut copy, level)?;
    }
    Ok(copy)
}
