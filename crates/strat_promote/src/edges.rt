//! How a promotion begins, and what is told and given back at its end.

ghost use Rattle.std.specs.List.{sum, sum_by};
ghost use Rattle.std.specs.Prelude.{◌≡◌, ◌≤◌, ◌-◌, ◌^◌, min, IfOk};
ghost use Rattle.strat_level.specs.Target.{leads_down_to};
ghost use Rattle.strat_extent.specs.Change.{IsMarked, CanGive};
ghost use Rattle.strat_promote.specs.Closing.{all_extents};
ghost use Rattle.strat_promote.specs.Promotions.{leads_listed, is_deepest};

use std::alloc::Global;
use strat_array::ArrayWriter;
use strat_base::limits::LEVELS;
use strat_base::{ArrayDesc, NoMemory};
use strat_extent::Space;
use strat_level::{Levels, Zero};

/// How many leads level 0 has, and each of the levels below it. O(levels).
pub(crate) fn leads_of(alloc: Global, zero: &Zero, levels: &Levels) -> Result<Vec<u32>, NoMemory>
    requires fits { sum (leads_listed zero.now.list levels.now) ≤ 2 ^ 24 }
    ensures ok { IfOk result (λ leads. leads.items ≡ leads_listed zero.now.list levels.now) }
{
    let mut leads = Vec::with_capacity(alloc, LEVELS + 1)?;
    leads.push(zero.items().len() as u32)?;
    for number in 1..=LEVELS {
        leads.push(levels.leads(number))?;
    }
    Ok(leads)
}

/// How many leads level 0 has, and the levels down to this one, together. O(levels).
pub(crate) fn leads_to(zero: &Zero, levels: &Levels, target: usize) -> u64
    requires fits { sum (leads_listed zero.now.list levels.now) ≤ 2 ^ 24 }
    ensures ok { result ≡ leads_down_to (leads_listed zero.now.list levels.now) target }
{
    let mut total = zero.items().len() as u64;
    for number in 1..=target.min(LEVELS) {
        total += levels.leads(number) as u64;
    }
    total
}

/// Whether no level is deeper than this one. O(levels).
pub(crate) fn is_deepest(levels: &Levels, target: usize) -> bool
    ensures ok { result ≡ is_deepest levels.now target }
{
    for number in 1..=LEVELS {
        let level = levels.get(number);
        if number > target && level.is_some() {
            return false;
        }
    }
    true
}

/// How many entries arrays have, as their descriptors say. O(arrays).
pub(crate) fn count_entries(arrays: &[ArrayDesc]) -> u64
    ensures ok { result ≡ min (sum_by (λ a. a.entries) arrays.now) (2 ^ 64 - 1) }
{
    let mut entries = 0u64;
    for array in arrays {
        entries = entries.saturating_add(array.entries as u64);
    }
    entries
}

/// Gives the blocks of all writers back. O(extents), each with what `Space::give` takes.
pub(crate) fn give_all(writers: &[ArrayWriter], space: &mut Space)
    requires found { CanGive space.old (all_extents writers.now) }
    ensures ok { IsMarked space.new (all_extents writers.now) space.old }
{
    for writer in writers {
        space.give(writer.extents());
    }
}
