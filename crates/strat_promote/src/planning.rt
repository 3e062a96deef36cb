//! Between the passes: the versions are split, and an array is begun for each part.

ghost use Rattle.std.specs.List.{slice_get};
ghost use Rattle.std.specs.Prelude.{◌≡◌, ◌<◌, ◌≤◌, ◌+◌, ◌^◌, ℕ, List, [], length, Some, IfOk, OnOk};
ghost use Rattle.strat_array.specs.Progress.{ArrayProgress};
ghost use Rattle.strat_base.specs.Tree.{Parents};
ghost use Rattle.strat_live.specs.Counting.{IsCount, SameParents};
ghost use Rattle.def_split.specs.Plan.{IsSplit};
ghost use Rattle.strat_promote.specs.Filled.{IsFilling};
ghost use Rattle.strat_promote.specs.Planning.{AreNew, IsNew};
ghost use Rattle.strat_split.specs.PlanSeen.{plan_seen};
ghost use Rattle.def_state.specs.Counted.{own_at, keys_at};

use crate::filling::Filling;
use std::alloc::Global;
use strat_array::ArrayWriter;
use strat_base::NoMemory;
use strat_base::limits::ENTRIES_MAX;
use strat_live::Counts;
use strat_split::parts::Plan;
use strat_split::{Dealer, Hanging, plan};
use strat_tree::Tree;

/// Has a new writer keep a filter for so many entries, if an array may have them and there is memory for it. Without one its
/// array is read where a filter would have refused the key.
fn try_filter(writer: &mut ArrayWriter, alloc: Global, entries: u32)
    ensures ok { (id : ℕ) → IsNew id writer.old → IsNew id writer.new }
{
    if 1 <= entries && entries <= ENTRIES_MAX {
        let _kept = writer.keep_filter(alloc, entries);
    }
}

/// A writer of the array of this number, for so many entries. It takes a block of memory, and a byte for each entry if there
/// is memory for these.
fn new_writer(alloc: Global, id: u64, entries: u32) -> Result<ArrayWriter, NoMemory>
    ensures ok { IfOk result (λ w. IsNew id w) }
{
    let mut writer = ArrayWriter::new(alloc, id)?;
    try_filter(&mut writer, alloc, entries);
    Ok(writer)
}

/// Writers of the arrays of a plan's parts, numbered from the first on.
#[tactic(auto, using(crate::proofs::PlanningLemmas::none_new, crate::proofs::PlanningLemmas::new_more))]
fn new_writers(alloc: Global, first: u64, plan: &Plan) -> Result<Vec<ArrayWriter>, NoMemory>
    requires fits { first + length plan.now.parts < 2 ^ 64 }
    ensures ok { IfOk result (λ writers. AreNew first writers.items) }
    ensures len { IfOk result (λ writers. length writers.items ≡ length plan.now.parts) }
{
    let n = plan.parts.len();
    let mut writers = Vec::with_capacity(alloc, n)?;
    for q in 0..n {
        let part = plan.parts.get(q);
        writers.push(new_writer(alloc, first + q as u64, part.entries)?)?;
    }
    Ok(writers)
}

/// The plan of what was counted, and an array for each of its parts. O(versions + entries). Takes a block of memory for each
/// part, some 60 bytes for each part and version, and for the filter of an array a byte for each entry, if they are there.
pub(crate) fn begin_filling(
    alloc: Global,
    counts: &Counts,
    tree: &Tree,
    horizon: u32,
    first: u64,
) -> Result<Filling, NoMemory>
    requires len { length counts.now.own ≡ horizon }
    requires fits { (1 ≤ horizon) × (horizon ≤ length tree.now.parents) }
    requires room { first ≤ 2 ^ 63 }
    ensures ok { (parents : Parents) (groups : List (List ℕ))
        → SameParents horizon parents tree.now.parents → IsCount parents groups counts.now
        → IfOk result (λ filling. IsSplit parents (own_at groups) (keys_at parents groups)
        (plan_seen filling.plan)) }
    ensures kept { IfOk result (λ filling. IsFilling horizon filling) }
    ensures found { IfOk result (λ filling. AreNew first filling.writers.items) }
{
    // For the proof: the parents are a tree.
    let _versions = tree.count();
    let plan = plan(alloc, tree, counts, horizon)?;
    let hanging = Hanging::new(alloc, &plan)?;
    let dealer = Dealer::new(alloc, plan.parts.len())?;
    let writers = new_writers(alloc, first, &plan)?;
    Ok(Filling {
        plan,
        hanging,
        dealer,
        writers,
    })
}
