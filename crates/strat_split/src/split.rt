//! The split of the versions below a horizon.

ghost use Rattle.std.specs.Prelude.{◌≡◌, ◌<◌, ◌≤◌, ℕ, List, length, slice_set, IfOk};
ghost use Rattle.strat_base.specs.Tree.{Parents};
ghost use Rattle.strat_live.specs.Counting.{IsCount, SameParents};
ghost use Rattle.def_split.specs.Plan.{IsSplit};
ghost use Rattle.strat_split.specs.Placing.{nth_part, lowered, IsLowered, IsDivided};
ghost use Rattle.strat_split.specs.PlanSeen.{plan_seen};
ghost use Rattle.strat_split.specs.Survey.{told, IsSized, AreCounted};
ghost use Rattle.def_state.specs.Counted.{own_at, keys_at};

use crate::gather::gather;
use crate::parts::{Part, Plan};
use crate::place::place;
use crate::survey::Survey;
use std::alloc::Global;
use strat_base::{Listing, NoMemory};
use strat_live::Counts;
use strat_tree::Tree;

/// Splits the versions below a horizon into parts, by the counts of their items and live keys, of which
/// `finish` was the last change. O(versions). Takes 4 bytes for each version and 20 for each part, and
/// some 20 for each version as it goes; the only error is want of memory.
pub fn plan(alloc: Global, tree: &Tree, counts: &Counts, horizon: u32) -> Result<Plan, NoMemory>
    requires len { length counts.now.own ≡ horizon }
    requires fits { (1 ≤ horizon) × (horizon ≤ length tree.now.parents) }
    ensures ok { (parents : Parents) (groups : List (List ℕ))
        → SameParents horizon parents tree.now.parents → IsCount parents groups counts.now
        → IfOk result (λ plan. IsSplit parents (own_at groups) (keys_at parents groups)
        (plan_seen plan)) }
    ensures len { IfOk result (λ plan. length plan.part_of ≡ horizon) }
    ensures room { IfOk result (λ plan. length plan.parts ≤ horizon) }
{
    let survey = survey_of(tree, counts, horizon);
    split(alloc, &survey)
}

/// What is known of the versions below a horizon.
fn survey_of<'a>(tree: &'a Tree, counts: &'a Counts, horizon: u32) -> Survey<'a>
    requires len { length counts.now.own ≡ horizon }
    requires fits { (1 ≤ horizon) × (horizon ≤ length tree.now.parents) }
    ensures ok { told result ≡ record {
      parents = tree.now.parents;
      own = counts.now.own;
      live = counts.now.live;
    } }
    ensures kept { IsSized (told result) }
{
    // For the proof: the parents are a tree.
    let _ = tree.count();
    Survey {
        parents: tree.parents(),
        own: &counts.own_counts()[..horizon as usize],
        live: counts.live_counts(),
    }
}

/// Splits the versions of a survey. O(versions).
fn split(alloc: Global, survey: &Survey) -> Result<Plan, NoMemory>
    requires kept { IsSized (told survey.now) }
    ensures ok { AreCounted (told survey.now)
        → IfOk result (λ plan. IsDivided (told survey.now) plan.part_of plan.parts) }
    ensures len { IfOk result (λ plan. length plan.part_of ≡ length survey.now.own.now) }
    ensures room { IfOk result (λ plan. length plan.parts ≤ length survey.now.own.now) }
{
    let gathered = gather(alloc, survey)?;
    let mut draft = place(alloc, survey, &gathered)?;
    lower_leasts(&mut draft.parts, &draft.labels, survey.live);
    let part_of = listed(alloc, &draft.labels)?;
    let parts = listed(alloc, &draft.parts)?;
    Ok(Plan { part_of, parts })
}

/// A list of these items.
fn listed<T: Copy + Drop>(alloc: Global, items: &[T]) -> Result<Listing<T>, NoMemory>
    ensures ok { IfOk result (λ list. list ≡ items.now) }
{
    let mut list = Listing::new(alloc);
    list.extend(items)?;
    Ok(list)
}

/// Lowers each part's least number to the least number of live keys of its versions. O(versions).
fn lower_leasts(parts: &mut [Part], labels: &[u32], live: &[u32])
    requires len { length live.now ≡ length labels.now }
    ensures ok { IsLowered labels.now live.now (length labels.now) parts.old parts.new }
{
    for v in 0..labels.len() {
        lower(parts, labels[v] as usize, live[v]);
    }
}

/// Lowers the least number of a part, if there is one with this number.
#[tactic(auto, using(std::proofs::lemmas::List::set_past))]
fn lower(parts: &mut [Part], q: usize, live: u32)
    ensures ok { parts.new ≡ slice_set parts.old q (lowered (nth_part parts.old q) live) }
{
    if q < parts.len() {
        parts[q].least = parts[q].least.min(live);
    }
}
