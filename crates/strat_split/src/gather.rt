//! The first pass of a split: from the greatest version down, what becomes of each version's rest.

ghost use Rattle.std.specs.Prelude.{◌≡◌, ◌<◌, ◌≤◌, ◌+◌, length, replicate, IfOk};
ghost use Rattle.strat_split.specs.Greedy.{is_enough, fate_after, open_after, sums_from, leads_of_rest, fate_of, IsGathered};
ghost use Rattle.strat_split.specs.Survey.{told, IsSized};

use crate::survey::{Survey, parent_of};
use std::alloc::Global;
use strat_base::NoMemory;

/// What becomes of a version's rest, which is the version and all that joined it: it joins the open
/// group of its parent; or it closes that group, which has so many leads; or it is a part by itself.
#[derive(Clone, Copy)]
pub(crate) enum Fate {
    Joins,
    Closes(u32),
    Alone(u32),
}

/// How many leads are left with version 0, and what becomes of the rest of each other version.
#[derive(Drop)]
pub(crate) struct Gathered {
    pub first: u32,
    pub fates: Vec<Fate>,
}

/// Takes the versions from the greatest down to 1. O(versions).
pub(crate) fn gather(alloc: Global, survey: &Survey) -> Result<Gathered, NoMemory>
    requires kept { IsSized (told survey.now) }
    ensures ok { IfOk result (λ g. IsGathered (told survey.now) g.first g.fates.items) }
{
    let n = survey.own.len();
    let mut sums = zeros(alloc, n)?;
    let mut fates = all_join(alloc, n)?;
    let mut c = n;
    while c > 1 {
        c -= 1;
        fates[c] = take_rest(survey, &mut sums, c);
    }
    let first = rest(survey, &sums, 0);
    Ok(Gathered { first, fates })
}

/// A list of so many zeros.
fn zeros(alloc: Global, n: usize) -> Result<Vec<u32>, NoMemory>
    ensures ok { IfOk result (λ list. list.items ≡ replicate n 0) }
{
    let list = vec![in alloc; 0; n]?;
    Ok(list)
}

/// A list for the fates of so many versions.
fn all_join(alloc: Global, n: usize) -> Result<Vec<Fate>, NoMemory>
    ensures len { IfOk result (λ list. length list.items ≡ n) }
{
    let list = vec![in alloc; Fate::Joins; n]?;
    Ok(list)
}

/// Takes the rest of version c, once all greater ones are taken.
fn take_rest(survey: &Survey, sums: &mut [u32], c: usize) -> Fate
    requires kept { IsSized (told survey.now) }
    requires fits { (0 < c) × (c < length survey.now.own.now) }
    requires same { sums.old ≡ sums_from (told survey.now) (c + 1) }
    ensures ok { sums.new ≡ sums_from (told survey.now) c }
    ensures found { result ≡ fate_of (told survey.now) c }
{
    let p = parent_of(survey, c);
    let (fate, sum) = settle(rest(survey, sums, c), sums[p], survey.live[p]);
    sums[p] = sum;
    fate
}

/// The leads of the rest of version c, once all greater ones are taken.
fn rest(survey: &Survey, sums: &[u32], c: usize) -> u32
    requires kept { IsSized (told survey.now) }
    requires fits { c < length survey.now.own.now }
    requires same { sums.now ≡ sums_from (told survey.now) (c + 1) }
    ensures ok { result ≡ leads_of_rest (told survey.now) c }
    ensures room { result ≤ 33554432 }
{
    survey.own[c] + sums[c]
}

/// What becomes of a rest with so many leads, where the parent's open group has a sum and so many keys
/// are live at the parent; and the sum afterwards.
#[tactic(auto, unfolding(crate::specs::Greedy::fate_after, crate::specs::Greedy::open_after))]
fn settle(rest: u32, sum: u32, live: u32) -> (Fate, u32)
    requires room { sum + rest ≤ 4294967295 }
    ensures found { result.0 ≡ fate_after rest sum live }
    ensures ok { result.1 ≡ open_after rest sum live }
{
    if is_enough(live, rest) {
        (Fate::Alone(rest), sum)
    } else if is_enough(live, sum + rest) {
        (Fate::Closes(sum + rest), 0)
    } else {
        (Fate::Joins, sum + rest)
    }
}

/// Whether so many leads make a part below a version at which so many keys are live.
fn is_enough(live: u32, leads: u32) -> bool
    ensures ok { result ≡ is_enough live leads }
{
    leads > 0 && leads >= live
}
