//! The second pass of a split: from the least version up, each version's part; and then the least
//! number of live keys of each part.

ghost use Rattle.std.specs.Prelude.{◌≡◌, ◌<◌, ◌≤◌, ◌+◌, ◌++◌, [], ◌∷◌, length, replicate, slice_index, slice_set, IfOk, OnOk};
ghost use Rattle.strat_split.specs.Greedy.{leads_of_rest, fate_of, IsGathered};
ghost use Rattle.strat_split.specs.Placing.{part_below, top_part, IsDrafted, IsPlaced, IsSoFar, IsLowered};
ghost use Rattle.strat_split.specs.Survey.{told, IsSized, AreCounted};

use crate::gather::{Fate, Gathered};
use crate::parts::{IN_NO_PART, Part};
use crate::survey::{Survey, parent_of};
use std::alloc::Global;
use strat_base::NoMemory;

/// The part of each version, the part that a child joins which does not close a group, and the parts.
#[derive(Drop)]
pub(crate) struct Draft {
    pub labels: Vec<u32>,
    pub joins: Vec<u32>,
    pub parts: Vec<Part>,
}

/// Places all versions. O(versions).
pub(crate) fn place(alloc: Global, survey: &Survey, gathered: &Gathered) -> Result<Draft, NoMemory>
    requires kept { IsSized (told survey.now) }
    requires found { IsGathered (told survey.now) gathered.now.first gathered.now.fates.items }
    ensures ok { AreCounted (told survey.now) → IfOk result (λ draft. IsSoFar (told survey.now)
        (length survey.now.own.now) draft.labels.items draft.joins.items draft.parts.items) }
    ensures len { IfOk result (λ draft. IsDrafted (length survey.now.own.now)
        (length survey.now.own.now) draft.labels.items draft.joins.items draft.parts.items) }
{
    let mut draft = first_placed(alloc, survey, gathered.first)?;
    for c in 1..survey.own.len() {
        place_version(&mut draft, survey, gathered.fates[c], c)?;
    }
    Ok(draft)
}

/// Version 0 placed: it has a part if leads were left with it.
fn first_placed(alloc: Global, survey: &Survey, first: u32) -> Result<Draft, NoMemory>
    requires kept { IsSized (told survey.now) }
    requires found { first ≡ leads_of_rest (told survey.now) 0 }
    ensures ok { AreCounted (told survey.now) → IfOk result (λ draft. IsSoFar (told survey.now) 1
        draft.labels.items draft.joins.items draft.parts.items) }
    ensures len { IfOk result (λ draft. IsDrafted (length survey.now.own.now) 1
        draft.labels.items draft.joins.items draft.parts.items) }
{
    let mut draft = undrafted(alloc, survey.own.len())?;
    if first > 0 {
        let part = Part {
            above: None,
            leads: first,
            entries: first,
            least: survey.live[0],
        };
        let label = add_part(&mut draft, part)?;
        put_label(&mut draft, 0, label);
    }
    Ok(draft)
}

/// No part, and no version in one.
fn undrafted(alloc: Global, n: usize) -> Result<Draft, NoMemory>
    ensures ok { IfOk result (λ draft. draft.labels.items ≡ replicate n 4294967295) }
    ensures found { IfOk result (λ draft. draft.joins.items ≡ replicate n 4294967295) }
    ensures none { IfOk result (λ draft. draft.parts.items ≡ []) }
{
    let labels = vec![in alloc; IN_NO_PART; n]?;
    let joins = vec![in alloc; IN_NO_PART; n]?;
    Ok(Draft {
        labels,
        joins,
        parts: Vec::new(alloc),
    })
}

/// Places version c, once all lesser ones are placed.
fn place_version(draft: &mut Draft, survey: &Survey, fate: Fate, c: usize) -> Result<(), NoMemory>
    requires kept { IsSized (told survey.now) }
    requires fits { (0 < c) × (c < length survey.now.own.now) }
    requires found { fate ≡ fate_of (told survey.now) c }
    requires len { IsDrafted (length survey.now.own.now) c
        draft.old.labels.items draft.old.joins.items draft.old.parts.items }
    ensures ok { AreCounted (told survey.now)
        → IsSoFar (told survey.now) c
        draft.old.labels.items draft.old.joins.items draft.old.parts.items
        → OnOk result (IsSoFar (told survey.now) (c + 1)
        draft.new.labels.items draft.new.joins.items draft.new.parts.items) }
    ensures len { OnOk result (IsDrafted (length survey.now.own.now) (c + 1)
        draft.new.labels.items draft.new.joins.items draft.new.parts.items) }
{
    let p = parent_of(survey, c);
    match fate {
        Fate::Joins => {
            let label = draft.joins[p];
            put_label(draft, c, label);
            Ok(())
        }
        Fate::Closes(leads) => close_group(draft, part_below(survey, p, c, leads), p, c),
        Fate::Alone(leads) => stand_alone(draft, part_below(survey, p, c, leads), c),
    }
}

/// The part that begins with version c below version p, with so many leads.
fn part_below(survey: &Survey, p: usize, c: usize, leads: u32) -> Part
    requires kept { IsSized (told survey.now) }
    requires fits { (p < c) × (c < length survey.now.own.now) }
    requires room { leads ≤ 67108864 }
    ensures ok { result ≡ part_below (told survey.now) p c leads }
{
    Part {
        above: Some(p as u32),
        leads,
        entries: leads + survey.live[p],
        least: survey.live[c],
    }
}

/// Version c closes the group of version p, which becomes a part: what joins p from now on joins that.
fn close_group(draft: &mut Draft, part: Part, p: usize, c: usize) -> Result<(), NoMemory>
    requires fits { (p < c) × (c < length draft.old.labels.items) }
    requires len { length draft.old.joins.items ≡ length draft.old.labels.items }
    requires room { length draft.old.parts.items ≤ 16384 }
    ensures ok { OnOk result (IsPlaced c (length draft.old.parts.items) part
        draft.old.labels.items (slice_set draft.old.joins.items p (length draft.old.parts.items))
        draft.old.parts.items
        draft.new.labels.items draft.new.joins.items draft.new.parts.items) }
{
    let label = add_part(draft, part)?;
    draft.joins[p] = label;
    put_label(draft, c, label);
    Ok(())
}

/// Version c is the first of a part with what joins it.
fn stand_alone(draft: &mut Draft, part: Part, c: usize) -> Result<(), NoMemory>
    requires fits { c < length draft.old.labels.items }
    requires len { length draft.old.joins.items ≡ length draft.old.labels.items }
    requires room { length draft.old.parts.items ≤ 16384 }
    ensures ok { OnOk result (IsPlaced c (length draft.old.parts.items) part
        draft.old.labels.items draft.old.joins.items draft.old.parts.items
        draft.new.labels.items draft.new.joins.items draft.new.parts.items) }
{
    let label = add_part(draft, part)?;
    put_label(draft, c, label);
    Ok(())
}

/// Adds a part and answers its number.
fn add_part(draft: &mut Draft, part: Part) -> Result<u32, NoMemory>
    requires room { length draft.old.parts.items ≤ 16384 }
    ensures ok { IfOk result (λ label. label ≡ length draft.old.parts.items) }
    ensures found { OnOk result (draft.new.parts.items ≡ draft.old.parts.items ++ part ∷ []) }
    ensures same { (draft.new.labels.items ≡ draft.old.labels.items)
        × (draft.new.joins.items ≡ draft.old.joins.items) }
{
    let label = draft.parts.len() as u32;
    draft.parts.push(part)?;
    Ok(label)
}

/// Puts version c, and what joins it, into a part.
fn put_label(draft: &mut Draft, c: usize, label: u32)
    requires fits { (c < length draft.old.labels.items) × (c < length draft.old.joins.items) }
    ensures ok { (draft.new.labels.items ≡ slice_set draft.old.labels.items c label)
        × (draft.new.joins.items ≡ slice_set draft.old.joins.items c label) }
    ensures same { draft.new.parts.items ≡ draft.old.parts.items }
{
    draft.labels[c] = label;
    draft.joins[c] = label;
}
