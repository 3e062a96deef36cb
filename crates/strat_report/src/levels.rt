//! The lines of a report: of the store, its journal, its levels with their arrays, and what it stores.

ghost use Rattle.std.specs.Prelude.{◌≡◌, ◌++◌, [], ◌∷◌, flat_map, OnOk, string_bytes};
ghost use Rattle.def_texts.specs.Texts.{text, store_line, journal_line, array_line, level_line, level_lines, stored_line, report};
ghost use Rattle.strat_report.specs.Lines.{fractions_text};

use crate::totals::{entries_in, entries_of, leads_of};
use crate::versions::add_versions;
use std::alloc::AllocError;
use strat_base::{ArrayDesc, LevelDesc};
use strat_open::Reading;

/// Adds the line of the store: its generation, its limits, and how far they are reached.
fn add_store(out: &mut String, store: &Reading) -> Result<(), AllocError>
    ensures ok { OnOk result
        (string_bytes out.new ≡ string_bytes out.old ++ text (store_line store.now ∷ [])) }
{
    let sb = store.superblock();
    let (generation, mem) = (sb.generation, sb.mem);
    let (changes, changes_max) = (store.changes(), sb.changes_max);
    let (versions, versions_max) = (store.versions(), sb.versions_max);
    write!(
        out,
        "store generation {generation} mem {mem} changes {changes} of {changes_max} versions {versions} of {versions_max}\n"
    )
}

/// Adds the line of the journal: how many changes it has, and how many of them are updates.
fn add_journal(out: &mut String, store: &Reading) -> Result<(), AllocError>
    ensures ok { OnOk result
        (string_bytes out.new ≡ string_bytes out.old ++ text (journal_line store.now ∷ [])) }
{
    let changes = store.journal_changes();
    let updates = store.journal_updates();
    write!(out, "journal changes {changes} updates {updates}\n")
}

/// Adds the line of an array up to its versions.
fn add_fractions(out: &mut String, a: &ArrayDesc) -> Result<(), AllocError>
    ensures ok { OnOk result (string_bytes out.new ≡ string_bytes out.old ++ fractions_text a.now) }
{
    let (id, least, leads, entries) = (a.id, a.least, a.leads, a.entries);
    write!(
        out,
        "array {id} density {least}/{entries} lead {leads}/{entries} versions "
    )
}

/// Adds the line of an array: its density, its lead fraction and its versions. O(versions).
#[tactic(auto, using(crate::proofs::LineLemmas::array_added))]
fn add_array(out: &mut String, a: &ArrayDesc) -> Result<(), AllocError>
    ensures ok { OnOk result
        (string_bytes out.new ≡ string_bytes out.old ++ text (array_line a.now ∷ [])) }
{
    add_fractions(out, a)?;
    add_versions(out, a.versions.as_slice())?;
    out.push_str("\n")?;
    Ok(())
}

/// Adds the lines of arrays, in their order.
#[tactic(auto, using(crate::proofs::LineLemmas::added_next, crate::proofs::TotalLemmas::items_all))]
fn add_arrays(out: &mut String, arrays: &[ArrayDesc]) -> Result<(), AllocError>
    ensures ok { OnOk result (string_bytes out.new
        ≡ string_bytes out.old ++ flat_map (λ a. text (array_line a ∷ [])) arrays.now) }
{
    for a in arrays {
        add_array(out, a)?;
    }
    Ok(())
}

/// Adds the line of a level: its horizon, and the leads and entries of all its arrays. O(arrays).
fn add_level_line(out: &mut String, level: &LevelDesc) -> Result<(), AllocError>
    ensures ok { OnOk result
        (string_bytes out.new ≡ string_bytes out.old ++ text (level_line level.now ∷ [])) }
{
    let (number, horizon) = (level.number, level.horizon);
    let leads = leads_of(level.arrays.as_slice());
    let entries = entries_of(level.arrays.as_slice());
    write!(
        out,
        "level {number} horizon {horizon} leads {leads} entries {entries}\n"
    )
}

/// Adds the line of a level, and after it those of its arrays.
#[tactic(auto, using(crate::proofs::LineLemmas::level_added))]
fn add_level(out: &mut String, level: &LevelDesc) -> Result<(), AllocError>
    ensures ok { OnOk result
        (string_bytes out.new ≡ string_bytes out.old ++ text (level_lines level.now)) }
{
    add_level_line(out, level)?;
    add_arrays(out, level.arrays.as_slice())
}

/// Adds the lines of levels, the shallowest first.
#[tactic(auto, using(crate::proofs::LineLemmas::added_next, crate::proofs::TotalLemmas::items_all))]
fn add_levels(out: &mut String, levels: &[LevelDesc]) -> Result<(), AllocError>
    ensures ok { OnOk result (string_bytes out.new
        ≡ string_bytes out.old ++ flat_map (λ level. text (level_lines level)) levels.now) }
{
    for level in levels {
        add_level(out, level)?;
    }
    Ok(())
}

/// Adds the last line: what is stored, for how many updates, and what was written into arrays so far. O(arrays).
fn add_stored(out: &mut String, store: &Reading) -> Result<(), AllocError>
    ensures ok { OnOk result
        (string_bytes out.new ≡ string_bytes out.old ++ text (stored_line store.now ∷ [])) }
{
    let manifest = store.manifest();
    let stored = entries_in(manifest.levels.as_slice()) + store.journal_updates() as u128;
    let updates = store.updates();
    let written = manifest.written;
    write!(out, "stored {stored} updates {updates} written {written}\n")
}

/// Adds the report of a store. O(arrays + versions of their tags).
pub(crate) fn add_report(out: &mut String, store: &Reading) -> Result<(), AllocError>
    ensures ok { OnOk result
        (string_bytes out.new ≡ string_bytes out.old ++ text (report store.now)) }
{
    add_store(out, store)?;
    add_journal(out, store)?;
    add_levels(out, store.manifest().levels.as_slice())?;
    add_stored(out, store)?;
    Ok(())
}
