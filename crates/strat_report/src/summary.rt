//! The lines of a summary of a workload.

ghost use Rattle.std.specs.Prelude.{◌≡◌, ◌++◌, [], ◌∷◌, OnOk, string_bytes};
ghost use Rattle.def_texts.specs.Texts.{text, summary};
ghost use Rattle.strat_report.specs.Lines.{workload_line, counts_line, arrays_line};

use crate::density::{add_density, least_in};
use crate::totals::{arrays_in, entries_in};
use std::alloc::AllocError;
use strat_open::Reading;

/// Adds the line of the workload's arguments.
fn add_workload(out: &mut String, seed: u64, count: u32) -> Result<(), AllocError>
    ensures ok { OnOk result
        (string_bytes out.new ≡ string_bytes out.old ++ text (workload_line seed count ∷ [])) }
{
    write!(out, "workload seed {seed} changes {count}\n")
}

/// Adds the line of versions, updates and clones; a workload makes no other change.
fn add_counts(out: &mut String, store: &Reading) -> Result<(), AllocError>
    ensures ok { OnOk result
        (string_bytes out.new ≡ string_bytes out.old ++ text (counts_line store.now ∷ [])) }
{
    let (versions, updates) = (store.versions(), store.updates());
    let clones = store.changes() - updates;
    write!(
        out,
        "versions {versions} updates {updates} clones {clones}\n"
    )
}

/// Adds the line of levels, of their arrays, and of what is stored and was written. O(arrays).
fn add_stored(out: &mut String, store: &Reading) -> Result<(), AllocError>
    ensures ok { OnOk result
        (string_bytes out.new ≡ string_bytes out.old ++ text (arrays_line store.now ∷ [])) }
{
    let manifest = store.manifest();
    let levels = manifest.levels.len();
    let arrays = arrays_in(manifest.levels.as_slice());
    let stored = entries_in(manifest.levels.as_slice()) + store.journal_updates() as u128;
    let written = manifest.written;
    write!(
        out,
        "levels {levels} arrays {arrays} stored {stored} written {written}\n"
    )
}

/// Adds the summary of a workload with these arguments that left this store. O(arrays).
pub(crate) fn add_summary(
    out: &mut String,
    store: &Reading,
    seed: u64,
    count: u32,
) -> Result<(), AllocError>
    ensures ok { OnOk result
        (string_bytes out.new ≡ string_bytes out.old ++ text (summary store.now seed count)) }
{
    add_workload(out, seed, count)?;
    add_counts(out, store)?;
    add_stored(out, store)?;
    add_density(out, least_in(store.manifest().levels.as_slice()))?;
    Ok(())
}
