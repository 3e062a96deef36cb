//! Lists of versions, as their longest runs.

ghost use Rattle.std.specs.Prelude.{◌≡◌, ◌≤◌, ◌<◌, ◌+◌, ◌∷◌, ◌++◌, length, drop, slice_index_or, IfOk, OnOk, string_bytes};
ghost use Rattle.def_texts.specs.Texts.{runs_of, run_text, versions_text};
ghost use Rattle.strat_report.specs.Runs.{AddsRun};

use std::alloc::AllocError;

/// The longest run of following numbers at the front of a list: how many there are, and the last. O(run).
#[tactic(auto, using(crate::proofs::RunLemmas::run_begins, crate::proofs::RunLemmas::run_grows, crate::proofs::RunLemmas::run_ends, crate::proofs::RunLemmas::run_last))]
fn first_run(versions: &[u32]) -> (usize, u32)
    requires fits { 0 < length versions.now }
    ensures ok { runs_of versions.now
        ≡ (slice_index_or versions.now 0 0, result.0) ∷ runs_of (drop result.0 versions.now) }
    ensures found { slice_index_or versions.now 0 0 + result.0 ≡ result.1 + 1 }
    ensures len { (1 ≤ result.0) × (result.0 ≤ length versions.now) }
{
    let mut last = versions[0];
    let mut count = 1;
    while count < versions.len() && versions[count] as u64 == last as u64 + 1 {
        last = versions[count];
        count += 1;
    }
    (count, last)
}

/// Adds a run of so many following numbers: its number, or its first and its last.
fn add_run(out: &mut String, first: u32, count: usize, last: u32) -> Result<(), AllocError>
    requires fits { first + count ≡ last + 1 }
    ensures ok { OnOk result
        (string_bytes out.new ≡ string_bytes out.old ++ run_text (first, count)) }
{
    if count == 1 {
        write!(out, "{first}")
    } else {
        write!(out, "{first}-{last}")
    }
}

/// Adds the longest run at the front of a list, and gives what is left behind it.
fn add_first<'a>(out: &mut String, versions: &'a [u32]) -> Result<&'a [u32], AllocError>
    requires fits { 0 < length versions.now }
    ensures ok { IfOk result (λ left.
        AddsRun (string_bytes out.old) (string_bytes out.new) versions.now left.now) }
    ensures len { IfOk result (λ left. length left.now < length versions.now) }
{
    let (count, last) = first_run(versions);
    add_run(out, versions[0], count, last)?;
    Ok(&versions[count..])
}

/// Adds a list of versions: its longest runs, with commas between them. O(versions).
#[tactic(auto, using(crate::proofs::RunLemmas::text_begins, crate::proofs::RunLemmas::text_goes_on, crate::proofs::RunLemmas::text_ends))]
pub(crate) fn add_versions(out: &mut String, versions: &[u32]) -> Result<(), AllocError>
    ensures ok { OnOk result
        (string_bytes out.new ≡ string_bytes out.old ++ versions_text versions.now) }
{
    if versions.is_empty() {
        return Ok(());
    }
    let mut left = add_first(out, versions)?;
    while !left.is_empty() {
        out.push_str(",")?;
        left = add_first(out, left)?;
    }
    Ok(())
}
