//! The least density of arrays.

ghost use Rattle.std.specs.Prelude.{◌≡◌, ◌++◌, List, Option, Some, None, flat_map, option_map, OnOk, string_bytes, [], ◌∷◌};
ghost use Rattle.strat_base.specs.declared.descriptors.ArrayDesc.{ArrayDesc as Descriptor};
ghost use Rattle.def_texts.specs.Texts.{sparser, density_line, text};
ghost use Rattle.strat_report.specs.Densities.{density_of, least_density};

use std::alloc::AllocError;
use strat_base::{ArrayDesc, LevelDesc};

/// The density of an array: how many keys are live at the version that has fewest, of so many entries.
#[derive(Clone, Copy)]
pub(crate) struct Density {
    pub(crate) least: u32,
    pub(crate) entries: u32,
}

/// The lesser of an array's density and the least of those after it; the array's own if they are equal.
fn lesser(a: &ArrayDesc, behind: Option<Density>) -> Density
    ensures ok { (sparsest : Option Descriptor) → option_map density_of sparsest ≡ behind
        → density_of (sparser a.now sparsest) ≡ result }
{
    match behind {
        Some(b) if b.least as u64 * (a.entries as u64) < a.least as u64 * (b.entries as u64) => b,
        _ => Density {
            least: a.least,
            entries: a.entries,
        },
    }
}

/// The least density of arrays and of others after them, whose least is given. Of equal ones the first. O(arrays).
#[tactic(auto, using(crate::proofs::DensityLemmas::least_next))]
fn least_with(arrays: &[ArrayDesc], behind: Option<Density>) -> Option<Density>
    ensures ok { (later : List Descriptor) → least_density later ≡ behind
        → least_density (arrays.now ++ later) ≡ result }
{
    let mut least = behind;
    let mut left = arrays.len();
    while left > 0 {
        left -= 1;
        least = Some(lesser(&arrays[left], least));
    }
    least
}

/// The least density of the arrays of levels, if there are any: that of the first of equal ones. O(arrays).
#[tactic(auto, using(crate::proofs::DensityLemmas::arrays_behind))]
pub(crate) fn least_in(levels: &[LevelDesc]) -> Option<Density>
    ensures ok { least_density (flat_map (λ level. level.arrays) levels.now) ≡ result }
{
    let mut least = None;
    let mut left = levels.len();
    while left > 0 {
        left -= 1;
        least = least_with(levels[left].arrays.as_slice(), least);
    }
    least
}

/// Adds the line of a density, if there is one.
pub(crate) fn add_density(out: &mut String, density: Option<Density>) -> Result<(), AllocError>
    ensures ok { OnOk result ((sparsest : Option Descriptor)
        → option_map density_of sparsest ≡ density
        → string_bytes out.new ≡ string_bytes out.old ++ text (density_line sparsest ∷ [])) }
{
    match density {
        None => write!(out, "density none\n"),
        Some(Density { least, entries }) => write!(out, "density {least}/{entries}\n"),
    }
}
