//! The marks of versions of which none was dropped.

ghost use Rattle.std.specs.Prelude.{◌≡◌, suc, [], ◌∷◌, ◌++◌, replicate, false, OnOk, IfOk};
ghost use Rattle.strat_manifest.specs.ManifestView.{marks_listed};

use std::alloc::Global;
use strat_base::{NoMemory, Versions};

/// Adds the mark of a version that was not dropped.
fn add_living(marks: &mut Versions) -> Result<(), NoMemory>
    ensures ok { OnOk result (marks.new ≡ marks.old ++ 0 ∷ []) }
{
    match marks.push(0) {
        Ok(()) => Ok(()),
        Err((failed, _)) => Err(failed),
    }
}

/// The marks of version 0 and of so many more, of which none was dropped. O(more).
#[tactic(auto, using(crate::proofs::MarkLemmas::one_more_zero, crate::proofs::MarkLemmas::all_living))]
pub fn living_marks(alloc: Global, more: usize) -> Result<Versions, NoMemory>
    ensures ok { IfOk result (λ marks. marks_listed marks ≡ replicate (suc more) false) }
{
    let mut marks = Versions::new(alloc);
    add_living(&mut marks)?;
    for _ in 0..more {
        add_living(&mut marks)?;
    }
    Ok(marks)
}
