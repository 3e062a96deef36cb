//! What a split knows of versions.

ghost use Rattle.std.specs.Prelude.{◌≡◌, ◌<◌, length};
ghost use Rattle.strat_base.specs.Tree.{IsTree};
ghost use Rattle.strat_tree.specs.Ancestor.{up};

use strat_base::Version;

/// The parents of versions and, for each below the horizon, how many items it has and how many keys are
/// live at it.
#[derive(Drop)]
pub(crate) struct Survey<'a> {
    pub parents: &'a [Option<Version>],
    pub own: &'a [u32],
    pub live: &'a [u32],
}

/// The parent of a version other than 0. O(1).
#[tactic(auto, using(crate::proofs::GreedyLemmas::up_less))]
pub(crate) fn parent_of(survey: &Survey, v: usize) -> usize
    requires kept { IsTree survey.now.parents.now }
    requires fits { (0 < v) × (v < length survey.now.parents.now) }
    ensures ok { result ≡ up survey.now.parents.now v }
    ensures fits { result < v }
{
    match survey.parents[v] {
        Some(p) => p as usize,
        None => 0,
    }
}
