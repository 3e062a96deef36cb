//! Runs in a tournament.

ghost use Rattle.std.specs.Prelude.{◌≡◌, ◌<◌, map, length};
ghost use Rattle.strat_merge.specs.Runs.{head_at};

use crate::bracket::Contest;
use crate::run::Run;
use std::marker::PhantomData;
use strat_base::entry_order;
use strat_disk::Disk;

/// Runs as they contend, the newest first.
#[derive(Drop)]
pub(crate) struct Runs<'a, D, R> {
    pub(crate) runs: &'a [R],
    pub(crate) disk: PhantomData<D>,
}

impl<'a, D: Disk, R: Run<D>> Contest for Runs<'a, D, R> {
    ghost use Rattle.std.specs.Prelude.{⊤, map};

    ghost contenders = { λ c. map R.view c.runs.now };

    ghost is_ready = { λ c. ⊤ };

    fn count(&self) -> usize {
        self.runs.len()
    }

    fn has_left(&self, contender: usize) -> bool {
        self.runs[contender].peek().is_some()
    }

    fn precedes(&self, a: usize, b: usize) -> bool {
        match (self.runs[a].peek(), self.runs[b].peek()) {
            (Some(e), Some(f)) => entry_order(&e, &f).then(a.cmp(&b)).is_lt(),
            (Some(_), None) => true,
            (None, _) => false,
        }
    }
}

/// Runs as they contend, the newest first. O(1).
pub(crate) fn contest_of<D: Disk, R: Run<D>>(runs: &[R]) -> Runs<'_, D, R>
    ensures ok { result.runs.now ≡ runs.now }
{
    Runs {
        runs,
        disk: PhantomData,
    }
}
