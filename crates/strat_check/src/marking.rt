//! A marked run as a merge uses it.

use crate::marked_run::{MarkedRun, PLACES};
use strat_base::{Entry, Fault};
use strat_disk::Disk;
use strat_merge::Run;

impl<D: Disk> Run<D> for MarkedRun {
    ghost use Rattle.strat_check.specs.MarkedLaw.{marked_law};
    ghost use Rattle.strat_check.specs.MarkedRuns.{marked_seen};

    ghost view = { marked_seen };

    fn peek(&self) -> Option<Entry<'_>> {
        match self.first() {
            Some(e) => Some(Entry {
                key: e.key,
                version: e.version * PLACES + self.place,
                val: e.val,
            }),
            None => None,
        }
    }

    fn advance(&mut self, disk: &mut D) -> Result<(), Fault> {
        self.pass(disk)
    }

    ghost leaves_run = { marked_law };
}
