//! The runs of a promotion as a merge uses them.

ghost use Rattle.strat_promote.specs.InputFields.{input_seen};

use crate::input::Input;
use strat_base::{Entry, Fault};
use strat_disk::Disk;
use strat_merge::Run;

impl<D: Disk> Run<D> for Input {
    ghost use Rattle.strat_promote.specs.InputLaw.{input_law};

    ghost view = { input_seen };

    fn peek(&self) -> Option<Entry<'_>> {
        match self {
            Input::Zero(run) => run.peek(),
            Input::Leads(run) => run.peek(),
        }
    }

    fn advance(&mut self, disk: &mut D) -> Result<(), Fault> {
        match self {
            Input::Zero(run) => {
                run.advance();
                Ok(())
            }
            Input::Leads(run) => run.advance(disk),
        }
    }

    ghost leaves_run = { input_law };
}
