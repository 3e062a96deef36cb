//! A fault of the store, in what is answered and in how a run ends.

ghost use Rattle.std.specs.Prelude.{◌≡◌};
ghost use Rattle.strat_model.specs.Faults.{fault_told};

use crate::ended::Ended;
use crate::replies::{Refusal, Reply};
use strat_base::Fault;

impl From<Fault> for Refusal {
    ghost use Rattle.strat_model.specs.Faults.{refusal_by};

    ghost from_gives = { λ fault why. why ≡ refusal_by fault };

    fn from(fault: Fault) -> Refusal {
        match fault {
            Fault::Device => Refusal::DeviceFault,
            Fault::Damaged { block } => Refusal::Damaged { block },
        }
    }
}

impl From<Fault> for Ended {
    ghost use Rattle.strat_model.specs.Faults.{broken_by};

    ghost from_gives = { λ fault how. how ≡ broken_by fault };

    fn from(fault: Fault) -> Ended {
        match fault {
            Fault::Device => Ended::Device,
            Fault::Damaged { block } => Ended::Damaged { block },
        }
    }
}

impl Reply {
    /// The fault that it tells of, if it tells of one: then the store has to be opened again. O(1).
    pub fn fault(&self) -> Option<Fault>
        ensures { result ≡ fault_told self.now }
    {
        match *self {
            Reply::Refused(Refusal::DeviceFault) => Some(Fault::Device),
            Reply::Refused(Refusal::Damaged { block }) => Some(Fault::Damaged { block }),
            _ => None,
        }
    }
}
