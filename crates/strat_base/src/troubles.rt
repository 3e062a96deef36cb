//! Troubles from what went wrong in a call.

use crate::failures::{Failed, Fault, NoMemory, Trouble};
use std::alloc::{AllocError, AllocFailed};

impl From<Failed> for Trouble {
    ghost use Rattle.std.specs.Prelude.{◌≡◌};
    ghost use Rattle.strat_base.specs.declared.failures.Trouble.TheVariants.{Device};

    ghost from_gives = { λ _ e. e ≡ Device };

    fn from(_: Failed) -> Trouble {
        Trouble::Device
    }
}

impl From<Fault> for Trouble {
    ghost use Rattle.std.specs.Prelude.{◌≡◌};
    ghost use Rattle.strat_base.specs.Troubles.{as_trouble};

    ghost from_gives = { λ fault e. e ≡ as_trouble fault };

    fn from(fault: Fault) -> Trouble {
        match fault {
            Fault::Device => Trouble::Device,
            Fault::Damaged { block } => Trouble::Damaged { block },
        }
    }
}

impl From<NoMemory> for Trouble {
    ghost use Rattle.std.specs.Prelude.{◌≡◌};
    ghost use Rattle.strat_base.specs.declared.failures.Trouble.TheVariants as trouble;

    ghost from_gives = { λ _ e. e ≡ trouble.NoMemory };

    fn from(_: NoMemory) -> Trouble {
        Trouble::NoMemory
    }
}

impl From<AllocError> for Trouble {
    ghost use Rattle.std.specs.Prelude.{◌≡◌};
    ghost use Rattle.strat_base.specs.declared.failures.Trouble.TheVariants as trouble;

    ghost from_gives = { λ _ e. e ≡ trouble.NoMemory };

    fn from(_: AllocError) -> Trouble {
        Trouble::NoMemory
    }
}

impl<T: Drop> From<AllocFailed<T>> for Trouble {
    ghost use Rattle.std.specs.Prelude.{◌≡◌};
    ghost use Rattle.strat_base.specs.declared.failures.Trouble.TheVariants as trouble;

    ghost from_gives = { λ _ e. e ≡ trouble.NoMemory };

    fn from(_: AllocFailed<T>) -> Trouble {
        Trouble::NoMemory
    }
}
