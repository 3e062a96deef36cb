//! Why a store could not be opened.

ghost use Rattle.std.specs.Prelude.{◌≡◌};

use strat_base::{Failed, Fault, NoMemory, Trouble};
use strat_model::Ended;
use thiserror::Error;

/// Why a store could not be opened.
#[derive(Clone, Copy, Debug, PartialEq, Eq, Error)]
pub enum AttachFault {
    /// No superblock slot is open with the text of a store.
    #[error("not a store")]
    NotAStore,
    /// The disk failed.
    #[error("the device failed")]
    Device,
    /// The bytes of this block are not what should stand there.
    #[error("block {block} is damaged")]
    Damaged { block: u32 },
    /// Memory ran out.
    #[error("out of memory")]
    NoMemory,
}

impl From<NoMemory> for AttachFault {
    ghost use Rattle.strat_open.specs.declared.attach_fault.AttachFault.TheVariants as fault;

    ghost from_gives = { λ _ e. e ≡ fault.NoMemory };

    fn from(_: NoMemory) -> AttachFault {
        AttachFault::NoMemory
    }
}

impl From<Failed> for AttachFault {
    ghost use Rattle.strat_open.specs.declared.attach_fault.AttachFault.TheVariants as fault;

    ghost from_gives = { λ _ e. e ≡ fault.Device };

    fn from(_: Failed) -> AttachFault {
        AttachFault::Device
    }
}

impl From<Fault> for AttachFault {
    ghost use Rattle.strat_open.specs.Causes.{of_fault};

    ghost from_gives = { λ f e. e ≡ of_fault f };

    fn from(fault: Fault) -> AttachFault {
        match fault {
            Fault::Device => AttachFault::Device,
            Fault::Damaged { block } => AttachFault::Damaged { block },
        }
    }
}

impl From<Trouble> for AttachFault {
    ghost use Rattle.strat_open.specs.Causes.{of_trouble};

    ghost from_gives = { λ t e. e ≡ of_trouble t };

    fn from(trouble: Trouble) -> AttachFault {
        match trouble {
            Trouble::NoMemory => AttachFault::NoMemory,
            Trouble::Device => AttachFault::Device,
            Trouble::Damaged { block } => AttachFault::Damaged { block },
        }
    }
}

impl From<AttachFault> for Ended {
    ghost use Rattle.strat_open.specs.Causes.{ended_for};

    ghost from_gives = { λ fault how. how ≡ ended_for fault };

    fn from(fault: AttachFault) -> Ended {
        match fault {
            AttachFault::NotAStore => Ended::NotAStore,
            AttachFault::Device => Ended::Device,
            AttachFault::Damaged { block } => Ended::Damaged { block },
            AttachFault::NoMemory => Ended::NoMemory,
        }
    }
}
