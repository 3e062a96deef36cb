//! Why a promotion, or what is built on one, gives up.

use strat_base::{Failed, NoMemory, Trouble};
use thiserror::Error;

/// More of something than any store has that stands on its disk: a bound of our own, and no want of memory.
#[derive(Clone, Copy, Debug, PartialEq, Eq)]
pub struct Unfit;

/// Why a call gave up that merges what a store has.
#[derive(Clone, Copy, Debug, PartialEq, Eq, Error)]
pub enum Obstacle {
    /// Memory ran out.
    #[error("out of memory")]
    NoMemory,
    /// The disk failed.
    #[error("the device failed")]
    Device,
    /// The bytes of this block are not what should stand there.
    #[error("block {block} is damaged")]
    Damaged { block: u32 },
    /// There is more of something than any store has that stands on its disk.
    #[error("more than any store has")]
    Unfit,
}

impl From<NoMemory> for Obstacle {
    ghost use Rattle.std.specs.Prelude.{◌≡◌};
    ghost use Rattle.strat_promote.specs.declared.obstacle.Obstacle.TheVariants as obstacle;

    ghost from_gives = { λ _ e. e ≡ obstacle.NoMemory };

    fn from(_: NoMemory) -> Obstacle {
        Obstacle::NoMemory
    }
}

impl From<Failed> for Obstacle {
    ghost use Rattle.std.specs.Prelude.{◌≡◌};
    ghost use Rattle.strat_promote.specs.declared.obstacle.Obstacle.TheVariants as obstacle;

    ghost from_gives = { λ _ e. e ≡ obstacle.Device };

    fn from(_: Failed) -> Obstacle {
        Obstacle::Device
    }
}

impl From<Unfit> for Obstacle {
    ghost use Rattle.std.specs.Prelude.{◌≡◌};
    ghost use Rattle.strat_promote.specs.declared.obstacle.Obstacle.TheVariants as obstacle;

    ghost from_gives = { λ _ e. e ≡ obstacle.Unfit };

    fn from(_: Unfit) -> Obstacle {
        Obstacle::Unfit
    }
}

impl From<Trouble> for Obstacle {
    ghost use Rattle.std.specs.Prelude.{◌≡◌};
    ghost use Rattle.strat_promote.specs.Obstacles.{as_obstacle};

    ghost from_gives = { λ t e. e ≡ as_obstacle t };

    fn from(trouble: Trouble) -> Obstacle {
        match trouble {
            Trouble::NoMemory => Obstacle::NoMemory,
            Trouble::Device => Obstacle::Device,
            Trouble::Damaged { block } => Obstacle::Damaged { block },
        }
    }
}
