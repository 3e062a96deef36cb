//! Whether a change that comes with its number is next.

ghost use Rattle.std.specs.Prelude.{◌≡◌};
ghost use Rattle.strat_follow.specs.Turns.{turn_of};

use crate::turns::Turn;

/// Whether a change with this number is the next one of a store that took so many changes.
pub fn turn(next: u32, number: u32) -> Turn
    ensures { result ≡ turn_of next number }
{
    if number == next {
        return Turn::Take;
    }
    if number < next { Turn::Old } else { Turn::Gap }
}
