//! Where bytes come from.

ghost use Rattle.std.specs.Prelude.{◌≡◌, ◌≤◌, ℕ, List, length, Option, IfOk, OnErr};
ghost use Rattle.def_crash.specs.Faults.{CountsFaults};
ghost use Rattle.strat_io.specs.Streams.{Gives};

use strat_base::Failed;

/// An input that is read piece by piece, and may fail.
pub trait Source {
    /// The bytes that it has still to give, if it exposes them.
    ghost left: { Self → Option (List ℕ) };

    /// How often it has failed.
    ghost faults: { Self → ℕ };

    /// Reads the next bytes into the front of `into` and says how many they are. 0 for a buffer that has
    /// room is the end of the input. Nothing is said of the rest of the buffer, nor of any of it after a
    /// failure. The call may be made again after either.
    fn read(&mut self, into: &mut [u8]) -> Result<usize, Failed>
        ensures fits { IfOk result (λ n. n ≤ length into.new) }
        ensures ok { IfOk result (λ n. Gives (left self.old) (left self.new) into.new n) }
        ensures err { OnErr result (left self.new ≡ left self.old) }
        ensures cause { CountsFaults (faults self.old) (faults self.new) result };
}
