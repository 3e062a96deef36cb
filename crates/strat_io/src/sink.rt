//! Where bytes go.

ghost use Rattle.std.specs.Prelude.{◌≡◌, ◌≤◌, ◌<◌, ℕ, List, length, take, Option, IfOk, OnOk, OnErr};
ghost use Rattle.def_crash.specs.Faults.{CountsFaults};
ghost use Rattle.strat_io.specs.Streams.{Appends};

use strat_base::Failed;

/// An output that is written piece by piece, and may fail.
pub trait Sink {
    /// The bytes that it holds, if it exposes them.
    ghost held: { Self → Option (List ℕ) };

    /// How often it has failed.
    ghost faults: { Self → ℕ };

    /// Takes a piece, or the front of it, and says how many bytes it took. To take none of a piece that
    /// has some is a failure.
    fn write(&mut self, piece: &[u8]) -> Result<usize, Failed>
        ensures fits { IfOk result (λ n. n ≤ length piece.now) }
        ensures none { IfOk result (λ n. 0 < length piece.now → 0 < n) }
        ensures ok { IfOk result (λ n. Appends (held self.old) (held self.new) (take n piece.now)) }
        ensures err { OnErr result (held self.new ≡ held self.old) }
        ensures cause { CountsFaults (faults self.old) (faults self.new) result };
}

/// Writes all the bytes, in as many calls as the sink needs, and none where there are no bytes. It gives
/// up at the first call that fails. It takes no memory.
#[tactic(auto, using(crate::proofs::StreamLemmas::appends_more))]
pub fn put_all<K: Sink>(sink: &mut K, bytes: &[u8]) -> Result<(), Failed>
    ensures ok { OnOk result (Appends (K.held sink.old) (K.held sink.new) bytes.now) }
    ensures err { OnErr result ((n : ℕ) × (n < length bytes.now)
        × Appends (K.held sink.old) (K.held sink.new) (take n bytes.now)) }
    ensures cause { CountsFaults (K.faults sink.old) (K.faults sink.new) result }
{
    let mut done = 0;
    while done < bytes.len() {
        let n = sink.write(&bytes[done..])?;
        done += n;
    }
    Ok(())
}
