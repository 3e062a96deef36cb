//! The serving run.

ghost use Rattle.std.specs.Prelude.{◌≡◌};
ghost use Rattle.def_crash.specs.Moments.{Passes};
ghost use Rattle.strat_loop.specs.Session.{RefusesFor, IsEarlyEnd, EndHasCause};
ghost use Rattle.strat_loop.specs.World.{world};
ghost use Rattle.strat_serve.specs.Serving.{RunOutcome};

use crate::replying::Replies;
use std::alloc::Global;
use strat_disk::Disk;
use strat_io::{Sink, Source};
use strat_loop::serve_by;
use strat_model::Ended;

/// Serves commands on the store of a disk, and sends a reply to each, as `serve_by` does.
pub fn serve<S: Source, K: Sink, D: Disk>(
    alloc: Global,
    source: &mut S,
    sink: &mut K,
    disk: &mut D,
    budget: u64,
) -> Ended
    ensures ok { RunOutcome budget result
        (world (S.left source.old) (S.faults source.old) (K.held sink.old) (K.faults sink.old)
        (D.view disk.old) (D.faults disk.old))
        (world (S.left source.new) (S.faults source.new) (K.held sink.new) (K.faults sink.new)
        (D.view disk.new) (D.faults disk.new)) }
    ensures found { RefusesFor result (D.view disk.old) (D.view disk.new) }
    ensures time { Passes (D.view disk.old) (D.view disk.new) }
    ensures cause { EndHasCause result
        (world (S.left source.old) (S.faults source.old) (K.held sink.old) (K.faults sink.old)
        (D.view disk.old) (D.faults disk.old))
        (world (S.left source.new) (S.faults source.new) (K.held sink.new) (K.faults sink.new)
        (D.view disk.new) (D.faults disk.new)) }
    ensures same { IsEarlyEnd result (D.view disk.old)
        → (source.new ≡ source.old) × (sink.new ≡ sink.old) }
{
    serve_by(alloc, &Replies, source, sink, disk, budget)
}
