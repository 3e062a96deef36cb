//! The filters of the arrays that a promotion makes.

ghost use Rattle.std.specs.Prelude.{◌≡◌};
ghost use Rattle.strat_promote.specs.Filters.{filter_kept, without_filter};
ghost use Rattle.strat_promote.specs.Stages.{stage_writers};

use crate::stage::Stage;
use strat_array::ArrayWriter;
use strat_filter::Filter;

/// The filter that the writer at a place keeps, if any; from now on it keeps none.
fn take_at(writers: &mut Vec<ArrayWriter>, q: usize) -> Option<Filter>
    ensures ok { result ≡ filter_kept writers.old.items q }
    ensures same { writers.new.items ≡ without_filter writers.old.items q }
{
    if q >= writers.len() {
        return None;
    }
    writers[q].take_filter()
}

/// The filter of the array at a place among those that are being written, if one is kept; from now on none is.
pub(crate) fn take_kept(stage: &mut Stage, q: u64) -> Option<Filter>
    ensures ok { result ≡ filter_kept (stage_writers stage.old) q }
    ensures same { stage_writers stage.new ≡ without_filter (stage_writers stage.old) q }
{
    match stage {
        Stage::Writing(writing, _) => take_at(&mut writing.filling.writers, q as usize),
        _ => None,
    }
}
