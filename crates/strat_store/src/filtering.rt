//! Which filters a store keeps.

ghost use Rattle.std.specs.Prelude.{◌≡◌, true, false, Contains};
ghost use Rattle.std.specs.List.{list_any};
ghost use Rattle.strat_store.specs.Filtering.{KeepsFilter, KeepsFilterAt, has_id};

use strat_base::ArrayDesc;
use strat_base::limits::LEVELS;
use strat_level::Levels;
use strat_memory::filters::Filters;

/// Whether one of some arrays has this number. O(arrays).
fn has_array(arrays: &[ArrayDesc], id: u64) -> bool
    ensures ok { result ≡ list_any (has_id id) arrays.now }
{
    arrays.iter().any(|a| a.id == id)
}

/// Whether the level of a number has an array of an id, and a filter of it is kept. O(arrays of the level).
fn keeps_filter_at(filters: &Filters, levels: &Levels, number: usize, id: u64) -> bool
    ensures ok { result ≡ true → KeepsFilterAt filters.now levels.now number id }
    ensures none { result ≡ false → ¬ KeepsFilterAt filters.now levels.now number id }
{
    match levels.get(number) {
        Some(level) => { filters.has(number, id) && has_array(level.desc().arrays.as_slice(), id) }
        None => false,
    }
}

/// Whether a level has an array of an id, and a filter of it is kept. O(arrays of the levels).
pub(crate) fn keeps_filter(filters: &Filters, levels: &Levels, id: u64) -> bool
    ensures ok { result ≡ true → KeepsFilter filters.now levels.now id }
    ensures none { result ≡ false → ¬ KeepsFilter filters.now levels.now id }
{
    // For the proof: there are 22 levels.
    let _first = levels.get(1);
    for above in 0..LEVELS {
        if keeps_filter_at(filters, levels, above + 1, id) {
            return true;
        }
    }
    false
}
