//! What a promotion made that has ended.

ghost use Rattle.std.specs.Prelude.{◌≡◌, ◌≤◌, true, ◌-◌, ◌^◌, min};
ghost use Rattle.def_crash.specs.Image.{Image};
ghost use Rattle.strat_promote.specs.Promotions.{FiltersStand, arrays_promoted, entries_if_any, has_ended, level_of, target_of};
ghost use Rattle.def_publish.specs.Next.{arrays_made};
ghost use Rattle.strat_memory.specs.Filters.{AreFiltersOn};

use std::alloc::Global;
use strat_base::LevelDesc;
use strat_memory::filters::LevelFilters;
use strat_promote::promotion::Promotion;

/// What a promotion made: the number of the level that it filled, that level if an entry was left, how many entries its
/// arrays have, and the filters that were kept of them.
#[derive(Drop)]
pub(crate) struct Made {
    pub(crate) target: usize,
    pub(crate) level: Option<LevelDesc>,
    pub(crate) entries: u64,
    pub(crate) filters: LevelFilters,
}

/// Takes the filters of the arrays that a promotion made, which are numbered from one on. Without memory for a list of them
/// none is kept. O(arrays).
fn take_filters(alloc: Global, promotion: &mut Promotion, first: u64) -> LevelFilters
    requires fits { first ≤ 2 ^ 63 }
    ensures ok { (g : Image) → FiltersStand g promotion.old
        → AreFiltersOn g (arrays_promoted promotion.old) result }
    ensures same { (level_of promotion.new ≡ level_of promotion.old)
        × (target_of promotion.new ≡ target_of promotion.old)
        × (has_ended promotion.new ≡ has_ended promotion.old) }
{
    let count = promotion.made().len();
    let Ok(mut kept) = Vec::with_capacity(alloc, count) else {
        return LevelFilters::none(alloc);
    };
    for i in 0..count {
        kept.push_reserved(promotion.take_filter(first + i as u64).ok());
    }
    LevelFilters::new(first, kept)
}

/// What a promotion that has ended made, with the filters that it kept. O(arrays).
pub(crate) fn take_made(alloc: Global, mut promotion: Promotion, first: u64) -> Made
    requires kept { has_ended promotion ≡ true }
    requires fits { first ≤ 2 ^ 63 }
    ensures ok { (result.target ≡ target_of promotion) × (result.level ≡ level_of promotion) }
    ensures len { result.entries ≡ min (entries_if_any (level_of promotion)) (2 ^ 64 - 1) }
    ensures filters { (g : Image) → FiltersStand g promotion
        → AreFiltersOn g (arrays_made result.level) result.filters }
{
    let filters = take_filters(alloc, &mut promotion, first);
    let (target, level, entries) = promotion.finish();
    Made {
        target,
        level,
        entries,
        filters,
    }
}
