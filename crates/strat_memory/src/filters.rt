//! The filters of the arrays that a store made since it was opened, in memory alone.

ghost use Rattle.std.specs.Prelude.{◌≡◌, ◌≤◌, ◌-◌, ◌++◌, length, drop, replicate, is_some};
ghost use Rattle.std.specs.Option.{option_copied};
ghost use Rattle.strat_memory.specs.Filters.{filter_at, filter_of, filter_refuses, filters_after, no_filters};

use std::alloc::Global;
use std::array;
use std::marker::Model;
use strat_base::limits::LEVELS;
use strat_filter::Filter;

/// The filters of the arrays of a level, which are numbered from one on, in the order of their numbers.
#[derive(Drop)]
pub struct LevelFilters {
    first: u64,
    kept: Vec<Option<Filter>>,
}

impl Model for LevelFilters {
    ghost use Rattle.strat_memory.specs.Filters.{LevelFilters};
    ghost use Rattle.strat_memory.specs.FilterFields.{filters_seen};

    ghost Value = { LevelFilters };

    ghost view = { filters_seen };
}

impl LevelFilters {
    /// These filters, of arrays that are numbered from one on. It takes no memory.
    pub fn new(first: u64, kept: Vec<Option<Filter>>) -> LevelFilters
        ensures ok { result ≡ record { first = first; kept = kept.items } }
    {
        LevelFilters { first, kept }
    }

    /// No filters. It takes no memory.
    pub fn none(alloc: Global) -> LevelFilters
        ensures ok { result ≡ no_filters }
    {
        LevelFilters {
            first: 0,
            kept: Vec::new(alloc),
        }
    }

    /// The filter of an array, if one is kept. O(1).
    pub fn of(&self, id: u64) -> Option<&Filter>
        ensures ok { option_copied result ≡ filter_of self.now id }
    {
        if id < self.first {
            return None;
        }
        let at = (id - self.first) as usize;
        if at < self.kept.len() {
            self.kept[at].as_ref()
        } else {
            None
        }
    }
}

/// Lets the filters of the first levels go. It takes no memory.
fn clear(alloc: Global, levels: &mut [LevelFilters], count: usize)
    requires room { count ≤ length levels.old }
    ensures ok { levels.new ≡ replicate count no_filters ++ drop count levels.old }
{
    for i in 0..count {
        levels[i] = LevelFilters::none(alloc);
    }
}

/// The filters of levels 1 to 22. They are seen as a list of these.
#[derive(Drop)]
pub struct Filters {
    levels: [LevelFilters; LEVELS],
}

impl Model for Filters {
    ghost use Rattle.std.specs.Prelude.{◌≡◌, List, length};
    ghost use Rattle.strat_memory.specs.Filters.{LevelFilters};

    ghost Value = { List LevelFilters };

    ghost view = { λ a. a.levels };

    ghost invariant = { λ a. length a.levels ≡ 22 };
}

impl Filters {
    /// No filters. It takes no memory.
    pub fn new(alloc: Global) -> Filters
        ensures ok { result ≡ replicate 22 no_filters }
    {
        Filters {
            levels: [
                LevelFilters::none(alloc),
                LevelFilters::none(alloc),
                LevelFilters::none(alloc),
                LevelFilters::none(alloc),
                LevelFilters::none(alloc),
                LevelFilters::none(alloc),
                LevelFilters::none(alloc),
                LevelFilters::none(alloc),
                LevelFilters::none(alloc),
                LevelFilters::none(alloc),
                LevelFilters::none(alloc),
                LevelFilters::none(alloc),
                LevelFilters::none(alloc),
                LevelFilters::none(alloc),
                LevelFilters::none(alloc),
                LevelFilters::none(alloc),
                LevelFilters::none(alloc),
                LevelFilters::none(alloc),
                LevelFilters::none(alloc),
                LevelFilters::none(alloc),
                LevelFilters::none(alloc),
                LevelFilters::none(alloc),
            ],
        }
    }

    /// The filter of an array in the level of a number, if one is kept. O(1).
    pub fn get(&self, number: usize, id: u64) -> Option<&Filter>
        ensures ok { option_copied result ≡ filter_at self.now number id }
    {
        if 1 <= number && number <= LEVELS {
            self.levels[number - 1].of(id)
        } else {
            None
        }
    }

    /// Whether a filter is kept of an array in the level of a number. O(1).
    pub fn has(&self, number: usize, id: u64) -> bool
        ensures ok { result ≡ is_some (filter_at self.now number id) }
    {
        self.get(number, id).is_some()
    }

    /// Whether a filter is kept of an array in the level of a number, and refuses a key. O(key).
    pub fn refuses(&self, number: usize, id: u64, key: &[u8]) -> bool
        ensures ok { result ≡ filter_refuses self.now number id key.now }
    {
        match self.get(number, id) {
            Some(filter) => !filter.may_hold(key),
            None => false,
        }
    }

    /// Lets the filters of the levels down to a number go, and keeps these for the level of that number. It takes no memory.
    pub fn replace(&mut self, alloc: Global, target: usize, made: LevelFilters)
        requires fits { (1 ≤ target) × (target ≤ 22) }
        ensures ok { self.new ≡ filters_after self.old target made }
        ensures len { length self.new ≡ 22 }
    {
        clear(alloc, &mut self.levels, target - 1);
        self.levels[target - 1] = made;
    }
}
