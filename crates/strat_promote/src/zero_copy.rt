//! The fields of a copy of level 0.

ghost use Rattle.std.specs.List.{list_all};
ghost use Rattle.std.specs.Prelude.{◌≤◌, length, nat_lt, IsTrue};
ghost use Rattle.strat_arena.specs.Items.{entries_of, have_pairs};
ghost use Rattle.strat_base.specs.Entries.{is_ascending};
ghost use Rattle.strat_base.specs.EntryBytes.{fits_fields};

use strat_arena::Arena;
use strat_merge::GroupBuf;

/// A copy of level 0's entries, and which of them comes next.
#[derive(Drop)]
pub struct ZeroRun {
    pub(crate) horizon: u32,
    pub(crate) arena: Arena,
    pub(crate) items: GroupBuf,
    pub(crate) next: usize,
    ghost pairs: { IsTrue (have_pairs arena.pairs items) },
    ghost ascending: { IsTrue (is_ascending (entries_of arena.pairs items)) },
    ghost lawful: { IsTrue (list_all fits_fields (entries_of arena.pairs items)) },
    ghost low: { IsTrue (list_all (λ e. nat_lt e.version horizon) (entries_of arena.pairs items)) },
    ghost within: { next ≤ length items },
}
