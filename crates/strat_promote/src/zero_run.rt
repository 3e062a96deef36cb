//! Level 0 as a run: a copy of its entries, made at the start of a pass.

ghost use Rattle.std.specs.List.{list_all};
ghost use Rattle.std.specs.Ordering.{is_lt};
ghost use Rattle.std.specs.Prelude.{Some, ◌≡◌, ◌<◌, ◌≤◌, ◌+◌, ℕ, [], None, drop, length, nat_lt, option_map, slice_index_or, slice_get, IfOk, IfSome, IsSome, OnOk, IsTrue};
ghost use Rattle.strat_arena.specs.Items.{entries_of, have_pairs};
ghost use Rattle.strat_base.specs.Entries.{Entry as KeyEntry};
ghost use Rattle.strat_base.specs.EntryBytes.{fits_fields};
ghost use Rattle.strat_base.specs.Order.{entry_cmp};
ghost use Rattle.strat_base.specs.EntryView.{entry_of};
ghost use Rattle.def_crash.specs.Image.{Image};
ghost use Rattle.strat_level.specs.Memtable.{entries_held, ListStands};
ghost use Rattle.strat_promote.specs.ZeroFields.{zero_run_seen};

use crate::zero_copy::ZeroRun;
use std::alloc::Global;
use strat_arena::{Arena, ArenaPool};
use strat_base::{Entry, NoMemory};
use strat_level::ZeroView;
use strat_merge::{GroupBuf, add_entry};

impl ZeroRun {
    /// A copy of level 0. O(bytes), and memory for as many.
    pub(crate) fn new(
        alloc: Global,
        zero: &ZeroView,
        pool: &ArenaPool,
        horizon: u32,
    ) -> Result<ZeroRun, NoMemory>
        requires kept { ListStands pool.now zero.now }
        requires room { IsTrue (list_all (λ e. nat_lt e.version horizon)
            (entries_held pool.now zero.now)) }
        ensures ok { IfOk result (λ run. (c : Image)
            → (zero_run_seen run).left c ≡ entries_held pool.now zero.now) }
        ensures found { IfOk result (λ run. ((zero_run_seen run).versions ≡ horizon)
            × ((zero_run_seen run).blocks ≡ [])) }
        ensures none { IfOk result (λ run. (c : Image)
            → (zero_run_seen run).misfit c ≡ None) }
    {
        let mut arena = Arena::new(alloc);
        let mut items = GroupBuf::new(alloc, 0)?;
        copy_all(zero, pool, &mut arena, &mut items)?;
        Ok(ZeroRun {
            horizon,
            arena,
            items,
            next: 0,
        })
    }

    /// The entry that comes next. O(1).
    pub(crate) fn peek(&self) -> Option<Entry<'_>>
        ensures ok { option_map entry_of result ≡ (zero_run_seen self.now).first }
        ensures fits { IfSome result (λ e. IsTrue (fits_fields (entry_of e))) }
        ensures room { IfSome result (λ e. e.version < (zero_run_seen self.now).versions) }
    {
        let items = self.items.items();
        if self.next < items.len() {
            Some(self.arena.entry(items[self.next]))
        } else {
            None
        }
    }

    /// Passes over the entry that comes next, if there is one. O(1).
    pub(crate) fn advance(&mut self)
        ensures ok { (c : Image) → (zero_run_seen self.new).left c
            ≡ drop 1 ((zero_run_seen self.old).left c) }
        ensures found { (zero_run_seen self.new).versions ≡ (zero_run_seen self.old).versions }
        ensures kept { (e f : KeyEntry) → (zero_run_seen self.old).first ≡ Some e
            → (zero_run_seen self.new).first ≡ Some f
            → IsTrue (is_lt (entry_cmp e.key e.version f.key f.version)) }
    {
        if self.next < self.items.items().len() {
            self.next += 1;
        }
    }
}

/// Copies the entries of level 0.
fn copy_all(
    zero: &ZeroView,
    pool: &ArenaPool,
    arena: &mut Arena,
    items: &mut GroupBuf,
) -> Result<(), NoMemory>
    requires kept { ListStands pool.now zero.now }
    requires none { (arena.old.pairs ≡ []) × (items.old ≡ []) }
    ensures ok { OnOk result (entries_of arena.new.pairs items.new
        ≡ entries_held pool.now zero.now) }
    ensures kept { OnOk result (IsTrue (have_pairs arena.new.pairs items.new)) }
{
    for i in 0..zero.items().len() {
        add_entry(arena, items, &zero.entry(pool, i))?;
    }
    Ok(())
}
