//! One cursor: what it pins, and where it goes on.

ghost use Rattle.std.specs.List.{list_any};
ghost use Rattle.std.specs.Prelude.{◌≡◌, ◌≤◌, ◌==◌, ℕ, [], length, count_by, Some, IfOk, OnErr, IfSome, IsErrOf, option_map, vec_capacity};
ghost use Rattle.strat_arena.specs.PoolView.{shares_at, count_shared};
ghost use Rattle.strat_base.specs.declared.failures.Fault.TheVariants.{Damaged, Device};
ghost use Rattle.def_crash.specs.Faults.{HasCause};
ghost use Rattle.def_crash.specs.Image.{Image};
ghost use Rattle.def_crash.specs.Moments.{Exposes};
ghost use Rattle.strat_level.specs.Memtable.{ListStands};
ghost use Rattle.strat_model.specs.Pairs.{Pairs};
ghost use Rattle.strat_cursor.specs.Cursors.{goes_on, moved_on, pairs_left, IsMapPinned, MayGoOn};
ghost use Rattle.strat_cursor.specs.Looking.{LooksThrough, NamesNoBlock, ReadsArrays};
ghost use Rattle.strat_cursor.specs.Pins.{IsPinned, ListsStand, GivesShares, arenas_of, arena_pinned};
ghost use Rattle.strat_cursor.specs.Ranges.{FillsPage, IsPageOf};

use crate::scan_buffers::ScanBuffers;
use crate::scanning::scan;
use crate::view::{Picked, View};
use std::alloc::Global;
use std::marker::Model;
use strat_arena::ArenaPool;
use strat_array::Cache;
use strat_base::limits::KEY_MAX;
use strat_base::{Arrays, Fault, NoMemory, PairBuf, Version};
use strat_disk::Disk;
use strat_level::ZeroView;
use strat_tree::Tree;

/// Room for a key and the byte that makes the next one of it.
const NEXT_KEY_MAX: usize = KEY_MAX + 1;

/// A cursor: the items of level 0 and of a sealed one in arenas that it shares, the descriptors of the arrays of its
/// version, and the least key that it may tell, unless all was told.
#[derive(Drop)]
pub(crate) struct Cursor {
    pub(crate) number: u64,
    pub(crate) version: Version,
    pub(crate) zero: ZeroView,
    pub(crate) sealed: Option<ZeroView>,
    pub(crate) arrays: Arrays,
    pub(crate) from: Option<Vec<u8>>,
    pub(crate) hi: Vec<u8>,
}

impl Model for Cursor {
    ghost use Rattle.strat_cursor.specs.Cursors.{OpenCursor};

    ghost Value = { OpenCursor };

    ghost use Rattle.strat_cursor.specs.CursorFields.{cursor_seen, HasBoundRoom};

    ghost view = { cursor_seen };

    ghost invariant = { HasBoundRoom };
}

/// A bound of a range, with room for the key after any key.
pub(crate) fn bound_of(alloc: Global, lo: &[u8]) -> Result<Vec<u8>, NoMemory>
    ensures ok { IfOk result (λ b. b.items ≡ lo.now) }
    ensures room { IfOk result (λ b. 256 ≤ vec_capacity b) }
{
    let mut bound = Vec::new(alloc);
    bound.reserve(if lo.len() < NEXT_KEY_MAX {
        NEXT_KEY_MAX
    } else {
        lo.len()
    })?;
    bound.extend_from_slice(lo)?;
    Ok(bound)
}

/// Where the next page starts: just after the last key told, or where this one did if none was told. `None` after the
/// last page. O(1): it takes no memory.
fn bound_behind(mut bound: Vec<u8>, more: bool, told: &PairBuf) -> Option<Vec<u8>>
    requires room { 256 ≤ vec_capacity bound }
    ensures ok { option_map (λ b. b.items) result ≡ goes_on (Some bound.items) more told.now }
    ensures room { IfSome result (λ b. 256 ≤ vec_capacity b) }
{
    if !more {
        return None;
    }
    if told.len() > 0 {
        bound.clear();
        bound.extend_from_slice(told.key(told.len() - 1)).unwrap();
        bound.push_reserved(0);
    }
    Some(bound)
}

/// Gives the share in the arena of a list back, if there is one.
fn release_if_any(list: Option<ZeroView>, pool: &mut ArenaPool)
    requires kept { IfSome list (ListStands pool.old) }
    ensures same { GivesShares pool.old pool.new (arena_pinned list) }
    ensures len { count_shared pool.new ≤ count_shared pool.old }
{
    if let Some(list) = list {
        list.release(pool);
    }
}

impl Cursor {
    /// Its number. O(1).
    pub(crate) fn number(&self) -> u64
        ensures ok { result ≡ self.now.number }
    {
        self.number
    }

    /// Whether it names the array of a number. O(arrays).
    pub(crate) fn names(&self, id: u64) -> bool
        ensures ok { result ≡ list_any (λ a. a.id == id) self.now.arrays }
    {
        self.arrays.as_slice().iter().any(|a| a.id == id)
    }

    /// Puts the first pairs of what is left into `out`, at most `limit`. Answers whether there are others. It takes no
    /// memory but for cached blocks.
    pub(crate) fn tell_page<D: Disk>(
        &self,
        disk: &mut D,
        cache: &mut Cache,
        pool: &ArenaPool,
        tree: &Tree,
        limit: u16,
        buffers: &mut ScanBuffers,
        out: &mut PairBuf,
    ) -> Result<bool, Fault>
        requires found { ListsStand pool.now self.now }
        requires kept { IsPinned pool.now tree.now.parents self.now }
        requires fits { (1 ≤ limit) × (limit ≤ 256) }
        requires room { out.old ≡ [] }
        ensures ok { IfOk result (λ more. (f : Image) (next : ℕ) (m : Pairs)
            → Exposes (D.view disk.old) f → MayGoOn f next self.now cache.old
            → IsMapPinned f tree.now.parents pool.now self.now m
            → IsPageOf (pairs_left m self.now) limit out.new more) }
        ensures len { IfOk result (λ more. FillsPage limit (length out.new) more) }
        ensures err { OnErr result (out.new ≡ []) }
        ensures same { LooksThrough (D.view disk.old) (D.view disk.new) self.now.arrays cache.old
            cache.new }
        ensures damaged { (b : ℕ) → IsErrOf result (Damaged b)
            → NamesNoBlock (D.view disk.old).content self.now.arrays b }
        ensures cause { HasCause Device (D.faults disk.old) (D.faults disk.new) result }
        ensures reads { ReadsArrays self.now.arrays (D.reads disk.old) (D.reads disk.new) }
    {
        let Some(from) = &self.from else {
            return Ok(false);
        };
        let view = View {
            tree,
            pool,
            zero: &self.zero,
            sealed: self.sealed.as_ref(),
            levels: Picked::Pinned(&self.arrays),
        };
        scan(
            disk,
            cache,
            &view,
            self.version,
            from,
            &self.hi,
            limit,
            buffers,
            out,
        )
    }

    /// Goes on behind the pairs that were told, where others follow. O(1).
    pub(crate) fn advance(&mut self, more: bool, told: &PairBuf)
        ensures ok { self.new ≡ moved_on more told.now self.old }
    {
        self.from = match self.from.take() {
            None => None,
            Some(bound) => bound_behind(bound, more, told),
        };
    }

    /// Gives the shares in its arenas back.
    pub(crate) fn release(self, pool: &mut ArenaPool)
        requires kept { ListsStand pool.old self }
        requires room { (n : ℕ) → count_by (λ a. a == n) (arenas_of self) ≤ shares_at pool.old n }
        ensures same { GivesShares pool.old pool.new (arenas_of self) }
        ensures len { count_shared pool.new ≤ count_shared pool.old }
    {
        self.zero.release(pool);
        release_if_any(self.sealed, pool);
    }
}
