//! The start of a cursor: what it pins is copied, and shared.

ghost use Rattle.std.specs.Option.{option_copied};
ghost use Rattle.std.specs.Prelude.{◌≡◌, ◌<◌, ◌≤◌, ◌+◌, ◌-◌, ◌^◌, ℕ, ◌∷◌, ◌++◌, length, Some, IfOk, OnOk, OnErr, IfSome, option_and_then, option_to_list};
ghost use Rattle.strat_arena.specs.PoolView.{shares_at, count_shared};
ghost use Rattle.strat_level.specs.Levels.{desc_for, level_numbered};
ghost use Rattle.strat_level.specs.Memtable.{ListStands};
ghost use Rattle.strat_cursor.specs.Pins.{IsCopyOf, IsCopyIfAny, IsSamePool, TakesShares, arenas_of, arena_pinned};
ghost use Rattle.strat_cursor.specs.Looking.{arrays_asked};

use crate::cursor::{Cursor, bound_of};
use std::alloc::Global;
use strat_arena::ArenaPool;
use strat_base::limits::LEVELS;
use strat_base::{Arrays, Listing, NoMemory, Version};
use strat_level::{Levels, Zero, ZeroView};
use strat_tree::Tree;

/// Adds a copy of the descriptor that is read at a version in the level of a number, if there is one.
fn add_array(
    arrays: &mut Arrays,
    tree: &Tree,
    levels: &Levels,
    number: usize,
    version: Version,
) -> Result<(), NoMemory>
    requires fits { version < length tree.now.parents }
    ensures ok { OnOk result (arrays.new ≡ arrays.old ++ option_to_list (option_and_then
        (λ level. desc_for tree.now.parents level version) (level_numbered levels.now number))) }
    ensures len { OnOk result (length arrays.new ≤ length arrays.old + 1) }
{
    if let Some(desc) = levels.array_for(tree, number, version) {
        if arrays.push(desc.try_clone()?).is_err() {
            return Err(NoMemory);
        }
    }
    Ok(())
}

/// Copies of the descriptors that are read at a version, of each level one at most, the shallowest level's first.
/// O(22 log versions_max) and the time of copying them. The only error is want of memory.
pub fn arrays_at(
    alloc: Global,
    tree: &Tree,
    levels: &Levels,
    version: Version,
) -> Result<Arrays, NoMemory>
    requires fits { version < length tree.now.parents }
    ensures ok { IfOk result (λ arrays. arrays
        ≡ arrays_asked tree.now.parents levels.now version) }
    ensures len { IfOk result (λ arrays. length arrays ≤ 22) }
{
    // For the proof: there are 22 levels.
    let _first = levels.get(1);
    let mut arrays = Listing::new(alloc);
    for above in 0..LEVELS {
        add_array(&mut arrays, tree, levels, above + 1, version)?;
    }
    Ok(arrays)
}

/// Equal items of a sealed level 0, if there is one, that share its arena. After want of memory all is as before.
fn copy_if_any(sealed: Option<&Zero>, pool: &mut ArenaPool) -> Result<Option<ZeroView>, NoMemory>
    requires kept { IfSome (option_copied sealed) (λ z. ListStands pool.old z.list) }
    requires room { (n : ℕ) → shares_at pool.old n < 2 ^ 32 - 1 }
    ensures ok { IfOk result (λ list. IsCopyIfAny (option_copied sealed.entry) list) }
    ensures same { IfOk result (λ list. TakesShares pool.old pool.new (arena_pinned list)) }
    ensures len { count_shared pool.new ≡ count_shared pool.old }
    ensures err { OnErr result (pool.new ≡ pool.old) }
{
    match sealed {
        None => Ok(None),
        Some(zero) => Ok(Some(zero.snapshot(pool)?)),
    }
}

/// Equal items of level 0 and of a sealed one, that share their arenas. After want of memory all is as before.
fn copy_lists(
    zero: &Zero,
    sealed: Option<&Zero>,
    pool: &mut ArenaPool,
) -> Result<(ZeroView, Option<ZeroView>), NoMemory>
    requires kept { ListStands pool.old zero.now.list
        × IfSome (option_copied sealed) (λ z. ListStands pool.old z.list) }
    requires room { (n : ℕ) → shares_at pool.old n + 1 < 2 ^ 32 - 1 }
    ensures found { IfOk result (λ lists. IsCopyOf zero.now.list lists.0) }
    ensures ok { IfOk result (λ lists. IsCopyIfAny (option_copied sealed.entry) lists.1) }
    ensures same { IfOk result (λ lists. TakesShares pool.old pool.new
        (lists.0.arena ∷ arena_pinned lists.1)) }
    ensures len { count_shared pool.new ≡ count_shared pool.old }
    ensures err { OnErr result (IsSamePool pool.old pool.new) }
{
    let first = zero.snapshot(pool)?;
    match copy_if_any(sealed, pool) {
        Ok(second) => Ok((first, second)),
        Err(fault) => {
            first.release(pool);
            Err(fault)
        }
    }
}

/// What a cursor is opened over: level 0, a sealed one where there is one, and the levels, at versions of a tree.
#[derive(Drop)]
pub struct Origin<'a> {
    pub(crate) tree: &'a Tree,
    pub(crate) zero: &'a Zero,
    pub(crate) sealed: Option<&'a Zero>,
    pub(crate) levels: &'a Levels,
}

/// A cursor over a range of a version as it is now. After want of memory all is as before. O(items), 12 bytes for each,
/// and the time of copying the descriptors of at most 22 arrays; no block is read.
pub(crate) fn open_cursor(
    alloc: Global,
    pool: &mut ArenaPool,
    origin: &Origin<'_>,
    number: u64,
    version: Version,
    lo: &[u8],
    hi: &[u8],
) -> Result<Cursor, NoMemory>
    requires fits { version < length origin.now.tree.now.parents }
    requires kept { ListStands pool.old origin.now.zero.now.list
        × IfSome (option_copied origin.now.sealed) (λ z. ListStands pool.old z.list) }
    requires room { (n : ℕ) → shares_at pool.old n + 1 < 2 ^ 32 - 1 }
    ensures found { IfOk result (λ c. IsCopyOf origin.now.zero.now.list c.zero
        × IsCopyIfAny (option_copied origin.now.sealed) c.sealed) }
    ensures ok { IfOk result (λ c. c ≡ record {
      number = number;
      version = version;
      zero = c.zero;
      sealed = c.sealed;
      arrays = arrays_asked origin.now.tree.now.parents origin.now.levels.now version;
      from = Some lo.now;
      hi = hi.now;
    }) }
    ensures fits { IfOk result (λ c. length c.arrays ≤ 22) }
    ensures same { IfOk result (λ c. TakesShares pool.old pool.new (arenas_of c)) }
    ensures len { count_shared pool.new ≡ count_shared pool.old }
    ensures err { OnErr result (IsSamePool pool.old pool.new) }
{
    let from = bound_of(alloc, lo)?;
    let hi = Vec::from_slice(alloc, hi)?;
    let arrays = arrays_at(alloc, origin.tree, origin.levels, version)?;
    let (zero, sealed) = copy_lists(origin.zero, origin.sealed, pool)?;
    Ok(Cursor {
        number,
        version,
        zero,
        sealed,
        arrays,
        from: Some(from),
        hi,
    })
}
