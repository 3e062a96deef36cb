//! Searches among items in the order of their entries. A place is found by halving, since an item's
//! key is known to lie in the pool only for items of the list.

ghost use Rattle.std.specs.Prelude.{◌≡◌, ◌<◌, IfOk, IfErr, length, IsTrue};
ghost use Rattle.strat_arena.specs.PoolView.{arena_at, shares_at};
ghost use Rattle.strat_base.specs.Entries.{is_ascending};
ghost use Rattle.strat_arena.specs.Items.{entry_of_item, entries_of, have_pairs};
ghost use Rattle.strat_level.specs.Places.{compared, IsPlaceOf, IsPlaceFor, IsStart, IsEnd, IsKeyRange};

use std::cmp::Ordering;
use strat_arena::{ArenaPool, Item};
use strat_base::{Version, key_order};

/// How an item compares with a key and a version, in the order of entries.
fn item_order(pool: &ArenaPool, arena: u32, item: &Item, key: &[u8], version: Version) -> Ordering
    requires found { 0 < shares_at pool.now arena }
    requires fits { item.now.slot.0 < length (arena_at pool.now arena).pairs }
    ensures ok { result
        ≡ compared (entry_of_item (arena_at pool.now arena).pairs item.now) key.now version }
{
    key_order(pool.key(arena, item.slot), key).then(version.cmp(&item.version))
}

/// The place of the item of a key and a version, or else where it belongs. O(log items) comparisons.
pub(crate) fn place_of(
    pool: &ArenaPool,
    arena: u32,
    items: &[Item],
    key: &[u8],
    version: Version,
) -> Result<usize, usize>
    requires found { 0 < shares_at pool.now arena }
    requires fits { IsTrue (have_pairs (arena_at pool.now arena).pairs items.now) }
    requires kept { IsTrue (is_ascending (entries_of (arena_at pool.now arena).pairs items.now)) }
    ensures ok { IfOk result (λ i. IsPlaceOf
        (entries_of (arena_at pool.now arena).pairs items.now) key.now version i) }
    ensures err { IfErr result (λ i. IsPlaceFor
        (entries_of (arena_at pool.now arena).pairs items.now) key.now version i) }
{
    let mut low = 0;
    let mut high = items.len();
    while low < high {
        let mid = low + (high - low) / 2;
        match item_order(pool, arena, &items[mid], key, version) {
            Ordering::Less => low = mid + 1,
            Ordering::Equal => return Ok(mid),
            Ordering::Greater => high = mid,
        }
    }
    Err(low)
}

/// How many items are less than a key and a version.
pub(crate) fn start_of(
    pool: &ArenaPool,
    arena: u32,
    items: &[Item],
    key: &[u8],
    version: Version,
) -> usize
    requires found { 0 < shares_at pool.now arena }
    requires fits { IsTrue (have_pairs (arena_at pool.now arena).pairs items.now) }
    requires kept { IsTrue (is_ascending (entries_of (arena_at pool.now arena).pairs items.now)) }
    ensures ok { IsStart (entries_of (arena_at pool.now arena).pairs items.now) key.now version
        result }
{
    match place_of(pool, arena, items, key, version) {
        Ok(i) => i,
        Err(i) => i,
    }
}

/// How many items are not greater than a key and version 0, the last of its own.
fn end_of(pool: &ArenaPool, arena: u32, items: &[Item], key: &[u8]) -> usize
    requires found { 0 < shares_at pool.now arena }
    requires fits { IsTrue (have_pairs (arena_at pool.now arena).pairs items.now) }
    requires kept { IsTrue (is_ascending (entries_of (arena_at pool.now arena).pairs items.now)) }
    ensures ok { IsEnd (entries_of (arena_at pool.now arena).pairs items.now) key.now result }
{
    match place_of(pool, arena, items, key, 0) {
        Ok(i) => i + 1,
        Err(i) => i,
    }
}

/// From which place up to which the items of a key stand whose versions are at most v. O(log items)
/// comparisons of keys.
pub(crate) fn key_range(
    pool: &ArenaPool,
    arena: u32,
    items: &[Item],
    key: &[u8],
    v: Version,
) -> (usize, usize)
    requires found { 0 < shares_at pool.now arena }
    requires fits { IsTrue (have_pairs (arena_at pool.now arena).pairs items.now) }
    requires kept { IsTrue (is_ascending (entries_of (arena_at pool.now arena).pairs items.now)) }
    ensures ok { IsKeyRange (entries_of (arena_at pool.now arena).pairs items.now) key.now v
        result.0 result.1 }
{
    (
        start_of(pool, arena, items, key, v),
        end_of(pool, arena, items, key),
    )
}
