//! A pool whose arenas are shared, released and begun anew.

ghost use Rattle.std.specs.Prelude.{◌<◌, length};
ghost use Rattle.strat_arena.specs.PoolView.{arena_at, shares_at};

use std::test::Fail;
use strat_arena::{ArenaPool, Slot};
use strat_base::NoMemory;

/// Whether slot 0 of an arena reads this pair.
fn reads(pool: &ArenaPool, n: u32, key: &[u8], value: &[u8]) -> bool
    requires shared { 0 < shares_at pool.now n }
    requires some { 0 < length (arena_at pool.now n).pairs }
{
    pool.key(n, Slot(0)) == key && pool.value(n, Slot(0)) == value
}

#[test]
fn a_shared_arena_lives_until_its_last_share(rt: HostRuntime) -> Result<(), Fail> {
    let mut pool = ArenaPool::new(rt.alloc());
    let first = pool.start(1, 8)?;
    pool.push(first, b"key", b"value");
    pool.share(first);
    pool.release(first);
    assert!(rt; first == 0 && reads(&pool, first, b"key", b"value"));
    pool.release(first);
    Ok(())
}

#[test]
fn arenas_keep_their_own_pairs(rt: HostRuntime) -> Result<(), Fail> {
    let mut pool = ArenaPool::new(rt.alloc());
    let first = pool.start(1, 4)?;
    pool.push(first, b"a", b"1");
    let second = pool.start(1, 4)?;
    pool.push(second, b"b", b"2");
    assert!(rt; first == 0 && second == 1);
    assert!(rt; reads(&pool, first, b"a", b"1") && reads(&pool, second, b"b", b"2"));
    Ok(())
}

#[test]
fn a_number_is_given_again_once_its_arena_is_gone(rt: HostRuntime) -> Result<(), Fail> {
    let mut pool = ArenaPool::new(rt.alloc());
    let first = pool.start(1, 4)?;
    let second = pool.start(1, 4)?;
    pool.release(first);
    let third = pool.start(1, 4)?;
    pool.push(third, b"c", b"3");
    assert!(rt; third == 0 && second == 1 && reads(&pool, third, b"c", b"3"));
    Ok(())
}
