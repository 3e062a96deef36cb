//! Arenas that are filled, given more room, and emptied.

ghost use Rattle.std.specs.Prelude.{◌≡◌, ◌+◌, ◌<◌, ◌≤◌, length, OnOk};

use std::test::Fail;
use strat_arena::{Arena, Slot};
use strat_base::NoMemory;

/// Whether a slot reads this pair.
fn reads(arena: &Arena, s: Slot, key: &[u8], value: &[u8]) -> bool
    requires { s.0 < length arena.now.pairs }
{
    arena.key(s) == key && arena.value(s) == value
}

/// Whether the first three slots read `a` = `1`, `bc` with the empty value, and `d` = `2`.
fn reads_three(arena: &Arena) -> bool
    requires { 3 ≤ length arena.now.pairs }
{
    reads(arena, Slot(0), b"a", b"1")
        && reads(arena, Slot(1), b"bc", b"")
        && reads(arena, Slot(2), b"d", b"2")
}

/// Pushes `a` = `1`, `bc` with the empty value, and `d` = `2`. Whether their slots are 0, 1 and 2.
fn push_three(arena: &mut Arena) -> bool
    requires { (3 ≤ arena.old.spare_pairs) × (6 ≤ arena.old.spare_bytes) }
    ensures len { length arena.new.pairs ≡ length arena.old.pairs + 3 }
{
    let a = arena.push(b"a", b"1");
    let bc = arena.push(b"bc", b"");
    let d = arena.push(b"d", b"2");
    a.0 == 0 && bc.0 == 1 && d.0 == 2
}

#[test]
fn pairs_stay_where_they_are_when_room_is_made(rt: HostRuntime) -> Result<(), Fail> {
    let mut arena = Arena::new(rt.alloc());
    arena.reserve(3, 6)?;
    assert!(rt; push_three(&mut arena) && reads_three(&arena));
    let more = arena.reserve(100, 100_000);
    assert!(rt; reads_three(&arena));
    more?;
    Ok(())
}

/// Adds a pair of 64 bytes, each of which is its number, and makes room for it first.
fn add_numbered(arena: &mut Arena, number: u8) -> Result<(), NoMemory>
    requires { length arena.old.pairs < 1000 }
    ensures len { OnOk result (length arena.new.pairs ≡ length arena.old.pairs + 1) }
{
    arena.reserve(1, 64)?;
    arena.push(&[number; 24], &[number; 40]);
    Ok(())
}

/// Adds 100 numbered pairs, one at a time.
fn add_hundred(arena: &mut Arena) -> Result<(), NoMemory>
    requires { length arena.old.pairs ≡ 0 }
    ensures len { OnOk result (length arena.new.pairs ≡ 100) }
{
    for number in 0..100u8 {
        add_numbered(arena, number)?;
    }
    Ok(())
}

/// Whether the first 100 slots read the numbered pairs.
fn reads_hundred(arena: &Arena) -> bool
    requires { 100 ≤ length arena.now.pairs }
{
    for number in 0..100u8 {
        let slot = Slot(number as u32);
        if !reads(arena, slot, &[number; 24], &[number; 40]) {
            return false;
        }
    }
    true
}

#[test]
fn pairs_stay_where_they_are_while_chunks_are_added(rt: HostRuntime) -> Result<(), Fail> {
    let mut arena = Arena::new(rt.alloc());
    add_hundred(&mut arena)?;
    assert!(rt; reads_hundred(&arena));
    Ok(())
}

#[test]
fn an_emptied_arena_is_filled_again(rt: HostRuntime) -> Result<(), Fail> {
    let mut arena = Arena::new(rt.alloc());
    add_hundred(&mut arena)?;
    arena.clear();
    arena.reserve(3, 6)?;
    assert!(rt; push_three(&mut arena) && reads_three(&arena));
    Ok(())
}

#[test]
fn pairs_without_bytes_need_no_bytes(rt: HostRuntime) -> Result<(), Fail> {
    let mut arena = Arena::new(rt.alloc());
    arena.reserve(1, 0)?;
    let slot = arena.push(b"", b"");
    assert!(rt; slot.0 == 0 && reads(&arena, slot, b"", b""));
    Ok(())
}
