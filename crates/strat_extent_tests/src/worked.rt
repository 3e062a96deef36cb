//! Blocks taken, given back and marked, against rows that were written by hand.

use std::alloc::Global;
use std::process::Abort;
use std::test::Fail;
use strat_base::{Extent, Extents, NoMemory};
use strat_extent::Space;

/// Whether these are extents of such starts and lengths.
fn are(extents: &Extents, rows: &[(u32, u32)]) -> bool {
    let extents = extents.as_slice();
    if extents.len() != rows.len() {
        return false;
    }
    for i in 0..rows.len() {
        if extents[i].start != rows[i].0 || extents[i].len != rows[i].1 {
            return false;
        }
    }
    true
}

/// Extents of such starts and lengths.
fn extents_of(alloc: Global, rows: &[(u32, u32)]) -> Result<Extents, NoMemory> {
    let mut extents = Extents::new(alloc);
    for row in rows {
        let extent = Extent {
            start: row.0,
            len: row.1,
        };
        match extents.push(extent) {
            Ok(()) => {}
            Err((failed, _)) => return Err(failed),
        }
    }
    Ok(extents)
}

/// Whether the answer to marking these extents is the one that is wanted.
fn marks(
    alloc: Global,
    space: &mut Space,
    rows: &[(u32, u32)],
    wanted: bool,
) -> Result<bool, NoMemory> {
    let extents = extents_of(alloc, rows)?;
    Ok(space.mark(&extents)? == wanted)
}

#[test]
fn the_lowest_blocks_are_taken(rt: HostRuntime) -> Result<(), Fail> {
    let mut space = Space::new(rt.alloc(), 7);
    let low = space.take(2)?;
    assert!(rt; are(&low, &[(7, 2)]));
    let next = space.take(3)?;
    assert!(rt; are(&next, &[(9, 3)]));
    space.give(&low);
    let split = space.take(3)?;
    assert!(rt; are(&split, &[(7, 2), (12, 1)]));
    Ok(())
}

#[test]
fn blocks_given_in_any_order_are_joined(rt: HostRuntime) -> Result<(), Fail> {
    let mut space = Space::new(rt.alloc(), 7);
    let low = space.take(2)?;
    let middle = space.take(3)?;
    let high = space.take(4)?;
    space.give(&low);
    space.give(&middle);
    assert!(rt; space.end() == 16);
    space.give(&high);
    assert!(rt; space.end() == 7);
    Ok(())
}

#[test]
fn a_mark_is_refused_for_each_reason(rt: HostRuntime) -> Result<(), Fail> {
    let alloc = rt.alloc();
    let mut space = Space::new(alloc, 7);
    assert!(rt; marks(alloc, &mut space, &[(10, 2), (0, 0)], true)?);
    assert!(rt; marks(alloc, &mut space, &[(30, 1), (6, 1)], false)?);
    assert!(rt; marks(alloc, &mut space, &[(30, 1), (9, 2)], false)?);
    assert!(rt; marks(alloc, &mut space, &[(20, 2), (21, 1)], false)?);
    assert!(rt; marks(alloc, &mut space, &[(4_294_967_290, 6)], false)?);
    assert!(rt; marks(alloc, &mut space, &[(4_294_967_295, 1)], false)?);
    assert!(rt; marks(alloc, &mut space, &[(20, 2), (30, 1)], true)?);
    Ok(())
}

#[test]
fn the_last_block_is_marked_and_taken(rt: HostRuntime) -> Result<(), Fail> {
    let alloc = rt.alloc();
    let mut space = Space::new(alloc, 7);
    assert!(rt; marks(alloc, &mut space, &[(4_294_967_290, 5)], true)?);
    assert!(rt; space.end() == 4_294_967_295);
    let mut short = Space::new(alloc, 4_294_967_293);
    let both = short.take(2)?;
    assert!(rt; are(&both, &[(4_294_967_293, 2)]));
    assert!(rt; short.free() == 0);
    Ok(())
}
