//! Descriptors and their lists, where memory is ample.

use std::test::Fail;
use strat_base::{ArrayDesc, Extent, Extents, Listing, NoMemory, Versions};

/// Adds extents of one block each, every second block from 10 on.
fn add_extents(extents: &mut Extents, n: u32) -> Result<(), (NoMemory, Extent)> {
    for i in 0..n {
        extents.push(Extent {
            start: 10u32.wrapping_add(i.wrapping_mul(2)),
            len: 1,
        })?;
    }
    Ok(())
}

/// Whether an extent stands at a place.
fn is_extent(extents: &Extents, i: usize, start: u32, len: u32) -> bool {
    i < extents.len() && *extents.get(i) == Extent { start, len }
}

/// Whether the last extent is replaced, and taken.
fn replaces_the_last(extents: &mut Extents) -> bool {
    if extents.len() == 0 {
        return false;
    }
    extents.replace_last(Extent { start: 20, len: 3 });
    extents.pop() == Some(Extent { start: 20, len: 3 })
}

#[test]
fn extents_are_added_replaced_and_taken(rt: HostRuntime) -> Result<(), Fail> {
    let mut extents = Extents::new(rt.alloc());
    assert!(rt; add_extents(&mut extents, 6).is_ok() && extents.len() == 6);
    assert!(rt; is_extent(&extents, 0, 10, 1) && is_extent(&extents, 5, 20, 1));
    assert!(rt; replaces_the_last(&mut extents) && extents.len() == 5);
    Ok(())
}

/// Adds versions.
fn add_versions(versions: &mut Versions, more: &[u32]) -> bool {
    versions.push(7).is_ok() && versions.extend(more).is_ok()
}

/// Whether these are all versions.
fn are_versions(versions: &Versions, all: &[u32]) -> bool {
    versions.as_slice() == all
}

#[test]
fn versions_are_added_and_taken(rt: HostRuntime) -> Result<(), Fail> {
    let mut versions = Listing::new(rt.alloc());
    assert!(rt; add_versions(&mut versions, &[8, 9]) && are_versions(&versions, &[7, 8, 9]));
    assert!(rt; versions.pop() == Some(9) && are_versions(&versions, &[7, 8]));
    Ok(())
}

/// Whether two descriptors say the same of an array that has its blocks in six extents.
fn is_cloned(array: &ArrayDesc) -> bool {
    match array.try_clone() {
        Ok(copy) => {
            copy.id == 5
                && copy.entries == 9
                && copy.leads == 8
                && copy.least == 3
                && is_extent(&copy.extents, 5, 20, 1)
                && copy.extents.len() == 6
                && are_versions(&copy.versions, &[7, 8, 9])
        }
        Err(_) => false,
    }
}

#[test]
fn a_descriptor_is_cloned(rt: HostRuntime) -> Result<(), Fail> {
    let mut array = ArrayDesc {
        id: 5,
        entries: 9,
        leads: 8,
        least: 3,
        extents: Extents::new(rt.alloc()),
        versions: Listing::new(rt.alloc()),
    };
    assert!(rt; add_extents(&mut array.extents, 6).is_ok());
    assert!(rt; add_versions(&mut array.versions, &[8, 9]) && is_cloned(&array));
    Ok(())
}
