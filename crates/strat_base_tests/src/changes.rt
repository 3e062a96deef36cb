//! Changes and their bytes.

ghost use Rattle.std.specs.Prelude.{IsTrue};
ghost use Rattle.strat_base.specs.Change.{is_lawful};
ghost use Rattle.strat_base.specs.ChangeView.{change_of};

use std::alloc::Global;
use std::test::Fail;
use strat_base::{
    Change, NoMemory, OwnedChange, change_size, get_change, key_ok, put_change, value_ok,
};

// Changes and their bytes.
const CHANGES: [(Change<'static>, &[u8]); 4] = [
    (
        Change::Put {
            version: 0,
            key: b"a",
            value: b"1",
        },
        &[1, 0, 0, 0, 0, 1, 0x61, 0, 1, 0x31],
    ),
    (
        Change::Delete {
            version: 258,
            key: b"bc",
        },
        &[2, 0, 0, 1, 2, 2, 0x62, 0x63],
    ),
    (
        Change::Clone {
            version: 4294967295,
        },
        &[3, 255, 255, 255, 255],
    ),
    (Change::DropVersion { version: 772 }, &[4, 0, 0, 3, 4]),
];

fn sizes_ok(change: Change<'_>) -> bool
    ensures { IsTrue result → IsTrue (is_lawful (change_of change.entry)) }
{
    match change {
        Change::Put { key, value, .. } => key_ok(key) && value_ok(value),
        Change::Delete { key, .. } => key_ok(key),
        Change::Clone { .. } | Change::DropVersion { .. } => true,
    }
}

/// Whether a change is written in these bytes behind another, and read from there.
fn is_written(change: &Change<'_>, want: &[u8]) -> bool {
    let mut bytes = [9; 20];
    if !sizes_ok(*change) || change_size(change) != want.len() || want.len() >= bytes.len() {
        return false;
    }
    let end = put_change(change, &mut bytes, 1);
    bytes[0] == 9
        && &bytes[1..want.len() + 1] == want
        && end == want.len() + 1
        && get_change(&bytes, 1) == Some((*change, end))
}

/// Whether a copy of a change is the change.
fn is_copied(alloc: Global, change: &Change<'_>) -> Result<bool, NoMemory> {
    if !sizes_ok(*change) {
        return Ok(false);
    }
    let copy = OwnedChange::new(alloc, change)?;
    Ok(copy.as_change() == *change)
}

#[test]
fn changes_are_written_and_read(rt: HostRuntime) {
    for (change, bytes) in CHANGES {
        assert!(rt; is_written(&change, bytes));
    }
}

#[test]
fn changes_are_copied(rt: HostRuntime) -> Result<(), Fail> {
    for (change, _) in CHANGES {
        assert!(rt; is_copied(rt.alloc(), &change)?);
    }
    Ok(())
}

#[test]
fn the_largest_change_is_copied(rt: HostRuntime) -> Result<(), Fail> {
    let largest = Change::Put {
        version: 4294967295,
        key: &[7; 255],
        value: &[9; 1024],
    };
    assert!(rt; is_copied(rt.alloc(), &largest)?);
    Ok(())
}

#[test]
fn other_bytes_are_no_change(rt: HostRuntime) {
    for bytes in [
        b"".as_slice(),
        b"\x00\x00\x00\x00\x00",
        b"\x05\x00\x00\x00\x00",
        b"\x04\x00\x00\x00",
        b"\x03\x00\x00\x00",
        b"\x02\x00\x00\x00\x00\x00",
        b"\x02\x00\x00\x00\x00\x02a",
        b"\x01\x00\x00\x00\x00\x01a\x00",
        b"\x01\x00\x00\x00\x00\x01a\x00\x021",
        b"\x01\x00\x00\x00\x00\x01a\x04\x01",
    ] {
        assert!(rt; get_change(bytes, 0).is_none());
    }
}
