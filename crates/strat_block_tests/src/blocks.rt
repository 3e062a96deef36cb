//! Worked blocks, and the edges of a block's room.

ghost use Rattle.std.specs.Prelude.{◌≤◌, length};

use crate::worked::{count_of_copy, filled, first_of, is_block_with, is_read_as, is_written_as};
use std::process::Abort;
use std::test::Fail;
use strat_base::{Entry, Val};

/// Key `a` is `1` at version 0.
const SINGLE: [u8; 14] = [0, 1, 0, 4, 1, b'a', 0, 0, 0, 0, 1, 0, 1, b'1'];

/// Key 1 is aa bb at version 5 and gone at version 2, and key 1 0 is empty at version 0.
const SEVERAL: [u8; 36] = [
    0, 3, 0, 8, 0, 19, 0, 26, 1, 1, 0, 0, 0, 5, 1, 0, 2, 0xaa, 0xbb, 1, 1, 0, 0, 0, 2, 0, 2, 1, 0,
    0, 0, 0, 0, 1, 0, 0,
];

#[test]
fn one_entry_is_written_and_read(rt: HostRuntime) -> Result<(), Fail> {
    let entries = [Entry {
        key: b"a",
        version: 0,
        val: Val::Put(b"1"),
    }];
    assert!(rt; is_written_as(&entries, &SINGLE));
    assert!(rt; is_read_as(&SINGLE, &entries));
    Ok(())
}

#[test]
fn several_entries_are_written_and_read(rt: HostRuntime) -> Result<(), Fail> {
    let entries = [
        Entry {
            key: &[1],
            version: 5,
            val: Val::Put(&[0xaa, 0xbb]),
        },
        Entry {
            key: &[1],
            version: 2,
            val: Val::Gone,
        },
        Entry {
            key: &[1, 0],
            version: 0,
            val: Val::Put(&[]),
        },
    ];
    assert!(rt; is_written_as(&entries, &SEVERAL));
    assert!(rt; is_read_as(&SEVERAL, &entries));
    Ok(())
}

#[test]
fn a_changed_byte_is_no_block(rt: HostRuntime) -> Result<(), Fail> {
    // No entry, an entry too many, an offset that is too great, an empty key, an unknown mark, a value too long and a
    // byte behind the last entry.
    for (at, byte) in [
        (1, 0),
        (1, 2),
        (0, 255),
        (3, 5),
        (4, 0),
        (10, 2),
        (11, 5),
        (14, 1),
        (4095, 1),
    ] {
        assert!(rt; !is_block_with(&SINGLE, at, byte));
    }
    // The second entry at the version of the first and at a greater one, a key before it, and two other offsets.
    for (at, byte) in [(24, 5), (24, 6), (27, 0), (5, 8), (7, 27)] {
        assert!(rt; !is_block_with(&SEVERAL, at, byte));
    }
    Ok(())
}

#[test]
fn another_block_is_one_too(rt: HostRuntime) -> Result<(), Fail> {
    for (at, byte) in [(5, 0), (9, 1), (12, 2), (13, 0)] {
        assert!(rt; is_block_with(&SINGLE, at, byte));
    }
    for (at, byte) in [(24, 4), (28, 1), (24, 0)] {
        assert!(rt; is_block_with(&SEVERAL, at, byte));
    }
    Ok(())
}

#[test]
fn places_of_keys(rt: HostRuntime) -> Result<(), Fail> {
    for (key, place) in [(0, 0), (1, 0), (2, 3)] {
        assert!(rt; first_of(&SEVERAL, &[key]) == Some(place));
    }
    assert!(rt; first_of(&SEVERAL, &[]) == Some(0));
    assert!(rt; first_of(&SEVERAL, &[1, 0]) == Some(2));
    assert!(rt; first_of(&SEVERAL, &[1, 0, 0]) == Some(3));
    Ok(())
}

/// What a writer says to three of the largest entries, and one with a value of so many bytes.
fn place_of_no_room(last: &'static [u8]) -> Option<usize>
    requires { length last.now ≤ 1024 }
{
    let entries = [
        Entry {
            key: &[1; 255],
            version: 0,
            val: Val::Put(&[7; 1024]),
        },
        Entry {
            key: &[2; 255],
            version: 0,
            val: Val::Put(&[7; 1024]),
        },
        Entry {
            key: &[3; 255],
            version: 0,
            val: Val::Put(&[7; 1024]),
        },
        Entry {
            key: &[4; 17],
            version: 0,
            val: Val::Put(last),
        },
    ];
    match filled(&entries) {
        Ok(_) => None,
        Err(i) => Some(i),
    }
}

#[test]
fn a_block_is_filled_to_its_last_byte(rt: HostRuntime) -> Result<(), Fail> {
    // Two bytes, and three times two and 1,287, leave 227: two of an offset, and 25 beside the value.
    assert!(rt; place_of_no_room(&[9; 200]).is_none());
    assert!(rt; place_of_no_room(&[9; 201]) == Some(3));
    assert!(rt; place_of_no_room(&[9; 1024]) == Some(3));
    Ok(())
}

#[test]
fn a_copy_has_the_same_entries(rt: HostRuntime) -> Result<(), Fail> {
    assert!(rt; count_of_copy(rt.alloc(), &SINGLE)? == 1);
    assert!(rt; count_of_copy(rt.alloc(), &SEVERAL)? == 3);
    Ok(())
}
