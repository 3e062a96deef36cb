//! Keys, values and entries: their sizes, their order and their bytes.

use std::cmp::Ordering;
use strat_base::{Entry, Val, entry_order, entry_size, get_entry, key_ok, put_entry, value_ok};

#[test]
fn keys_have_a_byte_and_255_at_most(rt: HostRuntime) {
    let bytes = [0; 256];
    for (len, want) in [(0, false), (1, true), (255, true), (256, false)] {
        assert!(rt; key_ok(&bytes[..len]) == want);
    }
}

#[test]
fn values_have_1024_bytes_at_most(rt: HostRuntime) {
    let bytes = [0; 1025];
    for (len, want) in [(0, true), (1024, true), (1025, false)] {
        assert!(rt; value_ok(&bytes[..len]) == want);
    }
}

/// Whether a put of the first key stands so to a removal of the other.
fn is_ordered(first: (&'static str, u32), second: (&'static str, u32), want: Ordering) -> bool {
    let put = Entry {
        key: first.0.as_bytes(),
        version: first.1,
        val: Val::Put(b"1"),
    };
    let gone = Entry {
        key: second.0.as_bytes(),
        version: second.1,
        val: Val::Gone,
    };
    entry_order(&put, &gone) == want
}

#[test]
fn entries_go_by_key_and_then_the_newest_first(rt: HostRuntime) {
    for (first, second, want) in [
        (("a", 0), ("b", 0), Ordering::Less),
        (("b", 0), ("a", 9), Ordering::Greater),
        (("a", 0), ("ab", 0), Ordering::Less),
        (("b", 5), ("ab", 5), Ordering::Greater),
        (("a", 2), ("a", 1), Ordering::Less),
        (("a", 1), ("a", 2), Ordering::Greater),
        (("a", 1), ("a", 1), Ordering::Equal),
        (("\u{7f}", 1), ("\u{80}", 1), Ordering::Less),
    ] {
        assert!(rt; is_ordered(first, second, want));
    }
}

const PUT: Entry<'static> = Entry {
    key: b"a",
    version: 0,
    val: Val::Put(b"1"),
};

const GONE: Entry<'static> = Entry {
    key: b"a",
    version: 258,
    val: Val::Gone,
};

/// Whether bytes have this entry behind the first, up to their end.
fn reads(bytes: &[u8], want: Entry<'_>) -> bool {
    get_entry(bytes, 1) == Some((want, bytes.len()))
}

#[test]
fn entries_are_read(rt: HostRuntime) {
    assert!(rt; reads(&[9, 1, 0x61, 0, 0, 0, 0, 1, 0, 1, 0x31], PUT));
    assert!(rt; reads(&[9, 1, 0x61, 0, 0, 1, 2, 0], GONE));
}

#[test]
fn other_bytes_are_no_entry(rt: HostRuntime) {
    assert!(rt; get_entry(&[9, 1, 0x61, 0, 0, 1, 2], 1).is_none());
    for torn in [
        [9, 0, 0x61, 0, 0, 0, 0, 1, 0, 1, 0x31],
        [9, 1, 0x61, 0, 0, 0, 0, 2, 0, 1, 0x31],
        [9, 1, 0x61, 0, 0, 0, 0, 1, 4, 1, 0x31],
        [9, 1, 0x61, 0, 0, 0, 0, 1, 0, 2, 0x31],
    ] {
        assert!(rt; get_entry(&torn, 1).is_none());
    }
}

#[test]
fn entries_are_written(rt: HostRuntime) {
    assert!(rt; entry_size(&PUT) == 10 && entry_size(&GONE) == 7);
    let mut into = [9; 12];
    assert!(rt; put_entry(&PUT, &mut into, 1) == 11);
    assert!(rt; into == [9, 1, 0x61, 0, 0, 0, 0, 1, 0, 1, 0x31, 9]);
    assert!(rt; put_entry(&GONE, &mut into, 0) == 7);
    assert!(rt; into == [1, 0x61, 0, 0, 1, 2, 0, 1, 0, 1, 0x31, 9]);
}
