//! Filters of drawn keys, and of one that is known.

use crate::filter::Filter;
use crate::hash::fnv;
use std::alloc::Global;

/// Whether a filter of one entry holds the key that was added, and refuses another.
fn tells_two_keys_apart(alloc: Global) -> bool {
    let Ok(mut filter) = Filter::new(alloc, 1) else {
        return false;
    };
    filter.add(b"a");
    filter.may_hold(b"a") && !filter.may_hold(b"b")
}

#[test]
fn a_key_that_was_not_added_is_refused(rt: HostRuntime) {
    assert!(rt; fnv(b"a") == 0xaf63_dc4c_8601_ec8c);
    assert!(rt; fnv(b"") == 0xcbf2_9ce4_8422_2325);
    assert!(rt; tells_two_keys_apart(rt.alloc()));
}

/// Keys that differ in their number.
fn key_of(n: u32) -> [u8; 4] {
    n.to_be_bytes()
}

/// How many of the keys from one number on, up to another, a filter may hold.
fn held(filter: &Filter, from: u32, to: u32) -> u32 {
    let mut count = 0u32;
    for n in from..to {
        count = count.saturating_add(u32::from(filter.may_hold(&key_of(n))));
    }
    count
}

/// Whether a filter with as many keys as it is for holds each of them, and fewer than one in twenty of as many others.
fn refuses_most_others(alloc: Global, keys: u32) -> bool {
    let Ok(mut filter) = Filter::new(alloc, keys.clamp(1, 33_554_432)) else {
        return false;
    };
    for n in 0..keys {
        filter.add(&key_of(n));
    }
    held(&filter, 0, keys) == keys && held(&filter, keys, keys.saturating_add(keys)) < keys / 20
}

#[test]
fn most_keys_that_were_not_added_are_refused(rt: HostRuntime) {
    assert!(rt; refuses_most_others(rt.alloc(), 2_000));
}
