//! A store that keeps a filter of the array that it made, and skips the array by it.

use crate::scripts::{Script, command, count_accepted, told};
use crate::support::small_store;
use std::alloc::Global;
use strat_base::PairBuf;
use strat_disk::MemDisk;
use strat_filter::Filter;
use strat_model::{Command, Reply};
use strat_store::Store;

/// The last digit of a number, as text.
fn digit(n: u32) -> u8 {
    b'0' + (n % 10) as u8
}

/// Key number n of a thousand that no put is of: `x000` to `x999`.
fn absent_key(n: u32) -> [u8; 4] {
    [b'x', digit(n / 100), digit(n / 10), digit(n)]
}

/// The key of a put.
fn key_put(n: u32) -> &'static [u8] {
    match command(Script::Thirteen, n) {
        Command::Put { key, .. } => key,
        _ => b"",
    }
}

/// The first of the absent keys that a filter of `k01` to `k08` refuses.
fn refused_key(alloc: Global) -> Option<[u8; 4]> {
    let mut filter = Filter::new(alloc, 8).ok()?;
    for n in 0..8 {
        filter.add(key_put(n));
    }
    for n in 0..1000 {
        let key = absent_key(n);
        if !filter.may_hold(&key) {
            return Some(key);
        }
    }
    None
}

/// How often a disk is read for a get of a key at version 0 that is answered so.
fn reads_of_get(
    store: &mut Store,
    disk: &mut MemDisk,
    out: &mut PairBuf,
    key: &[u8],
    wanted: Reply,
) -> Option<u64> {
    let before = disk.reads();
    let reply = told(store, disk, out, &Command::Get { version: 0, key })?;
    if reply != wanted {
        return None;
    }
    disk.reads().checked_sub(before)
}

/// Whether an absent key that the array's filter refuses costs no read, and a key of the array some.
fn spares_reads(
    store: &mut Store,
    disk: &mut MemDisk,
    out: &mut PairBuf,
    refused: &[u8],
) -> Option<bool> {
    let none = reads_of_get(store, disk, out, refused, Reply::Absent)?;
    let one = reads_of_get(store, disk, out, b"k01", Reply::Found)?;
    Some(none == 0 && one > 0)
}

/// Whether a store has a filter of array 2 alone. Array 1 went into that, and there is no array 3.
fn has_one_filter(store: &Store) -> bool {
    store.has_filter(2) && !store.has_filter(1) && !store.has_filter(3)
}

/// Whether that is so of a store that took ten puts: its second checkpoint wrote eight of them into array 2, of which it keeps
/// a filter.
fn keeps_a_filter(alloc: Global, disk: &mut MemDisk) -> Option<bool> {
    let refused = refused_key(alloc)?;
    let mut store = Store::attach(alloc, disk).ok()?;
    let mut out = PairBuf::new(alloc).ok()?;
    if count_accepted(&mut store, disk, &mut out, Script::Thirteen, 10) < 10 {
        return None;
    }
    let spares = spares_reads(&mut store, disk, &mut out, &refused)?;
    Some(spares && has_one_filter(&store))
}

/// Whether the store that is opened has no filter of array 2.
fn opens_without_a_filter(alloc: Global, disk: &mut MemDisk) -> Option<bool> {
    let store = Store::attach(alloc, disk).ok()?;
    Some(!store.has_filter(2))
}

#[test]
fn an_array_that_refuses_a_key_is_not_read(rt: HostRuntime) {
    let Some(mut disk) = small_store(rt.alloc()) else {
        assert!(rt; false);
        return;
    };
    assert!(rt; keeps_a_filter(rt.alloc(), &mut disk) == Some(true));
    assert!(rt; opens_without_a_filter(rt.alloc(), &mut disk) == Some(true));
}
