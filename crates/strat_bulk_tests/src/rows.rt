//! What is written of stores that were served.

use crate::support::{exports, new_store, run};
use std::alloc::Global;
use strat_disk::MemDisk;
use strat_model::Ended;

/// Puts `user/1/name` and `user/2/name` at version 0, makes two versions of it, puts the second key at version 1, and
/// deletes the first one at version 2.
const SETTINGS: &[u8] = b"\
\x00\x00\x00\x1b\x00\x00\x00\x01\x01\x00\x00\x00\x00\x00\x0buser/1/name\x00\x03Ann\
\x00\x00\x00\x1b\x00\x00\x00\x02\x01\x00\x00\x00\x00\x00\x0buser/2/name\x00\x03Bob\
\x00\x00\x00\x09\x00\x00\x00\x03\x04\x00\x00\x00\x00\
\x00\x00\x00\x09\x00\x00\x00\x04\x04\x00\x00\x00\x00\
\x00\x00\x00\x1b\x00\x00\x00\x05\x01\x00\x00\x00\x01\x00\x0buser/2/name\x00\x03Rob\
\x00\x00\x00\x16\x00\x00\x00\x06\x02\x00\x00\x00\x02\x00\x0buser/1/name";
/// The export of version 1 after these.
const OF_VERSION_1: &[u8] = b"\
\x00\x00\x00\x1b\x00\x00\x00\x01\x01\x00\x00\x00\x00\x00\x0buser/1/name\x00\x03Ann\
\x00\x00\x00\x1b\x00\x00\x00\x02\x01\x00\x00\x00\x00\x00\x0buser/2/name\x00\x03Rob";
/// That of version 2.
const OF_VERSION_2: &[u8] = b"\
\x00\x00\x00\x1b\x00\x00\x00\x01\x01\x00\x00\x00\x00\x00\x0buser/2/name\x00\x03Bob";
/// Puts `k01` to `k13` at version 0, as an export of these pairs does.
pub const THIRTEEN_PUTS: &[u8] = b"\
\x00\x00\x00\x11\x00\x00\x00\x01\x01\x00\x00\x00\x00\x00\x03k01\x00\x011\
\x00\x00\x00\x11\x00\x00\x00\x02\x01\x00\x00\x00\x00\x00\x03k02\x00\x011\
\x00\x00\x00\x11\x00\x00\x00\x03\x01\x00\x00\x00\x00\x00\x03k03\x00\x011\
\x00\x00\x00\x11\x00\x00\x00\x04\x01\x00\x00\x00\x00\x00\x03k04\x00\x011\
\x00\x00\x00\x11\x00\x00\x00\x05\x01\x00\x00\x00\x00\x00\x03k05\x00\x011\
\x00\x00\x00\x11\x00\x00\x00\x06\x01\x00\x00\x00\x00\x00\x03k06\x00\x011\
\x00\x00\x00\x11\x00\x00\x00\x07\x01\x00\x00\x00\x00\x00\x03k07\x00\x011\
\x00\x00\x00\x11\x00\x00\x00\x08\x01\x00\x00\x00\x00\x00\x03k08\x00\x011\
\x00\x00\x00\x11\x00\x00\x00\x09\x01\x00\x00\x00\x00\x00\x03k09\x00\x011\
\x00\x00\x00\x11\x00\x00\x00\x0a\x01\x00\x00\x00\x00\x00\x03k10\x00\x011\
\x00\x00\x00\x11\x00\x00\x00\x0b\x01\x00\x00\x00\x00\x00\x03k11\x00\x011\
\x00\x00\x00\x11\x00\x00\x00\x0c\x01\x00\x00\x00\x00\x00\x03k12\x00\x011\
\x00\x00\x00\x11\x00\x00\x00\x0d\x01\x00\x00\x00\x00\x00\x03k13\x00\x011";

/// Whether each version of the settings is exported, and a version that is not there is told of.
fn exports_settings(alloc: Global, disk: &mut MemDisk) -> bool {
    run(alloc, disk, SETTINGS) == Some(Ended::Done)
        && exports(alloc, disk, 1, OF_VERSION_1, Ended::Done)
        && exports(alloc, disk, 2, OF_VERSION_2, Ended::Done)
        && exports(alloc, disk, 3, b"", Ended::UnknownVersion)
}

#[test]
fn settings_are_exported(rt: HostRuntime) {
    let Some(mut disk) = new_store(rt.alloc(), 64, 100_000, 100) else {
        assert!(rt; false);
        return;
    };
    assert!(rt; exports_settings(rt.alloc(), &mut disk));
}

/// Whether thirteen puts are exported as they came, from levels or from the memtable alone.
fn exports_thirteen(alloc: Global, disk: &mut MemDisk) -> bool {
    run(alloc, disk, THIRTEEN_PUTS) == Some(Ended::Done)
        && exports(alloc, disk, 0, THIRTEEN_PUTS, Ended::Done)
        && exports(alloc, disk, 4_294_967_295, b"", Ended::UnknownVersion)
}

#[test]
fn an_export_is_that_of_what_it_makes(rt: HostRuntime) {
    let Some(mut disk) = new_store(rt.alloc(), 4, 100, 10) else {
        assert!(rt; false);
        return;
    };
    assert!(rt; exports_thirteen(rt.alloc(), &mut disk));
}

#[test]
fn an_export_of_a_memtable_is_the_same(rt: HostRuntime) {
    let Some(mut disk) = new_store(rt.alloc(), 64, 100, 1) else {
        assert!(rt; false);
        return;
    };
    assert!(rt; exports_thirteen(rt.alloc(), &mut disk));
}
