//! Manifests printed and parsed, against bytes that were written by hand.

ghost use Rattle.std.specs.Prelude.{◌≡◌, ◌≤◌, ◌<◌, [], ◌∷◌, ◌++◌, length, IfOk, IsTrue};
ghost use Rattle.def_bytes.specs.Manifest.{is_lawful_manifest, manifest_bytes, new_manifest};
ghost use Rattle.strat_manifest.specs.ManifestView.{marks_listed, manifest_of};
ghost use Rattle.strat_manifest_tests.specs.Sample.{first_array, second_array, sample_manifest, dropped_manifest};

use std::alloc::Global;
use std::process::Abort;
use std::test::Fail;
use strat_base::{ArrayDesc, Extent, Extents, LevelDesc, Listing, NoMemory};
use strat_manifest::{Manifest, ManifestFault, parse, print};

/// The manifest of an empty store.
const EMPTY: &[u8; 38] =
    b"\0\0\0\0\0\0\0\0\0\0\0\0\0\0\0\0\0\0\0\0\0\0\0\0\0\0\0\0\0\0\0\x01\0\0\0\x01\0\0";

/// The same in format 1.
const OLD_EMPTY: &[u8; 29] = b"\0\0\0\0\0\0\0\0\0\0\0\0\0\0\0\0\0\0\0\0\0\0\0\x01\0\0\0\x01\0";

/// Nine changes, six updates, seven entries written, 3 the next array, three versions of which 1 comes
/// from 0 and 2 from 1, and level 2 of horizon 3 with two arrays: array 1 of four entries, three
/// leads and least 2 in blocks 7, 8 and 10, for versions 0 and 2; array 2 of three entries, two leads and
/// least 1 in block 9, for version 1. In format 1.
const OLD_SAMPLE: &[u8; 138] =
    b"\0\0\0\x09\0\0\0\x06\0\0\0\0\0\0\0\x07\0\0\0\0\0\0\0\x03\0\0\0\x03\0\0\0\0\0\0\0\x01\x01\x02\0\0\0\x03\0\0\0\x02\0\0\0\0\0\0\0\x01\0\0\0\x04\0\0\0\x03\0\0\0\x02\0\0\0\x02\0\0\0\x07\0\0\0\x02\0\0\0\x0a\0\0\0\x01\0\0\0\x02\0\0\0\0\0\0\0\x02\0\0\0\0\0\0\0\x02\0\0\0\x03\0\0\0\x02\0\0\0\x01\0\0\0\x01\0\0\0\x09\0\0\0\x01\0\0\0\x01\0\0\0\x01";

/// The same with five entries compacted, and versions 1 and 2 dropped, in format 2.
const SAMPLE: &[u8; 149] =
    b"\0\0\0\x09\0\0\0\x06\0\0\0\0\0\0\0\x07\0\0\0\0\0\0\0\x05\0\0\0\0\0\0\0\x03\0\0\0\x03\0\0\0\0\0\0\0\x01\0\x01\x01\x01\x02\0\0\0\x03\0\0\0\x02\0\0\0\0\0\0\0\x01\0\0\0\x04\0\0\0\x03\0\0\0\x02\0\0\0\x02\0\0\0\x07\0\0\0\x02\0\0\0\x0a\0\0\0\x01\0\0\0\x02\0\0\0\0\0\0\0\x02\0\0\0\0\0\0\0\x02\0\0\0\x03\0\0\0\x02\0\0\0\x01\0\0\0\x01\0\0\0\x09\0\0\0\x01\0\0\0\x01\0\0\0\x01";

/// Whether bytes are refused.
fn is_refused(alloc: Global, bytes: &[u8], format: u16) -> bool {
    match parse(alloc, bytes, format) {
        Err(ManifestFault::Refused) => true,
        _ => false,
    }
}

/// Whether bytes are those of a manifest, and are printed of it again.
fn comes_back(alloc: Global, bytes: &[u8], format: u16) -> bool
    requires { length bytes.now ≤ 4096 }
{
    let Ok(manifest) = parse(alloc, bytes, format) else {
        return false;
    };
    match print(alloc, &manifest, format) {
        Ok(printed) => printed.as_slice() == bytes,
        Err(_) => false,
    }
}

/// Whether a manifest is printed as these bytes.
fn is_printed_as(alloc: Global, manifest: &Manifest, bytes: &[u8], format: u16) -> bool
    requires kept { IsTrue (is_lawful_manifest format (manifest_of manifest.now)) }
    requires fits { length (manifest_bytes format (manifest_of manifest.now)) ≤ 4096 }
{
    match print(alloc, manifest, format) {
        Ok(printed) => printed.as_slice() == bytes,
        Err(_) => false,
    }
}

/// The manifest of an empty store, in memory.
fn empty_manifest(alloc: Global) -> Result<Manifest, NoMemory>
    ensures ok { IfOk result (λ m. manifest_of m ≡ new_manifest) }
{
    let marks = numbers_of(alloc, &[0])?;
    Ok(Manifest {
        changes: 0,
        updates: 0,
        written: 0,
        compacted: 0,
        next_array: 1,
        parents: Listing::new(alloc),
        marks,
        levels: Listing::new(alloc),
    })
}

/// Whether a manifest that is known to be that of an empty store is printed as its bytes in both formats.
#[tactic(auto, unfolding(def_bytes::specs::Manifest::all_pass, def_bytes::specs::Manifest::manifest_bytes, strat_base::specs::Numbers::be))]
fn empty_is_printed(alloc: Global, manifest: &Manifest) -> bool
    requires { manifest_of manifest.now ≡ new_manifest }
{
    is_printed_as(alloc, manifest, OLD_EMPTY, 1) && is_printed_as(alloc, manifest, EMPTY, 2)
}

#[test]
fn the_manifest_of_an_empty_store_has_38_bytes_and_had_29(rt: HostRuntime) -> Result<(), Fail> {
    let alloc = rt.alloc();
    let manifest = empty_manifest(alloc)?;
    assert!(rt; empty_is_printed(alloc, &manifest));
    assert!(rt; comes_back(alloc, OLD_EMPTY, 1));
    assert!(rt; comes_back(alloc, EMPTY, 2));
    Ok(())
}

#[test]
fn bytes_of_another_format_are_refused(rt: HostRuntime) -> Result<(), Fail> {
    let alloc = rt.alloc();
    for format in [0, 1, 3] {
        assert!(rt; is_refused(alloc, EMPTY, format));
        assert!(rt; is_refused(alloc, SAMPLE, format));
    }
    for format in [0, 2, 3] {
        assert!(rt; is_refused(alloc, OLD_EMPTY, format));
        assert!(rt; is_refused(alloc, OLD_SAMPLE, format));
    }
    Ok(())
}

/// A list of numbers.
fn numbers_of(alloc: Global, xs: &[u32]) -> Result<Listing<u32>, NoMemory>
    ensures ok { IfOk result (λ l. l ≡ xs.now) }
{
    let mut numbers = Listing::new(alloc);
    numbers.extend(xs)?;
    Ok(numbers)
}

/// A list of one item.
fn one<T: Drop>(alloc: Global, x: T) -> Result<Listing<T>, NoMemory>
    ensures ok { IfOk result (λ l. l ≡ x ∷ []) }
{
    let mut list = Listing::new(alloc);
    match list.push(x) {
        Ok(()) => Ok(list),
        Err((failed, _)) => Err(failed),
    }
}

/// Adds an item to a list.
fn and<T: Drop>(list: Listing<T>, x: T) -> Result<Listing<T>, NoMemory>
    ensures ok { IfOk result (λ l. l ≡ list ++ x ∷ []) }
{
    let mut list = list;
    match list.push(x) {
        Ok(()) => Ok(list),
        Err((failed, _)) => Err(failed),
    }
}

/// Adds an extent to a list.
fn and_extent(extents: Extents, start: u32, len: u32) -> Result<Extents, NoMemory>
    ensures ok { IfOk result (λ l. l ≡ extents ++ record { start = start; len = len } ∷ []) }
{
    let mut extents = extents;
    match extents.push(Extent { start, len }) {
        Ok(()) => Ok(extents),
        Err((failed, _)) => Err(failed),
    }
}

/// An array of two extents for versions 0 and 2.
fn array_of_two_extents(alloc: Global) -> Result<ArrayDesc, NoMemory>
    ensures ok { IfOk result (λ a. a ≡ first_array) }
{
    let extents = and_extent(Extents::new(alloc), 7, 2)?;
    let extents = and_extent(extents, 10, 1)?;
    let versions = numbers_of(alloc, &[0, 2])?;
    Ok(ArrayDesc {
        id: 1,
        entries: 4,
        leads: 3,
        least: 2,
        extents,
        versions,
    })
}

/// An array of one block for version 1.
fn array_of_one_block(alloc: Global) -> Result<ArrayDesc, NoMemory>
    ensures ok { IfOk result (λ a. a ≡ second_array) }
{
    let extents = and_extent(Extents::new(alloc), 9, 1)?;
    let versions = numbers_of(alloc, &[1])?;
    Ok(ArrayDesc {
        id: 2,
        entries: 3,
        leads: 2,
        least: 1,
        extents,
        versions,
    })
}

/// The list of both arrays.
fn both_arrays(alloc: Global) -> Result<Listing<ArrayDesc>, NoMemory>
    ensures ok { IfOk result (λ l. l ≡ first_array ∷ second_array ∷ []) }
{
    let arrays = one(alloc, array_of_two_extents(alloc)?)?;
    let second = array_of_one_block(alloc)?;
    and(arrays, second)
}

/// Three versions, one below the other, with these marks, a level of both arrays, and so many entries compacted.
fn manifest_of_two_arrays(
    alloc: Global,
    compacted: u64,
    marks: &[u32],
) -> Result<Manifest, NoMemory>
    ensures ok { IfOk result (λ m. manifest_of m
        ≡ record sample_manifest { compacted = compacted; marks = marks_listed marks.now }) }
{
    let level = LevelDesc {
        number: 2,
        horizon: 3,
        arrays: both_arrays(alloc)?,
    };
    let levels = one(alloc, level)?;
    let parents = numbers_of(alloc, &[0, 1])?;
    let marks = numbers_of(alloc, marks)?;
    Ok(Manifest {
        changes: 9,
        updates: 6,
        written: 7,
        compacted,
        next_array: 3,
        parents,
        marks,
        levels,
    })
}

/// Whether a manifest that is known to be the sample is printed as its bytes.
#[tactic(auto, unfolding(def_bytes::specs::Manifest::all_pass, def_bytes::specs::Manifest::manifest_bytes, strat_base::specs::Numbers::be))]
fn sample_is_printed(alloc: Global, manifest: &Manifest) -> bool
    requires { manifest_of manifest.now ≡ sample_manifest }
{
    is_printed_as(alloc, manifest, OLD_SAMPLE, 1)
}

/// Whether a manifest that is known to be the sample with drops is printed as its bytes.
#[tactic(auto, unfolding(def_bytes::specs::Manifest::all_pass, def_bytes::specs::Manifest::manifest_bytes, strat_base::specs::Numbers::be))]
fn drops_are_printed(alloc: Global, manifest: &Manifest) -> bool
    requires { manifest_of manifest.now ≡ dropped_manifest }
{
    is_printed_as(alloc, manifest, SAMPLE, 2)
}

#[test]
fn a_level_of_two_arrays_is_printed_and_parsed(rt: HostRuntime) -> Result<(), Fail> {
    let alloc = rt.alloc();
    let manifest = manifest_of_two_arrays(alloc, 0, &[0, 0, 0])?;
    assert!(rt; sample_is_printed(alloc, &manifest));
    assert!(rt; comes_back(alloc, OLD_SAMPLE, 1));
    Ok(())
}

#[test]
fn dropped_versions_are_printed_and_parsed(rt: HostRuntime) -> Result<(), Fail> {
    let alloc = rt.alloc();
    let manifest = manifest_of_two_arrays(alloc, 5, &[0, 1, 1])?;
    assert!(rt; drops_are_printed(alloc, &manifest));
    assert!(rt; comes_back(alloc, SAMPLE, 2));
    Ok(())
}

/// Whether bytes say this of marks, and of what was compacted.
fn says(alloc: Global, bytes: &[u8], format: u16, marks: &[u32], compacted: u64) -> bool {
    match parse(alloc, bytes, format) {
        Ok(manifest) => manifest.marks.as_slice() == marks && manifest.compacted == compacted,
        Err(_) => false,
    }
}

#[test]
fn in_format_1_no_version_is_dropped(rt: HostRuntime) -> Result<(), Fail> {
    let alloc = rt.alloc();
    assert!(rt; says(alloc, OLD_SAMPLE, 1, &[0, 0, 0], 0));
    assert!(rt; says(alloc, SAMPLE, 2, &[0, 1, 1], 5));
    Ok(())
}

/// Whether the last byte alone tells one alteration of the empty manifest from one with a spelling.
fn may_stand(at: usize, byte: u8) -> bool {
    at < 4 || (at >= 8 && at < 31) || (at == 31 && byte != 0)
}

/// Whether the empty manifest with this byte in this place is parsed or refused as it should be.
fn is_judged(alloc: Global, at: usize, byte: u8) -> bool
    requires { at < 38 }
{
    let mut bytes = *EMPTY;
    bytes[at] = byte;
    if may_stand(at, byte) {
        comes_back(alloc, &bytes, 2)
    } else {
        is_refused(alloc, &bytes, 2)
    }
}

/// Whether each byte of the empty manifest is judged so after some of its bits were changed.
fn each_is_judged(alloc: Global, mask: u8) -> bool {
    for at in 0..38 {
        if !is_judged(alloc, at, EMPTY[at] ^ mask) {
            return false;
        }
    }
    true
}

#[test]
fn each_altered_byte_is_another_manifest_or_refused(rt: HostRuntime) -> Result<(), Fail> {
    let alloc = rt.alloc();
    assert!(rt; each_is_judged(alloc, 1));
    assert!(rt; each_is_judged(alloc, 2));
    assert!(rt; each_is_judged(alloc, 128));
    assert!(rt; each_is_judged(alloc, 255));
    Ok(())
}

/// Whether each beginning of bytes is refused.
fn beginnings_are_refused(alloc: Global, bytes: &[u8], format: u16) -> bool {
    for n in 0..bytes.len() {
        if !is_refused(alloc, &bytes[..n], format) {
            return false;
        }
    }
    true
}

#[test]
fn each_beginning_is_refused(rt: HostRuntime) -> Result<(), Fail> {
    let alloc = rt.alloc();
    assert!(rt; beginnings_are_refused(alloc, EMPTY, 2));
    assert!(rt; beginnings_are_refused(alloc, SAMPLE, 2));
    assert!(rt; beginnings_are_refused(alloc, OLD_SAMPLE, 1));
    Ok(())
}

/// Whether each of these alterations of one byte of the sample in format 1 is refused, or each stands.
fn are_judged(alloc: Global, rows: &[(usize, u8)], stands: bool) -> bool {
    for row in rows {
        let mut bytes = *OLD_SAMPLE;
        if row.0 >= bytes.len() {
            return false;
        }
        bytes[row.0] = row.1;
        let right = if stands {
            comes_back(alloc, &bytes, 1)
        } else {
            is_refused(alloc, &bytes, 1)
        };
        if !right {
            return false;
        }
    }
    true
}

/// Whether the sample with drops is judged so after one byte was altered.
fn drop_is_judged(alloc: Global, at: usize, byte: u8, stands: bool) -> bool {
    let mut bytes = *SAMPLE;
    if at >= bytes.len() {
        return false;
    }
    bytes[at] = byte;
    if stands {
        comes_back(alloc, &bytes, 2)
    } else {
        is_refused(alloc, &bytes, 2)
    }
}

#[test]
fn each_rule_of_marks_is_kept(rt: HostRuntime) -> Result<(), Fail> {
    let alloc = rt.alloc();
    // what was compacted; version 0; version 1, which is living or not; its child, which must not live below a dropped one
    let rows = [
        (16, 255, true),
        (23, 0, true),
        (44, 1, false),
        (44, 2, false),
        (45, 0, true),
        (45, 2, false),
        (46, 0, false),
        (46, 2, false),
        (46, 255, false),
    ];
    for (at, byte, stands) in rows {
        assert!(rt; drop_is_judged(alloc, at, byte, stands));
    }
    Ok(())
}

#[test]
fn each_rule_of_numbers_is_kept(rt: HostRuntime) -> Result<(), Fail> {
    let alloc = rt.alloc();
    // updates, a parent, the level's number and horizon
    assert!(rt;
        are_judged(
            alloc,
            &[
                (7, 10),
                (31, 1),
                (35, 2),
                (37, 0),
                (37, 23),
                (41, 0),
                (41, 4)
            ],
            false
        )
    );
    assert!(rt;
        are_judged(
            alloc,
            &[
                (7, 9),
                (31, 0),
                (35, 0),
                (37, 1),
                (37, 22),
                (41, 1),
                (41, 3)
            ],
            true
        )
    );
    // an array's number, entries, leads and least
    assert!(rt;
        are_judged(
            alloc,
            &[(53, 0), (53, 3), (57, 0), (57, 2), (61, 5), (65, 5)],
            false
        )
    );
    assert!(rt;
        are_judged(
            alloc,
            &[(53, 2), (57, 3), (61, 4), (61, 0), (65, 4), (65, 0)],
            true
        )
    );
    Ok(())
}

#[test]
fn each_rule_of_lists_is_kept(rt: HostRuntime) -> Result<(), Fail> {
    let alloc = rt.alloc();
    // extents: none, of no block, and one that touches the one before
    assert!(rt; are_judged(alloc, &[(69, 0), (77, 0), (77, 3), (81, 9)], false));
    assert!(rt;
        are_judged(
            alloc,
            &[(77, 1), (77, 4), (81, 8), (70, 255), (82, 255)],
            true
        )
    );
    // versions: none, not ascending, and two tags that begin alike or in the wrong order
    assert!(rt;
        are_judged(
            alloc,
            &[(89, 0), (97, 0), (93, 2), (93, 1), (137, 0)],
            false
        )
    );
    assert!(rt; are_judged(alloc, &[(97, 1), (97, 255), (137, 2)], true));
    // counts that nothing stands behind
    assert!(rt;
        are_judged(
            alloc,
            &[(36, 2), (36, 255), (42, 255), (45, 3), (66, 255), (86, 255)],
            false
        )
    );
    Ok(())
}

#[test]
fn a_byte_behind_the_last_level_is_refused(rt: HostRuntime) -> Result<(), Fail> {
    let alloc = rt.alloc();
    let mut longer = [0; 39];
    longer[..38].copy_from_slice(EMPTY);
    assert!(rt; is_refused(alloc, &longer, 2));
    let mut longer = [0; 139];
    longer[..138].copy_from_slice(OLD_SAMPLE);
    assert!(rt; is_refused(alloc, &longer, 1));
    Ok(())
}
