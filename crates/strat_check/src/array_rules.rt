//! The rules of an array, told from what was counted of it and of its level.

ghost use Rattle.std.specs.List.{list_all, sum_by};
ghost use Rattle.std.specs.Prelude.{◌≡◌, ◌<◌, ◌-◌, ◌*◌, ◌^◌, ◌==◌, ◌&&◌, not, nat_lt, nat_le, min, length, map, slice_index, IsTrue};
ghost use Rattle.def_state.specs.Level.{least};
ghost use Rattle.strat_check.specs.ArrayNumbers.{own_sum, sees_same, sees_enough, lesser_of, IsToldFrom};

use crate::places::ArrayTold;
use crate::scan::Scan;
use crate::sights::Sights;
use crate::strays::Strays;
use strat_base::{ArrayDesc, Version};

/// How many entries the versions of a tag have of their own, or 2^64 - 1 where there are more. O(tag).
fn own_of_tag(tag: &[Version], mine: &Sights) -> u64
    requires fits { IsTrue (list_all (λ v. nat_lt v (length mine.now.own)) tag.now) }
    ensures ok { result ≡ min (own_sum mine.now tag.now) (2 ^ 64 - 1) }
{
    let mut own = 0u64;
    for v in tag {
        own = own.saturating_add(mine.own(*v));
    }
    own
}

/// Whether a version sees as many keys of an array as of its level's leads, and these weigh the same. O(1).
fn sees_same_at(v: Version, mine: &Sights, leads: &Sights) -> bool
    requires fits { v < length mine.now.own }
    requires len { length leads.now.own ≡ length mine.now.own }
    ensures ok { result ≡ sees_same mine.now leads.now v }
{
    mine.seen(v) == leads.seen(v) && mine.weight(v) == leads.weight(v)
}

/// Whether each version of a tag does. O(tag).
fn tag_sees_same(tag: &[Version], mine: &Sights, leads: &Sights) -> bool
    requires fits { IsTrue (list_all (λ v. nat_lt v (length mine.now.own)) tag.now) }
    requires len { length leads.now.own ≡ length mine.now.own }
    ensures ok { result ≡ list_all (sees_same mine.now leads.now) tag.now }
{
    for v in tag {
        if !sees_same_at(*v, mine, leads) {
            return false;
        }
    }
    true
}

/// Whether so many entries are at most three times as many as a version sees keys. O(1).
fn sees_enough_at(v: Version, mine: &Sights, entries: u64) -> bool
    requires fits { v < length mine.now.own }
    ensures ok { result ≡ sees_enough mine.now entries v }
{
    entries <= mine.seen(v).saturating_mul(3)
}

/// Whether they are so of each version of a tag. O(tag).
fn tag_sees_enough(tag: &[Version], mine: &Sights, entries: u64) -> bool
    requires fits { IsTrue (list_all (λ v. nat_lt v (length mine.now.own)) tag.now) }
    ensures ok { result ≡ list_all (sees_enough mine.now entries) tag.now }
{
    for v in tag {
        if !sees_enough_at(*v, mine, entries) {
            return false;
        }
    }
    true
}

/// The lesser of two numbers, of which the first may be none.
fn lesser(found: Option<u64>, n: u64) -> u64
    ensures ok { result ≡ lesser_of found n }
{
    match found {
        Some(m) if m < n => m,
        _ => n,
    }
}

/// The least number of keys that a version of a tag sees, or 0 of no version. O(tag).
fn least_seen(tag: &[Version], mine: &Sights) -> u64
    requires fits { IsTrue (list_all (λ v. nat_lt v (length mine.now.own)) tag.now) }
    ensures ok { result ≡ least (map (λ v. slice_index mine.now.seen v) tag.now) }
{
    let mut least = None;
    for v in tag {
        least = Some(lesser(least, mine.seen(*v)));
    }
    least.unwrap_or(0)
}

/// c, of an array: no entry that is live at a version of its tag is a stray, and each of these versions sees of the array what
/// it sees of the level. O(tag).
fn agrees(tag: &[Version], strays: Strays, mine: &Sights, leads: &Sights) -> bool
    requires fits { IsTrue (list_all (λ v. nat_lt v (length mine.now.own)) tag.now) }
    requires len { length leads.now.own ≡ length mine.now.own }
    ensures ok { result
        ≡ (not strays.is_live && list_all (sees_same mine.now leads.now) tag.now) }
{
    !strays.is_live && tag_sees_same(tag, mine, leads)
}

/// e: so many entries are at most twice as many as the leads among them. O(1).
fn is_led(entries: u64, leads: u64) -> bool
    ensures ok { result ≡ nat_le entries (min (leads * 2) (2 ^ 64 - 1)) }
{
    entries <= leads.saturating_mul(2)
}

/// f: each entry is of a version that is there, and none of these is a stray. O(1).
fn is_drawn(scan: Scan, strays: Strays) -> bool
    ensures ok { result ≡ (scan.is_within && not strays.has_any) }
{
    scan.is_within && !strays.has_any
}

/// k: the numbers of a descriptor are these. O(1).
fn is_described(desc: &ArrayDesc, entries: u64, leads: u64, least: u64) -> bool
    ensures ok { result ≡ ((desc.now.entries == entries) && (desc.now.leads == leads)
        && (desc.now.least == least)) }
{
    u64::from(desc.entries) == entries
        && u64::from(desc.leads) == leads
        && u64::from(desc.least) == least
}

/// Tells the rules of an array from its scan, its strays, and the sights of it and of its level. O(tag).
pub fn tell_array(
    desc: &ArrayDesc,
    scan: Scan,
    strays: Strays,
    mine: &Sights,
    leads_of_level: &Sights,
) -> ArrayTold
    requires fits { IsTrue (list_all (λ v. nat_lt v (length mine.now.own)) desc.now.versions) }
    requires len { length leads_of_level.now.own ≡ length mine.now.own }
    ensures ok { IsToldFrom desc.now scan strays mine.now leads_of_level.now result }
{
    let tag = desc.versions.as_slice();
    let leads = own_of_tag(tag, mine);
    ArrayTold {
        agrees: agrees(tag, strays, mine, leads_of_level),
        is_dense: tag_sees_enough(tag, mine, scan.entries),
        is_led: is_led(scan.entries, leads),
        is_drawn: is_drawn(scan, strays),
        is_described: is_described(desc, scan.entries, leads, least_seen(tag, mine)),
        leads,
    }
}
