//! Replies and their bytes.

use crate::hex::hex;
use std::alloc::Global;
use std::test::Fail;
use strat_base::limits::PAIRS_MAX;
use strat_base::{NoMemory, PairBuf, key_ok, value_ok};
use strat_frame::{OutBuf, parse_reply, write_reply};
use strat_model::{Refusal, Reply};

type Pair = (&'static str, &'static str);

// Replies, the pairs beside them, and their frames.
const WITH_PAIRS: [(Reply, &[Pair], &str); 3] = [
    (Reply::Found, &[("?", "1")], "00000008 00000007 01 0001 31"),
    (Reply::Found, &[("a", "")], "00000007 00000007 01 0000"),
    (
        Reply::Pairs { more: true },
        &[("a", "1"), ("b", "2")],
        "00000014 00000007 03 01 0002 0001 61 0001 31 0001 62 0001 32",
    ),
];

// Replies with no pair beside them, and their frames.
const FRAMES: [(Reply, &str); 8] = [
    (Reply::Done, "00000005 00000007 00"),
    (Reply::Absent, "00000005 00000007 02"),
    (Reply::Pairs { more: false }, "00000008 00000007 03 00 0000"),
    (Reply::Made { version: 1 }, "00000009 00000007 04 00000001"),
    (
        Reply::Info {
            parent: None,
            depth: 0,
            frozen: false,
        },
        "0000000e 00000007 05 ffffffff 00000000 00",
    ),
    (
        Reply::Info {
            parent: Some(258),
            depth: 3,
            frozen: true,
        },
        "0000000e 00000007 05 00000102 00000003 01",
    ),
    (
        Reply::Opened { cursor: 1 },
        "0000000d 00000007 06 0000000000000001",
    ),
    (
        Reply::Stat {
            versions: 1,
            updates: 2,
            changes: 3,
            cursors: 4,
        },
        "00000015 00000007 07 00000001 00000002 00000003 00000004",
    ),
];

// Refusals and their frames.
const REFUSALS: [(Refusal, &str); 15] = [
    (Refusal::UnknownVersion, "00000005 00000007 10"),
    (Refusal::Frozen, "00000005 00000007 11"),
    (Refusal::UnknownCursor, "00000005 00000007 12"),
    (Refusal::VersionLimit, "00000005 00000007 13"),
    (Refusal::ChangeLimit, "00000005 00000007 14"),
    (Refusal::CursorLimit, "00000005 00000007 15"),
    (Refusal::Malformed, "00000005 00000007 16"),
    (Refusal::KeySize, "00000005 00000007 17"),
    (Refusal::ValueSize, "00000005 00000007 18"),
    (Refusal::ScanSize, "00000005 00000007 19"),
    (Refusal::FrameTooLong, "00000005 00000007 1a"),
    (Refusal::Root, "00000005 00000007 1b"),
    (Refusal::NoMemory, "00000005 00000007 20"),
    (Refusal::DeviceFault, "00000005 00000007 21"),
    (
        Refusal::Damaged { block: 7 },
        "00000009 00000007 22 00000007",
    ),
];

/// Whether a buffer takes just these pairs.
fn holds(buf: &mut PairBuf, pairs: &[Pair]) -> bool {
    buf.clear();
    for (key, value) in pairs {
        if buf.len() >= PAIRS_MAX || !key_ok(key.as_bytes()) || !value_ok(value.as_bytes()) {
            return false;
        }
        buf.push(key.as_bytes(), value.as_bytes());
    }
    true
}

/// Whether a reply is written in these bytes, where the pairs beside it are as many as it has.
fn is_written(out: &mut OutBuf, pairs: &PairBuf, tag: u32, reply: &Reply, want: &[u8]) -> bool {
    if *reply == Reply::Found && pairs.len() != 1 {
        return false;
    }
    out.clear();
    write_reply(tag, reply, pairs, out);
    out.bytes() == want
}

/// Whether a reply with these pairs beside it has these digits.
fn has_digits(
    alloc: Global,
    out: &mut OutBuf,
    pairs: &PairBuf,
    reply: &Reply,
    digits: &str,
) -> Result<bool, NoMemory> {
    let want = hex(alloc, digits)?;
    Ok(is_written(out, pairs, 7, reply, &want))
}

/// Whether the frames of the replies with pairs are written.
fn writes_pairs(alloc: Global, out: &mut OutBuf, pairs: &mut PairBuf) -> Result<bool, NoMemory> {
    for (reply, exposed, digits) in &WITH_PAIRS {
        if !holds(pairs, exposed) || !has_digits(alloc, out, pairs, reply, digits)? {
            return Ok(false);
        }
    }
    Ok(true)
}

#[test]
fn pairs_are_written_behind_one_another(rt: HostRuntime) -> Result<(), Fail> {
    let mut out = OutBuf::new(rt.alloc())?;
    let mut pairs = PairBuf::new(rt.alloc())?;
    assert!(rt; writes_pairs(rt.alloc(), &mut out, &mut pairs)?);
    Ok(())
}

/// Whether the frames of the replies with no pair are written.
fn writes_replies(alloc: Global, out: &mut OutBuf, pairs: &PairBuf) -> Result<bool, NoMemory> {
    for (reply, digits) in &FRAMES {
        if !has_digits(alloc, out, pairs, reply, digits)? {
            return Ok(false);
        }
    }
    Ok(true)
}

#[test]
fn replies_are_written_field_by_field(rt: HostRuntime) -> Result<(), Fail> {
    let mut out = OutBuf::new(rt.alloc())?;
    let pairs = PairBuf::new(rt.alloc())?;
    assert!(rt; writes_replies(rt.alloc(), &mut out, &pairs)?);
    Ok(())
}

/// Whether the frames of the refusals are written.
fn writes_refusals(alloc: Global, out: &mut OutBuf, pairs: &PairBuf) -> Result<bool, NoMemory> {
    for (refusal, digits) in &REFUSALS {
        if !has_digits(alloc, out, pairs, &Reply::Refused(*refusal), digits)? {
            return Ok(false);
        }
    }
    Ok(true)
}

#[test]
fn refusals_are_written_field_by_field(rt: HostRuntime) -> Result<(), Fail> {
    let mut out = OutBuf::new(rt.alloc())?;
    let pairs = PairBuf::new(rt.alloc())?;
    assert!(rt; writes_refusals(rt.alloc(), &mut out, &pairs)?);
    Ok(())
}

#[test]
fn a_reply_to_a_frame_too_long_has_no_tag(rt: HostRuntime) -> Result<(), Fail> {
    let mut out = OutBuf::new(rt.alloc())?;
    let pairs = PairBuf::new(rt.alloc())?;
    let reply = Reply::Refused(Refusal::FrameTooLong);
    assert!(rt; is_written(&mut out, &pairs, 0, &reply, &[0, 0, 0, 5, 0, 0, 0, 0, 0x1a]));
    Ok(())
}

/// Whether a body is read as this reply, with its value beside it.
fn is_read(pairs: &mut PairBuf, body: &[u8], reply: Reply) -> bool {
    if parse_reply(body, pairs) != Some((7, reply)) {
        return false;
    }
    if reply != Reply::Found {
        return pairs.is_empty();
    }
    pairs.len() == 1 && pairs.key(0) == b"?".as_slice() && pairs.value(0) == b"1".as_slice()
}

/// Whether these digits are the body of this reply.
fn are_digits_of(
    alloc: Global,
    pairs: &mut PairBuf,
    digits: &str,
    reply: Reply,
) -> Result<bool, NoMemory> {
    let body = hex(alloc, digits)?;
    Ok(is_read(pairs, &body, reply))
}

// Bodies and their replies.
const BODIES: [(&str, Reply); 28] = [
    ("00000007 00", Reply::Done),
    ("00000007 01 0001 31", Reply::Found),
    ("00000007 02", Reply::Absent),
    ("00000007 04 00000001", Reply::Made { version: 1 }),
    (
        "00000007 05 ffffffff 00000000 00",
        Reply::Info {
            parent: None,
            depth: 0,
            frozen: false,
        },
    ),
    (
        "00000007 05 00000000 00000001 01",
        Reply::Info {
            parent: Some(0),
            depth: 1,
            frozen: true,
        },
    ),
    (
        "00000007 05 fffffffe ffffffff 01",
        Reply::Info {
            parent: Some(4294967294),
            depth: 4294967295,
            frozen: true,
        },
    ),
    ("00000007 06 0000000000000001", Reply::Opened { cursor: 1 }),
    (
        "00000007 06 ffffffffffffffff",
        Reply::Opened {
            cursor: 18446744073709551615,
        },
    ),
    (
        "00000007 07 00000001 00000000 00000000 00000000",
        Reply::Stat {
            versions: 1,
            updates: 0,
            changes: 0,
            cursors: 0,
        },
    ),
    (
        "00000007 07 00000001 00000002 00000003 00000004",
        Reply::Stat {
            versions: 1,
            updates: 2,
            changes: 3,
            cursors: 4,
        },
    ),
    ("00000007 10", Reply::Refused(Refusal::UnknownVersion)),
    ("00000007 11", Reply::Refused(Refusal::Frozen)),
    ("00000007 12", Reply::Refused(Refusal::UnknownCursor)),
    ("00000007 13", Reply::Refused(Refusal::VersionLimit)),
    ("00000007 14", Reply::Refused(Refusal::ChangeLimit)),
    ("00000007 15", Reply::Refused(Refusal::CursorLimit)),
    ("00000007 16", Reply::Refused(Refusal::Malformed)),
    ("00000007 17", Reply::Refused(Refusal::KeySize)),
    ("00000007 18", Reply::Refused(Refusal::ValueSize)),
    ("00000007 19", Reply::Refused(Refusal::ScanSize)),
    ("00000007 1a", Reply::Refused(Refusal::FrameTooLong)),
    ("00000007 1b", Reply::Refused(Refusal::Root)),
    ("00000007 20", Reply::Refused(Refusal::NoMemory)),
    ("00000007 21", Reply::Refused(Refusal::DeviceFault)),
    (
        "00000007 22 00000000",
        Reply::Refused(Refusal::Damaged { block: 0 }),
    ),
    (
        "00000007 22 00000007",
        Reply::Refused(Refusal::Damaged { block: 7 }),
    ),
    (
        "00000007 22 ffffffff",
        Reply::Refused(Refusal::Damaged { block: 4294967295 }),
    ),
];

/// Whether the bodies of the replies are read.
fn reads_replies(alloc: Global, pairs: &mut PairBuf) -> Result<bool, NoMemory> {
    for (body, reply) in &BODIES {
        if !are_digits_of(alloc, pairs, body, *reply)? {
            return Ok(false);
        }
    }
    Ok(true)
}

#[test]
fn replies_are_read_as_they_were_written(rt: HostRuntime) -> Result<(), Fail> {
    let mut pairs = PairBuf::new(rt.alloc())?;
    assert!(rt; reads_replies(rt.alloc(), &mut pairs)?);
    Ok(())
}

// Pages: their bodies, whether others follow, and their pairs.
const PAGES: [(&str, bool, &[Pair]); 3] = [
    ("00000007 03 00 0000", false, &[]),
    ("00000007 03 00 0001 0002 6162 0000", false, &[("ab", "")]),
    (
        "00000007 03 01 0002 0001 61 0001 31 0001 62 0001 32",
        true,
        &[("a", "1"), ("b", "2")],
    ),
];

/// Whether a buffer has just these pairs.
fn has(buf: &PairBuf, pairs: &[Pair]) -> bool {
    if buf.len() != pairs.len() {
        return false;
    }
    for (i, (key, value)) in pairs.iter().enumerate() {
        if buf.key(i) != key.as_bytes() || buf.value(i) != value.as_bytes() {
            return false;
        }
    }
    true
}

/// Whether these digits are a page with these pairs.
fn is_page(
    alloc: Global,
    pairs: &mut PairBuf,
    digits: &str,
    more: bool,
    want: &[Pair],
) -> Result<bool, NoMemory> {
    let body = hex(alloc, digits)?;
    Ok(parse_reply(&body, pairs) == Some((7, Reply::Pairs { more })) && has(pairs, want))
}

/// Whether the pages are read.
fn reads_pages(alloc: Global, pairs: &mut PairBuf) -> Result<bool, NoMemory> {
    for (digits, more, want) in &PAGES {
        if !is_page(alloc, pairs, digits, *more, want)? {
            return Ok(false);
        }
    }
    Ok(true)
}

#[test]
fn pages_are_read_pair_by_pair(rt: HostRuntime) -> Result<(), Fail> {
    let mut pairs = PairBuf::new(rt.alloc())?;
    assert!(rt; reads_pages(rt.alloc(), &mut pairs)?);
    Ok(())
}

/// Adds a length in two bytes, and so many equal bytes.
fn push_counted(bytes: &mut Vec<u8>, len: u16, byte: u8) -> Result<(), NoMemory> {
    bytes.extend_from_slice(&len.to_be_bytes())?;
    for _ in 0..len {
        bytes.push(byte)?;
    }
    Ok(())
}

/// A page of so many pairs, each with a key and a value of so many bytes.
fn page_of(alloc: Global, count: u16, key_len: u16, value_len: u16) -> Result<Vec<u8>, NoMemory> {
    let mut bytes = hex(alloc, "00000007 03 00")?;
    bytes.extend_from_slice(&count.to_be_bytes())?;
    for _ in 0..count {
        push_counted(&mut bytes, key_len, 0x6b)?;
        push_counted(&mut bytes, value_len, 0x76)?;
    }
    Ok(bytes)
}

// How many pairs a page has, the sizes of their keys and values, and whether it is a reply.
const SIZES: [(u16, u16, u16, bool); 6] = [
    (1, 255, 1024, true),
    (1, 0, 0, false),
    (1, 256, 0, false),
    (1, 1, 1025, false),
    (256, 1, 0, true),
    (257, 1, 0, false),
];

/// Whether the pages of these sizes are read, or are not.
fn reads_sizes(alloc: Global, pairs: &mut PairBuf) -> Result<bool, NoMemory> {
    for (count, key_len, value_len, is) in &SIZES {
        let body = page_of(alloc, *count, *key_len, *value_len)?;
        if parse_reply(&body, pairs).is_some() != *is {
            return Ok(false);
        }
    }
    Ok(true)
}

#[test]
fn pages_have_up_to_256_pairs_of_lawful_sizes(rt: HostRuntime) -> Result<(), Fail> {
    let mut pairs = PairBuf::new(rt.alloc())?;
    assert!(rt; reads_sizes(rt.alloc(), &mut pairs)?);
    Ok(())
}

/// Whether these digits are a body of no reply.
fn is_no_reply(alloc: Global, pairs: &mut PairBuf, digits: &str) -> Result<bool, NoMemory> {
    let body = hex(alloc, digits)?;
    Ok(parse_reply(&body, pairs).is_none())
}

// Bodies that are no reply: with a field or a pair too few or a byte too many, a flag that is neither 0 nor 1,
// or the status of no reply.
const NO_REPLIES: [&str; 31] = [
    "",
    "00000007",
    "000007 00",
    "00000007 00 00",
    "00000007 01",
    "00000007 01 0001",
    "00000007 01 0001 31 00",
    "00000007 02 0001 31",
    "00000007 03 00",
    "00000007 03 02 0000",
    "00000007 03 00 0000 00",
    "00000007 03 00 0000 0001 61 0001 31",
    "00000007 03 00 0001 0001 61",
    "00000007 03 00 0002 0001 61 0001 31",
    "00000007 04",
    "00000007 04 00000001 00",
    "00000007 05 ffffffff 00000000",
    "00000007 05 ffffffff 00000000 02",
    "00000007 05 ffffffff 00000000 00 00",
    "00000007 06 00000000000001",
    "00000007 06 0000000000000001 00",
    "00000007 07 00000001 00000002 00000003",
    "00000007 07 00000001 00000002 00000003 00000004 00",
    "00000007 11 00",
    "00000007 12 00",
    "00000007 1b 00",
    "00000007 1c",
    "00000007 21 00000007",
    "00000007 22",
    "00000007 22 00000007 00",
    "00000007 23",
];

/// Whether none of these digits are the body of a reply.
fn are_no_replies(alloc: Global, pairs: &mut PairBuf, bodies: &[&str]) -> Result<bool, NoMemory> {
    for digits in bodies {
        if !is_no_reply(alloc, pairs, digits)? {
            return Ok(false);
        }
    }
    Ok(true)
}

#[test]
fn other_bodies_are_no_reply(rt: HostRuntime) -> Result<(), Fail> {
    let mut pairs = PairBuf::new(rt.alloc())?;
    assert!(rt; are_no_replies(rt.alloc(), &mut pairs, &NO_REPLIES)?);
    Ok(())
}
