//! Commands and their bytes.

ghost use Rattle.std.specs.Prelude.{◌≡◌, true, IsTrue};
ghost use Rattle.strat_model.specs.Command.{request_of};
ghost use Rattle.strat_model.specs.Spelling.{is_bound, has_lawful_sizes, is_limit};

use crate::hex::hex;
use std::alloc::Global;
use std::test::Fail;
use strat_base::limits::{KEY_MAX, PAIRS_MAX};
use strat_base::{NoMemory, key_ok, value_ok};
use strat_frame::{BodyFault, OutBuf, parse_command, write_command};
use strat_model::Command;

const PUT: Command<'static> = Command::Put {
    version: 0,
    key: b"a",
    value: b"1",
};

const PUT_NOTHING: Command<'static> = Command::Put {
    version: 513,
    key: b"ab",
    value: b"",
};

const LARGEST: Command<'static> = Command::Put {
    version: 0,
    key: &[0x6b; 255],
    value: &[0x76; 1024],
};

// Commands, and their frames under one tag.
const FRAMES: [(Command<'static>, &str); 12] = [
    (PUT, "0000000f 01020304 01 00000000 0001 61 0001 31"),
    (PUT_NOTHING, "0000000f 01020304 01 00000201 0002 6162 0000"),
    (
        Command::Delete {
            version: 2,
            key: b"a",
        },
        "0000000c 01020304 02 00000002 0001 61",
    ),
    (
        Command::Get {
            version: 4294967295,
            key: b"a",
        },
        "0000000c 01020304 03 ffffffff 0001 61",
    ),
    (
        Command::Clone { version: 1 },
        "00000009 01020304 04 00000001",
    ),
    (
        Command::Scan {
            version: 3,
            lo: b"a",
            hi: b"bc",
            limit: 256,
        },
        "00000012 01020304 05 00000003 0001 61 0002 6263 0100",
    ),
    (
        Command::Info { version: 7 },
        "00000009 01020304 06 00000007",
    ),
    (
        Command::OpenCursor {
            version: 0,
            lo: b"",
            hi: b"z",
        },
        "0000000e 01020304 07 00000000 0000 0001 7a",
    ),
    (
        Command::NextPairs {
            cursor: 258,
            limit: 2,
        },
        "0000000f 01020304 08 0000000000000102 0002",
    ),
    (
        Command::CloseCursor { cursor: 1 },
        "0000000d 01020304 09 0000000000000001",
    ),
    (Command::Stat, "00000005 01020304 0a"),
    (
        Command::DropVersion { version: 1 },
        "00000009 01020304 0b 00000001",
    ),
];

/// Whether these bytes may be a bound of a range.
fn bound_ok(bound: &[u8]) -> bool
    ensures { result ≡ is_bound bound.now }
{
    bound.len() <= KEY_MAX
}

/// Whether so many pairs may be asked for.
fn limit_ok(limit: u16) -> bool
    ensures { result ≡ is_limit limit }
{
    limit >= 1 && limit as usize <= PAIRS_MAX
}

/// Whether the sizes of a command are as they may be.
fn sizes_ok(command: &Command<'_>) -> bool
    ensures { IsTrue result → has_lawful_sizes (request_of command.now) ≡ true }
{
    match *command {
        Command::Put { key, value, .. } => key_ok(key) && value_ok(value),
        Command::Delete { key, .. } | Command::Get { key, .. } => key_ok(key),
        Command::Scan { lo, hi, limit, .. } => bound_ok(lo) && bound_ok(hi) && limit_ok(limit),
        Command::OpenCursor { lo, hi, .. } => bound_ok(lo) && bound_ok(hi),
        Command::NextPairs { limit, .. } => limit_ok(limit),
        Command::Clone { .. }
        | Command::Info { .. }
        | Command::CloseCursor { .. }
        | Command::Stat
        | Command::DropVersion { .. } => true,
    }
}

/// Whether a command is written in these bytes.
fn is_written(out: &mut OutBuf, tag: u32, command: &Command<'_>, want: &[u8]) -> bool {
    if !sizes_ok(command) {
        return false;
    }
    out.clear();
    write_command(tag, command, out);
    out.bytes() == want
}

#[test]
fn commands_are_written_field_by_field(rt: HostRuntime) -> Result<(), Fail> {
    let mut out = OutBuf::new(rt.alloc())?;
    for (command, frame) in FRAMES {
        assert!(rt; is_written(&mut out, 0x01020304, &command, &hex(rt.alloc(), frame)?));
    }
    Ok(())
}

// Bodies, their tags and their commands.
const BODIES: [(&str, u32, Command<'static>); 17] = [
    ("00000007 01 00000000 0001 61 0001 31", 7, PUT),
    (
        "ffffffff 01 00000201 0002 6162 0000",
        4294967295,
        PUT_NOTHING,
    ),
    (
        "00000001 02 00000000 0001 61",
        1,
        Command::Delete {
            version: 0,
            key: b"a",
        },
    ),
    (
        "00000008 03 00000000 0001 61",
        8,
        Command::Get {
            version: 0,
            key: b"a",
        },
    ),
    ("00000001 04 00000000", 1, Command::Clone { version: 0 }),
    ("00000002 04 00000102", 2, Command::Clone { version: 258 }),
    (
        "0000000a 05 00000000 0000 0000 0002",
        10,
        Command::Scan {
            version: 0,
            lo: b"",
            hi: b"",
            limit: 2,
        },
    ),
    (
        "00000003 05 00000102 0001 61 0002 6263 0100",
        3,
        Command::Scan {
            version: 258,
            lo: b"a",
            hi: b"bc",
            limit: 256,
        },
    ),
    ("00000006 06 00000000", 6, Command::Info { version: 0 }),
    (
        "00000004 06 ffffffff",
        4,
        Command::Info {
            version: 4294967295,
        },
    ),
    (
        "00000005 07 00000102 0001 61 0002 6263",
        5,
        Command::OpenCursor {
            version: 258,
            lo: b"a",
            hi: b"bc",
        },
    ),
    (
        "00000006 08 0000000000000001 0100",
        6,
        Command::NextPairs {
            cursor: 1,
            limit: 256,
        },
    ),
    (
        "00000007 09 0000000000000000",
        7,
        Command::CloseCursor { cursor: 0 },
    ),
    (
        "00000007 09 ffffffffffffffff",
        7,
        Command::CloseCursor {
            cursor: 18446744073709551615,
        },
    ),
    ("0000000b 0a", 11, Command::Stat),
    (
        "00000001 0b 00000001",
        1,
        Command::DropVersion { version: 1 },
    ),
    (
        "00000002 0b ffffffff",
        2,
        Command::DropVersion {
            version: 4294967295,
        },
    ),
];

/// Whether a body is read as a command under this tag.
fn is_read(body: &[u8], tag: u32, command: Command<'_>) -> bool {
    match parse_command(body) {
        Ok((read_tag, read)) => read_tag == tag && read == command,
        Err(_) => false,
    }
}

/// Whether each of these bodies is read as its command under its tag.
fn are_read(alloc: Global, bodies: &[(&str, u32, Command<'_>)]) -> Result<bool, NoMemory> {
    for (digits, tag, command) in bodies {
        let body = hex(alloc, digits)?;
        if !is_read(&body, *tag, *command) {
            return Ok(false);
        }
    }
    Ok(true)
}

#[test]
fn bodies_are_read_as_commands(rt: HostRuntime) -> Result<(), Fail> {
    assert!(rt; are_read(rt.alloc(), &BODIES)?);
    Ok(())
}

// Bodies that do not have the form of a command, and the tags of their replies. A field too few or a byte too
// many comes before any size. No command has opcode 12, whatever follows it.
const MALFORMED: [(&str, u32); 36] = [
    ("", 0),
    ("aabbcc", 0),
    ("00000009", 9),
    ("00000001 00", 1),
    ("00000001 0c", 1),
    ("00000001 0c 00000001", 1),
    ("00000001 0c 00000001 00", 1),
    ("00000001 ff", 1),
    ("00000001 01", 1),
    ("00000004 01 00000000 0001 61", 4),
    ("00000004 01 00000000 0001 61 0001 31 00", 4),
    ("00000004 01 00000000 0001 61 0002 31", 4),
    ("00000004 01 00000000 0000 0001 31 00", 4),
    ("00000002 02 00000000", 2),
    ("00000002 02 00000000 0001 61 00", 2),
    ("00000003 03 00000000 0001", 3),
    ("00000003 03 00000000 0001 61 00", 3),
    ("00000003 03 00000000 0000 00", 3),
    ("00000001 04", 1),
    ("00000001 04 000000", 1),
    ("00000001 04 00000000 00", 1),
    ("0000000a 05 00000000 0000 0000", 10),
    ("0000000a 05 00000000 0000 0000 00", 10),
    ("0000000a 05 00000000 0000 0000 0000 00", 10),
    ("00000001 06 000000", 1),
    ("00000001 06 00000000 00", 1),
    ("00000001 07 00000000 0000", 1),
    ("00000001 07 00000000 0000 0000 00", 1),
    ("00000002 08 0000000000000001 00", 2),
    ("00000002 08 0000000000000001 0000 00", 2),
    ("00000004 09 00000000000001", 4),
    ("00000004 09 0000000000000001 00", 4),
    ("00000001 0a 00", 1),
    ("00000001 0b", 1),
    ("00000001 0b 000001", 1),
    ("00000001 0b 00000001 00", 1),
];

// Bodies with a key of no byte, whatever their version and their value.
const NO_KEYS: [(&str, u32); 5] = [
    ("00000004 01 00000005 0000 0000", 4),
    ("00000004 01 00000000 0000 0001 31", 4),
    ("00000002 02 00000000 0000", 2),
    ("00000003 03 00000000 0000", 3),
    ("ffffffff 03 ffffffff 0000", 4294967295),
];

// Bodies that ask for no pair or for too many, whatever their version or cursor.
const NO_LIMITS: [(&str, u32); 5] = [
    ("0000000a 05 00000005 0000 0000 0000", 10),
    ("0000000a 05 00000000 0001 61 0001 62 0101", 10),
    ("0000000a 05 00000000 0001 62 0001 61 ffff", 10),
    ("00000006 08 0000000000000000 0000", 6),
    ("00000006 08 0000000000000001 0101", 6),
];

/// Whether this is the first that is wrong with a body, and its reply has this tag.
fn is_refused(body: &[u8], tag: u32, fault: BodyFault) -> bool {
    match parse_command(body) {
        Ok(_) => false,
        Err((refused_tag, refused)) => refused_tag == tag && refused == fault,
    }
}

/// Whether this is the first that is wrong with each of these bodies.
fn are_refused(alloc: Global, bodies: &[(&str, u32)], fault: BodyFault) -> Result<bool, NoMemory> {
    for (digits, tag) in bodies {
        let body = hex(alloc, digits)?;
        if !is_refused(&body, *tag, fault) {
            return Ok(false);
        }
    }
    Ok(true)
}

#[test]
fn bodies_of_another_form_are_malformed(rt: HostRuntime) -> Result<(), Fail> {
    assert!(rt; are_refused(rt.alloc(), &MALFORMED, BodyFault::Malformed)?);
    Ok(())
}

#[test]
fn a_key_has_a_byte(rt: HostRuntime) -> Result<(), Fail> {
    assert!(rt; are_refused(rt.alloc(), &NO_KEYS, BodyFault::KeySize)?);
    Ok(())
}

#[test]
fn a_page_has_1_to_256_pairs(rt: HostRuntime) -> Result<(), Fail> {
    assert!(rt; are_refused(rt.alloc(), &NO_LIMITS, BodyFault::ScanSize)?);
    Ok(())
}

/// Adds a length in two bytes, and so many equal bytes.
fn push_counted(bytes: &mut Vec<u8>, len: u16, byte: u8) -> Result<(), NoMemory> {
    bytes.extend_from_slice(&len.to_be_bytes())?;
    for _ in 0..len {
        bytes.push(byte)?;
    }
    Ok(())
}

/// These digits, and two fields of so many bytes: a key and a value, or two bounds.
fn large(alloc: Global, front: &str, first_len: u16, second_len: u16) -> Result<Vec<u8>, NoMemory> {
    let mut bytes = hex(alloc, front)?;
    push_counted(&mut bytes, first_len, 0x6b)?;
    push_counted(&mut bytes, second_len, 0x76)?;
    Ok(bytes)
}

/// Whether a body has as many bytes as the largest put, and is read as it.
fn is_largest(body: &[u8]) -> bool {
    body.len() == 1292 && is_read(body, 7, LARGEST)
}

#[test]
fn the_largest_put_is_read(rt: HostRuntime) -> Result<(), Fail> {
    let body = large(rt.alloc(), "00000007 01 00000000", 255, 1024)?;
    assert!(rt; is_largest(&body));
    Ok(())
}

#[test]
fn the_largest_put_is_written(rt: HostRuntime) -> Result<(), Fail> {
    let mut out = OutBuf::new(rt.alloc())?;
    let frame = large(rt.alloc(), "0000050c 00000007 01 00000000", 255, 1024)?;
    assert!(rt; is_written(&mut out, 7, &LARGEST, &frame));
    Ok(())
}

// Sizes of keys and values, and what a put of them is refused for. The key is told before the value.
const SIZES: [(u16, u16, BodyFault); 5] = [
    (256, 0, BodyFault::KeySize),
    (255, 1025, BodyFault::ValueSize),
    (1, 1025, BodyFault::ValueSize),
    (0, 1025, BodyFault::KeySize),
    (256, 1025, BodyFault::KeySize),
];

/// Whether a put of these sizes is refused for this.
fn is_refused_for_sizes(
    alloc: Global,
    key_len: u16,
    value_len: u16,
    fault: BodyFault,
) -> Result<bool, NoMemory> {
    let body = large(alloc, "00000007 01 00000000", key_len, value_len)?;
    Ok(is_refused(&body, 7, fault))
}

#[test]
fn sizes_of_puts_are_told_the_key_first(rt: HostRuntime) -> Result<(), Fail> {
    for (key_len, value_len, fault) in &SIZES {
        assert!(rt; is_refused_for_sizes(rt.alloc(), *key_len, *value_len, *fault)?);
    }
    Ok(())
}

// Sizes of the two bounds of a cursor, and what is wrong with them.
const BOUNDS: [(u16, u16, Option<BodyFault>); 3] = [
    (255, 255, None),
    (256, 0, Some(BodyFault::KeySize)),
    (0, 256, Some(BodyFault::KeySize)),
];

/// Whether this is wrong with a cursor's bounds of these sizes.
fn is_wrong_with_bounds(
    alloc: Global,
    lo_len: u16,
    hi_len: u16,
    fault: Option<BodyFault>,
) -> Result<bool, NoMemory> {
    let body = large(alloc, "00000005 07 00000000", lo_len, hi_len)?;
    Ok(match parse_command(&body) {
        Ok(_) => fault.is_none(),
        Err((tag, refused)) => tag == 5 && fault == Some(refused),
    })
}

#[test]
fn bounds_have_up_to_255_bytes(rt: HostRuntime) -> Result<(), Fail> {
    for (lo_len, hi_len, fault) in &BOUNDS {
        assert!(rt; is_wrong_with_bounds(rt.alloc(), *lo_len, *hi_len, *fault)?);
    }
    Ok(())
}

#[test]
fn an_unlawful_put_with_a_byte_behind_it_is_malformed(rt: HostRuntime) -> Result<(), Fail> {
    let mut body = large(rt.alloc(), "00000007 01 00000000", 256, 1025)?;
    body.push(0)?;
    assert!(rt; is_refused(&body, 7, BodyFault::Malformed));
    Ok(())
}
