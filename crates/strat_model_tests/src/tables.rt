//! What worked tables answer, line by line.

ghost use Rattle.std.specs.Prelude.{◌≡◌, ◌≤◌, ◌<◌, ◌+◌, ◌^◌, true, IsTrue};
ghost use Rattle.strat_model.specs.Command.{request_of};
ghost use Rattle.strat_model.specs.Spelling.{is_bound, has_lawful_sizes, is_limit};

use std::alloc::Global;
use std::test::Fail;
use strat_base::limits::{KEY_MAX, PAIRS_MAX};
use strat_base::{NoMemory, PairBuf, key_ok, value_ok};
use strat_model::{Command, PlainTable, Refusal, Reply};

type Pair = (&'static str, &'static str);

/// A command, and what it must be answered.
#[derive(Clone, Copy)]
struct Line {
    command: Command<'static>,
    reply: Reply,
    pairs: &'static [Pair],
}

fn answered(command: Command<'static>, reply: Reply, pairs: &'static [Pair]) -> Line {
    Line {
        command,
        reply,
        pairs,
    }
}

fn done(command: Command<'static>) -> Line {
    answered(command, Reply::Done, &[])
}

fn refused(command: Command<'static>, refusal: Refusal) -> Line {
    answered(command, Reply::Refused(refusal), &[])
}

fn put(version: u32, key: &'static str, value: &'static str) -> Command<'static> {
    Command::Put {
        version,
        key: key.as_bytes(),
        value: value.as_bytes(),
    }
}

fn delete(version: u32, key: &'static str) -> Command<'static> {
    Command::Delete {
        version,
        key: key.as_bytes(),
    }
}

fn get(version: u32, key: &'static str) -> Command<'static> {
    Command::Get {
        version,
        key: key.as_bytes(),
    }
}

fn scan(version: u32, lo: &'static str, hi: &'static str, limit: u16) -> Command<'static> {
    Command::Scan {
        version,
        lo: lo.as_bytes(),
        hi: hi.as_bytes(),
        limit,
    }
}

fn open(version: u32) -> Command<'static> {
    Command::OpenCursor {
        version,
        lo: b"",
        hi: b"",
    }
}

fn clone_of(version: u32) -> Command<'static> {
    Command::Clone { version }
}

fn drop_of(version: u32) -> Command<'static> {
    Command::DropVersion { version }
}

fn info(parent: Option<u32>, depth: u32, frozen: bool) -> Reply {
    Reply::Info {
        parent,
        depth,
        frozen,
    }
}

fn stat(versions: u32, changes: u32) -> Reply {
    Reply::Stat {
        versions,
        updates: 0,
        changes,
        cursors: 0,
    }
}

/// Whether these bytes may be a bound of a range.
fn bound_ok(bound: &[u8]) -> bool
    ensures { result ≡ is_bound bound.now }
{
    bound.len() <= KEY_MAX
}

/// Whether so many pairs may be asked for.
fn limit_ok(limit: u16) -> bool
    ensures { result ≡ is_limit limit }
{
    limit >= 1 && limit as usize <= PAIRS_MAX
}

/// Whether the sizes of a command are as they may be.
fn sizes_ok(command: &Command<'_>) -> bool
    ensures { IsTrue result → has_lawful_sizes (request_of command.now) ≡ true }
{
    match *command {
        Command::Put { key, value, .. } => key_ok(key) && value_ok(value),
        Command::Delete { key, .. } | Command::Get { key, .. } => key_ok(key),
        Command::Scan { lo, hi, limit, .. } => bound_ok(lo) && bound_ok(hi) && limit_ok(limit),
        Command::OpenCursor { lo, hi, .. } => bound_ok(lo) && bound_ok(hi),
        Command::NextPairs { limit, .. } => limit_ok(limit),
        Command::Clone { .. }
        | Command::Info { .. }
        | Command::CloseCursor { .. }
        | Command::Stat
        | Command::DropVersion { .. } => true,
    }
}

/// Whether a buffer has just these pairs.
fn has(buf: &PairBuf, pairs: &[Pair]) -> bool {
    if buf.len() != pairs.len() {
        return false;
    }
    for (i, (key, value)) in pairs.iter().enumerate() {
        if buf.key(i) != key.as_bytes() || buf.value(i) != value.as_bytes() {
            return false;
        }
    }
    true
}

/// Whether a table answers a line so.
fn answers(table: &mut PlainTable, out: &mut PairBuf, line: &Line) -> bool
    requires { table.old.next_cursor < 2 ^ 63 }
    ensures { table.new.next_cursor ≤ table.old.next_cursor + 1 }
{
    if !sizes_ok(&line.command) {
        return false;
    }
    table.step(&line.command, out) == line.reply && has(out, line.pairs)
}

/// Whether a table answers these lines so, one after the other.
fn follows(table: &mut PlainTable, out: &mut PairBuf, lines: &[Line]) -> bool
    requires { table.old.next_cursor ≤ 1 }
{
    for line in lines {
        if !answers(table, out, line) {
            return false;
        }
    }
    true
}

/// Whether a new table of these limits answers these lines so.
fn follow(
    alloc: Global,
    changes_max: u32,
    versions_max: u32,
    lines: &[Line],
) -> Result<bool, NoMemory>
    requires changes { changes_max ≤ 100000 }
    requires some { 1 ≤ versions_max }
    requires versions { versions_max ≤ 100 }
{
    let mut table = PlainTable::new(alloc, changes_max, versions_max)?;
    let mut out = PairBuf::new(alloc)?;
    Ok(follows(&mut table, &mut out, lines))
}

#[test]
fn a_child_has_a_map_of_its_own(rt: HostRuntime) -> Result<(), Fail> {
    let lines = [
        refused(get(5, "a"), Refusal::UnknownVersion),
        done(put(0, "a", "1")),
        answered(get(0, "a"), Reply::Found, &[("a", "1")]),
        answered(get(0, "b"), Reply::Absent, &[]),
        answered(clone_of(0), Reply::Made { version: 1 }, &[]),
        refused(put(0, "b", "1"), Refusal::Frozen),
        done(put(1, "a", "2")),
        answered(get(0, "a"), Reply::Found, &[("a", "1")]),
        answered(get(1, "a"), Reply::Found, &[("a", "2")]),
    ];
    assert!(rt; follow(rt.alloc(), 100, 10, &lines)?);
    Ok(())
}

/// Whether a table that opened no cursor takes a pair of such sizes, and gives it back.
fn takes(table: &mut PlainTable, out: &mut PairBuf, key: &[u8], value: &[u8]) -> bool
    requires { table.old.next_cursor ≤ 1 }
{
    let put = Command::Put {
        version: 0,
        key,
        value,
    };
    let get = Command::Get { version: 0, key };
    if !sizes_ok(&put) || !sizes_ok(&get) || table.step(&put, out) != Reply::Done {
        return false;
    }
    let found = table.step(&get, out) == Reply::Found;
    found && out.len() == 1 && out.key(0) == key && out.value(0) == value
}

#[test]
fn a_table_takes_the_largest_pair(rt: HostRuntime) -> Result<(), Fail> {
    let mut table = PlainTable::new(rt.alloc(), 1, 1)?;
    let mut out = PairBuf::new(rt.alloc())?;
    assert!(rt; takes(&mut table, &mut out, &[b'k'; 255], &[b'v'; 1024]));
    Ok(())
}

#[test]
fn a_scan_says_whether_more_follow(rt: HostRuntime) -> Result<(), Fail> {
    let more = Reply::Pairs { more: true };
    let all = Reply::Pairs { more: false };
    let lines = [
        done(put(0, "b", "2")),
        done(put(0, "c", "3")),
        done(put(0, "a", "1")),
        answered(scan(0, "", "", 2), more, &[("a", "1"), ("b", "2")]),
        answered(scan(0, "b", "c", 1), all, &[("b", "2")]),
    ];
    assert!(rt; follow(rt.alloc(), 100, 10, &lines)?);
    Ok(())
}

#[test]
fn a_table_tells_of_its_tree(rt: HostRuntime) -> Result<(), Fail> {
    let lines = [
        answered(Command::Info { version: 0 }, info(None, 0, false), &[]),
        answered(Command::Stat, stat(1, 0), &[]),
        answered(clone_of(0), Reply::Made { version: 1 }, &[]),
        answered(Command::Info { version: 0 }, info(None, 0, true), &[]),
        answered(Command::Info { version: 1 }, info(Some(0), 1, false), &[]),
        answered(Command::Stat, stat(2, 1), &[]),
    ];
    assert!(rt; follow(rt.alloc(), 100, 10, &lines)?);
    Ok(())
}

#[test]
fn limits_are_met_in_order(rt: HostRuntime) -> Result<(), Fail> {
    let lines = [
        done(put(0, "a", "1")),
        answered(clone_of(0), Reply::Made { version: 1 }, &[]),
        refused(put(1, "a", "2"), Refusal::ChangeLimit),
        refused(clone_of(1), Refusal::VersionLimit),
        refused(put(0, "a", "2"), Refusal::Frozen),
    ];
    assert!(rt; follow(rt.alloc(), 2, 2, &lines)?);
    Ok(())
}

#[test]
fn settings_are_staged_beside_production(rt: HostRuntime) -> Result<(), Fail> {
    let all = Reply::Pairs { more: false };
    let lines = [
        done(put(0, "user/1/name", "Ann")),
        done(put(0, "user/2/name", "Bob")),
        answered(clone_of(0), Reply::Made { version: 1 }, &[]),
        answered(clone_of(0), Reply::Made { version: 2 }, &[]),
        done(put(1, "user/2/name", "Rob")),
        done(delete(2, "user/1/name")),
        answered(
            scan(1, "user/", "user0", 100),
            all,
            &[("user/1/name", "Ann"), ("user/2/name", "Rob")],
        ),
        answered(
            scan(2, "user/", "user0", 100),
            all,
            &[("user/2/name", "Bob")],
        ),
        answered(
            scan(0, "user/", "user0", 100),
            all,
            &[("user/1/name", "Ann"), ("user/2/name", "Bob")],
        ),
    ];
    assert!(rt; follow(rt.alloc(), 100000, 100, &lines)?);
    Ok(())
}

#[test]
fn a_cursor_keeps_the_pairs_of_its_moment(rt: HostRuntime) -> Result<(), Fail> {
    let next = Command::NextPairs {
        cursor: 1,
        limit: 256,
    };
    let close = Command::CloseCursor { cursor: 1 };
    let all = Reply::Pairs { more: false };
    let lines = [
        done(put(0, "a", "1")),
        done(put(0, "b", "2")),
        answered(open(0), Reply::Opened { cursor: 1 }, &[]),
        done(put(0, "a", "9")),
        done(delete(0, "b")),
        done(put(0, "c", "3")),
        answered(next, all, &[("a", "1"), ("b", "2")]),
        answered(next, all, &[]),
        done(close),
        refused(close, Refusal::UnknownCursor),
        refused(next, Refusal::UnknownCursor),
    ];
    assert!(rt; follow(rt.alloc(), 100, 10, &lines)?);
    Ok(())
}

#[test]
fn a_version_that_was_dropped_is_unknown(rt: HostRuntime) -> Result<(), Fail> {
    let lines = [
        done(put(0, "a", "1")),
        answered(clone_of(0), Reply::Made { version: 1 }, &[]),
        done(put(1, "b", "2")),
        done(drop_of(1)),
        done(put(0, "c", "3")),
        refused(get(1, "a"), Refusal::UnknownVersion),
        refused(drop_of(0), Refusal::Root),
    ];
    assert!(rt; follow(rt.alloc(), 100, 10, &lines)?);
    Ok(())
}

#[test]
fn every_command_knows_a_dropped_version_no_more(rt: HostRuntime) -> Result<(), Fail> {
    let lines = [
        answered(clone_of(0), Reply::Made { version: 1 }, &[]),
        done(drop_of(1)),
        refused(put(1, "a", "1"), Refusal::UnknownVersion),
        refused(delete(1, "a"), Refusal::UnknownVersion),
        refused(get(1, "a"), Refusal::UnknownVersion),
        refused(scan(1, "", "", 2), Refusal::UnknownVersion),
        refused(open(1), Refusal::UnknownVersion),
        refused(clone_of(1), Refusal::UnknownVersion),
        refused(Command::Info { version: 1 }, Refusal::UnknownVersion),
        refused(drop_of(1), Refusal::UnknownVersion),
    ];
    assert!(rt; follow(rt.alloc(), 100, 10, &lines)?);
    Ok(())
}

#[test]
fn a_parent_is_frozen_while_a_child_lives(rt: HostRuntime) -> Result<(), Fail> {
    let lines = [
        answered(clone_of(0), Reply::Made { version: 1 }, &[]),
        answered(clone_of(0), Reply::Made { version: 2 }, &[]),
        done(drop_of(1)),
        refused(put(0, "a", "1"), Refusal::Frozen),
        answered(Command::Info { version: 0 }, info(None, 0, true), &[]),
        done(drop_of(2)),
        answered(Command::Info { version: 0 }, info(None, 0, false), &[]),
        answered(Command::Stat, stat(3, 4), &[]),
        answered(clone_of(0), Reply::Made { version: 3 }, &[]),
    ];
    assert!(rt; follow(rt.alloc(), 100, 10, &lines)?);
    Ok(())
}

#[test]
fn refusals_of_a_drop_are_told_in_order(rt: HostRuntime) -> Result<(), Fail> {
    let lines = [
        refused(drop_of(0), Refusal::Root),
        answered(clone_of(0), Reply::Made { version: 1 }, &[]),
        answered(clone_of(1), Reply::Made { version: 2 }, &[]),
        refused(drop_of(3), Refusal::UnknownVersion),
        refused(drop_of(0), Refusal::Root),
        refused(drop_of(1), Refusal::Frozen),
        refused(drop_of(2), Refusal::ChangeLimit),
    ];
    assert!(rt; follow(rt.alloc(), 2, 10, &lines)?);
    Ok(())
}

#[test]
fn a_cursor_outlives_its_version(rt: HostRuntime) -> Result<(), Fail> {
    let next = Command::NextPairs {
        cursor: 1,
        limit: 256,
    };
    let lines = [
        done(put(0, "a", "1")),
        answered(clone_of(0), Reply::Made { version: 1 }, &[]),
        answered(open(1), Reply::Opened { cursor: 1 }, &[]),
        done(drop_of(1)),
        answered(next, Reply::Pairs { more: false }, &[("a", "1")]),
    ];
    assert!(rt; follow(rt.alloc(), 100, 10, &lines)?);
    Ok(())
}

/// As many cursors as there may be, and one more.
fn too_many_cursors(alloc: Global) -> Result<Vec<Line>, NoMemory> {
    let mut lines = Vec::new(alloc);
    for cursor in 1..65 {
        lines.push(answered(open(0), Reply::Opened { cursor }, &[]))?;
    }
    lines.push(refused(open(0), Refusal::CursorLimit))?;
    Ok(lines)
}

#[test]
fn sixty_four_cursors_are_open_at_most(rt: HostRuntime) -> Result<(), Fail> {
    let lines = too_many_cursors(rt.alloc())?;
    assert!(rt; follow(rt.alloc(), 100, 10, &lines)?);
    Ok(())
}
