//! Commands by their number, and whether a store carries them out as the plain table does.

ghost use Rattle.std.specs.Prelude.{◌≡◌, ◌≤◌, ◌<◌, ◌+◌, ◌^◌, true, IsTrue, IfOk};
ghost use Rattle.strat_model.specs.Command.{request_of};
ghost use Rattle.strat_model.specs.Spelling.{has_lawful_sizes};

use std::alloc::Global;
use strat_base::limits::KEY_MAX;
use strat_base::{NoMemory, PairBuf, key_ok, value_ok};
use strat_disk::Disk;
use strat_model::{Command, PlainTable, Refusal, Reply};
use strat_store::Store;

/// A list of commands.
#[derive(Clone, Copy)]
pub enum Script {
    /// Any commands, of which many are refused.
    Any,
    /// Any commands, of which many are about cursors.
    Paging,
    /// Changes that are all accepted, over several versions.
    Changes,
    /// Changes that are all accepted, of which many drop versions.
    Drops,
    /// These changes, and after each a command that looks at a version of theirs or is refused.
    Dropping,
    /// The first changes, with a command about a cursor after each two: openings, pages and closings, all accepted.
    Slicing,
    /// Puts of thirteen keys at version 0.
    Thirteen,
    /// Looks up all that the changes may have set in nine versions.
    Look,
    /// Looks up the thirteen keys.
    LookThirteen,
    /// The fourteen changes of the worked stream.
    Worked,
    /// Looks up the twelve keys that they name.
    LookWorked,
}

/// How many of the changes a run makes: they end with nine versions, and those with drops with eleven, three of which live.
pub const CHANGES: u32 = 40;
/// How many commands these are with those about cursors between them.
pub const SLICING: u32 = 60;
/// How many commands look these up.
pub const LOOKS: u32 = 48;

const KEYS: [&[u8]; 4] = [b"a", b"ab", b"b", b"\xff"];

const VALUES: [&[u8]; 4] = [b"", b"other", &[7; 1000], &[8; 1024]];

const THIRTEEN: [&[u8]; 13] = [
    b"k01", b"k02", b"k03", b"k04", b"k05", b"k06", b"k07", b"k08", b"k09", b"k10", b"k11", b"k12",
    b"k13",
];

const TWELVE: [&[u8]; 12] = [
    b"a", b"b", b"c", b"d", b"e", b"f", b"g", b"h", b"i", b"j", b"k", b"l",
];

/// A number that is drawn by a multiplication.
fn mixed(n: u32) -> u32 {
    n.wrapping_add(1).wrapping_mul(2_654_435_761) >> 7
}

/// One of four keys.
fn key_of(n: u32) -> &'static [u8] {
    KEYS[(n % 4) as usize]
}

/// Asks for the pairs of a version between two of the keys or without a bound, one, two or all of them.
fn scan(version: u32, n: u32) -> Command<'static> {
    const BOUNDS: [&[u8]; 4] = [b"", b"a", b"ab", b"b"];
    const LIMITS: [u16; 3] = [1, 2, 256];
    Command::Scan {
        version,
        lo: BOUNDS[(n / 16 % 4) as usize],
        hi: BOUNDS[(n / 64 % 4) as usize],
        limit: LIMITS[(n / 16 % 3) as usize],
    }
}

/// Command number n, of one of four keys, at one of the first versions.
fn any(n: u32) -> Command<'static> {
    let drawn = n.wrapping_mul(2_654_435_761) >> 7;
    let version = (drawn / 4) % (2 + n / 16);
    let key = key_of(drawn);
    match n % 8 {
        0 => Command::Clone { version },
        1 => Command::Delete { version, key },
        2 => Command::Info { version },
        3 if n % 16 == 3 => Command::Stat,
        3 => scan(version, n),
        4 | 5 => Command::Get { version, key },
        6 => Command::Put {
            version,
            key,
            value: b"",
        },
        _ => Command::Put {
            version,
            key,
            value: b"other",
        },
    }
}

/// Command number n: some open a cursor over a range, page through one of those so far, or close it.
fn paging(n: u32) -> Command<'static> {
    const BOUNDS: [&[u8]; 3] = [b"", b"ab", b"b"];
    let drawn = mixed(n);
    let cursor = u64::from(drawn / 4 % (1 + n / 8));
    match n % 8 {
        2 => Command::OpenCursor {
            version: drawn % 3,
            lo: BOUNDS[(drawn / 4 % 3) as usize],
            hi: BOUNDS[(drawn / 16 % 3) as usize],
        },
        3 | 5 => Command::NextPairs {
            cursor,
            limit: 1 + (drawn % 2) as u16,
        },
        4 if n % 32 == 4 => Command::CloseCursor { cursor },
        _ => any(n),
    }
}

/// How many versions there are before change number n: each fifth change makes one.
fn versions_before(n: u32) -> u32
    ensures { 1 ≤ result }
{
    1 + n.min(1000).saturating_add(2) / 5
}

/// The version that a version was made of; 0 of version 0 itself.
fn parent(version: u32) -> u32 {
    if version == 0 {
        0
    } else {
        mixed(version) % version
    }
}

/// Whether a version has a child among so many.
fn has_child(version: u32, count: u32) -> bool {
    for child in 1..count {
        if parent(child) == version {
            return true;
        }
    }
    false
}

/// The first version from one on that has no child among so many.
fn childless(from: u32, count: u32) -> u32 {
    for version in from..count {
        if !has_child(version, count) {
            return version;
        }
    }
    count.saturating_sub(1)
}

/// Change number n: a clone, or a deletion or a put at a version without a child.
fn change(n: u32) -> Command<'static> {
    let count = versions_before(n);
    if n % 5 == 2 {
        return Command::Clone {
            version: parent(count),
        };
    }
    let drawn = mixed(n);
    let version = childless((drawn / 16) % count, count);
    let key = key_of(drawn);
    if n % 7 == 3 {
        Command::Delete { version, key }
    } else {
        Command::Put {
            version,
            key,
            value: VALUES[((drawn / 4) % 4) as usize],
        }
    }
}

/// Command number n about a cursor, behind so many changes: of four, one opens a cursor and two ask for a page of it or of the
/// first one; every other cursor is closed, but the first ones of a pair stay open.
fn about_cursors(n: u32, changes: u32) -> Command<'static> {
    let cursor = 1 + u64::from(n / 4);
    match n % 4 {
        0 => Command::OpenCursor {
            version: mixed(n) % versions_before(changes),
            lo: b"",
            hi: b"",
        },
        1 => Command::NextPairs { cursor, limit: 1 },
        3 if n % 8 == 7 => Command::CloseCursor { cursor },
        _ => Command::NextPairs {
            cursor: 1,
            limit: 1,
        },
    }
}

/// Command number n of the changes with commands about cursors between them.
fn slicing(n: u32) -> Command<'static> {
    let before = changes_among(n);
    if n % 3 == 2 {
        about_cursors(n / 3, before)
    } else {
        change(before)
    }
}

/// How many changes are among the first so many of these commands.
pub fn changes_among(n: u32) -> u32 {
    n.saturating_sub(n / 3)
}

/// A value at a key of a version.
fn put_at(version: u32, n: u32) -> Command<'static> {
    Command::Put {
        version,
        key: key_of(n),
        value: VALUES[(n / 4 % 4) as usize],
    }
}

/// The versions that eight changes with drops are about: the one that they begin from, and the two that they make, one below
/// the other. Of three such pairs the last one stays, and the next three begin from its second version.
fn about_drops(n: u32) -> (u32, u32, u32) {
    let made = n / 8 * 2;
    (n / 24 * 6, made + 1, made + 2)
}

/// Change number n of eight that make two versions, one below the other, and drop both, each before its parent is changed
/// again.
fn make_and_drop(n: u32) -> Command<'static> {
    let (from, child, below) = about_drops(n);
    match n % 8 {
        0 => Command::Clone { version: from },
        2 => Command::Clone { version: child },
        3 => put_at(below, n),
        4 => Command::DropVersion { version: below },
        6 => Command::DropVersion { version: child },
        7 => put_at(from, n),
        _ => put_at(child, n),
    }
}

/// The same of eight that leave both.
fn make_and_leave(n: u32) -> Command<'static> {
    let (from, child, below) = about_drops(n);
    match n % 8 {
        0 => Command::Clone { version: from },
        1 => put_at(child, n),
        2 => Command::Clone { version: child },
        4 => Command::Delete {
            version: below,
            key: key_of(n),
        },
        _ => put_at(below, n),
    }
}

/// Change number n of those with drops.
fn drops(n: u32) -> Command<'static> {
    if n / 8 % 3 == 2 {
        make_and_leave(n)
    } else {
        make_and_drop(n)
    }
}

/// A command behind change number n of those with drops: a look at one of their versions, or one that is refused.
fn behind_drops(n: u32) -> Command<'static> {
    let (from, child, below) = about_drops(n);
    let lo: &'static [u8] = b"";
    let (hi, limit) = (lo, 256);
    match n % 8 {
        0 => put_at(from, n),
        1 => Command::Info { version: from },
        2 => Command::DropVersion { version: child },
        3 => Command::Scan {
            version: below,
            lo,
            hi,
            limit,
        },
        4 => Command::Get {
            version: below,
            key: key_of(n),
        },
        5 => Command::Scan {
            version: child,
            lo,
            hi,
            limit,
        },
        6 => Command::Info { version: child },
        _ => Command::DropVersion { version: 0 },
    }
}

/// Command number n of the changes with drops and the commands between them.
fn dropping(n: u32) -> Command<'static> {
    if n % 2 == 0 {
        drops(n / 2)
    } else {
        behind_drops(n / 2)
    }
}

/// Asks what is told of one of ten versions, for one of four keys there, or for the counts.
fn look(n: u32) -> Command<'static> {
    let version = n % 48 / 5;
    match n % 5 {
        0 => Command::Info { version },
        _ if n == 47 => Command::Stat,
        rest => Command::Get {
            version,
            key: key_of(rest),
        },
    }
}

/// The key of one of thirteen, around.
fn thirteen(n: u32) -> &'static [u8] {
    THIRTEEN[(n % 13) as usize]
}

/// The key of one of twelve, around.
fn twelve(n: u32) -> &'static [u8] {
    TWELVE[(n % 12) as usize]
}

/// Change number n of the worked stream: `a` is put twice, `b` is put and deleted, and each other key is put once.
fn worked(n: u32) -> Command<'static> {
    let version = 0;
    let (key, value): (&'static [u8], &'static [u8]) = match n {
        0 => (b"a", b"1"),
        1 => (b"b", b"2"),
        2 => (b"a", b"9"),
        3 => return Command::Delete { version, key: b"b" },
        4 => (b"c", b"3"),
        _ => (twelve(n.saturating_sub(2)), b"1"),
    };
    Command::Put {
        version,
        key,
        value,
    }
}

/// Command number n of a list, from 0.
pub fn command(script: Script, n: u32) -> Command<'static> {
    match script {
        Script::Any => any(n),
        Script::Paging => paging(n),
        Script::Changes => change(n),
        Script::Slicing => slicing(n),
        Script::Drops => drops(n),
        Script::Dropping => dropping(n),
        Script::Thirteen => Command::Put {
            version: 0,
            key: thirteen(n),
            value: b"1",
        },
        Script::Look => look(n),
        Script::LookThirteen => Command::Get {
            version: 0,
            key: thirteen(n),
        },
        Script::Worked => worked(n),
        Script::LookWorked => Command::Get {
            version: 0,
            key: twelve(n),
        },
    }
}

/// Whether the sizes of a command are as they may be.
fn may_be_given(command: &Command<'_>) -> bool
    ensures { IsTrue result → has_lawful_sizes (request_of command.now) ≡ true }
{
    match *command {
        Command::Put { key, value, .. } => key_ok(key) && value_ok(value),
        Command::Delete { key, .. } | Command::Get { key, .. } => key_ok(key),
        Command::Scan { lo, hi, limit, .. } => {
            lo.len() <= KEY_MAX && hi.len() <= KEY_MAX && 1 <= limit && limit <= 256
        }
        Command::OpenCursor { lo, hi, .. } => lo.len() <= KEY_MAX && hi.len() <= KEY_MAX,
        Command::NextPairs { limit, .. } => 1 <= limit && limit <= 256,
        Command::Clone { .. }
        | Command::Info { .. }
        | Command::CloseCursor { .. }
        | Command::Stat
        | Command::DropVersion { .. } => true,
    }
}

/// Whether two buffers have the same pairs.
fn are_same(a: &PairBuf, b: &PairBuf) -> bool {
    if a.len() != b.len() {
        return false;
    }
    for i in 0..a.len() {
        if a.key(i) != b.key(i) || a.value(i) != b.value(i) {
            return false;
        }
    }
    true
}

/// The plain table, and buffers for its pairs and for those of a store.
#[derive(Drop)]
pub struct Beside {
    plain: PlainTable,
    pub told: PairBuf,
    wanted: PairBuf,
}

/// A fresh table of at most 300 changes and 40 versions.
pub fn fresh_beside(alloc: Global) -> Result<Beside, NoMemory>
    ensures room { IfOk result (λ b. b.plain.next_cursor ≤ 1) }
{
    let plain = PlainTable::new(alloc, 300, 40)?;
    let told = PairBuf::new(alloc)?;
    let wanted = PairBuf::new(alloc)?;
    Ok(Beside {
        plain,
        told,
        wanted,
    })
}

/// Whether a store and the plain table answer a command alike.
fn answer_alike<D: Disk>(
    store: &mut Store,
    disk: &mut D,
    beside: &mut Beside,
    command: &Command<'_>,
) -> bool
    requires room { beside.old.plain.next_cursor < 2 ^ 63 }
    ensures room { beside.new.plain.next_cursor ≤ beside.old.plain.next_cursor + 1 }
{
    if store.is_spent() || store.staged() > 0 || !may_be_given(command) {
        return false;
    }
    let reply = store.apply(disk, command, &mut beside.told);
    let other = beside.plain.step(command, &mut beside.wanted);
    reply == other && are_same(&beside.told, &beside.wanted)
}

/// Whether they answer the commands between two numbers alike.
pub fn stay_alike<D: Disk>(
    store: &mut Store,
    disk: &mut D,
    beside: &mut Beside,
    script: Script,
    from: u32,
    to: u32,
) -> bool
    requires room { beside.old.plain.next_cursor ≤ 2 ^ 62 }
    ensures room { beside.new.plain.next_cursor ≤ beside.old.plain.next_cursor + to }
{
    for n in from..to {
        if !answer_alike(store, disk, beside, &command(script, n)) {
            return false;
        }
    }
    true
}

/// Whether the plain table accepts a command.
fn is_accepted(beside: &mut Beside, command: &Command<'_>) -> bool
    requires room { beside.old.plain.next_cursor < 2 ^ 63 }
    ensures room { beside.new.plain.next_cursor ≤ beside.old.plain.next_cursor + 1 }
{
    if !may_be_given(command) {
        return false;
    }
    match beside.plain.step(command, &mut beside.wanted) {
        Reply::Refused(_) => false,
        _ => true,
    }
}

/// Whether the plain table accepts the first so many commands.
pub fn all_accepted(beside: &mut Beside, script: Script, to: u32) -> bool
    requires room { beside.old.plain.next_cursor ≤ 2 ^ 62 }
    ensures room { beside.new.plain.next_cursor ≤ beside.old.plain.next_cursor + to }
{
    for n in 0..to {
        if !is_accepted(beside, &command(script, n)) {
            return false;
        }
    }
    true
}

/// A store's reply, where it may be asked.
pub fn told<D: Disk>(
    store: &mut Store,
    disk: &mut D,
    out: &mut PairBuf,
    command: &Command<'_>,
) -> Option<Reply> {
    if store.is_spent() || store.staged() > 0 || !may_be_given(command) {
        return None;
    }
    Some(store.apply(disk, command, out))
}

/// How many of the first so many commands a store accepts before it refuses one.
pub fn count_accepted<D: Disk>(
    store: &mut Store,
    disk: &mut D,
    out: &mut PairBuf,
    script: Script,
    to: u32,
) -> u32 {
    for n in 0..to {
        match told(store, disk, out, &command(script, n)) {
            None | Some(Reply::Refused(_)) => return n,
            Some(_) => {}
        }
    }
    to
}

/// How many changes a store has accepted, as it says.
pub fn changes_of<D: Disk>(store: &mut Store, disk: &mut D, out: &mut PairBuf) -> Option<u32> {
    match told(store, disk, out, &Command::Stat) {
        Some(Reply::Stat { changes, .. }) => Some(changes),
        _ => None,
    }
}

/// The block that a store finds damaged as it is asked for this.
pub fn block_blamed<D: Disk>(
    store: &mut Store,
    disk: &mut D,
    out: &mut PairBuf,
    command: &Command<'_>,
) -> Option<u32> {
    match told(store, disk, out, command) {
        Some(Reply::Refused(Refusal::Damaged { block })) => Some(block),
        _ => None,
    }
}
