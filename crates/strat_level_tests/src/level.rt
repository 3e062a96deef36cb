//! Level 0 after updates at drawn versions, in trees of several shapes. What it finds at each version is
//! compared with a walk from parent to parent over all updates in the order in which they were made.

ghost use Rattle.std.specs.Prelude.{◌≡◌, ◌<◌, ◌≤◌, ◌+◌, length, IfOk};
ghost use Rattle.strat_level.specs.Memtable.{ListStands, MemtableStands};

use std::alloc::{AllocError, Global};
use std::process::Abort;
use std::test::Fail;
use strat_arena::ArenaPool;
use strat_base::{NoMemory, Val, Version};
use strat_level::Zero;
use strat_tree::Tree;

/// Keys that are updated are numbered below this.
const KEYS: u8 = 6;

#[derive(Clone, Copy)]
enum Shape {
    /// Each version is the child of the one before it.
    Chain,
    /// Each version is a child of version 0.
    Star,
    /// The parent is drawn by a multiplication of the number.
    Mixed,
}

/// The parent of version v in a tree of this shape.
fn parent_in(shape: Shape, v: Version) -> Version
    requires { 1 ≤ v }
    ensures { result < v }
{
    match shape {
        Shape::Chain => v - 1,
        Shape::Star => 0,
        Shape::Mixed => (v.wrapping_mul(2_654_435_761) >> 8) % v,
    }
}

/// A tree of this shape with so many versions.
fn grown(alloc: Global, shape: Shape, versions: u32) -> Result<Tree, NoMemory>
    requires { (1 ≤ versions) × (versions ≤ 16384) }
    ensures len { IfOk result (λ t. length t.parents ≡ versions) }
{
    let mut tree = Tree::new(alloc, versions)?;
    for v in 1..versions {
        tree.add_child(parent_in(shape, v));
    }
    Ok(tree)
}

/// An update of a key: its value or, without one, its deletion.
#[derive(Clone, Copy)]
struct Update {
    key: u8,
    version: Version,
    value: Option<u8>,
}

/// Update number n, at one of so many versions. One in four is a deletion.
fn drawn(n: u32, versions: u32) -> Update
    requires { 1 ≤ versions }
{
    let mixed = n.wrapping_mul(2_654_435_761) >> 7;
    Update {
        key: (mixed % 6) as u8,
        version: (mixed / 6) % versions,
        value: if n % 4 == 3 {
            None
        } else {
            Some((n % 251) as u8)
        },
    }
}

/// Makes an update at level 0.
fn put(pool: &mut ArenaPool, zero: &mut Zero, update: Update)
    requires kept { MemtableStands pool.old zero.old }
    requires room { 1 ≤ zero.old.spare }
    ensures kept { MemtableStands pool.new zero.new }
    ensures room { zero.new.spare + 1 ≡ zero.old.spare }
{
    match update.value {
        None => zero.put(pool, update.version, &[update.key], Val::Gone),
        Some(value) => zero.put(pool, update.version, &[update.key], Val::Put(&[value])),
    }
}

/// Makes so many drawn updates, and answers them in their order.
fn filled(
    alloc: Global,
    pool: &mut ArenaPool,
    zero: &mut Zero,
    count: u32,
    versions: u32,
) -> Result<Vec<Update>, AllocError>
    requires kept { MemtableStands pool.old zero.old }
    requires room { count ≤ zero.old.spare }
    requires fits { 1 ≤ versions }
    ensures kept { MemtableStands pool.new zero.new }
{
    let mut log = Vec::new(alloc);
    for n in 0..count {
        let next = drawn(n, versions);
        put(pool, zero, next);
        log.push(next)?;
    }
    Ok(log)
}

/// What the last update of a key at a version says, if there is one.
fn latest(log: &[Update], key: u8, version: Version) -> Option<Option<u8>> {
    let mut last = None;
    for update in log {
        if update.key == key && update.version == version {
            last = Some(update.value);
        }
    }
    last
}

/// The parent of a version, if there is such a version and it has one.
fn parent(tree: &Tree, v: Version) -> Option<Version> {
    if v < tree.count() {
        tree.parent(v)
    } else {
        None
    }
}

/// The value that a walk from v finds: that of the nearest version with an update of the key.
fn walk_value(log: &[Update], tree: &Tree, key: u8, v: Version) -> Option<u8> {
    let mut at = v;
    for _ in 0..tree.count() {
        if let Some(value) = latest(log, key, at) {
            return value;
        }
        at = parent(tree, at)?;
    }
    None
}

/// The value that level 0 finds.
fn level_value(pool: &ArenaPool, zero: &Zero, tree: &Tree, key: u8, v: Version) -> Option<u8>
    requires kept { ListStands pool.now zero.now.list }
    requires fits { v < length tree.now.parents }
{
    let place = zero.find(pool, tree, &[key], v)?;
    zero.value(pool, place)?.first().copied()
}

/// Whether level 0 finds of each key at v what a walk does.
fn agrees_at(pool: &ArenaPool, zero: &Zero, tree: &Tree, log: &[Update], v: Version) -> bool
    requires kept { ListStands pool.now zero.now.list }
    requires fits { v < length tree.now.parents }
{
    for key in 0..KEYS + 1 {
        if level_value(pool, zero, tree, key, v) != walk_value(log, tree, key, v) {
            return false;
        }
    }
    true
}

/// The first version at which level 0 finds another thing than walks do.
fn first_difference(pool: &ArenaPool, zero: &Zero, tree: &Tree, log: &[Update]) -> Option<Version>
    requires kept { ListStands pool.now zero.now.list }
{
    for v in 0..tree.count() {
        if !agrees_at(pool, zero, tree, log, v) {
            return Some(v);
        }
    }
    None
}

/// Whether level 0 with so many updates agrees with walks in a tree of so many versions.
fn agrees(alloc: Global, shape: Shape, versions: u32, puts: u32) -> Result<bool, NoMemory>
    requires { (1 ≤ versions) × (versions ≤ 16384) × (4 ≤ puts) × (puts ≤ 4096) }
{
    let tree = grown(alloc, shape, versions)?;
    let mut pool = ArenaPool::new(alloc);
    let mut zero = Zero::new(alloc, &mut pool, puts)?;
    let log = filled(alloc, &mut pool, &mut zero, puts, versions)?;
    let same = first_difference(&pool, &zero, &tree, &log).is_none();
    zero.release(&mut pool);
    Ok(same)
}

#[test]
fn a_chain_finds_what_walks_do(rt: HostRuntime) -> Result<(), Fail> {
    assert!(rt; agrees(rt.alloc(), Shape::Chain, 40, 300)?);
    Ok(())
}

#[test]
fn a_star_finds_what_walks_do(rt: HostRuntime) -> Result<(), Fail> {
    assert!(rt; agrees(rt.alloc(), Shape::Star, 40, 300)?);
    Ok(())
}

#[test]
fn a_mixed_tree_finds_what_walks_do(rt: HostRuntime) -> Result<(), Fail> {
    assert!(rt; agrees(rt.alloc(), Shape::Mixed, 60, 400)?);
    Ok(())
}

#[test]
fn one_version_finds_its_latest_puts(rt: HostRuntime) -> Result<(), Fail> {
    assert!(rt; agrees(rt.alloc(), Shape::Chain, 1, 40)?);
    Ok(())
}
