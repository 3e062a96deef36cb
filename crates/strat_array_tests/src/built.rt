//! Arrays on a disk in memory, whose entries are known by their numbers.

ghost use Rattle.std.specs.Prelude.{◌≡◌, ◌<◌, ◌≤◌, ◌+◌, [], ◌∷◌, length, IfOk};
ghost use Rattle.strat_base.specs.declared.descriptors.Extent.{Extent as AnExtent};
ghost use Rattle.strat_array.specs.Within.{AreWithin};

use std::alloc::{AllocError, Global};
use strat_array::Scratch;
use strat_base::limits::BLOCK;
use strat_base::{ArrayDesc, Extent, Extents, NoMemory, PairBuf, Trouble, Version, Versions};
use strat_disk::{Disk, MemDisk};
use strat_tree::Tree;

/// Entries of a full block.
pub(crate) const FULL: u32 = 75;

/// Which entries an array has.
#[derive(Clone, Copy, PartialEq, Eq)]
pub(crate) enum Shape {
    /// A thousand keys, each at versions 5, 2 and 0; every seventh entry is a deletion.
    Many,
    /// One key at versions 200 to 0.
    One,
}

/// The key of an entry.
pub(crate) fn key_of(shape: Shape, n: u32) -> [u8; 4] {
    match shape {
        Shape::Many => {
            let k = n / 3;
            [
                b'k',
                b'0' + (k / 100 % 10) as u8,
                b'0' + (k / 10 % 10) as u8,
                b'0' + (k % 10) as u8,
            ]
        }
        Shape::One => *b"same",
    }
}

/// The version of an entry.
pub(crate) fn version_of(shape: Shape, n: u32) -> Version {
    match (shape, n % 3) {
        (Shape::One, _) => 200 - n.min(200),
        (Shape::Many, 0) => 5,
        (Shape::Many, 1) => 2,
        (Shape::Many, _) => 0,
    }
}

/// The bytes of an entry's value, which are all the same, or `None` where its key is gone.
pub(crate) fn value_of(shape: Shape, n: u32) -> Option<u8> {
    if shape == Shape::Many && n % 7 == 0 {
        None
    } else {
        Some((n % 251) as u8)
    }
}

/// Adds a number of two bytes.
fn push_number(bytes: &mut Vec<u8>, n: u32) -> Result<(), AllocError> {
    bytes.push((n / 256 % 256) as u8)?;
    bytes.push((n % 256) as u8)?;
    Ok(())
}

/// Adds an entry.
fn push_entry(bytes: &mut Vec<u8>, shape: Shape, n: u32) -> Result<(), AllocError> {
    bytes.push(4)?;
    bytes.extend_from_slice(&key_of(shape, n))?;
    push_number(bytes, 0)?;
    push_number(bytes, version_of(shape, n))?;
    match value_of(shape, n) {
        None => Ok(bytes.push(0)?),
        Some(byte) => {
            bytes.extend_from_slice(&[1, 0, 40])?;
            bytes.extend_from_slice(&[byte; 40])
        }
    }
}

/// The bytes of a block with the entries from `first` up to `end`.
fn block_bytes(alloc: Global, shape: Shape, first: u32, end: u32) -> Result<Vec<u8>, AllocError>
    requires { (first ≤ end) × (end ≤ 3000) }
    ensures len { IfOk result (λ v. length v.items ≡ 4096) }
{
    let mut bytes = Vec::with_capacity(alloc, BLOCK)?;
    push_number(&mut bytes, end - first)?;
    let mut at = 2 + 2 * (end - first);
    for n in first..end {
        push_number(&mut bytes, at)?;
        let size = if value_of(shape, n).is_some() { 52 } else { 10 };
        at = at.wrapping_add(size);
    }
    for n in first..end {
        push_entry(&mut bytes, shape, n)?;
    }
    bytes.resize(BLOCK, 0)?;
    Ok(bytes)
}

/// The number of the block at an index: 20 blocks from 10 on, and others from 50 on.
pub(crate) fn block_of(index: u32) -> u32
    requires { index < 40 }
    ensures { result < 100 }
{
    if index < 20 { 10 + index } else { 30 + index }
}

/// Writes an array of so many entries.
pub(crate) fn write_array(
    alloc: Global,
    disk: &mut MemDisk,
    shape: Shape,
    count: u32,
) -> Result<(), Trouble>
    requires { count ≤ 3000 }
{
    for index in 0..40 {
        let first = FULL * index;
        if first < count {
            let end = count.min(first + FULL);
            let bytes = block_bytes(alloc, shape, first, end)?;
            disk.write_at(block_of(index) as u64 * BLOCK as u64, &bytes)?;
        }
    }
    Ok(())
}

/// Two extents.
pub(crate) fn two(alloc: Global, first: Extent, second: Extent) -> Result<Extents, NoMemory>
    ensures ok { IfOk result (λ l. l ≡ first ∷ second ∷ []) }
{
    let mut extents = Extents::new(alloc);
    let (Ok(()), Ok(())) = (extents.push(first), extents.push(second)) else {
        return Err(NoMemory);
    };
    Ok(extents)
}

/// The descriptor of an array in two extents.
pub(crate) fn described(alloc: Global) -> Result<ArrayDesc, NoMemory>
    ensures fits { IfOk result (λ a. AreWithin a.extents) }
{
    let first = Extent { start: 10, len: 20 };
    let second = Extent { start: 50, len: 20 };
    Ok(ArrayDesc {
        id: 7,
        entries: 0,
        leads: 0,
        least: 0,
        extents: two(alloc, first, second)?,
        versions: Versions::new(alloc),
    })
}

/// The descriptor of the array of one key, in blocks 10 to 12.
pub(crate) fn single(alloc: Global) -> Result<ArrayDesc, NoMemory>
    ensures fits { IfOk result (λ a. AreWithin a.extents) }
{
    let first = Extent { start: 10, len: 1 };
    let second = Extent { start: 11, len: 2 };
    Ok(ArrayDesc {
        id: 8,
        entries: 0,
        leads: 0,
        least: 0,
        extents: two(alloc, first, second)?,
        versions: Versions::new(alloc),
    })
}

/// A tree of seven versions: 1 is a child of 0, 2 of 1, 3 of 0, 4 of 3, 5 of 2, and 6 of 0.
pub(crate) fn seven(alloc: Global) -> Result<Tree, NoMemory>
    ensures len { IfOk result (λ t. length t.parents ≡ 7) }
{
    let mut tree = Tree::new(alloc, 7)?;
    tree.add_child(0);
    tree.add_child(1);
    tree.add_child(0);
    tree.add_child(3);
    tree.add_child(2);
    tree.add_child(0);
    Ok(tree)
}

/// A tree of 202 versions that are all children of version 0.
pub(crate) fn star(alloc: Global) -> Result<Tree, NoMemory>
    ensures len { IfOk result (λ t. length t.parents ≡ 202) }
{
    let mut tree = Tree::new(alloc, 202)?;
    for _v in 1..202u32 {
        tree.add_child(0);
    }
    Ok(tree)
}

/// A disk with an array, and all that its readers need.
#[derive(Drop)]
pub(crate) struct Shelf {
    pub disk: MemDisk,
    pub desc: ArrayDesc,
    pub tree: Tree,
    pub scratch: Scratch,
    pub out: PairBuf,
}

/// What stands beside an array's disk and its descriptor.
fn beside(alloc: Global, disk: MemDisk, desc: ArrayDesc, tree: Tree) -> Result<Shelf, NoMemory>
    ensures ok { IfOk result (λ s. (s.desc ≡ desc) × (s.tree ≡ tree)) }
{
    Ok(Shelf {
        disk,
        desc,
        tree,
        scratch: Scratch::new(alloc)?,
        out: PairBuf::new(alloc)?,
    })
}

/// A disk with an array of 3,000 entries in 40 blocks.
pub(crate) fn many(alloc: Global) -> Result<Shelf, Trouble>
    ensures fits { IfOk result (λ s. AreWithin s.desc.extents) }
    ensures len { IfOk result (λ s. length s.tree.parents ≡ 7) }
{
    let mut disk = MemDisk::new(alloc, &[])?;
    write_array(alloc, &mut disk, Shape::Many, 3000)?;
    let shelf = beside(alloc, disk, described(alloc)?, seven(alloc)?)?;
    Ok(shelf)
}

/// A disk with an array of one key's 201 entries in three blocks.
pub(crate) fn one(alloc: Global) -> Result<Shelf, Trouble>
    ensures fits { IfOk result (λ s. AreWithin s.desc.extents) }
    ensures len { IfOk result (λ s. length s.tree.parents ≡ 202) }
{
    let mut disk = MemDisk::new(alloc, &[])?;
    write_array(alloc, &mut disk, Shape::One, 201)?;
    let shelf = beside(alloc, disk, single(alloc)?, star(alloc)?)?;
    Ok(shelf)
}
