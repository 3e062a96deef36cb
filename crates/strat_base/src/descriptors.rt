//! Descriptors: where an array lies on the disk and for which versions it is, and the arrays of a level.

ghost use Rattle.std.specs.Prelude.{◌≡◌, ◌<◌, ◌-◌, List, [], ◌∷◌, ◌++◌, length, take, slice_index_or, IfOk, IfErr, OnOk, OnErr, IfSome, IfNone};

use crate::entries::Version;
use crate::failures::NoMemory;
use crate::lists::Listing;
use smallvec::SmallVec;
use std::alloc::Global;
use std::marker::Model;

/// `len` blocks from block `start` on.
#[derive(Clone, Copy, Debug, Default, PartialEq, Eq)]
pub struct Extent {
    pub start: u32,
    pub len: u32,
}

/// Extents that an array's descriptor keeps in itself; more of them take memory.
const FEW: usize = 4;

/// A list of extents. The first four take no memory.
#[derive(Drop)]
pub struct Extents {
    items: SmallVec<Extent, FEW>,
}

impl Model for Extents {
    ghost use Rattle.std.specs.Prelude.{List};
    ghost use Rattle.strat_base.specs.declared.descriptors.Extent.{Extent};

    ghost Value = { List Extent };

    ghost view = { λ l. l.items.items };
}

impl Extents {
    /// The empty list. O(1).
    pub fn new(alloc: Global) -> Extents
        ensures ok { result ≡ [] }
    {
        Extents {
            items: SmallVec::new(alloc),
        }
    }

    /// Adds an extent at the end, in O(1) on average. Where no memory is left it hands the extent back.
    pub fn push(&mut self, x: Extent) -> Result<(), (NoMemory, Extent)>
        ensures ok { OnOk result (self.new ≡ self.old ++ x ∷ []) }
        ensures err { OnErr result (self.new ≡ self.old) }
        ensures same { IfErr result (λ e. e.1 ≡ x) }
    {
        match self.items.push(x) {
            Ok(()) => Ok(()),
            Err(failed) => Err((NoMemory, failed.value)),
        }
    }

    /// Takes the last extent, or answers `None` where there is none. O(1).
    pub fn pop(&mut self) -> Option<Extent>
        ensures found { IfSome result (λ x. self.old ≡ self.new ++ x ∷ []) }
        ensures none { IfNone result ((self.old ≡ []) × (self.new ≡ [])) }
    {
        self.items.pop()
    }

    /// Puts an extent in the place of the last. O(1).
    pub fn replace_last(&mut self, x: Extent)
        requires { 0 < length self.old }
        ensures ok { self.new ≡ take (length self.old - 1) self.old ++ x ∷ [] }
    {
        let last = self.items.len() - 1;
        self.items.as_mut_slice()[last] = x;
    }

    /// The number of extents. O(1).
    pub fn len(&self) -> usize
        ensures ok { result ≡ length self.now }
    {
        self.items.len()
    }

    /// An extent, counted from 0. O(1).
    pub fn get(&self, i: usize) -> &Extent
        requires { i < length self.now }
        ensures ok { result.now ≡ slice_index_or self.now i result.now }
    {
        &self.items.as_slice()[i]
    }

    /// The extents. O(1).
    pub fn as_slice(&self) -> &[Extent]
        ensures ok { result.now ≡ self.now }
    {
        self.items.as_slice()
    }
}

/// A list of versions.
pub type Versions = Listing<u32>;

/// The descriptor of an array: its number, how many entries it has, how many of them are leads, the
/// least number of keys that are live at a version of its tag, its blocks, and its tag.
#[derive(Drop)]
pub struct ArrayDesc {
    pub id: u64,
    pub entries: u32,
    pub leads: u32,
    pub least: u32,
    pub extents: Extents,
    pub versions: Versions,
}

/// A list of descriptors of arrays.
pub type Arrays = Listing<ArrayDesc>;

/// The descriptor of a level: its number, how many versions there were when it was made, and its
/// arrays.
#[derive(Drop)]
pub struct LevelDesc {
    pub number: u8,
    pub horizon: u32,
    pub arrays: Arrays,
}

/// An equal list of versions, in the time of copying it.
fn copied(versions: &Versions) -> Result<Versions, NoMemory>
    ensures ok { IfOk result (λ l. l ≡ versions.now) }
{
    let mut copy = Listing::new(versions.allocator());
    copy.extend(versions.as_slice())?;
    Ok(copy)
}

impl ArrayDesc {
    /// An equal descriptor, in the time of copying its extents and its tag.
    pub fn try_clone(&self) -> Result<ArrayDesc, NoMemory>
        ensures ok { IfOk result (λ a. a ≡ self.now) }
    {
        let extents = Extents {
            items: SmallVec::from_slice(*self.extents.items.allocator(), self.extents.as_slice())?,
        };
        let versions = copied(&self.versions)?;
        Ok(ArrayDesc {
            id: self.id,
            entries: self.entries,
            leads: self.leads,
            least: self.least,
            extents,
            versions,
        })
    }
}
