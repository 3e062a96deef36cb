//! Places in an array: which block of the disk stands at an index of it, and how many there are.

ghost use Rattle.std.specs.List.{slice_get};
ghost use Rattle.std.specs.Prelude.{◌≡◌, ◌<◌, ◌+◌, ◌-◌, ◌^◌, length, IfSome};
ghost use Rattle.def_bytes.specs.Arrays.{blocks_of};
ghost use Rattle.strat_array.specs.Within.{AreWithin};

use strat_base::Extent;

/// A place in an array: the index of a block, counted from 0 in the order of the extents, and the index of an
/// entry in it. An index at or above the number of entries stands for the first entry of the next block, and past
/// the last block nothing is left.
#[derive(Clone, Copy, Debug, PartialEq, Eq)]
pub struct Place {
    pub block: u32,
    pub index: u16,
}

impl Place {
    /// The place behind an entry. O(1).
    pub fn next(self) -> Place
        requires { self.index < 65535 }
        ensures ok { result ≡ record { block = self.block; index = self.index + 1 } }
    {
        Place {
            block: self.block,
            index: self.index + 1,
        }
    }
}

/// The number of the block at an index, or `None` past the last. O(extents).
#[tactic(auto, using(crate::proofs::ExtentLemmas::block_here, crate::proofs::ExtentLemmas::block_later))]
pub(crate) fn block_at(extents: &[Extent], index: u32) -> Option<u32>
    requires fits { AreWithin extents.now }
    ensures ok { result ≡ slice_get (blocks_of extents.now) index }
    ensures fits { IfSome result (λ b. b < 2 ^ 32 - 1) }
{
    let mut rest = index;
    for x in extents {
        if rest < x.len {
            return Some(x.start + rest);
        }
        rest -= x.len;
    }
    None
}

/// How many blocks there are. O(extents).
#[tactic(auto, using(crate::proofs::ExtentLemmas::blocks_more))]
pub(crate) fn count_blocks(extents: &[Extent]) -> u32
    requires fits { AreWithin extents.now }
    ensures ok { result ≡ length (blocks_of extents.now) }
{
    let mut n = 0;
    for x in extents {
        n += x.len;
    }
    n
}
