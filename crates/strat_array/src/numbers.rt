//! The numbers of an array's blocks, one after the other.

ghost use Rattle.std.specs.List.{range_with_len};
ghost use Rattle.std.specs.Prelude.{◌≡◌, ◌≤◌, ◌<◌, ◌+◌, [], ◌∷◌, ◌++◌, length, drop, IfOk, IfSome, IfNone};
ghost use Rattle.def_bytes.specs.Arrays.{blocks_of};
ghost use Rattle.strat_array.specs.Within.{AreWithin};

use std::alloc::Global;
use std::marker::Model;
use strat_base::{Extent, Extents, NoMemory};

/// The numbers of an array's blocks that are left, in the order of its extents.
#[derive(Drop)]
pub struct BlockNumbers {
    extents: Extents,
    at: usize,
    left: Extent,
}

impl Model for BlockNumbers {
    ghost use Rattle.std.specs.Prelude.{List, ℕ};
    ghost use Rattle.strat_array.specs.NumberFields.{numbers_left, AreNumbers};

    ghost Value = { List ℕ };

    ghost view = { numbers_left };

    ghost invariant = { AreNumbers };
}

/// An equal list of extents, in the time of copying it.
pub(crate) fn copied(alloc: Global, extents: &Extents) -> Result<Extents, NoMemory>
    ensures ok { IfOk result (λ l. l ≡ extents.now) }
{
    let mut copy = Extents::new(alloc);
    for x in extents.as_slice() {
        if let Err((failed, _)) = copy.push(*x) {
            return Err(failed);
        }
    }
    Ok(copy)
}

/// A run of blocks, or where it is empty the first extent from a place on that isn't, and the place behind it.
#[tactic(auto, using(crate::proofs::NumberLemmas::empty_before))]
fn first_left(extents: &[Extent], at: &mut usize, left: Extent) -> Extent
    requires kept { AreWithin extents.now }
    requires fits { left.start + left.len ≤ 4294967295 }
    ensures ok { range_with_len result.start result.len ++ blocks_of (drop at.new extents.now)
        ≡ range_with_len left.start left.len ++ blocks_of (drop at.old extents.now) }
    ensures none { result.len ≡ 0 → length extents.now ≤ at.new }
    ensures fits { result.start + result.len ≤ 4294967295 }
{
    let mut first = left;
    while first.len == 0 && *at < extents.len() {
        first = extents[*at];
        *at += 1;
    }
    first
}

impl BlockNumbers {
    /// The numbers of all blocks of these extents, in the time of copying the extents. The only error is want of
    /// memory.
    pub fn new(alloc: Global, extents: &Extents) -> Result<BlockNumbers, NoMemory>
        requires fits { AreWithin extents.now }
        ensures ok { IfOk result (λ n. n ≡ blocks_of extents.now) }
    {
        let extents = copied(alloc, extents)?;
        let left = Extent { start: 0, len: 0 };
        Ok(BlockNumbers {
            extents,
            at: 0,
            left,
        })
    }

    /// The next number, or `None` where none is left. O(1), but for extents of no blocks, of which each is passed once.
    pub fn next(&mut self) -> Option<u32>
        ensures found { IfSome result (λ b. self.old ≡ b ∷ self.new) }
        ensures none { IfNone result ((self.old ≡ []) × (self.new ≡ [])) }
        ensures fits { IfSome result (λ b. b < 4294967295) }
    {
        let first = first_left(self.extents.as_slice(), &mut self.at, self.left);
        if first.len == 0 {
            self.left = first;
            return None;
        }
        self.left = Extent {
            start: first.start + 1,
            len: first.len - 1,
        };
        Some(first.start)
    }
}
