//! Blocks of an array that are read one by one, with no cache.

ghost use Rattle.std.specs.Prelude.{◌<◌, IfOk};
ghost use Rattle.strat_array.specs.Within.{AreWithin};

use crate::built::{FULL, Shape, block_of, many, two};
use crate::reads::is_number;
use std::alloc::Global;
use std::process::Abort;
use std::test::Fail;
use strat_array::{BlockNumbers, Scratch};
use strat_base::{Extent, Extents, NoMemory};
use strat_disk::MemDisk;

/// Whether a scratch reads the block at an index of the array, and has its entries then.
fn has_block(disk: &mut MemDisk, index: u32, block: u32, scratch: &mut Scratch) -> bool
    requires { (block < 4294967295) × (index < 40) }
{
    let Ok(()) = scratch.fetch(disk, 7, index, block) else {
        return false;
    };
    let count = scratch.count();
    for i in 0..count {
        let n = FULL * index + u32::from(i);
        if !is_number(&scratch.entry(i), Shape::Many, n) {
            return false;
        }
    }
    u32::from(count) == FULL
}

/// Whether the numbers are those of the array's blocks in order, and each is that of a block with its entries.
fn fetches(disk: &mut MemDisk, numbers: &mut BlockNumbers, scratch: &mut Scratch) -> bool {
    for index in 0..40 {
        let Some(block) = numbers.next() else {
            return false;
        };
        if block != block_of(index) || !has_block(disk, index, block, scratch) {
            return false;
        }
    }
    numbers.next().is_none() && numbers.next().is_none()
}

#[test]
fn blocks_are_fetched_one_by_one(rt: HostRuntime) -> Result<(), Fail> {
    let mut s = many(rt.alloc())?;
    let mut numbers = BlockNumbers::new(rt.alloc(), &s.desc.extents)?;
    assert!(rt; fetches(&mut s.disk, &mut numbers, &mut s.scratch));
    assert!(rt; s.disk.reads() == 40);
    Ok(())
}

/// Two blocks from 11 on, behind or before an extent of no blocks.
fn with_empty(alloc: Global, behind: bool) -> Result<Extents, NoMemory>
    ensures fits { IfOk result (λ l. AreWithin l) }
{
    let empty = Extent { start: 10, len: 0 };
    let blocks = Extent { start: 11, len: 2 };
    if behind {
        two(alloc, empty, blocks)
    } else {
        two(alloc, blocks, empty)
    }
}

/// Whether these are the numbers 11 and 12.
fn are_two(mut numbers: BlockNumbers) -> bool {
    let first = numbers.next() == Some(11) && numbers.next() == Some(12);
    first && numbers.next().is_none()
}

#[test]
fn an_extent_of_no_blocks_is_passed(rt: HostRuntime) -> Result<(), Fail> {
    let behind = with_empty(rt.alloc(), true)?;
    assert!(rt; are_two(BlockNumbers::new(rt.alloc(), &behind)?));
    let before = with_empty(rt.alloc(), false)?;
    assert!(rt; are_two(BlockNumbers::new(rt.alloc(), &before)?));
    Ok(())
}
