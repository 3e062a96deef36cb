//! Entries of the largest size, three of which fill a block.

ghost use Rattle.std.specs.Prelude.{◌≡◌, ◌≤◌};

use crate::levels::merge_in;
use crate::scene::put;
use crate::sliced::WHOLE;
use std::alloc::Global;
use strat_base::limits::BLOCK;
use strat_base::{Entry, Trouble};
use strat_disk::{Disk, MemDisk};
use strat_level::Levels;

/// The keys, in order.
const KEYS: [&[u8]; 8] = [
    &[1; 255], &[2; 255], &[3; 255], &[4; 255], &[5; 255], &[6; 255], &[7; 255], &[8; 255],
];

/// Four entries with every other key, from the first or the second on.
pub(crate) fn four(from: usize) -> [Entry<'static>; 4]
    requires { from ≤ 1 }
{
    [
        put(KEYS[from], 0, &[9; 1024]),
        put(KEYS[from + 2], 0, &[9; 1024]),
        put(KEYS[from + 4], 0, &[9; 1024]),
        put(KEYS[from + 6], 0, &[9; 1024]),
    ]
}

/// Fills the blocks before 7, and promotes four entries to level 1: three are in block 7 and one is in block 8.
pub(crate) fn set_up(
    alloc: Global,
    levels: &mut Levels,
    disk: &mut MemDisk,
) -> Result<bool, Trouble> {
    for block in 0..7u64 {
        if disk.write_at(block * BLOCK as u64, &[171; BLOCK]).is_err() {
            return Ok(false);
        }
    }
    let told = merge_in(alloc, &[], &four(0), levels, 1, disk, WHOLE)?;
    Ok(disk.sync().is_ok() && told.target == 1 && disk.bytes().len() == 9 * BLOCK)
}
