//! Blocks that are written from entries, and compared with bytes.

ghost use Rattle.std.specs.Prelude.{◌≡◌, ◌<◌, ◌≤◌, length, map, IfOk, IsTrue};
ghost use Rattle.std.specs.List.{list_all};
ghost use Rattle.strat_base.specs.Entries.{is_ascending};
ghost use Rattle.strat_base.specs.EntryBytes.{fits_fields};
ghost use Rattle.strat_base.specs.EntryView.{entry_of};

use std::alloc::Global;
use strat_base::limits::BLOCK;
use strat_base::{Entry, NoMemory};
use strat_block::{Block, BlockView, BlockWriter, is_block};

/// A writer with these entries, or the place of the first that has no room.
pub(crate) fn filled(entries: &[Entry<'_>]) -> Result<BlockWriter, usize>
    requires kept { IsTrue (is_ascending (map entry_of entries.now)) }
    requires fits { IsTrue (list_all fits_fields (map entry_of entries.now)) }
    ensures ok { IfOk result (λ w. w ≡ map entry_of entries.now) }
{
    let mut writer = BlockWriter::new();
    for (i, e) in entries.iter().enumerate() {
        if !writer.push(e) {
            return Err(i);
        }
    }
    Ok(writer)
}

/// These bytes, and zeros behind them.
pub(crate) fn padded(front: &[u8]) -> [u8; BLOCK]
    requires { length front.now ≤ 4096 }
{
    let mut block = [0; BLOCK];
    block[..front.len()].copy_from_slice(front);
    block
}

/// Whether these entries are written as these bytes, and zeros behind them.
pub(crate) fn is_written_as(entries: &[Entry<'_>], front: &[u8]) -> bool
    requires some { 0 < length entries.now }
    requires kept { IsTrue (is_ascending (map entry_of entries.now)) }
    requires fits { IsTrue (list_all fits_fields (map entry_of entries.now)) }
    requires room { length front.now ≤ 4096 }
{
    match filled(entries) {
        Ok(writer) => writer.finish()[..] == padded(front)[..],
        Err(_) => false,
    }
}

/// Whether a block of these bytes has these entries.
pub(crate) fn is_read_as(front: &[u8], entries: &[Entry<'_>]) -> bool
    requires { length front.now ≤ 4096 }
{
    let block = padded(front);
    let Some(view) = BlockView::parse(&block) else {
        return false;
    };
    if view.len() != entries.len() {
        return false;
    }
    for (i, e) in entries.iter().enumerate() {
        if view.entry(i) != *e {
            return false;
        }
    }
    true
}

/// Whether the bytes are a block after one of them was changed.
pub(crate) fn is_block_with(front: &[u8], at: usize, byte: u8) -> bool
    requires room { length front.now ≤ 4096 }
    requires fits { at < 4096 }
{
    let mut block = padded(front);
    block[at] = byte;
    is_block(&block)
}

/// Where the first key at or after this one stands in a block of these bytes.
pub(crate) fn first_of(front: &[u8], key: &[u8]) -> Option<usize>
    requires { length front.now ≤ 4096 }
{
    let block = padded(front);
    let view = BlockView::parse(&block)?;
    Some(view.first_at_or_after(key))
}

/// How many entries an owned copy of a block of these bytes has.
pub(crate) fn count_of_copy(alloc: Global, front: &[u8]) -> Result<usize, NoMemory>
    requires { length front.now ≤ 4096 }
{
    let block = padded(front);
    match BlockView::parse(&block) {
        Some(view) => {
            let copy = Block::new(alloc, view.bytes())?;
            Ok(copy.view().len())
        }
        None => Ok(0),
    }
}
