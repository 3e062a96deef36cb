//! Blocks as their entries.

ghost use Rattle.std.specs.Prelude.{◌≡◌, ◌<◌, ◌≤◌, length, IsSome, Some, IfOk, IsTrue, slice_index_or};
ghost use Rattle.strat_base.specs.Entries.{Entry as TheEntry};
ghost use Rattle.strat_base.specs.EntryBytes.{fits_fields, is_markable};
ghost use Rattle.strat_base.specs.EntryView.{entry_of, val_of};
ghost use Rattle.strat_base.specs.Sizes.{is_key};
ghost use Rattle.strat_block.specs.Places.{entries_of_block, stands_below, IsFirstFrom};
ghost use Rattle.def_bytes.specs.Block.{block_in, fits_block};

use crate::check::is_block;
use std::alloc::Global;
use std::marker::Model;
use strat_base::limits::BLOCK;
use strat_base::{Entry, NoMemory, Val, Version, get_entry, get_u16, key_order};

/// How many entries a block has.
fn count(bytes: &[u8]) -> usize
    requires { IsSome (block_in bytes.now) }
    ensures ok { result ≡ length (entries_of_block bytes.now) }
{
    get_u16(bytes, 0).unwrap() as usize
}

/// The i-th entry of a block, which stands at the i-th offset.
fn entry_at_place(bytes: &[u8], i: usize) -> Entry<'_>
    requires kept { IsSome (block_in bytes.now) }
    requires fits { i < length (entries_of_block bytes.now) }
    ensures ok { (d : TheEntry) → entry_of result
        ≡ slice_index_or (entries_of_block bytes.now) i d }
    ensures fits { IsTrue (fits_fields (entry_of result)) }
{
    let at = get_u16(bytes, 2 + 2 * i).unwrap() as usize;
    get_entry(bytes, at).unwrap().0
}

/// The bytes of a block, known to be one, and seen as its entries.
#[derive(Drop)]
pub struct BlockView<'a> {
    bytes: &'a [u8],
}

impl<'a> Model for BlockView<'a> {
    ghost use Rattle.std.specs.Prelude.{List, IsSome};
    ghost use Rattle.strat_base.specs.Entries.{Entry as TheEntry};
    ghost use Rattle.strat_block.specs.Places.{entries_of_block};
    ghost use Rattle.def_bytes.specs.Block.{block_in};

    ghost Value = { List TheEntry };

    ghost view = { λ b. entries_of_block b.bytes.now };

    ghost invariant = { λ b. IsSome (block_in b.bytes.now) };
}

impl<'a> BlockView<'a> {
    /// The block in these bytes, or `None` where they are not those of a block. One pass, O(bytes), with no
    /// memory taken.
    pub fn parse(bytes: &'a [u8; BLOCK]) -> Option<BlockView<'a>>
        ensures ok { result ≡ block_in bytes.now }
    {
        if is_block(bytes) {
            Some(BlockView::of(bytes))
        } else {
            None
        }
    }

    /// The block in bytes that are known to be those of a block: they are not read. O(1).
    pub fn of(bytes: &'a [u8]) -> BlockView<'a>
        requires { IsSome (block_in bytes.now) }
        ensures ok { block_in bytes.now ≡ Some result }
    {
        BlockView { bytes }
    }

    /// The bytes of the block. O(1).
    pub fn bytes(&self) -> &'a [u8]
        ensures ok { block_in result.now ≡ Some self.now }
        ensures len { length result.now ≡ 4096 }
    {
        self.bytes
    }

    /// How many entries there are: at least one. O(1).
    pub fn len(&self) -> usize
        ensures ok { result ≡ length self.now }
        ensures len { 0 < result }
        ensures fits { result ≤ 454 }
        ensures kept { IsTrue (fits_block self.now) }
    {
        count(self.bytes)
    }

    /// The i-th entry. O(1).
    pub fn entry(&self, i: usize) -> Entry<'a>
        requires { i < length self.now }
        ensures ok { (d : TheEntry) → entry_of result ≡ slice_index_or self.now i d }
        ensures fits { IsTrue (fits_fields (entry_of result)) }
    {
        entry_at_place(self.bytes, i)
    }

    /// The key of the i-th entry. O(1).
    pub fn key_at(&self, i: usize) -> &'a [u8]
        requires { i < length self.now }
        ensures ok { (d : TheEntry) → result.now ≡ (slice_index_or self.now i d).key }
        ensures fits { IsTrue (is_key result.now) }
    {
        self.entry(i).key
    }

    /// The version of the i-th entry. O(1).
    pub fn version_at(&self, i: usize) -> Version
        requires { i < length self.now }
        ensures ok { (d : TheEntry) → result ≡ (slice_index_or self.now i d).version }
    {
        self.entry(i).version
    }

    /// What the i-th entry says of its key. O(1).
    pub fn val_at(&self, i: usize) -> Val<'a>
        requires { i < length self.now }
        ensures ok { (d : TheEntry) → val_of result ≡ (slice_index_or self.now i d).value }
        ensures fits { IsTrue (is_markable (val_of result)) }
    {
        self.entry(i).val
    }

    /// Whether the key of the i-th entry is before this one.
    fn is_below(&self, i: usize, key: &[u8]) -> bool
        requires { i < length self.now }
        ensures ok { (d : TheEntry) → result ≡ stands_below key.now (slice_index_or self.now i d) }
    {
        key_order(self.key_at(i), key).is_lt()
    }

    /// The place of the first entry whose key is at or after this one, or how many there are where none is.
    /// O(log entries) comparisons.
    pub fn first_at_or_after(&self, key: &[u8]) -> usize
        ensures ok { IsFirstFrom key.now self.now result }
    {
        let mut low = 0;
        let mut high = self.len();
        while low < high {
            let mid = low + (high - low) / 2;
            if self.is_below(mid, key) {
                low = mid + 1;
            } else {
                high = mid;
            }
        }
        low
    }
}

/// The bytes of a block, owned, known to be one, and seen as its entries.
#[derive(Drop)]
pub struct Block {
    bytes: Vec<u8>,
}

impl Model for Block {
    ghost use Rattle.std.specs.Prelude.{List, IsSome};
    ghost use Rattle.strat_base.specs.Entries.{Entry as TheEntry};
    ghost use Rattle.strat_block.specs.Places.{entries_of_block};
    ghost use Rattle.def_bytes.specs.Block.{block_in};

    ghost Value = { List TheEntry };

    ghost view = { λ b. entries_of_block b.bytes.items };

    ghost invariant = { λ b. IsSome (block_in b.bytes.items) };
}

impl Block {
    /// A copy of bytes that are known to be those of a block: they are not tested. O(bytes).
    pub fn new(alloc: Global, bytes: &[u8]) -> Result<Block, NoMemory>
        requires { IsSome (block_in bytes.now) }
        ensures ok { IfOk result (λ b. block_in bytes.now ≡ Some b) }
    {
        let mut copy = Vec::with_capacity(alloc, bytes.len())?;
        copy.extend_from_slice(bytes)?;
        Ok(Block { bytes: copy })
    }

    /// The block, to be read. O(1).
    pub fn view(&self) -> BlockView<'_>
        ensures ok { result ≡ self.now }
    {
        BlockView::of(&self.bytes)
    }
}
