//! Writing a block.

ghost use Rattle.std.specs.Prelude.{◌≡◌, ◌<◌, ◌≤◌, ◌+◌, ◌*◌, ◌++◌, [], ◌∷◌, ℕ, length, nat_le, nat_eq, Some, IsTrue, slice_index};
ghost use Rattle.std.specs.Bool.{OnTrue, OnFalse};
ghost use Rattle.strat_base.specs.Entries.{is_ascending};
ghost use Rattle.strat_base.specs.EntryBytes.{fits_fields};
ghost use Rattle.strat_base.specs.EntryView.{entry_of};
ghost use Rattle.strat_base.specs.Numbers.{placed};
ghost use Rattle.strat_block.specs.Collected.{shifted};
ghost use Rattle.def_bytes.specs.Block.{block_front, block_in, IsBlock};

use std::marker::Model;
use strat_base::limits::BLOCK;
use strat_base::{Entry, entry_size, put_entry, put_u16};

/// No block has more entries: the shortest has seven bytes, and two for its offset.
const ENTRIES_MOST: usize = 454;

/// Writes bytes at an offset.
fn put_part(into: &mut [u8], at: usize, bytes: &[u8])
    requires { at + length bytes.now ≤ length into.old }
    ensures ok { into.new ≡ placed into.old at bytes.now }
{
    into[at..at + bytes.len()].copy_from_slice(bytes);
}

/// Writes the offsets of entries that begin at these places behind the first.
fn put_offsets(into: &mut [u8], first: u16, starts: &[u16])
    requires room { 2 + 2 * length starts.now ≤ length into.old }
    requires fits { (i : ℕ) → first + slice_index starts.now i < 65536 }
    ensures ok { into.new ≡ placed into.old 2 (shifted first starts.now) }
{
    for (i, start) in starts.iter().enumerate() {
        put_u16(into, 2 + 2 * i, first + *start);
    }
}

/// A block that is being written, seen as the entries that it has so far. It takes no memory.
#[derive(Drop)]
pub struct BlockWriter {
    count: usize,
    used: usize,
    starts: [u16; ENTRIES_MOST],
    text: [u8; BLOCK],
}

impl Model for BlockWriter {
    ghost use Rattle.std.specs.Prelude.{List};
    ghost use Rattle.strat_base.specs.Entries.{Entry as TheEntry};
    ghost use Rattle.strat_block.specs.Collected.{Collected, collected};

    ghost Value = { List TheEntry };

    ghost view = { λ w. collected w.count w.text };

    ghost invariant = { λ w. Collected (collected w.count w.text) w.count w.used w.starts w.text };
}

impl BlockWriter {
    /// A block without entries. O(bytes of a block).
    pub fn new() -> BlockWriter
        ensures ok { result ≡ [] }
    {
        BlockWriter {
            count: 0,
            used: 0,
            starts: [0; ENTRIES_MOST],
            text: [0; BLOCK],
        }
    }

    /// Whether there are no entries yet. O(1).
    pub fn is_empty(&self) -> bool
        ensures ok { result ≡ nat_eq (length self.now) 0 }
    {
        self.count == 0
    }

    /// Adds an entry that stands behind all others, or gives false where the block has no room for it, and
    /// nothing has changed then. O(bytes of the entry).
    pub fn push(&mut self, e: &Entry<'_>) -> bool
        requires fits { IsTrue (fits_fields (entry_of e.now)) }
        requires kept { IsTrue (is_ascending (self.old ++ entry_of e.now ∷ [])) }
        ensures room { result
            ≡ nat_le (length (block_front (self.old ++ entry_of e.now ∷ []))) 4096 }
        ensures ok { OnTrue result (self.new ≡ self.old ++ entry_of e.now ∷ []) }
        ensures same { OnFalse result (self.new ≡ self.old) }
    {
        let size = entry_size(e);
        if 4 + 2 * self.count + self.used + size > BLOCK {
            return false;
        }
        self.starts[self.count] = self.used as u16;
        put_entry(e, &mut self.text, self.used);
        self.count += 1;
        self.used += size;
        true
    }

    /// The bytes of the block. O(bytes of a block): each byte of an entry is copied once more.
    pub fn spell(&self) -> [u8; BLOCK]
        requires { 0 < length self.now }
        ensures ok { block_in result ≡ Some self.now }
        ensures kept { IsBlock result self.now }
    {
        let mut block = [0; BLOCK];
        let first = 2 + 2 * self.count;
        put_u16(&mut block, 0, self.count as u16);
        put_offsets(&mut block, first as u16, &self.starts[..self.count]);
        put_part(&mut block, first, &self.text[..self.used]);
        block
    }

    /// The bytes of the block, as `spell` gives them.
    pub fn finish(self) -> [u8; BLOCK]
        requires { 0 < length self }
        ensures ok { block_in result ≡ Some self }
        ensures kept { IsBlock result self }
    {
        self.spell()
    }

    /// Forgets all entries. O(1).
    pub fn clear(&mut self)
        ensures ok { self.new ≡ [] }
    {
        self.count = 0;
        self.used = 0;
    }
}
