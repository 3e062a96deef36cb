//! A bounded cache of blocks of arrays.

ghost use Rattle.std.specs.Bool.{OnTrue};
ghost use Rattle.std.specs.Map.{lookup};
ghost use Rattle.std.specs.Prelude.{◌≡◌, ◌≤◌, ◌<◌, ◌+◌, ◌-◌, ◌/◌, [], length, is_some, IsSome, IfOk};
ghost use Rattle.lru.specs.LruCache.{LruCache as Shown};
ghost use Rattle.strat_array.specs.Kept.{AddsNone, AddsOnly, Blocks, is_keyed};
ghost use Rattle.strat_array.specs.Shown.{blocks_in};
ghost use Rattle.strat_array.specs.Within.{AreWithin};

use crate::hints::{Hints, Outline};
use crate::place::count_blocks;
use lru::LruCache;
use std::alloc::Global;
use std::marker::Model;
use std::num::NonZeroUsize;
use strat_base::{ArrayDesc, NoMemory};
use strat_block::{Block, BlockView};

/// Blocks of arrays, by the number of the array and the index of the block in it. When it is full, the block that
/// was used least recently makes room. A block in it was tested when it was read, and isn't tested again; a search
/// reads it where it is, and a walk copies it into its scratch once.
///
/// Beside the blocks it has hints where blocks began that were read: a search may go by them, and no answer does.
#[derive(Drop)]
pub struct Cache {
    blocks: LruCache<(u64, u32), Block>,
    hints: Hints,
    alloc: Global,
}

impl Model for Cache {
    ghost use Rattle.std.specs.Prelude.{◌≤◌, length};
    ghost use Rattle.strat_array.specs.Kept.{Blocks};
    ghost use Rattle.strat_array.specs.Shown.{blocks_in};

    ghost Value = { Blocks };

    ghost view = { λ c. blocks_in c.blocks };

    ghost invariant = { λ c. length c.blocks.entries ≤ c.blocks.cap };
}

/// Makes a block the most recently used, and says whether it is there.
fn touch_block(blocks: &mut LruCache<(u64, u32), Block>, array: u64, index: u32) -> bool
    ensures ok { result ≡ is_some (lookup (is_keyed array index) blocks.old.entries) }
    ensures found { OnTrue result (IsSome (lookup (is_keyed array index) blocks.new.entries)) }
    ensures kept { AddsNone (blocks_in blocks.old) (blocks_in blocks.new) }
    ensures len { length blocks.new.entries ≤ blocks.new.cap }
{
    let there = blocks.promote(&(array, index));
    // For the proof: the cache keeps no more blocks than it may.
    let _len = blocks.len();
    there
}

/// Keeps a block, where memory is found for it.
fn insert_block(blocks: &mut LruCache<(u64, u32), Block>, array: u64, index: u32, block: Block)
    ensures kept { AddsOnly (blocks_in blocks.old) (blocks_in blocks.new) (array, index) block }
    ensures len { length blocks.new.entries ≤ blocks.new.cap }
{
    let _kept = blocks.put((array, index), block).is_ok();
    // For the proof: the cache keeps no more blocks than it may.
    let _len = blocks.len();
}

impl Cache {
    /// An empty cache for so many blocks of 4,096 bytes; it takes memory for a block when it keeps it. It also takes
    /// 524,288 bytes for hints, and does without where they aren't there. The only error is want of memory.
    pub fn new(alloc: Global, blocks: usize) -> Result<Cache, NoMemory>
        requires { 1 ≤ blocks }
        ensures ok { IfOk result (λ c. c ≡ record { entries = []; cap = blocks }) }
    {
        let cap = NonZeroUsize::new(blocks).unwrap();
        let blocks = LruCache::new(alloc, cap)?;
        let hints = Hints::new(alloc);
        Ok(Cache {
            blocks,
            hints,
            alloc,
        })
    }

    /// Makes a block the most recently used, and says whether it is there. O(1).
    pub(crate) fn touch(&mut self, array: u64, index: u32) -> bool
        ensures ok { result ≡ is_some (lookup (is_keyed array index) self.old.entries) }
        ensures found { OnTrue result (IsSome (lookup (is_keyed array index) self.new.entries)) }
        ensures kept { AddsNone self.old self.new }
    {
        touch_block(&mut self.blocks, array, index)
    }

    /// Keeps a copy of the block at an index of an array, where memory is found for it, and remembers how it begins.
    /// O(extents) and one copy of 4,096 bytes.
    pub(crate) fn insert(&mut self, desc: &ArrayDesc, index: u32, block: &BlockView<'_>)
        requires fits { AreWithin desc.now.extents }
        ensures kept { AddsOnly self.old self.new (desc.now.id, index) block.now }
    {
        // For the proof: a block has an entry.
        let _some = block.len();
        let count = count_blocks(desc.extents.as_slice());
        let first = Outline::new(desc.id, count, block.key_at(0));
        self.hints.learn(&first, index);
        if let Ok(copy) = Block::new(self.alloc, block.bytes()) {
            insert_block(&mut self.blocks, desc.id, index, copy);
        }
    }

    /// A block that is there. O(1).
    pub(crate) fn block(&self, array: u64, index: u32) -> BlockView<'_>
        requires found { IsSome (lookup (is_keyed array index) self.now.entries) }
        ensures ok { lookup (is_keyed array index) self.now.entries ≡ Some result }
    {
        self.blocks.peek(&(array, index)).unwrap().view()
    }

    /// The block of an array to look at next in a search for a key, of those from `low` on and below `high`: the one
    /// that hints lead to, and if no tries are left the middle one. O(log blocks), without a read.
    pub(crate) fn probe(&self, key: &Outline, low: u32, high: u32, tries: u32) -> u32
        requires { low < high }
        ensures ok { (low ≤ result) × (result < high) }
        ensures none { tries ≡ 0 → result ≡ low + (high - low) / 2 }
    {
        if tries == 0 {
            return low + (high - low) / 2;
        }
        let guess = self.hints.guess(key, low, high);
        if guess.known != guess.next && self.blocks.contains(&(key.array, guess.known)) {
            guess.known
        } else {
            guess.next
        }
    }

    /// How many blocks are kept: never more than `new` was told. O(1).
    pub fn len(&self) -> usize
        ensures ok { result ≡ length self.now.entries }
        ensures room { result ≤ self.now.cap }
    {
        self.blocks.len()
    }
}
