//! A list of pairs of key and value that grows at its end, where no pair ever moves.

ghost use Rattle.std.specs.Prelude.{◌≡◌, ℕ, ◌+◌, ◌<◌, ◌≤◌, ◌^◌, [], ◌∷◌, ◌++◌, length, slice_index_or, IfOk, OnOk, OnErr};
ghost use Rattle.strat_arena.specs.ArenaView.{KeyValue, ArenaView, no_arena, total_size};
ghost use Rattle.strat_arena.specs.ChunkView.{ChunkView};
ghost use Rattle.strat_arena.specs.Items.{entry_of_item};
ghost use Rattle.strat_base.specs.EntryView.{entry_of};
ghost use Rattle.strat_arena.specs.Chunks.{newest, HasSpace, Extends};

use crate::chunk::Chunk;
use crate::items::{Item, Slot, val_unless};
use std::alloc::Global;
use std::marker::Model;
use strat_base::{Entry, NoMemory};

/// Where a pair lies: the key from `start` up to `mid` in its chunk, and the value from there up to `end`.
#[derive(Clone, Copy)]
pub(crate) struct PairPlace {
    chunk: usize,
    start: usize,
    mid: usize,
    end: usize,
}

/// Pairs of key and value by their slots, and room for more. Bytes go into the newest chunk alone. It
/// has room for all that is used and all that is spare, so that `clear` can make everything spare
/// again without taking memory.
#[derive(Drop)]
pub struct Arena {
    alloc: Global,
    chunks: Vec<Chunk>,
    places: Vec<PairPlace>,
    used_bytes: usize,
    spare_pairs: usize,
    spare_bytes: usize,
}

impl Model for Arena {
    ghost use Rattle.strat_arena.specs.ArenaView.{ArenaView};

    ghost Value = { ArenaView };

    ghost use Rattle.strat_arena.specs.ArenaFields.{arena_in, IsLaidOut};

    ghost view = { arena_in };

    ghost invariant = { IsLaidOut };
}

impl Arena {
    /// An arena without pairs and without room. It takes no memory.
    pub fn new(alloc: Global) -> Arena
        ensures ok { result ≡ no_arena }
    {
        Arena {
            alloc,
            chunks: Vec::new(alloc),
            places: Vec::new(alloc),
            used_bytes: 0,
            spare_pairs: 0,
            spare_bytes: 0,
        }
    }

    /// Makes room for so many more pairs, of so many bytes together. Where bytes are short it takes a
    /// new chunk for those that are used and as many again, or those that are asked for if they are more;
    /// no byte is copied.
    pub fn reserve(&mut self, pairs: u32, bytes: u32) -> Result<(), NoMemory>
        requires fits { length self.old.pairs + pairs ≤ 2 ^ 32 }
        ensures same { self.new.pairs ≡ self.old.pairs }
        ensures ok { OnOk result ((pairs ≤ self.new.spare_pairs) × (bytes ≤ self.new.spare_bytes)) }
        ensures kept { self.old.spare_pairs ≤ self.new.spare_pairs }
        ensures room { self.old.spare_bytes ≤ self.new.spare_bytes }
        ensures err { OnErr result (self.new ≡ self.old) }
    {
        self.places.reserve(pairs as usize)?;
        let used = self.used_bytes;
        let spare = self.spare_bytes;
        let spare = make_space(self.alloc, &mut self.chunks, used, spare, bytes as usize)?;
        self.spare_pairs = self.spare_pairs.max(pairs as usize);
        self.spare_bytes = spare;
        Ok(())
    }

    /// Adds a pair at the end, in the time of copying its bytes. It takes no memory and cannot fail.
    pub fn push(&mut self, key: &[u8], value: &[u8]) -> Slot
        requires room { 0 < self.old.spare_pairs }
        requires fits { length key.now + length value.now ≤ self.old.spare_bytes }
        ensures found { result.0 ≡ length self.old.pairs }
        ensures ok { self.new.pairs
            ≡ self.old.pairs ++ record { key = key.now; value = value.now } ∷ [] }
        ensures len { length self.new.pairs ≡ length self.old.pairs + 1 }
        ensures room { self.new.spare_pairs + 1 ≡ self.old.spare_pairs }
        ensures fits { self.new.spare_bytes + (length key.now + length value.now)
            ≡ self.old.spare_bytes }
    {
        let slot = Slot(self.places.len() as u32);
        let size = key.len() + value.len();
        let last = self.chunks.len() - 1;
        let place = append_pair(&mut self.chunks[last], last, key, value);
        self.places.push_reserved(place);
        self.used_bytes += size;
        self.spare_pairs -= 1;
        self.spare_bytes -= size;
        slot
    }

    /// The key of a pair. O(1).
    pub fn key(&self, s: Slot) -> &[u8]
        requires { s.0 < length self.now.pairs }
        ensures { (d : KeyValue) → result.now ≡ (slice_index_or self.now.pairs s.0 d).key }
    {
        let place = self.places[s.0 as usize];
        self.chunks[place.chunk].part(place.start, place.mid)
    }

    /// The value of a pair. O(1).
    pub fn value(&self, s: Slot) -> &[u8]
        requires { s.0 < length self.now.pairs }
        ensures { (d : KeyValue) → result.now ≡ (slice_index_or self.now.pairs s.0 d).value }
    {
        let place = self.places[s.0 as usize];
        self.chunks[place.chunk].part(place.mid, place.end)
    }

    /// The entry of an item. O(1).
    pub fn entry(&self, item: Item) -> Entry<'_>
        requires { item.slot.0 < length self.now.pairs }
        ensures { entry_of result ≡ entry_of_item self.now.pairs item }
    {
        Entry {
            key: self.key(item.slot),
            version: item.version,
            val: val_unless(item.gone, self.value(item.slot)),
        }
    }

    /// Forgets all pairs. What they used is spare again. It takes no memory, and gives all chunks but
    /// the newest back.
    pub fn clear(&mut self)
        ensures ok { self.new ≡ record {
          pairs = [];
          spare_pairs = self.old.spare_pairs + length self.old.pairs;
          spare_bytes = self.old.spare_bytes + total_size self.old.pairs;
        } }
    {
        keep_newest(&mut self.chunks);
        self.spare_pairs += self.places.len();
        self.spare_bytes += self.used_bytes;
        self.used_bytes = 0;
        self.places.clear();
    }
}

/// Adds a chunk for so many bytes.
fn add_chunk(alloc: Global, chunks: &mut Vec<Chunk>, capacity: usize) -> Result<(), NoMemory>
    ensures ok { OnOk result (chunks.new.items
        ≡ chunks.old.items ++ record { bytes = []; capacity = capacity } ∷ []) }
    ensures err { OnErr result (chunks.new.items ≡ chunks.old.items) }
{
    chunks.reserve(1)?;
    let chunk = Chunk::new(alloc, capacity)?;
    chunks.push_reserved(chunk);
    Ok(())
}

/// Has the newest chunk hold all bytes that are used and, beside them, those that are spare or asked
/// for, whichever are more. A new chunk holds at least twice what is used, so that an arena that grows
/// pair by pair takes memory in proportion to its bytes. The answer is how many are spare then.
fn make_space(
    alloc: Global,
    chunks: &mut Vec<Chunk>,
    used: usize,
    spare: usize,
    bytes: usize,
) -> Result<usize, NoMemory>
    requires { HasSpace chunks.old.items used spare }
    ensures ok { IfOk result (λ s. HasSpace chunks.new.items used s) }
    ensures room { IfOk result (λ s. (bytes ≤ s) × (spare ≤ s)) }
    ensures found { OnOk result (0 < length chunks.new.items) }
    ensures same { Extends chunks.old.items chunks.new.items }
    ensures err { OnErr result (chunks.new.items ≡ chunks.old.items) }
{
    if bytes <= spare && !chunks.is_empty() {
        return Ok(spare);
    }
    let more = bytes.max(used);
    let Some(capacity) = used.checked_add(more) else {
        return Err(NoMemory);
    };
    add_chunk(alloc, chunks, capacity)?;
    Ok(more)
}

/// Copies a pair behind the bytes of a chunk.
fn append_pair(chunk: &mut Chunk, number: usize, key: &[u8], value: &[u8]) -> PairPlace
    requires { length chunk.old.bytes + (length key.now + length value.now) ≤ chunk.old.capacity }
    ensures found { result ≡ record {
      chunk = number;
      start = length chunk.old.bytes;
      mid = length chunk.old.bytes + length key.now;
      end = length chunk.old.bytes + (length key.now + length value.now);
    } }
    ensures ok { chunk.new.bytes ≡ chunk.old.bytes ++ key.now ++ value.now }
    ensures same { chunk.new.capacity ≡ chunk.old.capacity }
    ensures fits { chunk.old.capacity < 2 ^ 64 }
{
    let start = chunk.len();
    chunk.append(key);
    let mid = chunk.len();
    chunk.append(value);
    PairPlace {
        chunk: number,
        start,
        mid,
        end: chunk.len(),
    }
}

/// Gives all chunks but the newest back, and empties that.
fn keep_newest(chunks: &mut Vec<Chunk>)
    ensures ok { newest chunks.new.items
        ≡ record { bytes = []; capacity = (newest chunks.old.items).capacity } }
    ensures len { length chunks.new.items ≤ 1 }
    ensures found { 0 < length chunks.old.items → 0 < length chunks.new.items }
    ensures fits { (newest chunks.old.items).capacity < 2 ^ 64 }
{
    if chunks.is_empty() {
        return;
    }
    let last = chunks.len() - 1;
    chunks.swap(0, last);
    chunks.truncate(1);
    chunks[0].clear();
}
