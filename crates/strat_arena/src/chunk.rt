//! A piece of memory of fixed size that is filled from its beginning.

ghost use Rattle.std.specs.Prelude.{◌≡◌, ◌+◌, ◌≤◌, ◌<◌, ◌^◌, [], ◌++◌, length, slice_range, IfOk};
ghost use Rattle.strat_arena.specs.Filled.{with_bytes};

use crate::raw::{Address, Cells, Lease, allocate, deallocate};
use std::alloc::{AllocError, Global};
use std::marker::Model;

/// Bytes that never move, up to a number that is fixed when the chunk is made.
pub(crate) struct Chunk {
    alloc: Global,
    start: Address,
    cells: Cells,
    lease: Lease<Global>,
    capacity: usize,
    written: usize,
}

impl Model for Chunk {
    ghost use Rattle.strat_arena.specs.ChunkView.{ChunkView};

    ghost Value = { ChunkView };

    ghost use Rattle.strat_arena.specs.ChunkFields.{chunk_of, IsChunk};

    ghost view = { chunk_of };

    ghost invariant = { IsChunk };
}

impl Drop for Chunk {
    fn drop(self) {
        let Chunk {
            alloc,
            start,
            cells,
            lease,
            capacity,
            written: _,
        } = self;
        deallocate(&alloc, start, capacity, cells, lease);
    }
}

/// Copies bytes into the cells from an index on.
fn write_all(cells: &mut Cells, start: Address, from: usize, piece: &[u8])
    requires { (start.ptr ≡ cells.old.at)
        × (from + length piece.now ≤ length cells.old.slots)
        × (length cells.old.slots < 2 ^ 64) }
    ensures same { cells.new.at ≡ cells.old.at }
    ensures ok { cells.new.slots ≡ with_bytes cells.old.slots from piece.now }
{
    let mut at = from;
    for byte in piece {
        cells.write(start, at, *byte);
        at += 1;
    }
}

impl Chunk {
    /// An empty chunk for `capacity` bytes, which are taken here.
    pub(crate) fn new(alloc: Global, capacity: usize) -> Result<Chunk, AllocError>
        ensures ok { IfOk result (λ c. c ≡ record { bytes = []; capacity = capacity }) }
    {
        if capacity >= 1 << 63 {
            return Err(AllocError);
        }
        let (start, cells, lease) = allocate(&alloc, capacity)?;
        Ok(Chunk {
            alloc,
            start,
            cells,
            lease,
            capacity,
            written: 0,
        })
    }

    /// The number of bytes. O(1).
    pub(crate) fn len(&self) -> usize
        ensures ok { result ≡ length self.now.bytes }
        ensures room { result ≤ self.now.capacity }
        ensures fits { self.now.capacity < 2 ^ 64 }
    {
        // For the proof: the capacity fits in 64 bits.
        let _capacity = self.capacity;
        self.written
    }

    /// Copies bytes behind those that are there.
    pub(crate) fn append(&mut self, piece: &[u8])
        requires room { length self.old.bytes + length piece.now ≤ self.old.capacity }
        ensures ok { self.new.bytes ≡ self.old.bytes ++ piece.now }
        ensures same { self.new.capacity ≡ self.old.capacity }
    {
        // For the proof: the capacity fits in 64 bits.
        let _capacity = self.capacity;
        write_all(&mut self.cells, self.start, self.written, piece);
        self.written += piece.len();
    }

    /// The bytes from `start` up to `end`. O(1).
    pub(crate) fn part(&self, start: usize, end: usize) -> &[u8]
        requires { (start ≤ end) × (end ≤ length self.now.bytes) }
        ensures { result.now ≡ slice_range self.now.bytes start end }
    {
        let bytes = self.cells.front(self.start, self.written);
        &bytes[start..end]
    }

    /// Forgets all bytes and keeps the memory.
    pub(crate) fn clear(&mut self)
        ensures ok { self.new ≡ record { bytes = []; capacity = self.old.capacity } }
        ensures fits { self.old.capacity < 2 ^ 64 }
    {
        // For the proof: the capacity fits in 64 bits.
        let _capacity = self.capacity;
        self.written = 0;
    }
}
