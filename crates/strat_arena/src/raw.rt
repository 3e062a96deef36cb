//! One block of memory, seen as a row of cells that each hold a byte or nothing. The raw pointers of
//! the store stand here, in four functions.
//!
//! Three things go with a block. Its `Address` is a pointer that may be copied and owns nothing. Its
//! `Cells` own the memory, and its `Lease` is the right to give it back; both are for proofs alone and
//! take no space.

ghost use Rattle.std.specs.Prelude.{◌≡◌, ℕ, ◌<◌, ◌≤◌, ◌^◌, List, Option, Some, None, map, length, take, replicate, slice_set, IfOk};
ghost use base.Fml.{ftrue};
ghost use denote.RawPtr.{Ptr};
ghost use Rattle.strat_arena.specs.Ownership.{cells_own, cells_lent, lease_owns};
ghost use Rattle.strat_arena.specs.Filled.{BeginsFilled};

use std::alloc::{AllocError, Allocator};
use std::marker::{Model, PhantomData};
use std::slice;

/// Where a block begins.
#[derive(Clone, Copy)]
pub(crate) struct Address {
    ptr: *mut u8,
}

/// The cells of a block, which begins at `at`.
pub(crate) struct Cells {
    mark: PhantomData<*const u8>,
    ghost at: { Ptr },
    ghost slots: { List (Option ℕ) },
}

impl Model for Cells {
    ghost also_owns = { λ c. cells_own c.at c.slots };

    ghost also_shares = { λ c _ κ. cells_lent c.at c.slots κ };
}

/// The right to give the block of `len` cells at `at` back to `alloc`.
pub(crate) struct Lease<A: Allocator> {
    mark: PhantomData<*const A>,
    ghost at: { Ptr },
    ghost len: { ℕ },
    ghost alloc: { A },
}

impl<A: Allocator> Model for Lease<A> {
    ghost also_owns = { λ d. lease_owns (A.dealloc_token d.alloc) d.at d.len };

    ghost also_shares = { λ _ _ _. ftrue };
}

/// Takes a block of empty cells.
pub(crate) fn allocate<A: Allocator>(
    alloc: &A,
    len: usize,
) -> Result<(Address, Cells, Lease<A>), AllocError>
    requires { len < 2 ^ 63 }
    ensures { IfOk result (λ r. (r.1.at ≡ r.0.ptr) × (r.1.slots ≡ replicate len None)
        × (r.2.at ≡ r.0.ptr) × (r.2.len ≡ len) × (r.2.alloc ≡ alloc.now)) }
{
    match alloc.allocate(len, 1) {
        Ok(ptr) => Ok((
            Address { ptr },
            Cells { mark: PhantomData },
            Lease { mark: PhantomData },
        )),
        Err(error) => Err(error),
    }
}

/// Gives a block back, whatever its cells hold.
pub(crate) fn deallocate<A: Allocator>(
    alloc: &A,
    start: Address,
    len: usize,
    cells: Cells,
    lease: Lease<A>,
)
    requires { (cells.at ≡ start.ptr) × (length cells.slots ≡ len) × (lease.at ≡ start.ptr)
        × (lease.len ≡ len) × (lease.alloc ≡ alloc.now) }
{
    let Cells { mark: _ } = cells;
    let Lease { mark: _ } = lease;
    unsafe {
        alloc.deallocate(start.ptr, len, 1);
    }
}

impl Cells {
    /// Puts a byte into a cell, whatever that holds.
    pub(crate) fn write(&mut self, start: Address, index: usize, byte: u8)
        requires { (start.ptr ≡ self.old.at) × (index < length self.old.slots) }
        ensures { (self.new.at ≡ self.old.at)
            × (self.new.slots ≡ slice_set self.old.slots index (Some byte)) }
    {
        unsafe { start.ptr.add(index).write(byte) }
    }

    /// The bytes of the first `len` cells.
    pub(crate) fn front(&self, start: Address, len: usize) -> &[u8]
        requires { (start.ptr ≡ self.now.at) × BeginsFilled self.now.slots len }
        ensures { take len self.now.slots ≡ map Some result.now }
    {
        unsafe { slice::from_raw_parts(start.ptr, len) }
    }
}
