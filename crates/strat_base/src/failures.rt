//! Why a call gave up. Exhausted memory, a failed device and a damaged block are kept apart everywhere.

use std::alloc::{AllocError, AllocFailed};
use thiserror::Error;

/// Memory ran out. What the call was given is as before, unless its clauses say otherwise.
#[derive(Clone, Copy, Debug, PartialEq, Eq)]
pub struct NoMemory;

impl From<AllocError> for NoMemory {
    fn from(_: AllocError) -> NoMemory {
        NoMemory
    }
}

impl<T: Drop> From<AllocFailed<T>> for NoMemory {
    fn from(_: AllocFailed<T>) -> NoMemory {
        NoMemory
    }
}

/// A source, a sink or a disk failed, and counted that as a fault.
#[derive(Clone, Copy, Debug, PartialEq, Eq)]
pub struct Failed;

/// Why a call that only reads a disk gave up.
#[derive(Clone, Copy, Debug, PartialEq, Eq, Error)]
pub enum Fault {
    /// The disk failed.
    #[error("the device failed")]
    Device,
    /// The bytes of this block are not what should stand there.
    #[error("block {block} is damaged")]
    Damaged { block: u32 },
}

/// Why a call that takes memory and reads or writes a disk gave up.
#[derive(Clone, Copy, Debug, PartialEq, Eq, Error)]
pub enum Trouble {
    /// Memory ran out.
    #[error("out of memory")]
    NoMemory,
    /// The disk failed.
    #[error("the device failed")]
    Device,
    /// The bytes of this block are not what should stand there.
    #[error("block {block} is damaged")]
    Damaged { block: u32 },
}
