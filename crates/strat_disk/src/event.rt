//! What happened to a disk in memory.

/// A write or a sync.
#[derive(Drop)]
pub enum Event {
    /// These bytes were written from this place on.
    Wrote(usize, Vec<u8>),
    /// All that was pending became durable.
    Synced,
}
