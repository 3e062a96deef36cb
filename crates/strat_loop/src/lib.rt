//! The loop of a run: frames from a source, carried out by a store as a protocol says, and what is sent for them to a sink.
#![tactic(auto)]

mod answering;
mod grouping;
pub mod laws;
mod pending;
mod protocol;
mod serving;

pub use answering::Buffers;
pub use protocol::Protocol;
pub use serving::{open_store, serve_by, serve_open};
