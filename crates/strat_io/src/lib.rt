//! Where bytes come from and where they go: sources and sinks, in memory for tests and over the
//! standard streams.
#![tactic(auto)]

mod memory;
mod sink;
mod source;
mod standard;

pub use memory::{MemSink, MemSource};
pub use sink::{Sink, put_all};
pub use source::Source;
pub use standard::{StdSink, StdSource};
