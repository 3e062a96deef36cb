//! The serving run: frames from a source, carried out by a store, and replies to a sink. A source of a
//! workload's frames, and a sink that keeps nothing. The loop is that of `strat_loop`.
#![tactic(auto)]

mod drawing;
mod framing;
mod generating;
pub mod laws;
mod replying;
mod serving;
pub mod workloads;

pub use generating::{GenSource, NullSink};
pub use replying::Replies;
pub use serving::serve;
pub use strat_loop::{Protocol, serve_by};
