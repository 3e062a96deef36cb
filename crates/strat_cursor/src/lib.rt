//! Ranges of a version's pairs, through level 0 and the levels of a store.
#![tactic(auto)]

mod cursor;
pub mod cursor_laws;
mod cursors;
mod emit;
pub mod held_laws;
mod picking;
mod query;
mod scan_buffers;
mod scanning;
mod sources;
mod starting;
mod tournament;
mod view;
mod walk;

pub use cursors::{CursorFault, Cursors, NextFault};
pub use scan_buffers::ScanBuffers;
pub use scanning::scan;
pub use starting::arrays_at;
pub use view::{Picked, View};
pub use walk::Walk;
