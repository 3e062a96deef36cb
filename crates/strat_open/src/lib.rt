//! Making a store on a disk, and recovering it: what stands there is taken into memory.
#![tactic(auto)]

mod attach_fault;
mod formatting;
mod new_manifest;
mod reading;
mod recovery;

pub use attach_fault::AttachFault;
pub use formatting::{FormatFault, format};
pub use reading::{Reading, read_store};
pub use recovery::open;
