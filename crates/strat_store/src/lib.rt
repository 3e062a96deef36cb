//! Commands of an open store. Making a store and reading one are re-exported from `strat_open`.
#![tactic(auto)]

mod changing;
mod cursors;
pub mod damage_laws;
pub mod export_laws;
mod filtering;
mod get;
mod level_lookup;
pub mod looking_laws;
mod scan;
mod staging;
pub mod staging_laws;
mod store;

pub use store::Store;
pub use strat_memory::{belonging_laws, memory_laws};
pub use strat_open::{AttachFault, FormatFault, Reading, format, read_store};
pub use strat_publish::publishing_laws;
