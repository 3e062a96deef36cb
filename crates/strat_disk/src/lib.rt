//! Disks whose crashes are part of their contract: what a crash at any moment may leave is named by clauses.
#![tactic(auto)]

mod disk;
mod event;
mod faults;
mod file;
mod fuse;
mod log;
mod memory;
mod one_file;
mod plane;

pub use disk::{Disk, write_through};
pub use file::FileDisk;
pub use fuse::FuseDisk;
pub use memory::MemDisk;
