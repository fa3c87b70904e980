//! Disks: one file that is read, written and synced in places. This crate says what a crash may
//! leave of it, and knows nothing of what the bytes mean.
#![tactic(auto)]

mod disks;
mod files;
mod fuse;
mod locked;
mod memory;
mod parts;
mod stable;

pub use disks::Disk;
pub use files::FileDisk;
pub use fuse::FuseDisk;
pub use memory::MemoryDisk;
pub use stable::write_stable;
