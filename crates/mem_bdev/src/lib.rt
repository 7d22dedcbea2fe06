//! Disks in memory as lists of blocks, and the small types that the layers above share: names and transfer buffers.
//!
//! A disk is a list of blocks. What is read is the concatenation of the range's blocks; after a write or a zeroing, block
//! i is the piece of the bytes that falls on it, or zeros, or what it was, by whether i is in the range. After Linux
//! `brd` and nvmet's bdev backend (drivers/nvme/target/io-cmd-bdev.c), in memory and without a page cache.
#![tactic(auto)]

mod buffer;
mod disk;
mod law;
mod limits;
mod name;
mod slices;
#[cfg(test)]
mod tests;

pub use buffer::Buffer;
pub use disk::{Disk, DiskLine};
pub use law::{write_by_blocks, zero_by_blocks};
pub use limits::{MAX_DISK_BYTES, MAX_TRANSFER};
pub use name::Name;
