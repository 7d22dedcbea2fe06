//! The limits of the core, and the numbers that its words are made of.

/// The number of seats at most.
pub const MAX_SEATS: usize = 32;

/// The number of disks at most.
pub const MAX_DISKS: u32 = 64;

/// The number of extents of a disk, each with a slot of its own.
pub const EXTENTS: u32 = 8;

/// The bias of a shared count, 2^63, which is in it while the reference is live:
/// `PERCPU_COUNT_BIAS` of the kernel.
pub const BIAS: u64 = 0x8000_0000_0000_0000;

/// The mode word of a live reference.
pub const LIVE: u64 = 0;

/// The mode word of a killed one.
pub const KILLED: u64 = 1;
