/// How many bytes one transfer has at most: 32 pages of 4 KiB, an MDTS of 5 (NVMe Base 2.0, Identify Controller).
pub const MAX_TRANSFER: usize = 131_072;

/// How many bytes a disk has at most: 16 MiB.
pub const MAX_DISK_BYTES: u64 = 16_777_216;
