ghost use Rattle.std.specs.Prelude.{◌≡◌, ◌≤◌, ◌<◌, ◌+◌, ◌*◌, ◌/◌, ◌^◌, ◌↔◌, IfOk, IsTrue, ◌++◌, length, take, drop, replicate, ◌⊎◌};
ghost use Rattle.mem_bdev.specs.Blocks.{Blocks, blank, range_bytes, written, zeroed, IsShape, IsWhole, IsInside};
ghost use Rattle.mem_bdev.specs.Texts.{HasRoom, appended};

use crate::buffer::Buffer;
use crate::limits::MAX_DISK_BYTES;
use crate::name::Name;
use crate::slices::{copy_in, copy_out, piece, zero_at};
use std::alloc::{AllocError, Global};
use std::marker::Model;

// The size of a block.
fn size_of(shift: u8) -> usize
    requires { (shift ≡ 9) ⊎ (shift ≡ 12) }
    ensures { result ≡ 2 ^ shift }
{
    if shift == 9 { 512 } else { 4096 }
}

fn zeros(alloc: Global, count: usize) -> Result<Vec<u8>, AllocError>
    ensures { IfOk result (λ v. v.items ≡ replicate count 0) }
{
    vec![in alloc; 0; count]
}

/// What a plan says of a disk: the path by which namespaces name it, the base 2 logarithm of its block size in bytes (9
/// or 12), and its number of blocks.
#[derive(Debug, Drop)]
pub struct DiskLine {
    pub path: Name,
    pub shift: u8,
    pub blocks: u64,
}

impl DiskLine {
    /// Whether a disk may have this shape: blocks of 512 or 4,096 bytes, at least one, at most 16 MiB together.
    pub fn is_shape(&self) -> bool
        ensures { IsTrue result ↔ IsShape self.now.shift self.now.blocks }
    {
        if self.shift == 9 {
            1 <= self.blocks && self.blocks <= MAX_DISK_BYTES / 512
        } else {
            self.shift == 12 && 1 <= self.blocks && self.blocks <= MAX_DISK_BYTES / 4_096
        }
    }
}

/// A disk in memory. Contracts see its block size and the list of its blocks.
#[derive(Drop)]
pub struct Disk {
    shift: u8,
    size: usize,
    blocks: u64,
    bytes: Vec<u8>,
}

impl Model for Disk {
    ghost use Rattle.mem_bdev.specs.Blocks.{Blocks};

    ghost Value = { Blocks };

    ghost use Rattle.std.specs.Prelude.{length, ◌≡◌, ◌≤◌, ◌<◌, ◌*◌, ◌^◌};
    ghost use Rattle.mem_bdev.specs.Blocks.{cut};
    ghost use Rattle.mem_bdev.specs.declared.limits.TheConstants.{MAX_DISK_BYTES};

    ghost view = { λ d. record { shift = d.shift; blocks = cut d.blocks (2 ^ d.shift) d.bytes.items } };

    ghost invariant = { λ d. (d.size ≡ 2 ^ d.shift) × (length d.bytes.items ≡ d.blocks * 2 ^ d.shift) × (d.size ≤ 4096) × (d.shift ≤ 12) × (length d.bytes.items ≤ MAX_DISK_BYTES) };
}

impl Disk {
    /// A disk of zeros, with blocks of 2 ^ `shift` bytes.
    pub fn new(alloc: Global, shift: u8, blocks: u64) -> Result<Self, AllocError>
        requires { IsShape shift blocks }
        ensures { IfOk result (λ d. d ≡ blank shift blocks) }
    {
        let size = size_of(shift);
        let bytes = zeros(alloc, blocks as usize * size)?;
        Ok(Disk {
            shift,
            size,
            blocks,
            bytes,
        })
    }

    /// The base 2 logarithm of the block size: 9 or 12.
    pub fn shift(&self) -> u8
        ensures value { result ≡ self.now.shift }
        ensures small { result ≤ 12 }
    {
        self.shift
    }

    /// The block size in bytes: 512 or 4,096.
    pub fn block_size(&self) -> usize
        ensures size { result ≡ 2 ^ self.now.shift }
        ensures small { result ≤ 4096 }
    {
        self.size
    }

    /// The number of blocks, which have at most 16 MiB together.
    pub fn blocks(&self) -> u64
        ensures value { result ≡ length self.now.blocks }
        ensures small { result * 2 ^ self.now.shift ≤ MAX_DISK_BYTES }
    {
        self.blocks
    }

    /// Reads whole blocks from the block `lba` on, as many as `to` has room for. Takes no memory.
    pub fn read(&self, lba: u64, to: &mut [u8])
        requires { IsWhole self.now lba (length to.old) }
        ensures { to.new ≡ range_bytes self.now lba (length to.old / 2 ^ self.now.shift) }
    {
        let start = lba as usize * self.size;
        copy_out(&self.bytes, start, to);
    }

    /// Appends the bytes of `count` blocks from the block `lba` on, for which there is room: one copy. Takes no memory.
    #[inline(always)]
    pub fn append(&self, lba: u64, count: u64, to: &mut Buffer)
        requires inside { IsInside self.now lba count }
        requires room { HasRoom to.old (count * 2 ^ self.now.shift) }
        ensures value { to.new ≡ appended to.old (range_bytes self.now lba count) }
        ensures len { length to.new.bytes ≡ length to.old.bytes + count * 2 ^ self.now.shift }
    {
        let start = lba as usize * self.size;
        let len = count as usize * self.size;
        to.put(piece(&self.bytes, start, len));
    }

    /// Writes whole blocks from the block `lba` on, and leaves the others. Takes no memory.
    pub fn write(&mut self, lba: u64, from: &[u8])
        requires { IsWhole self.old lba (length from.now) }
        ensures { self.new ≡ written self.old lba from.now }
    {
        let start = lba as usize * self.size;
        copy_in(&mut self.bytes, start, from);
    }

    /// Zeroes `count` blocks from the block `lba` on, and leaves the others. Takes no memory.
    pub fn zero(&mut self, lba: u64, count: u64)
        requires { IsInside self.old lba count }
        ensures { self.new ≡ zeroed self.old lba count }
    {
        let start = lba as usize * self.size;
        let len = count as usize * self.size;
        zero_at(&mut self.bytes, start, len);
    }
}
